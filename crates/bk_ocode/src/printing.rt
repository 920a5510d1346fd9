//! Printing sections.
ghost use Rattle.std.specs.Prelude.{◌≡◌, ◌++◌, [], ◌∷◌, ◌<◌, ◌≤◌, ◌^◌, List, length, Ok, Err, OnOk, OnErr, IsErr, is_err, if◌then◌else◌};
ghost use Rattle.std.specs.Io.KnownBytes.{Appends, Keeps};
ghost use Rattle.bk_base.specs.Devices.{Begins, AppendsPart};
ghost use Rattle.bk_base.specs.Decimal.{spelling};
ghost use Rattle.bk_ocode.specs.StmtText.{natural_word, label_word, byte_words, case_words, global_words, argument_words, spaced, stmt_text};
ghost use Rattle.bk_ocode.specs.SectionText.{section_text};
ghost use Rattle.bk_ocode.specs.SectionStmts.{stmts_of};
ghost use Rattle.bk_ocode.specs.StmtRange.{IsLabel, AreCases, AreEntries, InRange};
ghost use Rattle.bk_ocode.specs.Arguments.{words_in, IsArgument};

use crate::arguments::{Argument, argument_of, first_word};
use crate::section::Ocode;
use crate::stmt::{Case, GlobalEntry, Stmt};
use bk_base::limit::NAME_BYTES;
use bk_base::{ByteOut, Failed, put_all, put_word};

/// Writes a number after a blank.
fn put_number<O: ByteOut>(number: i32, out: &mut O) -> Result<(), Failed>
    ensures takes { OnOk result (Appends (O.taken out.old) (O.taken out.new) (32 ∷ spelling number)) }
    ensures part { OnErr result (AppendsPart (O.taken out.old) (O.taken out.new) (32 ∷ spelling number)) }
    ensures passes { Begins (O.passed out.old) (O.passed out.new) }
    ensures failed { OnErr result (O.faults out.new ≡ 1) }
    ensures failed_again { O.faults out.old ≡ 1 → (O.faults out.new ≡ 1) × Keeps (O.taken out.old) (O.taken out.new)
        × Keeps (O.passed out.old) (O.passed out.new) }
{
    out.put(b' ')?;
    put_word(number, out)?;
    Ok(())
}

/// Writes a number from 0 on after a blank.
fn put_natural<O: ByteOut>(number: u32, out: &mut O) -> Result<(), Failed>
    requires { number < 2 ^ 31 }
    ensures takes { OnOk result (Appends (O.taken out.old) (O.taken out.new) (32 ∷ natural_word number)) }
    ensures part { OnErr result (AppendsPart (O.taken out.old) (O.taken out.new) (32 ∷ natural_word number)) }
    ensures passes { Begins (O.passed out.old) (O.passed out.new) }
    ensures failed { OnErr result (O.faults out.new ≡ 1) }
    ensures failed_again { O.faults out.old ≡ 1 → (O.faults out.new ≡ 1) × Keeps (O.taken out.old) (O.taken out.new)
        × Keeps (O.passed out.old) (O.passed out.new) }
{
    put_number(number as i32, out)
}

/// Writes a label after a blank.
fn put_label<O: ByteOut>(label: u32, out: &mut O) -> Result<(), Failed>
    requires { IsLabel label }
    ensures takes { OnOk result (Appends (O.taken out.old) (O.taken out.new) (32 ∷ label_word label)) }
    ensures part { OnErr result (AppendsPart (O.taken out.old) (O.taken out.new) (32 ∷ label_word label)) }
    ensures passes { Begins (O.passed out.old) (O.passed out.new) }
    ensures failed { OnErr result (O.faults out.new ≡ 1) }
    ensures failed_again { O.faults out.old ≡ 1 → (O.faults out.new ≡ 1) × Keeps (O.taken out.old) (O.taken out.new)
        × Keeps (O.passed out.old) (O.passed out.new) }
{
    put_all(out, b" L")?;
    put_word(label as i32, out)?;
    Ok(())
}

/// Writes a byte as a number after a blank.
fn put_byte<O: ByteOut>(byte: u8, out: &mut O) -> Result<(), Failed>
    ensures takes { OnOk result (Appends (O.taken out.old) (O.taken out.new) (32 ∷ natural_word byte)) }
    ensures part { OnErr result (AppendsPart (O.taken out.old) (O.taken out.new) (32 ∷ natural_word byte)) }
    ensures passes { Begins (O.passed out.old) (O.passed out.new) }
    ensures failed { OnErr result (O.faults out.new ≡ 1) }
    ensures failed_again { O.faults out.old ≡ 1 → (O.faults out.new ≡ 1) × Keeps (O.taken out.old) (O.taken out.new)
        × Keeps (O.passed out.old) (O.passed out.new) }
{
    put_natural(u32::from(byte), out)
}

/// Writes bytes as numbers, each after a blank.
fn put_bytes<O: ByteOut>(bytes: &[u8], out: &mut O) -> Result<(), Failed>
    ensures takes { OnOk result (Appends (O.taken out.old) (O.taken out.new) (spaced (byte_words bytes.now))) }
    ensures part { OnErr result (AppendsPart (O.taken out.old) (O.taken out.new) (spaced (byte_words bytes.now))) }
    ensures passes { Begins (O.passed out.old) (O.passed out.new) }
    ensures failed { OnErr result (O.faults out.new ≡ 1) }
    ensures failed_again { O.faults out.old ≡ 1 → (O.faults out.new ≡ 1) × Keeps (O.taken out.old) (O.taken out.new)
        × Keeps (O.passed out.old) (O.passed out.new) }
{
    for byte in bytes {
        put_byte(*byte, out)?;
    }
    Ok(())
}

/// Writes how many bytes there are, and each, each after a blank.
fn put_counted<O: ByteOut>(bytes: &[u8], out: &mut O) -> Result<(), Failed>
    requires { length bytes.now ≤ NAME_BYTES }
    ensures takes { OnOk result (Appends (O.taken out.old) (O.taken out.new) (spaced (natural_word (length bytes.now) ∷ byte_words bytes.now))) }
    ensures part { OnErr result (AppendsPart (O.taken out.old) (O.taken out.new) (spaced (natural_word (length bytes.now) ∷ byte_words bytes.now))) }
    ensures passes { Begins (O.passed out.old) (O.passed out.new) }
    ensures failed { OnErr result (O.faults out.new ≡ 1) }
    ensures failed_again { O.faults out.old ≡ 1 → (O.faults out.new ≡ 1) × Keeps (O.taken out.old) (O.taken out.new)
        × Keeps (O.passed out.old) (O.passed out.new) }
{
    put_natural(bytes.len() as u32, out)?;
    put_bytes(bytes, out)?;
    Ok(())
}

/// Writes a case, its value and its label after a blank each.
fn put_case<O: ByteOut>(case: Case, out: &mut O) -> Result<(), Failed>
    requires { IsLabel case.label }
    ensures takes { OnOk result (Appends (O.taken out.old) (O.taken out.new) (spaced (spelling case.value ∷ label_word case.label ∷ []))) }
    ensures part { OnErr result (AppendsPart (O.taken out.old) (O.taken out.new) (spaced (spelling case.value ∷ label_word case.label ∷ []))) }
    ensures passes { Begins (O.passed out.old) (O.passed out.new) }
    ensures failed { OnErr result (O.faults out.new ≡ 1) }
    ensures failed_again { O.faults out.old ≡ 1 → (O.faults out.new ≡ 1) × Keeps (O.taken out.old) (O.taken out.new)
        × Keeps (O.passed out.old) (O.passed out.new) }
{
    put_number(case.value, out)?;
    put_label(case.label, out)?;
    Ok(())
}

/// Writes cases.
fn put_cases<O: ByteOut>(cases: &[Case], out: &mut O) -> Result<(), Failed>
    requires { AreCases cases.now }
    ensures takes { OnOk result (Appends (O.taken out.old) (O.taken out.new) (spaced (case_words cases.now))) }
    ensures part { OnErr result (AppendsPart (O.taken out.old) (O.taken out.new) (spaced (case_words cases.now))) }
    ensures passes { Begins (O.passed out.old) (O.passed out.new) }
    ensures failed { OnErr result (O.faults out.new ≡ 1) }
    ensures failed_again { O.faults out.old ≡ 1 → (O.faults out.new ≡ 1) × Keeps (O.taken out.old) (O.taken out.new)
        × Keeps (O.passed out.old) (O.passed out.new) }
{
    for case in cases {
        put_case(*case, out)?;
    }
    Ok(())
}

/// Writes a global and its label, each after a blank.
fn put_entry<O: ByteOut>(entry: GlobalEntry, out: &mut O) -> Result<(), Failed>
    requires number { entry.number < 2 ^ 31 }
    requires label { IsLabel entry.label }
    ensures takes { OnOk result (Appends (O.taken out.old) (O.taken out.new) (spaced (natural_word entry.number ∷ label_word entry.label ∷ []))) }
    ensures part { OnErr result (AppendsPart (O.taken out.old) (O.taken out.new) (spaced (natural_word entry.number ∷ label_word entry.label ∷ []))) }
    ensures passes { Begins (O.passed out.old) (O.passed out.new) }
    ensures failed { OnErr result (O.faults out.new ≡ 1) }
    ensures failed_again { O.faults out.old ≡ 1 → (O.faults out.new ≡ 1) × Keeps (O.taken out.old) (O.taken out.new)
        × Keeps (O.passed out.old) (O.passed out.new) }
{
    put_natural(entry.number, out)?;
    put_label(entry.label, out)?;
    Ok(())
}

/// Writes globals and their labels.
fn put_entries<O: ByteOut>(entries: &[GlobalEntry], out: &mut O) -> Result<(), Failed>
    requires { AreEntries entries.now }
    ensures takes { OnOk result (Appends (O.taken out.old) (O.taken out.new) (spaced (global_words entries.now))) }
    ensures part { OnErr result (AppendsPart (O.taken out.old) (O.taken out.new) (spaced (global_words entries.now))) }
    ensures passes { Begins (O.passed out.old) (O.passed out.new) }
    ensures failed { OnErr result (O.faults out.new ≡ 1) }
    ensures failed_again { O.faults out.old ≡ 1 → (O.faults out.new ≡ 1) × Keeps (O.taken out.old) (O.taken out.new)
        × Keeps (O.passed out.old) (O.passed out.new) }
{
    for entry in entries {
        put_entry(*entry, out)?;
    }
    Ok(())
}

/// Writes a label, how many bytes there are, and each, each after a blank.
fn put_named<O: ByteOut>(label: u32, bytes: &[u8], out: &mut O) -> Result<(), Failed>
    requires label { IsLabel label }
    requires short { length bytes.now ≤ NAME_BYTES }
    ensures takes { OnOk result (Appends (O.taken out.old) (O.taken out.new)
        (spaced (label_word label ∷ natural_word (length bytes.now) ∷ byte_words bytes.now))) }
    ensures part { OnErr result (AppendsPart (O.taken out.old) (O.taken out.new)
        (spaced (label_word label ∷ natural_word (length bytes.now) ∷ byte_words bytes.now))) }
    ensures passes { Begins (O.passed out.old) (O.passed out.new) }
    ensures failed { OnErr result (O.faults out.new ≡ 1) }
    ensures failed_again { O.faults out.old ≡ 1 → (O.faults out.new ≡ 1) × Keeps (O.taken out.old) (O.taken out.new)
        × Keeps (O.passed out.old) (O.passed out.new) }
{
    put_label(label, out)?;
    put_counted(bytes, out)?;
    Ok(())
}

/// Writes how many cases there are, the default, and each case.
fn put_switch<O: ByteOut>(default: u32, cases: &[Case], out: &mut O) -> Result<(), Failed>
    requires default { IsLabel default }
    requires cases { AreCases cases.now }
    ensures takes { OnOk result (Appends (O.taken out.old) (O.taken out.new)
        (spaced (natural_word (length cases.now) ∷ label_word default ∷ case_words cases.now))) }
    ensures part { OnErr result (AppendsPart (O.taken out.old) (O.taken out.new)
        (spaced (natural_word (length cases.now) ∷ label_word default ∷ case_words cases.now))) }
    ensures passes { Begins (O.passed out.old) (O.passed out.new) }
    ensures failed { OnErr result (O.faults out.new ≡ 1) }
    ensures failed_again { O.faults out.old ≡ 1 → (O.faults out.new ≡ 1) × Keeps (O.taken out.old) (O.taken out.new)
        × Keeps (O.passed out.old) (O.passed out.new) }
{
    put_natural(cases.len() as u32, out)?;
    put_label(default, out)?;
    put_cases(cases, out)?;
    Ok(())
}

/// Writes how many globals there are, and each with its label.
fn put_globals<O: ByteOut>(entries: &[GlobalEntry], out: &mut O) -> Result<(), Failed>
    requires { AreEntries entries.now }
    ensures takes { OnOk result (Appends (O.taken out.old) (O.taken out.new) (spaced (natural_word (length entries.now) ∷ global_words entries.now))) }
    ensures part { OnErr result (AppendsPart (O.taken out.old) (O.taken out.new) (spaced (natural_word (length entries.now) ∷ global_words entries.now))) }
    ensures passes { Begins (O.passed out.old) (O.passed out.new) }
    ensures failed { OnErr result (O.faults out.new ≡ 1) }
    ensures failed_again { O.faults out.old ≡ 1 → (O.faults out.new ≡ 1) × Keeps (O.taken out.old) (O.taken out.new)
        × Keeps (O.passed out.old) (O.passed out.new) }
{
    put_natural(entries.len() as u32, out)?;
    put_entries(entries, out)?;
    Ok(())
}

/// Writes the one word after the first word of a short statement.
fn put_argument<O: ByteOut>(argument: Argument, out: &mut O) -> Result<(), Failed>
    requires { IsArgument argument }
    ensures takes { OnOk result (Appends (O.taken out.old) (O.taken out.new) (spaced (words_in argument))) }
    ensures part { OnErr result (AppendsPart (O.taken out.old) (O.taken out.new) (spaced (words_in argument))) }
    ensures passes { Begins (O.passed out.old) (O.passed out.new) }
    ensures failed { OnErr result (O.faults out.new ≡ 1) }
    ensures failed_again { O.faults out.old ≡ 1 → (O.faults out.new ≡ 1) × Keeps (O.taken out.old) (O.taken out.new)
        × Keeps (O.passed out.old) (O.passed out.new) }
{
    match argument {
        Argument::Nothing => Ok(()),
        Argument::Number(number) => put_number(number, out),
        Argument::Natural(number) => put_natural(number, out),
        Argument::Label(label) => put_label(label, out),
    }
}

/// Writes the words after the first word of a statement.
fn put_arguments<O: ByteOut>(stmt: &Stmt, out: &mut O) -> Result<(), Failed>
    requires { InRange stmt.now }
    ensures takes { OnOk result (Appends (O.taken out.old) (O.taken out.new) (spaced (argument_words stmt.now))) }
    ensures part { OnErr result (AppendsPart (O.taken out.old) (O.taken out.new) (spaced (argument_words stmt.now))) }
    ensures passes { Begins (O.passed out.old) (O.passed out.new) }
    ensures failed { OnErr result (O.faults out.new ≡ 1) }
    ensures failed_again { O.faults out.old ≡ 1 → (O.faults out.new ≡ 1) × Keeps (O.taken out.old) (O.taken out.new)
        × Keeps (O.passed out.old) (O.passed out.new) }
{
    match stmt {
        Stmt::Text { bytes } => put_counted(bytes.as_bytes(), out),
        Stmt::Entry { label, name } => put_named(*label, name.as_bytes(), out),
        Stmt::Switch { default, cases } => put_switch(*default, cases.as_slice(), out),
        Stmt::Globals { entries } => put_globals(entries.as_slice(), out),
        _ => put_argument(argument_of(stmt), out),
    }
}

/// Writes the line of a statement.
fn put_stmt<O: ByteOut>(stmt: &Stmt, out: &mut O) -> Result<(), Failed>
    requires { InRange stmt.now }
    ensures takes { OnOk result (Appends (O.taken out.old) (O.taken out.new) (stmt_text stmt.now ++ 10 ∷ [])) }
    ensures part { OnErr result (AppendsPart (O.taken out.old) (O.taken out.new) (stmt_text stmt.now ++ 10 ∷ [])) }
    ensures passes { Begins (O.passed out.old) (O.passed out.new) }
    ensures failures { O.faults out.new ≡ (if is_err result then 1 else 0) }
    ensures failed_again { O.faults out.old ≡ 1 → IsErr result × Keeps (O.taken out.old) (O.taken out.new) × Keeps (O.passed out.old) (O.passed out.new) }
{
    put_all(out, first_word(stmt).as_bytes())?;
    put_arguments(stmt, out)?;
    out.put(b'\n')?;
    Ok(())
}

/// Writes the text of a section, one statement a line. It takes no memory. Where the device failed before, nothing is taken
/// or passed on.
pub fn print<O: ByteOut>(section: &Ocode, out: &mut O) -> Result<(), Failed>
    ensures takes { OnOk result (Appends (O.taken out.old) (O.taken out.new) (section_text (stmts_of section.now))) }
    ensures part { OnErr result (AppendsPart (O.taken out.old) (O.taken out.new) (section_text (stmts_of section.now))) }
    ensures passes { Begins (O.passed out.old) (O.passed out.new) }
    ensures failures { O.faults out.new ≡ (if is_err result then 1 else 0) }
    ensures failed_again { O.faults out.old ≡ 1 → IsErr result × Keeps (O.taken out.old) (O.taken out.new) × Keeps (O.passed out.old) (O.passed out.new) }
{
    for stmt in section.stmts() {
        put_stmt(stmt, out)?;
    }
    Ok(())
}
