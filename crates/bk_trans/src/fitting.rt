//! That the numbers and bytes of statements are those of their types, which contracts do not see by themselves. Nothing is
//! done.
ghost use Rattle.std.specs.Prelude.{◌≡◌};
ghost use Rattle.bk_ocode.specs.StmtRange.{AreBytes};
ghost use Rattle.bk_trans.specs.Alike.{word, variable_in_words};
ghost use Rattle.bk_trans.specs.Laws.{AreWords};
ghost use Rattle.bk_trans.specs.Fitting.{CaseFits, CasesFit, EntriesFit, Fits, AllFit};

use bk_ocode::{ByteString, Case, GlobalEntry, Stmt, Variable};

/// A label, a slot or a depth.
#[tactic(auto, using(crate::proofs::FittingLemmas::word_is))]
fn number_fits(number: u32)
    ensures { word number ≡ number }
{}

/// Words of constants.
pub fn words_fit(words: &[u32])
    ensures { AreWords words.now }
{}

/// A variable.
fn variable_fits(variable: Variable)
    ensures { variable_in_words variable ≡ variable }
{
    match variable {
        Variable::Local(slot) => number_fits(slot),
        Variable::Global(_) => {}
        Variable::Static(label) => number_fits(label),
    }
}

/// Bytes.
fn slice_fits(bytes: &[u8])
    ensures { AreBytes bytes.now }
{}

/// The bytes of a name or a string.
fn bytes_fit(bytes: &ByteString)
    ensures { AreBytes bytes.now }
{
    slice_fits(bytes.as_bytes());
}

/// A case.
fn case_fits(case: Case)
    ensures { CaseFits case }
{
    number_fits(case.label);
}

/// Cases.
fn cases_fit(cases: &[Case])
    ensures { CasesFit cases.now }
{
    for case in cases {
        case_fits(*case);
    }
}

/// Globals and their entries.
fn entries_fit(entries: &[GlobalEntry])
    ensures { EntriesFit entries.now }
{
    for entry in entries {
        number_fits(entry.label);
    }
}

/// A statement.
#[tactic(auto, using(crate::proofs::FittingLemmas::cases_are, crate::proofs::FittingLemmas::cases_are_typed, crate::proofs::FittingLemmas::entries_are))]
fn stmt_fits(stmt: &Stmt)
    ensures { Fits stmt.now }
{
    match stmt {
        Stmt::Number { value } | Stmt::DataNumber { value } => {
            let _value = *value;
        }
        Stmt::Load { from } => variable_fits(*from),
        Stmt::Address { of } => variable_fits(*of),
        Stmt::Assign { to } => variable_fits(*to),
        Stmt::Text { bytes } => bytes_fit(bytes),
        Stmt::Jump { label } => number_fits(*label),
        Stmt::JumpIf { label, .. } => number_fits(*label),
        Stmt::Label { label } => number_fits(*label),
        Stmt::GiveResult { label } => number_fits(*label),
        Stmt::TakeResult { depth } => number_fits(*depth),
        Stmt::Stack { depth } => number_fits(*depth),
        Stmt::Entry { label, name } => {
            number_fits(*label);
            bytes_fit(name);
        }
        Stmt::Save { depth } => number_fits(*depth),
        Stmt::CallFunction { frame } => number_fits(*frame),
        Stmt::CallRoutine { frame } => number_fits(*frame),
        Stmt::Switch { default, cases } => {
            number_fits(*default);
            cases_fit(cases.as_slice());
        }
        Stmt::DataLabel { label } => number_fits(*label),
        Stmt::DataAddress { label } => number_fits(*label),
        Stmt::Globals { entries } => entries_fit(entries.as_slice()),
        Stmt::True
        | Stmt::False
        | Stmt::Query
        | Stmt::Monadic { .. }
        | Stmt::Dyadic { .. }
        | Stmt::LoadByte
        | Stmt::AssignAt
        | Stmt::AssignByte
        | Stmt::Store
        | Stmt::ReturnItem
        | Stmt::Return
        | Stmt::EndProcedure
        | Stmt::Finish => {}
    }
}

/// Statements.
pub fn stmts_fit(stmts: &[Stmt])
    ensures { AllFit stmts.now }
{
    for stmt in stmts {
        stmt_fits(stmt);
    }
}
