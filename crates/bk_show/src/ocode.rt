//! The statements of OCODE of a section, each with what it does.

use crate::frame::Frame;
use crate::origin::Origin;
use crate::spelling::put_string;
use crate::text::Text;
use bk_ocode::{Case, Dyadic, GlobalEntry, Monadic, Stmt, Variable};
use bk_source_map::Mark;
use std::alloc::{AllocError, Global};

/// The column of what a statement does.
const MEANING: usize = 36;

/// A statement's first word for a variable of each kind.
fn variable_word(
    variable: Variable,
    local: &'static str,
    global: &'static str,
    data: &'static str,
) -> &'static str {
    match variable {
        Variable::Local(_) => local,
        Variable::Global(_) => global,
        Variable::Static(_) => data,
    }
}

/// The first word of a statement on one item.
fn monadic_word(operator: Monadic) -> &'static str {
    match operator {
        Monadic::Contents => "RV",
        Monadic::Negate => "NEG",
        Monadic::Not => "NOT",
    }
}

/// The first word of a statement on two items.
fn dyadic_word(operator: Dyadic) -> &'static str {
    match operator {
        Dyadic::Multiply => "MULT",
        Dyadic::Divide => "DIV",
        Dyadic::Remainder => "REM",
        Dyadic::Add => "PLUS",
        Dyadic::Subtract => "MINUS",
        Dyadic::Equal => "EQ",
        Dyadic::Unequal => "NE",
        Dyadic::Less => "LS",
        Dyadic::Greater => "GR",
        Dyadic::AtMost => "LE",
        Dyadic::AtLeast => "GE",
        Dyadic::ShiftLeft => "LSHIFT",
        Dyadic::ShiftRight => "RSHIFT",
        Dyadic::And => "LOGAND",
        Dyadic::Or => "LOGOR",
        Dyadic::Eqv => "EQV",
        Dyadic::Neqv => "NEQV",
    }
}

/// The operator of a source.
fn dyadic_spelling(operator: Dyadic) -> &'static str {
    match operator {
        Dyadic::Multiply => "*",
        Dyadic::Divide => "/",
        Dyadic::Remainder => "REM",
        Dyadic::Add => "+",
        Dyadic::Subtract => "-",
        Dyadic::Equal => "=",
        Dyadic::Unequal => "~=",
        Dyadic::Less => "<",
        Dyadic::Greater => ">",
        Dyadic::AtMost => "<=",
        Dyadic::AtLeast => ">=",
        Dyadic::ShiftLeft => "<<",
        Dyadic::ShiftRight => ">>",
        Dyadic::And => "&",
        Dyadic::Or => "|",
        Dyadic::Eqv => "EQV",
        Dyadic::Neqv => "NEQV",
    }
}

/// The first word of a statement.
fn first_word(stmt: &Stmt) -> &'static str {
    match stmt {
        Stmt::Number { .. } => "LN",
        Stmt::True => "TRUE",
        Stmt::False => "FALSE",
        Stmt::Query => "QUERY",
        Stmt::Load { from } => variable_word(*from, "LP", "LG", "LL"),
        Stmt::Address { of } => variable_word(*of, "LLP", "LLG", "LLL"),
        Stmt::Text { .. } => "LSTR",
        Stmt::Monadic { operator } => monadic_word(*operator),
        Stmt::Dyadic { operator } => dyadic_word(*operator),
        Stmt::LoadByte => "GETBYTE",
        Stmt::Assign { to } => variable_word(*to, "SP", "SG", "SL"),
        Stmt::AssignAt => "STIND",
        Stmt::AssignByte => "PUTBYTE",
        Stmt::Jump { .. } => "JUMP",
        Stmt::JumpIf { truth, .. } => { if *truth { "JT" } else { "JF" } }
        Stmt::Label { .. } => "LAB",
        Stmt::GiveResult { .. } => "RES",
        Stmt::TakeResult { .. } => "RSTACK",
        Stmt::Stack { .. } => "STACK",
        Stmt::Store => "STORE",
        Stmt::Entry { .. } => "ENTRY",
        Stmt::Save { .. } => "SAVE",
        Stmt::CallFunction { .. } => "FNAP",
        Stmt::CallRoutine { .. } => "RTAP",
        Stmt::ReturnItem => "FNRN",
        Stmt::Return => "RTRN",
        Stmt::EndProcedure => "ENDPROC",
        Stmt::Switch { .. } => "SWITCHON",
        Stmt::Finish => "FINISH",
        Stmt::DataLabel { .. } => "DATALAB",
        Stmt::DataNumber { .. } => "ITEMN",
        Stmt::DataAddress { .. } => "ITEML",
        Stmt::Globals { .. } => "GLOBAL",
    }
}

/// Adds a blank and a number.
fn put_natural(text: &mut Text, number: u32) -> Result<(), AllocError> {
    text.say(" ")?;
    text.natural(number)
}

/// Adds a blank and a number.
fn put_integer(text: &mut Text, number: i32) -> Result<(), AllocError> {
    text.say(" ")?;
    text.integer(number)
}

/// Adds a blank and a label.
fn put_label(text: &mut Text, label: u32) -> Result<(), AllocError> {
    text.say(" L")?;
    text.natural(label)
}

/// Adds what a statement names of a variable.
fn put_variable(text: &mut Text, variable: Variable) -> Result<(), AllocError> {
    match variable {
        Variable::Local(number) | Variable::Global(number) => put_natural(text, number),
        Variable::Static(label) => put_label(text, label),
    }
}

/// Adds how many bytes there are, and each.
fn put_bytes(text: &mut Text, bytes: &[u8]) -> Result<(), AllocError> {
    put_natural(text, (bytes.len() % 256) as u32)?;
    for byte in bytes {
        put_natural(text, u32::from(*byte))?;
    }
    Ok(())
}

/// Adds cases.
fn put_cases(text: &mut Text, default: u32, cases: &[Case]) -> Result<(), AllocError> {
    put_natural(text, (cases.len() % 0x1_0000_0000) as u32)?;
    put_label(text, default)?;
    for case in cases {
        put_integer(text, case.value)?;
        put_label(text, case.label)?;
    }
    Ok(())
}

/// Adds globals and their labels.
fn put_entries(text: &mut Text, entries: &[GlobalEntry]) -> Result<(), AllocError> {
    put_natural(text, (entries.len() % 0x1_0000_0000) as u32)?;
    for entry in entries {
        put_natural(text, entry.number)?;
        put_label(text, entry.label)?;
    }
    Ok(())
}

/// Adds what is after the first word of a statement.
fn put_arguments(text: &mut Text, stmt: &Stmt) -> Result<(), AllocError> {
    match stmt {
        Stmt::Number { value } | Stmt::DataNumber { value } => put_integer(text, *value),
        Stmt::Load { from: variable }
        | Stmt::Address { of: variable }
        | Stmt::Assign { to: variable } => put_variable(text, *variable),
        Stmt::Jump { label }
        | Stmt::JumpIf { label, .. }
        | Stmt::Label { label }
        | Stmt::GiveResult { label }
        | Stmt::DataLabel { label }
        | Stmt::DataAddress { label } => put_label(text, *label),
        Stmt::TakeResult { depth } | Stmt::Stack { depth } | Stmt::Save { depth } => {
            put_natural(text, *depth)
        }
        Stmt::CallFunction { frame } | Stmt::CallRoutine { frame } => put_natural(text, *frame),
        Stmt::Text { bytes } => put_bytes(text, bytes.as_bytes()),
        Stmt::Entry { label, name } => {
            put_label(text, *label)?;
            put_bytes(text, name.as_bytes())
        }
        Stmt::Switch { default, cases } => put_cases(text, *default, cases.as_slice()),
        Stmt::Globals { entries } => put_entries(text, entries.as_slice()),
        _ => Ok(()),
    }
}

/// A statement of a section, with what is known of its source.
#[derive(Clone, Copy)]
struct Row<'r> {
    origin: &'r Origin<'r>,
    frame: &'r Frame<'r>,
    /// Its number among the statements.
    number: usize,
}

impl Row<'_> {
    /// Adds a name and a comma, if there is one.
    fn say_name(self, text: &mut Text, name: Option<&[u8]>) -> Result<(), AllocError> {
        match name {
            Some(name) => {
                text.name(name)?;
                text.say(", ")
            }
            None => Ok(()),
        }
    }

    /// Adds a word of the frame as a person names it.
    fn say_local(self, text: &mut Text, slot: u32) -> Result<(), AllocError> {
        if let Some(vector) = self.frame.vector_of(self.number) {
            if let Some(name) = self.origin.name_at(vector) {
                text.name(name)?;
                text.say("!0, ")?;
            }
        } else if self.frame.say_word(text, self.origin, slot)? {
            text.say(", ")?;
        }
        text.say("word ")?;
        text.natural(slot)?;
        text.say(" of the frame")
    }

    /// Adds a static word or a table as a person names it.
    fn say_static(self, text: &mut Text, label: u32) -> Result<(), AllocError> {
        match self.origin.name(self.number) {
            Some(name) => {
                text.name(name)?;
                text.say(", the static word at L")?;
            }
            None => text.say("the TABLE at L")?,
        }
        text.natural(label)
    }
}

/// Adds words, and a variable as a person names it.
fn say_variable(
    text: &mut Text,
    words: &str,
    variable: Variable,
    row: Row<'_>,
) -> Result<(), AllocError> {
    text.say(words)?;
    match variable {
        Variable::Local(slot) => row.say_local(text, slot),
        Variable::Global(number) => {
            row.say_name(text, row.origin.name(row.number))?;
            text.say("global ")?;
            text.natural(number)
        }
        Variable::Static(label) => row.say_static(text, label),
    }
}

/// Adds words, and a label with what it is for.
fn say_label(text: &mut Text, words: &str, label: u32, row: Row<'_>) -> Result<(), AllocError> {
    text.say(words)?;
    text.say("L")?;
    text.natural(label)?;
    row.origin.say_label(text, label)
}

/// Adds words, a number, and more words.
fn say_number(text: &mut Text, words: &str, number: u32, more: &str) -> Result<(), AllocError> {
    text.say(words)?;
    text.natural(number)?;
    text.say(more)
}

/// Adds what a statement on one item does.
fn say_monadic(text: &mut Text, operator: Monadic) -> Result<(), AllocError> {
    text.say(match operator {
        Monadic::Contents => "takes an address, pushes the word there",
        Monadic::Negate => "takes x, pushes -x",
        Monadic::Not => "takes x, pushes NOT x",
    })
}

/// Adds what a statement on two items does.
fn say_dyadic(text: &mut Text, operator: Dyadic) -> Result<(), AllocError> {
    text.say("takes y and x, pushes x ")?;
    text.say(dyadic_spelling(operator))?;
    text.say(" y")
}

/// Adds what is called: the name that the statement before has, or the top item.
fn say_callee(text: &mut Text, row: Row<'_>, frame: u32) -> Result<(), AllocError> {
    text.say("calls ")?;
    let before = row.number.saturating_sub(1);
    match (row.origin.stmts().get(before), row.origin.name(before)) {
        (Some(Stmt::Load { .. }), Some(name)) => text.name(name)?,
        _ => text.say("the top item")?,
    }
    say_number(text, " with a frame at word ", frame, "")
}

/// Adds what a statement about a procedure or a call does.
fn say_call(text: &mut Text, stmt: &Stmt, row: Row<'_>) -> Result<(), AllocError> {
    match stmt {
        Stmt::Entry { name, .. } => {
            text.say("the procedure ")?;
            text.spell(name.as_bytes())
        }
        Stmt::Save { depth } => {
            say_number(text, "its frame begins with ", *depth, " words: two links")?;
            row.frame.say_formals(text, row.origin)
        }
        Stmt::CallFunction { frame } => {
            say_callee(text, row, *frame)?;
            text.say(", pushes its result")
        }
        Stmt::CallRoutine { frame } => say_callee(text, row, *frame),
        Stmt::ReturnItem => text.say("takes the result, returns"),
        Stmt::Return => text.say("returns"),
        Stmt::EndProcedure => text.say("the end of the procedure"),
        Stmt::Stack { depth } => say_number(text, "the frame has ", *depth, " words in use"),
        Stmt::TakeResult { depth } => {
            say_number(
                text,
                "the frame has ",
                *depth,
                " words in use; pushes the result",
            )
        }
        Stmt::Store => text.say("the items become variables"),
        _ => Ok(()),
    }
}

/// Adds what a statement that jumps does.
fn say_jump(text: &mut Text, stmt: &Stmt, row: Row<'_>) -> Result<(), AllocError> {
    match stmt {
        Stmt::Jump { label } => say_label(text, "jumps to ", *label, row),
        Stmt::JumpIf { truth: true, label } => {
            say_label(text, "takes x, unless it is 0 jumps to ", *label, row)
        }
        Stmt::JumpIf {
            truth: false,
            label,
        } => say_label(text, "takes x, if it is 0 jumps to ", *label, row),
        Stmt::Label { label } => say_label(text, "the label ", *label, row),
        Stmt::GiveResult { label } => say_label(text, "takes the result, jumps to ", *label, row),
        Stmt::Switch { default, .. } => {
            say_label(
                text,
                "takes x, jumps to the label of its case, or to ",
                *default,
                row,
            )
        }
        Stmt::Finish => text.say("ends the run"),
        _ => Ok(()),
    }
}

/// Adds what a statement of data is.
fn say_data(text: &mut Text, stmt: &Stmt, row: Row<'_>) -> Result<(), AllocError> {
    match stmt {
        Stmt::DataLabel { label } => say_label(text, "static words, at ", *label, row),
        Stmt::DataNumber { .. } => text.say("a word"),
        Stmt::DataAddress { label } => say_label(text, "a word: the address of ", *label, row),
        Stmt::Globals { .. } => text.say("globals and the labels that they hold; the end"),
        _ => Ok(()),
    }
}

/// Adds what a statement does.
fn say_stmt(text: &mut Text, stmt: &Stmt, row: Row<'_>) -> Result<(), AllocError> {
    match stmt {
        Stmt::Number { value } => {
            text.say("pushes ")?;
            row.say_name(text, row.origin.name(row.number))?;
            text.integer(*value)
        }
        Stmt::True => text.say("pushes -1"),
        Stmt::False => text.say("pushes 0"),
        Stmt::Query => text.say("pushes a word without a value"),
        Stmt::Load { from } => say_variable(text, "pushes ", *from, row),
        Stmt::Address { of } => say_variable(text, "pushes the address of ", *of, row),
        Stmt::Text { bytes } => {
            text.say("pushes the address of ")?;
            put_string(text, bytes.as_bytes())
        }
        Stmt::Monadic { operator } => say_monadic(text, *operator),
        Stmt::Dyadic { operator } => say_dyadic(text, *operator),
        Stmt::LoadByte => text.say("takes i and s, pushes byte i of s"),
        Stmt::Assign { to } => say_variable(text, "takes x, puts it into ", *to, row),
        Stmt::AssignAt => text.say("takes an address and x, puts x there"),
        Stmt::AssignByte => text.say("takes i, s and x, puts x into byte i of s"),
        Stmt::Jump { .. }
        | Stmt::JumpIf { .. }
        | Stmt::Label { .. }
        | Stmt::GiveResult { .. }
        | Stmt::Switch { .. }
        | Stmt::Finish => say_jump(text, stmt, row),
        Stmt::DataLabel { .. }
        | Stmt::DataNumber { .. }
        | Stmt::DataAddress { .. }
        | Stmt::Globals { .. } => say_data(text, stmt, row),
        _ => say_call(text, stmt, row),
    }
}

/// Adds the line of a statement.
fn put_stmt(text: &mut Text, stmt: &Stmt, row: Row<'_>) -> Result<(), AllocError> {
    text.begin_at(row.origin.line(row.number))?;
    text.say(first_word(stmt))?;
    put_arguments(text, stmt)?;
    text.go_to(MEANING)?;
    say_stmt(text, stmt, row)?;
    text.end()
}

/// A line for each statement, with the line of the source that it is of. GLOBAL at the end is of none.
pub fn ocode_text<'s>(
    alloc: Global,
    origin: &'s Origin<'s>,
    marks: &'s [Mark],
) -> Result<Text, AllocError> {
    let mut text = Text::new(alloc);
    text.say("  line  statement                   what it does")?;
    text.end()?;
    let mut frame = Frame::new(alloc, marks);
    for (number, stmt) in origin.stmts().iter().enumerate() {
        frame.reach(number, stmt)?;
        let row = Row {
            origin: &*origin,
            frame: &frame,
            number,
        };
        put_stmt(&mut text, stmt, row)?;
        frame.pass_stmt(stmt);
    }
    Ok(text)
}
