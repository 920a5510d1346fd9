//! The words of a statement.
ghost use Rattle.std.specs.Prelude.{◌≡◌, [], ◌∷◌};
ghost use Rattle.bk_ocode.specs.StmtText.{load_keyword, address_keyword, store_keyword, monadic_keyword, dyadic_keyword, keyword, variable_word};
ghost use Rattle.bk_ocode.specs.StmtRange.{InRange, IsVariable};
ghost use Rattle.bk_ocode.specs.Arguments.{words_in, short_words, IsArgument};

use crate::stmt::{Dyadic, Monadic, Stmt, Variable};

/// The one word after the first word of a short statement.
#[derive(Clone, Copy, Debug, PartialEq, Eq)]
pub(crate) enum Argument {
    /// None.
    Nothing,
    /// A number.
    Number(i32),
    /// A number from 0 on.
    Natural(u32),
    /// A label.
    Label(u32),
}

/// The first word of a statement with one item.
pub(crate) fn monadic_word(operator: Monadic) -> &'static str
    ensures { result.now ≡ monadic_keyword operator }
{
    match operator {
        Monadic::Contents => "RV",
        Monadic::Negate => "NEG",
        Monadic::Not => "NOT",
    }
}

/// The first word of a statement with two items.
pub(crate) fn dyadic_word(operator: Dyadic) -> &'static str
    ensures { result.now ≡ dyadic_keyword operator }
{
    match operator {
        Dyadic::Multiply => "MULT",
        Dyadic::Divide => "DIV",
        Dyadic::Remainder => "REM",
        Dyadic::Add => "PLUS",
        Dyadic::Subtract => "MINUS",
        Dyadic::Equal => "EQ",
        Dyadic::Unequal => "NE",
        Dyadic::Less => "LS",
        Dyadic::Greater => "GR",
        Dyadic::AtMost => "LE",
        Dyadic::AtLeast => "GE",
        Dyadic::ShiftLeft => "LSHIFT",
        Dyadic::ShiftRight => "RSHIFT",
        Dyadic::And => "LOGAND",
        Dyadic::Or => "LOGOR",
        Dyadic::Eqv => "EQV",
        Dyadic::Neqv => "NEQV",
    }
}

/// The first word of a statement that pushes a variable.
fn load_word(variable: Variable) -> &'static str
    ensures { result.now ≡ load_keyword variable }
{
    match variable {
        Variable::Local(_) => "LP",
        Variable::Global(_) => "LG",
        Variable::Static(_) => "LL",
    }
}

/// The first word of a statement that pushes an address.
fn address_word(variable: Variable) -> &'static str
    ensures { result.now ≡ address_keyword variable }
{
    match variable {
        Variable::Local(_) => "LLP",
        Variable::Global(_) => "LLG",
        Variable::Static(_) => "LLL",
    }
}

/// The first word of a statement that stores an item.
fn store_word(variable: Variable) -> &'static str
    ensures { result.now ≡ store_keyword variable }
{
    match variable {
        Variable::Local(_) => "SP",
        Variable::Global(_) => "SG",
        Variable::Static(_) => "SL",
    }
}

/// The first word of a statement.
pub(crate) fn first_word(stmt: &Stmt) -> &'static str
    ensures { result.now ≡ keyword stmt.now }
{
    match stmt {
        Stmt::Number { .. } => "LN",
        Stmt::True => "TRUE",
        Stmt::False => "FALSE",
        Stmt::Query => "QUERY",
        Stmt::Load { from } => load_word(*from),
        Stmt::Address { of } => address_word(*of),
        Stmt::Text { .. } => "LSTR",
        Stmt::Monadic { operator } => monadic_word(*operator),
        Stmt::Dyadic { operator } => dyadic_word(*operator),
        Stmt::Assign { to } => store_word(*to),
        Stmt::AssignAt => "STIND",
        Stmt::AssignByte => "PUTBYTE",
        Stmt::LoadByte => "GETBYTE",
        Stmt::Jump { .. } => "JUMP",
        Stmt::JumpIf { truth: true, .. } => "JT",
        Stmt::JumpIf { truth: false, .. } => "JF",
        Stmt::Label { .. } => "LAB",
        Stmt::GiveResult { .. } => "RES",
        Stmt::TakeResult { .. } => "RSTACK",
        Stmt::Stack { .. } => "STACK",
        Stmt::Store => "STORE",
        Stmt::Entry { .. } => "ENTRY",
        Stmt::Save { .. } => "SAVE",
        Stmt::CallFunction { .. } => "FNAP",
        Stmt::CallRoutine { .. } => "RTAP",
        Stmt::ReturnItem => "FNRN",
        Stmt::Return => "RTRN",
        Stmt::EndProcedure => "ENDPROC",
        Stmt::Switch { .. } => "SWITCHON",
        Stmt::Finish => "FINISH",
        Stmt::DataLabel { .. } => "DATALAB",
        Stmt::DataNumber { .. } => "ITEMN",
        Stmt::DataAddress { .. } => "ITEML",
        Stmt::Globals { .. } => "GLOBAL",
    }
}

/// The argument that names a variable.
fn variable_argument(variable: Variable) -> Argument
    requires { IsVariable variable }
    ensures word { words_in result ≡ variable_word variable ∷ [] }
    ensures in_range { IsArgument result }
{
    match variable {
        Variable::Local(slot) => Argument::Natural(slot),
        Variable::Global(number) => Argument::Natural(number),
        Variable::Static(label) => Argument::Label(label),
    }
}

/// What follows the first word of a short statement.
pub(crate) fn argument_of(stmt: &Stmt) -> Argument
    requires { InRange stmt.now }
    ensures words { words_in result ≡ short_words stmt.now }
    ensures in_range { IsArgument result }
{
    match stmt {
        Stmt::Number { value } => Argument::Number(*value),
        Stmt::DataNumber { value } => Argument::Number(*value),
        Stmt::Load { from } => variable_argument(*from),
        Stmt::Address { of } => variable_argument(*of),
        Stmt::Assign { to } => variable_argument(*to),
        Stmt::Jump { label } => Argument::Label(*label),
        Stmt::JumpIf { label, .. } => Argument::Label(*label),
        Stmt::Label { label } => Argument::Label(*label),
        Stmt::GiveResult { label } => Argument::Label(*label),
        Stmt::DataLabel { label } => Argument::Label(*label),
        Stmt::DataAddress { label } => Argument::Label(*label),
        Stmt::TakeResult { depth } => Argument::Natural(*depth),
        Stmt::Stack { depth } => Argument::Natural(*depth),
        Stmt::Save { depth } => Argument::Natural(*depth),
        Stmt::CallFunction { frame } => Argument::Natural(*frame),
        Stmt::CallRoutine { frame } => Argument::Natural(*frame),
        _ => Argument::Nothing,
    }
}
