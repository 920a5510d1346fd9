//! What a symbol may be in the grammar.

ghost use Rattle.std.specs.Prelude.{◌≡◌};
ghost use Rattle.bk_grammar.specs.Machine.{is_sign_of, is_close, is_assign, is_colon, is_do, is_or, is_to, is_by, is_be, is_equal, is_semicolon, opens, closes, is_vec, is_open};
ghost use Rattle.bk_grammar.specs.Rows.{infix_of, prefix_of, inner, is_comma, is_and, assigns, repeats, is_relation, following, goes, simple_of, guard_of, is_arrow, is_both, is_name, declaring_of, repetition_of, opening_of, heading_of, begins_operand, begins_command};

use bk_lex::Kind;
use bk_tree::{Operator, Prefix, Simple, Sort};

/// The operator that is between two operands.
#[inline(always)]
pub fn infix(kind: Kind) -> Option<Operator>
    ensures { result ≡ infix_of kind }
{
    match kind {
        Kind::Bang => Some(Operator::Subscript),
        Kind::Percent => Some(Operator::Byte),
        Kind::Star => Some(Operator::Times),
        Kind::Slash => Some(Operator::Over),
        Kind::Rem => Some(Operator::Rem),
        Kind::Plus => Some(Operator::Add),
        Kind::Minus => Some(Operator::Subtract),
        Kind::Equal => Some(Operator::Equal),
        Kind::NotEqual => Some(Operator::Unequal),
        Kind::Less => Some(Operator::Less),
        Kind::Greater => Some(Operator::Greater),
        Kind::LessEqual => Some(Operator::AtMost),
        Kind::GreaterEqual => Some(Operator::AtLeast),
        Kind::ShiftLeft => Some(Operator::ShiftLeft),
        Kind::ShiftRight => Some(Operator::ShiftRight),
        Kind::Ampersand => Some(Operator::Both),
        Kind::Bar => Some(Operator::Either),
        Kind::Eqv => Some(Operator::Same),
        Kind::Neqv => Some(Operator::Differ),
        _ => None,
    }
}

/// The operator that is before an operand.
#[inline(always)]
pub fn prefix(kind: Kind) -> Option<Prefix>
    ensures { result ≡ prefix_of kind }
{
    match kind {
        Kind::Bang => Some(Prefix::Contents),
        Kind::At => Some(Prefix::Address),
        Kind::Plus => Some(Prefix::Plus),
        Kind::Minus => Some(Prefix::Minus),
        Kind::Not => Some(Prefix::Not),
        _ => None,
    }
}

/// The rows that the right operand of an operator may have: up to this one.
pub fn inner_row(operator: Operator) -> u8
    ensures { result ≡ inner operator }
{
    match operator {
        Operator::Subscript | Operator::Byte => 1,
        Operator::Times | Operator::Over | Operator::Rem => 3,
        Operator::Add | Operator::Subtract => 4,
        Operator::Equal
        | Operator::Unequal
        | Operator::Less
        | Operator::Greater
        | Operator::AtMost
        | Operator::AtLeast => 5,
        Operator::ShiftLeft | Operator::ShiftRight => 6,
        Operator::Both => 8,
        Operator::Either => 9,
        Operator::Same | Operator::Differ => 10,
    }
}

/// Whether it is a relation, which chains.
pub fn relates(operator: Operator) -> bool
    ensures { result ≡ is_relation operator }
{
    match operator {
        Operator::Equal
        | Operator::Unequal
        | Operator::Less
        | Operator::Greater
        | Operator::AtMost
        | Operator::AtLeast => true,
        _ => false,
    }
}

/// The rows that the operand of a prefix operator may have: up to this one.
pub fn row_after(prefix: Prefix) -> u8
    ensures { result ≡ following prefix }
{
    match prefix {
        Prefix::Contents | Prefix::Address => 2,
        Prefix::Plus | Prefix::Minus => 4,
        Prefix::Not => 7,
    }
}

/// Whether an expression of the rows up to this one, complete so far, goes on with the symbol.
pub fn goes_on(rows: u8, kind: Kind) -> bool
    ensures { result ≡ goes rows kind }
{
    match kind {
        Kind::Open => true,
        Kind::Arrow => rows > 11,
        Kind::Bang | Kind::Percent => rows > 1,
        Kind::Star | Kind::Slash | Kind::Rem => rows > 3,
        Kind::Plus | Kind::Minus => rows > 4,
        Kind::Equal
        | Kind::NotEqual
        | Kind::Less
        | Kind::Greater
        | Kind::LessEqual
        | Kind::GreaterEqual => rows > 5,
        Kind::ShiftLeft | Kind::ShiftRight => rows > 6,
        Kind::Ampersand => rows > 8,
        Kind::Bar => rows > 9,
        Kind::Eqv | Kind::Neqv => rows > 10,
        _ => false,
    }
}

/// The command of one word.
pub fn simple(kind: Kind) -> Option<Simple>
    ensures { result ≡ simple_of kind }
{
    match kind {
        Kind::Break => Some(Simple::Break),
        Kind::Loop => Some(Simple::Loop),
        Kind::EndCase => Some(Simple::EndCase),
        Kind::Return => Some(Simple::Return),
        Kind::Finish => Some(Simple::Finish),
        _ => None,
    }
}

/// A declaration, by the word that it begins with.
#[derive(Clone, Copy, Debug, PartialEq, Eq)]
pub enum Declaring {
    Let,
    Constants(Sort),
}

/// The declaration that a symbol begins.
pub fn declares_with(kind: Kind) -> Option<Declaring>
    ensures { result ≡ declaring_of kind }
{
    match kind {
        Kind::Let => Some(Declaring::Let),
        Kind::Manifest => Some(Declaring::Constants(Sort::Manifest)),
        Kind::Static => Some(Declaring::Constants(Sort::Static)),
        Kind::Global => Some(Declaring::Constants(Sort::Global)),
        _ => None,
    }
}

/// A command that begins with an expression after its first word, and goes on with a command.
#[derive(Clone, Copy, Debug, PartialEq, Eq)]
pub enum Guard {
    If,
    Unless,
    While,
    Until,
    SwitchOn,
    Case,
}

/// The guard that a symbol begins.
pub fn guard_begun(kind: Kind) -> Option<Guard>
    ensures { result ≡ guard_of kind }
{
    match kind {
        Kind::If => Some(Guard::If),
        Kind::Unless => Some(Guard::Unless),
        Kind::While => Some(Guard::While),
        Kind::Until => Some(Guard::Until),
        Kind::SwitchOn => Some(Guard::SwitchOn),
        Kind::Case => Some(Guard::Case),
        _ => None,
    }
}

/// The symbol between the guard's expression and its command.
pub fn is_sign(guard: Guard, kind: Kind) -> bool
    ensures { result ≡ is_sign_of guard kind }
{
    match guard {
        Guard::SwitchOn => match kind {
            Kind::Into => true,
            _ => false,
        },
        Guard::Case => is_colon(kind),
        _ => is_do(kind),
    }
}

/// Whether an operand begins with the symbol.
pub fn starts_operand(kind: Kind) -> bool
    ensures { result ≡ begins_operand kind }
{
    match kind {
        Kind::Name
        | Kind::Number
        | Kind::Text
        | Kind::Character
        | Kind::True
        | Kind::False
        | Kind::Query
        | Kind::Open
        | Kind::Valof
        | Kind::Table
        | Kind::Bang
        | Kind::At
        | Kind::Plus
        | Kind::Minus
        | Kind::Not => true,
        _ => false,
    }
}

/// Whether a command begins with the symbol.
#[inline(always)]
pub fn starts_command(kind: Kind) -> bool
    ensures { result ≡ begins_command kind }
{
    match kind {
        Kind::Goto
        | Kind::Test
        | Kind::For
        | Kind::ResultIs
        | Kind::Default
        | Kind::SectionOpen
        | Kind::Break
        | Kind::Loop
        | Kind::EndCase
        | Kind::Return
        | Kind::Finish
        | Kind::If
        | Kind::Unless
        | Kind::While
        | Kind::Until
        | Kind::SwitchOn
        | Kind::Case => true,
        _ => starts_operand(kind),
    }
}

/// Whether it is `,`.
pub fn is_comma(kind: Kind) -> bool
    ensures { result ≡ is_comma kind }
{
    match kind {
        Kind::Comma => true,
        _ => false,
    }
}

/// Whether it is AND.
pub fn is_and(kind: Kind) -> bool
    ensures { result ≡ is_and kind }
{
    match kind {
        Kind::And => true,
        _ => false,
    }
}

/// Whether it is `)`.
pub fn is_close(kind: Kind) -> bool
    ensures { result ≡ is_close kind }
{
    match kind {
        Kind::Close => true,
        _ => false,
    }
}

/// Whether it is `:=`.
pub fn is_assign(kind: Kind) -> bool
    ensures { result ≡ is_assign kind }
{
    match kind {
        Kind::Assign => true,
        _ => false,
    }
}

/// Whether it is `:`.
pub fn is_colon(kind: Kind) -> bool
    ensures { result ≡ is_colon kind }
{
    match kind {
        Kind::Colon => true,
        _ => false,
    }
}

/// Whether it is DO.
pub fn is_do(kind: Kind) -> bool
    ensures { result ≡ is_do kind }
{
    match kind {
        Kind::Do => true,
        _ => false,
    }
}

/// Whether it is OR.
pub fn is_or(kind: Kind) -> bool
    ensures { result ≡ is_or kind }
{
    match kind {
        Kind::Or => true,
        _ => false,
    }
}

/// Whether it is TO.
pub fn is_to(kind: Kind) -> bool
    ensures { result ≡ is_to kind }
{
    match kind {
        Kind::To => true,
        _ => false,
    }
}

/// Whether it is BY.
pub fn is_by(kind: Kind) -> bool
    ensures { result ≡ is_by kind }
{
    match kind {
        Kind::By => true,
        _ => false,
    }
}

/// Whether it is BE.
pub fn is_be(kind: Kind) -> bool
    ensures { result ≡ is_be kind }
{
    match kind {
        Kind::Be => true,
        _ => false,
    }
}

/// Whether it is `=`.
pub fn is_equal(kind: Kind) -> bool
    ensures { result ≡ is_equal kind }
{
    match kind {
        Kind::Equal => true,
        _ => false,
    }
}

/// Whether it is `;`.
pub fn is_semicolon(kind: Kind) -> bool
    ensures { result ≡ is_semicolon kind }
{
    match kind {
        Kind::Semicolon => true,
        _ => false,
    }
}

/// Whether it is `$(`.
pub fn opens(kind: Kind) -> bool
    ensures { result ≡ opens kind }
{
    match kind {
        Kind::SectionOpen => true,
        _ => false,
    }
}

/// Whether it is `$)`.
pub fn closes(kind: Kind) -> bool
    ensures { result ≡ closes kind }
{
    match kind {
        Kind::SectionClose => true,
        _ => false,
    }
}

/// Whether it is VEC.
pub fn is_vec(kind: Kind) -> bool
    ensures { result ≡ is_vec kind }
{
    match kind {
        Kind::Vec => true,
        _ => false,
    }
}

/// Whether it is `(`.
pub fn is_open(kind: Kind) -> bool
    ensures { result ≡ is_open kind }
{
    match kind {
        Kind::Open => true,
        _ => false,
    }
}

/// Whether a call at the head of a command goes on as an assignment.
pub fn assigns(kind: Kind) -> bool
    ensures { result ≡ assigns kind }
{
    is_comma(kind) || is_assign(kind)
}

/// Whether it repeats the command before it.
pub fn repeats(kind: Kind) -> bool
    ensures { result ≡ repeats kind }
{
    match kind {
        Kind::Repeat | Kind::RepeatWhile | Kind::RepeatUntil => true,
        _ => false,
    }
}

/// Whether it is `->`.
pub fn is_arrow(kind: Kind) -> bool
    ensures { result ≡ is_arrow kind }
{
    match kind {
        Kind::Arrow => true,
        _ => false,
    }
}

/// Whether it is `&`.
pub fn is_both(operator: Operator) -> bool
    ensures { result ≡ is_both operator }
{
    match operator {
        Operator::Both => true,
        _ => false,
    }
}

/// What begins where an operand is due, beside an operand of one symbol and a prefix operator; or the `)` where no
/// argument comes.
#[derive(Clone, Copy, Debug, PartialEq, Eq)]
pub enum Opening {
    Parens,
    Close,
    Valof,
    Table,
}

/// What the symbol begins.
pub fn opens_with(kind: Kind) -> Option<Opening>
    ensures { result ≡ opening_of kind }
{
    match kind {
        Kind::Open => Some(Opening::Parens),
        Kind::Close => Some(Opening::Close),
        Kind::Valof => Some(Opening::Valof),
        Kind::Table => Some(Opening::Table),
        _ => None,
    }
}

/// A command that begins with a word of its own, beside the guards and the commands of one word.
#[derive(Clone, Copy, Debug, PartialEq, Eq)]
pub enum Heading {
    Goto,
    Test,
    For,
    ResultIs,
    Default,
    Block,
}

/// The command that the symbol begins.
pub fn heads_with(kind: Kind) -> Option<Heading>
    ensures { result ≡ heading_of kind }
{
    match kind {
        Kind::Goto => Some(Heading::Goto),
        Kind::Test => Some(Heading::Test),
        Kind::For => Some(Heading::For),
        Kind::ResultIs => Some(Heading::ResultIs),
        Kind::Default => Some(Heading::Default),
        Kind::SectionOpen => Some(Heading::Block),
        _ => None,
    }
}

/// How a command is repeated.
#[derive(Clone, Copy, Debug, PartialEq, Eq)]
pub enum Repetition {
    Always,
    While,
    Until,
}

/// How the symbol repeats the command before it.
pub fn repetition_begun(kind: Kind) -> Option<Repetition>
    ensures { result ≡ repetition_of kind }
{
    match kind {
        Kind::Repeat => Some(Repetition::Always),
        Kind::RepeatWhile => Some(Repetition::While),
        Kind::RepeatUntil => Some(Repetition::Until),
        _ => None,
    }
}

/// Whether it is a name.
pub fn is_name(kind: Kind) -> bool
    ensures { result ≡ is_name kind }
{
    match kind {
        Kind::Name => true,
        _ => false,
    }
}
