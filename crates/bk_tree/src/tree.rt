//! Trees of a section.
//!
//! Every node but an empty command has the position of its first symbol. Names are in upper case.

use crate::position::Position;
use smallvec::SmallVec;

/// Most names have at most this number of bytes. These are kept without an allocation of their own.
const USUAL_LETTERS: usize = 16;

/// The letters, digits and dots of a name, in upper case.
pub type Letters = SmallVec<u8, USUAL_LETTERS>;

/// A name, with its position.
#[derive(Drop)]
pub struct Name {
    /// Its position.
    pub at: Position,
    /// Its letters, digits and dots, in upper case.
    pub letters: Letters,
}

/// An operator before its operand.
#[derive(Clone, Copy, Debug, PartialEq, Eq)]
pub enum Prefix {
    /// `!`: the word at an address.
    Contents,
    /// `@`: the address of a word.
    Address,
    /// `+`
    Plus,
    /// `-`
    Minus,
    /// `NOT`
    Not,
}

/// An operator between its operands.
#[derive(Clone, Copy, Debug, PartialEq, Eq)]
pub enum Operator {
    /// `!`: a word of a vector.
    Subscript,
    /// `%`: a byte of a vector.
    Byte,
    /// `*`
    Times,
    /// `/`
    Over,
    /// `REM`
    Rem,
    /// `+`
    Add,
    /// `-`
    Subtract,
    /// `=`
    Equal,
    /// `~=`
    Unequal,
    /// `<`
    Less,
    /// `>`
    Greater,
    /// `<=`
    AtMost,
    /// `>=`
    AtLeast,
    /// `<<`
    ShiftLeft,
    /// `>>`
    ShiftRight,
    /// `&`
    Both,
    /// `|`
    Either,
    /// `EQV`
    Same,
    /// `NEQV`
    Differ,
}

/// A command of one word.
#[derive(Clone, Copy, Debug, PartialEq, Eq)]
pub enum Simple {
    /// `BREAK`
    Break,
    /// `LOOP`
    Loop,
    /// `ENDCASE`
    EndCase,
    /// `RETURN`
    Return,
    /// `FINISH`
    Finish,
}

/// What the names of a declaration with constants are.
#[derive(Clone, Copy, Debug, PartialEq, Eq)]
pub enum Sort {
    /// `MANIFEST`: names of constants.
    Manifest,
    /// `STATIC`: names of words that begin with constants.
    Static,
    /// `GLOBAL`: names of globals, by their numbers.
    Global,
}

/// An expression.
#[derive(Drop)]
#[cycle(tree)]
pub enum Expr {
    /// A name.
    Name {
        at: Position,
        letters: Letters,
    },
    /// A number or a character constant, as a word.
    Number {
        at: Position,
        word: u32,
    },
    /// The bytes of a string.
    Text {
        at: Position,
        bytes: Vec<u8>,
    },
    /// `TRUE` or `FALSE`.
    Truth {
        at: Position,
        truth: bool,
    },
    /// `?`
    Query {
        at: Position,
    },
    /// An expression in parentheses.
    Parens {
        at: Position,
        inside: Box<Expr>,
    },
    /// A prefix operator and its operand.
    Unary {
        at: Position,
        prefix: Prefix,
        operand: Box<Expr>,
    },
    /// Two operands, and the position `sign` of the operator between them. A chain of relations is the `&` of its relations,
    /// with each shared operand copied; the `&` has the position of the later relation's operator.
    Binary {
        at: Position,
        operator: Operator,
        sign: Position,
        left: Box<Expr>,
        right: Box<Expr>,
    },
    /// `E -> E, E`, and the position `sign` of its arrow.
    Choice {
        at: Position,
        sign: Position,
        condition: Box<Expr>,
        yes: Box<Expr>,
        no: Box<Expr>,
    },
    /// `E(Es)`, and the position `sign` of its parenthesis.
    Apply {
        at: Position,
        sign: Position,
        callee: Box<Expr>,
        arguments: Vec<Expr>,
    },
    /// `VALOF C`
    Valof {
        at: Position,
        command: Box<Command>,
    },
    /// `TABLE Es`
    Table {
        at: Position,
        items: Vec<Expr>,
    },
}

/// A command.
#[derive(Drop)]
#[cycle(tree)]
pub enum Command {
    /// The empty command after the colon of a label, CASE or DEFAULT. It is no node.
    Empty,
    /// `Es := Es`: destinations and as many values.
    Assign {
        at: Position,
        destinations: Vec<Expr>,
        values: Vec<Expr>,
    },
    /// `E(Es)`
    Call {
        at: Position,
        callee: Box<Expr>,
        arguments: Vec<Expr>,
    },
    /// `GOTO name`
    Goto {
        at: Position,
        name: Name,
    },
    /// `name: C`
    Label {
        at: Position,
        letters: Letters,
        body: Box<Command>,
    },
    /// `CASE E: C`
    Case {
        at: Position,
        value: Box<Expr>,
        body: Box<Command>,
    },
    /// `DEFAULT: C`
    Default {
        at: Position,
        body: Box<Command>,
    },
    /// `IF E DO C` (true) or `UNLESS E DO C` (false).
    If {
        at: Position,
        truth: bool,
        condition: Box<Expr>,
        body: Box<Command>,
    },
    /// `TEST E DO C OR C`
    Test {
        at: Position,
        condition: Box<Expr>,
        yes: Box<Command>,
        no: Box<Command>,
    },
    /// `WHILE E DO C` (true) or `UNTIL E DO C` (false).
    While {
        at: Position,
        truth: bool,
        condition: Box<Expr>,
        body: Box<Command>,
    },
    /// `FOR name = E TO E BY E DO C`
    For {
        at: Position,
        name: Name,
        from: Box<Expr>,
        to: Box<Expr>,
        by: Option<Box<Expr>>,
        body: Box<Command>,
    },
    /// `SWITCHON E INTO C`
    SwitchOn {
        at: Position,
        value: Box<Expr>,
        body: Box<Command>,
    },
    /// `RESULTIS E`
    ResultIs {
        at: Position,
        value: Box<Expr>,
    },
    /// A command of one word.
    Simple {
        at: Position,
        word: Simple,
    },
    /// `$( .. $)`: declarations and commands.
    Block {
        at: Position,
        decls: Vec<Decl>,
        commands: Vec<Command>,
    },
    /// `C REPEAT`
    Repeat {
        at: Position,
        body: Box<Command>,
    },
    /// `C REPEATWHILE E` (true) or `C REPEATUNTIL E` (false).
    RepeatWhile {
        at: Position,
        truth: bool,
        body: Box<Command>,
        condition: Box<Expr>,
    },
}

/// A declaration. It is no node; its items and definitions are.
#[derive(Drop)]
#[cycle(tree)]
pub enum Decl {
    /// `MANIFEST`, `STATIC` or `GLOBAL` with its items.
    Constants {
        at: Position,
        sort: Sort,
        items: Vec<ConstItem>,
    },
    /// `LET` with its definitions.
    Let {
        at: Position,
        defs: Vec<Def>,
    },
}

/// A name with a constant: `name = E`.
#[derive(Drop)]
#[cycle(tree)]
pub enum ConstItem {
    Item {
        at: Position,
        letters: Letters,
        expr: Expr,
    },
}

/// A definition of a LET.
#[derive(Drop)]
#[cycle(tree)]
pub enum Def {
    /// `name(names) BE C`
    Routine {
        at: Position,
        letters: Letters,
        formals: Vec<Name>,
        body: Box<Command>,
    },
    /// `name(names) = E`
    Function {
        at: Position,
        letters: Letters,
        formals: Vec<Name>,
        body: Box<Expr>,
    },
    /// `names = items`, with as many items as names.
    Variables {
        at: Position,
        names: Vec<Name>,
        inits: Vec<Init>,
    },
}

/// What a variable begins with. It is no node; its expression is.
#[derive(Drop)]
#[cycle(tree)]
pub enum Init {
    /// `E`
    Value(Expr),
    /// `VEC E`, with the position of `VEC`.
    Vector { at: Position, size: Expr },
}
