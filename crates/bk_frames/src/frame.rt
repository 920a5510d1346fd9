//! Frames: the unfinished constructs of the parser, and its state.
ghost use Rattle.std.specs.Prelude.{◌≡◌};
ghost use Rattle.bk_tree.specs.Tree.{expression, command_in, definition};
ghost use Rattle.bk_grammar.specs.Grammar.{last};
ghost use Rattle.bk_frames.specs.Sizes.{size_of, size_if, size_of_command, size_of_definition};
ghost use Rattle.bk_frames.specs.Unfinished.{held_in};
ghost use Rattle.bk_frames.specs.Spares.{IsSmall};

use bk_grammar::symbols::Guard;
use bk_tree::{
    Command, ConstItem, Decl, Def, Expr, Init, Letters, Name, Operator, Position, Prefix, Sort,
};
use std::alloc::{AllocError, AllocFailed};
use std::mem;

/// How deep and how large a part of a tree is.
#[derive(Clone, Copy, Debug, PartialEq, Eq)]
pub struct Size {
    /// The greatest number of nodes inside one another.
    pub depth: u32,
    /// The number of nodes.
    pub nodes: u32,
}

/// An unfinished expression. The parser reads an operand of it.
#[derive(Drop)]
pub enum OpenExpression {
    Parens(Position),
    Unary(Position, Prefix),
    /// The operator, its line and the left operand.
    Binary(Operator, Position, Box<Expr>),
    /// The same with the copy of the operand that two relations share.
    Chain(Operator, Position, Box<Expr>, Box<Expr>),
    /// The line of the arrow and the condition.
    Then(Position, Box<Expr>),
    Else(Position, Box<Expr>, Box<Expr>),
    /// The line of the parenthesis, the procedure and the arguments so far.
    Args(Position, Box<Expr>, Vec<Expr>),
    Table(Position, Vec<Expr>),
}

/// An unfinished command. The parser reads an expression of it.
#[derive(Drop)]
pub enum Phrase {
    /// The first expression of a command.
    Start,
    /// A destination after these.
    Dests(Vec<Expr>),
    /// A value after these, for the destinations.
    Values(Vec<Expr>, Vec<Expr>),
    Guard(Guard, Position),
    Test(Position),
    ResultIs(Position),
    /// The condition of REPEATWHILE (true) or REPEATUNTIL (false).
    RepeatWhile(bool, Box<Command>),
    /// The start, the limit and the step of FOR.
    From(Position, Name),
    To(Position, Name, Box<Expr>),
    By(Position, Name, Box<Expr>, Box<Expr>),
}

/// An unfinished item or definition. The parser reads an expression of it.
#[derive(Drop)]
pub enum Member {
    /// The constant of an item after the items so far.
    Item(Position, Sort, Vec<ConstItem>, Name),
    Function(Name, Vec<Name>),
    /// An item of a LET after these, a VEC with its line.
    Value(Vec<Name>, Vec<Init>),
    Vector(Position, Vec<Name>, Vec<Init>),
}

/// An unfinished command or definition. The parser reads a command of it.
#[derive(Drop)]
pub enum Clause {
    Valof(Position),
    Label(Position, Letters),
    Guarded(Guard, Position, Box<Expr>),
    Default(Position),
    Then(Position, Box<Expr>),
    Else(Position, Box<Expr>, Box<Command>),
    For(Position, Name, Box<Expr>, Box<Expr>, Option<Box<Expr>>),
    Routine(Name, Vec<Name>),
}

/// A place in a block or a definition, where a symbol is due.
#[derive(Drop)]
pub enum Place {
    /// In a block; whether a command may come.
    Block(Position, bool, Vec<Decl>, Vec<Command>),
    /// The name of a definition, after these.
    Let(Position, Vec<Def>),
    /// After that name.
    Named(Name),
    /// After the `(` of a procedure.
    Formals(Name),
    /// After a `,` between formals, and after a formal.
    Formal(Name, Vec<Name>),
    FormalEnd(Name, Vec<Name>),
    /// After the `)`.
    Headed(Name, Vec<Name>),
    /// After a `,` between the names of variables, and after a further name.
    Variable(Vec<Name>),
    VariableEnd(Vec<Name>),
    /// After the `=` or a `,` between the items of a LET.
    Inits(Vec<Name>, Vec<Init>),
}

/// A place in MANIFEST, STATIC or GLOBAL, or in a command, where a symbol is due.
#[derive(Drop)]
pub enum Point {
    /// After MANIFEST, STATIC or GLOBAL.
    Opening(Position, Sort),
    /// Between the items, and after the name of one.
    Items(Position, Sort, Vec<ConstItem>),
    Signed(Position, Sort, Vec<ConstItem>, Name),
    Goto(Position),
    For(Position),
    Forward(Position, Name),
    Default(Position),
}

/// An unfinished construct, by the part of it that the parser reads.
#[derive(Drop)]
pub enum Unfinished {
    OpenExpression(OpenExpression),
    Phrase(Phrase),
    Member(Member),
    Clause(Clause),
    Place(Place),
    Point(Point),
}

/// An unfinished construct, with the depth and the nodes of the parts that it has, and what any part that is read may surely have of
/// both, so that the section stays within its limits. Nothing is known where either is 0.
#[derive(Drop)]
pub struct Frame {
    pub unfinished: Unfinished,
    pub held: Size,
    pub spare: Size,
    ghost holds: { held ≡ held_in unfinished },
    ghost small: { IsSmall spare },
}

/// An expression that is complete so far, with its size and that of the operand which a further relation would share.
#[derive(Drop)]
pub struct Sized {
    pub expr: Expr,
    pub size: Size,
    pub right: Size,
    ghost sizes: { size ≡ size_of (expression expr) },
    ghost shares: { right ≡ size_if (last (expression expr)) },
}

/// A command that is complete so far, with its size.
#[derive(Drop)]
pub struct Done {
    pub command: Command,
    pub size: Size,
    ghost sizes: { size ≡ size_of_command (command_in command) },
}

/// A definition that is complete, with its size.
#[derive(Drop)]
pub struct Defined {
    pub def: Def,
    pub size: Size,
    ghost sizes: { size ≡ size_of_definition (definition def) },
}

/// The state of the parser above the frames.
#[derive(Drop)]
pub enum ParserState {
    /// An operand is due.
    Want,
    /// An expression that may go on.
    Have(Sized),
    /// A command is due.
    Begin,
    /// A command may come.
    Maybe,
    /// A command that may go on.
    Did(Done),
    /// A symbol is due, as the last frame says.
    Due,
}

impl ParserState {
    /// Goes on to the next state. Most states that are left have no part: where one has, it is dropped in a function of its own, so
    /// that no step has the code that drops a tree.
    #[inline(always)]
    pub fn set(&mut self, next: ParserState)
        ensures { self.new ≡ next }
    {
        if matches!(self, ParserState::Have(_) | ParserState::Did(_)) {
            self.clear();
        }
        mem::forget(mem::replace(self, next));
    }

    /// Takes out the state; no part is left.
    #[inline(always)]
    pub fn take(&mut self) -> ParserState
        ensures taken { result ≡ self.old }
        ensures left { self.new ≡ ParserState.Due }
    {
        mem::replace(self, ParserState::Due)
    }

    /// Drops the part.
    #[cold]
    #[inline(never)]
    fn clear(&mut self) {
        *self = ParserState::Due;
    }
}

/// What becomes of a symbol after a part.
#[derive(Clone, Copy, Debug, PartialEq, Eq)]
pub enum Flow {
    /// It was taken.
    Taken,
    /// It comes after the part that is complete now.
    Comes,
}

/// Why a symbol is refused.
#[derive(Debug, Drop)]
pub enum Stop {
    Memory,
    Unexpected,
}

impl From<AllocError> for Stop {
    ghost use Rattle.std.specs.Prelude.{◌≡◌};
    ghost use Rattle.bk_frames.specs.declared.frame.Stop.TheVariants.{Memory};

    ghost from_gives = { λ _ stop. stop ≡ Memory };

    fn from(_error: AllocError) -> Stop {
        Stop::Memory
    }
}

impl<T: Drop> From<AllocFailed<T>> for Stop {
    ghost use Rattle.std.specs.Prelude.{◌≡◌};
    ghost use Rattle.bk_frames.specs.declared.frame.Stop.TheVariants.{Memory};

    ghost from_gives = { λ _ stop. stop ≡ Memory };

    fn from(_error: AllocFailed<T>) -> Stop {
        Stop::Memory
    }
}
