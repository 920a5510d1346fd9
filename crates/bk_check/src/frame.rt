//! What is still to be done.
ghost use Rattle.std.specs.Prelude.{◌≡◌, None};
ghost use Rattle.bk_tree.specs.Tree.{expression};
ghost use Rattle.bk_meaning.specs.Parts.{acts_at};
ghost use Rattle.bk_check.specs.Resume.{acts_in, argument_of};

use crate::scopes::Scope;
use bk_lasting::Env;
use bk_objects::{FormatPart, Location, Reason, Routine, Worth};
use bk_tree::{Command, Decl, Def, Expr, Init, Name, Operator, Position, Prefix};

/// What was given.
#[derive(Clone, Copy, Debug)]
pub enum Thing {
    Value(Worth),
    Truth(bool),
    Target(Location),
    /// A command is done.
    Done,
}

/// How a part is left.
#[derive(Clone, Copy)]
pub enum Exit<'a> {
    Break,
    Loop,
    EndCase,
    Goto(&'a [u8]),
    Result(Worth),
    Return,
}

/// A place in a command that is sought.
#[derive(Clone, Copy)]
pub enum Sought<'a> {
    Label(&'a [u8]),
    /// The CASE with this word.
    Case(u32),
    Default,
}

/// What an undefined act is done with, and the values that it has.
#[derive(Clone, Copy)]
pub enum Subject<'a> {
    /// The value or the place of an expression.
    Expr(&'a Expr),
    /// A prefix before this value.
    Prefixed(&'a Expr, Worth),
    /// An operator between these values.
    Operation(&'a Expr, Worth, Worth),
    /// The truth of an expression.
    Condition(&'a Expr),
    /// The value of the expression of a SWITCHON.
    Switch(&'a Expr),
    /// The variable of a FOR, the number of its object, and the limit.
    Variable(&'a Name, u64, Worth),
    /// A call at this position, and what is called.
    Call(Position, &'a Expr),
    /// A routine of the library, called at this position; the number of its argument, from 1; the directive that takes it, if one does.
    Library(Position, Routine, usize, Option<FormatPart>),
    /// What no accepted source does, at this position.
    Nothing(Position),
}

/// The values of the operands of an expression, as far as it has them.
#[derive(Clone, Copy)]
pub enum Operands {
    None,
    One(Worth),
    Two(Worth, Worth),
}

/// An expression with its operands.
pub fn subject_of<'a>(expr: &'a Expr, operands: Operands) -> Subject<'a>
    ensures at { acts_in result ≡ acts_at (expression expr.now) }
    ensures argument { argument_of result ≡ None }
{
    match operands {
        Operands::None => Subject::Expr(expr),
        Operands::One(x) => Subject::Prefixed(expr, x),
        Operands::Two(x, y) => Subject::Operation(expr, x, y),
    }
}

/// A call that is active.
#[derive(Clone, Copy)]
pub struct Call {
    /// The position of its parenthesis.
    pub at: Position,
    /// What is called.
    pub callee: Worth,
    /// How many arguments it has.
    pub arguments: usize,
    /// How many calls were active before it.
    pub calls: u64,
}

/// What goes on with a value.
#[derive(Drop)]
pub enum OnValue<'a> {
    /// `!`, with the address.
    Contents(&'a Expr),
    /// Another prefix.
    Prefix(&'a Expr, Prefix),
    /// An operator, with its first operand.
    Left(&'a Expr, Operator, &'a Expr, Env<'a>),
    /// With its second, too.
    Right(&'a Expr, Operator, Worth),
    /// The value of a condition.
    Judge(&'a Expr),
    /// The address of a place.
    At,
    /// The vector, and the offset after it.
    Vector(&'a Expr, &'a Expr, Env<'a>),
    Offset(&'a Expr, Worth),
    /// The string, and the number of its byte after it.
    String(&'a Expr, Env<'a>),
    Byte(Worth),
    /// An argument: those after it and what the names mean there; those before; the procedure.
    Argument(Position, &'a [Expr], Env<'a>, Vec<Worth>, &'a Expr, Env<'a>),
    /// The procedure, with its arguments.
    Callee(Position, &'a Expr, Vec<Worth>),
    /// The value of a command that is a call.
    Dropped,
    /// The value of RESULTIS.
    Result,
    /// The value of an assignment: the destinations, and the values after it.
    Assigned(&'a [Expr], Env<'a>, &'a [Expr], Env<'a>),
    /// The value of SWITCHON, and its command.
    Switch(&'a Expr, &'a Command, Env<'a>),
    /// The first value of a FOR: the variable, the limit, the command and the step.
    ForStart(&'a Name, &'a Expr, Env<'a>, &'a Command, Option<u32>),
    /// Its limit.
    ForLimit(&'a Name, Env<'a>, Worth, &'a Command, Option<u32>),
    /// What a variable of LET begins with: what those after it begin with, and the names from this one on.
    Starts(&'a [Init], Env<'a>, &'a [Name], Box<Let<'a>>),
}

/// What goes on with a truth.
#[derive(Drop)]
pub enum OnTruth<'a> {
    /// Of these values, the first or the second.
    Choice(&'a Expr, &'a Expr, Env<'a>),
    Not,
    And(&'a Expr, Env<'a>),
    Or(&'a Expr, Env<'a>),
    /// IF (true) or UNLESS (false).
    When(bool, &'a Command, Env<'a>),
    Test(&'a Command, &'a Command, Env<'a>),
    /// The first round of a loop.
    First(bool, &'a Command, Env<'a>),
    /// A further round.
    Further(bool, &'a Command, Env<'a>),
}

/// What goes on with a place.
#[derive(Drop)]
pub enum OnTarget<'a> {
    /// `@`
    Address(&'a Expr),
    /// This value goes to this destination; the assignments after it.
    Put(&'a Expr, Worth, &'a [Expr], Env<'a>, &'a [Expr], Env<'a>),
}

/// What goes on after a command.
#[derive(Drop)]
pub enum OnDone<'a> {
    /// The commands after it.
    After(&'a [Command], Env<'a>),
    /// The body of a procedure with BE is done.
    Body,
    /// The command of a VALOF on this line is done.
    Valof(u32),
    /// The commands of a scope.
    Scope(&'a [Command], Env<'a>),
    /// A scope with this one command.
    Alone(&'a Command, Env<'a>),
    /// The command of a SWITCHON.
    Cases,
    /// A round of a loop.
    Round(&'a Command, Env<'a>),
    /// A round of a FOR.
    ForRound(For<'a>),
    /// The commands of a scope in which a GOTO landed.
    Landed(Scope<'a>),
    /// The same of a scope with one command, a block with no declarations at this position.
    LandedInBlock(Position, Scope<'a>),
}

/// What is to be done with what the part inside gives.
#[derive(Drop)]
pub enum Continuation<'a> {
    Value(OnValue<'a>),
    Truth(OnTruth<'a>),
    Target(OnTarget<'a>),
    Done(OnDone<'a>),
    /// A call ends.
    Returned(Call),
    /// The objects from a number on die.
    Closing(u64),
}

/// A FOR that runs.
#[derive(Drop)]
pub struct For<'a> {
    pub name: &'a Name,
    /// The number of its variable, which is an object.
    pub object: u64,
    pub limit: Worth,
    pub step: u32,
    pub body: &'a Command,
    pub env: Env<'a>,
}

/// A variable, and what it begins with.
#[derive(Clone, Copy)]
pub struct Start<'a> {
    pub name: &'a Name,
    pub value: Worth,
}

/// A LET of a block, as far as it is done.
#[derive(Drop)]
pub struct Let<'a> {
    /// The variables that have their values.
    pub starts: Vec<Start<'a>>,
    /// The definitions that are left, and what names mean there.
    pub defs: &'a [Def],
    pub here: Env<'a>,
    /// What names mean after the LET, but for its variables.
    pub following: Env<'a>,
    /// The declarations and the commands after it.
    pub decls: &'a [Decl],
    pub commands: &'a [Command],
}

/// What comes next.
#[derive(Drop)]
pub enum Next<'a> {
    Value(&'a Expr, Env<'a>),
    Truth(&'a Expr, Env<'a>),
    Target(&'a Expr, Env<'a>),
    /// A command, from its beginning or from a place in it that is sought.
    Act(&'a Command, Option<Sought<'a>>, Env<'a>),
    /// Commands in order.
    InOrder(&'a [Command], Option<Sought<'a>>, Env<'a>),
    /// The declarations of a block, and its commands.
    Declare(&'a [Decl], &'a [Command], Env<'a>),
    /// The definitions that are left of a LET.
    Define(Box<Let<'a>>),
    /// What variables begin with, and their names.
    Starts(&'a [Init], Env<'a>, &'a [Name], Box<Let<'a>>),
    Gives(Thing),
    Leaves(Exit<'a>),
    /// A routine of the library is called.
    Library(Position, Routine, Vec<Worth>),
    /// The program ends with this status.
    Status(u32),
    DivideByZero(Subject<'a>),
    Undefined(Subject<'a>, Reason),
    /// No turn is left for what is at this position.
    Going(Position),
}
