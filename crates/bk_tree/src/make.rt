//! Trees made of lists of parts. Each function says which tree it makes.
ghost use Rattle.std.specs.Prelude.{◌≡◌, Option, map};
ghost use Rattle.bk_tree.specs.Tree.{expression, expressions_in, step_in, command_in, commands_in, declaration, declarations_in, items_in, definition, definitions_in, starts_in, mention, apply, table, assign, call, for_loop, block, constants, definitions, variables};

use crate::position::Position;
use crate::tree::{Command, ConstItem, Decl, Def, Expr, Init, Name, Sort};

/// A call, as an expression.
pub fn apply(at: Position, sign: Position, callee: Box<Expr>, items: Vec<Expr>) -> Expr
    ensures { expression result ≡ apply at sign (expression callee.value) (expressions_in items.items) }
{
    Expr::Apply {
        at,
        sign,
        callee,
        arguments: items,
    }
}

/// A TABLE.
pub fn table(at: Position, items: Vec<Expr>) -> Expr
    ensures { expression result ≡ table at (expressions_in items.items) }
{
    Expr::Table { at, items }
}

/// An assignment.
pub fn assign(at: Position, dests: Vec<Expr>, values: Vec<Expr>) -> Command
    ensures { command_in result ≡ assign at (expressions_in dests.items) (expressions_in values.items) }
{
    Command::Assign {
        at,
        destinations: dests,
        values,
    }
}

/// A call, as a command.
pub fn call(at: Position, callee: Box<Expr>, items: Vec<Expr>) -> Command
    ensures { command_in result ≡ call at (expression callee.value) (expressions_in items.items) }
{
    Command::Call {
        at,
        callee,
        arguments: items,
    }
}

/// A FOR.
pub fn for_loop(
    at: Position,
    name: Name,
    from: Box<Expr>,
    to: Box<Expr>,
    by: Option<Box<Expr>>,
    body: Box<Command>,
) -> Command
    ensures { command_in result ≡ for_loop at (mention name) (expression from.value) (expression to.value) (step_in by) (command_in body.value) }
{
    Command::For {
        at,
        name,
        from,
        to,
        by,
        body,
    }
}

/// A block.
pub fn block(at: Position, decls: Vec<Decl>, commands: Vec<Command>) -> Command
    ensures { command_in result ≡ block at (declarations_in decls.items) (commands_in commands.items) }
{
    Command::Block {
        at,
        decls,
        commands,
    }
}

/// A declaration with constants.
pub fn constants(at: Position, sort: Sort, items: Vec<ConstItem>) -> Decl
    ensures { declaration result ≡ constants at sort (items_in items.items) }
{
    Decl::Constants { at, sort, items }
}

/// A LET.
pub fn let_of(at: Position, defs: Vec<Def>) -> Decl
    ensures { declaration result ≡ definitions at (definitions_in defs.items) }
{
    Decl::Let { at, defs }
}

/// A definition of variables.
pub fn variables(at: Position, names: Vec<Name>, inits: Vec<Init>) -> Def
    ensures { definition result ≡ variables at (map mention names.items) (starts_in inits.items) }
{
    Def::Variables { at, names, inits }
}
