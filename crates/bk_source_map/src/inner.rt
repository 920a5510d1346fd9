//! The places of what is by itself in nodes: the code of procedures, and the words of STATICs and TABLEs.
ghost use Rattle.std.specs.Prelude.{◌≡◌, ◌++◌, None, OnOk};
ghost use Rattle.bk_tree.specs.Tree.{expression, expressions_in, command_in, commands_in, declaration, declarations_in, definition, definitions_in, items_in, starts_in};
ghost use Rattle.bk_source_map.specs.Places.{value_places, command_places, constant_places, table_places, item_places, static_places, procedure_places, inner, inner_each, inner_at, inner_onto, inner_in, inner_through, inner_declared, inner_one_declared, inner_defined, inner_one_defined, inner_started};

use crate::asked::is_destination;
use crate::kind::Kind;
use crate::nodes::{act, value};
use crate::placing::{Change, Placing};
use crate::put::put;
use bk_tree::{Command, ConstItem, Decl, Def, Expr, Init, Name, Position, Prefix, Sort};
use std::alloc::AllocError;

/// The constants of a table.
fn put_constants(out: &mut Placing, exprs: &[Expr]) -> Result<(), AllocError>
    ensures { OnOk result (out.new.places.items ≡ out.old.places.items ++ constant_places (expressions_in exprs.now)) }
{
    for expr in exprs {
        out.places.push(expr.at())?;
    }
    Ok(())
}

/// A table.
fn put_table(out: &mut Placing, kind: Kind, at: Position, items: &[Expr]) -> Result<(), AllocError>
    ensures { OnOk result (out.new.places.items ≡ out.old.places.items ++ table_places kind at (expressions_in items.now)) }
{
    match kind {
        Kind::Procedures => Ok(()),
        Kind::Words => {
            put(&mut out.places, at, 1)?;
            put_constants(out, items)
        }
    }
}

/// The items of STATIC.
fn put_items(out: &mut Placing, items: &[ConstItem]) -> Result<(), AllocError>
    ensures { OnOk result (out.new.places.items ≡ out.old.places.items ++ item_places (items_in items.now)) }
{
    for item in items {
        let ConstItem::Item { at, .. } = item;
        put(&mut out.places, *at, 2)?;
    }
    Ok(())
}

/// A declaration with constants.
fn put_statics(
    out: &mut Placing,
    kind: Kind,
    sort: Sort,
    items: &[ConstItem],
) -> Result<(), AllocError>
    ensures { OnOk result (out.new.places.items ≡ out.old.places.items ++ static_places kind sort (items_in items.now)) }
{
    match (kind, sort) {
        (Kind::Words, Sort::Static) => put_items(out, items),
        (_, _) => Ok(()),
    }
}

/// The formals of a procedure, whose ENTRY is next.
fn mark_formals(out: &mut Placing, formals: &[Name]) -> Result<(), AllocError>
    ensures { OnOk result (out.new.places.items ≡ out.old.places.items) }
{
    for formal in formals {
        out.mark(Change::Formal, formal.at)?;
    }
    Ok(())
}

/// The code of a routine.
fn put_routine(
    out: &mut Placing,
    kind: Kind,
    at: Position,
    formals: &[Name],
    body: &Command,
) -> Result<(), AllocError>
    ensures { OnOk result (out.new.places.items ≡ out.old.places.items ++ procedure_places kind at (command_places (command_in body.now))) }
{
    match kind {
        Kind::Procedures => {
            mark_formals(out, formals)?;
            put(&mut out.places, at, 2)?;
            act(out, body)?;
            put(&mut out.places, at, 2)
        }
        Kind::Words => Ok(()),
    }
}

/// The code of a function.
fn put_function(
    out: &mut Placing,
    kind: Kind,
    at: Position,
    formals: &[Name],
    body: &Expr,
) -> Result<(), AllocError>
    ensures { OnOk result (out.new.places.items ≡ out.old.places.items ++ procedure_places kind at (value_places None (expression body.now))) }
{
    match kind {
        Kind::Procedures => {
            mark_formals(out, formals)?;
            put(&mut out.places, at, 2)?;
            value(out, None, body)?;
            put(&mut out.places, at, 2)
        }
        Kind::Words => Ok(()),
    }
}

/// In an expression.
#[cycle(inner)]
fn inside(out: &mut Placing, kind: Kind, expr: &Expr) -> Result<(), AllocError>
    ensures { OnOk result (out.new.places.items ≡ out.old.places.items ++ inner kind (expression expr.now)) }
{
    match expr {
        Expr::Parens {
            inside: operand,
            ..
        } => inside(out, kind, operand),
        Expr::Unary {
            prefix: Prefix::Address,
            operand,
            ..
        } => inside_at(out, kind, operand),
        Expr::Unary { operand, .. } => inside(out, kind, operand),
        Expr::Binary { left, right, .. } => {
            inside(out, kind, left)?;
            inside(out, kind, right)
        }
        Expr::Choice {
            condition,
            yes,
            no,
            ..
        } => {
            inside(out, kind, condition)?;
            inside(out, kind, yes)?;
            inside(out, kind, no)
        }
        Expr::Apply {
            callee,
            arguments,
            ..
        } => {
            inside(out, kind, callee)?;
            inside_each(out, kind, arguments)
        }
        Expr::Valof { command, .. } => inside_act(out, kind, command),
        Expr::Table { at, items } => put_table(out, kind, *at, items),
        Expr::Name { .. }
        | Expr::Number { .. }
        | Expr::Text { .. }
        | Expr::Truth { .. }
        | Expr::Query { .. } => Ok(()),
    }
}

/// In expressions.
#[cycle(inner)]
fn inside_each(out: &mut Placing, kind: Kind, exprs: &[Expr]) -> Result<(), AllocError>
    ensures { OnOk result (out.new.places.items ≡ out.old.places.items ++ inner_each kind (expressions_in exprs.now)) }
{
    for expr in exprs {
        inside(out, kind, expr)?;
    }
    Ok(())
}

/// In what is asked for its address, or is put into.
#[cycle(inner)]
fn inside_at(out: &mut Placing, kind: Kind, expr: &Expr) -> Result<(), AllocError>
    ensures { OnOk result (out.new.places.items ≡ out.old.places.items ++ inner_at kind (expression expr.now)) }
{
    match expr {
        Expr::Parens {
            inside: operand,
            ..
        } => inside_at(out, kind, operand),
        Expr::Unary {
            prefix: Prefix::Contents,
            operand,
            ..
        } => inside(out, kind, operand),
        Expr::Binary {
            operator,
            left,
            right,
            ..
        } => {
            if is_destination(*operator) {
                inside(out, kind, left)?;
                inside(out, kind, right)?;
            }
            Ok(())
        }
        _ => Ok(()),
    }
}

/// In destinations.
#[cycle(inner)]
fn inside_onto(out: &mut Placing, kind: Kind, exprs: &[Expr]) -> Result<(), AllocError>
    ensures { OnOk result (out.new.places.items ≡ out.old.places.items ++ inner_onto kind (expressions_in exprs.now)) }
{
    for expr in exprs {
        inside_at(out, kind, expr)?;
    }
    Ok(())
}

/// In a command.
#[cycle(inner)]
fn inside_act(out: &mut Placing, kind: Kind, command: &Command) -> Result<(), AllocError>
    ensures { OnOk result (out.new.places.items ≡ out.old.places.items ++ inner_in kind (command_in command.now)) }
{
    match command {
        Command::Assign {
            destinations,
            values,
            ..
        } => {
            inside_onto(out, kind, destinations)?;
            inside_each(out, kind, values)
        }
        Command::Call {
            callee,
            arguments,
            ..
        } => {
            inside(out, kind, callee)?;
            inside_each(out, kind, arguments)
        }
        Command::Label { body, .. }
        | Command::Case { body, .. }
        | Command::Default { body, .. }
        | Command::Repeat { body, .. } => inside_act(out, kind, body),
        Command::If {
            condition,
            body,
            ..
        }
        | Command::While {
            condition,
            body,
            ..
        }
        | Command::SwitchOn {
            value: condition,
            body,
            ..
        } => {
            inside(out, kind, condition)?;
            inside_act(out, kind, body)
        }
        Command::Test {
            condition,
            yes,
            no,
            ..
        } => {
            inside(out, kind, condition)?;
            inside_act(out, kind, yes)?;
            inside_act(out, kind, no)
        }
        Command::For { from, to, body, .. } => {
            inside(out, kind, from)?;
            inside(out, kind, to)?;
            inside_act(out, kind, body)
        }
        Command::ResultIs { value, .. } => inside(out, kind, value),
        Command::Block {
            decls,
            commands,
            ..
        } => {
            inside_decls(out, kind, decls)?;
            inside_each_act(out, kind, commands)
        }
        Command::RepeatWhile {
            body,
            condition,
            ..
        } => {
            inside_act(out, kind, body)?;
            inside(out, kind, condition)
        }
        Command::Empty | Command::Goto { .. } | Command::Simple { .. } => Ok(()),
    }
}

/// In commands.
#[cycle(inner)]
fn inside_each_act(out: &mut Placing, kind: Kind, commands: &[Command]) -> Result<(), AllocError>
    ensures { OnOk result (out.new.places.items ≡ out.old.places.items ++ inner_through kind (commands_in commands.now)) }
{
    for command in commands {
        inside_act(out, kind, command)?;
    }
    Ok(())
}

/// In declarations.
#[cycle(inner)]
pub fn inside_decls(out: &mut Placing, kind: Kind, decls: &[Decl]) -> Result<(), AllocError>
    ensures { OnOk result (out.new.places.items ≡ out.old.places.items ++ inner_declared kind (declarations_in decls.now)) }
{
    for decl in decls {
        inside_decl(out, kind, decl)?;
    }
    Ok(())
}

/// In a declaration.
#[cycle(inner)]
fn inside_decl(out: &mut Placing, kind: Kind, decl: &Decl) -> Result<(), AllocError>
    ensures { OnOk result (out.new.places.items ≡ out.old.places.items ++ inner_one_declared kind (declaration decl.now)) }
{
    match decl {
        Decl::Constants { sort, items, .. } => put_statics(out, kind, *sort, items),
        Decl::Let { defs, .. } => inside_defs(out, kind, defs),
    }
}

/// In definitions.
#[cycle(inner)]
fn inside_defs(out: &mut Placing, kind: Kind, defs: &[Def]) -> Result<(), AllocError>
    ensures { OnOk result (out.new.places.items ≡ out.old.places.items ++ inner_defined kind (definitions_in defs.now)) }
{
    for def in defs {
        inside_def(out, kind, def)?;
    }
    Ok(())
}

/// In a definition. A procedure is before those in it.
#[cycle(inner)]
fn inside_def(out: &mut Placing, kind: Kind, def: &Def) -> Result<(), AllocError>
    ensures { OnOk result (out.new.places.items ≡ out.old.places.items ++ inner_one_defined kind (definition def.now)) }
{
    match def {
        Def::Routine {
            at,
            formals,
            body,
            ..
        } => {
            put_routine(out, kind, *at, formals, body)?;
            inside_act(out, kind, body)
        }
        Def::Function {
            at,
            formals,
            body,
            ..
        } => {
            put_function(out, kind, *at, formals, body)?;
            inside(out, kind, body)
        }
        Def::Variables { inits: starts, .. } => inside_starts(out, kind, starts),
    }
}

/// In what variables begin with.
#[cycle(inner)]
fn inside_starts(out: &mut Placing, kind: Kind, starts: &[Init]) -> Result<(), AllocError>
    ensures { OnOk result (out.new.places.items ≡ out.old.places.items ++ inner_started kind (starts_in starts.now)) }
{
    for start in starts {
        match start {
            Init::Value(expr) => inside(out, kind, expr)?,
            Init::Vector { .. } => {}
        }
    }
    Ok(())
}
