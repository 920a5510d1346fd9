//! The places of the statements of nodes.
ghost use Rattle.std.specs.Prelude.{◌≡◌, ◌++◌, None, OnOk};
ghost use Rattle.bk_tree.specs.Tree.{expression, expressions_in, command_in, commands_in, declaration, declarations_in, definition, definitions_in, starts_in};
ghost use Rattle.bk_source_map.specs.Places.{value_places, each_places, address_places, store_places, values_places, stores_places, by_turns, command_places, through_places, declared_places, one_declared_places, defined_places, one_defined_places, started_places};

use crate::asked::{is_address, is_destination, left_asked, negated, right_asked};
use crate::placing::{Change, Placing};
use crate::put::{
    put, put_jump, put_leave, put_let, put_not, put_operator, put_prefix, put_simple, put_store,
};
use bk_tree::{Command, Decl, Def, Expr, Init, Name, Prefix};
use std::alloc::AllocError;

/// An expression, for what is asked of it.
#[cycle(nodes)]
pub fn value(out: &mut Placing, asked: Option<bool>, expr: &Expr) -> Result<(), AllocError>
    ensures { OnOk result (out.new.places.items ≡ out.old.places.items ++ value_places asked (expression expr.now)) }
{
    match expr {
        Expr::Name { at, .. }
        | Expr::Number { at, .. }
        | Expr::Text { at, .. }
        | Expr::Truth { at, .. }
        | Expr::Query { at }
        | Expr::Table { at, .. } => {
            put(&mut out.places, *at, 1)?;
            put_jump(&mut out.places, asked, *at)
        }
        Expr::Parens { inside, .. } => value(out, asked, inside),
        Expr::Unary {
            at,
            prefix: Prefix::Address,
            operand,
        } => {
            address(out, operand)?;
            put_jump(&mut out.places, asked, *at)
        }
        Expr::Unary {
            at,
            prefix: Prefix::Not,
            operand,
        } => {
            value(out, negated(asked), operand)?;
            put_not(&mut out.places, asked, *at)
        }
        Expr::Unary {
            at,
            prefix,
            operand,
        } => {
            value(out, None, operand)?;
            put_prefix(&mut out.places, *prefix, *at)?;
            put_jump(&mut out.places, asked, *at)
        }
        Expr::Binary {
            at,
            operator,
            sign,
            left,
            right,
        } => {
            value(out, left_asked(*operator, asked), left)?;
            value(out, right_asked(*operator, asked), right)?;
            put_operator(&mut out.places, *operator, asked, *at, *sign)
        }
        Expr::Choice {
            at,
            sign,
            condition,
            yes,
            no,
        } => {
            value(out, Some(false), condition)?;
            value(out, None, yes)?;
            put(&mut out.places, *sign, 2)?;
            value(out, None, no)?;
            put(&mut out.places, *sign, 3)?;
            put_jump(&mut out.places, asked, *at)
        }
        Expr::Apply {
            at,
            sign,
            callee,
            arguments,
        } => {
            put(&mut out.places, *at, 1)?;
            each_value(out, arguments)?;
            value(out, None, callee)?;
            put(&mut out.places, *sign, 1)?;
            put_jump(&mut out.places, asked, *at)
        }
        Expr::Valof { at, command } => {
            act(out, command)?;
            put(&mut out.places, *at, 2)?;
            put_jump(&mut out.places, asked, *at)
        }
    }
}

/// Values one after another.
#[cycle(nodes)]
fn each_value(out: &mut Placing, exprs: &[Expr]) -> Result<(), AllocError>
    ensures { OnOk result (out.new.places.items ≡ out.old.places.items ++ each_places (expressions_in exprs.now)) }
{
    for expr in exprs {
        value(out, None, expr)?;
    }
    Ok(())
}

/// An address.
#[cycle(nodes)]
fn address(out: &mut Placing, expr: &Expr) -> Result<(), AllocError>
    ensures { OnOk result (out.new.places.items ≡ out.old.places.items ++ address_places (expression expr.now)) }
{
    match expr {
        Expr::Name { at, .. } => put(&mut out.places, *at, 1),
        Expr::Parens { inside, .. } => address(out, inside),
        Expr::Unary {
            prefix: Prefix::Contents,
            operand,
            ..
        } => value(out, None, operand),
        Expr::Binary {
            operator,
            sign,
            left,
            right,
            ..
        } => {
            if is_address(*operator) {
                value(out, None, left)?;
                value(out, None, right)?;
                put(&mut out.places, *sign, 1)?;
            }
            Ok(())
        }
        _ => Ok(()),
    }
}

/// The value on top is put into a word or a byte.
#[cycle(nodes)]
fn store(out: &mut Placing, expr: &Expr) -> Result<(), AllocError>
    ensures { OnOk result (out.new.places.items ≡ out.old.places.items ++ store_places (expression expr.now)) }
{
    match expr {
        Expr::Name { at, .. } => put(&mut out.places, *at, 1),
        Expr::Parens { inside, .. } => store(out, inside),
        Expr::Unary {
            at,
            prefix: Prefix::Contents,
            operand,
        } => {
            value(out, None, operand)?;
            put(&mut out.places, *at, 1)
        }
        Expr::Binary {
            operator,
            sign,
            left,
            right,
            ..
        } => {
            if is_destination(*operator) {
                value(out, None, left)?;
                value(out, None, right)?;
                put_store(&mut out.places, *operator, *sign)?;
            }
            Ok(())
        }
        _ => Ok(()),
    }
}

/// A command.
#[cycle(nodes)]
pub fn act(out: &mut Placing, command: &Command) -> Result<(), AllocError>
    ensures { OnOk result (out.new.places.items ≡ out.old.places.items ++ command_places (command_in command.now)) }
{
    match command {
        Command::Empty => Ok(()),
        Command::Assign {
            destinations,
            values,
            ..
        } => {
            let (to, from) = (destinations.as_slice(), values.as_slice());
            for i in 0..from.len().min(to.len()) {
                value(out, None, &from[i])?;
                store(out, &to[i])?;
            }
            Ok(())
        }
        Command::Call {
            at,
            callee,
            arguments,
        } => {
            put(&mut out.places, *at, 1)?;
            each_value(out, arguments)?;
            value(out, None, callee)?;
            put(&mut out.places, *at, 1)
        }
        Command::Goto { at, .. } => put(&mut out.places, *at, 3),
        Command::Label { at, body, .. }
        | Command::Case { at, body, .. }
        | Command::Default { at, body } => {
            put(&mut out.places, *at, 1)?;
            act(out, body)
        }
        Command::If {
            at,
            truth,
            condition,
            body,
        } => {
            value(out, Some(!*truth), condition)?;
            act(out, body)?;
            put(&mut out.places, *at, 1)
        }
        Command::Test {
            at,
            condition,
            yes,
            no,
        } => {
            value(out, Some(false), condition)?;
            act(out, yes)?;
            put(&mut out.places, *at, 2)?;
            act(out, no)?;
            put(&mut out.places, *at, 1)
        }
        Command::While {
            at,
            truth,
            condition,
            body,
        } => {
            put(&mut out.places, *at, 2)?;
            act(out, body)?;
            put(&mut out.places, *at, 1)?;
            value(out, Some(*truth), condition)?;
            put(&mut out.places, *at, 1)
        }
        Command::For {
            at,
            name,
            from,
            to,
            body,
            ..
        } => {
            value(out, None, from)?;
            out.mark(Change::Counter, name.at)?;
            value(out, None, to)?;
            out.mark(Change::Limit, name.at)?;
            put(&mut out.places, *at, 3)?;
            act(out, body)?;
            put(&mut out.places, *at, 12)?;
            out.mark(Change::Leaves, name.at)
        }
        Command::SwitchOn {
            at,
            value: expr,
            body,
        } => {
            value(out, None, expr)?;
            put(&mut out.places, *at, 1)?;
            act(out, body)?;
            put(&mut out.places, *at, 1)
        }
        Command::ResultIs { at, value: expr } => {
            value(out, None, expr)?;
            put(&mut out.places, *at, 1)
        }
        Command::Simple { at, word } => put_simple(&mut out.places, *word, *at),
        Command::Block {
            at,
            decls,
            commands,
        } => {
            declare_each(out, decls)?;
            each_act(out, commands)?;
            put_leave(out, decls, *at)
        }
        Command::Repeat { at, body } => {
            put(&mut out.places, *at, 1)?;
            act(out, body)?;
            put(&mut out.places, *at, 2)
        }
        Command::RepeatWhile {
            at,
            truth,
            body,
            condition,
        } => {
            put(&mut out.places, *at, 1)?;
            act(out, body)?;
            put(&mut out.places, *at, 1)?;
            value(out, Some(*truth), condition)?;
            put(&mut out.places, *at, 1)
        }
    }
}

/// Commands one after another.
#[cycle(nodes)]
fn each_act(out: &mut Placing, commands: &[Command]) -> Result<(), AllocError>
    ensures { OnOk result (out.new.places.items ≡ out.old.places.items ++ through_places (commands_in commands.now)) }
{
    for command in commands {
        act(out, command)?;
    }
    Ok(())
}

/// Declarations one after another.
#[cycle(nodes)]
fn declare_each(out: &mut Placing, decls: &[Decl]) -> Result<(), AllocError>
    ensures { OnOk result (out.new.places.items ≡ out.old.places.items ++ declared_places (declarations_in decls.now)) }
{
    for decl in decls {
        declare(out, decl)?;
    }
    Ok(())
}

/// A declaration.
#[cycle(nodes)]
fn declare(out: &mut Placing, decl: &Decl) -> Result<(), AllocError>
    ensures { OnOk result (out.new.places.items ≡ out.old.places.items ++ one_declared_places (declaration decl.now)) }
{
    match decl {
        Decl::Constants { .. } => Ok(()),
        Decl::Let { at, defs } => {
            define_each(out, defs)?;
            put_let(out, defs, *at)
        }
    }
}

/// Definitions one after another.
#[cycle(nodes)]
fn define_each(out: &mut Placing, defs: &[Def]) -> Result<(), AllocError>
    ensures { OnOk result (out.new.places.items ≡ out.old.places.items ++ defined_places (definitions_in defs.now)) }
{
    for def in defs {
        define(out, def)?;
    }
    Ok(())
}

/// A definition. A procedure is by itself.
#[cycle(nodes)]
fn define(out: &mut Placing, def: &Def) -> Result<(), AllocError>
    ensures { OnOk result (out.new.places.items ≡ out.old.places.items ++ one_defined_places (definition def.now)) }
{
    match def {
        Def::Routine { .. } | Def::Function { .. } => Ok(()),
        Def::Variables {
            names,
            inits: starts,
            ..
        } => start_each(out, names, starts),
    }
}

/// What variables begin with.
#[cycle(nodes)]
fn start_each(out: &mut Placing, names: &[Name], starts: &[Init]) -> Result<(), AllocError>
    ensures { OnOk result (out.new.places.items ≡ out.old.places.items ++ started_places (starts_in starts.now)) }
{
    let mut next = 0usize;
    for start in starts {
        let change = match start {
            Init::Value(expr) => {
                value(out, None, expr)?;
                Change::Variable
            }
            Init::Vector { at, .. } => {
                put(&mut out.places, *at, 2)?;
                Change::Vector
            }
        };
        if let Some(name) = names.get(next) {
            out.mark(change, name.at)?;
        }
        next = next.saturating_add(1);
    }
    Ok(())
}
