//! Walks over the bodies of procedures, which show a search what is there.

use crate::sought::Search;
use bk_tree::{Command, Decl, Def, Expr, Init, Name};

/// Seeks in an expression.
#[cycle(walk)]
pub fn in_expr<'a>(search: &mut Search<'a>, expr: &'a Expr) {
    search.expr(expr);
    match expr {
        Expr::Name { .. }
        | Expr::Number { .. }
        | Expr::Text { .. }
        | Expr::Truth { .. }
        | Expr::Query { .. }
        | Expr::Table { .. } => {}
        Expr::Parens { inside, .. } => in_expr(search, inside),
        Expr::Unary { operand, .. } => in_expr(search, operand),
        Expr::Binary {
            operator,
            left: a,
            right: b,
            ..
        } => {
            search.index(*operator, a, b);
            in_expr(search, a);
            in_expr(search, b);
        }
        Expr::Choice {
            condition,
            yes,
            no,
            ..
        } => {
            in_expr(search, condition);
            in_expr(search, yes);
            in_expr(search, no);
        }
        Expr::Apply {
            sign,
            callee,
            arguments,
            ..
        } => {
            search.call(*sign, arguments);
            in_expr(search, callee);
            in_exprs(search, arguments);
        }
        Expr::Valof { command, .. } => in_command(search, command),
    }
}

/// Seeks in expressions.
#[cycle(walk)]
fn in_exprs<'a>(search: &mut Search<'a>, exprs: &'a [Expr]) {
    for expr in exprs {
        in_expr(search, expr);
    }
}

/// Seeks in destinations, but not in names, whose values are not used.
#[cycle(walk)]
fn in_destinations<'a>(search: &mut Search<'a>, exprs: &'a [Expr]) {
    for expr in exprs {
        if !matches!(expr, Expr::Name { .. }) {
            in_expr(search, expr);
        }
    }
}

/// Seeks in a command.
#[cycle(walk)]
pub fn in_command<'a>(search: &mut Search<'a>, command: &'a Command) {
    search.command(command);
    match command {
        Command::Empty | Command::Goto { .. } | Command::Simple { .. } => {}
        Command::Assign {
            destinations: dests,
            values,
            ..
        } => {
            search.assignments(dests, values);
            in_destinations(search, dests);
            in_exprs(search, values);
        }
        Command::Call {
            at,
            callee,
            arguments,
        } => {
            search.call(*at, arguments);
            in_expr(search, callee);
            in_exprs(search, arguments);
        }
        Command::Label { body, .. }
        | Command::Case { body, .. }
        | Command::Default { body, .. }
        | Command::Repeat { body, .. } => in_command(search, body),
        Command::If {
            condition: value,
            body,
            ..
        }
        | Command::While {
            condition: value,
            body,
            ..
        }
        | Command::RepeatWhile {
            condition: value,
            body,
            ..
        }
        | Command::SwitchOn { value, body, .. } => {
            in_expr(search, value);
            in_command(search, body);
        }
        Command::Test {
            condition: value,
            yes,
            no,
            ..
        } => {
            in_expr(search, value);
            in_command(search, yes);
            in_command(search, no);
        }
        Command::For {
            name,
            from,
            to,
            body,
            ..
        } => {
            let outer = search.enter(command);
            search.declaration(name);
            search.leave(outer);
            in_expr(search, from);
            in_expr(search, to);
            in_command(search, body);
        }
        Command::ResultIs { value, .. } => in_expr(search, value),
        Command::Block {
            decls,
            commands,
            ..
        } => {
            let outer = search.enter(command);
            in_decls(search, decls);
            in_commands(search, commands);
            search.leave(outer);
        }
    }
}

/// Seeks in commands.
#[cycle(walk)]
fn in_commands<'a>(search: &mut Search<'a>, commands: &'a [Command]) {
    for command in commands {
        in_command(search, command);
    }
}

/// Seeks in declarations.
#[cycle(walk)]
fn in_decls<'a>(search: &mut Search<'a>, decls: &'a [Decl]) {
    for decl in decls {
        if let Decl::Let { defs, .. } = decl {
            in_defs(search, defs);
        }
    }
}

/// Seeks in the variables of definitions. A procedure inside is another of the program.
#[cycle(walk)]
fn in_defs<'a>(search: &mut Search<'a>, defs: &'a [Def]) {
    for def in defs {
        if let Def::Variables { names, inits, .. } = def {
            for name in names {
                search.declaration(name);
            }
            in_inits(search, names, inits);
        }
    }
}

/// Seeks in what variables begin with.
#[cycle(walk)]
fn in_inits<'a>(search: &mut Search<'a>, names: &'a [Name], inits: &'a [Init]) {
    for (i, init) in inits.iter().enumerate() {
        if let Some(name) = names.get(i) {
            search.init(name, init);
        }
        if let Init::Value(value) = init {
            in_expr(search, value);
        }
    }
}
