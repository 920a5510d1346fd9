//! How many objects that last for the whole run the parts of a tree have.
ghost use Rattle.std.specs.Prelude.{◌≡◌, ℕ, ◌+◌, IfOk};
ghost use Rattle.bk_tree.specs.Tree.{expression, expressions_in, command_in, commands_in, declaration, declarations_in, items_in, constants, definition, definitions_in, starts_in};
ghost use Rattle.bk_meaning.specs.Environment.{objects, objects_of_each, objects_of_command, objects_of_commands, objects_of_declaration, objects_of_declarations, objects_of_definition, objects_of_definitions, objects_of_starts};

use bk_tree::{Command, ConstItem, Decl, Def, Expr, Init, Sort};
use std::alloc::AllocError;

/// The sum of two counts. A sum that 64 bits do not hold is refused as memory is.
pub fn add(x: u64, y: u64) -> Result<u64, AllocError>
    ensures { IfOk result (λ n. n ≡ x + y) }
{
    x.checked_add(y).ok_or(AllocError)
}

/// How many an expression has: its strings and tables, and what commands inside it have.
#[cycle(count)]
pub fn count(expr: &Expr) -> Result<u64, AllocError>
    ensures { IfOk result (λ n. n ≡ objects (expression expr.now)) }
{
    match expr {
        Expr::Text { .. } | Expr::Table { .. } => Ok(1),
        Expr::Parens { inside, .. } => count(inside),
        Expr::Unary { operand, .. } => count(operand),
        Expr::Binary { left, right, .. } => add(count(left)?, count(right)?),
        Expr::Choice {
            condition,
            yes,
            no,
            ..
        } => {
            let first = add(count(condition)?, count(yes)?)?;
            add(first, count(no)?)
        }
        Expr::Apply {
            callee,
            arguments,
            ..
        } => add(count(callee)?, count_each(arguments)?),
        Expr::Valof { command, .. } => count_command(command),
        Expr::Name { .. } | Expr::Number { .. } | Expr::Truth { .. } | Expr::Query { .. } => Ok(0),
    }
}

/// How many some expressions have.
#[cycle(count)]
pub fn count_each(exprs: &[Expr]) -> Result<u64, AllocError>
    ensures { IfOk result (λ n. n ≡ objects_of_each (expressions_in exprs.now)) }
{
    let mut total = 0;
    for expr in exprs {
        total = add(total, count(expr)?)?;
    }
    Ok(total)
}

/// How many a command has.
#[cycle(count)]
pub fn count_command(command: &Command) -> Result<u64, AllocError>
    ensures { IfOk result (λ n. n ≡ objects_of_command (command_in command.now)) }
{
    match command {
        Command::Assign {
            destinations: dests,
            values,
            ..
        } => add(count_each(dests)?, count_each(values)?),
        Command::Call {
            callee,
            arguments,
            ..
        } => add(count(callee)?, count_each(arguments)?),
        Command::Label { body, .. }
        | Command::Case { body, .. }
        | Command::Default { body, .. }
        | Command::Repeat { body, .. } => count_command(body),
        Command::If {
            condition: value,
            body,
            ..
        }
        | Command::While {
            condition: value,
            body,
            ..
        }
        | Command::SwitchOn { value, body, .. } => add(count(value)?, count_command(body)?),
        Command::Test {
            condition: value,
            yes,
            no,
            ..
        } => {
            let first = add(count(value)?, count_command(yes)?)?;
            add(first, count_command(no)?)
        }
        Command::For { from, to, body, .. } => {
            let first = add(count(from)?, count(to)?)?;
            add(first, count_command(body)?)
        }
        Command::ResultIs { value, .. } => count(value),
        Command::Block {
            decls,
            commands,
            ..
        } => add(count_decls(decls)?, count_commands(commands)?),
        Command::RepeatWhile {
            body,
            condition: value,
            ..
        } => add(count_command(body)?, count(value)?),
        Command::Empty | Command::Goto { .. } | Command::Simple { .. } => Ok(0),
    }
}

/// How many some commands have.
#[cycle(count)]
pub fn count_commands(commands: &[Command]) -> Result<u64, AllocError>
    ensures { IfOk result (λ n. n ≡ objects_of_commands (commands_in commands.now)) }
{
    let mut total = 0;
    for command in commands {
        total = add(total, count_command(command)?)?;
    }
    Ok(total)
}

/// How many a declaration has.
#[cycle(count)]
pub fn count_decl(decl: &Decl) -> Result<u64, AllocError>
    ensures { IfOk result (λ n. n ≡ objects_of_declaration (declaration decl.now)) }
{
    match decl {
        Decl::Constants { sort, items, .. } => Ok(count_items(*sort, items)),
        Decl::Let { defs, .. } => count_defs(defs),
    }
}

/// How many some declarations have.
#[cycle(count)]
pub fn count_decls(decls: &[Decl]) -> Result<u64, AllocError>
    ensures { IfOk result (λ n. n ≡ objects_of_declarations (declarations_in decls.now)) }
{
    let mut total = 0;
    for decl in decls {
        total = add(total, count_decl(decl)?)?;
    }
    Ok(total)
}

/// How many a definition has. A procedure is one itself.
#[cycle(count)]
pub fn count_def(def: &Def) -> Result<u64, AllocError>
    ensures { IfOk result (λ n. n ≡ objects_of_definition (definition def.now)) }
{
    match def {
        Def::Routine { body, .. } => add(1, count_command(body)?),
        Def::Function { body, .. } => add(1, count(body)?),
        Def::Variables { inits: starts, .. } => count_starts(starts),
    }
}

/// How many some definitions have.
#[cycle(count)]
pub fn count_defs(defs: &[Def]) -> Result<u64, AllocError>
    ensures { IfOk result (λ n. n ≡ objects_of_definitions (definitions_in defs.now)) }
{
    let mut total = 0;
    for def in defs {
        total = add(total, count_def(def)?)?;
    }
    Ok(total)
}

/// How many the expressions that variables begin with have.
#[cycle(count)]
pub fn count_starts(starts: &[Init]) -> Result<u64, AllocError>
    ensures { IfOk result (λ n. n ≡ objects_of_starts (starts_in starts.now)) }
{
    let mut total = 0;
    for start in starts {
        if let Init::Value(value) = start {
            total = add(total, count(value)?)?;
        }
    }
    Ok(total)
}

/// How many a declaration with constants has: a name of STATIC has one.
#[tactic(auto, using(crate::proofs::Counted::items_counted))]
fn count_items(sort: Sort, items: &[ConstItem]) -> u64
    ensures { (line : ℕ) → result ≡ objects_of_declaration (constants line sort (items_in items.now)) }
{
    match sort {
        Sort::Static => items.len() as u64,
        Sort::Manifest | Sort::Global => 0,
    }
}
