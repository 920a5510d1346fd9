//! Going through a program: what its parts have that lasts is listed, in the order of the source.
ghost use Rattle.std.specs.Prelude.{◌≡◌, [], ◌∷◌, ◌++◌, map, IfOk, OnOk};
ghost use Rattle.bk_tree.specs.Tree.{expression, expressions_in, command_in, commands_in, declaration, declarations_in, items_in, definition, definitions_in, starts_in, mention};
ghost use Rattle.bk_meaning.specs.Lasting.{words, constant_words, static_words, of_items, procedure_here, of_expression, of_each, of_command, of_commands, of_declaration, of_declarations, of_definition, of_definitions, of_starts};
ghost use Rattle.bk_lasting.specs.Views.{env_in, body_in, lasting_in, listed};

use crate::env::Env;
use crate::program::{Body, Lasting, Procedure};
use crate::scopes::{
    constant, declared, global_named, in_block, in_for, in_scope, inside, past, past_command,
    past_def, past_each, within_let,
};
use crate::text::text_words;
use bk_tree::{Command, ConstItem, Decl, Def, Expr, Init, Name, Sort};
use std::alloc::{AllocError, Global};

/// Lists one more.
#[tactic(auto, using(crate::proofs::Listed::listed_push))]
pub fn list_one<'a>(list: &mut Vec<Lasting<'a>>, lasting: Lasting<'a>) -> Result<(), AllocError>
    ensures { OnOk result (listed list.new ≡ listed list.old ++ lasting_in lasting.entry ∷ []) }
{
    list.push(lasting)?;
    Ok(())
}

/// The words of a TABLE; 0 for what is no constant.
fn constant_words(alloc: Global, env: &Env, exprs: &[Expr]) -> Result<Vec<u32>, AllocError>
    ensures { IfOk result (λ words. words.items ≡ constant_words (env_in env.now) (expressions_in exprs.now)) }
{
    let mut words = Vec::with_capacity(alloc, exprs.len())?;
    for expr in exprs {
        words.push(constant(env, expr).unwrap_or(0))?;
    }
    Ok(words)
}

/// An object of one word.
fn one_word<'a>(alloc: Global, word: u32) -> Result<Lasting<'a>, AllocError>
    ensures { IfOk result (λ made. lasting_in made ≡ words (word ∷ [])) }
{
    Ok(Lasting::Words(vec![in alloc; word]?))
}

/// A procedure that is defined where names mean this.
fn procedure_here<'a>(
    name: &'a [u8],
    formals: &'a [Name],
    body: Body<'a>,
    env: &Env<'a>,
) -> Result<Lasting<'a>, AllocError>
    ensures { IfOk result (λ made. lasting_in made ≡ procedure_here name.now (map mention formals.now) (body_in body.entry) (env_in env.now)) }
{
    Ok(Lasting::Code(Procedure {
        name,
        formals,
        body,
        env: env.again()?.following(1)?,
        global: global_named(env.sense(name)),
    }))
}

/// Lists the words of a STATIC.
fn list_statics(
    list: &mut Vec<Lasting>,
    alloc: Global,
    env: &Env,
    items: &[ConstItem],
) -> Result<(), AllocError>
    ensures { OnOk result (listed list.new ≡ listed list.old ++ static_words (env_in env.now) (items_in items.now)) }
{
    for ConstItem::Item { expr, .. } in items {
        let word = constant(env, expr).unwrap_or(0);
        list_one(list, one_word(alloc, word)?)?;
    }
    Ok(())
}

/// Lists what a declaration with constants has.
fn list_items(
    list: &mut Vec<Lasting>,
    alloc: Global,
    env: &Env,
    sort: Sort,
    items: &[ConstItem],
) -> Result<(), AllocError>
    ensures { OnOk result (listed list.new ≡ listed list.old ++ of_items (env_in env.now) sort (items_in items.now)) }
{
    match sort {
        Sort::Static => list_statics(list, alloc, env, items),
        Sort::Manifest | Sort::Global => Ok(()),
    }
}

/// Lists what an expression has.
#[cycle(listing)]
fn list_expr<'a>(
    list: &mut Vec<Lasting<'a>>,
    alloc: Global,
    env: &Env<'a>,
    expr: &'a Expr,
) -> Result<(), AllocError>
    ensures { OnOk result (listed list.new ≡ listed list.old ++ of_expression (env_in env.now) (expression expr.now)) }
{
    match expr {
        Expr::Text { bytes, .. } => list_one(list, Lasting::Words(text_words(alloc, bytes)?)),
        Expr::Table { items: exprs, .. } => {
            let words = constant_words(alloc, env, exprs)?;
            list_one(list, Lasting::Words(words))
        }
        Expr::Parens {
            inside: operand,
            ..
        }
        | Expr::Unary { operand, .. } => { list_expr(list, alloc, env, operand) }
        Expr::Binary { left, right, .. } => {
            list_expr(list, alloc, env, left)?;
            let next = past(env, left)?;
            list_expr(list, alloc, &next, right)
        }
        Expr::Choice {
            condition,
            yes,
            no,
            ..
        } => {
            list_expr(list, alloc, env, condition)?;
            let next = past(env, condition)?;
            list_expr(list, alloc, &next, yes)?;
            let last = past(&next, yes)?;
            list_expr(list, alloc, &last, no)
        }
        Expr::Apply {
            callee,
            arguments,
            ..
        } => {
            list_expr(list, alloc, env, callee)?;
            let next = past(env, callee)?;
            list_each(list, alloc, &next, arguments)
        }
        Expr::Valof { command, .. } => {
            let scope = in_scope(alloc, command, env.again()?)?;
            list_command(list, alloc, &scope, command)
        }
        Expr::Name { .. } | Expr::Number { .. } | Expr::Truth { .. } | Expr::Query { .. } => Ok(()),
    }
}

/// Lists what expressions have, one after another.
#[cycle(listing)]
fn list_each<'a>(
    list: &mut Vec<Lasting<'a>>,
    alloc: Global,
    env: &Env<'a>,
    exprs: &'a [Expr],
) -> Result<(), AllocError>
    ensures { OnOk result (listed list.new ≡ listed list.old ++ of_each (env_in env.now) (expressions_in exprs.now)) }
{
    let mut here = env.again()?;
    for expr in exprs {
        list_expr(list, alloc, &here, expr)?;
        here = past(&here, expr)?;
    }
    Ok(())
}

/// Lists what a command has.
#[cycle(listing)]
fn list_command<'a>(
    list: &mut Vec<Lasting<'a>>,
    alloc: Global,
    env: &Env<'a>,
    command: &'a Command,
) -> Result<(), AllocError>
    ensures { OnOk result (listed list.new ≡ listed list.old ++ of_command (env_in env.now) (command_in command.now)) }
{
    match command {
        Command::Assign {
            destinations: dests,
            values,
            ..
        } => {
            list_each(list, alloc, env, dests)?;
            let next = past_each(env, dests)?;
            list_each(list, alloc, &next, values)
        }
        Command::Call {
            callee,
            arguments,
            ..
        } => {
            list_expr(list, alloc, env, callee)?;
            let next = past(env, callee)?;
            list_each(list, alloc, &next, arguments)
        }
        Command::Label { body, .. }
        | Command::Case { body, .. }
        | Command::Default { body, .. }
        | Command::Repeat { body, .. } => list_command(list, alloc, env, body),
        Command::If {
            condition: value,
            body,
            ..
        }
        | Command::While {
            condition: value,
            body,
            ..
        }
        | Command::SwitchOn { value, body, .. } => {
            list_expr(list, alloc, env, value)?;
            let next = past(env, value)?;
            list_command(list, alloc, &next, body)
        }
        Command::Test {
            condition: value,
            yes,
            no,
            ..
        } => {
            list_expr(list, alloc, env, value)?;
            let next = past(env, value)?;
            list_command(list, alloc, &next, yes)?;
            let last = past_command(&next, yes)?;
            list_command(list, alloc, &last, no)
        }
        Command::For {
            name,
            from,
            to,
            body,
            ..
        } => {
            list_expr(list, alloc, env, from)?;
            let next = past(env, from)?;
            list_expr(list, alloc, &next, to)?;
            let scope = in_for(alloc, name, body, past(&next, to)?)?;
            list_command(list, alloc, &scope, body)
        }
        Command::ResultIs { value, .. } => list_expr(list, alloc, env, value),
        Command::Block {
            decls,
            commands,
            ..
        } => {
            if decls.is_empty() {
                list_commands(list, alloc, env, commands)
            } else {
                list_decls(list, alloc, env, decls)?;
                let scope = in_block(alloc, decls, commands, env)?;
                list_commands(list, alloc, &scope, commands)
            }
        }
        Command::RepeatWhile {
            body,
            condition: value,
            ..
        } => {
            list_command(list, alloc, env, body)?;
            let next = past_command(env, body)?;
            list_expr(list, alloc, &next, value)
        }
        Command::Empty | Command::Goto { .. } | Command::Simple { .. } => Ok(()),
    }
}

/// Lists what commands have, one after another.
#[cycle(listing)]
fn list_commands<'a>(
    list: &mut Vec<Lasting<'a>>,
    alloc: Global,
    env: &Env<'a>,
    commands: &'a [Command],
) -> Result<(), AllocError>
    ensures { OnOk result (listed list.new ≡ listed list.old ++ of_commands (env_in env.now) (commands_in commands.now)) }
{
    let mut here = env.again()?;
    for command in commands {
        list_command(list, alloc, &here, command)?;
        here = past_command(&here, command)?;
    }
    Ok(())
}

/// Lists what a declaration has.
#[cycle(listing)]
fn list_decl<'a>(
    list: &mut Vec<Lasting<'a>>,
    alloc: Global,
    env: &Env<'a>,
    decl: &'a Decl,
) -> Result<(), AllocError>
    ensures { OnOk result (listed list.new ≡ listed list.old ++ of_declaration (env_in env.now) (declaration decl.now)) }
{
    match decl {
        Decl::Constants { sort, items, .. } => list_items(list, alloc, env, *sort, items),
        Decl::Let { defs, .. } => {
            let scope = within_let(alloc, defs, env.again()?)?;
            list_defs(list, alloc, &scope, defs)
        }
    }
}

/// Lists what declarations have, one after another.
#[cycle(listing)]
pub fn list_decls<'a>(
    list: &mut Vec<Lasting<'a>>,
    alloc: Global,
    env: &Env<'a>,
    decls: &'a [Decl],
) -> Result<(), AllocError>
    ensures { OnOk result (listed list.new ≡ listed list.old ++ of_declarations (env_in env.now) (declarations_in decls.now)) }
{
    let mut here = env.again()?;
    for decl in decls {
        list_decl(list, alloc, &here, decl)?;
        here = declared(alloc, decl, here)?;
    }
    Ok(())
}

/// Lists what a definition has: a procedure itself and what its body has, or what variables begin with.
#[cycle(listing)]
fn list_def<'a>(
    list: &mut Vec<Lasting<'a>>,
    alloc: Global,
    env: &Env<'a>,
    def: &'a Def,
) -> Result<(), AllocError>
    ensures { OnOk result (listed list.new ≡ listed list.old ++ of_definition (env_in env.now) (definition def.now)) }
{
    match def {
        Def::Routine {
            letters: name,
            formals,
            body,
            ..
        } => {
            list_one(
                list,
                procedure_here(name, formals, Body::Command(body), env)?,
            )?;
            let scope = in_scope(alloc, body, inside(alloc, formals, env)?)?;
            list_command(list, alloc, &scope, body)
        }
        Def::Function {
            letters: name,
            formals,
            body,
            ..
        } => {
            list_one(list, procedure_here(name, formals, Body::Value(body), env)?)?;
            let scope = inside(alloc, formals, env)?;
            list_expr(list, alloc, &scope, body)
        }
        Def::Variables { inits: starts, .. } => list_starts(list, alloc, env, starts),
    }
}

/// Lists what the definitions of a LET have, one after another.
#[cycle(listing)]
fn list_defs<'a>(
    list: &mut Vec<Lasting<'a>>,
    alloc: Global,
    env: &Env<'a>,
    defs: &'a [Def],
) -> Result<(), AllocError>
    ensures { OnOk result (listed list.new ≡ listed list.old ++ of_definitions (env_in env.now) (definitions_in defs.now)) }
{
    let mut here = env.again()?;
    for def in defs {
        list_def(list, alloc, &here, def)?;
        here = past_def(&here, def)?;
    }
    Ok(())
}

/// Lists what the expressions that variables begin with have.
#[cycle(listing)]
fn list_starts<'a>(
    list: &mut Vec<Lasting<'a>>,
    alloc: Global,
    env: &Env<'a>,
    starts: &'a [Init],
) -> Result<(), AllocError>
    ensures { OnOk result (listed list.new ≡ listed list.old ++ of_starts (env_in env.now) (starts_in starts.now)) }
{
    let mut here = env.again()?;
    for start in starts {
        if let Init::Value(value) = start {
            list_expr(list, alloc, &here, value)?;
            here = past(&here, value)?;
        }
    }
    Ok(())
}
