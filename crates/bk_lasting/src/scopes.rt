//! What names mean in the parts of a program, as far as it is known before the run.
ghost use Rattle.std.specs.Prelude.{◌≡◌, IfOk, Option, map};
ghost use Rattle.std.specs.Option.{option_map};
ghost use Rattle.bk_tree.specs.Tree.{expression, expressions_in, command_in, commands_in, declaration, declarations_in, items_in, definition, definitions_in, no_definitions, define, mention};
ghost use Rattle.bk_scope.specs.Entering.{labels_of};
ghost use Rattle.bk_meaning.specs.Environment.{label, foreign, sense_of, bind_each, past, past_each, past_command, past_definition, word_named, constant_in, labelled, global_named, bind_procedure_as, bind_procedure, bind_procedures, within_let, sense_of_constant, sense_of_global, manifests, statics, globals, constants_declared, letters};
ghost use Rattle.bk_meaning.specs.Lasting.{variables_hidden, declared, all_declared, in_scope, in_for, inside};
ghost use Rattle.bk_lasting.specs.Views.{env_in, sense_in};

use crate::counting::{count, count_command, count_def, count_defs, count_each};
use crate::env::{Env, GLOBALS_OBJECT, Sense};
use crate::operators::{infixed, prefixed};
use bk_base::word;
use bk_tree::{Command, ConstItem, Decl, Def, Expr, Name, Sort};
use std::alloc::{AllocError, Global};

/// The word of a name that means this, if it is a constant's.
fn word_named(sense: Option<Sense>) -> Option<u32>
    ensures { result ≡ word_named (option_map sense_in sense) }
{
    match sense {
        Some(Sense::Constant(word)) => Some(word),
        Some(Sense::Cell(_, _)) | Some(Sense::Label) | Some(Sense::Foreign) | None => None,
    }
}

/// The word of an expression as a constant, if it has one.
pub fn constant(env: &Env, expr: &Expr) -> Option<u32>
    ensures { result ≡ constant_in (env_in env.now) (expression expr.now) }
{
    match expr {
        Expr::Name { letters, .. } => word_named(env.sense(letters)),
        Expr::Number { word, .. } => Some(*word),
        Expr::Truth { truth, .. } => Some(word::truth_of(*truth)),
        Expr::Parens { inside, .. } => constant(env, inside),
        Expr::Unary {
            prefix,
            operand,
            ..
        } => prefixed(*prefix, constant(env, operand)),
        Expr::Binary {
            operator,
            left,
            right,
            ..
        } => { infixed(*operator, constant(env, left), constant(env, right)) }
        Expr::Text { .. }
        | Expr::Query { .. }
        | Expr::Choice { .. }
        | Expr::Apply { .. }
        | Expr::Valof { .. }
        | Expr::Table { .. } => None,
    }
}

/// The names with the labels that belong to the same commands as this one.
#[cycle(labels)]
#[tactic(auto, using(crate::proofs::Bound::bind_stretches))]
fn bind_labels<'a>(alloc: Global, command: &'a Command, env: Env<'a>) -> Result<Env<'a>, AllocError>
    ensures { IfOk result (λ after. env_in after ≡ bind_each (labels_of (command_in command.now)) label (env_in env.entry)) }
{
    match command {
        Command::Label { letters, body, .. } => {
            let env = env.bind(alloc, letters, Sense::Label)?;
            bind_labels(alloc, body, env)
        }
        Command::Case { body, .. }
        | Command::Default { body, .. }
        | Command::If { body, .. }
        | Command::While { body, .. }
        | Command::SwitchOn { body, .. }
        | Command::Repeat { body, .. }
        | Command::RepeatWhile { body, .. } => bind_labels(alloc, body, env),
        Command::Test { yes, no, .. } => {
            let env = bind_labels(alloc, yes, env)?;
            bind_labels(alloc, no, env)
        }
        Command::Block {
            decls,
            commands,
            ..
        } => {
            if decls.is_empty() {
                labelled(alloc, commands, env)
            } else {
                Ok(env)
            }
        }
        Command::Empty
        | Command::Assign { .. }
        | Command::Call { .. }
        | Command::Goto { .. }
        | Command::For { .. }
        | Command::ResultIs { .. }
        | Command::Simple { .. } => Ok(env),
    }
}

/// What names mean in commands that are a scope, with the labels of all.
#[cycle(labels)]
#[tactic(auto, using(crate::proofs::Bound::labels_next))]
pub fn labelled<'a>(
    alloc: Global,
    commands: &'a [Command],
    env: Env<'a>,
) -> Result<Env<'a>, AllocError>
    ensures { IfOk result (λ after. env_in after ≡ labelled (commands_in commands.now) (env_in env.entry)) }
{
    let mut env = env;
    for command in commands {
        env = bind_labels(alloc, command, env)?;
    }
    Ok(env)
}

/// What names mean in a command that is a scope of its own.
#[tactic(auto, using(crate::proofs::Bound::labels_in_scope))]
pub fn in_scope<'a>(
    alloc: Global,
    command: &'a Command,
    env: Env<'a>,
) -> Result<Env<'a>, AllocError>
    ensures { IfOk result (λ after. env_in after ≡ in_scope (command_in command.now) (env_in env.entry)) }
{
    bind_labels(alloc, command, env)
}

/// The number of the global that a name means, if it means one.
pub fn global_named(sense: Option<Sense>) -> Option<u32>
    ensures { result ≡ global_named (option_map sense_in sense) }
{
    match sense {
        Some(Sense::Cell(number, object)) => {
            if object == GLOBALS_OBJECT {
                Some(number)
            } else {
                None
            }
        }
        Some(Sense::Constant(_)) | Some(Sense::Label) | Some(Sense::Foreign) | None => None,
    }
}

/// The names with that of a procedure, which goes on to mean a global if it means one.
fn bind_procedure_as<'a>(alloc: Global, name: &'a [u8], env: Env<'a>) -> Result<Env<'a>, AllocError>
    ensures { IfOk result (λ after. env_in after ≡ bind_procedure_as (global_named (sense_of name.now (env_in env.entry))) name.now (env_in env.entry)) }
{
    match global_named(env.sense(name)) {
        Some(_) => Ok(env),
        None => {
            let here = env.next;
            env.bind(alloc, name, Sense::Cell(0, here))
        }
    }
}

/// The names with that of a definition, if it is a procedure's.
fn bind_procedure<'a>(alloc: Global, def: &'a Def, env: Env<'a>) -> Result<Env<'a>, AllocError>
    ensures { IfOk result (λ after. env_in after ≡ bind_procedure (definition def.now) (env_in env.entry)) }
{
    match def {
        Def::Routine { letters: name, .. } | Def::Function { letters: name, .. } => {
            bind_procedure_as(alloc, name, env)
        }
        Def::Variables { .. } => Ok(env),
    }
}

/// The names with those of all procedures of a LET, after all that its definitions have.
#[tactic(auto, using(crate::proofs::Bound::procedures_next))]
fn bind_procedures<'a>(alloc: Global, defs: &'a [Def], env: Env<'a>) -> Result<Env<'a>, AllocError>
    ensures { IfOk result (λ after. env_in after ≡ bind_procedures (definitions_in defs.now) (env_in env.entry)) }
{
    let mut env = env;
    for def in defs {
        let more = count_def(def)?;
        env = bind_procedure(alloc, def, env)?.following(more)?;
    }
    Ok(env)
}

/// What the definitions of a LET see: its procedures, and the outer names.
pub fn within_let<'a>(alloc: Global, defs: &'a [Def], env: Env<'a>) -> Result<Env<'a>, AllocError>
    ensures { IfOk result (λ inside. env_in inside ≡ within_let (definitions_in defs.now) (env_in env.entry)) }
{
    let next = env.next;
    let bound = bind_procedures(alloc, defs, env)?;
    Ok(bound.with_next(next))
}

/// What a name of MANIFEST means, by its constant.
fn sense_of_constant(word: Option<u32>) -> Sense
    ensures { sense_in result ≡ sense_of_constant word }
{
    match word {
        None => Sense::Foreign,
        Some(word) => Sense::Constant(word),
    }
}

/// What a name of GLOBAL means, by its constant.
fn sense_of_global(word: Option<u32>) -> Sense
    ensures { sense_in result ≡ sense_of_global word }
{
    match word {
        None => Sense::Foreign,
        Some(number) => Sense::Cell(number, GLOBALS_OBJECT),
    }
}

/// The names with those of a MANIFEST.
fn manifests<'a>(alloc: Global, items: &'a [ConstItem], env: Env<'a>) -> Result<Env<'a>, AllocError>
    ensures { IfOk result (λ after. env_in after ≡ manifests (items_in items.now) (env_in env.entry)) }
{
    let mut env = env;
    for ConstItem::Item {
        letters: name,
        expr,
        ..
    } in items {
        let sense = sense_of_constant(constant(&env, expr));
        env = env.bind(alloc, name, sense)?;
    }
    Ok(env)
}

/// The names with those of a STATIC.
fn statics<'a>(alloc: Global, items: &'a [ConstItem], env: Env<'a>) -> Result<Env<'a>, AllocError>
    ensures { IfOk result (λ after. env_in after ≡ statics (items_in items.now) (env_in env.entry)) }
{
    let mut env = env;
    for ConstItem::Item { letters: name, .. } in items {
        let here = env.next;
        env = env.bind(alloc, name, Sense::Cell(0, here))?.following(1)?;
    }
    Ok(env)
}

/// The names with those of a GLOBAL.
fn globals<'a>(alloc: Global, items: &'a [ConstItem], env: Env<'a>) -> Result<Env<'a>, AllocError>
    ensures { IfOk result (λ after. env_in after ≡ globals (env_in env.entry) (items_in items.now) (env_in env.entry)) }
{
    let outer = env.again()?;
    let mut env = env;
    for ConstItem::Item {
        letters: name,
        expr,
        ..
    } in items {
        let sense = sense_of_global(constant(&outer, expr));
        env = env.bind(alloc, name, sense)?;
    }
    Ok(env)
}

/// What names mean after a declaration with constants.
pub fn constants<'a>(
    alloc: Global,
    sort: Sort,
    items: &'a [ConstItem],
    env: Env<'a>,
) -> Result<Env<'a>, AllocError>
    ensures { IfOk result (λ after. env_in after ≡ constants_declared sort (items_in items.now) (env_in env.entry)) }
{
    match sort {
        Sort::Manifest => manifests(alloc, items, env),
        Sort::Static => statics(alloc, items, env),
        Sort::Global => globals(alloc, items, env),
    }
}

/// The names with these, which have no meaning before the run.
pub fn hide<'a>(alloc: Global, names: &'a [Name], env: Env<'a>) -> Result<Env<'a>, AllocError>
    ensures { IfOk result (λ after. env_in after ≡ bind_each (letters (map mention names.now)) foreign (env_in env.entry)) }
{
    let mut env = env;
    for name in names {
        env = env.bind(alloc, &name.letters, Sense::Foreign)?;
    }
    Ok(env)
}

/// The names with the variables of a definition, if it has some.
fn hide_variables<'a>(alloc: Global, def: &'a Def, env: Env<'a>) -> Result<Env<'a>, AllocError>
    ensures { IfOk result (λ after. env_in after ≡ variables_hidden (define (definition def.now) no_definitions) (env_in env.entry)) }
{
    match def {
        Def::Variables { names, .. } => hide(alloc, names, env),
        Def::Routine { .. } | Def::Function { .. } => Ok(env),
    }
}

/// The names with the variables of all definitions of a LET.
#[tactic(auto, using(crate::proofs::Bound::hidden_next))]
fn hide_all_variables<'a>(
    alloc: Global,
    defs: &'a [Def],
    env: Env<'a>,
) -> Result<Env<'a>, AllocError>
    ensures { IfOk result (λ after. env_in after ≡ variables_hidden (definitions_in defs.now) (env_in env.entry)) }
{
    let mut env = env;
    for def in defs {
        env = hide_variables(alloc, def, env)?;
    }
    Ok(env)
}

/// What names mean after a declaration.
pub fn declared<'a>(alloc: Global, decl: &'a Decl, env: Env<'a>) -> Result<Env<'a>, AllocError>
    ensures { IfOk result (λ after. env_in after ≡ declared (declaration decl.now) (env_in env.entry)) }
{
    match decl {
        Decl::Constants { sort, items, .. } => constants(alloc, *sort, items, env),
        Decl::Let { defs, .. } => {
            let more = count_defs(defs)?;
            let inside = within_let(alloc, defs, env)?.following(more)?;
            hide_all_variables(alloc, defs, inside)
        }
    }
}

/// What names mean after some declarations.
#[tactic(auto, using(crate::proofs::Bound::declared_next))]
pub fn all_declared<'a>(
    alloc: Global,
    decls: &'a [Decl],
    env: Env<'a>,
) -> Result<Env<'a>, AllocError>
    ensures { IfOk result (λ after. env_in after ≡ all_declared (declarations_in decls.now) (env_in env.entry)) }
{
    let mut env = env;
    for decl in decls {
        env = declared(alloc, decl, env)?;
    }
    Ok(env)
}

/// What names mean after an expression.
pub fn past<'a>(env: &Env<'a>, expr: &Expr) -> Result<Env<'a>, AllocError>
    ensures { IfOk result (λ after. env_in after ≡ past (expression expr.now) (env_in env.now)) }
{
    let more = count(expr)?;
    env.again()?.following(more)
}

/// What names mean after some expressions.
pub fn past_each<'a>(env: &Env<'a>, exprs: &[Expr]) -> Result<Env<'a>, AllocError>
    ensures { IfOk result (λ after. env_in after ≡ past_each (expressions_in exprs.now) (env_in env.now)) }
{
    let more = count_each(exprs)?;
    env.again()?.following(more)
}

/// What names mean after a command.
pub fn past_command<'a>(env: &Env<'a>, command: &Command) -> Result<Env<'a>, AllocError>
    ensures { IfOk result (λ after. env_in after ≡ past_command (command_in command.now) (env_in env.now)) }
{
    let more = count_command(command)?;
    env.again()?.following(more)
}

/// What names mean after a definition.
pub fn past_def<'a>(env: &Env<'a>, def: &Def) -> Result<Env<'a>, AllocError>
    ensures { IfOk result (λ after. env_in after ≡ past_definition (definition def.now) (env_in env.now)) }
{
    let more = count_def(def)?;
    env.again()?.following(more)
}

/// What names mean in the body of a FOR with this variable.
pub fn in_for<'a>(
    alloc: Global,
    name: &'a Name,
    body: &'a Command,
    env: Env<'a>,
) -> Result<Env<'a>, AllocError>
    ensures { IfOk result (λ inside. env_in inside ≡ in_for (mention name.now) (command_in body.now) (env_in env.entry)) }
{
    let env = env.bind(alloc, &name.letters, Sense::Foreign)?;
    in_scope(alloc, body, env)
}

/// What names mean in the body of a procedure with these formals, which is defined where they mean this.
pub fn inside<'a>(alloc: Global, formals: &'a [Name], env: &Env<'a>) -> Result<Env<'a>, AllocError>
    ensures { IfOk result (λ within. env_in within ≡ inside (map mention formals.now) (env_in env.now)) }
{
    let env = env.again()?.following(1)?;
    hide(alloc, formals, env)
}

/// What names mean in the commands of a block after these declarations.
pub fn in_block<'a>(
    alloc: Global,
    decls: &'a [Decl],
    commands: &'a [Command],
    env: &Env<'a>,
) -> Result<Env<'a>, AllocError>
    ensures { IfOk result (λ inside. env_in inside ≡ labelled (commands_in commands.now) (all_declared (declarations_in decls.now) (env_in env.now))) }
{
    let env = all_declared(alloc, decls, env.again()?)?;
    labelled(alloc, commands, env)
}
