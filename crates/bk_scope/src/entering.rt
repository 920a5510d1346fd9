//! Names that come into scope together.
ghost use Rattle.std.specs.Prelude.{◌≡◌, [], ◌∷◌, OnOk, map};
ghost use Rattle.bk_tree.specs.Tree.{mention, command_in, commands_in, definitions_in};
ghost use Rattle.bk_scope.specs.Entering.{with_labels, labels_of, labels_of_each, with_formals, with_procedure, with_procedures};
ghost use Rattle.bk_scope.specs.Names.{all_listed};

use crate::bound::Bound;
use crate::findings::Findings;
use crate::place::kept_depth;
use crate::walk::Walk;
use bk_tree::{Command, Def, Name};
use std::alloc::AllocError;

/// A label of a procedure comes into scope.
fn enter_label<'a>(walk: &mut Walk<'a>, procedure: u32, letters: &'a [u8]) -> Result<(), AllocError>
    ensures { OnOk result (walk.new ≡ with_labels procedure (letters.now ∷ []) walk.old) }
{
    let number = walk.findings.takes();
    walk.table.bind(letters, Bound::Label(procedure, number))
}

/// The labels that belong to the same commands as this one come into scope.
#[cycle(labels)]
#[tactic(auto, using(crate::proofs::Entered::labels_in_two_stretches))]
pub fn enter_labels<'a>(
    walk: &mut Walk<'a>,
    procedure: u32,
    command: &'a Command,
) -> Result<(), AllocError>
    ensures { OnOk result (walk.new ≡ with_labels procedure (labels_of (command_in command.now)) walk.old) }
{
    match command {
        Command::Label { letters, body, .. } => {
            enter_label(walk, procedure, letters)?;
            enter_labels(walk, procedure, body)
        }
        Command::Case { body, .. }
        | Command::Default { body, .. }
        | Command::If { body, .. }
        | Command::While { body, .. }
        | Command::SwitchOn { body, .. }
        | Command::Repeat { body, .. }
        | Command::RepeatWhile { body, .. } => enter_labels(walk, procedure, body),
        Command::Test { yes, no, .. } => {
            enter_labels(walk, procedure, yes)?;
            enter_labels(walk, procedure, no)
        }
        Command::Block {
            decls,
            commands,
            ..
        } => {
            if decls.is_empty() {
                enter_labels_of_each(walk, procedure, commands)
            } else {
                Ok(())
            }
        }
        Command::Empty
        | Command::Assign { .. }
        | Command::Call { .. }
        | Command::Goto { .. }
        | Command::For { .. }
        | Command::ResultIs { .. }
        | Command::Simple { .. } => Ok(()),
    }
}

/// The labels of commands one after another come into scope.
#[cycle(labels)]
#[tactic(auto, using(crate::proofs::Entered::labels_next))]
pub fn enter_labels_of_each<'a>(
    walk: &mut Walk<'a>,
    procedure: u32,
    commands: &'a [Command],
) -> Result<(), AllocError>
    ensures { OnOk result (walk.new ≡ with_labels procedure (labels_of_each (commands_in commands.now)) walk.old) }
{
    for command in commands {
        enter_labels(walk, procedure, command)?;
    }
    Ok(())
}

/// The formals of a procedure come into scope.
#[tactic(auto, using(crate::proofs::Entered::formals_next))]
pub fn enter_formals<'a>(
    walk: &mut Walk<'a>,
    procedure: u32,
    formals: &'a [Name],
) -> Result<(), AllocError>
    ensures { OnOk result (walk.new ≡ record { scope = with_formals procedure 2 (map mention formals.now) walk.old.scope; found = walk.old.found }) }
{
    let mut depth = 2;
    for formal in formals {
        walk.table
            .bind(&formal.letters, Bound::Variable(procedure, depth))?;
        depth = kept_depth(depth as usize + 1);
    }
    Ok(())
}

/// A procedure of a LET comes into scope, and takes a number. Where its name means a global, it goes on to mean it.
fn enter_procedure<'a>(walk: &mut Walk<'a>, letters: &'a [u8]) -> Result<(), AllocError>
    ensures { OnOk result (walk.new ≡ with_procedure letters.now walk.old) }
{
    let number = walk.findings.takes();
    if let Some(Bound::Global(_)) = walk.table.find(letters) {
        return Ok(());
    }
    walk.table.bind(letters, Bound::Static(number))
}

/// The procedures of a LET come into scope.
#[tactic(auto, using(crate::proofs::Entered::procedures_next))]
pub fn enter_procedures<'a>(walk: &mut Walk<'a>, defs: &'a [Def]) -> Result<(), AllocError>
    ensures { OnOk result (walk.new ≡ with_procedures (definitions_in defs.now) walk.old) }
{
    for def in defs {
        match def {
            Def::Routine { letters, .. } | Def::Function { letters, .. } => {
                enter_procedure(walk, letters)?;
            }
            Def::Variables { .. } => {}
        }
    }
    Ok(())
}

/// The names of the list of this number, in which no name occurs twice.
#[tactic(auto, using(crate::proofs::Entered::listed_next))]
pub fn list_names<'a>(
    findings: &mut Findings<'a>,
    list: u32,
    names: &'a [Name],
) -> Result<(), AllocError>
    ensures { OnOk result (findings.new ≡ all_listed list (map mention names.now) findings.old) }
{
    for name in names {
        findings.lists(list, name.at, &name.letters)?;
    }
    Ok(())
}
