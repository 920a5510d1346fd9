//! Where a GOTO lands.
ghost use Rattle.std.specs.Prelude.{IfOk, ◌+◌, Ok};
ghost use Rattle.bk_tree.specs.Tree.{command_in, commands_in, block, no_declarations};
ghost use Rattle.bk_meaning.specs.World.{goto, turn};
ghost use Rattle.bk_meaning.specs.Scopes.{alone, in_order};
ghost use Rattle.bk_meaning.specs.Seeking.{seeking};
ghost use Rattle.bk_meaning.specs.Lasting.{Program};
ghost use Rattle.bk_meaning.specs.Full.{full};
ghost use Rattle.bk_check.specs.Views.{sought_in};
ghost use Rattle.bk_lasting.specs.Views.{env_in};
ghost use Rattle.bk_check.specs.Worlds.{Bytes, world};
ghost use Rattle.bk_check.specs.Resume.{tag, done_tag, lands as landing_in, Comes, resumed};
ghost use Rattle.bk_check.specs.Progress.{Within, LeftWithin, order_cost};

use crate::frame::{Continuation, Exit, Next, OnDone, Sought};
use crate::machine::Evaluator;
use crate::scopes::Scope;
use crate::seeking::has_place;
use bk_lasting::Env;
use bk_tree::{Command, Position};
use std::alloc::AllocError;

/// A GOTO that comes to a scope: it lands at a label of the scope, or goes on outwards.
#[inline(never)]
pub fn lands<'a>(
    m: &mut Evaluator<'a>,
    scope: Scope<'a>,
    label: &'a [u8],
) -> Result<Next<'a>, AllocError>
    ensures comes { IfOk result (λ next. (p : Program) (b : Bytes) →
        Comes p m.new.frames.items next (world m.new b)
        (resumed p m.old.frames.items (tag done_tag (landing_in p (commands_in scope.entry.commands) scope.entry.env (goto label.now) (world m.old b))))) }
    ensures falls { LeftWithin (Exit.Goto label.entry) (order_cost scope.entry.commands + 2) m.old m.new result }
{
    match scope.place(label)? {
        None => Ok(Next::Leaves(Exit::Goto(label))),
        Some(place) => {
            let inside = scope.inside(m.alloc)?.following(place.objects)?;
            m.frames.push(Continuation::Done(OnDone::Landed(scope)))?;
            let sought = Sought::Label(label);
            Ok(Next::InOrder(place.commands, Some(sought), inside))
        }
    }
}

/// The same at a scope with one command, a block with no declarations.
#[inline(never)]
pub fn lands_in_block<'a>(
    m: &mut Evaluator<'a>,
    at: Position,
    scope: Scope<'a>,
    label: &'a [u8],
) -> Result<Next<'a>, AllocError>
    ensures comes { IfOk result (λ next. (p : Program) (b : Bytes) →
        Comes p m.new.frames.items next (world m.new b)
        (resumed p m.old.frames.items (tag done_tag (landing_in p (alone (block at no_declarations (commands_in scope.entry.commands)))
        scope.entry.env (goto label.now) (world m.old b))))) }
    ensures falls { LeftWithin (Exit.Goto label.entry) 2 m.old m.new result }
{
    match scope.place(label)? {
        None => Ok(Next::Leaves(Exit::Goto(label))),
        Some(place) => {
            let inside = scope.inside(m.alloc)?.following(place.objects)?;
            m.frames
                .push(Continuation::Done(OnDone::LandedInBlock(at, scope)))?;
            let sought = Sought::Label(label);
            Ok(enter_block(m, at, place.commands, sought, inside))
        }
    }
}

/// The commands of a block in order, from a place that is sought. The block takes a turn.
fn enter_block<'a>(
    m: &mut Evaluator<'a>,
    at: Position,
    commands: &'a [Command],
    sought: Sought<'a>,
    env: Env<'a>,
) -> Next<'a>
    ensures comes { (p : Program) (b : Bytes) → Comes p m.new.frames.items result (world m.new b)
        (resumed p m.old.frames.items (tag done_tag (turn at (world m.old b)
        (λ w. in_order (full p) (commands_in commands.now) (seeking (sought_in sought.entry)) (env_in env.entry) w)))) }
    ensures falls { Within 0 m.old m.new (Ok result) }
{
    if m.turns == 0 {
        return Next::Going(at);
    }
    m.turns -= 1;
    Next::InOrder(commands, Some(sought), env)
}

/// The same at a scope with one command.
#[inline(never)]
pub fn lands_alone<'a>(
    m: &mut Evaluator<'a>,
    command: &'a Command,
    env: Env<'a>,
    label: &'a [u8],
) -> Result<Next<'a>, AllocError>
    ensures comes { IfOk result (λ next. (p : Program) (b : Bytes) →
        Comes p m.new.frames.items next (world m.new b)
        (resumed p m.old.frames.items (tag done_tag (landing_in p (alone (command_in command.now)) (env_in env.entry) (goto label.now) (world m.old b))))) }
    ensures falls { LeftWithin (Exit.Goto label.entry) 2 m.old m.new result }
{
    if let Command::Block {
        at,
        decls,
        commands,
    } = command
        && decls.is_empty()
    {
        return lands_in_block(m, *at, Scope::new(commands, env), label);
    }
    lands_at(m, command, env, label)
}

/// The same where the command is no such block.
fn lands_at<'a>(
    m: &mut Evaluator<'a>,
    command: &'a Command,
    env: Env<'a>,
    label: &'a [u8],
) -> Result<Next<'a>, AllocError>
    ensures comes { IfOk result (λ next. (p : Program) (b : Bytes) →
        Comes p m.new.frames.items next (world m.new b)
        (resumed p m.old.frames.items (tag done_tag (landing_in p (alone (command_in command.now)) (env_in env.entry) (goto label.now) (world m.old b))))) }
    ensures falls { LeftWithin (Exit.Goto label.entry) 2 m.old m.new result }
{
    if has_place(Sought::Label(label), &env, command) {
        m.alone(command, Some(Sought::Label(label)), env)
    } else {
        Ok(Next::Leaves(Exit::Goto(label)))
    }
}
