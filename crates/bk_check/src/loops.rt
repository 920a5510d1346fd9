//! Loops: WHILE, UNTIL, REPEAT, REPEATWHILE and REPEATUNTIL.
ghost use Rattle.std.specs.Prelude.{IfOk};
ghost use Rattle.bk_tree.specs.Parts.{at_command};
ghost use Rattle.bk_tree.specs.Tree.{command_in, expression};
ghost use Rattle.bk_meaning.specs.World.{turn};
ghost use Rattle.bk_meaning.specs.Lasting.{Program};
ghost use Rattle.bk_meaning.specs.Seeking.{forwards};
ghost use Rattle.bk_meaning.specs.Loops.{rounds_of, again, where_truth};
ghost use Rattle.bk_meaning.specs.Environment.{past, past_command};
ghost use Rattle.bk_meaning.specs.Full.{full};
ghost use Rattle.bk_check.specs.Views.{mode_in};
ghost use Rattle.bk_lasting.specs.Views.{env_in};
ghost use Rattle.bk_check.specs.Worlds.{Bytes, world};
ghost use Rattle.bk_check.specs.Resume.{tag, done_tag, Comes, resumed, next_round as after_round};
ghost use Rattle.bk_check.specs.Progress.{Within};

use crate::frame::{Next, OnDone, OnTruth, Sought, Thing};
use crate::machine::Evaluator;
use bk_lasting::{Env, count, count_command};
use bk_tree::{Command, Expr};
use std::alloc::AllocError;

/// A round of a loop, and those after it.
#[inline(never)]
pub fn round<'a>(
    m: &mut Evaluator<'a>,
    command: &'a Command,
    mode: Option<Sought<'a>>,
    env: Env<'a>,
) -> Result<Next<'a>, AllocError>
    ensures comes { IfOk result (λ next. (p : Program) (b : Bytes) →
        Comes p m.new.frames.items next (world m.new b)
        (resumed p m.old.frames.items (tag done_tag (rounds_of (full p) (command_in command.now) (mode_in mode.entry) (env_in env.entry) (world m.old b))))) }
    ensures falls { Within 4 m.old m.new result }
{
    match command {
        Command::While {
            condition,
            body: inside,
            ..
        } => while_round(m, command, condition, inside, mode, env),
        Command::Repeat { body: inside, .. } => repeat_round(m, command, inside, mode, env),
        Command::RepeatWhile { body: inside, .. } => repeat_round(m, command, inside, mode, env),
        Command::Empty
        | Command::Assign { .. }
        | Command::Call { .. }
        | Command::Goto { .. }
        | Command::Label { .. }
        | Command::Case { .. }
        | Command::Default { .. }
        | Command::If { .. }
        | Command::Test { .. }
        | Command::For { .. }
        | Command::SwitchOn { .. }
        | Command::ResultIs { .. }
        | Command::Simple { .. }
        | Command::Block { .. } => Ok(Next::Gives(Thing::Done)),
    }
}

/// A round of WHILE or UNTIL.
fn while_round<'a>(
    m: &mut Evaluator<'a>,
    command: &'a Command,
    condition: &'a Expr,
    inside: &'a Command,
    mode: Option<Sought<'a>>,
    env: Env<'a>,
) -> Result<Next<'a>, AllocError>
    ensures comes { IfOk result (λ next. (p : Program) (b : Bytes) →
        Comes p m.new.frames.items next (world m.new b)
        (resumed p m.old.frames.items (tag done_tag (again ((full p).act (command_in inside.now) (mode_in mode.entry)
        (past (expression condition.now) (env_in env.entry)) (world m.old b))
        (after_round p (command_in command.now) (env_in env.entry)))))) }
    ensures falls { Within 4 m.old m.new result }
{
    let following = env.again()?.following(count(condition)?)?;
    m.first_act(OnDone::Round(command, env), inside, mode, following)
}

/// A round of another loop.
fn repeat_round<'a>(
    m: &mut Evaluator<'a>,
    command: &'a Command,
    inside: &'a Command,
    mode: Option<Sought<'a>>,
    env: Env<'a>,
) -> Result<Next<'a>, AllocError>
    ensures comes { IfOk result (λ next. (p : Program) (b : Bytes) →
        Comes p m.new.frames.items next (world m.new b)
        (resumed p m.old.frames.items (tag done_tag (again ((full p).act (command_in inside.now) (mode_in mode.entry) (env_in env.entry)
        (world m.old b)) (after_round p (command_in command.now) (env_in env.entry)))))) }
    ensures falls { Within 4 m.old m.new result }
{
    let outside = env.again()?;
    m.first_act(OnDone::Round(command, outside), inside, mode, env)
}

/// A further round of a loop, which takes a turn.
#[inline(never)]
pub fn further_round<'a>(
    m: &mut Evaluator<'a>,
    command: &'a Command,
    env: Env<'a>,
) -> Result<Next<'a>, AllocError>
    ensures comes { IfOk result (λ next. (p : Program) (b : Bytes) →
        Comes p m.new.frames.items next (world m.new b)
        (resumed p m.old.frames.items (tag done_tag (turn (at_command (command_in command.now)) (world m.old b) (λ w. (full p).rounds (command_in command.now) forwards (env_in env.entry) w))))) }
    ensures falls { Within 0 m.old m.new result }
{
    if m.turns == 0 {
        return Ok(Next::Going(command.at()));
    }
    m.turns -= 1;
    round(m, command, None, env)
}

/// The condition of WHILE or UNTIL after a round.
fn next_while<'a>(
    m: &mut Evaluator<'a>,
    command: &'a Command,
    truth: bool,
    condition: &'a Expr,
    env: Env<'a>,
) -> Result<Next<'a>, AllocError>
    ensures comes { IfOk result (λ next. (p : Program) (b : Bytes) →
        Comes p m.new.frames.items next (world m.new b)
        (resumed p m.old.frames.items (tag done_tag (where_truth (full p) truth (expression condition.now) (env_in env.entry)
        (λ w. turn (at_command (command_in command.now)) w (λ w. (full p).rounds (command_in command.now) forwards (env_in env.entry) w)) (world m.old b))))) }
    ensures falls { Within 2 m.old m.new result }
{
    let outside = env.again()?;
    m.first_truth(OnTruth::Further(truth, command, outside), condition, env)
}

/// The condition of REPEATWHILE or REPEATUNTIL after a round.
fn next_repeat_while<'a>(
    m: &mut Evaluator<'a>,
    command: &'a Command,
    truth: bool,
    inside: &'a Command,
    condition: &'a Expr,
    env: Env<'a>,
) -> Result<Next<'a>, AllocError>
    ensures comes { IfOk result (λ next. (p : Program) (b : Bytes) →
        Comes p m.new.frames.items next (world m.new b)
        (resumed p m.old.frames.items (tag done_tag (where_truth (full p) truth (expression condition.now)
        (past_command (command_in inside.now) (env_in env.entry))
        (λ w. turn (at_command (command_in command.now)) w (λ w. (full p).rounds (command_in command.now) forwards (env_in env.entry) w)) (world m.old b))))) }
    ensures falls { Within 2 m.old m.new result }
{
    let following = env.again()?.following(count_command(inside)?)?;
    m.first_truth(OnTruth::Further(truth, command, env), condition, following)
}

/// The rounds of a loop after one.
#[inline(never)]
pub fn next_round<'a>(
    m: &mut Evaluator<'a>,
    command: &'a Command,
    env: Env<'a>,
) -> Result<Next<'a>, AllocError>
    ensures comes { IfOk result (λ next. (p : Program) (b : Bytes) →
        Comes p m.new.frames.items next (world m.new b)
        (resumed p m.old.frames.items (tag done_tag (after_round p (command_in command.now) (env_in env.entry) (world m.old b))))) }
    ensures falls { Within 2 m.old m.new result }
{
    match command {
        Command::While {
            truth,
            condition,
            ..
        } => next_while(m, command, *truth, condition, env),
        Command::Repeat { .. } => further_round(m, command, env),
        Command::RepeatWhile {
            truth,
            body: inside,
            condition,
            ..
        } => next_repeat_while(m, command, *truth, inside, condition, env),
        Command::Empty
        | Command::Assign { .. }
        | Command::Call { .. }
        | Command::Goto { .. }
        | Command::Label { .. }
        | Command::Case { .. }
        | Command::Default { .. }
        | Command::If { .. }
        | Command::Test { .. }
        | Command::For { .. }
        | Command::SwitchOn { .. }
        | Command::ResultIs { .. }
        | Command::Simple { .. }
        | Command::Block { .. } => Ok(Next::Gives(Thing::Done)),
    }
}
