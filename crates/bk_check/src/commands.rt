//! Commands: what a machine does for each, from its beginning or from a place in it that is sought.
ghost use Rattle.std.specs.Prelude.{◌≡◌, ℕ, IfOk, List, ◌+◌, ◌≤◌, length};
ghost use Rattle.bk_tree.specs.Tree as t;
ghost use Rattle.bk_tree.specs.Tree.{command_in, commands_in, expression, expressions_in, declarations_in, step_in, mention};
ghost use Rattle.bk_meaning.specs.World.{World, with, done, leaves, result as the_result};
ghost use Rattle.bk_meaning.specs.Environment.{past_each, past_command};
ghost use Rattle.bk_meaning.specs.Lasting.{Program};
ghost use Rattle.bk_meaning.specs.Seeking.{Mode, forwards, seeking};
ghost use Rattle.bk_meaning.specs.Loops.{step_of as step_of_for};
ghost use Rattle.bk_meaning.specs.Scopes as s;
ghost use Rattle.bk_meaning.specs.Calls.{applied};
ghost use Rattle.bk_meaning.specs.Parts.{acts_at};
ghost use Rattle.bk_meaning.specs.Commands as c;
ghost use Rattle.bk_meaning.specs.Full.{full};
ghost use Rattle.bk_check.specs.Plain.{takes_no_turn};
ghost use Rattle.bk_check.specs.Views.{mode_in, sought_in};
ghost use Rattle.bk_objects.specs.Views.{value_in};
ghost use Rattle.bk_lasting.specs.Views.{env_in};
ghost use Rattle.bk_check.specs.Worlds.{Bytes, world};
ghost use Rattle.bk_check.specs.Resume.{tag, done_tag, done_goes, Comes, resumed, begun_loop};
ghost use Rattle.bk_check.specs.Progress.{Within, order_cost, scope_cost, assign_cost, done_cost};

use crate::frame::{Continuation, Exit, Next, OnDone, OnTruth, OnValue, Sought, Subject, Thing};
use crate::going_on::put_first;
use crate::loops::round;
use crate::machine::Evaluator;
use crate::seeking::{at_case, at_default, at_label, has_place};
use bk_lasting::{Env, constant, count, count_command, count_each, labelled};
use bk_objects::{Reason, Worth};
use bk_tree::{Command, Decl, Expr, Name, Position, Simple};
use std::alloc::AllocError;

/// A command that is done.
#[inline(never)]
pub fn act<'a>(
    m: &mut Evaluator<'a>,
    command: &'a Command,
    mode: Option<Sought<'a>>,
    env: Env<'a>,
) -> Result<Next<'a>, AllocError>
    ensures comes { IfOk result (λ next. (p : Program) (b : Bytes) →
        Comes p m.new.frames.items next (world m.new b)
        (resumed p m.old.frames.items (tag done_tag ((full p).act (command_in command.now) (mode_in mode.entry) (env_in env.entry) (world m.old b))))) }
    ensures falls { Within 0 m.old m.new result }
{
    if is_empty(command) {
        return Ok(Next::Gives(Thing::Done));
    }
    if m.turns == 0 {
        return Ok(Next::Going(command.at()));
    }
    m.turns -= 1;
    act_inside(m, command, mode, env)
}

/// Whether a command is the empty one, which takes no turn.
fn is_empty(command: &Command) -> bool
    ensures { result ≡ takes_no_turn (command_in command.now) }
{
    matches!(command, Command::Empty)
}

/// A command, its turn taken.
fn act_inside<'a>(
    m: &mut Evaluator<'a>,
    command: &'a Command,
    mode: Option<Sought<'a>>,
    env: Env<'a>,
) -> Result<Next<'a>, AllocError>
    ensures comes { IfOk result (λ next. (p : Program) (b : Bytes) →
        Comes p m.new.frames.items next (world m.new b)
        (resumed p m.old.frames.items (tag done_tag (c.act_of p (full p) (command_in command.now) (mode_in mode.entry) (env_in env.entry) (world m.old b))))) }
    ensures turns { m.new.turns ≤ m.old.turns }
{
    match command {
        Command::Empty => Ok(Next::Gives(Thing::Done)),
        Command::Assign {
            destinations: dests,
            values,
            ..
        } => assign(m, dests, values, env),
        Command::Call {
            at,
            callee,
            arguments: items,
        } => call_command(m, *at, callee, items, env),
        Command::Goto { name, .. } => Ok(Next::Leaves(Exit::Goto(&name.letters))),
        Command::Label {
            letters: name,
            body: inside,
            ..
        } => Ok(Next::Act(inside, at_label(mode, name), env)),
        Command::Case {
            value: e,
            body: inside,
            ..
        } => {
            let word = constant(&env, e);
            Ok(Next::Act(inside, at_case(mode, word), env))
        }
        Command::Default { body: inside, .. } => Ok(Next::Act(inside, at_default(mode), env)),
        Command::If {
            truth,
            condition,
            body: inside,
            ..
        } => when(m, *truth, condition, inside, mode, env),
        Command::Test {
            condition,
            yes: a,
            no: b,
            ..
        } => test(m, condition, a, b, mode, env),
        Command::While {
            truth,
            condition,
            ..
        } => while_command(m, command, *truth, condition, mode, env),
        Command::Repeat { .. } => round(m, command, mode, env),
        Command::RepeatWhile { .. } => round(m, command, mode, env),
        Command::For {
            name,
            from: a,
            to: b,
            by,
            body,
            ..
        } => for_command(m, name, a, b, by, body, env),
        Command::SwitchOn {
            value,
            body: inside,
            ..
        } => switch(m, value, inside, mode, env),
        Command::ResultIs { value, .. } => result_is(m, value, env),
        Command::Simple { word, .. } => Ok(simple(*word)),
        Command::Block {
            decls,
            commands,
            ..
        } => block(m, decls, commands, mode, env),
    }
}

/// The step of a FOR, if it is a constant.
fn step_of(env: &Env, by: &Option<Box<Expr>>) -> Option<u32>
    ensures { result ≡ step_of_for (env_in env.now) (step_in by.now) }
{
    match by {
        None => Some(1),
        Some(step) => constant(env, step),
    }
}

/// `Es := Es`
#[inline(never)]
fn assign<'a>(
    m: &mut Evaluator<'a>,
    dests: &'a [Expr],
    values: &'a [Expr],
    env: Env<'a>,
) -> Result<Next<'a>, AllocError>
    ensures comes { IfOk result (λ next. (p : Program) (b : Bytes) →
        Comes p m.new.frames.items next (world m.new b)
        (resumed p m.old.frames.items (tag done_tag (c.assigned (full p) (expressions_in dests.now) (env_in env.entry)
        (expressions_in values.now) (past_each (expressions_in dests.now) (env_in env.entry)) (world m.old b))))) }
    ensures turns { m.new.turns ≤ m.old.turns }
{
    let following = env.again()?.following(count_each(dests)?)?;
    assigned(m, dests, env, values, following)
}

/// A command that is a call.
#[inline(never)]
fn call_command<'a>(
    m: &mut Evaluator<'a>,
    at: Position,
    callee: &'a Expr,
    items: &'a [Expr],
    env: Env<'a>,
) -> Result<Next<'a>, AllocError>
    ensures comes { IfOk result (λ next. (p : Program) (b : Bytes) →
        Comes p m.new.frames.items next (world m.new b)
        (resumed p m.old.frames.items (tag done_tag (with (applied p (full p) at (expression callee.now) (expressions_in items.now)
        (env_in env.entry) (world m.old b)) (λ _ w. done w))))) }
    ensures turns { m.new.turns ≤ m.old.turns }
{
    m.frames.push(Continuation::Value(OnValue::Dropped))?;
    m.apply(at, callee, items, env)
}

/// FOR.
#[inline(never)]
fn for_command<'a>(
    m: &mut Evaluator<'a>,
    name: &'a Name,
    first: &'a Expr,
    last: &'a Expr,
    by: &'a Option<Box<Expr>>,
    body: &'a Command,
    env: Env<'a>,
) -> Result<Next<'a>, AllocError>
    ensures comes { IfOk result (λ next. (p : Program) (bytes : Bytes) (l : ℕ) (mode : Mode) →
        Comes p m.new.frames.items next (world m.new bytes)
        (resumed p m.old.frames.items (tag done_tag (c.act_of p (full p)
        (t.for_loop l (mention name.now) (expression first.now) (expression last.now) (step_in by.now) (command_in body.now)) mode
        (env_in env.entry) (world m.old bytes))))) }
    ensures turns { m.new.turns ≤ m.old.turns }
{
    let following = env.again()?.following(count(first)?)?;
    let step = step_of(&env, by);
    m.first_value(
        OnValue::ForStart(name, last, following, body, step),
        first,
        env,
    )
}

/// RESULTIS.
fn result_is<'a>(
    m: &mut Evaluator<'a>,
    value: &'a Expr,
    env: Env<'a>,
) -> Result<Next<'a>, AllocError>
    ensures comes { IfOk result (λ next. (p : Program) (b : Bytes) →
        Comes p m.new.frames.items next (world m.new b)
        (resumed p m.old.frames.items (tag done_tag (with ((full p).value (expression value.now) (env_in env.entry) (world m.old b))
        (λ v w. leaves (the_result v) w))))) }
    ensures turns { m.new.turns ≤ m.old.turns }
{
    match m.at_once(value, &env) {
        Some(k) => {
            m.turns = k.1;
            Ok(Next::Leaves(Exit::Result(k.0)))
        }
        None => m.asked(OnValue::Result, value, env),
    }
}

/// SWITCHON.
#[inline(never)]
fn switch<'a>(
    m: &mut Evaluator<'a>,
    value: &'a Expr,
    inside: &'a Command,
    mode: Option<Sought<'a>>,
    env: Env<'a>,
) -> Result<Next<'a>, AllocError>
    ensures comes { IfOk result (λ next. (p : Program) (bytes : Bytes) (l : ℕ) →
        Comes p m.new.frames.items next (world m.new bytes)
        (resumed p m.old.frames.items (tag done_tag (c.act_of p (full p) (t.switch l (expression value.now) (command_in inside.now))
        (mode_in mode.entry) (env_in env.entry) (world m.old bytes))))) }
    ensures turns { m.new.turns ≤ m.old.turns }
{
    let following = env.again()?.following(count(value)?)?;
    match mode {
        None => m.first_value(OnValue::Switch(value, inside, following), value, env),
        Some(sought) => m.first_act(OnDone::Cases, inside, Some(sought), following),
    }
}

/// IF (true) or UNLESS (false).
#[inline(never)]
fn when<'a>(
    m: &mut Evaluator<'a>,
    truth: bool,
    condition: &'a Expr,
    inside: &'a Command,
    mode: Option<Sought<'a>>,
    env: Env<'a>,
) -> Result<Next<'a>, AllocError>
    ensures comes { IfOk result (λ next. (p : Program) (bytes : Bytes) (l : ℕ) →
        Comes p m.new.frames.items next (world m.new bytes)
        (resumed p m.old.frames.items (tag done_tag (c.act_of p (full p)
        (t.when l truth (expression condition.now) (command_in inside.now)) (mode_in mode.entry) (env_in env.entry)
        (world m.old bytes))))) }
    ensures turns { m.new.turns ≤ m.old.turns }
{
    let following = env.again()?.following(count(condition)?)?;
    match mode {
        None => m.first_truth(OnTruth::When(truth, inside, following), condition, env),
        Some(sought) => Ok(Next::Act(inside, Some(sought), following)),
    }
}

/// WHILE (true) or UNTIL (false).
#[inline(never)]
fn while_command<'a>(
    m: &mut Evaluator<'a>,
    command: &'a Command,
    truth: bool,
    condition: &'a Expr,
    mode: Option<Sought<'a>>,
    env: Env<'a>,
) -> Result<Next<'a>, AllocError>
    ensures comes { IfOk result (λ next. (p : Program) (b : Bytes) →
        Comes p m.new.frames.items next (world m.new b)
        (resumed p m.old.frames.items (tag done_tag (begun_loop p truth (expression condition.now) (command_in command.now)
        (mode_in mode.entry) (env_in env.entry) (world m.old b))))) }
    ensures turns { m.new.turns ≤ m.old.turns }
{
    match mode {
        None => {
            let again = env.again()?;
            m.first_truth(OnTruth::First(truth, command, again), condition, env)
        }
        Some(sought) => round(m, command, Some(sought), env),
    }
}

/// A command of one word.
fn simple<'a>(word: Simple) -> Next<'a>
    ensures { (p : Program) (fs : List Continuation) (w : World) → Comes p fs result w (resumed p fs (tag done_tag (c.simple_exit word w))) }
{
    match word {
        Simple::Break => Next::Leaves(Exit::Break),
        Simple::Loop => Next::Leaves(Exit::Loop),
        Simple::EndCase => Next::Leaves(Exit::EndCase),
        Simple::Return => Next::Leaves(Exit::Return),
        Simple::Finish => Next::Status(0),
    }
}

/// TEST.
#[inline(never)]
fn test<'a>(
    m: &mut Evaluator<'a>,
    condition: &'a Expr,
    a: &'a Command,
    b: &'a Command,
    mode: Option<Sought<'a>>,
    env: Env<'a>,
) -> Result<Next<'a>, AllocError>
    ensures comes { IfOk result (λ next. (p : Program) (bytes : Bytes) (l : ℕ) →
        Comes p m.new.frames.items next (world m.new bytes)
        (resumed p m.old.frames.items (tag done_tag (c.act_of p (full p)
        (t.test l (expression condition.now) (command_in a.now) (command_in b.now)) (mode_in mode.entry) (env_in env.entry)
        (world m.old bytes))))) }
    ensures turns { m.new.turns ≤ m.old.turns }
{
    let following = env.again()?.following(count(condition)?)?;
    match mode {
        None => m.first_truth(OnTruth::Test(a, b, following), condition, env),
        Some(sought) => {
            if has_place(sought, &env, a) {
                Ok(Next::Act(a, Some(sought), following))
            } else {
                let further = following.following(count_command(a)?)?;
                Ok(Next::Act(b, Some(sought), further))
            }
        }
    }
}

/// Assignments, one after another.
#[inline(never)]
pub fn assigned<'a>(
    m: &mut Evaluator<'a>,
    dests: &'a [Expr],
    there: Env<'a>,
    values: &'a [Expr],
    env: Env<'a>,
) -> Result<Next<'a>, AllocError>
    ensures comes { IfOk result (λ next. (p : Program) (b : Bytes) →
        Comes p m.new.frames.items next (world m.new b)
        (resumed p m.old.frames.items (tag done_tag (c.assigned (full p) (expressions_in dests.now) (env_in there.entry)
        (expressions_in values.now) (env_in env.entry) (world m.old b))))) }
    ensures falls { Within (assign_cost dests.now + 2) m.old m.new result }
{
    match dests.split_first() {
        None => Ok(Next::Gives(Thing::Done)),
        Some(_) => match values.split_first() {
            None => Ok(Next::Gives(Thing::Done)),
            Some((first, rest)) => match m.at_once(first, &env) {
                Some(k) => {
                    m.turns = k.1;
                    put_first(m, k.0, dests, there, rest, env)
                }
                None => {
                    let following = env.again()?.following(count(first)?)?;
                    m.asked(OnValue::Assigned(dests, there, rest, following), first, env)
                }
            },
        },
    }
}

/// Commands in order. Seeking passes over those in which the place is not.
#[inline(never)]
pub fn in_order<'a>(
    m: &mut Evaluator<'a>,
    commands: &'a [Command],
    mode: Option<Sought<'a>>,
    env: Env<'a>,
) -> Result<Next<'a>, AllocError>
    ensures comes { IfOk result (λ next. (p : Program) (b : Bytes) →
        Comes p m.new.frames.items next (world m.new b)
        (resumed p m.old.frames.items (tag done_tag (s.in_order (full p) (commands_in commands.now) (mode_in mode.entry) (env_in env.entry) (world m.old b))))) }
    ensures falls { Within (order_cost commands.now) m.old m.new result }
{
    match mode {
        None => first_of(m, commands, None, env),
        Some(sought) => {
            let k = passed(sought, commands, env)?;
            first_of(m, k.0, Some(sought), k.1)
        }
    }
}

/// The commands from the first one on that a place is in, and what names mean there.
fn passed<'a>(
    sought: Sought<'a>,
    commands: &'a [Command],
    env: Env<'a>,
) -> Result<(&'a [Command], Env<'a>), AllocError>
    ensures same { IfOk result (λ k. (p : Program) (w : World) →
        s.in_order (full p) (commands_in k.0.now) (seeking (sought_in sought.entry)) (env_in k.1) w
        ≡ s.in_order (full p) (commands_in commands.now) (seeking (sought_in sought.entry)) (env_in env.entry) w) }
    ensures fewer { IfOk result (λ k. length k.0.now ≤ length commands.now) }
{
    let mut rest = commands;
    let mut here = env;
    'passing: while let Some((first, others)) = rest.split_first() {
        if has_place(sought, &here, first) {
            break 'passing;
        }
        here = here.following(count_command(first)?)?;
        rest = others;
    }
    Ok((rest, here))
}

/// The first of commands in order, and those after it.
fn first_of<'a>(
    m: &mut Evaluator<'a>,
    commands: &'a [Command],
    mode: Option<Sought<'a>>,
    env: Env<'a>,
) -> Result<Next<'a>, AllocError>
    ensures comes { IfOk result (λ next. (p : Program) (b : Bytes) →
        Comes p m.new.frames.items next (world m.new b)
        (resumed p m.old.frames.items (tag done_tag (s.in_order (full p) (commands_in commands.now) (mode_in mode.entry) (env_in env.entry) (world m.old b))))) }
    ensures falls { Within (order_cost commands.now) m.old m.new result }
{
    match commands.split_first() {
        None => Ok(Next::Gives(Thing::Done)),
        Some((first, rest)) => match mode {
            None => one_of(m, first, rest, None, env),
            Some(sought) => {
                if has_place(sought, &env, first) {
                    one_of(m, first, rest, Some(sought), env)
                } else {
                    let following = env.following(count_command(first)?)?;
                    Ok(Next::InOrder(rest, Some(sought), following))
                }
            }
        },
    }
}

/// A command, and those after it. The last one needs no frame.
fn one_of<'a>(
    m: &mut Evaluator<'a>,
    first: &'a Command,
    rest: &'a [Command],
    mode: Option<Sought<'a>>,
    env: Env<'a>,
) -> Result<Next<'a>, AllocError>
    ensures comes { IfOk result (λ next. (p : Program) (b : Bytes) →
        Comes p m.new.frames.items next (world m.new b)
        (resumed p m.old.frames.items (tag done_tag (with ((full p).act (command_in first.now) (mode_in mode.entry) (env_in env.entry) (world m.old b))
        (λ _ w. s.in_order (full p) (commands_in rest.now) forwards (past_command (command_in first.now) (env_in env.entry)) w))))) }
    ensures falls { Within (order_cost rest.now + 2) m.old m.new result }
{
    if rest.is_empty() {
        return act(m, first, mode, env);
    }
    let following = env.again()?.following(count_command(first)?)?;
    act_under(m, OnDone::After(rest, following), first, mode, env)
}

/// A command is done, and this frame goes on after it.
fn act_under<'a>(
    m: &mut Evaluator<'a>,
    frame: OnDone<'a>,
    command: &'a Command,
    mode: Option<Sought<'a>>,
    env: Env<'a>,
) -> Result<Next<'a>, AllocError>
    ensures comes { IfOk result (λ next. (p : Program) (b : Bytes) →
        Comes p m.new.frames.items next (world m.new b)
        (resumed p m.old.frames.items (done_goes p frame.entry
        ((full p).act (command_in command.now) (mode_in mode.entry) (env_in env.entry) (world m.old b))))) }
    ensures falls { Within (done_cost frame.entry + 1) m.old m.new result }
{
    m.frames.push(Continuation::Done(frame))?;
    act(m, command, mode, env)
}

/// The commands of a scope, which owns their labels.
#[inline(never)]
pub fn scope<'a>(
    m: &mut Evaluator<'a>,
    commands: &'a [Command],
    mode: Option<Sought<'a>>,
    env: Env<'a>,
) -> Result<Next<'a>, AllocError>
    ensures comes { IfOk result (λ next. (p : Program) (b : Bytes) →
        Comes p m.new.frames.items next (world m.new b)
        (resumed p m.old.frames.items (tag done_tag (s.scope_of (full p) (commands_in commands.now) (mode_in mode.entry) (env_in env.entry) (world m.old b))))) }
    ensures falls { Within (scope_cost commands.now) m.old m.new result }
{
    m.frames
        .push(Continuation::Done(OnDone::Scope(commands, env.again()?)))?;
    let inside = labelled(m.alloc, commands, env)?;
    Ok(Next::InOrder(commands, mode, inside))
}

/// A block. One with declarations is a scope, and its objects die after it.
#[inline(never)]
fn block<'a>(
    m: &mut Evaluator<'a>,
    decls: &'a [Decl],
    commands: &'a [Command],
    mode: Option<Sought<'a>>,
    env: Env<'a>,
) -> Result<Next<'a>, AllocError>
    ensures comes { IfOk result (λ next. (p : Program) (b : Bytes) (l : ℕ) →
        Comes p m.new.frames.items next (world m.new b)
        (resumed p m.old.frames.items (tag done_tag (c.act_of p (full p)
        (t.block l (declarations_in decls.now) (commands_in commands.now)) (mode_in mode.entry) (env_in env.entry) (world m.old b))))) }
    ensures turns { m.new.turns ≤ m.old.turns }
{
    match decls.split_first() {
        None => Ok(Next::InOrder(commands, mode, env)),
        Some(_) => {
            m.frames.push(Continuation::Closing(m.store.made()))?;
            Ok(Next::Declare(decls, commands, env))
        }
    }
}

/// The command of a SWITCHON, from the CASE of a value, else from the DEFAULT.
#[inline(never)]
pub fn choose_case<'a>(
    m: &mut Evaluator<'a>,
    expr: &'a Expr,
    value: Worth,
    command: &'a Command,
    env: Env<'a>,
) -> Result<Next<'a>, AllocError>
    ensures comes { IfOk result (λ next. (p : Program) (b : Bytes) →
        Comes p m.new.frames.items next (world m.new b)
        (resumed p m.old.frames.items (tag done_tag (c.choose_case (full p) (acts_at (expression expr.now)) (value_in value)
        (command_in command.now) (env_in env.entry) (world m.old b))))) }
    ensures falls { Within 2 m.old m.new result }
{
    match value {
        Worth::Number(n) => {
            if has_place(Sought::Case(n), &env, command) {
                m.first_act(OnDone::Cases, command, Some(Sought::Case(n)), env)
            } else if has_place(Sought::Default, &env, command) {
                m.first_act(OnDone::Cases, command, Some(Sought::Default), env)
            } else {
                Ok(Next::Gives(Thing::Done))
            }
        }
        Worth::Address(_, _) => Ok(Next::Undefined(Subject::Switch(expr), Reason::NoNumber(value))),
        Worth::Procedure(_) => Ok(Next::Undefined(Subject::Switch(expr), Reason::NoNumber(value))),
        Worth::Routine(_) => Ok(Next::Undefined(Subject::Switch(expr), Reason::NoNumber(value))),
        Worth::Unset(origin) => Ok(Next::Undefined(Subject::Switch(expr), Reason::Unset(origin))),
    }
}
