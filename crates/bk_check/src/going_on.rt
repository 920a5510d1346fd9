//! Frames go on with what the parts inside gave.
ghost use Rattle.std.specs.Prelude.{◌≡◌, ◌<◌, IfOk, IfSome, List, [], Ok};
ghost use Rattle.bk_tree.specs.Tree.{expression, expressions_in};
ghost use Rattle.bk_meaning.specs.World.{World, gives, leaves, undefined, done};
ghost use Rattle.bk_meaning.specs.Causes.{no_place};
ghost use Rattle.bk_meaning.specs.Parts.{nowhere, store, acts_at};
ghost use Rattle.bk_meaning.specs.Lasting.{Program};
ghost use Rattle.bk_meaning.specs.Full.{full};
ghost use Rattle.bk_check.specs.Views.{program_in};
ghost use Rattle.bk_objects.specs.Views.{value_in};
ghost use Rattle.bk_lasting.specs.Views.{env_in};
ghost use Rattle.bk_check.specs.Worlds.{Bytes, world};
ghost use Rattle.bk_check.specs.Resume.{tag, done_tag, exit_in, thing_in, Comes, resumed, resume_value, resume_truth, resume_target, resume_done, resume_left, resume_given, value_goes, truth_goes, target_goes, done_goes, done_left, assigned_to};
ghost use Rattle.bk_objects.specs.Views.{place_in};
ghost use Rattle.bk_check.specs.Progress.{Within, LeftWithin, Adds, Falls, assign_cost, value_cost, truth_cost, target_cost, done_cost, cost_of};

use crate::blocks::named;
use crate::calls::call;
use crate::commands::{assigned, choose_case, in_order};
use crate::fors::{begin_for, next_for};
use crate::frame::{
    Continuation, Exit, Next, OnDone, OnTarget, OnTruth, OnValue, Operands, Subject, Thing,
};
use crate::known::{DEPTH, known_target};
use crate::landings::{lands, lands_alone, lands_in_block};
use crate::loops::{further_round, next_round, round};
use crate::machine::{Evaluator, came};
use crate::scopes::Scope;
use bk_lasting::{Env, Lasting, count, count_command};
use bk_objects::{Location, Origin, Reason, Worth, prefixed, put};
use bk_tree::{Expr, Position};
use std::alloc::AllocError;

/// What goes on with a value.
fn with_value<'a>(
    m: &mut Evaluator<'a>,
    program: &[Lasting<'a>],
    frame: OnValue<'a>,
    x: Worth,
) -> Result<Next<'a>, AllocError>
    ensures comes { IfOk result (λ next. (b : Bytes) →
        Comes (program_in program.now) m.new.frames.items next (world m.new b)
        (resumed (program_in program.now) m.old.frames.items (value_goes (program_in program.now) frame.entry (gives (value_in x) (world m.old b))))) }
    ensures falls { Within (value_cost frame.entry) m.old m.new result }
{
    match frame {
        OnValue::Contents(expr) => Ok(m.fetched(expr, Operands::One(x), x)),
        OnValue::Prefix(expr, prefix) => Ok(came(expr, Operands::One(x), prefixed(prefix, x))),
        OnValue::Left(expr, operator, b, env) => m.second(expr, operator, x, b, env),
        OnValue::Right(expr, operator, first) => Ok(m.combined(expr, operator, first, x)),
        OnValue::Judge(expr) => Ok(m.truth_given(expr, x)),
        OnValue::At => Ok(Next::Gives(Thing::Target(Location::Cell(x)))),
        OnValue::Vector(expr, b, env) => m.first_value(OnValue::Offset(expr, x), b, env),
        OnValue::Offset(expr, first) => Ok(m.place_given(expr, first, x)),
        OnValue::String(b, env) => m.first_value(OnValue::Byte(x), b, env),
        OnValue::Byte(first) => Ok(Next::Gives(Thing::Target(Location::Byte(first, x)))),
        OnValue::Argument(at, items, here, before, callee, env) => {
            let mut before = before;
            before.push(x)?;
            m.arguments(at, items, here, before, callee, env)
        }
        OnValue::Callee(at, expr, values) => { call(m, program, at, Some(expr), x, values) },
        OnValue::Dropped => Ok(Next::Gives(Thing::Done)),
        OnValue::Result => Ok(Next::Leaves(Exit::Result(x))),
        OnValue::Assigned(dests, there, values, env) => put_first(m, x, dests, there, values, env),
        OnValue::Switch(expr, command, env) => choose_case(m, expr, x, command, env),
        OnValue::ForStart(name, limit, env, body, step) => {
            let following = env.again()?.following(count(limit)?)?;
            m.first_value(
                OnValue::ForLimit(name, following, x, body, step),
                limit,
                env,
            )
        }
        OnValue::ForLimit(name, env, start, body, step) => {
            begin_for(m, name, env, start, x, body, step)
        },
        OnValue::Starts(inits, here, names, rest) => named(inits, here, names, x, rest),
    }
}

/// A value goes to the first of these destinations; the assignments after it.
#[inline(never)]
pub fn put_first<'a>(
    m: &mut Evaluator<'a>,
    x: Worth,
    dests: &'a [Expr],
    there: Env<'a>,
    values: &'a [Expr],
    env: Env<'a>,
) -> Result<Next<'a>, AllocError>
    ensures comes { IfOk result (λ next. (p : Program) (b : Bytes) →
        Comes p m.new.frames.items next (world m.new b)
        (resumed p m.old.frames.items (tag done_tag (assigned_to (full p) (value_in x) (expressions_in dests.now)
        (env_in there.entry) (expressions_in values.now) (env_in env.entry) (world m.old b))))) }
    ensures falls { Within (assign_cost dests.now) m.old m.new result }
{
    match dests.split_first() {
        Some((first, rest)) => match last_place(m, first, rest, &there) {
            Some(k) => {
                m.turns = k.1;
                Ok(put_last(m, first, k.0, x))
            }
            None => {
                let following = there.again()?.following(count(first)?)?;
                m.first_target(
                    OnTarget::Put(first, x, rest, following, values, env),
                    first,
                    there,
                )
            }
        },
        None => Ok(Next::Gives(Thing::Done)),
    }
}

/// The place of a destination that is the last one, if it is known at once.
fn last_place(m: &Evaluator, first: &Expr, rest: &[Expr], there: &Env) -> Option<(Location, u64)>
    ensures last { IfSome result (λ _. rest.now ≡ []) }
    ensures value { IfSome result (λ k. (p : Program) (b : Bytes)
        → (full p).target (expression first.now) (env_in there.now) (world m.now b)
        ≡ gives (place_in k.0) (record (world m.now b) { turns = k.1 })) }
    ensures fewer { IfSome result (λ k. k.1 < m.now.turns) }
{
    if rest.is_empty() {
        known_target(&m.store, m.turns, DEPTH, first, there)
    } else {
        None
    }
}

/// A value goes to the place of a destination, which is the last one.
fn put_last<'a>(m: &mut Evaluator<'a>, dest: &'a Expr, place: Location, x: Worth) -> Next<'a>
    ensures comes { (p : Program) (b : Bytes) → Comes p m.new.frames.items result (world m.new b)
        (resumed p m.old.frames.items (tag done_tag (store (acts_at (expression dest.now)) (place_in place) (value_in x) (world m.old b)))) }
    ensures falls { Within 0 m.old m.new (Ok result) }
{
    match put(&mut m.store, place, x) {
        Ok(()) => Next::Gives(Thing::Done),
        Err(reason) => Next::Undefined(Subject::Expr(dest), reason),
    }
}

/// What goes on with a truth.
#[inline(never)]
pub fn with_truth<'a>(
    m: &mut Evaluator<'a>,
    frame: OnTruth<'a>,
    x: bool,
) -> Result<Next<'a>, AllocError>
    ensures comes { IfOk result (λ next. (p : Program) (b : Bytes) →
        Comes p m.new.frames.items next (world m.new b)
        (resumed p m.old.frames.items (truth_goes p frame.entry (gives x (world m.old b))))) }
    ensures falls { Within (truth_cost frame.entry) m.old m.new result }
{
    match frame {
        OnTruth::Choice(a, b, env) => {
            if x {
                Ok(m.value_next(a, env))
            } else {
                let following = env.following(count(a)?)?;
                Ok(Next::Value(b, following))
            }
        }
        OnTruth::Not => Ok(Next::Gives(Thing::Truth(!x))),
        OnTruth::And(b, env) => if x {
            Ok(Next::Truth(b, env))
        } else {
            Ok(Next::Gives(Thing::Truth(false)))
        },
        OnTruth::Or(b, env) => if x {
            Ok(Next::Gives(Thing::Truth(true)))
        } else {
            Ok(Next::Truth(b, env))
        },
        OnTruth::When(truth, command, env) => if truth == x {
            Ok(Next::Act(command, None, env))
        } else {
            Ok(Next::Gives(Thing::Done))
        },
        OnTruth::Test(a, b, env) => {
            if x {
                Ok(Next::Act(a, None, env))
            } else {
                let following = env.following(count_command(a)?)?;
                Ok(Next::Act(b, None, following))
            }
        }
        OnTruth::First(truth, command, env) => if truth == x {
            round(m, command, None, env)
        } else {
            Ok(Next::Gives(Thing::Done))
        },
        OnTruth::Further(truth, command, env) => if truth == x {
            further_round(m, command, env)
        } else {
            Ok(Next::Gives(Thing::Done))
        },
    }
}

/// What goes on with a place.
#[inline(never)]
fn with_target<'a>(
    m: &mut Evaluator<'a>,
    frame: OnTarget<'a>,
    x: Location,
) -> Result<Next<'a>, AllocError>
    ensures comes { IfOk result (λ next. (p : Program) (b : Bytes) →
        Comes p m.new.frames.items next (world m.new b)
        (resumed p m.old.frames.items (target_goes p frame.entry (gives (place_in x) (world m.old b))))) }
    ensures falls { Within (target_cost frame.entry) m.old m.new result }
{
    match frame {
        OnTarget::Address(expr) => match x {
            Location::Cell(at) => Ok(Next::Gives(Thing::Value(at))),
            Location::Byte(_, _) => Ok(Next::Undefined(Subject::Expr(expr), Reason::NoPlace)),
        },
        OnTarget::Put(dest, value, dests, there, values, env) => match put(&mut m.store, x, value) {
            Ok(()) => assigned(m, dests, there, values, env),
            Err(reason) => Ok(Next::Undefined(Subject::Expr(dest), reason)),
        },
    }
}

/// The line of the innermost call of a procedure, and the number of the procedure.
fn innermost(m: &Evaluator) -> (u32, u32) {
    for frame in m.frames.iter().rev() {
        if let Continuation::Returned(call) = frame
            && let Worth::Procedure(number) = call.callee
        {
            return (
                call.at.line().number(),
                u32::try_from(number).unwrap_or(u32::MAX),
            );
        }
    }
    (0, u32::MAX)
}

/// Where the value of a procedure comes from whose body is a command.
fn of_body(m: &Evaluator) -> Origin {
    let (line, number) = innermost(m);
    Origin::Body(line, number)
}

/// Where the value of a VALOF on this line comes from that ended without RESULTIS.
fn of_valof(m: &Evaluator, line: u32) -> Origin {
    let (_, number) = innermost(m);
    Origin::Valof(line, number)
}

/// What goes on after a command.
#[inline(never)]
fn with_done<'a>(m: &mut Evaluator<'a>, frame: OnDone<'a>) -> Result<Next<'a>, AllocError>
    ensures comes { IfOk result (λ next. (p : Program) (b : Bytes) →
        Comes p m.new.frames.items next (world m.new b)
        (resumed p m.old.frames.items (done_goes p frame.entry (done (world m.old b))))) }
    ensures falls { Within (done_cost frame.entry) m.old m.new result }
{
    match frame {
        OnDone::After(commands, env) => in_order(m, commands, None, env),
        OnDone::Body => Ok(Next::Gives(Thing::Value(Worth::Unset(of_body(m))))),
        OnDone::Valof(line) => Ok(Next::Gives(Thing::Value(Worth::Unset(of_valof(m, line))))),
        OnDone::Scope(_, _) => Ok(Next::Gives(Thing::Done)),
        OnDone::Alone(_, _) => Ok(Next::Gives(Thing::Done)),
        OnDone::Cases => Ok(Next::Gives(Thing::Done)),
        OnDone::Round(command, env) => next_round(m, command, env),
        OnDone::ForRound(run) => next_for(m, run),
        OnDone::Landed(_) => Ok(Next::Gives(Thing::Done)),
        OnDone::LandedInBlock(_, _) => Ok(Next::Gives(Thing::Done)),
    }
}

/// Where a part is left, and this goes on.
#[inline(never)]
fn with_exit<'a>(
    m: &mut Evaluator<'a>,
    frame: OnDone<'a>,
    exit: Exit<'a>,
) -> Result<Next<'a>, AllocError>
    ensures comes { IfOk result (λ next. (p : Program) (b : Bytes) →
        Comes p m.new.frames.items next (world m.new b)
        (resumed p m.old.frames.items (done_left p frame.entry (exit_in exit.entry) (world m.old b)))) }
    ensures falls { LeftWithin exit.entry (done_cost frame.entry) m.old m.new result }
{
    match frame {
        OnDone::After(_, _) => Ok(Next::Leaves(exit)),
        OnDone::Body => match exit {
            Exit::Return => Ok(Next::Gives(Thing::Value(Worth::Unset(of_body(m))))),
            Exit::Break => Ok(Next::Leaves(Exit::Break)),
            Exit::Loop => Ok(Next::Leaves(Exit::Loop)),
            Exit::EndCase => Ok(Next::Leaves(Exit::EndCase)),
            Exit::Goto(label) => Ok(Next::Leaves(Exit::Goto(label))),
            Exit::Result(x) => Ok(Next::Leaves(Exit::Result(x))),
        },
        OnDone::Valof(_) => match exit {
            Exit::Result(x) => Ok(Next::Gives(Thing::Value(x))),
            Exit::Break => Ok(Next::Leaves(Exit::Break)),
            Exit::Loop => Ok(Next::Leaves(Exit::Loop)),
            Exit::EndCase => Ok(Next::Leaves(Exit::EndCase)),
            Exit::Goto(label) => Ok(Next::Leaves(Exit::Goto(label))),
            Exit::Return => Ok(Next::Leaves(Exit::Return)),
        },
        OnDone::Scope(commands, env) => match exit {
            Exit::Goto(label) => lands(m, Scope::new(commands, env), label),
            Exit::Break => Ok(Next::Leaves(Exit::Break)),
            Exit::Loop => Ok(Next::Leaves(Exit::Loop)),
            Exit::EndCase => Ok(Next::Leaves(Exit::EndCase)),
            Exit::Result(x) => Ok(Next::Leaves(Exit::Result(x))),
            Exit::Return => Ok(Next::Leaves(Exit::Return)),
        },
        OnDone::Alone(command, env) => match exit {
            Exit::Goto(label) => lands_alone(m, command, env, label),
            Exit::Break => Ok(Next::Leaves(Exit::Break)),
            Exit::Loop => Ok(Next::Leaves(Exit::Loop)),
            Exit::EndCase => Ok(Next::Leaves(Exit::EndCase)),
            Exit::Result(x) => Ok(Next::Leaves(Exit::Result(x))),
            Exit::Return => Ok(Next::Leaves(Exit::Return)),
        },
        OnDone::Cases => match exit {
            Exit::EndCase => Ok(Next::Gives(Thing::Done)),
            Exit::Break => Ok(Next::Leaves(Exit::Break)),
            Exit::Loop => Ok(Next::Leaves(Exit::Loop)),
            Exit::Goto(label) => Ok(Next::Leaves(Exit::Goto(label))),
            Exit::Result(x) => Ok(Next::Leaves(Exit::Result(x))),
            Exit::Return => Ok(Next::Leaves(Exit::Return)),
        },
        OnDone::Round(command, env) => match exit {
            Exit::Loop => next_round(m, command, env),
            Exit::Break => Ok(Next::Gives(Thing::Done)),
            Exit::EndCase => Ok(Next::Leaves(Exit::EndCase)),
            Exit::Goto(label) => Ok(Next::Leaves(Exit::Goto(label))),
            Exit::Result(x) => Ok(Next::Leaves(Exit::Result(x))),
            Exit::Return => Ok(Next::Leaves(Exit::Return)),
        },
        OnDone::ForRound(run) => match exit {
            Exit::Loop => next_for(m, run),
            Exit::Break => Ok(Next::Gives(Thing::Done)),
            Exit::EndCase => Ok(Next::Leaves(Exit::EndCase)),
            Exit::Goto(label) => Ok(Next::Leaves(Exit::Goto(label))),
            Exit::Result(x) => Ok(Next::Leaves(Exit::Result(x))),
            Exit::Return => Ok(Next::Leaves(Exit::Return)),
        },
        OnDone::Landed(scope) => match exit {
            Exit::Goto(label) => lands(m, scope.with_labels(m.alloc)?, label),
            Exit::Break => Ok(Next::Leaves(Exit::Break)),
            Exit::Loop => Ok(Next::Leaves(Exit::Loop)),
            Exit::EndCase => Ok(Next::Leaves(Exit::EndCase)),
            Exit::Result(x) => Ok(Next::Leaves(Exit::Result(x))),
            Exit::Return => Ok(Next::Leaves(Exit::Return)),
        },
        OnDone::LandedInBlock(at, scope) => match exit {
            Exit::Goto(label) => lands_in_block(m, at, scope.with_labels(m.alloc)?, label),
            Exit::Break => Ok(Next::Leaves(Exit::Break)),
            Exit::Loop => Ok(Next::Leaves(Exit::Loop)),
            Exit::EndCase => Ok(Next::Leaves(Exit::EndCase)),
            Exit::Result(x) => Ok(Next::Leaves(Exit::Result(x))),
            Exit::Return => Ok(Next::Leaves(Exit::Return)),
        },
    }
}

/// What a frame does not go on with.
#[inline(never)]
fn wrong<'a>() -> Result<Next<'a>, AllocError>
    ensures comes { IfOk result (λ next. (p : Program) (fs : List Continuation) (w : World) → Comes p fs next w (resumed p fs (undefined nowhere no_place w))) }
    ensures falls { Adds 0 result }
{
    Ok(Next::Undefined(Subject::Nothing(Position::first()), Reason::NoPlace))
}

/// A frame goes on with a value.
fn frame_with_value<'a>(
    m: &mut Evaluator<'a>,
    program: &[Lasting<'a>],
    frame: Continuation<'a>,
    x: Worth,
) -> Result<Next<'a>, AllocError>
    ensures comes { IfOk result (λ next. (b : Bytes) →
        Comes (program_in program.now) m.new.frames.items next (world m.new b)
        (resumed (program_in program.now) m.old.frames.items (resume_value (program_in program.now) frame.entry (gives (value_in x) (world m.old b))))) }
    ensures falls { Within (cost_of frame.entry) m.old m.new result }
{
    match frame {
        Continuation::Value(inside) => with_value(m, program, inside, x),
        Continuation::Returned(call) => {
            m.calls = call.calls;
            Ok(Next::Gives(Thing::Value(x)))
        }
        Continuation::Closing(object) => {
            m.store.forget(object);
            Ok(Next::Gives(Thing::Value(x)))
        }
        Continuation::Truth(_) => wrong(),
        Continuation::Target(_) => wrong(),
        Continuation::Done(_) => wrong(),
    }
}

/// A frame goes on with a truth.
fn frame_with_truth<'a>(
    m: &mut Evaluator<'a>,
    frame: Continuation<'a>,
    x: bool,
) -> Result<Next<'a>, AllocError>
    ensures comes { IfOk result (λ next. (p : Program) (b : Bytes) →
        Comes p m.new.frames.items next (world m.new b)
        (resumed p m.old.frames.items (resume_truth p frame.entry (gives x (world m.old b))))) }
    ensures falls { Within (cost_of frame.entry) m.old m.new result }
{
    match frame {
        Continuation::Truth(inside) => with_truth(m, inside, x),
        Continuation::Value(_) => wrong(),
        Continuation::Target(_) => wrong(),
        Continuation::Done(_) => wrong(),
        Continuation::Returned(_) => wrong(),
        Continuation::Closing(_) => wrong(),
    }
}

/// A frame goes on with a place.
fn frame_with_target<'a>(
    m: &mut Evaluator<'a>,
    frame: Continuation<'a>,
    x: Location,
) -> Result<Next<'a>, AllocError>
    ensures comes { IfOk result (λ next. (p : Program) (b : Bytes) →
        Comes p m.new.frames.items next (world m.new b)
        (resumed p m.old.frames.items (resume_target p frame.entry (gives (place_in x) (world m.old b))))) }
    ensures falls { Within (cost_of frame.entry) m.old m.new result }
{
    match frame {
        Continuation::Target(inside) => with_target(m, inside, x),
        Continuation::Value(_) => wrong(),
        Continuation::Truth(_) => wrong(),
        Continuation::Done(_) => wrong(),
        Continuation::Returned(_) => wrong(),
        Continuation::Closing(_) => wrong(),
    }
}

/// A frame goes on after a command.
fn frame_with_done<'a>(
    m: &mut Evaluator<'a>,
    frame: Continuation<'a>,
) -> Result<Next<'a>, AllocError>
    ensures comes { IfOk result (λ next. (p : Program) (b : Bytes) →
        Comes p m.new.frames.items next (world m.new b)
        (resumed p m.old.frames.items (resume_done p frame.entry (done (world m.old b))))) }
    ensures falls { Within (cost_of frame.entry) m.old m.new result }
{
    match frame {
        Continuation::Done(inside) => with_done(m, inside),
        Continuation::Closing(object) => {
            m.store.forget(object);
            Ok(Next::Gives(Thing::Done))
        }
        Continuation::Value(_) => wrong(),
        Continuation::Truth(_) => wrong(),
        Continuation::Target(_) => wrong(),
        Continuation::Returned(_) => wrong(),
    }
}

/// A frame goes on with what was given.
fn frame_with<'a>(
    m: &mut Evaluator<'a>,
    program: &[Lasting<'a>],
    frame: Continuation<'a>,
    thing: Thing,
) -> Result<Next<'a>, AllocError>
    ensures comes { IfOk result (λ next. (b : Bytes) →
        Comes (program_in program.now) m.new.frames.items next (world m.new b)
        (resumed (program_in program.now) m.old.frames.items (resume_given (program_in program.now) frame.entry (thing_in thing) (world m.old b)))) }
    ensures falls { Within (cost_of frame.entry) m.old m.new result }
{
    match thing {
        Thing::Value(x) => frame_with_value(m, program, frame, x),
        Thing::Truth(x) => frame_with_truth(m, frame, x),
        Thing::Target(x) => frame_with_target(m, frame, x),
        Thing::Done => frame_with_done(m, frame),
    }
}

/// A frame goes on where a part is left.
#[inline(never)]
fn frame_left<'a>(
    m: &mut Evaluator<'a>,
    frame: Continuation<'a>,
    exit: Exit<'a>,
) -> Result<Next<'a>, AllocError>
    ensures comes { IfOk result (λ next. (p : Program) (b : Bytes) →
        Comes p m.new.frames.items next (world m.new b)
        (resumed p m.old.frames.items (resume_left p frame.entry (exit_in exit.entry) (world m.old b)))) }
    ensures falls { LeftWithin exit.entry (cost_of frame.entry) m.old m.new result }
{
    match frame {
        Continuation::Done(inside) => with_exit(m, inside, exit),
        Continuation::Returned(call) => Ok(Next::Undefined(
            Subject::Nothing(call.at),
            Reason::NoPlace,
        )),
        Continuation::Closing(object) => {
            m.store.forget(object);
            Ok(Next::Leaves(exit))
        }
        Continuation::Value(_) => Ok(Next::Leaves(exit)),
        Continuation::Truth(_) => Ok(Next::Leaves(exit)),
        Continuation::Target(_) => Ok(Next::Leaves(exit)),
    }
}

/// What was given goes to the innermost frame.
#[inline(never)]
pub fn given<'a>(
    m: &mut Evaluator<'a>,
    program: &[Lasting<'a>],
    thing: Thing,
) -> Result<Next<'a>, AllocError>
    ensures comes { IfOk result (λ next. (b : Bytes) →
        Comes (program_in program.now) m.new.frames.items next (world m.new b)
        (resumed (program_in program.now) m.old.frames.items (gives (thing_in thing) (world m.old b)))) }
    ensures falls { Falls m.old (Next.Gives thing) m.new result }
{
    match m.frames.pop() {
        Some(frame) => frame_with(m, program, frame, thing),
        None => Ok(Next::Gives(thing)),
    }
}

/// An exit goes to the innermost frame.
#[inline(never)]
pub fn left<'a>(m: &mut Evaluator<'a>, exit: Exit<'a>) -> Result<Next<'a>, AllocError>
    ensures comes { IfOk result (λ next. (p : Program) (b : Bytes) →
        Comes p m.new.frames.items next (world m.new b)
        (resumed p m.old.frames.items (leaves (exit_in exit.entry) (world m.old b)))) }
    ensures falls { Falls m.old (Next.Leaves exit.entry) m.new result }
{
    match m.frames.pop() {
        Some(frame) => frame_left(m, frame, exit),
        None => Ok(Next::Leaves(exit)),
    }
}
