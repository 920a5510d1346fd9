//! FOR: the variable, which is an object, is compared with the limit, and the step is added to it.
ghost use Rattle.std.specs.Prelude.{◌≡◌, ℕ, IfOk, OnOk, ◌∷◌, []};
ghost use Rattle.bk_meaning.specs.Causes.{no_constant};
ghost use Rattle.bk_meaning.specs.Memory.{made};
ghost use Rattle.bk_tree.specs.Tree.{command_in, mention};
ghost use Rattle.bk_meaning.specs.World.{World, Outcome, Done, with, given};
ghost use Rattle.bk_meaning.specs.Lasting.{Program};
ghost use Rattle.bk_meaning.specs.Values.{address, holds};
ghost use Rattle.bk_meaning.specs.Parts;
ghost use Rattle.bk_meaning.specs.Loops.{for_rounds_of, for_loop, for_test as test_of, for_step as step_of, relation as relates};
ghost use Rattle.bk_meaning.specs.Full.{full};
ghost use Rattle.bk_objects.specs.Views.{value_in};
ghost use Rattle.bk_lasting.specs.Views.{env_in};
ghost use Rattle.bk_check.specs.Worlds.{Bytes, world};
ghost use Rattle.bk_check.specs.Resume.{tag, done_tag, Comes, resumed, next_for as after_for, further_for};
ghost use Rattle.bk_objects.specs.Views.{outcome_of};
ghost use Rattle.bk_check.specs.Fors.{tested as tested_by, stepped as stepped_by, truth_then, limit_then};
ghost use Rattle.bk_check.specs.Progress.{Within};

use crate::frame::{Continuation, For, Next, OnDone, Subject, Thing};
use crate::machine::Evaluator;
use bk_lasting::{Env, Sense};
use bk_objects::{Cell, Computed, Location, Reason, Store, Worth, combine, put, read, truth_of};
use bk_tree::{Command, Name, Operator, Position};
use std::alloc::AllocError;

/// What the test of a FOR gives.
#[derive(Clone, Copy)]
pub enum Tested {
    Holds(bool),
    DivideByZero,
    Undefined(Reason),
}

/// What the step of a FOR gives.
#[derive(Clone, Copy)]
pub enum Stepped {
    Done,
    DivideByZero,
    Undefined(Reason),
}

/// What the variable of a FOR is compared by.
fn relation(step: u32) -> Operator
    ensures { result ≡ relates step }
{
    if step < 0x8000_0000 {
        Operator::AtMost
    } else {
        Operator::AtLeast
    }
}

/// The truth of what was compared.
fn judged(store: &Store, came: Computed) -> Tested
    ensures { (l : ℕ) (w : World) (go : World → Outcome Done) → w.memory ≡ store.now
        → tested_by l go result w ≡ with (outcome_of l came w) (truth_then l go) }
{
    match came {
        Computed::Value(x) => match truth_of(store, x) {
            Ok(truth) => Tested::Holds(truth),
            Err(reason) => Tested::Undefined(reason),
        },
        Computed::DivideByZero => Tested::DivideByZero,
        Computed::Undefined(reason) => Tested::Undefined(reason),
    }
}

/// The variable against the limit.
fn compared(store: &Store, step: u32, came: Computed, limit: Worth) -> Tested
    ensures { (l : ℕ) (w : World) (go : World → Outcome Done) → w.memory ≡ store.now
        → tested_by l go result w ≡ with (outcome_of l came w) (limit_then l go step (value_in limit)) }
{
    match came {
        Computed::Value(x) => judged(store, combine(store, relation(step), x, limit)),
        Computed::DivideByZero => Tested::DivideByZero,
        Computed::Undefined(reason) => Tested::Undefined(reason),
    }
}

/// The test of a FOR.
fn try_limit(store: &Store, object: u64, limit: Worth, step: u32) -> Tested
    ensures { (l : ℕ) (w : World) (go : World → Outcome Done) → w.memory ≡ store.now
        → tested_by l go result w ≡ test_of l object (value_in limit) step go w }
{
    compared(store, step, read(store, Worth::Address(0, object)), limit)
}

/// A value goes to the variable.
fn put_sum(store: &mut Store, object: u64, came: Computed) -> Stepped
    ensures { (l : ℕ) (w : World) → w.memory ≡ store.old
        → stepped_by l result store.new w ≡ with (outcome_of l came w) (Parts.store l (Parts.at (address object 0))) }
{
    match came {
        Computed::Value(x) => match put(store, Location::Cell(Worth::Address(0, object)), x) {
            Ok(()) => Stepped::Done,
            Err(reason) => Stepped::Undefined(reason),
        },
        Computed::DivideByZero => Stepped::DivideByZero,
        Computed::Undefined(reason) => Stepped::Undefined(reason),
    }
}

/// The step is added to the variable.
fn add_step(store: &mut Store, object: u64, step: u32) -> Stepped
    ensures { (l : ℕ) (w : World) → w.memory ≡ store.old → stepped_by l result store.new w ≡ step_of l object step w }
{
    match read(store, Worth::Address(0, object)) {
        Computed::Value(x) => {
            let sum = combine(store, Operator::Add, x, Worth::Number(step));
            put_sum(store, object, sum)
        }
        Computed::DivideByZero => Stepped::DivideByZero,
        Computed::Undefined(reason) => Stepped::Undefined(reason),
    }
}

/// A FOR whose first value, limit and step are known.
#[inline(never)]
pub fn begin_for<'a>(
    m: &mut Evaluator<'a>,
    name: &'a Name,
    env: Env<'a>,
    start: Worth,
    limit: Worth,
    body: &'a Command,
    step: Option<u32>,
) -> Result<Next<'a>, AllocError>
    ensures comes { IfOk result (λ next. (p : Program) (b : Bytes) →
        Comes p m.new.frames.items next (world m.new b)
        (resumed p m.old.frames.items (tag done_tag (with (given name.now.at no_constant step (world m.old b))
        (λ n w. for_loop (full p) (mention name.now) (command_in body.now) (value_in start) (value_in limit) n
        (env_in env.entry) w))))) }
    ensures falls { Within 6 m.old m.new result }
{
    match step {
        None => Ok(Next::Undefined(Subject::Variable(name, 0, limit), Reason::NoConstant)),
        Some(step) => begin_by(m, name, env, start, limit, body, step),
    }
}

/// A FOR with this step: its variable is made, and dies after it.
fn begin_by<'a>(
    m: &mut Evaluator<'a>,
    name: &'a Name,
    env: Env<'a>,
    start: Worth,
    limit: Worth,
    body: &'a Command,
    step: u32,
) -> Result<Next<'a>, AllocError>
    ensures comes { IfOk result (λ next. (p : Program) (b : Bytes) →
        Comes p m.new.frames.items next (world m.new b)
        (resumed p m.old.frames.items (tag done_tag (for_loop (full p) (mention name.now) (command_in body.now) (value_in start)
        (value_in limit) step (env_in env.entry) (world m.old b))))) }
    ensures falls { Within 6 m.old m.new result }
{
    let object = m.store.made();
    m.frames.push(Continuation::Closing(object))?;
    make_one(&mut m.store, start, name.at)?;
    let inside = env.bind(m.alloc, &name.letters, Sense::Cell(0, object))?;
    first_round(
        m,
        For {
            name,
            object,
            limit,
            step,
            body,
            env: inside,
        },
    )
}

/// An object of one cell.
fn make_one(store: &mut Store, value: Worth, at: Position) -> Result<(), AllocError>
    ensures made { OnOk result (store.new ≡ made (holds (value_in value) ∷ []) store.old) }
{
    store.make(&[Cell::Holds(value)], at)
}

/// The test and the first round of a FOR.
fn first_round<'a>(m: &mut Evaluator<'a>, run: For<'a>) -> Result<Next<'a>, AllocError>
    ensures comes { IfOk result (λ next. (p : Program) (b : Bytes) →
        Comes p m.new.frames.items next (world m.new b)
        (resumed p m.old.frames.items (tag done_tag (test_of run.entry.name.now.at run.entry.object (value_in run.entry.limit) run.entry.step
        (λ w. for_rounds_of (full p) run.entry.name.now.at (command_in run.entry.body.now) run.entry.object (value_in run.entry.limit) run.entry.step
        (env_in run.entry.env) w) (world m.old b))))) }
    ensures falls { Within 5 m.old m.new result }
{
    match try_limit(&m.store, run.object, run.limit, run.step) {
        Tested::Holds(truth) => if truth {
            for_round(m, run)
        } else {
            Ok(Next::Gives(Thing::Done))
        },
        Tested::DivideByZero => Ok(Next::DivideByZero(Subject::Variable(
            run.name, run.object, run.limit,
        ))),
        Tested::Undefined(reason) => Ok(Next::Undefined(
            Subject::Variable(run.name, run.object, run.limit),
            reason,
        )),
    }
}

/// The rounds of a FOR, from one on.
#[inline(never)]
fn for_round<'a>(m: &mut Evaluator<'a>, run: For<'a>) -> Result<Next<'a>, AllocError>
    ensures comes { IfOk result (λ next. (p : Program) (b : Bytes) →
        Comes p m.new.frames.items next (world m.new b)
        (resumed p m.old.frames.items (tag done_tag (for_rounds_of (full p) run.entry.name.now.at (command_in run.entry.body.now) run.entry.object
        (value_in run.entry.limit) run.entry.step (env_in run.entry.env) (world m.old b))))) }
    ensures falls { Within 5 m.old m.new result }
{
    let body = run.body;
    let env = run.env.again()?;
    m.frames.push(Continuation::Done(OnDone::ForRound(run)))?;
    m.alone(body, None, env)
}

/// A further round of a FOR, which takes a turn.
fn further_round<'a>(m: &mut Evaluator<'a>, run: For<'a>) -> Result<Next<'a>, AllocError>
    ensures comes { IfOk result (λ next. (p : Program) (b : Bytes) →
        Comes p m.new.frames.items next (world m.new b)
        (resumed p m.old.frames.items (tag done_tag (further_for p run.entry (world m.old b))))) }
    ensures falls { Within 0 m.old m.new result }
{
    if m.turns == 0 {
        return Ok(Next::Going(run.name.at));
    }
    m.turns -= 1;
    for_round(m, run)
}

/// The test after a round.
fn test_again<'a>(m: &mut Evaluator<'a>, run: For<'a>) -> Result<Next<'a>, AllocError>
    ensures comes { IfOk result (λ next. (p : Program) (b : Bytes) →
        Comes p m.new.frames.items next (world m.new b)
        (resumed p m.old.frames.items (tag done_tag (test_of run.entry.name.now.at run.entry.object (value_in run.entry.limit) run.entry.step
        (further_for p run.entry) (world m.old b))))) }
    ensures falls { Within 0 m.old m.new result }
{
    match try_limit(&m.store, run.object, run.limit, run.step) {
        Tested::Holds(truth) => if truth {
            further_round(m, run)
        } else {
            Ok(Next::Gives(Thing::Done))
        },
        Tested::DivideByZero => Ok(Next::DivideByZero(Subject::Variable(
            run.name, run.object, run.limit,
        ))),
        Tested::Undefined(reason) => Ok(Next::Undefined(
            Subject::Variable(run.name, run.object, run.limit),
            reason,
        )),
    }
}

/// After a round of a FOR.
#[inline(never)]
pub fn next_for<'a>(m: &mut Evaluator<'a>, run: For<'a>) -> Result<Next<'a>, AllocError>
    ensures comes { IfOk result (λ next. (p : Program) (b : Bytes) →
        Comes p m.new.frames.items next (world m.new b)
        (resumed p m.old.frames.items (tag done_tag (after_for p run.entry (world m.old b))))) }
    ensures falls { Within 0 m.old m.new result }
{
    match add_step(&mut m.store, run.object, run.step) {
        Stepped::Done => test_again(m, run),
        Stepped::DivideByZero => Ok(Next::DivideByZero(Subject::Variable(
            run.name, run.object, run.limit,
        ))),
        Stepped::Undefined(reason) => Ok(Next::Undefined(
            Subject::Variable(run.name, run.object, run.limit),
            reason,
        )),
    }
}
