//! Calls, of a procedure of the program and of a library routine.
ghost use Rattle.std.specs.Prelude.{◌≡◌, ℕ, IfOk, Some, map, slice_get, unwrap_or};
ghost use Rattle.bk_objects.specs.declared.worth.Origin.TheVariants.{Argument};
ghost use Rattle.bk_objects.specs.declared.worth.Worth.TheVariants.{Unset};
ghost use Rattle.std.specs.Option.{option_map};
ghost use Rattle.bk_meaning.specs.Lasting.{Program, procedure_of};
ghost use Rattle.bk_meaning.specs.Calls as c;
ghost use Rattle.bk_meaning.specs.Causes;
ghost use Rattle.bk_meaning.specs.Full.{full};
ghost use Rattle.bk_check.specs.Views.{letters_in, program_in};
ghost use Rattle.bk_objects.specs.Views.{value_in, cell_in};
ghost use Rattle.bk_lasting.specs.Views.{env_in, body_in, procedure_in};
ghost use Rattle.bk_check.specs.Worlds.{Bytes, world};
ghost use Rattle.bk_meaning.specs.World.{World, undefined};
ghost use Rattle.bk_check.specs.Resume.{tag, a_value, Comes, resumed, outcome_next, list_value};
ghost use Rattle.bk_check.specs.Progress.{Within, Adds};

use crate::frame::{Call, Continuation, Next, OnDone, Subject};
use crate::machine::Evaluator;
use bk_lasting::{Body, Env, Lasting, Procedure, Sense};
use bk_objects::{Cell, Origin, Reason, Worth};
use bk_tree::{Expr, Name, Position};
use std::alloc::{AllocError, Global};

/// The procedure of this number, if it is one.
fn procedure<'a, 'p>(program: &'p [Lasting<'a>], number: u64) -> Option<&'p Procedure<'a>>
    ensures { option_map (λ q. procedure_in q.now) result ≡ procedure_of (program_in program.now) number }
{
    match program.get(number as usize) {
        Some(Lasting::Code(procedure)) => Some(procedure),
        Some(Lasting::Globals) => None,
        Some(Lasting::Words(_)) => None,
        None => None,
    }
}

/// An argument by its number, from 0; a missing one is unset.
fn argument(values: &[Worth], i: usize) -> Worth
    ensures { result ≡ unwrap_or (slice_get values.now i) (Unset Argument) }
{
    match values.get(i) {
        Some(value) => *value,
        None => Worth::Unset(Origin::Argument),
    }
}

/// The cells of formals: a missing argument is unset, and further ones are dropped.
fn formal_cells(alloc: Global, formals: &[Name], values: &[Worth]) -> Result<Vec<Cell>, AllocError>
    ensures { IfOk result (λ cells. map cell_in cells.items ≡ c.formal_cells (letters_in formals.now) (list_value values.now)) }
{
    let mut cells = Vec::with_capacity(alloc, formals.len())?;
    for i in 0..formals.len() {
        let value = argument(values, i);
        cells.push(Cell::Holds(value))?;
    }
    Ok(cells)
}

/// With the formals, which are the cells of an object.
fn bind_formals<'a>(
    alloc: Global,
    object: u64,
    formals: &'a [Name],
    env: Env<'a>,
) -> Result<Env<'a>, AllocError>
    ensures { IfOk result (λ inside. env_in inside ≡ c.bind_formals object 0 (letters_in formals.now) (env_in env.entry)) }
{
    let mut env = env;
    let mut offset: u32 = 0;
    for formal in formals {
        env = env.bind(alloc, &formal.letters, Sense::Cell(offset, object))?;
        offset = offset.checked_add(1).ok_or(AllocError)?;
    }
    Ok(env)
}

/// The body of a procedure.
fn body<'a>(m: &mut Evaluator<'a>, body: Body<'a>, env: Env<'a>) -> Result<Next<'a>, AllocError>
    ensures comes { IfOk result (λ next. (p : Program) (b : Bytes) →
        Comes p m.new.frames.items next (world m.new b)
        (resumed p m.old.frames.items (tag a_value (c.run_body (full p) (body_in body.entry) (env_in env.entry) (world m.old b))))) }
    ensures falls { Within 5 m.old m.new result }
{
    match body {
        Body::Command(command) => {
            m.frames.push(Continuation::Done(OnDone::Body))?;
            m.alone(command, None, env)
        }
        Body::Value(value) => Ok(Next::Value(value, env)),
    }
}

/// Where the first of formals is.
fn formals_at(formals: &[Name]) -> Position {
    match formals.first() {
        Some(formal) => formal.at,
        None => Position::first(),
    }
}

/// A procedure that is called.
#[inline(never)]
fn enter<'a>(
    m: &mut Evaluator<'a>,
    procedure: &Procedure<'a>,
    values: Vec<Worth>,
) -> Result<Next<'a>, AllocError>
    ensures comes { IfOk result (λ next. (p : Program) (b : Bytes) (l : ℕ) →
        Comes p m.new.frames.items next (world m.new b)
        (resumed p m.old.frames.items (tag a_value (c.enter (full p) l (Some (procedure_in procedure.now)) (list_value values.items) (world m.old b))))) }
    ensures falls { Within 6 m.old m.new result }
{
    let object = m.store.made();
    m.frames.push(Continuation::Closing(object))?;
    let env = bind_formals(m.alloc, object, procedure.formals, procedure.env.again()?)?;
    let cells = formal_cells(m.alloc, procedure.formals, &values)?;
    m.store.make(&cells, formals_at(procedure.formals))?;
    body(m, procedure.body, env)
}

/// A call of what is no procedure.
fn no_procedure<'a>(at: Position, expr: Option<&'a Expr>, callee: Worth) -> Next<'a>
    ensures comes { (p : Program) (w : World) → outcome_next p result w ≡ undefined at (Causes.no_procedure (value_in callee)) w }
    ensures falls { Adds 0 (Ok result) }
{
    let subject = match expr {
        Some(expr) => Subject::Call(at, expr),
        None => Subject::Nothing(at),
    };
    Next::Undefined(subject, Reason::NoProcedure(callee))
}

/// What is called.
#[inline(never)]
fn called<'a>(
    m: &mut Evaluator<'a>,
    program: &[Lasting<'a>],
    at: Position,
    expr: Option<&'a Expr>,
    callee: Worth,
    values: Vec<Worth>,
) -> Result<Next<'a>, AllocError>
    ensures comes { IfOk result (λ next. (b : Bytes) →
        Comes (program_in program.now) m.new.frames.items next (world m.new b)
        (resumed (program_in program.now) m.old.frames.items
        (tag a_value (c.called (program_in program.now) (full (program_in program.now)) at (value_in callee)
        (list_value values.items) (world m.old b))))) }
    ensures falls { Within 6 m.old m.new result }
{
    match callee {
        Worth::Routine(routine) => Ok(Next::Library(at, routine, values)),
        Worth::Procedure(number) => match procedure(program, number) {
            Some(procedure) => enter(m, procedure, values),
            None => Ok(Next::Undefined(Subject::Nothing(at), Reason::NoPlace)),
        },
        Worth::Number(_) => Ok(no_procedure(at, expr, callee)),
        Worth::Address(_, _) => Ok(no_procedure(at, expr, callee)),
        Worth::Unset(_) => Ok(no_procedure(at, expr, callee)),
    }
}

/// A call. While it runs a further call is active.
#[inline(never)]
pub fn call<'a>(
    m: &mut Evaluator<'a>,
    program: &[Lasting<'a>],
    at: Position,
    expr: Option<&'a Expr>,
    callee: Worth,
    values: Vec<Worth>,
) -> Result<Next<'a>, AllocError>
    ensures comes { IfOk result (λ next. (b : Bytes) →
        Comes (program_in program.now) m.new.frames.items next (world m.new b)
        (resumed (program_in program.now) m.old.frames.items
        (tag a_value (c.call (program_in program.now) (full (program_in program.now)) at (value_in callee)
        (list_value values.items) (world m.old b))))) }
    ensures falls { Within 7 m.old m.new result }
{
    let calls = m.calls;
    m.frames.push(Continuation::Returned(Call {
        at,
        callee,
        arguments: values.len(),
        calls,
    }))?;
    m.calls = calls.checked_add(1).ok_or(AllocError)?;
    m.most_calls = m.most_calls.max(m.calls);
    m.most_cells = m.most_cells.max(m.store.cells_in_use());
    called(m, program, at, expr, callee, values)
}
