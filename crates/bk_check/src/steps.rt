//! The steps of a run.
ghost use Rattle.std.specs.Prelude.{◌≡◌, false, IfOk};
ghost use Rattle.std.specs.Bool.{OnTrue};
ghost use Rattle.bk_check.specs.Views.{program_in};
ghost use Rattle.bk_check.specs.Worlds.{Bytes, world};
ghost use Rattle.bk_check.specs.Resume.{Comes, resumed, outcome_next};
ghost use Rattle.bk_check.specs.Progress.{Falls, stands};

use crate::blocks::{declare, define, starts};
use crate::commands::{act, in_order};
use crate::frame::Next;
use crate::going_on::{given, left};
use crate::machine::Evaluator;
use bk_lasting::Lasting;
use bk_tree::Init;
use std::alloc::AllocError;

/// How many steps are taken at once at most.
const STEPS: u32 = 64;

/// Goes on with what comes next, in some steps: up to where more cells live than ever before, so that a limit is told where it is reached.
/// What a library routine gives, and the end of a run, stay as they are.
pub fn step<'a>(
    m: &mut Evaluator<'a>,
    program: &[Lasting<'a>],
    next: Next<'a>,
) -> Result<Next<'a>, AllocError>
    ensures comes { IfOk result (λ after. (b : Bytes) →
        Comes (program_in program.now) m.new.frames.items after (world m.new b)
        (resumed (program_in program.now) m.old.frames.items (outcome_next (program_in program.now) next.entry (world m.old b)))) }
    ensures falls { Falls m.old next.entry m.new result }
{
    let mut next = next;
    let mut left = STEPS;
    let most_cells = m.most_cells;
    'steps: while left == STEPS || (left > 0 && m.most_cells == most_cells && goes_on(m, &next)) {
        left -= 1;
        next = once(m, program, next)?;
    }
    Ok(next)
}

/// Whether the next step may follow at once. Before a VEC its cells are counted.
fn goes_on<'a>(m: &Evaluator<'a>, next: &Next<'a>) -> bool
    ensures { OnTrue result (stands m.now.frames.items next.now ≡ false) }
{
    match next {
        Next::Gives(_) | Next::Leaves(_) => !m.frames.is_empty(),
        Next::Library(_, _, _)
        | Next::Starts([Init::Vector { .. }, ..], _, _, _)
        | Next::Status(_)
        | Next::DivideByZero(_)
        | Next::Undefined(_, _)
        | Next::Going(_) => false,
        _ => true,
    }
}

/// Goes on with what comes next, once.
fn once<'a>(
    m: &mut Evaluator<'a>,
    program: &[Lasting<'a>],
    next: Next<'a>,
) -> Result<Next<'a>, AllocError>
    ensures comes { IfOk result (λ after. (b : Bytes) →
        Comes (program_in program.now) m.new.frames.items after (world m.new b)
        (resumed (program_in program.now) m.old.frames.items (outcome_next (program_in program.now) next.entry (world m.old b)))) }
    ensures falls { Falls m.old next.entry m.new result }
{
    match next {
        Next::Value(expr, env) => m.value(expr, env),
        Next::Truth(expr, env) => m.truth(expr, env),
        Next::Target(expr, env) => m.target(expr, env),
        Next::Act(command, mode, env) => act(m, command, mode, env),
        Next::InOrder(commands, mode, env) => in_order(m, commands, mode, env),
        Next::Declare(decls, commands, env) => declare(m, decls, commands, env),
        Next::Define(rest) => define(m, rest),
        Next::Starts(inits, here, names, rest) => starts(m, inits, here, names, rest),
        Next::Gives(thing) => given(m, program, thing),
        Next::Leaves(exit) => left(m, exit),
        Next::Library(at, routine, values) => Ok(Next::Library(at, routine, values)),
        Next::Status(status) => Ok(Next::Status(status)),
        Next::DivideByZero(subject) => Ok(Next::DivideByZero(subject)),
        Next::Undefined(subject, reason) => Ok(Next::Undefined(subject, reason)),
        Next::Going(at) => Ok(Next::Going(at)),
    }
}
