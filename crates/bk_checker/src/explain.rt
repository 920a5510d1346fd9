//! What is reported to a person of the end of a check. Contracts say the verdict, with the reason, and the place; of the texts they say
//! nothing.
ghost use Rattle.std.specs.Prelude.{◌≡◌, IfOk};
ghost use Rattle.bk_check.specs.Resume.{acts_in};
ghost use Rattle.bk_checker.specs.Checks.{verdict_of, place_of};

use crate::report::{CheckFault, GivenUp, Report};
use crate::run::{FRAMES, verdict};
use bk_check::{Evaluator, Next, Subject, acts_at};
use bk_lasting::Lasting;
use bk_reports::{
    Limit, Notice, active_section, calls_text, innermost_call, limit_text, stop_text,
};
use bk_tree::Position;
use std::alloc::AllocError;

/// The position of what an undefined act is done with.
fn place_of_subject(subject: &Subject) -> Position
    ensures { result ≡ acts_in subject.now }
{
    match subject {
        Subject::Expr(expr)
        | Subject::Prefixed(expr, _)
        | Subject::Operation(expr, _, _)
        | Subject::Condition(expr)
        | Subject::Switch(expr) => acts_at(expr),
        Subject::Variable(name, _, _) => name.at,
        Subject::Call(at, _) | Subject::Library(at, _, _, _) | Subject::Nothing(at) => *at,
    }
}

/// The position of what ends a run.
fn place(next: &Next) -> Position
    ensures { result ≡ place_of next.now }
{
    match next {
        Next::Undefined(subject, _) | Next::DivideByZero(subject) => place_of_subject(subject),
        Next::Going(at) => *at,
        _ => Position::first(),
    }
}

/// Where the limits of a check were reached, and which.
fn too_deep<'a>(m: &Evaluator<'a>, program: &[Lasting<'a>]) -> Result<Notice, AllocError> {
    let (at, section) = innermost_call(m);
    let limit = if m.frames.len() > FRAMES {
        Limit::Calls
    } else {
        Limit::Words
    };
    let text = limit_text(m, program, at, limit)?;
    let calls = calls_text(m, program)?;
    Ok(Notice::new(m.alloc, at, section, text, calls))
}

/// Why a run was given up, and where, if its limits were reached.
pub fn given_up<'a>(m: &Evaluator<'a>, program: &[Lasting<'a>], fault: CheckFault) -> GivenUp
    ensures { result.fault ≡ fault }
{
    if !matches!(fault, CheckFault::TooDeep) {
        return GivenUp::from(fault);
    }
    match too_deep(m, program) {
        Ok(stop) => GivenUp {
            fault,
            stop: Some(stop),
        },
        Err(_) => GivenUp::from(fault),
    }
}

/// The verdict of what ends a run, and what is reported to a person of it.
pub fn explain<'a>(
    m: &Evaluator<'a>,
    program: &[Lasting<'a>],
    next: &Next<'a>,
) -> Result<Report, AllocError>
    ensures { IfOk result (λ report. (report.verdict ≡ verdict_of next.now) × (report.stop.at ≡ place_of next.now)) }
{
    let at = place(next);
    let text = stop_text(m, program, at, next)?;
    let calls = if text.is_empty() {
        Vec::new(m.alloc)
    } else {
        calls_text(m, program)?
    };
    Ok(Report {
        verdict: verdict(next),
        stop: Notice::new(m.alloc, at, active_section(m), text, calls),
        remarks: Vec::new(m.alloc),
    })
}
