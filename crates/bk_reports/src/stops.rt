//! Why a run stopped.

use crate::acts::{say_act, say_both, say_division};
use crate::rounds::{MANY, say_formals, say_turns};
use crate::values::Page;
use bk_check::{Evaluator, Next};
use bk_lasting::Lasting;
use bk_tree::Position;
use std::alloc::AllocError;

/// A limit of a check.
#[derive(Clone, Copy)]
pub enum Limit {
    /// Of the calls that are active, and of what they have still to do.
    Calls,
    /// Of the words of the vectors and variables that are in use.
    Words,
}

/// Why a run stops at this position; nothing where it ends as it should.
pub fn stop_text<'a>(
    m: &Evaluator<'a>,
    program: &[Lasting<'a>],
    at: Position,
    next: &Next<'a>,
) -> Result<Vec<u8>, AllocError> {
    let mut page = Page::new(m, program, at);
    match next {
        Next::Undefined(subject, reason) => {
            say_act(&mut page, subject, *reason);
            say_both(&mut page);
        }
        Next::DivideByZero(subject) => {
            say_division(&mut page, subject);
            say_both(&mut page);
        }
        Next::Going(at) => say_turns(&mut page, *at),
        _ => {}
    }
    let Page { text, .. } = page;
    text.whole()
}

/// Which limit of a check was reached in the call at this position.
pub fn limit_text<'a>(
    m: &Evaluator<'a>,
    program: &[Lasting<'a>],
    at: Position,
    limit: Limit,
) -> Result<Vec<u8>, AllocError> {
    let mut page = Page::new(m, program, at);
    let what: &[u8] = match limit {
        Limit::Calls => b"a check can't hold more calls, and what they have still to do",
        Limit::Words => {
            b"the words of the vectors and variables that are in use are more than a check can hold"
        }
    };
    page.say(&[b"too deep: ", what]);
    if m.calls > MANY {
        say_formals(&mut page);
    }
    if matches!(limit, Limit::Calls) || m.calls > MANY {
        page.say(&[b"; does the recursion end?"]);
    }
    let Page { text, .. } = page;
    text.whole()
}
