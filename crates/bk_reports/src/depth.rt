//! Whether nearly all the calls that are active are of one procedure.

use crate::values::Page;
use bk_check::Continuation;
use bk_objects::Worth;

/// How many calls of one procedure are active where a recursion may be without end, if nearly all the active calls are of it.
const SHARE: u64 = 100;

/// The procedure that most of the active calls are of, if more than half of them are of one.
fn most_called(frames: &[Continuation]) -> Option<u64> {
    let mut found = None;
    let mut lead: u64 = 0;
    for frame in frames {
        if let Some(number) = called(frame) {
            if lead == 0 {
                found = Some(number);
                lead = 1;
            } else if found == Some(number) {
                lead = lead.saturating_add(1);
            } else {
                lead = lead.saturating_sub(1);
            }
        }
    }
    found
}

/// The procedure that is called, where a call is active.
fn called(frame: &Continuation) -> Option<u64> {
    match frame {
        Continuation::Returned(call) => match call.callee {
            Worth::Procedure(number) => Some(number),
            _ => None,
        },
        _ => None,
    }
}

/// How many calls of a procedure are active.
fn count_of(frames: &[Continuation], number: u64) -> u64 {
    let mut count: u64 = 0;
    for frame in frames {
        if called(frame) == Some(number) {
            count = count.saturating_add(1);
        }
    }
    count
}

/// Whether a hundred calls of one procedure are active, which are more than nine tenths of all.
pub fn is_mostly_one(page: &Page) -> bool {
    match most_called(&page.m.frames) {
        Some(number) => {
            let count = count_of(&page.m.frames, number);
            count >= SHARE && count.saturating_mul(10) > page.m.calls.saturating_mul(9)
        }
        None => false,
    }
}
