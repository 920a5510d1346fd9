//! The calls that are active.

use crate::notice::Within;
use crate::spelling::{add, add_number};
use crate::text::Text;
use crate::values::callee_name;
use bk_check::{Call, Continuation, Evaluator};
use bk_lasting::Lasting;
use bk_objects::Worth;
use bk_tree::Position;
use std::alloc::AllocError;

/// How many lines list calls at most.
const LINES: usize = 10;

/// The name of what is called, the line of the call, and the name of the procedure that calls it.
#[derive(Clone, Copy, PartialEq, Eq)]
struct CallLine<'a> {
    callee: &'a [u8],
    line: u32,
    caller: &'a [u8],
}

/// Adds a call, and how often it is there.
fn add_call(text: &mut Text, call: CallLine, times: usize) {
    add(text, &[b"  in ", call.callee, b", called on line "]);
    add_number(text, call.line as usize);
    add(text, &[b", from ", call.caller]);
    if times > 1 {
        add(text, &[b", repeated "]);
        add_number(text, times);
        add(text, &[b" times"]);
    }
    add(text, &[b"\n"]);
}

/// What is written of the calls, and the one that is to be written next.
#[derive(Drop)]
struct Listing<'a> {
    last: Option<CallLine<'a>>,
    times: usize,
    lines: usize,
    left_out: usize,
}

/// Takes a further call outwards.
fn take<'a>(text: &mut Text, listing: &mut Listing<'a>, call: CallLine<'a>) {
    let last = listing.last;
    if let Some(before) = last {
        if before == call {
            listing.times = listing.times.saturating_add(1);
            return;
        }
        if listing.lines < LINES - 2 {
            add_call(text, before, listing.times);
            listing.lines = listing.lines.saturating_add(1);
        } else {
            listing.left_out = listing.left_out.saturating_add(listing.times);
        }
    }
    listing.last = Some(call);
    listing.times = 1;
}

/// Adds the outermost calls, and how many before them are left out.
fn add_last(text: &mut Text, listing: &Listing) {
    if listing.left_out > 0 {
        add(text, &[b"  and "]);
        add_number(text, listing.left_out);
        add(
            text,
            &[if listing.left_out == 1 {
                b" further call\n"
            } else {
                b" further calls\n"
            }],
        );
    }
    if let Some(call) = listing.last {
        add_call(text, call, listing.times);
    }
}

/// The procedure of an active call, by its number.
fn procedure_called(frame: &Continuation) -> Option<(Position, u64)> {
    match frame {
        Continuation::Returned(call) => match call.callee {
            Worth::Procedure(number) => Some((call.at, number)),
            _ => None,
        },
        _ => None,
    }
}

/// The section of what is done now: that of the innermost procedure that is active.
pub fn active_section(m: &Evaluator) -> Within {
    match m.frames.iter().rev().find_map(procedure_called) {
        Some((_, number)) => Within::Procedure(number),
        None => Within::Section(0),
    }
}

/// The position of the innermost call that is active, and its section; the source's first line where none is.
pub fn innermost_call(m: &Evaluator) -> (Position, Within) {
    let mut calls = m.frames.iter().rev().filter_map(procedure_called);
    let at = match calls.next() {
        Some((at, _)) => at,
        None => Position::first(),
    };
    match calls.next() {
        Some((_, caller)) => (at, Within::Procedure(caller)),
        None => (at, Within::Section(0)),
    }
}

/// The calls that are active, a line each, innermost first, so that START is at the end; ten lines at most. Equal calls one after another
/// have one line.
pub fn calls_text<'a>(m: &Evaluator<'a>, program: &[Lasting<'a>]) -> Result<Vec<u8>, AllocError> {
    let mut text = Text::new(m.alloc);
    let mut inner: Option<Call> = None;
    let mut listing = Listing {
        last: None,
        times: 0,
        lines: 0,
        left_out: 0,
    };
    for frame in m.frames.iter().rev() {
        if let Continuation::Returned(caller) = frame
            && matches!(caller.callee, Worth::Procedure(_))
        {
            if let Some(call) = inner {
                let line = CallLine {
                    callee: callee_name(program, call.callee),
                    line: call.at.line().number(),
                    caller: callee_name(program, caller.callee),
                };
                take(&mut text, &mut listing, line);
            }
            inner = Some(*caller);
        }
    }
    match inner {
        Some(call) if listing.last.is_none() => {
            add(
                &mut text,
                &[b"  in ", callee_name(program, call.callee), b"\n"],
            );
        }
        _ => add_last(&mut text, &listing),
    }
    text.whole()
}
