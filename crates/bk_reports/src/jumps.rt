//! Loops that GOTOs make.

use crate::made::{in_procedure, seek};
use crate::sought::{Jump, Place, Search, is_up_to, place_of};
use bk_lasting::{Lasting, Procedure};
use bk_tree::Position;

/// A GOTO back to its label.
#[derive(Clone, Copy)]
pub struct Back<'a> {
    /// The label.
    pub name: &'a [u8],
    /// The lines of the GOTO and of the label.
    pub line: u32,
    pub label_line: u32,
    /// The bytes of both.
    pub byte: u32,
    pub label_byte: u32,
}

/// Where the label is.
pub fn label_of(back: Back) -> Place {
    Place {
        line: back.label_line,
        byte: back.label_byte,
    }
}

/// A GOTO back to its label, if a position is between them.
fn back_over<'a>(procedure: &Procedure<'a>, at: Position, jump: Jump<'a>) -> Option<Back<'a>> {
    let Jump { place, label: name } = jump;
    let label = in_procedure(procedure, at, name).label?;
    if !is_up_to(label, place_of(at)) {
        return None;
    }
    Some(Back {
        name,
        line: place.line,
        label_line: label.line,
        byte: place.byte,
        label_byte: label.byte,
    })
}

/// The one of two whose label is later, which is inside the other.
fn inner<'a>(a: Option<Back<'a>>, b: Option<Back<'a>>) -> Option<Back<'a>> {
    match (a, b) {
        (Some(first), Some(second)) => {
            if is_up_to(label_of(second), label_of(first)) {
                a
            } else {
                b
            }
        }
        (Some(_), None) => a,
        _ => b,
    }
}

/// A GOTO back to its label, if there is one, and a position is between them.
fn back_of<'a>(
    procedure: &Procedure<'a>,
    at: Position,
    jump: Option<Jump<'a>>,
) -> Option<Back<'a>> {
    match jump {
        Some(jump) => back_over(procedure, at, jump),
        None => None,
    }
}

/// The innermost GOTO of a procedure that goes back over a position.
fn back_in<'a>(procedure: &Procedure<'a>, at: Position) -> Option<Back<'a>> {
    let Search {
        first_jump,
        second_jump,
        third_jump,
        ..
    } = in_procedure(procedure, at, b"");
    let first = back_of(procedure, at, first_jump);
    let second = back_of(procedure, at, second_jump);
    let third = back_of(procedure, at, third_jump);
    inner(inner(first, second), third)
}

/// The innermost GOTO that goes back over a position.
pub fn back_at<'a>(program: &[Lasting<'a>], at: Position) -> Option<Back<'a>> {
    for lasting in program {
        if let Lasting::Code(procedure) = lasting
            && let Some(back) = back_in(procedure, at)
        {
            return Some(back);
        }
    }
    None
}

/// What a program has between a label and the GOTO that goes back to it.
pub fn between<'a>(program: &[Lasting<'a>], back: Back<'a>) -> Search<'a> {
    let mut search = Search::new(Position::first(), b"");
    search.from = label_of(back);
    search.to = Some(Place {
        line: back.line,
        byte: back.byte,
    });
    for lasting in program {
        if let Lasting::Code(procedure) = lasting {
            seek(&mut search, procedure);
        }
    }
    search
}
