//! Which mistakes people make: how likely it is that a symbol is missing, too many or another.

use crate::reader::{Part, Shape, State};
use crate::repair::{Near, Trial, begins_command};
use bk_grammar::symbols::infix;
use bk_lex::Kind;

/// How much less likely a mistake is where it is earlier than the refused symbol.
fn distance(near: &Near, place: usize) -> usize {
    let far = near.refused.saturating_sub(place);
    let mut lines: usize = 0;
    for step in 0..far {
        let later = near.refused.saturating_sub(step);
        if later < near.symbols.len() && near.is_first(later) {
            lines = lines.saturating_add(1);
        }
    }
    far.min(12).saturating_add(lines.min(6).saturating_mul(3))
}

/// Whether a symbol closes, ends or parts what is before it.
fn is_closing(kind: Option<Kind>) -> bool {
    matches!(
        kind,
        None | Some(
            Kind::Semicolon
                | Kind::SectionClose
                | Kind::SectionOpen
                | Kind::Do
                | Kind::Into
                | Kind::To
                | Kind::By
                | Kind::Or
                | Kind::Assign
                | Kind::RepeatWhile
                | Kind::RepeatUntil
                | Kind::Repeat
                | Kind::Arrow
                | Kind::Be
        )
    )
}

/// Whether values with commas between are read.
pub fn is_list(part: Option<Part>) -> bool {
    matches!(
        part,
        Some(
            Part::Arguments(_)
                | Part::Table
                | Part::FormalEnd
                | Part::Formals
                | Part::VariableEnd(_)
                | Part::Named(_)
                | Part::Then
        )
    )
}

/// Whether a condition is read.
fn is_condition(part: Option<Part>) -> bool {
    matches!(
        part,
        Some(Part::Guard(Kind::Do) | Part::Test | Part::RepeatWhile)
    )
}

/// How unlikely it is that a `$(` is missing: it is likely in a line that is as far right as the refused symbol's.
pub fn cost_of_opening(near: &Near, place: usize) -> usize {
    let right = near.indentation(near.refused);
    let before = near.indentation(place.saturating_sub(1));
    let far = near.refused.saturating_sub(place) / 16;
    let cost: usize = if before == right || place == near.refused {
        9
    } else {
        13
    };
    cost.saturating_add(far.min(12))
}

/// Whether an expression goes on with a symbol, as lines seldom begin or end.
fn goes_on(kind: Kind) -> bool {
    kind == Kind::Arrow || infix(kind).is_some()
}

/// How unlikely it is that this symbol is missing.
pub fn cost_of_insertion(near: &Near, base: &Trial, place: usize, kind: Kind) -> usize {
    let around = base.reader.around();
    if kind == Kind::SectionOpen {
        return cost_of_opening(near, place);
    }
    if near.is_first(place) && goes_on(kind) && matches!(base.reader.state, State::Have(_)) {
        return UNLIKELY;
    }
    let cost: usize = match kind {
        Kind::Assign if base.reader.state == State::Have(Shape::Call) => 20,
        Kind::Assign if near.kind(place).is_some_and(|kind| infix(kind).is_some()) => 14,
        Kind::Colon
            if base.reader.state == State::Have(Shape::Name) && around == Some(Part::Start) => 14,
        Kind::Assign => 6,

        Kind::Arrow if is_list(around) && !is_truth(near, place) => 12,
        Kind::Do | Kind::Be | Kind::To | Kind::Into | Kind::Or | Kind::Arrow | Kind::Colon => 7,
        Kind::Valof if near.kind(place).is_some_and(begins_command) => 7,
        Kind::Semicolon if near.is_first(place) => 11,
        Kind::Semicolon => 8,
        Kind::Close if near.is_first(place) || is_closing(near.kind(place)) => 8,
        Kind::Close => 12,
        Kind::Comma if is_list(around) => 9,
        Kind::Comma => 15,
        Kind::Equal if base.reader.state == State::Due => 7,

        Kind::Equal if is_condition(around) || is_truth(near, place) => 10,
        Kind::Plus => 12,
        Kind::SectionClose => 11,
        Kind::Let => 12,
        Kind::Open => 13,
        Kind::Name => 16,
        _ => 18,
    };
    cost.saturating_add(distance(near, place))
}

/// Whether a symbol is the same as the one before it.
pub fn is_doubled(near: &Near, place: usize) -> bool {
    match place.checked_sub(1) {
        Some(before) => near.kind(before) == near.kind(place)
            && near.text(before).eq_ignore_ascii_case(near.text(place)),
        None => false,
    }
}

/// Whether a symbol compares, or is an operator of truth values.
fn is_of_truth(kind: Kind) -> bool {
    matches!(
        kind,
        Kind::Equal
            | Kind::NotEqual
            | Kind::Less
            | Kind::Greater
            | Kind::LessEqual
            | Kind::GreaterEqual
            | Kind::Ampersand
            | Kind::Bar
            | Kind::Not
            | Kind::True
            | Kind::False
    )
}

/// How many symbols before a place are looked at.
const LOOKED: usize = 24;

/// Whether the expression before a place is a truth value, as its symbols are.
fn is_truth(near: &Near, place: usize) -> bool {
    let mut depth: usize = 0;
    for count in 1..LOOKED {
        let Some(index) = place.checked_sub(count) else {
            return false;
        };
        match near.kind(index) {
            Some(Kind::Close) => depth = depth.saturating_add(1),
            Some(Kind::Open) if depth == 0 => return false,
            Some(Kind::Open) => depth = depth.saturating_sub(1),
            Some(
                Kind::Comma
                | Kind::Arrow
                | Kind::Semicolon
                | Kind::SectionOpen
                | Kind::SectionClose
                | Kind::Assign
                | Kind::ResultIs,
            ) if depth == 0 => return false,
            Some(kind) if depth == 0 && is_of_truth(kind) => return true,
            _ => {}
        }
    }
    false
}

/// How unlikely it is that a symbol is one too many.
pub fn cost_of_deletion(near: &Near, place: usize) -> usize {
    let cost: usize = if is_doubled(near, place) {
        6
    } else {
        match near.kind(place) {
            Some(Kind::Close) => 9,
            Some(Kind::Name | Kind::Number | Kind::Text | Kind::Character) => UNLIKELY,
            _ => 12,
        }
    };
    cost.saturating_add(distance(near, place))
}

/// What a change costs that is not proposed.
pub const UNLIKELY: usize = 100;

/// Whether the one symbol is often written for the other.
pub fn is_mistaken(written: Kind, meant: Kind) -> bool {
    matches!(
        (written, meant),
        (Kind::Assign, Kind::Equal)
            | (Kind::Equal, Kind::Assign)
            | (Kind::Be, Kind::Equal)
            | (Kind::Equal, Kind::Be)
            | (Kind::Comma, Kind::Semicolon)
            | (Kind::Semicolon, Kind::Comma)
            | (Kind::Colon, Kind::Semicolon)
            | (Kind::Semicolon, Kind::Colon)
            | (Kind::Colon, Kind::Assign)
            | (Kind::Open, Kind::SectionOpen)
            | (Kind::Close, Kind::SectionClose)
            | (Kind::SectionOpen, Kind::Open)
            | (Kind::SectionClose, Kind::Close)
            | (Kind::If, Kind::Test)
            | (Kind::Test, Kind::If)
            | (Kind::Or, Kind::Bar)
            | (Kind::And, Kind::Ampersand)
            | (Kind::Do, Kind::Into)
            | (Kind::Into, Kind::Do)
            | (Kind::Comma, Kind::To)
    )
}

/// How unlikely it is that a symbol is written for another.
pub fn cost_of_replacement(near: &Near, place: usize) -> usize {
    let after = place.saturating_add(1);
    let ends_line = near.is_first(place) || near.is_first(after);
    let cost: usize = match near.kind(place) {
        Some(Kind::Comma | Kind::Colon) if ends_line => 16,
        Some(Kind::And) if near.is_first(place) => UNLIKELY,
        _ => 9,
    };
    cost.saturating_add(distance(near, place))
}
