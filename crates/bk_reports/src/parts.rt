//! Where words and bytes of a vector are set, of which another was never set.

use crate::made::{Made, in_procedure, seek};
use crate::operands::{Operand, name_of};
use crate::sought::{Kind, Search, Words};
use crate::values::{Object, Page};
use bk_lasting::Lasting;
use bk_objects::Worth;
use bk_tree::{Expr, Operator, Position};

/// Where the text sets words or bytes of the vector that it makes at a position, by this name; no procedure is looked at in which another
/// vector has it.
fn parts_set<'a>(page: &Page<'_, 'a>, at: Position, name: &'a [u8]) -> Search<'a> {
    let mut search = Search::sought(at, b"", Some(Words::Part(name)));
    for lasting in page.program {
        if let Lasting::Code(procedure) = lasting
            && !in_procedure(procedure, at, name).is_other_vector
        {
            seek(&mut search, procedure);
        }
    }
    search
}

/// Whether one of the first destinations is this, of those in the procedure that is active that have a name.
fn is_here<'a>(page: &Page<'_, 'a>, destination: &Expr, name: &'a [u8]) -> bool {
    let Some(names) = page.names else {
        return false;
    };
    let mut search = Search::sought(Position::first(), b"", Some(Words::Part(name)));
    seek(&mut search, names.procedure);
    let Search {
        first_word,
        second_word,
        ..
    } = search;
    is_at(first_word, destination) || is_at(second_word, destination)
}

/// Whether an expression is where another is.
fn is_at(word: Option<&Expr>, destination: &Expr) -> bool {
    match word {
        Some(expr) => expr.at() == destination.at(),
        None => false,
    }
}

/// Whether what is before `!` in a destination is a number, and a name after it is the address.
fn is_index<'a>(page: &Page<'_, 'a>, destination: &Expr, left: &Expr, name: &'a [u8]) -> bool {
    page.is_constant(left)
        || matches!(page.known(left), Some(Worth::Number(_))) && is_here(page, destination, name)
}

/// Whether a name leads to a destination: it is before the `!`, or what is before that is a number.
fn is_part_of<'a>(page: &Page<'_, 'a>, destination: &Expr, name: &'a [u8]) -> bool {
    match destination {
        Expr::Binary {
            operator: Operator::Subscript,
            left,
            ..
        } => match &**left {
            Expr::Name { letters, .. } if letters.as_slice() == name => true,
            _ => is_index(page, destination, left, name),
        },
        _ => true,
    }
}

/// The name that leads to a word of a vector, and where the text sets words or bytes by it, if it does.
fn parts_named<'a>(
    page: &Page<'_, 'a>,
    base: Option<Operand>,
    at: Position,
) -> Option<(&'a [u8], Search<'a>)> {
    let name = page.names?.spelled(name_of(base?)?)?;
    let found = parts_set(page, at, name);
    if found.words_set.count == 0 {
        return None;
    }
    Some((name, found))
}

/// Adds where the text sets words or bytes of a vector, of which another was never set: by the name that leads to it, or else by its own.
/// It says nothing where there are more places than two.
pub fn say_parts_set(page: &mut Page, base: Option<Operand>, object: u64) {
    if let Object::Made(made) = page.object(object)
        && matches!(made.kind, Kind::Vector)
    {
        say_parts_of(page, base, made);
    }
}

/// The same of a vector that the source makes here.
fn say_parts_of<'a>(page: &mut Page<'_, 'a>, base: Option<Operand>, made: Made<'a>) {
    match parts_named(page, base, made.at) {
        Some((name, found)) => say_parts(page, name, &found),
        None => {
            let found = parts_set(page, made.at, made.name);
            say_parts(page, made.name, &found);
        }
    }
}

/// Adds where a word or a byte is set.
fn say_part(page: &mut Page, word: &Expr, number: u32) {
    page.say(&[b"; "]);
    page.say_expr(word);
    page.say(&[b" is set on line "]);
    page.say_number(number as usize);
}

/// Adds where a second one is set, which is perhaps written as the first is.
fn say_second_part(page: &mut Page, first: &Expr, second: &Expr, number: u32) {
    let before = page.spelled(first);
    let spelled = page.spelled(second);
    if before.as_slice() == spelled.as_slice() {
        page.say(&[b" and on line "]);
    } else {
        page.say(&[b", and ", &spelled, b" on line "]);
    }
    page.say_number(number as usize);
}

/// Adds the lines, two at most, where words or bytes are set that a name leads to.
fn say_parts<'a>(page: &mut Page<'_, 'a>, name: &'a [u8], found: &Search) {
    let (Some(setter), Some(first)) = (found.words_set.first, found.first_word) else {
        return;
    };
    if found.words_set.count > 2 || !is_part_of(page, first, name) {
        return;
    }
    match (found.words_set.second, found.second_word) {
        (Some(last), Some(second)) => {
            if !is_part_of(page, second, name) {
                return;
            }
            say_part(page, first, setter.line);
            say_second_part(page, first, second, last.line);
        }
        _ if setter.line == page.at.line().number() => {}
        _ => say_part(page, first, setter.line),
    }
}
