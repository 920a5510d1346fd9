//! What is wrong with a word or a byte of an object.

use crate::made::Made;
use crate::operands::{Operand, bare, say_dead, say_fault_of};
use crate::parts::say_parts_set;
use crate::setting::say_setting;
use crate::sought::Kind;
use crate::values::{Object, Page};
use bk_base::word;
use bk_lasting::GLOBALS_OBJECT;
use bk_objects::{Cell, Origin, Worth, read_byte};
use bk_tree::{Expr, Prefix};

/// Adds which words, or bytes, an object of this size has.
pub fn say_extent(page: &mut Page, what: &[u8], size: usize) {
    match size {
        0 => page.say(&[b", which has no words"]),
        1 => page.say(&[b", which has one ", what, b", 0"]),
        _ => {
            page.say(&[b", which has ", what, b"s 0 to "]);
            page.say_number(size.saturating_sub(1));
        }
    }
}

/// Adds which bytes of a word are set.
pub fn say_partly(page: &mut Page, bytes: [bool; 4]) {
    page.say(&[b", of which only"]);
    let mut before: &[u8] = b" byte ";
    for (i, is_set) in bytes.iter().enumerate() {
        if *is_set {
            page.say(&[before]);
            page.say_number(i);
            before = b" and byte ";
        }
    }
    let count = bytes.iter().filter(|is_set| **is_set).count();
    page.say(&[if count == 1 {
        b" was set"
    } else {
        b" were set"
    }]);
}

/// Adds that there is no value, and why.
fn say_unset(page: &mut Page, relative: &[u8], origin: Origin) {
    match origin {
        Origin::Never => page.say(&[relative, b" was never set"]),
        _ => {
            page.say(&[relative, b" has no value: "]);
            page.say_origin(origin);
        }
    }
}

/// Adds where another procedure makes a vector that a word or a byte is behind.
fn say_made(page: &mut Page, object: u64, number: u32) {
    if let Object::Made(made) = page.object(object)
        && matches!(made.kind, Kind::Vector)
        && number.cast_signed() >= 0
        && !page.is_here(made.procedure)
    {
        page.say(&[b"; ", made.name, b" is made on line "]);
        page.say_number(made.at.line().number() as usize);
    }
}

/// Adds what is wrong with a cell of an object that lives; `relative` is what joins a sentence to it.
fn say_state(page: &mut Page, base: Option<Operand>, object: u64, offset: u32, relative: &[u8]) {
    match page.m.store.cell(object, offset) {
        None => {
            say_extent(page, b"word", page.m.store.size(object).unwrap_or(0));
            say_made(page, object, offset);
        }
        Some(Cell::Places(a, b, c, d)) => say_partly(
            page,
            [a.is_some(), b.is_some(), c.is_some(), d.is_some()],
        ),
        Some(Cell::Holds(x)) => match x {
            Worth::Unset(origin) => {
                say_unset(page, relative, origin);
                say_set_words(page, base, object);
            }
            _ => page.say(&[b", which can't be used here"]),
        },
    }
}

/// What joins a sentence to an object that it named or not.
fn relative(is_called: bool) -> &'static [u8] {
    if is_called { b"" } else { b", which" }
}

/// Whether an expression is what an object is called.
fn is_called(page: &Page, expr: &Expr, object: u64) -> bool {
    let Expr::Name { letters, .. } = bare(expr) else {
        return matches!(bare(expr), Expr::Text { .. } | Expr::Table { .. });
    };
    match page.object(object) {
        Object::Made(made) => matches!(made.kind, Kind::Vector) && letters.as_slice() == made.name,
        Object::Table => match page.table_name(object) {
            Some(made) => letters.as_slice() == made.name,
            None => true,
        },
        Object::String(_) | Object::Unknown => true,
        Object::Globals | Object::Static(_) | Object::Entry(_) => false,
    }
}

/// Whether an expression is the address of a name.
fn is_address(expr: &Expr) -> bool {
    matches!(
        bare(expr),
        Expr::Unary {
            prefix: Prefix::Address,
            ..
        }
    )
}

/// Adds which address an operand is, unless its expression says it. True says that the object is called by that expression.
fn say_base(page: &mut Page, base: Option<Operand>) -> bool {
    if let Some(operand) = base
        && let Some(written) = operand.expr
        && let Worth::Address(offset, object) = operand.value
    {
        if offset == 0 && is_called(page, written, object) {
            return true;
        }
        if !is_address(written) {
            page.say_is(written, operand.value);
            page.say(&[b", and "]);
        }
    }
    false
}

/// Adds how a byte is written: as an expression, or as the byte with this number of an operand.
fn say_byte_of(page: &mut Page, expr: Option<&Expr>, base: Operand, number: u32) {
    if let Some(expr) = expr {
        page.say_expr(expr);
        return;
    }
    match base.expr {
        Some(Expr::Name { letters, .. }) => page.say(&[letters, b"%"]),
        _ => page.say(&[b"its byte "]),
    }
    page.say_word(number);
}

/// Adds the name of an object, or the expression that it is called by.
fn say_owner(page: &mut Page, base: Option<Operand>, object: u64, is_called: bool) {
    if is_called
        && let Some(operand) = base
        && let Some(written) = operand.expr
    {
        page.say_expr(bare(written));
        return;
    }
    page.say_object(object);
}

/// Adds that the object of a cell is gone, to which an expression leads.
fn say_dead_cell(page: &mut Page, expr: &Expr, base: Option<Operand>, object: u64, offset: u32) {
    let Some(operand) = base else {
        page.say_gone(object, offset);
        page.say(&[b", and "]);
        page.say_expr(expr);
        page.say(&[b" is in it"]);
        return;
    };
    let place = match operand.value {
        Worth::Address(place, _) => place,
        _ => offset,
    };
    say_dead(page, operand, object, place);
}

/// Adds which word of an object a cell is; nothing where the object is a variable of one word.
fn say_place(page: &mut Page, base: Option<Operand>, object: u64, offset: u32, is_called: bool) {
    if page.say_formal_name(object, offset) {
        return;
    }
    if object == GLOBALS_OBJECT && page.m.store.cell(object, offset).is_some() {
        page.say_global(offset);
        return;
    }
    if offset != 0 || !is_variable(page, object) {
        page.say(&[b"word "]);
        page.say_word(offset);
        page.say(&[b" of "]);
    }
    say_owner(page, base, object, is_called);
}

/// Adds what is wrong with the cell at an address, to which an expression leads.
pub fn say_cell(page: &mut Page, expr: &Expr, base: Option<Operand>, object: u64, offset: u32) {
    if page.is_dead(object) {
        say_dead_cell(page, expr, base, object, offset);
        return;
    }
    let is_called = say_base(page, base);
    if !is_called {
        page.say_expr(expr);
        page.say(&[b" is "]);
    }
    say_place(page, base, object, offset, is_called);
    say_state(page, base, object, offset, relative(is_called));
    if matches!(page.object(object), Object::String(_)) {
        page.say(&[b"; `!` gives words, and `%` the bytes of a string"]);
    }
    say_base_setting(page, base);
}

/// Adds where an operand got its value that is the address of a word inside an object.
fn say_base_setting(page: &mut Page, base: Option<Operand>) {
    if let Some(operand) = base
        && matches!(operand.value, Worth::Address(1.., _))
    {
        say_setting(page, operand);
    }
}

/// The words of a vector that are set: how many, the first and the last.
fn set_words(page: &Page, object: u64, size: u32) -> (u32, u32, u32) {
    let mut count: u32 = 0;
    let mut first = 0;
    let mut last = 0;
    for i in 0..size {
        if !matches!(
            page.m.store.cell(object, i),
            Some(Cell::Holds(Worth::Unset(_)))
        ) {
            if count == 0 {
                first = i;
            }
            last = i;
            count = count.saturating_add(1);
        }
    }
    (count, first, last)
}

/// Adds which words of a vector are set, of which another is not, and where.
fn say_set_words(page: &mut Page, base: Option<Operand>, object: u64) {
    let Object::Made(
        Made {
            kind: Kind::Vector,
            ..
        },
    ) = page.object(object)
    else {
        return;
    };
    let size = page.m.store.size(object).unwrap_or(0);
    if size < 2 {
        return;
    }
    let (count, first, last) = set_words(page, object, u32::try_from(size).unwrap_or(u32::MAX));
    if count == 0 {
        page.say(&[b", nor was any other"]);
        return;
    }
    say_range(page, size, (count, first, last));
    say_parts_set(page, base, object);
}

/// Adds which words of a vector of this size are set: how many, the first and the last.
fn say_range(page: &mut Page, size: usize, set: (u32, u32, u32)) {
    let (count, first, last) = set;
    if last.saturating_sub(first) >= count {
        page.say(&[b"; "]);
        page.say_word(count);
        page.say(&[b" of its "]);
        page.say_number(size);
        page.say(&[b" words were"]);
        return;
    }
    if count == 1 {
        page.say(&[b"; word "]);
        page.say_word(first);
        page.say(&[b" was"]);
        return;
    }
    page.say(&[b"; words "]);
    page.say_word(first);
    page.say(&[b" to "]);
    page.say_word(last);
    page.say(&[b" were"]);
}

/// Whether an object is a variable.
fn is_variable(page: &Page, object: u64) -> bool {
    match page.object(object) {
        Object::Made(made) => matches!(made.kind, Kind::Variable),
        Object::Static(_) => true,
        _ => false,
    }
}

/// Adds the length of the string that is at an address, if its byte 0 is set.
pub fn say_length(page: &mut Page, at: Worth) {
    match read_byte(&page.m.store, at, Worth::Number(0)) {
        Ok(length) => {
            page.say(&[b"; byte 0, the length of the string, is "]);
            page.say_number(usize::from(length));
        }
        Err(_) => {}
    }
}

/// Adds which bytes an object has, and the length of a string.
fn say_beyond_bytes(page: &mut Page, at: Worth, object: u64) {
    let size = page.m.store.size(object).unwrap_or(0).saturating_mul(4);
    say_extent(page, b"byte", size);
    if page.is_text(at) {
        say_length(page, Worth::Address(0, object));
    }
}

/// Adds what is wrong with a byte of the words from an address on, to which an expression leads, or the operand alone.
pub fn say_byte(page: &mut Page, expr: Option<&Expr>, base: Operand, at: Worth, number: u32) {
    let Worth::Address(offset, object) = at else {
        return;
    };
    if say_fault_of(page, base) {
        return;
    }
    let is_called = say_base(page, Some(base));
    if !is_called {
        say_byte_of(page, expr, base, number);
        page.say(&[b" is "]);
    }
    page.say(&[b"byte "]);
    page.say_word(word::sum(word::product(4, offset), number));
    page.say(&[b" of "]);
    say_owner(page, Some(base), object, is_called);
    let cell = word::sum(offset, word::distance_of_byte(number));
    match page.m.store.cell(object, cell) {
        None => {
            say_beyond_bytes(page, at, object);
            say_made(page, object, number);
        }
        Some(Cell::Places(_, _, _, _)) => {
            say_unset(page, relative(is_called), Origin::Never);
            say_parts_set(page, Some(base), object);
        }
        Some(Cell::Holds(x)) => match x {
            Worth::Unset(origin) => {
                say_unset(page, relative(is_called), origin);
                say_parts_set(page, Some(base), object);
            }
            _ => {
                page.say(&[b", where the word is no number: it is "]);
                if matches!(x, Worth::Address(_, _)) && !page.is_text(x) {
                    page.say(&[b"the address "]);
                }
                page.say_value(x);
            }
        },
    }
}
