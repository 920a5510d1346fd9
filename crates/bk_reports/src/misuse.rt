//! Why a call of a routine of the library is undefined.

use crate::formats::directives;
use crate::made::arguments_at;
use crate::operands::{Operand, say_fault_of, say_operand, say_uncalled, written};
use crate::operations::{say_beside, say_index};
use crate::setting::say_setting;
use crate::spelling::{add_directive, routine_name};
use crate::text::Text;
use crate::values::Page;
use crate::words::{say_byte, say_length};
use bk_objects::{FormatPart, Origin, Reason, Routine, Worth};
use bk_tree::{Expr, Position};

/// An argument of a routine of the library: its number, from 1, and the directive that takes it, if one does.
#[derive(Clone, Copy)]
struct Wanted {
    routine: Routine,
    argument: usize,
    directive: Option<FormatPart>,
}

/// Adds which argument it is.
fn say_which(page: &mut Page, wanted: Wanted) {
    page.say(&[b"argument "]);
    page.say_number(wanted.argument);
    page.say(&[b" of ", routine_name(wanted.routine)]);
    if let Some(part) = wanted.directive {
        page.say(&[b", for "]);
        add_directive(&mut page.text, part);
    }
}

/// Adds what a sentence goes on with after the argument.
fn say_of_it(page: &mut Page, wanted: Wanted, what: &[u8]) {
    let comma: &[u8] = if wanted.directive.is_some() {
        b","
    } else {
        b""
    };
    page.say(&[comma, what]);
}

/// Adds what helps where a routine has a value of another kind.
fn say_other_routine(page: &mut Page, wanted: Wanted, x: Worth) {
    let is_number = matches!(x, Worth::Number(_));
    let is_string = page.is_text(x);
    page.say(&[match (wanted.routine, wanted.directive) {
        (Routine::Writes, _) if is_number => {
            b"; `WRCH` writes a byte, and `WRITEN` a number".as_slice()
        }
        (Routine::Writef, None) if is_number => b"; `WRITEN` writes a number",
        (Routine::Writef, Some(_)) if is_number => b"; `%N` writes a number, and `%C` a byte",
        (Routine::Writen | Routine::Wrch, _) if is_string => b"; `WRITES` writes a string",
        (Routine::Writef, Some(_)) if is_string => b"; `%S` writes a string",
        _ => b"",
    }]);
}

/// Adds what a string has to do with its byte that is not there.
fn say_missing_length(page: &mut Page, routine: Routine, at: Worth, number: u32) {
    if !matches!(routine, Routine::Writes | Routine::Writef) || page.is_text(at) {
        return;
    }
    if number == 0 {
        page.say(&[b"; byte 0 is the length of the string"]);
        return;
    }
    say_length(page, at);
}

/// Adds what is wrong with the byte with this number of the words from an address on, which an argument leads to.
fn say_missing_byte(page: &mut Page, wanted: Wanted, operand: Operand, at: Worth, number: u32) {
    say_which(page, wanted);
    page.say(&[b": "]);
    if say_fault_of(page, operand) {
        return;
    }
    if operand.expr.is_none() {
        return;
    }
    say_byte(page, None, operand, at, number);
    say_missing_length(page, wanted.routine, at, number);
}

/// Adds that an argument has a value of another kind.
fn say_other_kind(page: &mut Page, wanted: Wanted, operand: Operand, reason: Reason) {
    say_which(page, wanted);
    let kind: &[u8] = match reason {
        Reason::NoAddress(_) => match wanted.routine {
            Routine::Getbyte | Routine::Putbyte => b" is to be an address: ",
            _ => b" is to be a string: ",
        },
        _ => b" is to be a number: ",
    };
    say_of_it(page, wanted, kind);
    if say_fault_of(page, operand) {
        return;
    }
    say_operand(page, operand);
    if matches!(reason, Reason::NoNumber(_)) {
        say_uncalled(page, operand);
    }
    say_other_routine(page, wanted, operand.value);
    match (wanted.routine, wanted.directive) {
        (Routine::Wrch | Routine::Putbyte, _) | (_, Some(FormatPart::Character)) => {
            page.say_character(operand.value);
        }
        _ => {}
    }
    say_setting(page, operand);
}

/// Adds the order of the arguments, where the number of a byte is an address.
fn say_order(page: &mut Page, wanted: Wanted, x: Worth) {
    let order: &[u8] = match wanted.routine {
        Routine::Getbyte => b"; `GETBYTE(S, I)` is byte I of S",
        Routine::Putbyte if wanted.argument == 2 => b"; `PUTBYTE(S, I, B)` sets byte I of S to B",
        _ => return,
    };
    if let Worth::Address(_, _) = x {
        page.say(&[order]);
    }
}

/// The bytes of a format that a call has, or that a name of it means.
fn format_of(page: &mut Page, arguments: &[Expr]) -> Option<Vec<u8>> {
    let mut bytes = Text::new(page.m.alloc);
    match arguments.first()? {
        Expr::Text { bytes: written, .. } => bytes.add(written),
        format => {
            let value = page.known(format)?;
            if !page.is_text(value) {
                return None;
            }
            page.add_text(&mut bytes, value);
        }
    }
    Some(page.text.part(bytes))
}

/// Adds how many arguments the directives of a format take, and how many there are.
fn say_counts(page: &mut Page, arguments: &[Expr]) {
    let Some(format) = format_of(page, arguments) else {
        return;
    };
    let given = arguments.len().saturating_sub(1);
    let wanted = directives(&format);
    page.say(&[b"; the format takes "]);
    page.say_number(wanted);
    page.say(&[b", and "]);
    page.say_number(given);
    page.say(&[if given == 1 {
        b" follows it"
    } else {
        b" follow it"
    }]);
}

/// Adds the format, where it is not written in the call.
fn say_format(page: &mut Page, arguments: &[Expr]) {
    if let [format @ Expr::Name { .. }, ..] = arguments {
        if let Some(value) = page.known(format)
            && page.is_text(value)
        {
            page.say(&[b"; "]);
            page.say_is(format, value);
        }
    }
}

/// Adds why a routine of the library is undefined.
pub fn say_library(
    page: &mut Page,
    at: Position,
    routine: Routine,
    argument: usize,
    directive: Option<FormatPart>,
    reason: Reason,
) {
    let wanted = Wanted {
        routine,
        argument,
        directive,
    };
    let arguments = arguments_at(page.program, at).unwrap_or(&[]);
    let value = match reason {
        Reason::Argument => {
            say_which(page, wanted);
            say_of_it(page, wanted, b" is missing");
            if directive.is_some() {
                say_counts(page, arguments);
                say_format(page, arguments);
                return;
            }
            return;
        }
        Reason::NoNumber(x) | Reason::NoAddress(x) | Reason::NoByte(x) => x,
        Reason::Byte(_, at) => at,
        _ => Worth::Unset(Origin::Never),
    };
    let expr = arguments.get(argument.saturating_sub(1));
    let words: &[u8] = if expr.is_some() { b"" } else { b"it" };
    let operand = Operand { expr, words, value };
    match reason {
        Reason::Byte(number, at) => {
            say_missing_byte(page, wanted, operand, at, number);
            match (routine, arguments.get(1)) {
                (Routine::Getbyte | Routine::Putbyte, Some(index)) => {
                    say_index(page, written(index, Worth::Number(number)));
                    say_beside(page);
                }
                _ => {}
            }
        }
        _ => {
            say_other_kind(page, wanted, operand, reason);
            say_order(page, wanted, value);
        }
    }
}
