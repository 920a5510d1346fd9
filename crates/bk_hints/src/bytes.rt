//! What is reported of a text that can't be cut into symbols.

use crate::sentence::Reported;
use bk_base::SourceKind;
use bk_lex::LexicalFault;
use bk_lines::line_start;
use std::alloc::{AllocError, Global};

/// What is reported of a byte that begins no symbol; some are of other languages and systems.
fn byte_says(byte: u8) -> &'static str {
    match byte {
        b'_' => "names have letters, digits and dots: `A.NAME` serves for `A_NAME`",
        b'\\' =>
            "`\\` begins no sign: `|` is or (`\\/`), `&` is and (`/\\`), `~` is not, `~=` is unequal (`\\=`)",
        b'{' => "`$(` opens a section here, and `{` begins no symbol; a blank has to follow `$(`",
        b'}' => "`$)` closes a section here, and `}` begins no symbol",
        b'[' => "`V!I` is the word I of a vector V; `[` begins no symbol",
        b']' => "`V!I` is the word I of a vector V; `]` begins no symbol",
        b'^' => "`NEQV` is exclusive or; `^` begins no symbol",
        26 => "a byte 26 (^Z) ends a file of CP/M; here it is left out",
        b'`' => "a backquote begins no symbol; `'` encloses a character, and `\"` a string",
        128.. => "bytes from 128 on are only for comments, strings and character constants",
        0..=31 | 127 => "this control byte begins no symbol",
        _ => "this byte begins no symbol",
    }
}

/// What is reported of a `#` or `$` with this byte after it, which goes on with neither.
fn sign_says(sign: u8, byte: u8) -> Option<&'static str> {
    match (sign, byte) {
        (b'#', b'B' | b'b') => Some(
            "numbers are decimal, `#` octal or `#X` hexadecimal; `#B` is left out",
        ),
        (b'#', b'O' | b'o') => Some("`#` alone begins an octal number; `#O` is left out"),
        (b'#', b'A'..=b'Z' | b'a'..=b'z') => Some(
            "`#` begins an octal number, and `#X` a hexadecimal one; GET and MANIFEST serve for `#include` and `#define`",
        ),
        (b'#' | b'X' | b'x', _) => Some("`#` has octal digits after it, and `#X` hexadecimal ones"),
        (b'$', _) => Some("`$` begins `$(` and `$)` alone"),
        _ => None,
    }
}

/// Whether a `\` is before a `"`, or after a `\"` of its line.
fn is_escape(text: &[u8], at: usize) -> bool {
    if text.get(at.saturating_add(1)) == Some(&b'"') {
        return true;
    }
    let line = text.get(line_start(text, at)..at).unwrap_or(b"");
    line.windows(2).any(|pair| matches!(pair, b"\\\""))
}

/// What is reported of a bad byte.
fn hint_byte(alloc: Global, text: &[u8], fault: &LexicalFault) -> Result<Reported, AllocError> {
    let at = fault.byte;
    let byte = text.get(at).copied();
    if byte == Some(b'\\') && is_escape(text, at) {
        return Reported::new(
            alloc,
            Some(at),
            "`\\` begins no escape, so the string ended at the `\"`: `*\"` is a quote in a string, and `*N` the end of a line",
        );
    }
    if fault.piece < at {
        let last = text.get(at.saturating_sub(1)).copied().unwrap_or(b' ');
        if let Some(says) = sign_says(last, byte.unwrap_or(b' ')) {
            return Reported::new(alloc, Some(at.saturating_sub(1)), says);
        }
    }
    if at == 0 && byte == Some(0xEF) {
        return Reported::new(
            alloc,
            Some(0),
            "perhaps a byte order mark, which editors put before a text; here it is left out",
        );
    }
    let says = match byte {
        Some(byte) => byte_says(byte),
        None => "a symbol is not whole at the end of the text",
    };
    Reported::new(alloc, Some(at), says)
}

/// What is reported of a character constant that begins here.
fn character_says(text: &[u8], start: usize) -> &'static str {
    match text.get(start.saturating_add(1)).copied() {
        Some(b'\'') => "a character constant has one byte between its `'`s",
        Some(b'\n' | b'\r') | None => "a character constant has one byte and another `'`",
        Some(128..) =>
            "a character constant has one byte; this letter has several, as strings may have",
        Some(_) => "a character constant has one byte and then `'`; `\"` encloses a string",
    }
}

/// What is reported of a string or character constant that is not whole.
fn string_says(text: &[u8], fault: &LexicalFault) -> &'static str {
    if text.get(fault.piece).copied() == Some(b'\'') {
        character_says(text, fault.piece)
    } else if matches!(text.get(fault.byte).copied(), None | Some(b'\n' | b'\r')) {
        "this string has no `\"` at its end; a string ends on its line"
    } else {
        "this string has more than 255 bytes"
    }
}

/// What is reported of a text that can't be cut into symbols.
pub fn hint_bytes(
    alloc: Global,
    text: &[u8],
    fault: &LexicalFault,
) -> Result<Reported, AllocError> {
    let (at, says) = match fault.fault.kind {
        SourceKind::BadByte => return hint_byte(alloc, text, fault),
        SourceKind::BadString => (fault.piece, string_says(text, fault)),
        SourceKind::BadEscape => (
            fault.byte.saturating_sub(1),
            "`*` begins an escape: `*N *T *S *B *P *C *' *\"`, and `**` is an asterisk",
        ),
        SourceKind::NumberOver32Bits => (
            fault.piece,
            "a number is at most 4294967295, or `#XFFFFFFFF`",
        ),
        SourceKind::NameTooLong => (fault.piece, "a name has at most 255 bytes"),
        SourceKind::TagTooLong => (fault.byte, "the tag of a section has at most 255 bytes"),
        SourceKind::BadGet if text.get(fault.piece).copied() == Some(b'"') => (
            fault.piece,
            "`GET \"LIBHDR\"` and `GET \"LIBHDR2\"` are all that GET takes; `tools/join` puts files together",
        ),
        SourceKind::BadGet => (
            fault.piece,
            "GET takes a string: `GET \"LIBHDR\"` or `GET \"LIBHDR2\"`",
        ),
        _ => (
            fault.byte,
            "a section has at most 1048576 bytes and 262144 symbols; a `.` and another section split it",
        ),
    };
    Reported::new(alloc, Some(at), says)
}
