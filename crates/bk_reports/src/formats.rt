//! What is suspicious in calls of WRITEF.

use crate::remarks::{Found, is_own, make_remark};
use bk_tree::{Expr, Position};
use itoa::Buffer;
use std::alloc::Global;

/// How many bytes of a format belong to the directive that `%` and the bytes after it are, besides the `%`; none where WRITEF writes
/// the `%` as it is.
fn directive(after: &[u8]) -> Option<usize> {
    match after {
        [b'%' | b'S' | b's' | b'N' | b'n' | b'C' | b'c', ..] => Some(1),
        [b'I' | b'i', digit, ..] if digit.is_ascii_digit() => Some(2),
        _ => None,
    }
}

/// The byte after the first `%` of a format that WRITEF writes as it is.
fn plain_percent(format: &[u8]) -> Option<u8> {
    let mut skipped = 0;
    for (i, byte) in format.iter().enumerate() {
        if skipped > 0 {
            skipped -= 1;
        } else if *byte == b'%' {
            let after = format.get(i + 1..)?;
            skipped = match directive(after) {
                Some(bytes) => bytes,
                None => return after.first().copied(),
            };
        }
    }
    None
}

/// How many arguments the directives of a format take.
pub fn directives(format: &[u8]) -> usize {
    let mut count: usize = 0;
    let mut skipped = 0;
    for (i, byte) in format.iter().enumerate() {
        if skipped > 0 {
            skipped -= 1;
        } else if *byte == b'%' {
            let after = format.get(i + 1..).unwrap_or(&[]);
            if let Some(bytes) = directive(after) {
                skipped = bytes;
                if !matches!(after, [b'%', ..]) {
                    count = count.saturating_add(1);
                }
            }
        }
    }
    count
}

/// A call of WRITEF with more arguments than its format has directives.
fn in_arguments(alloc: Global, found: &mut Found, at: Position, format: &[u8], given: usize) {
    let wanted = directives(format);
    if given <= wanted {
        return;
    }
    let mut first = Buffer::new();
    let mut second = Buffer::new();
    make_remark(
        alloc,
        found,
        at,
        &[
            b"the directives of this format take ",
            first.format(wanted).as_bytes(),
            if wanted == 1 {
                b" argument"
            } else {
                b" arguments"
            },
            b", and ",
            second.format(given).as_bytes(),
            if given == 1 {
                b" follows it"
            } else {
                b" follow it"
            },
        ],
    );
}

/// A call of WRITEF with a `%` that it writes as it is, or with too many arguments.
pub fn in_format(
    alloc: Global,
    found: &mut Found,
    at: Position,
    callee: &Expr,
    arguments: &[Expr],
) {
    let Expr::Name { letters: name, .. } = callee else {
        return;
    };
    let [Expr::Text { bytes: format, .. }, given @ ..] = arguments else {
        return;
    };
    if name.as_slice() != b"WRITEF".as_slice() || is_own(found, name) {
        return;
    }
    match plain_percent(format) {
        None => in_arguments(alloc, found, at, format, given.len()),
        Some(letter) if letter.is_ascii_graphic() => make_remark(
            alloc,
            found,
            at,
            &[
                b"`WRITEF` writes `%",
                &[letter],
                b"` as it is; it knows `%S`, `%N`, `%C`, `%I0` to `%I9` and `%%`",
            ],
        ),
        _ => {}
    }
}
