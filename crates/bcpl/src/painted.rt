//! The error stream, which a terminal may show.
ghost use Rattle.std.specs.Prelude.{◌≡◌, None, OnErr, if◌then◌else◌, is_err, IsErr};
ghost use Rattle.std.proofs.Common.{rules};
ghost use Rattle.std.specs.Io.KnownBytes.{Keeps};

use bk_base::{ByteOut, Failed, put_all};
use std::alloc::Global;
use std::cell::Cell;

/// How many bytes of a line are held at most. A longer line has no colours.
const HELD: usize = 4096;

/// What a terminal is sent so that what follows is plain, bold, or bold in red, green or magenta.
const PLAIN: &[u8] = b"\x1b[0m";

const BOLD: &[u8] = b"\x1b[1m";

const RED: &[u8] = b"\x1b[1;31m";

const GREEN: &[u8] = b"\x1b[1;32m";

const MAGENTA: &[u8] = b"\x1b[1;35m";

/// An error stream. Where a terminal shows it, what is written after output begins a new line, and places, kinds and carets have colours. It
/// holds a line up to its end then.
#[derive(Drop)]
pub struct Painted<'a, E> {
    err: E,
    is_shown: bool,
    has_colours: bool,
    /// Whether the terminal shows the output, and that ends within a line.
    is_within_line: &'a Cell<bool>,
    line: Vec<u8>,
}

/// The number of digits at the start of these bytes.
fn digits(bytes: &[u8]) -> usize {
    match bytes.iter().position(|byte| !byte.is_ascii_digit()) {
        Some(count) => count,
        None => bytes.len(),
    }
}

/// How many bytes `:LINE:COLUMN: ` or `:LINE: ` has, where these bytes begin with it.
fn place(bytes: &[u8]) -> Option<usize> {
    let line = digits(bytes.get(1..)?);
    let after = line.saturating_add(1);
    if bytes.first() != Some(&b':') || line == 0 {
        return None;
    }
    let rest = bytes.get(after..)?;
    let column = match rest.first() {
        Some(b':') => digits(rest.get(1..)?),
        _ => 0,
    };
    let end = if column == 0 {
        after
    } else {
        after.saturating_add(column).saturating_add(1)
    };
    if bytes.get(end..)?.starts_with(b": ") {
        Some(end.saturating_add(2))
    } else {
        None
    }
}

/// How many bytes the name of a file and a place have, where a line begins with these.
fn head(line: &[u8]) -> usize {
    if line.first() == Some(&b' ') {
        return 0;
    }
    for (at, byte) in line.iter().enumerate() {
        if *byte == b':' {
            if let Some(length) = place(line.get(at..).unwrap_or(&[])) {
                return at.saturating_add(length);
            }
        }
    }
    0
}

/// The word for the kind of what is reported that these bytes begin with, and its colour.
fn kind(bytes: &[u8]) -> (usize, &'static [u8]) {
    for (word, colour) in [("undefined:", RED), ("suspicious:", MAGENTA)] {
        if bytes.starts_with(word.as_bytes()) {
            return (word.len(), colour);
        }
    }
    (0, PLAIN)
}

/// The place of the caret in a line that has nothing else but blanks and a bar.
fn caret(line: &[u8]) -> Option<usize> {
    let is_plain = |byte: &u8| matches!(*byte, b' ' | b'\t' | b'|' | b'^');
    if line.iter().all(is_plain) {
        line.iter().position(|byte| *byte == b'^')
    } else {
        None
    }
}

/// Puts a line, without its end, in colours.
fn put_painted<E: ByteOut>(line: &[u8], err: &mut E) -> Result<(), Failed>
    ensures failures { OnErr result (E.faults err.new ≡ 1) }
    ensures none { E.faults err.old ≡ 0 → E.faults err.new ≡ (if is_err result then 1 else 0) }
{
    if let Some(at) = caret(line) {
        let (blanks, rest) = line.split_at_checked(at).unwrap_or((line, &[]));
        put_all(err, blanks)?;
        put_all(err, GREEN)?;
        put_all(err, rest)?;
        return put_all(err, PLAIN);
    }
    let (place, rest) = line.split_at_checked(head(line)).unwrap_or((&[], line));
    if !place.is_empty() {
        let (length, colour) = kind(rest);
        let (word, what) = rest.split_at_checked(length).unwrap_or((&[], rest));
        put_all(err, BOLD)?;
        put_all(err, place)?;
        put_all(err, colour)?;
        put_all(err, word)?;
        put_all(err, PLAIN)?;
        return put_all(err, what);
    }
    put_all(err, line)
}

impl<'a, E: ByteOut> Painted<'a, E> {
    /// The error stream `err`, which a terminal shows or not, and in colours or not.
    pub fn new(
        alloc: Global,
        err: E,
        is_shown: bool,
        has_colours: bool,
        is_within_line: &'a Cell<bool>,
    ) -> Painted<'a, E> {
        Painted {
            err,
            is_shown,
            has_colours,
            is_within_line,
            line: Vec::new(alloc),
        }
    }

    /// Puts what is held of a line.
    fn put_held(&mut self) -> Result<(), Failed>
        ensures shown { self.new.is_shown ≡ self.old.is_shown }
        ensures failed { OnErr result (E.faults self.new.err ≡ 1) }
        ensures none { E.faults self.old.err ≡ 0 → E.faults self.new.err ≡ (if is_err result then 1 else 0) }
    {
        if self.is_within_line.get() {
            self.is_within_line.set(false);
            self.err.put(b'\n')?;
        }
        let put = if self.has_colours {
            put_painted(&self.line, &mut self.err)
        } else {
            put_all(&mut self.err, &self.line)
        };
        self.line.clear();
        put
    }

    /// Takes a byte that a terminal shows.
    #[cold]
    #[inline(never)]
    fn put_shown(&mut self, byte: u8) -> Result<(), Failed>
        ensures shown { self.new.is_shown ≡ self.old.is_shown }
        ensures failures { E.faults self.new.err ≡ (if is_err result then 1 else 0) }
        ensures failed_again { E.faults self.old.err ≡ 1 → IsErr result }
    {
        if self.err.failures() > 0 {
            return Err(Failed);
        }
        if byte != b'\n' && self.line.len() < HELD && self.line.push(byte).is_ok() {
            return Ok(());
        }
        self.put_held()?;
        self.err.put(byte)
    }
}

impl<E: ByteOut> ByteOut for Painted<'_, E> {
    // (what a terminal shows has more than was put)
    ghost taken = { λ s. if s.is_shown then None else E.taken s.err };

    ghost passed = { λ s. if s.is_shown then None else E.passed s.err };

    ghost faults = { λ s. E.faults s.err };

    fn put(&mut self, byte: u8) -> Result<(), Failed> {
        if self.is_shown {
            return self.put_shown(byte);
        }
        self.err.put(byte)
    }

    fn flush(&mut self) -> Result<(), Failed> {
        if self.is_shown && !self.line.is_empty() && self.err.failures() == 0 {
            self.put_held()?;
        }
        self.err.flush()
    }

    fn failures(&self) -> u32 {
        self.err.failures()
    }

    ghost one_failure = { λ s. E.one_failure s.err };

    ghost passed_first = { λ s. Prim.grind (rules, E.passed_first s.err) };
}
