//! Runs of bytes in a slice, which the machine takes alike.
ghost use Rattle.std.specs.Prelude.{ℕ, ◌≡◌, ◌<◌, ◌≤◌, true, length, get_or, slice_range};
ghost use Rattle.bk_lex.specs.Bytes.{is_name_byte};
ghost use Rattle.bk_lex.specs.Reserved.{code_from};
ghost use Rattle.bk_lex.specs.Runs.{is_in_run};

use crate::machine::is_name_byte;
use crate::reserved::longer_code;

/// What a run is of.
#[derive(Clone, Copy)]
pub(crate) enum Run {
    /// Spaces.
    Spaces,
    /// The bytes of a comment.
    Comment,
    /// The bytes that a string holds as they are.
    Text,
}

/// Whether a byte is in such a run.
#[inline(always)]
fn is_in_run(run: Run, byte: u8) -> bool
    ensures { result ≡ is_in_run run byte }
{
    match run {
        Run::Spaces => byte == b' ',
        Run::Comment => byte != b'\n',
        Run::Text => byte != b'\n' && byte != b'\r' && byte != b'"' && byte != b'*',
    }
}

/// The place after a run, which begins at one place and ends at another at the latest.
#[inline(always)]
pub(crate) fn after_run(bytes: &[u8], from: usize, to: usize, run: Run) -> usize
    requires { (from ≤ to) × (to ≤ length bytes.now) }
    ensures within { (from ≤ result) × (result ≤ to) }
    ensures run { (k : ℕ) → from ≤ k → k < result → is_in_run run (get_or bytes.now k 0) ≡ true }
{
    let mut at = from;
    while at < to && is_in_run(run, bytes[at]) {
        at += 1;
    }
    at
}

/// Bytes that go on with a word.
#[derive(Clone, Copy)]
pub(crate) struct Rest {
    /// The place after them.
    pub(crate) end: usize,
    /// The code of the word with them.
    pub(crate) code: u64,
}

/// The bytes from a place on, up to another, that go on with a word of this code.
#[inline(always)]
pub(crate) fn rest_of_word(bytes: &[u8], from: usize, to: usize, code: u64) -> Rest
    requires { (from ≤ to) × (to ≤ length bytes.now) }
    ensures within { (from ≤ result.end) × (result.end ≤ to) }
    ensures run { (k : ℕ) → from ≤ k → k < result.end → is_name_byte (get_or bytes.now k 0) ≡ true }
    ensures code { result.code ≡ code_from code (slice_range bytes.now from result.end) }
{
    let mut at = from;
    let mut code = code;
    while at < to && is_name_byte(bytes[at]) {
        code = longer_code(code, bytes[at]);
        at += 1;
    }
    Rest { end: at, code }
}
