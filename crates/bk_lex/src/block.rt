//! The machine over the bytes of a slice, a run of bytes at a time.
ghost use Rattle.std.specs.Prelude.{ℕ, List, ◌≡◌, ◌<◌, ◌≤◌, ◌+◌, ◌^◌, ◌++◌, length, take, IfOk, ◌≢◌};
ghost use Rattle.bk_lex.specs.Found.{cut_after};
ghost use Rattle.bk_lex.specs.declared.cutter.Cut.TheVariants.{More};
ghost use Rattle.bk_lex.specs.declared.lexer.Progress.TheVariants.{Going, Stuck};
ghost use Rattle.bk_lex.specs.Lexers.{Marks, Goes, Progresses, parts, marks_of};

use crate::counting::{State, take_after_run};
use crate::lexer::{Pieces, Progress};
use crate::machine::{LONGEST, Mode};
use crate::scan::is_dot;
use crate::spans::{Run, after_run, rest_of_word};
use std::alloc::AllocError;

/// The bytes of a slice that were taken.
#[derive(Clone, Copy)]
pub(crate) struct Walked {
    /// Their number.
    pub(crate) count: usize,
    /// The progress of the section after them.
    pub(crate) progress: Progress,
}

/// Takes the spaces from a place on, if any, after a blank, and answers the place after them.
#[inline(always)]
fn take_spaces(
    state: &mut State,
    pieces: &mut Pieces,
    before: usize,
    bytes: &[u8],
    from: usize,
) -> usize
    requires within { from ≤ length bytes.now }
    requires order { pieces.old.piece ≤ before + from }
    requires small { before + from + state.old.bytes < 2 ^ 32 }
    ensures within { (from ≤ result) × (result ≤ length bytes.now) }
    ensures order { pieces.new.piece ≤ before + result }
    ensures counts { result + state.new.bytes ≡ from + state.old.bytes }
    ensures goes { (text : List ℕ) (line : ℕ) → length text ≡ before → Goes (parts (text ++ take from bytes.now) line (marks_of pieces.old)) state.old
        → Goes (parts (text ++ take result bytes.now) line (marks_of pieces.new)) state.new }
{
    if !matches!(state.mode, Mode::Blank) {
        return from;
    }
    let most = (bytes.len() - from).min(state.bytes as usize);
    let to = after_run(bytes, from, from + most, Run::Spaces);
    if to == from {
        return from;
    }
    pieces.piece = before + to - 1;
    state.bytes -= (to - from) as u32;
    to
}

/// Takes the letter at a place, if one begins a word there after a blank, and answers the place after it. Where the string of a GET is due
/// or no symbol has room, it takes none.
#[inline(always)]
fn take_letter(
    state: &mut State,
    pieces: &mut Pieces,
    before: usize,
    bytes: &[u8],
    from: usize,
) -> usize
    requires within { from ≤ length bytes.now }
    requires order { pieces.old.piece ≤ before + from }
    requires small { before + from + state.old.bytes < 2 ^ 32 }
    ensures within { (from ≤ result) × (result ≤ length bytes.now) }
    ensures order { pieces.new.piece ≤ before + result }
    ensures counts { result + state.new.bytes ≡ from + state.old.bytes }
    ensures goes { (text : List ℕ) (line : ℕ) → length text ≡ before → Goes (parts (text ++ take from bytes.now) line (marks_of pieces.old)) state.old
        → Goes (parts (text ++ take result bytes.now) line (marks_of pieces.new)) state.new }
{
    if !matches!(state.mode, Mode::Blank) || state.bytes == 0 || state.symbols == 0 || state.get {
        return from;
    }
    if from >= bytes.len() || !bytes[from].is_ascii_alphabetic() {
        return from;
    }
    pieces.piece = before + from;
    state.mode = Mode::Word(1, u64::from(bytes[from] % 32));
    state.bytes -= 1;
    from + 1
}

/// Takes the run of bytes from a place on that go on as the byte before them, and answers the place after it.
#[inline(always)]
fn take_run(state: &mut State, bytes: &[u8], from: usize) -> usize
    requires within { from ≤ length bytes.now }
    ensures within { (from ≤ result) × (result ≤ length bytes.now) }
    ensures counts { result + state.new.bytes ≡ from + state.old.bytes }
    ensures goes { (text : List ℕ) (line : ℕ) (marks : Marks) → Goes (parts (text ++ take from bytes.now) line marks) state.old
        → Goes (parts (text ++ take result bytes.now) line marks) state.new }
{
    let most = (bytes.len() - from).min(state.bytes as usize);
    match state.mode {
        Mode::Comment => {
            let to = after_run(bytes, from, from + most, Run::Comment);
            state.bytes -= (to - from) as u32;
            to
        }
        Mode::Word(length, code) => {
            let longest = LONGEST.saturating_sub(length) as usize;
            let rest = rest_of_word(bytes, from, from + most.min(longest), code);
            let count = (rest.end - from) as u32;
            state.mode = Mode::Word(length + count, rest.code);
            state.bytes -= count;
            rest.end
        }
        Mode::Text(held) => {
            let longest = LONGEST.saturating_sub(held) as usize;
            let to = after_run(bytes, from, from + most.min(longest), Run::Text);
            let count = (to - from) as u32;
            state.mode = Mode::Text(held + count);
            state.bytes -= count;
            to
        }
        _ => from,
    }
}

/// Takes the bytes of a slice, which has this number of bytes before it, up to the section's end or a fault.
pub(crate) fn walk(
    state: &mut State,
    pieces: &mut Pieces,
    before: usize,
    bytes: &[u8],
) -> Result<Walked, AllocError>
    requires order { pieces.old.piece ≤ before }
    requires small { before + state.old.bytes < 2 ^ 32 }
    ensures progress { IfOk result (λ walked. (walked.count ≤ length bytes.now) × ((text : List ℕ) (line : ℕ) → length text ≡ before
        → Goes (parts text line (marks_of pieces.old)) state.old
        → Progresses walked.progress state.new (parts (text ++ take walked.count bytes.now) line (marks_of pieces.new)))) }
    ensures asked { IfOk result (λ walked. (text : List ℕ) (line : ℕ) → length text ≡ before → Goes (parts text line (marks_of pieces.old)) state.old
        → (k : ℕ) → k < walked.count → cut_after (text ++ take k bytes.now) ≡ More) }
    ensures all { IfOk result (λ walked. walked.progress ≡ Going → walked.count ≡ length bytes.now) }
    ensures found { IfOk result (λ walked. walked.progress ≢ Stuck) }
{
    let mut at = 0;
    while at < bytes.len() {
        at = take_spaces(state, pieces, before, bytes, at);
        at = take_letter(state, pieces, before, bytes, at);
        at = take_run(state, bytes, at);
        if at >= bytes.len() {
            break;
        }
        let byte = bytes[at];
        let act = match take_after_run(state, byte) {
            Ok(act) => act,
            Err(fault) => {
                return Ok(Walked {
                    count: at + 1,
                    progress: Progress::Refused(fault),
                });
            }
        };
        pieces.take(act, byte, before + at)?;
        at += 1;
        if is_dot(state.mode) {
            return Ok(Walked {
                count: at,
                progress: Progress::Ended,
            });
        }
    }
    Ok(Walked {
        count: at,
        progress: Progress::Going,
    })
}
