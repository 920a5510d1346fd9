//! The lexer of a section whose bytes come one after another.
ghost use Rattle.std.specs.Prelude.{ℕ, ◌≡◌, ◌<◌, ◌≤◌, ◌^◌, ◌++◌, ◌∷◌, [], length, take, OnOk, IfOk};
ghost use Rattle.bk_lex.specs.declared.cutter.Cut.TheVariants.{More, End};
ghost use Rattle.bk_lex.specs.declared.counting.PieceResult.TheVariants.{Symbol};
ghost use Rattle.bk_lex.specs.declared.counting.Act.TheVariants.{Begins};
ghost use Rattle.bk_lex.specs.Symbol.{symbols_of};
ghost use Rattle.bk_lex.specs.Cutting.{Means};
ghost use Rattle.bk_lex.specs.Lexing.{Gives, lexed};
ghost use Rattle.bk_lex.specs.Found.{symbols_found, all_found, found_in, AreWithin, bytes_of, cut_after};
ghost use Rattle.bk_lex.specs.Lexers.{marks_of, marked, cut_at};

use crate::adding::add;
use crate::block::walk;
use crate::counting::{Act, PieceResult, State, finished, start};
use crate::cutter::Cut;
use crate::header::put_header;
use crate::machine::{Fault, Header};
use crate::scan::{Lexed, Lines, placed_fault, put};
use crate::token::{Kind, Token};
use bk_base::limit::SECTION_SYMBOLS;
use bk_base::{Line, Refused, SourceFault};
use std::alloc::{AllocError, Global};
use std::marker::Model;

/// The number of symbols for which a section has room at first.
const FIRST_FOUND: usize = 512;

/// The number of bytes for which a section has room at first.
const FIRST_BYTES: usize = 1024;

/// A symbol or header that was found in a text. Its bytes are taken from the text once the text is complete.
#[derive(Clone, Copy, Debug, PartialEq, Eq)]
pub(crate) enum Found {
    /// A symbol: its kind and line, the place of its first byte, and the place after its last.
    Symbol {
        kind: Kind,
        line: Line,
        first: u32,
        end: u32,
    },
    /// A symbol that is inserted before the next.
    Inserted {
        kind: Kind,
        line: Line,
    },
    /// The symbols of a header, on the line of its GET.
    Header {
        header: Header,
        line: Line,
    },
}

/// The progress of a section.
#[derive(Clone, Copy, Debug, PartialEq, Eq)]
pub(crate) enum Progress {
    /// The section may go on.
    Going,
    /// A `.` ended the section.
    Ended,
    /// The section has a fault that no further byte changes.
    Refused(Fault),
    /// Memory was refused for a byte.
    Stuck,
}

/// The symbols and headers in the bytes so far.
#[derive(Drop)]
pub(crate) struct Pieces {
    found: Vec<Found>,
    /// The place where the incomplete piece begins.
    pub(crate) piece: usize,
    place: Lines,
}

/// The bytes of a section so far, and the symbols in them. Contracts see the bytes, and the line of the first.
#[derive(Drop)]
pub struct Lexer {
    bytes: Vec<u8>,
    from: Line,
    pieces: Pieces,
    /// The state of the machine after the bytes that it took. A byte that is a fault is not taken.
    state: State,
    progress: Progress,
}

impl Model for Lexer {
    ghost use Rattle.bk_lex.specs.Found.{SectionBytes, bytes_of};
    ghost use Rattle.bk_lex.specs.Lexers.{parts, marks_of, Progresses};

    ghost Value = { SectionBytes };

    ghost view = { λ l. bytes_of l.bytes.items l.from };

    ghost invariant = { λ l. Progresses l.progress l.state (parts l.bytes.items l.from (marks_of l.pieces)) };
}

/// The bytes that a lexer took from the front of others.
#[derive(Clone, Copy, Debug, PartialEq, Eq)]
pub struct Front {
    /// Their number.
    pub count: usize,
    /// The answer to the last of them, or where there is none, to the last byte before.
    pub cut: Cut,
}

/// The answer of a step that leaves this progress.
fn cut_at(progress: Progress) -> Cut
    ensures { result ≡ cut_at progress }
{
    match progress {
        Progress::Going => Cut::More,
        _ => Cut::End,
    }
}

/// Adds a symbol, with what is inserted before it.
#[inline(always)]
fn find(
    found: &mut Vec<Found>,
    insertion: Option<Kind>,
    kind: Kind,
    line: Line,
    first: usize,
    end: usize,
) -> Result<(), AllocError>
    requires order { first ≤ end }
    requires small { end < 2 ^ 32 }
    ensures { OnOk result (found.new.items ≡ found.old.items ++ found_in (Symbol insertion kind) line first end) }
{
    if let Some(kind) = insertion {
        found.push(Found::Inserted { kind, line })?;
    }
    // Where there is room, nothing is called, and the loop over the bytes keeps its registers.
    found.reserve(1)?;
    found.push_reserved(Found::Symbol {
        kind,
        line,
        first: first as u32,
        end: end as u32,
    });
    Ok(())
}

/// Adds the symbols of a header.
#[cold]
#[inline(never)]
fn find_header(found: &mut Vec<Found>, header: Header, line: Line) -> Result<(), AllocError>
    ensures { OnOk result (found.new.items ≡ found.old.items ++ Found.Header header line ∷ []) }
{
    found.push(Found::Header { header, line })?;
    Ok(())
}

/// Adds the tokens of a symbol or header that was found.
fn put_found<'a>(out: &mut Vec<Token<'a>>, text: &'a [u8], found: Found) -> Result<(), AllocError>
    requires { AreWithin (length text.now) (found ∷ []) }
    ensures { OnOk result (symbols_of out.new.items ≡ symbols_of out.old.items ++ symbols_found text.now found) }
{
    match found {
        Found::Symbol {
            kind,
            line,
            first,
            end,
        } => add(
            out,
            kind,
            line,
            Some(first),
            &text[first as usize..end as usize],
        ),
        Found::Inserted { kind, line } => add(out, kind, line, None, &[]),
        Found::Header { header, line } => put_header(out, header, line),
    }
}

/// The tokens of the symbols and headers that were found in a text, which are so many.
fn tokens_of<'a>(
    alloc: Global,
    text: &'a [u8],
    found: &[Found],
    count: u32,
) -> Result<Vec<Token<'a>>, AllocError>
    requires { AreWithin (length text.now) found.now }
    ensures { IfOk result (λ tokens. symbols_of tokens.items ≡ all_found text.now found.now) }
{
    let mut tokens = Vec::with_capacity(alloc, count as usize)?;
    for each in found {
        put_found(&mut tokens, text, *each)?;
    }
    Ok(tokens)
}

impl Pieces {
    /// Records the result of the piece before a byte that begins one. The byte has this number of bytes before it.
    #[inline(always)]
    fn begin(&mut self, given: PieceResult, byte: u8, before: usize) -> Result<(), AllocError>
        requires order { self.old.piece ≤ before }
        requires small { before < 2 ^ 32 }
        ensures { OnOk result (marks_of self.new ≡ marked (marks_of self.old) (Begins given) byte before) }
    {
        match given {
            PieceResult::Nothing => {}
            PieceResult::Symbol(insertion, kind) => find(
                &mut self.found,
                insertion,
                kind,
                self.place.line,
                self.piece,
                before,
            )?,
            PieceResult::Get => self.place.get_line = self.place.line,
        }
        if byte == b'\n' {
            self.place.line = self.place.line.next();
        }
        self.piece = before;
        Ok(())
    }

    /// Records the effect of a byte that has this number of bytes before it.
    #[inline(always)]
    pub(crate) fn take(&mut self, act: Act, byte: u8, before: usize) -> Result<(), AllocError>
        requires order { self.old.piece ≤ before }
        requires small { before < 2 ^ 32 }
        ensures { OnOk result (marks_of self.new ≡ marked (marks_of self.old) act byte before) }
    {
        match act {
            Act::Goes => Ok(()),
            Act::Begins(given) => self.begin(given, byte, before),
            Act::Names(header) => find_header(&mut self.found, header, self.place.get_line),
        }
    }
}

impl Lexer {
    /// A lexer before the first byte of a section whose first line has the number `from`.
    pub fn new(alloc: Global, from: Line) -> Result<Lexer, AllocError>
        ensures { IfOk result (λ lexer. lexer ≡ bytes_of [] from) }
    {
        Ok(Lexer {
            bytes: Vec::with_capacity(alloc, FIRST_BYTES)?,
            from,
            pieces: Pieces {
                found: Vec::with_capacity(alloc, FIRST_FOUND)?,
                piece: 0,
                place: Lines {
                    line: from,
                    get_line: from,
                },
            },
            state: start(),
            progress: Progress::Going,
        })
    }

    /// Begins another section, whose first line has the number `from`. It keeps its room, and takes no memory.
    pub fn again(&mut self, from: Line)
        ensures { self.new ≡ bytes_of [] from }
    {
        self.bytes.clear();
        self.from = from;
        self.pieces.found.clear();
        self.pieces.piece = 0;
        self.pieces.place = Lines {
            line: from,
            get_line: from,
        };
        self.state = start();
        self.progress = Progress::Going;
    }

    /// The bytes so far.
    pub fn bytes(&self) -> &[u8]
        ensures { result.now ≡ self.now.bytes }
    {
        self.bytes.as_slice()
    }

    /// The number of symbols so far.
    fn symbols(&self) -> u32 {
        SECTION_SYMBOLS.saturating_sub(self.state.symbols)
    }

    /// Takes bytes from the front of these: all of them, or those up to the `.` that ends a section without a fault, or up to where a fault
    /// is certain, which is at byte 1,048,577 of the section at the latest. Each byte but the last that is taken leaves it open how the
    /// section ends, and none is taken after the answer `End`. Where memory was refused, each further call answers so.
    pub fn take_front(&mut self, bytes: &[u8]) -> Result<Front, AllocError>
        ensures takes { cut_after self.old.bytes ≡ More → IfOk result (λ front. (front.count ≤ length bytes.now)
            × (self.new ≡ bytes_of (self.old.bytes ++ take front.count bytes.now) self.old.from)) }
        ensures all { IfOk result (λ front. front.cut ≡ More → front.count ≡ length bytes.now) }
        // It answers as a cutter does.
        ensures says { IfOk result (λ front. front.cut ≡ cut_after self.new.bytes) }
        ensures means { cut_after self.old.bytes ≡ More → IfOk result (λ front. Means front.cut self.new.bytes) }
        ensures asked { cut_after self.old.bytes ≡ More → IfOk result (λ front. (k : ℕ) → k < front.count → cut_after (self.old.bytes ++ take k bytes.now) ≡ More) }
        // After `End` it takes no byte.
        ensures stays { cut_after self.old.bytes ≡ End → IfOk result (λ front. (front.count ≡ 0) × (self.new ≡ self.old)) }
    {
        match self.progress {
            Progress::Going => {}
            Progress::Stuck => return Err(AllocError),
            Progress::Ended | Progress::Refused(_) => {
                return Ok(Front {
                    count: 0,
                    cut: Cut::End,
                });
            }
        }
        let before = self.bytes.len();
        let Ok(walked) = walk(&mut self.state, &mut self.pieces, before, bytes) else {
            self.progress = Progress::Stuck;
            return Err(AllocError);
        };
        let Ok(()) = self.bytes.extend_from_slice(&bytes[..walked.count]) else {
            self.progress = Progress::Stuck;
            return Err(AllocError);
        };
        self.progress = walked.progress;
        Ok(Front {
            count: walked.count,
            cut: cut_at(walked.progress),
        })
    }

    /// Takes the next byte of the section, as `take_front` does.
    pub fn step(&mut self, byte: u8) -> Result<Cut, AllocError>
        // It has one byte more.
        ensures takes { IfOk result (λ _. cut_after self.old.bytes ≡ More → self.new ≡ bytes_of (self.old.bytes ++ byte ∷ []) self.old.from) }
        // It answers as a cutter does.
        ensures says { IfOk result (λ cut. cut ≡ cut_after self.new.bytes) }
        ensures means { IfOk result (λ cut. cut_after self.old.bytes ≡ More → Means cut self.new.bytes) }
        // After `End` it takes no byte.
        ensures stays { cut_after self.old.bytes ≡ End → IfOk result (λ _. self.new ≡ self.old) }
    {
        let front = self.take_front(&[byte])?;
        Ok(front.cut)
    }

    /// The answer of `lex` to the bytes so far.
    pub fn lexed(&self, alloc: Global) -> Result<Lexed<'_>, Refused<SourceFault>>
        ensures { Gives result (lexed self.now.bytes self.now.from) }
    {
        let text = self.bytes.as_slice();
        match self.progress {
            Progress::Stuck => Err(Refused::Memory),
            Progress::Refused(fault) => Err(Refused::Fault(placed_fault(
                self.state,
                self.pieces.place,
                fault,
            ))),
            Progress::Ended => Ok(Lexed {
                tokens: tokens_of(alloc, text, self.pieces.found.as_slice(), self.symbols())?,
                used: text.len(),
                ended: true,
                line: self.pieces.place.line,
            }),
            Progress::Going => {
                let given = match finished(self.state) {
                    Ok(given) => given,
                    Err(fault) => {
                        return Err(Refused::Fault(placed_fault(
                            self.state,
                            self.pieces.place,
                            fault,
                        )));
                    }
                };
                let mut tokens = tokens_of(
                    alloc,
                    text,
                    self.pieces.found.as_slice(),
                    self.symbols(),
                )?;
                let end = text.len();
                put(
                    &mut tokens,
                    given,
                    self.pieces.place.line,
                    text,
                    self.pieces.piece,
                    end,
                )?;
                Ok(Lexed {
                    tokens,
                    used: end,
                    ended: false,
                    line: self.pieces.place.line,
                })
            }
        }
    }
}
