//! The parser: a pushdown automaton that reads the symbols once, over a stack of unfinished constructs.
ghost use Rattle.std.specs.Prelude.{◌≡◌, ◌<◌, true, false, Some, [], List, length, IfOk, IfErr, OnOk};
ghost use Rattle.bk_lex.specs.Symbol.{Symbol, symbol_of, symbols_of};
ghost use Rattle.bk_lex.specs.Values.{upper_name};
ghost use Rattle.bk_tree.specs.Tree.{Declarations, declarations_in};
ghost use Rattle.bk_grammar.specs.Spelling.{tag_of};
ghost use Rattle.bk_grammar.specs.Placed.{position_at};
ghost use Rattle.bk_grammar.specs.Rows.{goes};
ghost use Rattle.bk_grammar.specs.Machine.{limit, opens, closes, give, finish, without, stepped_by, whole, run, due, maybe, in_section};
ghost use Rattle.bk_frames.specs.Unfinished.{unfinished_on, held_in};
ghost use Rattle.bk_frames.specs.Frames.{stack_of, state, given, finished, after, Steps, Answers, Lowers, Falls};
ghost use Rattle.bk_syntax.specs.Parsing.{tags, Closes, steps, AfterSymbols, error_of, answered, reached, IsPassed, Advances, AnswersAtEnd, Parses, ParsesPlaced, Gives, without_place};
ghost use Rattle.bk_tree.specs.Section.{declarations_of};
ghost use Rattle.bk_grammar.specs.SyntaxFault.{IsSection};
ghost use Rattle.bk_tree.specs.Limits.{Within};
ghost use Rattle.bk_frames.specs.Bounds.{Always, Bounded};
ghost use Rattle.bk_frames.specs.Completing.{Completes};

use crate::commands::{did, guarded};
use crate::error::{ParseError, refuse, reported};
use crate::expressions::extends;
use bk_base::{Line, Refused, SourceFault};
use bk_frames::frame::{Clause, Flow, Frame, ParserState, Size, Stop, Unfinished};
use bk_frames::frames::Frames;
use bk_frames::limits::{is_bounded, is_bounded_in_depth};
use bk_frames::size::NOTHING;
use bk_frames::top::pop;
use bk_grammar::placed::position_of;
use bk_grammar::spelling::{same_tag, tag};
use bk_grammar::symbols::{closes, goes_on, opens, repeats, starts_command};
use bk_lex::{Kind, Token};
use bk_tree::{Command, PlacedFault, Position, Section, on_line};
use std::alloc::Global;

/// The parser: the unfinished constructs, with the allocator, and the state above them.
#[derive(Drop)]
pub struct Parser {
    pub frames: Frames,
    pub now: ParserState,
}

/// Whether an expression on these frames goes on with this symbol.
fn goes_on_with(frames: &Frames, kind: Kind) -> bool
    ensures { result ≡ goes (limit (stack_of frames.now)) kind }
{
    match frames.above.last() {
        Some(top) => extends(&top.unfinished, kind),
        None => goes_on(12, kind),
    }
}

/// How many open sections a `$)` without a tag closes: one, or None where the innermost has a tag.
fn closings_untagged(opened: &[&[u8]]) -> Option<usize>
    ensures { (t : Symbol) → Closes result t [] opened.now }
{
    let count = opened.len();
    if count == 0 {
        return Some(1);
    }
    if opened[count - 1].is_empty() {
        return Some(1);
    }
    None
}

/// How many open sections a `$)` with this tag closes: those up to and with the innermost of the tag.
fn closings_tagged(opened: &[&[u8]], wanted: &[u8]) -> Option<usize>
    requires { 0 < length wanted.now }
    ensures { (t : Symbol) → Closes result t (upper_name wanted.now) opened.now }
{
    let mut i = opened.len();
    while i > 0 {
        i -= 1;
        if same_tag(wanted, opened[i]) {
            return Some(opened.len() - i);
        }
    }
    None
}

/// How many open sections a `$)` closes; None where its tag is wrong.
fn closings(opened: &[&[u8]], text: &[u8]) -> Option<usize>
    ensures { (t : Symbol) → Closes result t (tag_of text.now) opened.now }
{
    let wanted = tag(text);
    if wanted.is_empty() {
        return closings_untagged(opened);
    }
    closings_tagged(opened, wanted)
}

/// Why a symbol is refused, without its position.
fn error_of(taken: Result<(), Stop>) -> Result<(), ParseError>
    ensures { result ≡ error_of taken }
{
    match taken {
        Ok(()) => Ok(()),
        Err(Stop::Memory) => Err(ParseError::Memory),
        Err(Stop::Unexpected) => Err(ParseError::Unexpected),
    }
}

impl Parser {
    /// An expression is complete in an unfinished construct, and the symbol after it does not go on with it.
    #[inline(always)]
    fn complete_part(
        &mut self,
        unfinished: Unfinished,
        held: Size,
        token: &Token,
    ) -> Result<Flow, Stop>
        requires stops { goes (limit (unfinished_on unfinished (stack_of self.old.frames))) token.now.kind ≡ false }
        requires held { held ≡ held_in unfinished }
        ensures answers { Answers self.new.frames self.new.now result token.now (given (unfinished_on unfinished (stack_of self.old.frames)) self.old.now) }
        ensures lowers { Lowers self.old.frames self.new.frames result }
    {
        match unfinished {
            Unfinished::OpenExpression(operand) => self.complete(operand, held, token),
            Unfinished::Phrase(phrase) => self.complete_phrase(phrase, held, token),
            Unfinished::Member(member) => self.complete_member(member, held, token),
            Unfinished::Clause(clause) => Err(refuse(clause)),
            Unfinished::Place(place) => Err(refuse(place)),
            Unfinished::Point(point) => Err(refuse(point)),
        }
    }

    /// An expression is complete so far, and a symbol comes after it.
    #[tactic(auto, using(bk_frames::proofs::Lemmas::frames_laws))]
    fn after_expression(&mut self, token: &Token) -> Result<Flow, Stop>
        ensures answers { Answers self.new.frames self.new.now result token.now (given (stack_of self.old.frames) self.old.now) }
        ensures falls { Falls self.old.frames self.new.frames result }
    {
        if goes_on_with(&self.frames, token.kind) {
            let ParserState::Have(sized) = self.now.take() else {
                return Err(Stop::Unexpected);
            };
            return self.go_on(sized, token);
        }
        let Some(top) = pop(&mut self.frames) else {
            return Err(Stop::Unexpected);
        };
        let Frame {
            unfinished,
            held,
            spare: _,
        } = top;
        self.complete_part(unfinished, held, token)
    }

    /// A command is complete so far, and a symbol comes after it.
    #[tactic(auto, using(bk_frames::proofs::Lemmas::frames_laws))]
    fn after_command(&mut self, token: &Token) -> Result<Flow, Stop>
        ensures answers { Answers self.new.frames self.new.now result token.now (finished (stack_of self.old.frames) self.old.now) }
        ensures falls { Falls self.old.frames self.new.frames result }
    {
        if repeats(token.kind) {
            return self.again(token);
        }
        let Some(top) = pop(&mut self.frames) else {
            return Err(Stop::Unexpected);
        };
        let Frame {
            unfinished,
            held,
            spare: _,
        } = top;
        match unfinished {
            Unfinished::Clause(clause) => self.complete_clause(clause, held, token),
            Unfinished::Place(place) => self.complete_command(place, held, token),
            Unfinished::OpenExpression(operand) => Err(refuse(operand)),
            Unfinished::Phrase(phrase) => Err(refuse(phrase)),
            other => Err(refuse(other)),
        }
    }

    /// A part may be complete so far, and a symbol comes after it.
    #[inline(always)]
    fn after_part(&mut self, token: &Token) -> Result<Flow, Stop>
        ensures answers { Answers self.new.frames self.new.now result token.now (after (stack_of self.old.frames) self.old.now) }
        ensures falls { Falls self.old.frames self.new.frames result }
    {
        match self.now {
            ParserState::Have(_) => self.after_expression(token),
            ParserState::Did(_) => self.after_command(token),
            ParserState::Want | ParserState::Begin | ParserState::Maybe | ParserState::Due => Ok(
                Flow::Taken,
            ),
        }
    }

    /// Takes the symbol after the part that is complete so far, and completes what the symbol completes.
    #[inline(never)]
    fn settle(&mut self, token: &Token) -> Result<(), Stop>
        ensures { Steps (stack_of self.new.frames) (reached result self.new.now) (after (stack_of self.old.frames) self.old.now (position_at token.now) token.now.text.now token.now.kind) }
    {
        loop {
            match self.after_part(token) {
                Ok(Flow::Comes) => {}
                Ok(Flow::Taken) => return Ok(()),
                Err(Stop::Memory) => return Err(Stop::Memory),
                Err(Stop::Unexpected) => return Err(Stop::Unexpected),
            }
        }
    }

    /// There is no command after a colon, and this symbol begins none.
    #[tactic(auto, using(bk_frames::proofs::Lemmas::frames_laws, bk_frames::proofs::Lemmas::guarded_sizes))]
    fn without_command(&mut self, token: &Token) -> Result<Flow, Stop>
        ensures { Answers self.new.frames self.new.now result token.now (without (stack_of self.old.frames)) }
    {
        let Some(top) = pop(&mut self.frames) else {
            return Err(Stop::Unexpected);
        };
        let Frame {
            unfinished,
            held,
            spare: _,
        } = top;
        let Unfinished::Clause(clause) = unfinished else {
            return Err(Stop::Unexpected);
        };
        let body = Box::new(self.frames.alloc, Command::Empty)?;
        match clause {
            Clause::Label(at, letters) => {
                self.now.set(ParserState::Did(did(Command::Label { at, letters, body }, held)));
                Ok(Flow::Comes)
            }
            Clause::Guarded(guard, at, condition) => {
                self.now.set(ParserState::Did(did(guarded(guard, at, condition, body), held)));
                Ok(Flow::Comes)
            }
            Clause::Default(at) => {
                self.now
                    .set(ParserState::Did(did(Command::Default { at, body }, held)));
                Ok(Flow::Comes)
            }
            _ => Err(Stop::Unexpected),
        }
    }

    /// There is no command after a colon, and this symbol, which begins none, is taken. It is rare, and a function of its own, so that a
    /// step has no frame for it.
    #[inline(never)]
    fn step_over(&mut self, token: &Token) -> Result<(), Stop>
        ensures { Steps (stack_of self.new.frames) (reached result self.new.now) (without (stack_of self.old.frames) (position_at token.now) token.now.text.now token.now.kind) }
    {
        match self.without_command(token) {
            Ok(Flow::Comes) => self.settle(token),
            Ok(Flow::Taken) => Ok(()),
            Err(Stop::Memory) => Err(Stop::Memory),
            Err(Stop::Unexpected) => Err(Stop::Unexpected),
        }
    }

    /// Takes the symbol where a command may come.
    fn step_maybe(&mut self, token: &Token) -> Result<(), Stop>
        ensures { Steps (stack_of self.new.frames) (reached result self.new.now) (stepped_by (maybe (stack_of self.old.frames)) (position_at token.now) token.now.text.now token.now.kind) }
    {
        if starts_command(token.kind) {
            return self.command(token);
        }
        self.step_over(token)
    }

    /// Takes the next symbol, a section bracket once for each section that it opens or closes.
    fn step(&mut self, token: &Token) -> Result<(), Stop>
        ensures { Steps (stack_of self.new.frames) (reached result self.new.now) (stepped_by
            (state (stack_of self.old.frames) self.old.now) (position_at token.now) token.now.text.now token.now.kind) }
    {
        match self.now {
            ParserState::Want => self.operand(token),
            ParserState::Begin => self.command(token),
            ParserState::Maybe => self.step_maybe(token),
            ParserState::Due => self.at_place(token),
            ParserState::Have(_) | ParserState::Did(_) => self.settle(token),
        }
    }

    /// Takes the symbol, so often.
    fn repeat_step(&mut self, token: &Token, times: usize) -> Result<(), Stop>
        ensures { Steps (stack_of self.new.frames) (reached result self.new.now) (steps times (symbol_of token.now) (state (stack_of self.old.frames) self.old.now)) }
    {
        let mut left = times;
        while left > 0 {
            left -= 1;
            match self.step(token) {
                Ok(()) => {}
                Err(Stop::Memory) => return Err(Stop::Memory),
                Err(Stop::Unexpected) => return Err(Stop::Unexpected),
            }
        }
        Ok(())
    }

    /// Whether a section within the limits begins so, where a section does, or why none does.
    fn limit(&mut self) -> Result<(), ParseError>
        ensures stack { stack_of self.new.frames ≡ stack_of self.old.frames }
        ensures now { self.new.now ≡ self.old.now }
        ensures bounded { OnOk result (Completes Always (state (stack_of self.new.frames) self.new.now) → Bounded (state (stack_of self.new.frames) self.new.now)) }
        ensures passed { IfErr result (λ error. IsPassed error (state (stack_of self.new.frames) self.new.now)) }
    {
        if is_bounded(&mut self.frames, &self.now)? {
            return Ok(());
        }
        if is_bounded_in_depth(&mut self.frames, &self.now)? {
            return Err(ParseError::TooManyNodes);
        }
        Err(ParseError::NestedTooDeeply)
    }

    /// A `$)`: it closes sections, each as a `$)` without a tag.
    fn close<'a>(&mut self, opened: &mut Vec<&'a [u8]>, token: &Token<'a>) -> Result<(), ParseError>
        requires { closes token.now.kind ≡ true }
        ensures { (u : List Symbol) → AfterSymbols u (tags opened.old.items) (state (stack_of self.old.frames) self.old.now) → Advances self.new.frames opened.new.items
            (answered (reached result self.new.now) (position_at token.now)) u (symbol_of token.now) }
    {
        match closings(opened.as_slice(), token.text) {
            Some(times) => {
                opened.truncate(opened.len().saturating_sub(times));
                error_of(self.repeat_step(token, times))
            }
            None => Err(ParseError::WrongSectionTag),
        }
    }

    /// A `$(`: it opens a section.
    fn open_section<'a>(
        &mut self,
        opened: &mut Vec<&'a [u8]>,
        token: &Token<'a>,
    ) -> Result<(), ParseError>
        requires { opens token.now.kind ≡ true }
        ensures { (u : List Symbol) → AfterSymbols u (tags opened.old.items) (state (stack_of self.old.frames) self.old.now) → Advances self.new.frames opened.new.items
            (answered (reached result self.new.now) (position_at token.now)) u (symbol_of token.now) }
    {
        match opened.push(tag(token.text)) {
            Ok(()) => error_of(self.repeat_step(token, 1)),
            Err(_) => Err(ParseError::Memory),
        }
    }

    /// The next symbol.
    fn take<'a>(&mut self, opened: &mut Vec<&'a [u8]>, token: &Token<'a>) -> Result<(), ParseError>
        ensures { (u : List Symbol) → AfterSymbols u (tags opened.old.items) (state (stack_of self.old.frames) self.old.now) → Advances self.new.frames opened.new.items
            (answered (reached result self.new.now) (position_at token.now)) u (symbol_of token.now) }
    {
        if closes(token.kind) {
            return self.close(opened, token);
        }
        if opens(token.kind) {
            return self.open_section(opened, token);
        }
        error_of(self.repeat_step(token, 1))
    }

    /// Takes the next symbol, after which a section within the limits goes on.
    fn advance<'a>(
        &mut self,
        opened: &mut Vec<&'a [u8]>,
        token: &Token<'a>,
    ) -> Result<(), ParseError>
        ensures bounded { OnOk result (Completes Always (state (stack_of self.new.frames) self.new.now) → Bounded (state (stack_of self.new.frames) self.new.now)) }
        ensures goes { (u : List Symbol) → AfterSymbols u (tags opened.old.items) (state (stack_of self.old.frames) self.old.now)
            → Advances self.new.frames opened.new.items (answered (reached result self.new.now) (position_at token.now)) u (symbol_of token.now) }
    {
        self.take(opened, token)?;
        self.limit()
    }

    /// The section, if it is whole here, where its end is at this position.
    fn whole(self, end: Position) -> Result<Section, Refused<PlacedFault>>
        requires { (ds : Declarations) → state (stack_of self.frames) self.now ≡ due (in_section ds) → Within ds }
        ensures { AnswersAtEnd result (whole (Some (state (stack_of self.frames) self.now))) end }
    {
        let Parser { frames, now } = self;
        let Frames {
            decls,
            held: _,
            above,
            budgets: _,
            alloc: _,
        } = frames;
        match now {
            ParserState::Due => {
                if above.is_empty() {
                    return Ok(Section::new(decls));
                }
                Err(reported(ParseError::Unexpected, end))
            }
            _ => Err(reported(ParseError::Unexpected, end)),
        }
    }

    /// The end of the section, at this position. It completes what a `;` completes.
    fn at_end(self, end: Position) -> Result<Section, Refused<PlacedFault>>
        requires { Bounded (state (stack_of self.frames) self.now) }
        ensures { AnswersAtEnd result (run [] (state (stack_of self.frames) self.now)) end }
    {
        let mut parser = self;
        let last = Token {
            kind: Kind::Semicolon,
            line: Line::first(),
            place: None,
            text: &[],
        };
        match parser.step(&last) {
            Ok(()) => parser.whole(end),
            Err(Stop::Memory) => Err(Refused::Memory),
            Err(Stop::Unexpected) => Err(reported(ParseError::Unexpected, end)),
        }
    }
}

/// The number of frames for which memory is reserved at first.
const FIRST_FRAMES: usize = 16;

/// What `parse` answers, with the position of the symbol that is at fault in the place of its line. A fault at the end has no place.
pub fn parse_placed(
    alloc: Global,
    tokens: &[Token],
    end: Line,
) -> Result<Section, Refused<PlacedFault>>
    // The result is a tree of the symbols, or the first fault with the position of its symbol: a section within the limits begins
    // with the symbols before it.
    ensures parses { ParsesPlaced result (symbols_of tokens.now) end }
    // The tree is within the limits.
    ensures within { IfOk result (λ section. Within (declarations_of section)) }
    // Where the symbols are a section within the limits, the result is its tree, unless memory is refused.
    ensures only { (ds : Declarations) → IsSection ds (symbols_of tokens.now) → Gives (without_place result) ds }
{
    let above = Vec::with_capacity(alloc, FIRST_FRAMES)?;
    let mut parser = Parser {
        frames: Frames {
            decls: Vec::new(alloc),
            held: NOTHING,
            above,
            budgets: Vec::new(alloc),
            alloc,
        },
        now: ParserState::Due,
    };
    let mut opened = Vec::new(alloc);
    for token in tokens {
        if let Err(error) = parser.advance(&mut opened, token) {
            return Err(reported(error, position_of(token)));
        }
    }
    let last = Position::new(end, None);
    parser.at_end(last)
}

/// The section that these symbols are, with its end on line `end`, or the fault at a symbol: the first symbol such
/// that no section within the limits begins with the symbols up to it.
pub fn parse(alloc: Global, tokens: &[Token], end: Line) -> Result<Section, Refused<SourceFault>>
    // The result is a tree of the symbols, or the first fault: a section within the limits begins with the symbols before
    // it.
    ensures parses { Parses result (symbols_of tokens.now) end }
    // The tree is within the limits.
    ensures within { IfOk result (λ section. Within (declarations_of section)) }
    // Where the symbols are a section within the limits, the result is its tree, unless memory is refused.
    ensures only { (ds : Declarations) → IsSection ds (symbols_of tokens.now) → Gives result ds }
{
    match parse_placed(alloc, tokens, end) {
        Ok(section) => Ok(section),
        Err(refused) => Err(on_line(refused)),
    }
}
