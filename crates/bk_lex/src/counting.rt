//! The machine with its counts: bytes and symbols, what is inserted between neighbours, and GET.
ghost use Rattle.std.specs.Prelude.{◌≡◌, ◌<◌, nat_lt, true, false, Ok, Err, OnErr, IfOk};
ghost use Rattle.bk_lex.specs.Bytes.{is_blank};
ghost use Rattle.bk_lex.specs.Insertion.{ends_operand, ends_command, begins_command, begins_statement, inserted};
ghost use Rattle.bk_lex.specs.Machine.{next, fresh, end_fault};
ghost use Rattle.bk_lex.specs.declared.machine.Mode.TheVariants.{Blank};
ghost use Rattle.bk_lex.specs.declared.reserved.What.TheVariants.{Gap, Get};
ghost use Rattle.bk_lex.specs.declared.counting.Act.TheVariants.{Goes};
ghost use Rattle.bk_lex.specs.Counting.{step_of, step_as, within, ended, ended_what, ended_symbol, ended_get_as, opened_by, begun, begun_as, finished, start, moved, header_rest, in_get, room_for, least_room, named, opened, faulty_first, faulty_after};

use crate::machine::{Effect, Fault, Header, LONGEST, Mode, begin, end_fault, follow, what_of};
use crate::reserved::{What, longer_code};
use crate::sign::Sign;
use crate::token::Kind;
use bk_base::limit::{SECTION_BYTES, SECTION_SYMBOLS};

/// The state of the machine in a section.
///
/// No two fields of one byte are neighbours. The compiler would keep those in one word, take it apart, and put it together
/// again, at each byte of the text.
#[derive(Clone, Copy, Debug, PartialEq, Eq)]
pub struct State {
    /// The bytes since the last piece.
    pub mode: Mode,
    /// The last symbol.
    pub last: Option<Kind>,
    /// The number of bytes that the section may still have.
    pub bytes: u32,
    /// Whether a line feed came since the last symbol.
    pub fed: bool,
    /// The number of symbols that the section may still have.
    pub symbols: u32,
    /// Whether the string of a GET is due, or has begun.
    pub get: bool,
}

/// The result of a piece.
#[derive(Clone, Copy, Debug, PartialEq, Eq)]
pub enum PieceResult {
    /// Nothing.
    Nothing,
    /// A symbol, and what is inserted before it.
    Symbol(Option<Kind>, Kind),
    /// The word GET.
    Get,
}

/// The effect of a byte.
#[derive(Clone, Copy, Debug, PartialEq, Eq)]
pub enum Act {
    /// It goes on with the piece.
    Goes,
    /// It begins a piece. This is the result of the piece before it.
    Begins(PieceResult),
    /// It is the last byte of the string of a GET.
    Names(Header),
}

/// The state after a piece, and the result of the piece.
#[derive(Clone, Copy, Debug, PartialEq, Eq)]
pub struct Ended {
    pub state: State,
    pub given: PieceResult,
}

/// The state before a section.
pub fn start() -> State
    ensures { result ≡ start }
{
    State {
        mode: Mode::Blank,
        bytes: SECTION_BYTES as u32,
        symbols: SECTION_SYMBOLS,
        last: None,
        fed: false,
        get: false,
    }
}

/// Whether a symbol ends an operand.
#[inline(always)]
fn ends_operand(kind: Kind) -> bool
    ensures { result ≡ ends_operand kind }
{
    matches!(
        kind,
        Kind::Name
            | Kind::Number
            | Kind::Text
            | Kind::Character
            | Kind::True
            | Kind::False
            | Kind::Query
            | Kind::Close
    )
}

/// Whether a symbol ends a command, or an operand.
#[inline(always)]
fn ends_command(kind: Kind) -> bool
    ensures { result ≡ ends_command kind }
{
    ends_operand(kind)
        || matches!(
            kind,
            Kind::SectionClose
                | Kind::Break
                | Kind::Loop
                | Kind::EndCase
                | Kind::Return
                | Kind::Finish
                | Kind::Repeat
        )
}

/// Whether a symbol begins a command, and nothing else.
#[inline(always)]
fn begins_command(kind: Kind) -> bool
    ensures { result ≡ begins_command kind }
{
    matches!(
        kind,
        Kind::SectionOpen
            | Kind::Goto
            | Kind::If
            | Kind::Unless
            | Kind::Test
            | Kind::While
            | Kind::Until
            | Kind::For
            | Kind::SwitchOn
            | Kind::Break
            | Kind::Loop
            | Kind::EndCase
            | Kind::ResultIs
            | Kind::Return
            | Kind::Finish
    )
}

/// Whether a symbol begins a command, and perhaps an operand.
#[inline(always)]
fn begins_statement(kind: Kind) -> bool
    ensures { result ≡ begins_statement kind }
{
    begins_command(kind)
        || matches!(
            kind,
            Kind::Name | Kind::Number | Kind::Open | Kind::Bang | Kind::Case | Kind::Default
        )
}

/// What is inserted between a symbol, if there is one, and the next, which is the first of its line or not.
#[inline(always)]
fn inserted(before: Option<Kind>, after: Kind, on_new_line: bool) -> Option<Kind>
    ensures { result ≡ inserted before after on_new_line }
{
    let before = before?;
    if on_new_line {
        if ends_command(before) && begins_statement(after) {
            return Some(Kind::Semicolon);
        }
    } else if ends_operand(before) && begins_command(after) {
        return Some(Kind::Do);
    }
    None
}

/// The number of symbols that a symbol adds, with what is inserted before it.
#[inline(always)]
fn room_for(insertion: Option<Kind>) -> u32
    ensures { result ≡ room_for insertion }
{
    match insertion {
        None => 1,
        Some(_) => 2,
    }
}

/// The state after a complete piece.
#[inline(always)]
pub fn end_piece(state: State) -> Result<Ended, Fault>
    ensures { result ≡ ended state }
{
    match what_of(state.mode) {
        What::Gap => Ok(Ended {
            state,
            given: PieceResult::Nothing,
        }),
        What::Get => Ok(Ended {
            state: ended_get(state)?,
            given: PieceResult::Get,
        }),
        What::Symbol(kind) => ended_symbol(state, kind),
    }
}

/// The state after the word GET. Where the string of another GET was due, the word is a fault.
fn ended_get(state: State) -> Result<State, Fault>
    ensures answers { ended_get_as result ≡ ended_what state Get }
    ensures bytes { IfOk result (λ after. after.bytes ≡ state.bytes) }
{
    match state.symbols.checked_sub(1) {
        None => Err(Fault::SectionTooLong),
        Some(_) if state.get => Err(Fault::BadGet),
        Some(symbols) => Ok(State {
            symbols,
            fed: false,
            get: true,
            ..state
        }),
    }
}

/// The state after a symbol. Where the string of a GET was due, the symbol is a fault.
#[inline(always)]
fn ended_symbol(state: State, kind: Kind) -> Result<Ended, Fault>
    ensures { result ≡ ended_symbol state kind }
{
    let insertion = inserted(state.last, kind, state.fed);
    match state.symbols.checked_sub(room_for(insertion)) {
        None => Err(Fault::SectionTooLong),
        Some(_) if state.get => Err(Fault::BadGet),
        Some(symbols) => Ok(Ended {
            state: State {
                symbols,
                last: Some(kind),
                fed: false,
                ..state
            },
            given: PieceResult::Symbol(insertion, kind),
        }),
    }
}

/// The number of symbols that a piece is certain to add, by its first byte. A `/` may begin a comment.
#[inline(always)]
fn least_room(state: State, mode: Mode) -> u32
    ensures { result ≡ least_room state mode }
{
    match mode {
        Mode::Blank | Mode::Dot | Mode::Mark(Sign::Slash) => 0,
        Mode::Mark(_) => match what_of(mode) {
            What::Symbol(kind) => room_for(inserted(state.last, kind, state.fed)),
            _ => 1,
        },
        _ => 1,
    }
}

/// The largest number of symbols that a piece is certain to add.
const MOST_ROOM: u32 = 2;

/// Whether a piece that begins so exceeds the symbols that the section may still have. Most sections may still have many, so
/// that the number for the piece is not needed.
#[inline(always)]
fn has_no_room(state: State, mode: Mode) -> bool
    ensures { result ≡ nat_lt state.symbols (least_room state mode) }
{
    state.symbols < MOST_ROOM && state.symbols < least_room(state, mode)
}

/// The first byte of a piece.
#[inline(always)]
fn begin_piece(state: &mut State, mode: Mode, byte: u8) -> Result<(), Fault>
    ensures answers { begun_as result state.new ≡ begun state.old mode byte }
    ensures keeps { OnErr result (state.new ≡ state.old) }
    ensures bytes { state.new.bytes ≡ state.old.bytes }
{
    if has_no_room(*state, mode) {
        return Err(Fault::SectionTooLong);
    }
    state.mode = if state.get { in_get(mode)? } else { mode };
    if byte == b'\n' {
        state.fed = true;
    }
    Ok(())
}

/// The piece that begins where the string of a GET is due.
#[inline(always)]
fn in_get(mode: Mode) -> Result<Mode, Fault>
    ensures { result ≡ in_get mode }
{
    match mode {
        Mode::Blank | Mode::Mark(Sign::Slash) => Ok(mode),
        Mode::Text(_) => Ok(Mode::Name(0)),
        _ => Err(Fault::BadGet),
    }
}

/// The number of symbols of a header, without the two that its GET counted before.
fn header_rest(header: Header) -> u32
    ensures { result ≡ header_rest header }
{
    match header {
        Header::Plain => 52,
        Header::Formatted => 56,
    }
}

/// The byte that ends the string of a GET, which names a header.
fn named(state: &mut State, header: Header) -> Result<Act, Fault>
    ensures answers { step_as result state.new ≡ named state.old header }
    ensures keeps { OnErr result (state.new ≡ state.old) }
    ensures bytes { state.new.bytes ≡ state.old.bytes }
{
    let Some(symbols) = state.symbols.checked_sub(header_rest(header)) else {
        return Err(Fault::HeaderTooLong);
    };
    state.mode = Mode::Blank;
    state.symbols = symbols;
    state.last = Some(Kind::SectionClose);
    state.get = false;
    Ok(Act::Names(header))
}

/// A byte that begins a piece after a blank or a comment.
#[inline(always)]
fn after_gap(state: &mut State, mode: Mode, byte: u8) -> Result<Act, Fault>
    ensures answers { step_as result state.new ≡ opened_by (ended_what state.old Gap) mode byte }
    ensures keeps { OnErr result (state.new ≡ state.old) }
    ensures bytes { state.new.bytes ≡ state.old.bytes }
{
    begin_piece(state, mode, byte)?;
    Ok(Act::Begins(PieceResult::Nothing))
}

/// A byte that begins a piece after a symbol.
#[inline(always)]
fn after_symbol(state: &mut State, kind: Kind, mode: Mode, byte: u8) -> Result<Act, Fault>
    ensures answers { step_as result state.new ≡ opened_by (ended_symbol state.old kind) mode byte }
    ensures keeps { OnErr result (state.new ≡ state.old) }
    ensures bytes { state.new.bytes ≡ state.old.bytes }
{
    let insertion = inserted(state.last, kind, state.fed);
    let Some(symbols) = state.symbols.checked_sub(room_for(insertion)) else {
        return Err(Fault::SectionTooLong);
    };
    if state.get {
        return Err(Fault::BadGet);
    }
    let after = State {
        symbols,
        last: Some(kind),
        fed: false,
        ..*state
    };
    if has_no_room(after, mode) {
        return Err(Fault::SectionTooLong);
    }
    state.mode = mode;
    state.symbols = symbols;
    state.last = Some(kind);
    state.fed = byte == b'\n';
    Ok(Act::Begins(PieceResult::Symbol(insertion, kind)))
}

/// A byte that begins a piece after the word GET.
#[inline(always)]
fn after_get(state: &mut State, mode: Mode, byte: u8) -> Result<Act, Fault>
    ensures answers { step_as result state.new ≡ opened_by (ended_what state.old Get) mode byte }
    ensures keeps { OnErr result (state.new ≡ state.old) }
    ensures bytes { state.new.bytes ≡ state.old.bytes }
{
    let mut after = ended_get(*state)?;
    begin_piece(&mut after, mode, byte)?;
    *state = after;
    Ok(Act::Begins(PieceResult::Get))
}

/// A byte that begins a piece, and ends the one before it.
#[inline(always)]
fn opened(state: &mut State, byte: u8) -> Result<Act, Fault>
    ensures answers { step_as result state.new ≡ opened state.old byte }
    ensures keeps { OnErr result (state.new ≡ state.old) }
    ensures bytes { state.new.bytes ≡ state.old.bytes }
{
    let what = what_of(state.mode);
    let mode = begin(byte).ok_or(Fault::BadByte)?;
    match what {
        What::Gap => after_gap(state, mode, byte),
        What::Get => after_get(state, mode, byte),
        What::Symbol(kind) => after_symbol(state, kind, mode, byte),
    }
}

/// Whether a byte is a blank.
#[inline(always)]
fn is_blank(byte: u8) -> bool
    ensures { result ≡ is_blank byte }
{
    matches!(byte, b' ' | b'\t' | b'\n' | 12 | b'\r')
}

/// A blank after a blank is a piece of its own.
#[inline(always)]
fn blank_again(state: &mut State, byte: u8) -> Act
    requires after { state.old.mode ≡ Blank }
    requires blank { is_blank byte ≡ true }
    ensures answers { step_as (Ok result) state.new ≡ moved state.old byte (next state.old.mode byte) }
    ensures bytes { state.new.bytes ≡ state.old.bytes }
{
    if byte == b'\n' {
        state.fed = true;
    }
    Act::Begins(PieceResult::Nothing)
}

/// Whether a letter goes on with a word. Most bytes are such letters, so they come before all others.
#[inline(always)]
fn goes_on_with_word(state: &mut State, byte: u8) -> bool
    ensures goes { result ≡ true → step_as (Ok Goes) state.new ≡ moved state.old byte (next state.old.mode byte) }
    ensures stays { result ≡ false → state.new ≡ state.old }
    ensures bytes { state.new.bytes ≡ state.old.bytes }
{
    if let Mode::Word(length, code) = state.mode {
        if byte.is_ascii_alphabetic() && length < LONGEST {
            state.mode = Mode::Word(length + 1, longer_code(code, byte));
            return true;
        }
    }
    false
}

/// The effect of a byte, whatever the number of bytes, without the short ways of `moved`.
#[inline(always)]
fn followed(state: &mut State, byte: u8) -> Result<Act, Fault>
    ensures answers { step_as result state.new ≡ moved state.old byte (next state.old.mode byte) }
    ensures keeps { OnErr result (state.new ≡ state.old) }
    ensures bytes { state.new.bytes ≡ state.old.bytes }
{
    match follow(state.mode, byte) {
        Effect::Goes(mode) => {
            state.mode = mode;
            Ok(Act::Goes)
        }
        Effect::Ends => opened(state, byte),
        Effect::Names(header) => named(state, header),
        Effect::Bad(fault) => Err(fault),
    }
}

/// The effect of a byte, whatever the number of bytes.
#[inline(always)]
fn moved(state: &mut State, byte: u8) -> Result<Act, Fault>
    ensures answers { step_as result state.new ≡ moved state.old byte (next state.old.mode byte) }
    ensures keeps { OnErr result (state.new ≡ state.old) }
    ensures bytes { state.new.bytes ≡ state.old.bytes }
{
    if goes_on_with_word(state, byte) {
        return Ok(Act::Goes);
    }
    if matches!(state.mode, Mode::Blank) && is_blank(byte) {
        return Ok(blank_again(state, byte));
    }
    if matches!(state.mode, Mode::Comment) && byte != b'\n' {
        return Ok(Act::Goes);
    }
    followed(state, byte)
}

/// The fault of a byte that exceeds the section's bytes.
#[cold]
#[inline(never)]
pub fn past(state: State, byte: u8) -> Fault
    ensures { Err result ≡ within 0 (moved state byte (next state.mode byte)) }
{
    let mut after = state;
    match moved(&mut after, byte) {
        Ok(_) | Err(Fault::HeaderTooLong | Fault::BadGet) => Fault::SectionTooLong,
        Err(fault) => fault,
    }
}

/// Whether the byte at which a fault is reported is the first of the piece in which the fault is. Else that piece begins before it.
#[cold]
#[inline(never)]
pub fn begins_fault(state: State, byte: u8) -> bool
    ensures { result ≡ faulty_first (next state.mode byte) (nat_lt state.bytes 1) (fresh byte) (ended state) }
{
    match follow(state.mode, byte) {
        Effect::Ends => state.bytes == 0 || begin(byte).is_none() || end_piece(state).is_ok(),
        _ => false,
    }
}

/// Whether the fault that a text's end makes certain is after its last piece, as of a GET that lacks its string.
#[cold]
#[inline(never)]
pub fn lacks_piece(state: State) -> bool
    ensures { result ≡ faulty_after (end_fault state.mode) (ended state) }
{
    end_fault(state.mode).is_none() && end_piece(state).is_ok()
}

/// The effect of a byte. The state is changed in place, so that only the fields that the byte changes are written. A fault leaves it as it
/// was.
#[inline(always)]
pub fn take_byte(state: &mut State, byte: u8) -> Result<Act, Fault>
    ensures answers { step_as result state.new ≡ step_of state.old byte }
    ensures keeps { OnErr result (state.new ≡ state.old) }
{
    if state.bytes == 0 {
        return Err(past(*state, byte));
    }
    let act = moved(state, byte)?;
    state.bytes -= 1;
    Ok(act)
}

/// The same for a byte after a run, which mostly does not go on as the byte before it.
#[inline(always)]
pub fn take_after_run(state: &mut State, byte: u8) -> Result<Act, Fault>
    ensures answers { step_as result state.new ≡ step_of state.old byte }
    ensures keeps { OnErr result (state.new ≡ state.old) }
{
    if state.bytes == 0 {
        return Err(past(*state, byte));
    }
    let act = followed(state, byte)?;
    state.bytes -= 1;
    Ok(act)
}

/// The result of the last piece of a text, or the fault that the text's end makes certain.
pub fn finished(state: State) -> Result<PieceResult, Fault>
    ensures { result ≡ finished state }
{
    if let Some(fault) = end_fault(state.mode) {
        return Err(fault);
    }
    let last = end_piece(state)?;
    if last.state.get {
        Err(Fault::BadGet)
    } else {
        Ok(last.given)
    }
}
