//! Writing of texts to a device. They take no memory.
ghost use Rattle.std.specs.Prelude.{◌≡◌, ◌<◌, ◌^◌, ℕ, ◌∷◌, [], OnErr, replicate};
ghost use Rattle.bk_base.specs.Word.{signed};
ghost use Rattle.bk_base.specs.Decimal.{spelling};
ghost use Rattle.bk_base.specs.Devices.{Begins};
ghost use Rattle.bk_base.specs.Format.{aligned, width as width_of};
ghost use Rattle.bk_machine.specs.Output.{string_rest, string_text, piece_text, format_rest, format_text, output_text, whole_text};
ghost use Rattle.bk_machine.specs.Kept.{words_in};
ghost use Rattle.bk_machine.specs.Inner.Telling.{PutsText, PutsBytes};

use crate::output::{Output, Piece, byte_in, directive_at};
use crate::store::Words;
use bk_base::{ByteOut, Failed, put_all, word, word_text};

/// Puts so many blanks.
fn put_blanks<O: ByteOut>(out: &mut O, count: u32) -> Result<(), Failed>
    ensures puts { PutsBytes (O.taken out.old) (O.taken out.new) (replicate count 32) result }
    ensures passes { Begins (O.passed out.old) (O.passed out.new) }
    ensures failed { OnErr result (O.faults out.new ≡ 1) }
{
    for i in 0..count {
        out.put(b' ')?;
    }
    Ok(())
}

/// A width, as WRITED takes it.
fn width_in_bytes(width: u32) -> u32
    ensures value { result ≡ width_of width }
    ensures below { result < 256 }
{
    if width < 0x8000_0000 {
        width.min(255)
    } else {
        0
    }
}

/// Puts a byte.
#[cold]
#[inline(never)]
fn put_byte<O: ByteOut>(out: &mut O, byte: u8) -> Result<(), Failed>
    ensures puts { PutsBytes (O.taken out.old) (O.taken out.new) (byte ∷ []) result }
    ensures passes { Begins (O.passed out.old) (O.passed out.new) }
    ensures failed { OnErr result (O.faults out.new ≡ 1) }
{
    out.put(byte)
}

/// Puts a number.
#[cold]
#[inline(never)]
fn put_number<O: ByteOut>(out: &mut O, number: u32) -> Result<(), Failed>
    ensures puts { PutsBytes (O.taken out.old) (O.taken out.new) (spelling (signed number)) result }
    ensures passes { Begins (O.passed out.old) (O.passed out.new) }
    ensures failed { OnErr result (O.faults out.new ≡ 1) }
{
    put_all(out, word_text(number.cast_signed()).as_bytes())
}

/// Puts a number, with blanks before it up to a width.
#[cold]
#[inline(never)]
fn put_aligned<O: ByteOut>(out: &mut O, number: u32, width: u32) -> Result<(), Failed>
    ensures puts { PutsBytes (O.taken out.old) (O.taken out.new) (aligned number width) result }
    ensures passes { Begins (O.passed out.old) (O.passed out.new) }
    ensures failed { OnErr result (O.faults out.new ≡ 1) }
{
    let text = word_text(number.cast_signed());
    let text = text.as_bytes();
    put_blanks(out, width_in_bytes(width).saturating_sub(text.len() as u32))?;
    put_all(out, text)
}

/// Puts so many bytes of a string, from its first.
fn put_bytes<O: ByteOut>(
    store: Words<'_>,
    address: u32,
    count: u32,
    out: &mut O,
) -> Result<bool, Failed>
    requires { count < 256 }
    ensures text { PutsText (O.taken out.old) (O.taken out.new) (string_rest count (words_in store.entry) address 1) result }
    ensures passes { Begins (O.passed out.old) (O.passed out.new) }
    ensures failed { OnErr result (O.faults out.new ≡ 1) }
{
    for i in 0..count {
        let Some(byte) = byte_in(store, address, i + 1) else {
            return Ok(false);
        };
        out.put(byte)?;
    }
    Ok(true)
}

/// Puts a string.
#[cold]
#[inline(never)]
fn put_string<O: ByteOut>(store: Words<'_>, address: u32, out: &mut O) -> Result<bool, Failed>
    ensures text { PutsText (O.taken out.old) (O.taken out.new) (string_text (words_in store.entry) address) result }
    ensures passes { Begins (O.passed out.old) (O.passed out.new) }
    ensures failed { OnErr result (O.faults out.new ≡ 1) }
{
    match byte_in(store, address, 0) {
        Some(count) => put_bytes(store, address, u32::from(count), out),
        None => Ok(false),
    }
}

/// Puts a piece.
#[inline(always)]
fn put_piece<O: ByteOut>(store: Words<'_>, piece: Piece, out: &mut O) -> Result<bool, Failed>
    ensures text { PutsText (O.taken out.old) (O.taken out.new) (piece_text (words_in store.entry) piece) result }
    ensures passes { Begins (O.passed out.old) (O.passed out.new) }
    ensures failed { OnErr result (O.faults out.new ≡ 1) }
{
    match piece {
        Piece::Byte(byte) => put_byte(out, byte)?,
        Piece::String(address) => return put_string(store, address, out),
        Piece::Number(number) => put_number(out, number)?,
        Piece::Aligned { number, width } => put_aligned(out, number, width)?,
    }
    Ok(true)
}

/// Puts at most `count` directives of a format, of which that many bytes are left, from its first byte.
fn put_directives<O: ByteOut>(
    store: Words<'_>,
    format: u32,
    count: u32,
    arguments: u32,
    out: &mut O,
) -> Result<bool, Failed>
    requires { count < 256 }
    ensures text { PutsText (O.taken out.old) (O.taken out.new) (format_rest count (words_in store.entry) format 1 count arguments) result }
    ensures passes { Begins (O.passed out.old) (O.passed out.new) }
    ensures failed { OnErr result (O.faults out.new ≡ 1) }
{
    let mut at = 1;
    let mut left = count;
    let mut argument = arguments;
    for i in 0..count {
        if left == 0 {
            return Ok(true);
        }
        let Some(directive) = directive_at(store, format, at, left, argument) else {
            return Ok(false);
        };
        if !put_piece(store, directive.piece, out)? {
            return Ok(false);
        }
        at += directive.bytes;
        left -= directive.bytes;
        argument = word::sum(argument, directive.arguments);
    }
    Ok(true)
}

/// Puts a format with its arguments.
#[cold]
#[inline(never)]
fn put_format<O: ByteOut>(
    store: Words<'_>,
    format: u32,
    arguments: u32,
    out: &mut O,
) -> Result<bool, Failed>
    ensures text { PutsText (O.taken out.old) (O.taken out.new) (format_text (words_in store.entry) format arguments) result }
    ensures passes { Begins (O.passed out.old) (O.passed out.new) }
    ensures failed { OnErr result (O.faults out.new ≡ 1) }
{
    match byte_in(store, format, 0) {
        Some(count) => put_directives(store, format, u32::from(count), arguments, out),
        None => Ok(false),
    }
}

/// Puts what a step writes, and answers whether it was whole.
#[inline(always)]
pub fn put_output<O: ByteOut>(store: Words<'_>, what: Output, out: &mut O) -> Result<bool, Failed>
    ensures text { PutsText (O.taken out.old) (O.taken out.new) (output_text (words_in store.entry) what) result }
    ensures passes { Begins (O.passed out.old) (O.passed out.new) }
    ensures failed { OnErr result (O.faults out.new ≡ 1) }
{
    match what {
        Output::Piece(piece) => put_piece(store, piece, out),
        Output::Format { format, arguments } => put_format(store, format, arguments, out),
    }
}
