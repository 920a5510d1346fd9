//! Texts that the library's routines write.
ghost use Rattle.std.specs.Prelude.{◌≡◌, ◌≤◌, ◌∷◌, ◌++◌, ◌+◌, ℕ, length, List, None, IfOk, IfErr, OnOk, MatchResult, map, replicate};
ghost use Rattle.std.specs.Option.{option_map};
ghost use Rattle.bk_base.specs.Format as f;
ghost use Rattle.bk_meaning.specs.Causes.{argument};
ghost use Rattle.bk_base.specs.Format.{FormatPart, aligned, parts};
ghost use Rattle.bk_meaning.specs.Library.{bytes_from, bytes_cause, string_at, string_cause, digits, argument_text, argument_cause, written, written_cause};
ghost use Rattle.bk_objects.specs.Views.{value_in, cause_in};
ghost use Rattle.bk_objects.specs.Texts.{Adds, part_in};

use crate::bytes::read_byte;
use crate::computed::{Misuse, Reason};
use crate::format::{Part, further, part_at};
use crate::store::Store;
use crate::worth::Worth;
use bk_base::word_text;
use std::alloc::AllocError;

/// Adds so many bytes of the words from an address on, from byte 1.
fn add_bytes(
    store: &Store,
    at: Worth,
    count: u8,
    text: &mut Vec<u8>,
) -> Result<Result<(), Reason>, AllocError>
    ensures adds { IfOk result (Adds text.old.items text.new.items (bytes_from count store.now (value_in at) 1)) }
    ensures why { IfOk result (λ added. IfErr added (λ why. cause_in why ≡ bytes_cause count store.now (value_in at) 1)) }
{
    for i in 0..u32::from(count) {
        match read_byte(store, at, Worth::Number(i + 1)) {
            Ok(byte) => text.push(byte)?,
            Err(reason) => return Ok(Err(reason)),
        }
    }
    Ok(Ok(()))
}

/// Adds the bytes of the string at an address.
pub fn add_string(
    store: &Store,
    at: Worth,
    text: &mut Vec<u8>,
) -> Result<Result<(), Reason>, AllocError>
    ensures adds { IfOk result (Adds text.old.items text.new.items (string_at store.now (value_in at))) }
    ensures why { IfOk result (λ added. IfErr added (λ why. cause_in why ≡ string_cause store.now (value_in at))) }
{
    match read_byte(store, at, Worth::Number(0)) {
        Ok(count) => add_bytes(store, at, count, text),
        Err(reason) => Ok(Err(reason)),
    }
}

/// Adds a word as a signed number.
pub fn add_digits(number: u32, text: &mut Vec<u8>) -> Result<(), AllocError>
    ensures { OnOk result (text.new.items ≡ text.old.items ++ digits number) }
{
    text.extend_from_slice(word_text(number.cast_signed()).as_bytes())
}

/// The width that a word asks for.
fn width(word: u32) -> usize
    ensures { result ≡ f.width word }
{
    if word < 0x8000_0000 {
        word.min(255) as usize
    } else {
        0
    }
}

/// Adds so many blanks.
fn add_blanks(count: usize, text: &mut Vec<u8>) -> Result<(), AllocError>
    ensures { OnOk result (text.new.items ≡ text.old.items ++ replicate count 32) }
{
    for i in 0..count {
        text.push(b' ')?;
    }
    Ok(())
}

/// Adds a word as a signed number, with blanks before it up to a width.
pub fn add_aligned(number: u32, width_word: u32, text: &mut Vec<u8>) -> Result<(), AllocError>
    ensures { OnOk result (text.new.items ≡ text.old.items ++ aligned number width_word) }
{
    let spelling = word_text(number.cast_signed());
    let digits = spelling.as_bytes();
    add_blanks(width(width_word).saturating_sub(digits.len()), text)?;
    text.extend_from_slice(digits)
}

/// Adds what a part of a format writes of an argument.
fn add_argument(
    store: &Store,
    part: Part,
    x: Worth,
    text: &mut Vec<u8>,
) -> Result<Result<(), Reason>, AllocError>
    ensures adds { IfOk result (Adds text.old.items text.new.items (argument_text store.now (part_in part) (value_in x))) }
    ensures why { IfOk result (λ added. IfErr added (λ why. cause_in why ≡ argument_cause store.now (part_in part) (value_in x))) }
{
    if part == Part::String {
        return add_string(store, x, text);
    }
    let Worth::Number(number) = x else {
        return Ok(Err(Reason::NoNumber(x)));
    };
    match part {
        Part::Number => add_digits(number, text)?,
        Part::Character => text.push((number % 256) as u8)?,
        Part::Column(width) => add_aligned(number, u32::from(width), text)?,
        Part::Byte(_) | Part::Percent | Part::String => return Ok(Err(Reason::NoNumber(x))),
    }
    Ok(Ok(()))
}

/// Adds what a part of a format writes, and gives the arguments after those that it takes.
fn add_part<'a>(
    store: &Store,
    part: Part,
    arguments: &'a [Worth],
    text: &mut Vec<u8>,
) -> Result<Result<&'a [Worth], Reason>, AllocError>
    ensures adds { IfOk result (λ added. MatchResult added
        (λ left. (ps : List FormatPart) →
        option_map (λ bytes. text.old.items ++ bytes) (written store.now (part_in part ∷ ps) (map value_in arguments.now))
        ≡ option_map (λ bytes. text.new.items ++ bytes) (written store.now ps (map value_in left.now)))
        (λ _. (ps : List FormatPart) → written store.now (part_in part ∷ ps) (map value_in arguments.now) ≡ None)) }
    ensures why { IfOk result (λ added. MatchResult added
        (λ left. (n k : ℕ) (ps : List FormatPart) → k + length left.now ≡ n + length arguments.now →
        written_cause store.now n (part_in part ∷ ps) (map value_in arguments.now) ≡ written_cause store.now k ps (map value_in left.now))
        (λ why. (n : ℕ) (ps : List FormatPart) → argument n (cause_in why)
        ≡ written_cause store.now n (part_in part ∷ ps) (map value_in arguments.now))) }
    ensures fewer { IfOk result (λ added. IfOk added (λ left. length left.now ≤ length arguments.now)) }
{
    match part {
        Part::Byte(byte) => {
            text.push(byte)?;
            Ok(Ok(arguments))
        }
        Part::Percent => {
            text.push(b'%')?;
            Ok(Ok(arguments))
        }
        Part::String | Part::Number | Part::Character | Part::Column(_) => {
            let Some((x, left)) = arguments.split_first() else {
                return Ok(Err(Reason::Argument));
            };
            match add_argument(store, part, *x, text)? {
                Ok(()) => Ok(Ok(left)),
                Err(reason) => Ok(Err(reason)),
            }
        }
    }
}

/// Adds what a format, the first argument, writes of those after it.
pub fn add_format(
    store: &Store,
    format: &[u8],
    arguments: &[Worth],
    text: &mut Vec<u8>,
) -> Result<Result<(), Misuse>, AllocError>
    ensures adds { IfOk result (Adds text.old.items text.new.items (written store.now (parts format.now) (map value_in arguments.now))) }
    ensures why { IfOk result (λ added. IfErr added (λ misuse. argument misuse.argument (cause_in misuse.reason)
        ≡ written_cause store.now 2 (parts format.now) (map value_in arguments.now))) }
{
    let mut rest = format;
    let mut left = arguments;
    while let Some((byte, following)) = rest.split_first() {
        let part = part_at(*byte, following);
        match add_part(store, part, left, text)? {
            Ok(others) => left = others,
            Err(reason) => {
                return Ok(Err(Misuse {
                    argument: arguments.len().saturating_sub(left.len()).saturating_add(2),
                    directive: Some(part),
                    reason,
                }));
            }
        }
        rest = &following[further(part).min(following.len())..];
    }
    Ok(Ok(()))
}
