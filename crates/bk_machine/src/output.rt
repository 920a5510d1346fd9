//! What the library's routines write.
ghost use Rattle.std.specs.Prelude.{◌≡◌, ◌<◌, ◌≤◌, ◌+◌, ◌^◌, IfSome};
ghost use Rattle.bk_machine.specs.Output.{byte_of, plain, aligning, lettered, directive};
ghost use Rattle.bk_machine.specs.Kept.{words_in};
ghost use Rattle.bk_base.specs.Format.{capital, is_digit};

use crate::store::{Words, word_at};
use bk_base::word;

/// A piece of output.
#[derive(Clone, Copy, Debug, PartialEq, Eq)]
pub enum Piece {
    /// A byte.
    Byte(u8),
    /// The string at an address.
    String(u32),
    /// A word as a signed number.
    Number(u32),
    /// A word as a signed number, with blanks before it up to a width.
    Aligned { number: u32, width: u32 },
}

/// What a step writes.
#[derive(Clone, Copy, Debug, PartialEq, Eq)]
pub enum Output {
    Piece(Piece),
    /// The format at an address, with the arguments from another address on.
    Format { format: u32, arguments: u32 },
}

/// A directive of a format: what it writes, and how many bytes of the format and arguments it takes.
#[derive(Clone, Copy, Debug, PartialEq, Eq)]
pub struct Directive {
    pub piece: Piece,
    /// 1 to 3.
    pub bytes: u32,
    /// 0 or 1.
    pub arguments: u32,
}

/// Byte `i` of the words from an address on.
#[inline(always)]
pub fn byte_at(store: &[u32], address: u32, i: u32) -> Option<u8>
    ensures { result ≡ byte_of store.now address i }
{
    let word = word_at(store, word::sum(address, word::distance_of_byte(i)))?;
    Some(word::byte(word, word::place_of_byte(i)))
}

/// The same, of a store of which the first words are kept.
#[inline(always)]
pub fn byte_in(store: Words<'_>, address: u32, i: u32) -> Option<u8>
    ensures { result ≡ byte_of (words_in store.entry) address i }
{
    let word = store.at(word::sum(address, word::distance_of_byte(i)))?;
    Some(word::byte(word, word::place_of_byte(i)))
}

/// A byte that writes itself.
fn plain_byte(byte: u8) -> Option<Directive>
    ensures value { result ≡ plain byte }
    ensures within { IfSome result (λ d. d.bytes ≡ 1) }
{
    Some(Directive {
        piece: Piece::Byte(byte),
        bytes: 1,
        arguments: 0,
    })
}

/// A letter in upper case.
fn capital_of(byte: u8) -> u8
    ensures { result ≡ capital byte }
{
    if 97 <= byte && byte <= 122 {
        byte - 32
    } else {
        byte
    }
}

/// Whether a byte is a digit.
fn is_digit_byte(byte: u8) -> bool
    ensures { result ≡ is_digit byte }
{
    48 <= byte && byte <= 57
}

/// `%I`, and a digit at byte `i`, of which `left` bytes are left.
fn align_directive(
    store: Words<'_>,
    format: u32,
    i: u32,
    left: u32,
    argument: u32,
) -> Option<Directive>
    ensures value { result ≡ aligning (words_in store.entry) format i left argument }
    ensures within { IfSome result (λ d. (1 ≤ d.bytes) × (d.bytes ≤ left + 2)) }
{
    if left == 0 {
        return plain_byte(b'%');
    }
    let digit = byte_in(store, format, i)?;
    if !is_digit_byte(digit) {
        return plain_byte(b'%');
    }
    let number = store.at(argument)?;
    let width = u32::from(digit - 48);
    Some(Directive {
        piece: Piece::Aligned { number, width },
        bytes: 3,
        arguments: 1,
    })
}

/// `%` and a letter in upper case, at byte `i`; at least two bytes are left.
fn letter_directive(
    store: Words<'_>,
    format: u32,
    i: u32,
    left: u32,
    argument: u32,
    letter: u8,
) -> Option<Directive>
    requires places { i + 2 < 2 ^ 32 }
    requires two { 1 < left }
    ensures value { result ≡ lettered (words_in store.entry) format i left argument letter }
    ensures within { IfSome result (λ d. (1 ≤ d.bytes) × (d.bytes ≤ left)) }
{
    let piece = match letter {
        b'S' => Piece::String(store.at(argument)?),
        b'N' => Piece::Number(store.at(argument)?),
        b'C' => Piece::Byte((store.at(argument)? % 256) as u8),
        b'I' => return align_directive(store, format, i + 2, left - 2, argument),
        b'%' => {
            return Some(Directive {
                piece: Piece::Byte(b'%'),
                bytes: 2,
                arguments: 0,
            });
        }
        _ => return plain_byte(b'%'),
    };
    Some(Directive {
        piece,
        bytes: 2,
        arguments: 1,
    })
}

/// The directive at byte `i` of a format, of which `left` bytes are left; `argument` is the address of the next argument.
/// None where it leads outside the store.
pub fn directive_at(
    store: Words<'_>,
    format: u32,
    i: u32,
    left: u32,
    argument: u32,
) -> Option<Directive>
    requires places { i + 2 < 2 ^ 32 }
    requires some { 0 < left }
    ensures value { result ≡ directive (words_in store.entry) format i left argument }
    ensures within { IfSome result (λ d. (1 ≤ d.bytes) × (d.bytes ≤ left)) }
{
    let byte = byte_in(store, format, i)?;
    if byte == b'%' && 1 < left {
        let letter = byte_in(store, format, i + 1)?;
        return letter_directive(store, format, i, left, argument, capital_of(letter));
    }
    plain_byte(byte)
}
