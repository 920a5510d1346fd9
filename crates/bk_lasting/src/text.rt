//! The words of strings.
ghost use Rattle.std.specs.Prelude.{◌≡◌, ◌+◌, ◌<◌, ◌≤◌, length, take, get_or, IfOk};
ghost use Rattle.bk_base.specs.Strings.{packed};
ghost use Rattle.bk_base.specs.Word.{packed_word};
ghost use Rattle.bk_meaning.specs.Lasting.{text_words};

use bk_base::limit::NAME_BYTES;
use bk_base::word;
use std::alloc::{AllocError, Global};

/// The byte at this place; 0 after the end.
fn byte_at(bytes: &[u8], i: usize) -> u8
    ensures { result ≡ get_or bytes.now i 0 }
{
    bytes.get(i).copied().unwrap_or(0)
}

/// The word of the four bytes from this place on, with zeros after the end.
fn word_at(bytes: &[u8], i: usize) -> u32
    requires { i < length bytes.now }
    ensures { result ≡ packed_word (get_or bytes.now i 0) (get_or bytes.now (i + 1) 0) (get_or bytes.now (i + 2) 0) (get_or bytes.now (i + 3) 0) }
{
    word::packed(
        byte_at(bytes, i),
        byte_at(bytes, i + 1),
        byte_at(bytes, i + 2),
        byte_at(bytes, i + 3),
    )
}

/// Bytes as words, four in each.
#[tactic(auto, using(crate::proofs::Packed::packed_next, crate::proofs::Packed::packed_end))]
fn packed(alloc: Global, bytes: &[u8]) -> Result<Vec<u32>, AllocError>
    ensures { IfOk result (λ words. words.items ≡ packed bytes.now) }
{
    let mut words = Vec::new(alloc);
    for i in 0..bytes.len().div_ceil(4) {
        words.push(word_at(bytes, 4 * i))?;
    }
    Ok(words)
}

/// The first bytes of a string, at most so many.
fn at_most(most: usize, bytes: &[u8]) -> &[u8]
    ensures bytes { result.now ≡ take most bytes.now }
    ensures few { length result.now ≤ most }
{
    if bytes.len() <= most {
        bytes
    } else {
        &bytes[..most]
    }
}

/// The words of a string: byte 0 is its length, and the last word is filled with zeros.
pub fn text_words(alloc: Global, bytes: &[u8]) -> Result<Vec<u32>, AllocError>
    ensures { IfOk result (λ words. words.items ≡ text_words bytes.now) }
{
    let first = at_most(NAME_BYTES, bytes);
    let mut string = Vec::new(alloc);
    string.push(first.len() as u8)?;
    string.extend_from_slice(first)?;
    packed(alloc, &string)
}
