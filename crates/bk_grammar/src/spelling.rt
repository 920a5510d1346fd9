//! What the texts of symbols mean, beside the values that bk_lex gives.
ghost use Rattle.std.specs.Prelude.{◌≡◌, IfOk, List, ℕ, map};
ghost use Rattle.std.specs.Char.{to_ascii_uppercase};
ghost use Rattle.bk_lex.specs.Values.{upper_name};
ghost use Rattle.bk_grammar.specs.Spelling.{tag_of};
ghost use Rattle.bk_grammar.specs.Brackets.{same_tag};

use bk_tree::Letters;
use std::alloc::{AllocError, Global};

/// A name in upper case. Most names are short: their letters are put one by one, with no call that copies them first.
pub fn name(alloc: Global, text: &[u8]) -> Result<Letters, AllocError>
    ensures { IfOk result (λ letters. letters.items ≡ upper_name text.now) }
{
    let mut letters = Letters::with_capacity(alloc, text.len())?;
    for letter in text {
        letters.push_reserved(letter.to_ascii_uppercase());
    }
    Ok(letters)
}

/// The tag of a section bracket as it is spelled, empty if it has none.
pub fn tag(text: &[u8]) -> &[u8]
    ensures { upper_name result.now ≡ tag_of text.now }
{
    match text {
        [_, _, tag @ ..] => tag,
        _ => &[],
    }
}

/// Whether two tags are one, letter case ignored.
pub fn same_tag(a: &[u8], b: &[u8]) -> bool
    ensures { result ≡ same_tag (upper_name a.now) (upper_name b.now) }
{
    a.eq_ignore_ascii_case(b)
}
