//! Operators on the words of constants.
ghost use Rattle.std.specs.Prelude.{◌≡◌, Option};
ghost use Rattle.std.specs.Option.{option_and_then};
ghost use Rattle.bk_scope.specs.Constants.{prefix_word, infix_word};

use bk_base::word;
use bk_objects::calculated;
use bk_tree::{Operator, Prefix};

/// The word with a prefix.
pub fn prefixed(prefix: Prefix, word: Option<u32>) -> Option<u32>
    ensures { result ≡ option_and_then (prefix_word prefix) word }
{
    let word = word?;
    match prefix {
        Prefix::Contents | Prefix::Address => None,
        Prefix::Plus => Some(word),
        Prefix::Minus => Some(word::negation(word)),
        Prefix::Not => Some(word::bitwise_not(word)),
    }
}

/// The word of an operator between two words.
pub fn infixed(operator: Operator, left: Option<u32>, right: Option<u32>) -> Option<u32>
    ensures { result ≡ option_and_then (λ x. option_and_then (infix_word operator x) right) left }
{
    let x = left?;
    let y = right?;
    calculated(operator, x, y)
}
