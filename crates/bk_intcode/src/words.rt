//! Taking items from a device.
ghost use Rattle.std.specs.Prelude.{◌≡◌, ℕ, ◌+◌, ◌<◌, ◌≤◌, IsTrue, List, ◌∷◌, length, Ok, IfOk, IfErr, OnOk, OnErr, IsErr};
ghost use Rattle.std.specs.Io.KnownBytes.{Consumes, Keeps};
ghost use Rattle.bk_base.specs.declared.limit.TheConstants.{INPUT_BYTES};
ghost use Rattle.bk_words.specs.TextEnd.{AtEnd};
ghost use Rattle.bk_words.specs.Gathering.{Holds, BeginsWord};
ghost use Rattle.bk_intcode.specs.WordMeaning.{Means, WordFault};
ghost use Rattle.bk_intcode.specs.Next.{IsNext};

use crate::meaning::{begins, meaning_of};
use bk_base::limit::INPUT_BYTES;
use bk_base::{ByteIn, Failed, IntcodeKind};
use bk_machine::Item;
use bk_words::{Gathered, next_word};

/// What is next in a text.
#[derive(Clone, Copy, Debug, PartialEq, Eq)]
pub enum Found {
    /// An item, and whether the text ended right after its word.
    Item { item: Item, last: bool },
    /// A word with a fault of its own.
    Fault(IntcodeKind),
    /// The end of the text.
    Nothing,
}

/// What a word means of which so much is held.
fn held_meaning(held: &Gathered) -> Result<Item, IntcodeKind>
    ensures item { IfOk result (λ item. (first : ℕ) (rest : List ℕ) → Holds held.now (first ∷ rest) → Means (first ∷ rest) item) }
    ensures fault { IfErr result (λ kind. (first : ℕ) (rest : List ℕ) → Holds held.now (first ∷ rest) → WordFault (first ∷ rest) kind) }
{
    if let Some(word) = held.bytes() {
        return meaning_of(word);
    }
    match held.first() {
        Some(first) if begins(first) => Err(IntcodeKind::BadNumber),
        _ => Err(IntcodeKind::BadLetter),
    }
}

/// What the word means that a device gives next. It takes the blanks before the word, the word, and the blank after it
/// if there is one.
pub fn next_item<I: ByteIn>(input: &mut I, taken: &mut u64) -> Result<Found, Failed>
    requires { 0 < taken.old → I.faults input.old ≡ 0 }
    ensures gives { IfOk result (λ found. (given : List ℕ) × Consumes (I.left input.old) (I.left input.new) given
        × (taken.new ≡ taken.old + length given) × IsNext found given (AtEnd (I.ended input.new) taken.new)) }
    ensures within { OnOk result (taken.new ≤ INPUT_BYTES) }
    ensures clear { OnOk result (I.faults input.new ≡ 0) }
    ensures failed { OnErr result (I.faults input.new ≡ 1) }
    // Where the device failed, blanks were taken and the first bytes of a word, if any.
    ensures stops { OnErr result ((given : List ℕ) × Consumes (I.left input.old) (I.left input.new) given
        × (taken.new ≡ taken.old + length given) × (taken.new < INPUT_BYTES) × BeginsWord given) }
    ensures failed_again { I.faults input.old ≡ 1 → IsErr result × Keeps (I.left input.old) (I.left input.new) }
    ensures ended_again { IsTrue (I.ended input.old) → (result ≡ Ok Found.Nothing) × IsTrue (I.ended input.new) }
{
    let Some(held) = next_word(input, taken)? else {
        return Ok(Found::Nothing);
    };
    match held_meaning(&held) {
        Ok(item) => Ok(Found::Item {
            item,
            last: held.is_last(),
        }),
        Err(kind) => Ok(Found::Fault(kind)),
    }
}
