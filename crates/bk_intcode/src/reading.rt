//! Reading segments.
ghost use Rattle.std.specs.Prelude.{◌≡◌, ℕ, ◌+◌, ◌<◌, ◌≤◌, List, Some, None, Ok, Err, IsTrue, length, if◌then◌else◌};
ghost use Rattle.std.specs.Io.KnownBytes.{Keeps};
ghost use Rattle.bk_intcode.specs.SegmentAnswer.{Answers, AppliesWhateverFollows, AnswersWords, is_device};
ghost use Rattle.bk_words.specs.Words.{words_of};

use crate::draft::Draft;
use crate::words::{Found, next_item};
use bk_base::limit::{INPUT_BYTES, INTCODE_ITEMS};
use bk_base::{ByteIn, IntcodeFault, IntcodeKind, Refused};
use bk_machine::{Intcode, Item};
use std::alloc::Global;

/// A fault at the item after so many others.
fn fault_after(count: usize, kind: IntcodeKind) -> Refused<IntcodeFault>
    requires { count ≤ INTCODE_ITEMS }
    ensures { result ≡ Refused.Fault (record { item = count + 1; kind = kind }) }
{
    Refused::Fault(IntcodeFault {
        item: count as u32 + 1,
        kind,
    })
}

/// Reads the next segment of a text, or None where only blanks are left.
///
/// It takes at most one byte past the last word, and holds no list besides the segment that it builds. Where memory is
/// refused it answers so in the place of any other answer, and takes no word more.
pub fn read_segment<I: ByteIn>(
    alloc: Global,
    input: &mut I,
) -> Result<Option<Intcode>, Refused<IntcodeFault>>
    // What was taken is the text of the segment, or blanks, or a text up to its first fault, up to the word at which memory was
    // refused, or some words of a segment that did not end and the first bytes of the next word, where the device failed.
    ensures answers { Answers result (I.left input.old) (I.left input.new) (I.ended input.new) }
    // This holds whatever follows the bytes taken.
    ensures applies { AppliesWhateverFollows result (I.left input.old) (I.left input.new) (I.ended input.new) }
    // The same of the whole text, whose words say one thing.
    ensures says { (all : List ℕ) → I.left input.old ≡ Some all → length all < INPUT_BYTES → AnswersWords result (words_of all) }
    // It fails exactly where the device does, and at once where that failed before. Where the end was reported, nothing is left.
    ensures failures { I.faults input.new ≡ (if is_device result then 1 else 0) }
    ensures failed_again { I.faults input.old ≡ 1 → (result ≡ Err Refused.Device) × Keeps (I.left input.old) (I.left input.new) }
    ensures ended_again { IsTrue (I.ended input.old) → (result ≡ Ok None) × IsTrue (I.ended input.new) }
{
    next_segment(alloc, input)
}

/// Reads the next segment of a text.
fn next_segment<I: ByteIn>(
    alloc: Global,
    input: &mut I,
) -> Result<Option<Intcode>, Refused<IntcodeFault>>
    ensures answers { Answers result (I.left input.old) (I.left input.new) (I.ended input.new) }
    ensures failures { I.faults input.new ≡ (if is_device result then 1 else 0) }
    ensures failed_again { I.faults input.old ≡ 1 → (result ≡ Err Refused.Device) × Keeps (I.left input.old) (I.left input.new) }
    ensures ended_again { IsTrue (I.ended input.old) → (result ≡ Ok None) × IsTrue (I.ended input.new) }
{
    let mut draft = Draft::new(alloc);
    let mut taken = 0;
    loop {
        let Ok(found) = next_item(input, &mut taken) else {
            return Err(Refused::Device);
        };
        match found {
            Found::Nothing => {
                let count = draft.len();
                if count == 0 {
                    return Ok(None);
                }
                return Err(fault_after(count, IntcodeKind::Truncated));
            }
            Found::Fault(kind) => return Err(fault_after(draft.len(), kind)),
            Found::Item { item, last } => {
                if let Some(kind) = draft.fault_of(item) {
                    return Err(fault_after(draft.len(), kind));
                }
                let Ok(()) = draft.add(item) else {
                    return Err(Refused::Memory);
                };
                if let Item::End = item {
                    return Ok(Some(draft.into_segment()));
                }
                if last {
                    return Err(fault_after(draft.len(), IntcodeKind::Truncated));
                }
            }
        }
    }
}
