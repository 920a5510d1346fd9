//! Reading sections.
ghost use Rattle.std.specs.Prelude.{◌≡◌, true, ℕ, ◌+◌, ◌<◌, ◌≤◌, List, [], ◌∷◌, ◌++◌, false, Some, None, Ok, Err, IfOk, IfErr, IsTrue, length, if◌then◌else◌};
ghost use Rattle.std.specs.Io.KnownBytes.{Keeps};
ghost use Rattle.bk_base.specs.declared.limit.TheConstants.{INPUT_BYTES, OCODE_STATEMENTS};
ghost use Rattle.bk_base.specs.declared.ocode_fault.OcodeKind.TheVariants.{Truncated};
ghost use Rattle.bk_words.specs.Words.{words_of};
ghost use Rattle.bk_words.specs.Gathering.{Holds};
ghost use Rattle.bk_ocode.specs.StmtText.{keyword};
ghost use Rattle.bk_ocode.specs.Faults.{misplaced};
ghost use Rattle.bk_ocode.specs.Drafts.{context_in};
ghost use Rattle.bk_ocode.specs.declared.stmt.Stmt.{Stmt};
ghost use Rattle.bk_ocode.specs.declared.partial.Unfit.TheVariants.{BadWord, BadNumber};
ghost use Rattle.bk_ocode.specs.SectionAnswer.{Answers, AppliesWhateverFollows, AnswersWords, is_device};
ghost use Rattle.bk_ocode.specs.PartialStmts.{IsStep, IsPartialPart, part_words, BeginNone, refusal};

use crate::draft::Draft;
use crate::keyword::{keyword_of, place_of};
use crate::partial::{Partial, Progress, Unfit, begin, take};
use crate::section::Ocode;
use bk_base::{ByteIn, OcodeFault, OcodeKind, Refused};
use bk_words::{Gathered, take_word};
use std::alloc::Global;

/// A fault at the statement after so many others.
fn fault_after(count: usize, kind: OcodeKind) -> Refused<OcodeFault>
    requires { count ≤ OCODE_STATEMENTS }
    ensures { result ≡ Refused.Fault (record { statement = count + 1; kind = kind }) }
{
    Refused::Fault(OcodeFault {
        statement: count as u32 + 1,
        kind,
    })
}

/// What the first word of a statement after these begins.
#[tactic(auto, using(crate::proofs::KeywordLemmas::not_long, crate::proofs::KeywordLemmas::begins_none, crate::proofs::KeywordLemmas::placed_so))]
fn first_step(draft: &Draft, word: &Gathered) -> Result<Progress, Unfit>
    ensures step { IfOk result (λ step. (w : List ℕ) → Holds word.now w → IsStep step (w ∷ [])) }
    ensures placed { IfOk result (λ step. (w : List ℕ) → Holds word.now w → (s : Stmt) → keyword s ≡ w → misplaced (context_in draft.now) s ≡ false) }
    ensures bad { IfErr result (λ unfit. (unfit ≡ BadWord) × ((w : List ℕ) → Holds word.now w → (s : Stmt) → keyword s ≡ w
        → misplaced (context_in draft.now) s ≡ true)) }
{
    let Some(bytes) = word.bytes() else {
        return Err(Unfit::BadWord);
    };
    let Some(keyword) = keyword_of(bytes) else {
        return Err(Unfit::BadWord);
    };
    if !draft.is_place_of(place_of(keyword)) {
        return Err(Unfit::BadWord);
    }
    Ok(begin(keyword))
}

/// What a word more makes of a statement after these.
fn step_of(
    draft: &Draft,
    begun: Option<Partial>,
    word: &Gathered,
    alloc: Global,
) -> Result<Progress, Unfit>
    requires { IsPartialPart begun }
    ensures step { IfOk result (λ step. (w : List ℕ) → Holds word.now w → IsStep step (part_words begun ++ w ∷ [])) }
    ensures placed { IfOk result (λ step. begun ≡ None → (w : List ℕ) → Holds word.now w → (s : Stmt) → keyword s ≡ w
        → misplaced (context_in draft.now) s ≡ false) }
    ensures bad { IfErr result (λ unfit. unfit ≡ BadWord → (begun ≡ None)
        × ((w : List ℕ) → Holds word.now w → (s : Stmt) → keyword s ≡ w → misplaced (context_in draft.now) s ≡ true)) }
    ensures number { IfErr result (λ unfit. unfit ≡ BadNumber → (0 < length (part_words begun))
        × ((w : List ℕ) → Holds word.now w → BeginNone (part_words begun ++ w ∷ []))) }
{
    match begun {
        Some(begun) => take(begun, word, alloc),
        None => first_step(draft, word),
    }
}

/// What is answered where a word does not fit.
fn refused(count: usize, unfit: Unfit) -> Refused<OcodeFault>
    requires { count ≤ OCODE_STATEMENTS }
    ensures reported { result ≡ refusal count unfit }
    ensures no_device { is_device (Err result) ≡ false }
{
    match unfit {
        Unfit::BadWord => fault_after(count, OcodeKind::BadWord),
        Unfit::BadNumber => fault_after(count, OcodeKind::BadNumber),
        Unfit::Memory => Refused::Memory,
    }
}

/// What is answered where the text ends after so many statements and words of the next.
fn at_end(count: usize, words: u32) -> Result<Option<Ocode>, Refused<OcodeFault>>
    requires { count ≤ OCODE_STATEMENTS }
    ensures nothing { count + words ≡ 0 → result ≡ Ok None }
    ensures cut { 0 < count + words → result ≡ Err (Refused.Fault (record { statement = count + 1; kind = Truncated })) }
    ensures no_device { is_device result ≡ false }
{
    if count == 0 && words == 0 {
        return Ok(None);
    }
    Err(fault_after(count, OcodeKind::Truncated))
}

/// Reads the next section of a text.
fn next_section<I: ByteIn>(
    alloc: Global,
    input: &mut I,
) -> Result<Option<Ocode>, Refused<OcodeFault>>
    ensures answers { Answers result (I.left input.old) (I.left input.new) (I.ended input.new) }
    ensures failures { I.faults input.new ≡ (if is_device result then 1 else 0) }
    ensures failed_again { I.faults input.old ≡ 1 → (result ≡ Err Refused.Device) × Keeps (I.left input.old) (I.left input.new) }
    ensures ended_again { IsTrue (I.ended input.old) → (result ≡ Ok None) × IsTrue (I.ended input.new) }
{
    let mut draft = Draft::new(alloc);
    let mut word = Gathered::new();
    let mut taken = 0;
    let mut begun = None;
    let mut words = 0;
    loop {
        if draft.is_filled_by(words) {
            return Err(fault_after(draft.len(), OcodeKind::TooLong));
        }
        let Ok(found) = take_word(&mut word, input, &mut taken) else {
            return Err(Refused::Device);
        };
        if !found {
            return at_end(draft.len(), words);
        }
        words += 1;
        match step_of(&draft, begun, &word, alloc) {
            Err(unfit) => return Err(refused(draft.len(), unfit)),
            Ok(Progress::More(more)) => begun = Some(more),
            Ok(Progress::Done(stmt)) => {
                if let Some(kind) = draft.fault_of(&stmt, words) {
                    return Err(fault_after(draft.len(), kind));
                }
                let Ok(()) = draft.add(stmt, words) else {
                    return Err(Refused::Memory);
                };
                if draft.is_whole() {
                    return Ok(Some(draft.into_section()));
                }
                begun = None;
                words = 0;
            }
        }
    }
}

/// Reads the next section of a text, or None where only blanks are left.
///
/// It takes at most one byte past the last word, holds one word of the text, and no list besides the section that it
/// builds. Where memory is refused it answers so in the place of any other answer, and takes no word more.
pub fn read_section<I: ByteIn>(
    alloc: Global,
    input: &mut I,
) -> Result<Option<Ocode>, Refused<OcodeFault>>
    // What was taken is the text of the section, or blanks, or a text up to its first fault, up to the word at which memory was
    // refused, or some words of a section that did not end and the first bytes of the next word, where the device failed.
    ensures answers { Answers result (I.left input.old) (I.left input.new) (I.ended input.new) }
    // This holds whatever follows the bytes taken.
    ensures applies { AppliesWhateverFollows result (I.left input.old) (I.left input.new) (I.ended input.new) }
    // The same of the whole text, whose words say one thing.
    ensures says { (all : List ℕ) → I.left input.old ≡ Some all → length all < INPUT_BYTES → AnswersWords result (words_of all) }
    // It fails exactly where the device does, and at once where that failed before. Where the end was reported, nothing is left.
    ensures failures { I.faults input.new ≡ (if is_device result then 1 else 0) }
    ensures failed_again { I.faults input.old ≡ 1 → (result ≡ Err Refused.Device) × Keeps (I.left input.old) (I.left input.new) }
    ensures ended_again { IsTrue (I.ended input.old) → (result ≡ Ok None) × IsTrue (I.ended input.new) }
{
    next_section(alloc, input)
}
