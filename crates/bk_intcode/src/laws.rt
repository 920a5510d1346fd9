//! Laws of texts, which calls of the crates above rest on.
ghost use Rattle.bk_intcode.specs.SegmentAnswer.{PrintedIsReadAgain, NoSegmentPassed};
ghost use Rattle.bk_intcode.specs.FirstSaying.{PrintedIsParted, PrintedAreParted, PrintedSaysAgain, SayOneThing};

/// What is printed says the segment again, whatever follows.
#[tactic(auto, using(crate::proofs::PrintedLemmas::printed_again))]
pub fn printed_again()
    ensures { PrintedSaysAgain }
{}

/// The words of a text say one thing at most where a segment is due.
#[tactic(auto, using(crate::proofs::OneSaying::one_saying))]
pub fn one_saying()
    ensures { SayOneThing }
{}

/// What `print` writes is read again by `read_segment` as the same segment, whatever follows.
#[tactic(auto, using(crate::proofs::ReadAgain::read_again))]
pub fn read_again()
    ensures { PrintedIsReadAgain }
{}

/// The words of a printed segment with a text after it are its words, and then those of that text.
#[tactic(auto, using(crate::proofs::PrintedLemmas::printed_is_parted))]
pub fn printed_is_parted()
    ensures { PrintedIsParted }
{}

/// So are those of several printed segments, one after the other.
#[tactic(auto, using(crate::proofs::PrintedLemmas::printed_are_parted))]
pub fn printed_are_parted()
    ensures { PrintedAreParted }
{}

/// Where the device failed as a segment was read, no segment had come to its end.
#[tactic(auto, using(crate::proofs::CutSegments::no_segment_passed))]
pub fn no_segment_passed()
    ensures { NoSegmentPassed }
{}
