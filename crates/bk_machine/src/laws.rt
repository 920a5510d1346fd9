//! Laws of the definitions, for the layers above. A law is the contract of a function that does nothing.
ghost use Rattle.bk_machine.specs.FormatLaws.{FormatIsOfParts};
ghost use Rattle.bk_machine.specs.ItemWords.{ItemsAreJoined, SizesAreAdded, WordsOfItem, WordsOfBytes};
ghost use Rattle.bk_machine.specs.LoadedWords.{SegmentsLieInOrder, SegmentsLieApart, LoadedStoreHolds};
ghost use Rattle.bk_machine.specs.RunInputs.{RunsDependOnWhatTheyRead, RunsThatLeaveInput};
ghost use Rattle.bk_machine.specs.RunLengths.{RunsKeepLength};
ghost use Rattle.bk_machine.specs.ShorterStores.{RunsReadTheFront, RunsInShorterStores};
ghost use Rattle.bk_machine.specs.SizeLaws.{SizesIgnoreLabels, LabelsLieWithin, LabelsStandAtTheirItems};

/// Where the store holds all bytes of a format, it writes what its parts write.
#[tactic(auto, using(crate::proofs::Formats::format_is_of_parts))]
pub fn format_is_of_parts()
    ensures { FormatIsOfParts }
{}

/// A segment has as many words whatever the labels' numbers are.
#[tactic(auto, using(crate::specs::SizeLaws::segment_length))]
pub fn sizes_ignore_labels()
    ensures { SizesIgnoreLabels }
{}

/// No label is outside its segment.
pub fn labels_lie_within()
    ensures { LabelsLieWithin }
{}

/// A label is after the words of the items before the one that sets it.
pub fn labels_stand_at_their_items()
    ensures { LabelsStandAtTheirItems }
{}

/// Items that are appended put their words after the others', where no word holds bytes of both.
#[tactic(auto, using(crate::specs::ItemWords::items_joined))]
pub fn items_are_joined()
    ensures { ItemsAreJoined }
{}

/// They put as many words as they put alone.
#[tactic(auto, using(crate::specs::ItemWords::sizes_added))]
pub fn sizes_are_added()
    ensures { SizesAreAdded }
{}

/// The words of an item other than a byte follow those of the items before it.
#[tactic(auto, using(crate::specs::ItemWords::words_of_item))]
pub fn words_of_item()
    ensures { WordsOfItem }
{}

/// A run of bytes is packed four a word.
#[tactic(auto, using(crate::specs::ItemWords::words_of_bytes))]
pub fn words_of_bytes()
    ensures { WordsOfBytes }
{}

/// Segments are in the order in which they are given, from the first place on, and none where the stack is.
#[tactic(auto, using(crate::specs::LoadedWords::lie_in_order))]
pub fn segments_lie_in_order()
    ensures { SegmentsLieInOrder }
{}

/// No two segments have a word in one place.
#[tactic(auto, using(crate::specs::LoadedWords::lie_apart))]
pub fn segments_lie_apart()
    ensures { SegmentsLieApart }
{}

/// What the store before a run holds in each place.
#[tactic(auto, using(crate::specs::LoadedWords::is_loaded))]
pub fn loaded_store_holds()
    ensures { LoadedStoreHolds }
{}

/// A run keeps the length of its store.
#[tactic(auto, using(crate::specs::RunLengths::run_length))]
pub fn runs_keep_length()
    ensures { RunsKeepLength }
{}

/// A run reads its input from the front.
#[tactic(auto, using(crate::specs::ShorterStores::run_reads))]
pub fn runs_read_the_front()
    ensures { RunsReadTheFront }
{}

/// A run in a shorter store does the same, or stops before at its end with a beginning of the bytes.
#[tactic(auto, using(crate::specs::ShorterStores::run_shorter))]
pub fn runs_in_shorter_stores()
    ensures { RunsInShorterStores }
{}

/// A run that did not ask for a byte where none was left depends on the bytes that it read alone.
#[tactic(auto, using(crate::specs::RunInputs::run_depends))]
pub fn runs_depend_on_what_they_read()
    ensures { RunsDependOnWhatTheyRead }
{}

/// A run that leaves a byte did not ask where none was left.
#[tactic(auto, using(crate::specs::RunInputs::run_leaves))]
pub fn runs_that_leave_input()
    ensures { RunsThatLeaveInput }
{}
