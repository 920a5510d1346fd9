//! Laws of sections and of the step, which the crates above rest on.
ghost use Rattle.bk_ocode.specs.StepLaws.{StepKeepsBelow};
ghost use Rattle.bk_ocode.specs.RunLaws.{GoesOnAfterLabel};
ghost use Rattle.bk_ocode.specs.SoundRuns.{FirstStateIsSound, StepsAreSound, ResumingIsSound, StepsComeNearer, StepsGrow, EndsKeepBytes};
ghost use Rattle.bk_ocode.specs.FirstFault.{SayOneThing};
ghost use Rattle.bk_ocode.specs.SectionAnswer.{PrintedIsParted, PrintedAreParted, PrintedSaysAgain, PrintedIsReadAgain, NoSectionPassed};
ghost use Rattle.bk_ocode.specs.Typing.{TypedIsSection};
ghost use Rattle.bk_ocode.specs.SectionLaws.{LabelsAreSetOnce, LabelHasOnePlace, JumpFindsItsLabel, JumpHasItsLabelsDepth, DepthsSuffice, SectionIsShort, ResultFindsItsLabel, DataFindsItsLabel, ItemFindsItsLabel, GlobalFindsItsEntry, GlobalIsLast, TextIsShort};

/// No label of a section is set twice.
#[tactic(auto, using(crate::proofs::LabelsOnce::labels_are_set_once))]
pub fn labels_are_set_once()
    ensures { LabelsAreSetOnce }
{}

/// A jump goes on at the one LAB of its label.
#[tactic(auto, using(crate::proofs::LabelsOnce::label_has_one_place))]
pub fn label_has_one_place()
    ensures { LabelHasOnePlace }
{}

/// A step of a procedure keeps what is below its frame, save the words that it writes.
#[tactic(auto, using(crate::proofs::StepKeeps::step_keeps_below))]
pub fn step_keeps_below()
    ensures { StepKeepsBelow }
{}

/// A jump and the LAB of one of its labels have one depth, whichever comes first.
#[tactic(auto, using(crate::proofs::JumpDepths::jump_has_its_labels_depth))]
pub fn jump_has_its_labels_depth()
    ensures { JumpHasItsLabelsDepth }
{}

/// Each label of a jump is set by a LAB of the section.
#[tactic(auto, using(crate::proofs::JumpPlaces::jump_finds_its_label))]
pub fn jump_finds_its_label()
    ensures { JumpFindsItsLabel }
{}

/// The words of a text say one thing at most where a section is due.
#[tactic(auto, using(crate::proofs::OneSaying::one_saying))]
pub fn one_saying()
    ensures { SayOneThing }
{}

/// What is printed says the section again, whatever follows.
#[tactic(auto, using(crate::proofs::ReadAgain::printed_again))]
pub fn printed_again()
    ensures { PrintedSaysAgain }
{}

/// What `print` writes is read again by `read_section` as the same section, whatever follows.
#[tactic(auto, using(crate::proofs::ReadAgain::read_again))]
pub fn read_again()
    ensures { PrintedIsReadAgain }
{}

/// Where the device failed as a section was read, no section had come to its end.
#[tactic(auto, using(crate::proofs::CutSections::no_section_passed))]
pub fn no_section_passed()
    ensures { NoSectionPassed }
{}

/// Each statement has the depth that it needs, and no depth passes the limit of frames.
#[tactic(auto, using(crate::proofs::Depths::depths_suffice))]
pub fn depths_suffice()
    ensures { DepthsSuffice }
{}

/// There are no more statements than the limit.
#[tactic(auto, using(crate::proofs::Depths::section_is_short))]
pub fn section_is_short()
    ensures { SectionIsShort }
{}

/// After a LAB a program goes on with what follows that LAB, whatever numbers the labels have.
#[tactic(auto, using(crate::proofs::LabelRests::goes_on_after_label))]
pub fn goes_on_after_label()
    ensures { GoesOnAfterLabel }
{}

/// The words of a printed section with a text after it are its words, and then those of that text.
#[tactic(auto, using(crate::proofs::ReadAgain::printed_is_parted))]
pub fn printed_is_parted()
    ensures { PrintedIsParted }
{}

/// So are those of several printed sections, one after the other.
#[tactic(auto, using(crate::proofs::ReadAgain::printed_are_parted))]
pub fn printed_are_parted()
    ensures { PrintedAreParted }
{}

/// The first state of a program keeps what the states of its run keep: active frames with their links, and below the first
/// frame only globals, strings and data in use.
#[tactic(auto, using(crate::proofs::SoundStart::first_state_is_sound))]
pub fn first_state_is_sound()
    ensures { FirstStateIsSound }
{}

/// A step keeps it: links are not overwritten, a frame begins in its caller's, and a routine returns to a rest.
#[tactic(auto, using(crate::proofs::SoundRests::steps_are_sound))]
pub fn steps_are_sound()
    ensures { StepsAreSound }
{}

/// Going on from a rest keeps it.
#[tactic(auto, using(crate::proofs::SoundRests::resuming_is_sound))]
pub fn resuming_is_sound()
    ensures { ResumingIsSound }
{}

/// What a step writes goes after what was written, and what it reads comes from the front of the input.
#[tactic(auto, using(crate::proofs::GrowingSteps::steps_grow))]
pub fn steps_grow()
    ensures { StepsGrow }
{}

/// A step that ends a run reads and writes nothing.
#[tactic(auto, using(crate::proofs::GrowingSteps::ends_keep_bytes))]
pub fn ends_keep_bytes()
    ensures { EndsKeepBytes }
{}

/// The label of each RES is set by a LAB of the section.
#[tactic(auto, using(crate::proofs::JumpPlaces::result_finds_its_label))]
pub fn result_finds_its_label()
    ensures { ResultFindsItsLabel }
{}

/// Each label of LL, SL and LLL is set by a DATALAB.
#[tactic(auto, using(crate::proofs::LabelKinds::data_finds_its_label))]
pub fn data_finds_its_label()
    ensures { DataFindsItsLabel }
{}

/// The label of each ITEML is set by a DATALAB or an ENTRY.
#[tactic(auto, using(crate::proofs::LabelKinds::item_finds_its_label))]
pub fn item_finds_its_label()
    ensures { ItemFindsItsLabel }
{}

/// Each label of GLOBAL is set by an ENTRY.
#[tactic(auto, using(crate::proofs::LabelKinds::global_finds_its_entry))]
pub fn global_finds_its_entry()
    ensures { GlobalFindsItsEntry }
{}

/// GLOBAL is the last statement of a section.
#[tactic(auto, using(crate::proofs::LabelKinds::global_is_last))]
pub fn global_is_last()
    ensures { GlobalIsLast }
{}

/// The text of a section has no more statements and words than their limits.
#[tactic(auto, using(crate::proofs::LabelKinds::text_is_short))]
pub fn text_is_short()
    ensures { TextIsShort }
{}

/// Each step comes to a rest or nearer to one, so a stretch comes to its end.
#[tactic(auto, using(crate::proofs::NearerSteps::steps_come_nearer))]
pub fn steps_come_nearer()
    ensures { StepsComeNearer }
{}

/// Statements that agree with a plan of labels are a section, where no label is set twice, each that the plan has is set, and
/// neither the statements nor the words of their text are too many.
pub fn typed_is_section()
    ensures { TypedIsSection }
{}
