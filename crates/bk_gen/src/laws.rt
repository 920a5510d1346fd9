//! The laws of the layers below on which the code rests, and the law of the back end.
ghost use Rattle.bk_gen.specs.BackEnd.{BackEndHolds, PartsAreWellPlaced, PartsWithoutStart};
ghost use Rattle.bk_gen.specs.Laws.{Laws, RunLaws};

use bk_machine::format_is_of_parts;
use bk_ocode::{
    data_finds_its_label, depths_suffice, ends_keep_bytes, first_state_is_sound,
    global_finds_its_entry, item_finds_its_label, jump_finds_its_label, jump_has_its_labels_depth,
    label_has_one_place, labels_are_set_once, result_finds_its_label, resuming_is_sound,
    step_keeps_below, steps_are_sound, steps_come_nearer, steps_grow, text_is_short,
};

/// Of sections and formats.
pub(crate) fn laws()
    ensures { Laws }
{
    labels_are_set_once();
    label_has_one_place();
    jump_finds_its_label();
    jump_has_its_labels_depth();
    depths_suffice();
    result_finds_its_label();
    data_finds_its_label();
    item_finds_its_label();
    global_finds_its_entry();
    text_is_short();
    format_is_of_parts();
}

/// Of the states of a run.
fn run_laws()
    ensures { RunLaws }
{
    first_state_is_sound();
    steps_are_sound();
    resuming_is_sound();
    steps_grow();
    ends_keep_bytes();
    step_keeps_below();
    steps_come_nearer();
}

/// The back end as a whole: the segments that represent accepted sections, loaded and run, write what the steps of OCODE write, where
/// no step is wild. With q steps and at most d frames at once, 16 q + 16 steps of the machine are enough, and d + 1 frames of the
/// largest depth and 16 words after the image; with less it is a beginning of that, up to the limit. Where the run of OCODE goes on,
/// so does the machine's.
pub fn back_end()
    ensures { BackEndHolds }
{
    laws();
    run_laws();
}

/// Sections of which none sets global 1 have no first state: they have no START.
pub fn parts_without_start()
    ensures { PartsWithoutStart }
{}

/// Sections in the loader's placement: the number of each entry and of each place after a call is that of no other, and strings and
/// data are apart from one another, between the globals and the first frame.
pub fn parts_are_well_placed()
    ensures { PartsAreWellPlaced }
{
    laws();
    run_laws();
}
