//! The laws of running sources, and of running OCODE.
ghost use Rattle.bk_filters.specs.SourceMeaning.{MeaningRuns, MeaningTooSmall, MeaningStartless, MeaningRefuses};
ghost use Rattle.bk_filters.specs.OcodeRuns.{OcodeRuns};
ghost use Rattle.bk_filters.specs.SourceCode.{FiltersWriteCode, InterpretsSources, FramesAreOfSources, OneAfterAnother};

use bk_gen::{back_end, parts_are_well_placed, parts_without_start};
use bk_simulation::{
    programs_start_with_their_source, steps_do_what_sources_mean, steps_go_on_with_their_source,
};
use bk_trans::scheme_is_accepted;

/// Runs of sources. Where the loader takes segments that represent the sections of an accepted source, a run of the machine is one of
/// the source, as it is meant; where it finds the store too small or no START, so does the meaning; and a source that is refused is
/// not accepted.
pub fn sources_run()
    ensures runs { MeaningRuns }
    ensures too_small { MeaningTooSmall }
    ensures startless { MeaningStartless }
    ensures refuses { MeaningRefuses }
{
    back_end();
    parts_are_well_placed();
    parts_without_start();
    steps_do_what_sources_mean();
    steps_go_on_with_their_source();
    programs_start_with_their_source();
}

/// The two filters, one after the other, write the code of a source: texts of segments that represent its sections.
pub fn filters_write_code()
    ensures { FiltersWriteCode }
{
    scheme_is_accepted();
    bk_ocode::one_saying();
}

/// The code of a source: interpreting a text of any segments that represent its sections promises what running it promises, with the first
/// word of the stack as the words before it; and where they report their frames, the frame that is reported is that of the source.
pub fn codes_run()
    ensures interprets { InterpretsSources }
    ensures frames { FramesAreOfSources }
{
    bk_intcode::one_saying();
    back_end();
    parts_are_well_placed();
    parts_without_start();
    steps_do_what_sources_mean();
    steps_go_on_with_their_source();
    programs_start_with_their_source();
}

/// One after another, each on just what the one before wrote: `compile` does not refuse an accepted source, nor `generate_all` the text that
/// it writes; `interpret` keeps the headline of the source on the code that comes from it, and `sizes` writes its numbers.
pub fn one_after_another()
    ensures { OneAfterAnother }
{
    scheme_is_accepted();
    bk_ocode::one_saying();
    bk_intcode::one_saying();
    back_end();
    parts_are_well_placed();
    parts_without_start();
    steps_do_what_sources_mean();
    steps_go_on_with_their_source();
    programs_start_with_their_source();
}

/// Texts of OCODE, whatever wrote them: `generate_all` does not refuse a text of accepted sections, and `interpret` does with what it writes
/// what the steps of OCODE do for these sections in the loader's placement, up to the first that is wild. With q steps and at most d
/// frames at once, 16 q + 16 steps of the machine are enough, and d + 1 frames of the largest depth and 16 words each after the image.
/// For a compiler to OCODE this leaves its own part: that it writes such a text, and that the steps of OCODE do what its source means.
pub fn ocode_runs()
    ensures { OcodeRuns }
{
    bk_ocode::one_saying();
    bk_intcode::one_saying();
    back_end();
    parts_are_well_placed();
    parts_without_start();
}
