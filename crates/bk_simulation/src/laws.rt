//! Laws of programs.
ghost use Rattle.bk_simulation.specs.Simulation.{StartsWithTheirSource, StepsDoWhatSourcesMean, StepsGoOnWithTheirSource};

/// Where sections represent accepted sources, and the program is well placed, the steps end where and as n turns of the
/// meaning end, or come as far, with the same bytes written and the same input left, within 16 n + 16 steps, unless a
/// frame would begin too high.
pub fn steps_do_what_sources_mean()
    ensures { StepsDoWhatSourcesMean }
{}

/// And where the meaning goes on for ever, so do the steps, and write a beginning of what it writes.
pub fn steps_go_on_with_their_source()
    ensures { StepsGoOnWithTheirSource }
{}

/// A program has a first state exactly where global 1 can be read when the source begins.
pub fn programs_start_with_their_source()
    ensures { StartsWithTheirSource }
{}
