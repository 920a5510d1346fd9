//! Laws of the meaning of programs.
ghost use Rattle.bk_meaning.specs.Growing.{CallsComeBack, MemoryNeverShrinks, OutputOnlyGrows, WhatLastsLives};
ghost use Rattle.bk_meaning.specs.Numbering.{AsManyAsCounted, WhatLastsIsAtItsNumber};
ghost use Rattle.bk_meaning.specs.Turns.{CutOnlyWithoutTurns, MoreTurns, ReadsFromTheFront};

/// More turns change nothing of what a program means, but that a run which was cut off goes on.
pub fn more_turns_change_nothing()
    ensures { MoreTurns }
{}

/// The input that a program takes is a beginning of it.
pub fn input_is_read_from_the_front()
    ensures { ReadsFromTheFront }
{}

/// A run is cut off only where no turn is left.
pub fn runs_are_cut_only_without_turns()
    ensures { CutOnlyWithoutTurns }
{}

/// From any world on what was written stays a beginning of what is written, the input is taken from its front, and the
/// most calls at once never fall.
pub fn output_only_grows()
    ensures { OutputOnlyGrows }
{}

/// After each part of a program as many calls are active as before it, and the objects that were there keep their lives
/// and sizes.
pub fn calls_come_back()
    ensures { CallsComeBack }
{}

/// Memory never has fewer objects than before.
pub fn memory_never_shrinks()
    ensures { MemoryNeverShrinks }
{}

/// Globals, strings, tables, static words and procedures live as long as the run.
pub fn what_lasts_lives()
    ensures { WhatLastsLives }
{}

/// A section has as many strings, tables, static words and procedures as are counted for it.
pub fn lasting_objects_are_counted()
    ensures { AsManyAsCounted }
{}

/// Where a run makes the address of a string, a table or a static word, or comes to a procedure, the list of what lasts has
/// it at that number.
pub fn what_lasts_is_at_its_number()
    ensures { WhatLastsIsAtItsNumber }
{}
