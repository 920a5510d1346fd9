//! Laws of the definition, for the crates above.
ghost use Rattle.bk_scope.specs.Laws.{SectionsAreClean, PartsAreClean, PartsHaveStretches, FaultlessIsSound};
ghost use Rattle.bk_scope.specs.Cases.{CasesDiffer};
ghost use Rattle.bk_scope.specs.Given.{NumbersDiffer};
ghost use Rattle.bk_scope.specs.Few.{FewNumbers};

/// Nothing that is reported of a section without faults is one.
pub fn sections_are_clean()
    ensures { SectionsAreClean }
{}

/// Of two parts that come one after the other each has no fault, where the whole has none.
pub fn parts_are_clean()
    ensures { PartsAreClean }
{}

/// What two parts report is joined in their order.
pub fn parts_have_stretches()
    ensures { PartsHaveStretches }
{}

/// Each node of a section without faults is sound.
pub fn faultless_is_sound()
    ensures { FaultlessIsSound }
{}

/// The CASEs of a SWITCHON have different words, and one DEFAULT at most is among them.
pub fn cases_differ()
    ensures { CasesDiffer }
{}

/// The numbers of declarations differ.
pub fn numbers_differ()
    ensures { NumbersDiffer }
{}

/// A section within the limits takes four numbers a node at most.
pub fn takes_few_numbers()
    ensures { FewNumbers }
{}
