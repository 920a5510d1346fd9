//! Laws of the scheme.
ghost use Rattle.bk_trans.specs.Laws.{FillingNames, LabelsAreFew, LabelsAreSetOnce, SchemeIsAccepted, StatementsAreFew, WordsAreFew};

/// In a section without faults filling from the meanings and the words gives the tree that is named by the declarations in scope.
#[tactic(auto, using(crate::proofs::Named::filling_names))]
pub fn filling_names()
    ensures { FillingNames }
{}

/// The labels of a section within the limits of trees are within theirs.
#[tactic(auto, using(crate::proofs::Counted::labels_are_few))]
pub fn labels_are_few()
    ensures { LabelsAreFew }
{}

/// The statements of a section within the limits of trees are within theirs.
#[tactic(auto, using(crate::proofs::Counted::statements_are_few))]
pub fn statements_are_few()
    ensures { StatementsAreFew }
{}

/// No label is set twice in the statements of a section, and those that are set are its own.
pub fn labels_are_set_once()
    ensures { LabelsAreSetOnce }
{}

/// The words of the text of a section within the limits of trees are within their limit.
#[tactic(auto, using(crate::proofs::Counted::words_are_few))]
pub fn words_are_few()
    ensures { WordsAreFew }
{}

/// The statements of a section without faults that is within the limits of trees are an accepted section of OCODE.
#[tactic(auto, using(crate::proofs::Accepted::scheme_is_accepted))]
pub fn scheme_is_accepted()
    ensures { SchemeIsAccepted }
{}
