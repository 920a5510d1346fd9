//! Laws of the grammar, which the parser and the crates above rest on.
ghost use Rattle.bk_syntax.specs.SyntaxLaws.{ReadsTheGrammar, HaveOneTree, TagFaultApplies, SymbolFaultApplies, EndFaultApplies, GoesOnBegins, BeginsCompletes, CompletesBegins};

/// The reading machine reads just the trees of the grammar.
pub fn reads_the_grammar()
    ensures { ReadsTheGrammar }
{}

/// Symbols have at most one tree.
pub fn have_one_tree()
    ensures { HaveOneTree }
{}

/// A wrong section tag stays a fault, whatever follows.
pub fn tag_fault_applies()
    ensures { TagFaultApplies }
{}

/// An unexpected symbol stays a fault, whatever follows.
pub fn symbol_fault_applies()
    ensures { SymbolFaultApplies }
{}

/// Symbols that end too early are no section.
pub fn end_fault_applies()
    ensures { EndFaultApplies }
{}

/// Where the machine goes on, a section begins.
pub fn goes_on_begins()
    ensures { GoesOnBegins }
{}

/// Where a section within some bounds of depth and nodes begins, the machine after its beginning can complete one within them.
pub fn begins_completes()
    ensures { BeginsCompletes }
{}

/// Where the machine after the beginning of a section can complete one within some bounds of depth and nodes, a section within
/// them begins so.
pub fn completes_begins()
    ensures { CompletesBegins }
{}
