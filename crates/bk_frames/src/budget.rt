//! The budget of a part: how deep and how large it may be, so that the section stays within its limits.
ghost use Rattle.std.specs.Prelude.{◌≤◌};
ghost use Rattle.bk_base.specs.declared.limit.TheConstants.{TREE_DEPTH, TREE_NODES};

use smallvec::SmallVec;

/// The grammatical category of a part of a section.
#[derive(Clone, Copy)]
pub enum Category {
    /// An expression of any form.
    Expression,
    /// A name, which may be a label.
    Label,
    /// A call, which may be a command.
    Call,
    /// An expression with which an operator after a VALOF goes on.
    Operated,
    Command,
    /// No command after a colon.
    Missing,
    Definition,
    Declaration,
    /// The symbol that is due.
    Due,
    /// The `)` of a call without arguments.
    Closed,
}

/// The class of the symbol after a part: by the construct inside the part that would take this symbol.
#[derive(Clone, Copy)]
pub enum Lookahead {
    /// Nothing takes it.
    Closing,
    /// A `:=`, which a call takes.
    Assigning,
    /// A comma, which a call or a TABLE takes.
    Listing,
    /// What an expression takes.
    Going,
    /// What a command takes.
    Repeating,
    /// An operator that begins no command.
    Operating,
}

/// The budget of a part that a symbol of this class follows: the part may have at most this depth and this number of nodes.
#[derive(Clone, Copy)]
pub struct Budget {
    pub category: Category,
    pub next: Lookahead,
    pub depth: u32,
    pub nodes: u32,
    ghost small: { (depth ≤ TREE_DEPTH) × (nodes ≤ TREE_NODES) },
}

impl Default for Budget {
    ghost use Rattle.std.specs.Prelude.{◌≡◌};

    /// A budget of nothing.
    fn default() -> Budget
        ensures depth { result.depth ≡ 0 }
        ensures nodes { result.nodes ≡ 0 }
    {
        Budget {
            category: Category::Expression,
            next: Lookahead::Closing,
            depth: 0,
            nodes: 0,
        }
    }
}

/// Most unfinished constructs have at most this number of budgets. These are kept without an allocation of their own.
const USUAL_BUDGETS: usize = 6;

/// The budgets of the parts of an unfinished construct.
pub type Budgets = SmallVec<Budget, USUAL_BUDGETS>;

/// The budgets of one frame, as an element of the list of the budgets of all frames.
#[derive(Drop)]
pub struct FrameBudgets {
    pub budgets: Budgets,
}
