//! Statements whose labels are not all known yet.
ghost use Rattle.std.specs.Prelude.{◌≡◌, map, IfOk};
ghost use Rattle.bk_trans.specs.Writing.{settled as Settled, settled_word as SettledWord};

use crate::around::Goal;
use crate::places::place_of;
use bk_ocode::{Stmt, Variable};
use std::alloc::{AllocError, Global};

/// A statement, or one whose label or depth is that of a declaration, which may be further on.
#[derive(Drop)]
pub enum Unresolved {
    /// A statement.
    Ready(Stmt),
    /// Pushes the word of a name; a static one has the number of its declaration for a label.
    Load(Variable),
    /// Pushes the address of such a word.
    Address(Variable),
    /// Assigns to such a word.
    Assign(Variable),
    /// Sets the depth at the label with this number.
    Stack(u32),
    /// Jumps to the label with this number.
    Jump(u32),
}

/// The word of a name.
fn settled_word(goals: &[Goal], word: Variable) -> Variable
    ensures { result ≡ SettledWord goals.now word }
{
    match word {
        Variable::Static(number) => Variable::Static(place_of(goals, number).label),
        other => other,
    }
}

/// The statement of a draft.
fn settled(goals: &[Goal], draft: Unresolved) -> Stmt
    ensures { result ≡ Settled goals.now draft }
{
    match draft {
        Unresolved::Ready(stmt) => stmt,
        Unresolved::Load(word) => Stmt::Load {
            from: settled_word(goals, word),
        },
        Unresolved::Address(word) => Stmt::Address {
            of: settled_word(goals, word),
        },
        Unresolved::Assign(word) => Stmt::Assign {
            to: settled_word(goals, word),
        },
        Unresolved::Stack(number) => Stmt::Stack {
            depth: place_of(goals, number).depth,
        },
        Unresolved::Jump(number) => Stmt::Jump {
            label: place_of(goals, number).label,
        },
    }
}

/// The statements of drafts, where declarations went to these places, with memory for so many more.
pub fn settle(
    alloc: Global,
    goals: &[Goal],
    drafts: Vec<Unresolved>,
    more: usize,
) -> Result<Vec<Stmt>, AllocError>
    ensures { IfOk result (λ stmts. stmts.items ≡ map (Settled goals.now) drafts.items) }
{
    let mut stmts = Vec::with_capacity(alloc, drafts.len().saturating_add(more))?;
    for draft in drafts {
        match draft {
            Unresolved::Ready(stmt) => stmts.push(stmt)?,
            other => stmts.push(settled(goals, other))?,
        }
    }
    Ok(stmts)
}
