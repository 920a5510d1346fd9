//! Sections of OCODE.
ghost use Rattle.std.specs.Prelude.{◌≡◌};
ghost use Rattle.bk_ocode.specs.StmtRange.{AreTyped};
ghost use Rattle.bk_ocode.specs.Section.{IsSection};

use crate::depth::{depth_after, larger};
use crate::stmt::Stmt;

/// A section: a list of statements that keeps the rules of accepted sections and the limits of statements, words of text,
/// labels and depths; its numbers and bytes are such, so that what is printed of it is read again.
#[derive(Debug, Drop)]
pub struct Ocode {
    stmts: Vec<Stmt>,
    ghost whole: { ∥ IsSection stmts.items × AreTyped stmts.items ∥₁ },
}

impl Ocode {
    ghost use Rattle.std.specs.Prelude.{◌≤◌};
    ghost use Rattle.bk_base.specs.declared.limit.TheConstants.{FRAME_WORDS};
    ghost use Rattle.bk_ocode.specs.Depth.{largest_depth};
    ghost use Rattle.bk_ocode.specs.SectionStmts.{stmts_of};

    /// The section of these statements, whose caller owes that they are one, and that numbers and bytes are such. It takes
    /// no memory.
    pub fn new(stmts: Vec<Stmt>) -> Ocode
        requires section { IsSection stmts.items }
        requires typed { AreTyped stmts.items }
        ensures { stmts_of result ≡ stmts.items }
    {
        Ocode { stmts }
    }

    /// Its statements.
    pub fn stmts(&self) -> &[Stmt]
        ensures value { result.now ≡ stmts_of self.now }
        ensures whole { IsSection result.now }
        ensures typed { AreTyped result.now }
    {
        self.stmts.as_slice()
    }

    /// Its largest depth, in words, from 0 to `limit::FRAME_WORDS`. It takes no memory.
    pub fn depth(&self) -> u32
        ensures value { result ≡ largest_depth (stmts_of self.now) }
        ensures within { result ≤ FRAME_WORDS }
    {
        let mut depth = 0;
        let mut largest = 0;
        for stmt in self.stmts() {
            depth = depth_after(depth, stmt);
            largest = larger(largest, depth);
        }
        largest
    }
}
