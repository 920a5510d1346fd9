//! The statements of a section.
ghost use Rattle.std.specs.Prelude.{◌≡◌, [], IfOk};
ghost use Rattle.bk_tree.specs.Tree.{declarations_in};
ghost use Rattle.bk_trans.specs.Naming.{named_tree};
ghost use Rattle.bk_ocode.specs.SectionStmts.{stmts_of};
ghost use Rattle.bk_tree.specs.Section.{declarations_of};
ghost use Rattle.bk_trans.specs.Scheme.{scheme};
ghost use Rattle.bk_trans.specs.Writing.{AreWritten, starting, ending};

use crate::around::Goal;
use crate::fitting::{stmts_fit, words_fit};
use crate::nodes::declare_each;
use crate::places::places_of;
use crate::remaining::Remaining;
use crate::unresolved::settle;
use crate::writer::{FIRST_STMTS, Writing};
use bk_ocode::{GlobalList, Ocode, Stmt};
use bk_scope::{Bound, Resolved};
use bk_tree::Decl;
use std::alloc::{AllocError, Global};

impl<'a> Writing<'a> {
    /// Nothing yet.
    pub fn new(alloc: Global, left: Remaining<'a>) -> Writing<'a>
        ensures { result ≡ starting left.entry }
    {
        Writing {
            alloc,
            code: Vec::new(alloc),
            spare: Vec::new(alloc),
            procedures: Vec::new(alloc),
            data_words: Vec::new(alloc),
            entries: Vec::new(alloc),
            targets: Vec::new(alloc),
            cases: Vec::new(alloc),
            default_label: None,
            left,
            next: 1,
        }
    }

    /// The statements of a section that was written, where its declarations went to these places.
    fn end(self, goals: &[Goal]) -> Result<Vec<Stmt>, AllocError>
        ensures { IfOk result (λ stmts. stmts.items ≡ ending goals.now self.entry) }
    {
        let Writing {
            alloc,
            procedures,
            mut data_words,
            entries,
            ..
        } = self;
        let mut stmts = settle(alloc, goals, procedures, data_words.len().saturating_add(1))?;
        stmts.append(&mut data_words)?;
        stmts.push(Stmt::Globals {
            entries: GlobalList::new(entries),
        })?;
        Ok(stmts)
    }
}

/// Writes a section: first in drafts, which are settled once it is known where all its declarations went.
fn write<'a>(
    alloc: Global,
    decls: &[Decl],
    meanings: &'a [Bound],
    words: &'a [u32],
) -> Result<Vec<Stmt>, AllocError>
    ensures { IfOk result (λ stmts. AreWritten (declarations_in decls.now) (record { meanings = meanings.now; words = words.now }) stmts.items) }
{
    let mut out = Writing::new(alloc, Remaining::new(meanings, words));
    out.procedures.reserve(FIRST_STMTS)?;
    let _depth = declare_each(&mut out, 2, decls)?;
    let goals = places_of(alloc, &out.targets)?;
    out.end(&goals)
}

/// The section of OCODE that a resolved section is translated to. It fails only where memory is refused.
pub fn translate(alloc: Global, resolved: &Resolved<'_>) -> Result<Ocode, AllocError>
    // Its statements are those of the scheme.
    ensures { IfOk result (λ ocode. stmts_of ocode ≡ scheme (named_tree (declarations_of resolved.now.section.now))) }
{
    resolved.is_known();
    let words = resolved.words();
    words_fit(words);
    let decls = resolved.section().decls();
    let stmts = write(alloc, decls, resolved.meanings(), words)?;
    stmts_fit(&stmts);
    Ok(Ocode::new(stmts))
}
