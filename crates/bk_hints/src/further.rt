//! The faults of names and constants that a section has after its first.
ghost use Rattle.std.specs.Prelude.{ℕ, ◌≡◌, ◌++◌, ◌∷◌, [], ◌≤◌, ◌+◌, OnOk, IfOk, length, codes, decimal};
ghost use Rattle.bk_base.specs.declared.source_fault.SourceFault.{SourceFault};
ghost use Rattle.bk_hints.specs.Hints.{Reports, AddsFurther};

use crate::lines::Lines;
use crate::meanings::hint_meaning;
use crate::mending::Mending;
use crate::page::page;
use crate::refused::{fault_of, index_of};
use crate::scene::Scene;
use crate::telling::is_of_syntax;
use bk_base::{Line, SourceFault, SourceKind};
use bk_lex::Token;
use bk_tree::PlacedFault;
use itoa::Buffer;
use std::alloc::{AllocError, Global};

/// How many faults of a section are reported.
const MOST: usize = 20;

/// How often a section is read again at most.
const ROUNDS: usize = 100;

/// How many symbols are read again at most, in all.
const EFFORT: usize = 400_000;

/// A section that has faults.
#[derive(Drop)]
pub struct Faulty<'a> {
    pub alloc: Global,
    pub text: &'a [u8],
    pub lines: &'a Lines,
    pub tokens: &'a [Token<'a>],
}

/// The indices of the symbols whose faults were found, and how many of these faults are not reported.
#[derive(Drop)]
struct Found {
    indices: Vec<usize>,
    more: usize,
}

impl Faulty<'_> {
    /// The next fault after these changes, and the index of its symbol; None where there is none that can be reported.
    fn next(&self, mending: &Mending) -> Result<Option<(usize, PlacedFault)>, AllocError> {
        let Some(mended) = mending.apply(self.alloc, self.text, self.tokens, Line::first())? else {
            return Ok(None);
        };
        let Some(fault) = fault_of(self.alloc, self.text, mended.as_slice())? else {
            return Ok(None);
        };
        if is_of_syntax(&fault.kind)
            || matches!(fault.kind, SourceKind::TwoProcedures(_))
            || mending.may_cause(&fault.kind)
        {
            return Ok(None);
        }
        match index_of(self.tokens, fault.at) {
            Some(index) => Ok(Some((index, fault))),
            None => Ok(None),
        }
    }

    /// What is reported of a fault of the symbol with this index.
    fn page(&self, index: usize, fault: PlacedFault) -> Result<Vec<u8>, AllocError>
        ensures { IfOk result (λ page. (fault : SourceFault) × Reports self.now.lines.now.start self.now.text.now fault page.items) }
    {
        let fault = SourceFault {
            line: fault.at.line(),
            kind: fault.kind,
        };
        let source = (self.text, self.lines);
        let scene = Scene::new(self.alloc, source, self.tokens, index, None)?;
        let reported = hint_meaning(&scene, &fault)?;
        page(self.alloc, self.text, self.lines, &fault, reported)
    }

    /// Adds what is reported of a fault, or counts it, unless one of its symbol was found before.
    fn add(
        &self,
        found: &mut Found,
        index: usize,
        fault: PlacedFault,
        pages: &mut Vec<Vec<u8>>,
    ) -> Result<(), AllocError>
        ensures adds { OnOk result (AddsFurther self.now.lines.now.start self.now.text.now pages.old.items pages.new.items) }
        ensures few { OnOk result (length pages.old.items ≤ 20 → length pages.new.items ≤ 20) }
    {
        if found.indices.contains(&index) {
            return Ok(());
        }
        found.indices.push(index)?;
        if pages.len() < MOST {
            pages.push(self.page(index, fault)?)?;
        } else {
            found.more = found.more.saturating_add(1);
        }
        Ok(())
    }

    /// Adds how many faults are not shown.
    fn add_count(&self, more: usize, pages: &mut Vec<Vec<u8>>) -> Result<(), AllocError>
        ensures adds { OnOk result (AddsFurther self.now.lines.now.start self.now.text.now pages.old.items pages.new.items) }
        ensures one { OnOk result (length pages.new.items ≤ length pages.old.items + 1) }
    {
        if more > 0 {
            pages.push(count_line(self.alloc, more)?)?;
        }
        Ok(())
    }

    /// Adds what is reported of the faults after the first, which is of the symbol with this index: twenty in all at most, and then
    /// how many more were found. After each fault something else is put in the place of its symbol, as long as that is known to
    /// take the fault away.
    pub fn add_further(
        &self,
        first: usize,
        kind: &SourceKind,
        pages: &mut Vec<Vec<u8>>,
    ) -> Result<(), AllocError>
        ensures adds { OnOk result (AddsFurther self.now.lines.now.start self.now.text.now pages.old.items pages.new.items) }
        ensures few { OnOk result (length pages.old.items ≤ 20 → length pages.new.items ≤ 21) }
    {
        let mut mending = Mending::new(self.alloc);
        let mut found = Found {
            indices: Vec::new(self.alloc),
            more: 0,
        };
        found.indices.push(first)?;
        let mut is_mended = mending.mend(self.tokens, first, kind)?;
        let rounds = EFFORT / self.tokens.len().max(1);
        for _ in 0..rounds.min(ROUNDS) {
            if !is_mended {
                break;
            }
            let Some((index, fault)) = self.next(&mending)? else {
                break;
            };
            is_mended = mending.mend(self.tokens, index, &fault.kind)?;
            self.add(&mut found, index, fault, pages)?;
        }
        self.add_count(found.more, pages)?;
        Ok(())
    }
}

/// The line that says how many faults are not shown.
fn count_line(alloc: Global, more: usize) -> Result<Vec<u8>, AllocError>
    ensures { IfOk result (λ line. line.items ≡ codes ": and at least " ++ decimal more ++ codes " more" ++ 10 ∷ []) }
{
    let mut buffer = Buffer::new();
    let mut line = Vec::new(alloc);
    line.extend_from_slice(b": and at least ")?;
    line.extend_from_slice(buffer.format(more).as_bytes())?;
    line.extend_from_slice(b" more\n")?;
    Ok(line)
}
