//! What the names and constants of a section are.
ghost use Rattle.std.specs.Prelude.{◌≡◌, IfOk};
ghost use Rattle.bk_tree.specs.Section.{declarations_of};
ghost use Rattle.bk_scope.specs.Resolution.{Resolves, ResolvesPlaced};

use crate::findings::{Findings, Known};
use crate::nodes::declare_each;
use crate::place::Enclosing;
use crate::section_names::Resolved;
use crate::table::Table;
use crate::walk::Walk;
use bk_base::{Refused, SourceFault};
use bk_tables::{KeyMaker, KeyedHashers};
use bk_tree::{PlacedFault, Section, on_line};
use std::alloc::Global;

/// What the names of a section mean and what its constants are, or the first of its faults: by place, and at one place by
/// the number of the kind. The tables of names have a fixed key: for a text that others choose there is `resolve_keyed`.
pub fn resolve(alloc: Global, section: &Section) -> Result<Resolved<'_>, Refused<SourceFault>>
    // The meanings and words are those of the section; else the first of its faults is returned, on the line of its symbol.
    ensures resolves { Resolves result (declarations_of section.now) }
    // The result is of this section.
    ensures section { IfOk result (λ resolved. resolved.section.now ≡ section.now) }
{
    resolve_keyed(alloc, section, KeyMaker::new().hashers())
}

/// What `resolve` answers. The key of the hashers, of the tables of names, is to be made from the whole text of the section.
pub fn resolve_keyed(
    alloc: Global,
    section: &Section,
    hashers: KeyedHashers,
) -> Result<Resolved<'_>, Refused<SourceFault>>
    // The meanings and words are those of the section; else the first of its faults is returned, on the line of its symbol.
    ensures resolves { Resolves result (declarations_of section.now) }
    // The result is of this section.
    ensures section { IfOk result (λ resolved. resolved.section.now ≡ section.now) }
{
    match resolve_placed(alloc, section, hashers) {
        Ok(resolved) => Ok(resolved),
        Err(refused) => Err(on_line(refused)),
    }
}

/// What `resolve_keyed` answers, with the position of the symbol that is at fault in the place of its line.
#[tactic(auto, using(crate::proofs::Whole::first_found, crate::proofs::Whole::none_found, crate::proofs::Whole::meanings_found, crate::proofs::Whole::words_found, crate::proofs::Whole::numbers_fit))]
pub fn resolve_placed(
    alloc: Global,
    section: &Section,
    hashers: KeyedHashers,
) -> Result<Resolved<'_>, Refused<PlacedFault>>
    // The meanings and words are those of the section; else the first of its faults is returned.
    ensures resolves { ResolvesPlaced result (declarations_of section.now) }
    // The result is of this section.
    ensures section { IfOk result (λ resolved. resolved.section.now ≡ section.now) }
{
    let mut walk = Walk {
        alloc,
        table: Table::new(alloc, hashers)?,
        findings: Findings::new(alloc, hashers)?,
    };
    declare_each(&mut walk, Enclosing::outermost(), section.decls())?;
    let Walk { findings, .. } = walk;
    match findings.end() {
        Ok(Known { meanings, words }) => Ok(Resolved::new(section, meanings, words)),
        Err(fault) => Err(Refused::Fault(fault)),
    }
}
