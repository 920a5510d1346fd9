//! The places of the statements of a section.
ghost use Rattle.std.specs.Prelude.{◌≡◌, IfOk};
ghost use Rattle.bk_tree.specs.Section.{declarations_of};
ghost use Rattle.bk_ocode.specs.SectionStmts.{stmts_of};
ghost use Rattle.bk_source_map.specs.PlacedScheme.{places};

use crate::data::{entrances_of, put_data};
use crate::inner::inside_decls;
use crate::kind::Kind;
use crate::placing::Placing;
use bk_ocode::Ocode;
use bk_tree::Section;
use std::alloc::{AllocError, Global};

/// The place in the source of each statement of a section, in their order, where `code` is what the section is translated to. A
/// statement that no symbol gives, such as the GLOBAL at the end, is on the first line, without a place. The marks are what becomes of
/// the words of frames on the way. It fails only where memory is refused.
pub fn places_of(alloc: Global, section: &Section, code: &Ocode) -> Result<Placing, AllocError>
    // With the statements of the scheme these are the places of the placed scheme: `statements_are_placed`.
    ensures { IfOk result (λ found. found.places.items ≡ places (declarations_of section.now) (stmts_of code.now)) }
{
    let stmts = code.stmts();
    let mut found = Placing::new(alloc);
    inside_decls(&mut found, Kind::Procedures, section.decls())?;
    let mut words = Placing::new(alloc);
    inside_decls(&mut words, Kind::Words, section.decls())?;
    let entrances = entrances_of(alloc, stmts, found.places.as_slice())?;
    let data = stmts.get(found.places.len()..).unwrap_or(&[]);
    put_data(
        &mut found.places,
        entrances.as_slice(),
        words.places.as_slice(),
        data,
    )?;
    Ok(found)
}
