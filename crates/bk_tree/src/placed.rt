//! Faults with the positions of their symbols.
ghost use Rattle.std.specs.Prelude.{◌≡◌};
ghost use Rattle.bk_tree.specs.Placed.{on_line};

use crate::position::Position;
use bk_base::{Refused, SourceFault, SourceKind};

/// A fault of the syntax or of the names of a section, with the position of the symbol that is at fault. At the section's end there is
/// no symbol: there the position has a line and no place.
#[derive(Debug, Drop)]
pub struct PlacedFault {
    /// The position of its symbol.
    pub at: Position,
    /// What is wrong.
    pub kind: SourceKind,
}

/// The fault with its line in the place of its position.
pub fn on_line(refused: Refused<PlacedFault>) -> Refused<SourceFault>
    ensures { result ≡ on_line refused }
{
    match refused {
        Refused::Fault(PlacedFault { at, kind }) => Refused::Fault(SourceFault {
            line: at.line(),
            kind,
        }),
        Refused::Memory => Refused::Memory,
        Refused::Device => Refused::Device,
    }
}
