//! The errors of the parser, without their positions.
ghost use Rattle.std.specs.Prelude.{◌≡◌};
ghost use Rattle.bk_syntax.specs.Parsing.{reported};
ghost use Rattle.bk_frames.specs.declared.frame.Stop.TheVariants.{Unexpected};

use bk_base::{Refused, SourceKind};
use bk_frames::frame::Stop;
use bk_tree::{PlacedFault, Position};
use std::alloc::AllocError;

/// Why the symbols up to one are refused, without its position.
#[derive(Clone, Copy)]
pub enum ParseError {
    Memory,
    Unexpected,
    WrongSectionTag,
    NestedTooDeeply,
    TooManyNodes,
}

impl From<AllocError> for ParseError {
    ghost use Rattle.std.specs.Prelude.{◌≡◌};
    ghost use Rattle.bk_syntax.specs.declared.error.ParseError.TheVariants.{Memory};

    ghost from_gives = { λ _ error. error ≡ Memory };

    fn from(_error: AllocError) -> ParseError {
        ParseError::Memory
    }
}

/// Refuses a symbol. The part is dropped here, so that no step has the code that drops it.
#[cold]
#[inline(never)]
pub fn refuse<T: Drop>(_part: T) -> Stop
    ensures { result ≡ Unexpected }
{
    Stop::Unexpected
}

/// The fault that is reported for an error at this position.
pub fn reported(error: ParseError, at: Position) -> Refused<PlacedFault>
    ensures { result ≡ reported error at }
{
    let kind = match error {
        ParseError::Memory => return Refused::Memory,
        ParseError::Unexpected => SourceKind::UnexpectedSymbol,
        ParseError::WrongSectionTag => SourceKind::WrongSectionTag,
        ParseError::NestedTooDeeply => SourceKind::NestedTooDeeply,
        ParseError::TooManyNodes => SourceKind::TooManyNodes,
    };
    Refused::Fault(PlacedFault { at, kind })
}
