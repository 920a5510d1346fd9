//! Which symbol of a section is refused.

use crate::reader::Reader;
use bk_base::{Line, Refused};
use bk_lex::Token;
use bk_scope::resolve_placed;
use bk_syntax::parse_placed;
use bk_tables::KeyMaker;
use bk_tree::{PlacedFault, Position};
use std::alloc::{AllocError, Global};

/// The number of a line that no symbol is on.
const NO_LINE: u32 = 4_294_967_295;

/// The index of the first symbol with which no section begins; the number of the symbols where it is their end.
fn first_refused(alloc: Global, tokens: &[Token]) -> Result<usize, AllocError> {
    let mut reader = Reader::new(alloc);
    for (i, token) in tokens.iter().enumerate() {
        if !reader.read(token.kind, token.text)? {
            return Ok(i);
        }
    }
    Ok(tokens.len())
}

/// The index of the symbol at this position, if it has a place in the text.
pub fn index_of(tokens: &[Token], at: Position) -> Option<usize> {
    let place = at.bytes().checked_sub(1)?;
    tokens.iter().position(|token| token.place == Some(place))
}

/// The fault of a section with these symbols, of its syntax or else of its names, if it has one. The text is that of the section.
pub fn fault_of(
    alloc: Global,
    text: &[u8],
    tokens: &[Token],
) -> Result<Option<PlacedFault>, AllocError> {
    let section = match parse_placed(alloc, tokens, Line::new(NO_LINE)) {
        Ok(section) => section,
        Err(Refused::Fault(fault)) => return Ok(Some(fault)),
        Err(_) => return Err(AllocError),
    };
    let mut key = KeyMaker::new();
    key.add_bytes(text);
    match resolve_placed(alloc, &section, key.hashers()) {
        Err(Refused::Fault(fault)) => Ok(Some(fault)),
        Err(_) => Err(AllocError),
        Ok(_) => Ok(None),
    }
}

/// The index of the symbol at which a section is refused, for its syntax or else for its names; or the number of the symbols, where
/// the fault is at their end. One that is not in the text has a line alone: it is the first that is refused.
pub fn refused_at(alloc: Global, text: &[u8], tokens: &[Token]) -> Result<usize, AllocError> {
    let Some(fault) = fault_of(alloc, text, tokens)? else {
        return Ok(tokens.len());
    };
    if fault.at.bytes() == 0 {
        return first_refused(alloc, tokens);
    }
    Ok(index_of(tokens, fault.at).unwrap_or(tokens.len()))
}
