//! The symbols of a header, which are in the place of a GET.

use bk_lex::{Kind, Token};
use std::alloc::{AllocError, Global};

/// Whether a token was inserted between its neighbours.
pub fn is_inserted(token: &Token<'_>) -> bool {
    token.place.is_none() && token.text.is_empty()
}

/// Whether a token is of a header.
pub fn is_of_header(token: &Token<'_>) -> bool {
    token.place.is_none() && !token.text.is_empty()
}

/// For each MANIFEST, STATIC and GLOBAL among the tokens, in their order, whether it is of a header.
pub fn header_declarations(alloc: Global, tokens: &[Token<'_>]) -> Result<Vec<bool>, AllocError> {
    let mut headers = Vec::new(alloc);
    for token in tokens {
        if matches!(token.kind, Kind::Manifest | Kind::Static | Kind::Global) {
            headers.push(is_of_header(token))?;
        }
    }
    Ok(headers)
}
