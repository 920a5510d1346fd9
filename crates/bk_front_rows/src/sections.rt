//! What the rows share: the section that a text is.
use bk_base::{Line, Refused, SourceFault};
use bk_lex::lex;
use bk_syntax::parse;
use bk_tree::Section;
use std::alloc::Global;

/// The first section of a text.
pub fn section_of(alloc: Global, text: &[u8]) -> Result<Section, Refused<SourceFault>> {
    let lexed = lex(alloc, text, Line::first())?;
    parse(alloc, lexed.tokens.as_slice(), lexed.line)
}
