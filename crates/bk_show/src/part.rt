//! Which part of a section is shown.

/// Which part of a section is shown.
#[derive(Clone, Copy, Debug, PartialEq, Eq)]
pub enum Part {
    /// The tokens, the tree, the names, OCODE and INTCODE, one after another.
    All,
    /// The tokens, with what is inserted between them.
    Tokens,
    /// The tree.
    Tree,
    /// The meaning of each name.
    Names,
    /// The statements of OCODE.
    Ocode,
    /// The items of INTCODE.
    Intcode,
    /// Where the words of the code come from in the source, and what their operands and the words of frames are called.
    Map,
    /// The tree in the language of Graphviz.
    Dot,
}

/// Whether a part of this kind, which is one of those of `All`, is shown where `asked` is asked for.
pub fn is_shown(part: Part, asked: Part) -> bool {
    asked == Part::All || asked == part
}
