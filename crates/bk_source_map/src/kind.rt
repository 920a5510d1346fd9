//! What is by itself in a node.

/// What is by itself in a node.
#[derive(Clone, Copy)]
pub(crate) enum Kind {
    /// The code of its procedures.
    Procedures,
    /// The words of its STATICs and TABLEs.
    Words,
}
