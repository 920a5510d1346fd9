//! What a name means.

/// What a name was declared as. A word of a frame and a label have the number of their procedure in front, so that another
/// procedure's are distinguished from one's own.
#[derive(Clone, Copy, Debug, PartialEq, Eq)]
pub enum Bound {
    /// A constant of MANIFEST, with its word; without one where its constant is wrong.
    Constant(Option<u32>),
    /// A global, with its number, from 0 to `GLOBAL_NUMBER`; without one where its constant is wrong.
    Global(Option<u32>),
    /// A static word, with the number of its declaration: an item of STATIC, or a procedure whose name meant no global.
    Static(u32),
    /// A word of a frame, with its place there: a formal, a variable of LET or of FOR.
    Variable(u32, u32),
    /// A label, with its number.
    Label(u32, u32),
}
