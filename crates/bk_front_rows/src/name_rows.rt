//! What names and constants mean, from bytes on.
use crate::sections::section_of;
use bk_scope::{Bound, Resolved, resolve};
use std::process::Abort;
use std::test::Fail;

static NAMES: &[u8] = b"GLOBAL $( G:100 $) MANIFEST $( M = 7 $) STATIC $( S = M $)
LET F(A, B) BE $( LET X = A; L: G := X + M; S := B; F(A); GOTO L $)";

/// What the names of that text mean, in order: S and F where they are declared, A, L where it is, G, X, M, S, B, F, A, L.
static MEANINGS: [Bound; 12] = [
    Bound::Static(4),
    Bound::Static(6),
    Bound::Variable(7, 2),
    Bound::Label(7, 11),
    Bound::Global(Some(100)),
    Bound::Variable(7, 4),
    Bound::Constant(Some(7)),
    Bound::Static(4),
    Bound::Variable(7, 3),
    Bound::Static(6),
    Bound::Variable(7, 2),
    Bound::Label(7, 11),
];

/// Checks what the names mean, and the constants.
fn check_meanings(rt: &impl Abort, resolved: &Resolved<'_>) {
    assert_eq!(rt; resolved.meanings(), MEANINGS.as_slice());
    assert_eq!(rt; resolved.words(), [100, 7, 7].as_slice());
    assert_eq!(rt; resolved.section().decls().len(), 4);
}

#[test]
fn means(rt: HostRuntime) -> Result<(), Fail> {
    let section = section_of(rt.alloc(), NAMES)?;
    let resolved = resolve(rt.alloc(), &section)?;
    check_meanings(&rt, &resolved);
    Ok(())
}
