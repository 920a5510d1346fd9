//! Names as keys of tables by hash.
ghost use Rattle.std.specs.Prelude.{◌≡◌, [], ◌∷◌};
ghost use Rattle.bk_scope.specs.NameKey.{same_input};

use std::hash::{Hash, Hasher};

/// A name as a key of a table by hash. Its letters are hashed together, and not one by one as those of a slice.
#[derive(Clone, Copy, PartialEq, Eq)]
pub struct NameKey<'a> {
    letters: &'a [u8],
}

impl<'a> NameKey<'a> {
    /// That of a name.
    #[inline(always)]
    pub fn new(letters: &'a [u8]) -> NameKey<'a>
        ensures { result.letters.now ≡ letters.now }
    {
        NameKey { letters }
    }
}

impl<'a> Hash for NameKey<'a> {
    ghost hash_input = { λ name. name.letters.now ∷ [] };

    ghost respects_eq = { λ x y. same_input x.letters.now y.letters.now };

    #[inline(always)]
    fn hash<H: Hasher>(&self, state: &mut H) {
        state.write(self.letters);
    }
}
