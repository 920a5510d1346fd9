//! Hashers for tables of what a text chooses.
//!
//! Whoever knows the key of a table's hashes can choose entries that share one place of it, and then each look-up compares with all
//! of them. So the key is made from all that the table is to hold, or from the whole text, before the table is filled: a change of
//! one entry changes the key for all. No contract says what the key is, since a table answers the same with each; only the time
//! depends on it.
#![tactic(auto)]

#[cfg(test)]
mod tests;

use std::hash::{BuildHasher, DefaultHasher, FoldHasher, Hasher};

/// Makes the hashers of one table: those of the standard library that multiply and fold, begun with a key of 64 bits.
#[derive(Clone, Copy)]
pub struct KeyedHashers {
    keyed: FoldHasher,
}

impl BuildHasher for KeyedHashers {
    type Hasher = FoldHasher;

    ghost build_hasher = { λ hashers. hashers.keyed };

    #[inline]
    fn build_hasher(&self) -> FoldHasher {
        self.keyed
    }
}

/// Makes a key from words and bytes, by SipHash.
#[derive(Clone, Copy)]
pub struct KeyMaker {
    hasher: DefaultHasher,
}

impl KeyMaker {
    /// Of nothing.
    pub fn new() -> KeyMaker {
        KeyMaker {
            hasher: DefaultHasher::new(),
        }
    }

    /// The key depends on one more word.
    pub fn add(&mut self, word: u64) {
        self.hasher.write_u64(word);
    }

    /// The key depends on these bytes too.
    pub fn add_bytes(&mut self, bytes: &[u8]) {
        self.hasher.write(bytes);
    }

    /// The hashers with the key so far, which they hash before all else.
    pub fn hashers(&self) -> KeyedHashers {
        let mut keyed = FoldHasher::default();
        keyed.write_u64(self.hasher.finish());
        KeyedHashers { keyed }
    }
}
