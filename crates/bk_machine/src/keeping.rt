//! The words of a board: those that are kept, and more.
ghost use Rattle.std.specs.Prelude.{◌≡◌, ◌<◌, vec_len};
ghost use Rattle.std.specs.Bool.{OnTrue, OnFalse};
ghost use Rattle.bk_machine.specs.Kept.{words_on, words_in};

use crate::board::Board;
use crate::store::Words;

impl Board {
    /// Its words.
    pub fn store(&self) -> Words<'_>
        ensures { words_in result ≡ words_on self.now }
    {
        Words {
            kept: self.kept.as_slice(),
            count: self.words,
        }
    }

    /// Keeps twice as many words, or all. False where all are kept.
    #[cold]
    #[inline(never)]
    pub fn grow(&mut self) -> bool
        ensures store { words_on self.new ≡ words_on self.old }
        ensures words { self.new.words ≡ self.old.words }
        ensures registers { self.new.registers ≡ self.old.registers }
        ensures more { OnTrue result (vec_len self.old.kept < vec_len self.new.kept) }
        ensures full { OnFalse result (vec_len self.old.kept ≡ self.old.words) }
    {
        let len = self.kept.len();
        let words = self.words as usize;
        if len == words {
            return false;
        }
        self.kept.resize(words.min(2 * len + 1), 0).is_ok()
    }
}
