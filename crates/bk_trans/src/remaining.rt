//! The meanings and words that are left of a section.
ghost use Rattle.std.specs.Prelude.{◌≡◌};
ghost use Rattle.bk_trans.specs.Filling.{meaning, constant};

use bk_scope::Bound;
use std::marker::Model;

/// What is left of the meanings of names and of the words of constants.
#[derive(Drop)]
pub struct Remaining<'a> {
    meanings: &'a [Bound],
    words: &'a [u32],
}

impl<'a> Model for Remaining<'a> {
    ghost use Rattle.bk_trans.specs.Filling as filling;

    ghost Value = { filling.Supply };

    ghost view = { λ g. record { meanings = g.meanings.now; words = g.words.now } };
}

impl<'a> Remaining<'a> {
    /// These, all left.
    pub fn new(meanings: &'a [Bound], words: &'a [u32]) -> Remaining<'a>
        ensures { result ≡ record { meanings = meanings.now; words = words.now } }
    {
        Remaining { meanings, words }
    }

    /// The next meaning; where none is left, one that means nothing.
    pub fn meaning(&mut self) -> Bound
        ensures part { result ≡ (meaning self.old).part }
        ensures left { self.new ≡ (meaning self.old).left }
    {
        match self.meanings.split_first() {
            None => Bound::Constant(None),
            Some((first, rest)) => {
                self.meanings = rest;
                *first
            }
        }
    }

    /// The next word of a constant; where none is left, 0.
    pub fn constant(&mut self) -> u32
        ensures part { result ≡ (constant self.old).part }
        ensures left { self.new ≡ (constant self.old).left }
    {
        match self.words.split_first() {
            None => 0,
            Some((first, rest)) => {
                self.words = rest;
                *first
            }
        }
    }
}
