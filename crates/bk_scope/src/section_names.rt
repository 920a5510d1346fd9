//! A section whose names and constants are known.
ghost use Rattle.std.specs.Prelude.{◌≡◌};
ghost use Rattle.bk_tree.specs.Section.{declarations_of};
ghost use Rattle.bk_scope.specs.Known.{Known};

use crate::bound::Bound;
use bk_tree::Section;

/// A section without faults, with what its names mean and what its constants are.
#[derive(Drop)]
pub struct Resolved<'a> {
    section: &'a Section,
    meanings: Vec<Bound>,
    words: Vec<u32>,
    ghost known: { Known (declarations_of section.now) meanings.items words.items },
}

impl<'a> Resolved<'a> {
    /// That of this section, with what its names mean and what its constants are.
    pub(crate) fn new(section: &'a Section, meanings: Vec<Bound>, words: Vec<u32>) -> Resolved<'a>
        requires { Known (declarations_of section.now) meanings.items words.items }
        ensures section { result.section.now ≡ section.now }
        ensures meanings { result.meanings.items ≡ meanings.items }
        ensures words { result.words.items ≡ words.items }
    {
        Resolved {
            section,
            meanings,
            words,
        }
    }

    /// The section.
    pub fn section(&self) -> &'a Section
        ensures { result.now ≡ self.now.section.now }
    {
        self.section
    }

    /// What each name that is used means, in the source's order; the names of procedures at their definitions are among
    /// them.
    pub fn meanings(&self) -> &[Bound]
        ensures { result.now ≡ self.now.meanings.items }
    {
        &self.meanings
    }

    /// The word of each constant that is asked for, in the source's order.
    pub fn words(&self) -> &[u32]
        ensures { result.now ≡ self.now.words.items }
    {
        &self.words
    }

    /// Its section has no fault, and these are its meanings and its words.
    pub fn is_known(&self)
        ensures { Known (declarations_of self.now.section.now) self.now.meanings.items self.now.words.items }
    {}
}
