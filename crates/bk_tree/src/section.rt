//! A section.
ghost use Rattle.std.specs.Prelude.{◌≡◌};
ghost use Rattle.bk_tree.specs.Tree.{declarations_in};
ghost use Rattle.bk_tree.specs.Limits.{Within};

use crate::tree::Decl;

/// A section, read by `decls`. Its tree is within the limits of depth and nodes.
#[derive(Drop)]
pub struct Section {
    decls: Vec<Decl>,
    ghost within: { Within (declarations_in decls.items) },
}

impl Section {
    ghost use Rattle.bk_tree.specs.Section.{declarations_of};

    /// That of these declarations.
    pub fn new(decls: Vec<Decl>) -> Section
        requires { Within (declarations_in decls.items) }
        ensures { declarations_of result ≡ declarations_in decls.items }
    {
        Section { decls }
    }

    /// Its declarations.
    pub fn decls(&self) -> &[Decl]
        ensures tree { declarations_in result.now ≡ declarations_of self.now }
        ensures within { Within (declarations_in result.now) }
    {
        &self.decls
    }
}
