//! Going through a section: the declarations in scope, and what was found.

use crate::findings::Findings;
use crate::table::Table;
use std::alloc::Global;
use std::marker::Model;

/// The declarations in scope, and what was found so far.
#[derive(Drop)]
pub struct Walk<'a> {
    pub alloc: Global,
    pub table: Table<'a>,
    pub findings: Findings<'a>,
}

impl<'a> Model for Walk<'a> {
    ghost use Rattle.bk_scope.specs.Entering.{Stage};

    ghost Value = { Stage };

    ghost view = { λ walk. record { scope = walk.table; found = walk.findings } };
}
