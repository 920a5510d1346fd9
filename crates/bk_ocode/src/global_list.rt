//! The globals that a section sets.
ghost use Rattle.std.specs.Prelude.{◌≡◌};

use crate::stmt::GlobalEntry;
use std::marker::Model;

/// Globals and their entries, which contracts see as their list.
#[derive(Debug, Drop)]
pub struct GlobalList {
    entries: Vec<GlobalEntry>,
}

impl Model for GlobalList {
    ghost use Rattle.std.specs.Prelude.{List};
    ghost use Rattle.bk_ocode.specs.declared.stmt.GlobalEntry.{GlobalEntry};

    ghost Value = { List GlobalEntry };

    ghost view = { λ list. list.entries.items };
}

impl GlobalList {
    /// These. It takes no memory.
    pub fn new(entries: Vec<GlobalEntry>) -> GlobalList
        ensures { result ≡ entries.items }
    {
        GlobalList { entries }
    }

    /// They, in order.
    pub fn as_slice(&self) -> &[GlobalEntry]
        ensures { result.now ≡ self.now }
    {
        self.entries.as_slice()
    }
}
