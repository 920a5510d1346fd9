//! Stretches of code that are written aside.
ghost use Rattle.std.specs.Prelude.{◌≡◌, ◌++◌, ◌∷◌, [], OnOk};
ghost use Rattle.bk_trans.specs.Codes.{TakesFirst};

use crate::unresolved::Unresolved;
use std::alloc::{AllocError, Global};
use std::collections::VecDeque;
use std::marker::Model;

/// Stretches of code, which contracts see as the list of their drafts.
#[derive(Drop)]
pub struct Codes {
    codes: VecDeque<Vec<Unresolved>>,
}

impl Model for Codes {
    ghost use Rattle.std.specs.Prelude.{List, map};
    ghost use Rattle.bk_trans.specs.declared.unresolved.Unresolved.{Unresolved as Drafted};

    ghost Value = { List (List Drafted) };

    ghost view = { λ c. map (λ code. code.items) c.codes.items };
}

impl Codes {
    /// None.
    pub fn new(alloc: Global) -> Codes
        ensures { result ≡ [] }
    {
        Codes {
            codes: VecDeque::new(alloc),
        }
    }

    /// One more.
    pub fn push(&mut self, code: Vec<Unresolved>) -> Result<(), AllocError>
        ensures { OnOk result (self.new ≡ self.old ++ code.items ∷ []) }
    {
        self.codes.push_back(code)?;
        Ok(())
    }

    /// Takes the first.
    pub fn take_first(&mut self) -> Option<Vec<Unresolved>>
        ensures { TakesFirst result self.old self.new }
    {
        self.codes.pop_front()
    }
}
