//! The procedures of a section, in the order of their code.

use bk_ocode::Stmt;
use std::alloc::{AllocError, Global};

/// The procedures of a section, in the order of their code.
#[derive(Drop)]
pub struct Entries<'s> {
    stmts: &'s [Stmt],
    /// Which of the statements are ENTRY.
    places: Vec<usize>,
    /// How many procedures were passed.
    passed: usize,
}

impl<'s> Entries<'s> {
    /// The procedures of these statements; none of them is passed.
    pub fn of(alloc: Global, stmts: &'s [Stmt]) -> Result<Entries<'s>, AllocError> {
        let mut places = Vec::new(alloc);
        for (i, stmt) in stmts.iter().enumerate() {
            if let Stmt::Entry { .. } = stmt {
                places.push(i)?;
            }
        }
        Ok(Entries {
            stmts,
            places,
            passed: 0,
        })
    }

    /// The name of the next procedure, if it begins at this label.
    pub fn name_at(&self, set: u32) -> Option<&'s [u8]> {
        let place = self.places.get(self.passed).copied()?;
        match self.stmts.get(place) {
            Some(Stmt::Entry { label, name }) if *label == set => Some(name.as_bytes()),
            _ => None,
        }
    }

    /// Passes a procedure, and returns how many were passed before it.
    pub fn pass(&mut self) -> usize {
        let before = self.passed;
        self.passed = before.saturating_add(1);
        before
    }
}
