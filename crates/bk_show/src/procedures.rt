//! The procedures of a program in a store, by the addresses at which they begin.

use crate::entries::Entries;
use crate::placer::Placer;
use bk_machine::{Intcode, Item};
use bk_ocode::Ocode;
use std::alloc::{AllocError, Global};

/// The code from one address to that of the next procedure.
#[derive(Drop)]
struct Procedure {
    /// The address of its first word.
    at: u32,
    /// The name that ENTRY gives it; empty where none is known.
    name: Vec<u8>,
}

/// The procedures of a program in a store, in the order of their addresses.
#[derive(Drop)]
pub struct Procedures {
    list: Vec<Procedure>,
    placer: Placer,
}

impl Procedures {
    /// None, before any segment.
    pub fn new(alloc: Global) -> Procedures {
        Procedures {
            list: Vec::new(alloc),
            placer: Placer::new(),
        }
    }

    /// Begins a procedure at the next word.
    fn begin(&mut self, alloc: Global, name: &[u8]) -> Result<(), AllocError> {
        let mut copy = Vec::new(alloc);
        copy.extend_from_slice(name)?;
        self.list.push(Procedure {
            at: self.placer.next(),
            name: copy,
        })?;
        Ok(())
    }

    /// Adds the procedures of a segment, which is placed after the segments before it, with the names that the section has from which
    /// it was generated.
    pub fn add(
        &mut self,
        alloc: Global,
        segment: &Intcode,
        section: &Ocode,
    ) -> Result<(), AllocError> {
        let mut entries = Entries::of(alloc, section.stmts())?;
        self.begin(alloc, b"")?;
        for item in segment.items() {
            if let Item::SetLabel(label) = item {
                if let Some(name) = entries.name_at(*label) {
                    let _before = entries.pass();
                    self.begin(alloc, name)?;
                }
            }
            let _words = self.placer.pass(*item);
        }
        self.placer.end();
        Ok(())
    }

    /// The address after the segments.
    pub fn end(&self) -> u32 {
        self.placer.next()
    }

    /// The number of the procedure whose code holds this address, if its name is known.
    pub fn holding(&self, address: u32) -> Option<usize> {
        let after = self.list.iter().position(|one| one.at > address);
        let number = after.unwrap_or(self.list.len()).checked_sub(1)?;
        let one = self.list.get(number)?;
        if one.name.is_empty() {
            None
        } else {
            Some(number)
        }
    }

    /// The name of a procedure, by its number; empty where there is none.
    pub fn name(&self, number: usize) -> &[u8] {
        match self.list.get(number) {
            Some(one) => one.name.as_slice(),
            None => b"",
        }
    }
}
