//! The names that a section declares, and those that its expressions have.

use bk_tree::{ConstItem, Name, Position};
use std::alloc::Global;

/// How many pairs of names are compared at most.
const PAIRS: usize = 4_000_000;

/// A name: how many bytes of the spellings are before it, and how many it has.
#[derive(Clone, Copy)]
struct Spelled {
    start: usize,
    count: usize,
}

/// A declaration of a name.
#[derive(Clone, Copy)]
struct Declared {
    name: Spelled,
    at: Position,
    /// How many formals it has, if it is a procedure.
    formals: Option<usize>,
}

/// A name in an expression.
#[derive(Clone, Copy)]
pub struct Used {
    name: Spelled,
    /// Where it is.
    pub at: Position,
    /// How many arguments it is called with; none where it is not called.
    pub arguments: usize,
    /// Whether it is a condition by itself.
    pub is_tested: bool,
}

/// The names of a section.
#[derive(Drop)]
pub struct Names {
    spellings: Vec<u8>,
    declared: Vec<Declared>,
    used: Vec<Used>,
    /// Whether there was memory for all of them.
    is_whole: bool,
}

impl Names {
    /// None.
    pub fn new(alloc: Global) -> Names {
        Names {
            spellings: Vec::new(alloc),
            declared: Vec::new(alloc),
            used: Vec::new(alloc),
            is_whole: true,
        }
    }

    /// Keeps a name.
    fn keep(&mut self, name: &[u8]) -> Spelled {
        let start = self.spellings.len();
        if self.spellings.extend_from_slice(name).is_err() {
            self.is_whole = false;
        }
        Spelled {
            start,
            count: name.len(),
        }
    }

    /// Adds a name in an expression.
    fn add_use(&mut self, used: Used) {
        if self.used.push(used).is_err() {
            self.is_whole = false;
        }
    }

    /// Whether there was memory for all the names.
    pub fn is_whole(&self) -> bool {
        self.is_whole
    }

    /// The bytes of a name.
    fn bytes(&self, name: Spelled) -> &[u8] {
        let end = name.start.saturating_add(name.count);
        self.spellings.get(name.start..end).unwrap_or(&[])
    }

    /// Adds a declaration; of a procedure with so many formals.
    pub fn declare(&mut self, name: &[u8], at: Position, formals: Option<usize>) {
        let name = self.keep(name);
        if self.declared.push(Declared { name, at, formals }).is_err() {
            self.is_whole = false;
        }
    }

    /// Adds declarations of variables.
    pub fn declare_all(&mut self, names: &[Name]) {
        for name in names {
            self.declare(&name.letters, name.at, None);
        }
    }

    /// Adds the declarations of a MANIFEST, STATIC or GLOBAL.
    pub fn declare_items(&mut self, items: &[ConstItem]) {
        for item in items {
            let ConstItem::Item { at, letters, .. } = item;
            self.declare(letters, *at, None);
        }
    }

    /// Adds a name in an expression, and with how many arguments it is called, if it is.
    pub fn note(&mut self, name: &[u8], at: Position, arguments: Option<usize>) {
        let name = self.keep(name);
        let arguments = arguments.unwrap_or(0);
        self.add_use(Used {
            name,
            at,
            arguments,
            is_tested: false,
        });
    }

    /// Adds a name that is a condition by itself.
    pub fn note_test(&mut self, name: &[u8], at: Position) {
        let name = self.keep(name);
        self.add_use(Used {
            name,
            at,
            arguments: 0,
            is_tested: true,
        });
    }

    /// How many declarations there are; none where there are too many names to compare each with each.
    pub fn declarations(&self) -> usize {
        let all = self.declared.len().saturating_add(self.used.len());
        if self.declared.len().saturating_mul(all) > PAIRS {
            0
        } else {
            self.declared.len()
        }
    }

    /// How many names there are in expressions.
    pub fn uses(&self) -> usize {
        self.used.len()
    }

    /// Where the procedure is that the declaration with this index is, and how many formals it has, if no other declaration has its
    /// name and it is not START.
    pub fn own_procedure(&self, index: usize) -> Option<(Position, usize)> {
        let declared = self.declared.get(index)?;
        let formals = declared.formals?;
        let name = self.bytes(declared.name);
        let mut count: usize = 0;
        for other in &self.declared {
            if self.bytes(other.name) == name {
                count = count.saturating_add(1);
            }
        }
        if count != 1 || name == b"START".as_slice() {
            return None;
        }
        Some((declared.at, formals))
    }

    /// The name of the declaration with this index.
    pub fn name_of(&self, index: usize) -> &[u8] {
        match self.declared.get(index) {
            Some(declared) => self.bytes(declared.name),
            None => &[],
        }
    }

    /// The name with this index in the expressions, if it is this one.
    pub fn use_of(&self, index: usize, name: &[u8]) -> Option<Used> {
        let used = self.used.get(index)?;
        if self.bytes(used.name) == name {
            Some(*used)
        } else {
            None
        }
    }
}
