//! Which declarations of a section are used.

use crate::origin::{Origin, put_at};
use bk_scope::Bound;
use bk_tree::Position;
use std::alloc::{AllocError, Global};

/// A declaration in scope.
#[derive(Clone, Copy)]
struct Declared {
    /// Its name, by its position.
    at: Position,
    bound: Bound,
    /// Its number among the declarations.
    number: usize,
}

/// The declarations that were met, and which of them are used so far.
#[derive(Drop)]
pub struct Uses {
    /// By the number of a declaration, in the order of the text.
    used: Vec<bool>,
    scope: Vec<Declared>,
    /// By the number of a static word: present if it is used.
    statics: Vec<Option<bool>>,
    /// The labels that are used.
    labels: Vec<Bound>,
}

/// Whether two names are one, in any letter case.
fn are_same(one: &[u8], other: &[u8]) -> bool {
    one.len() == other.len()
        && one
            .iter()
            .zip(other.iter())
            .all(|(a, b)| a.to_ascii_uppercase() == b.to_ascii_uppercase())
}

/// Whether two meanings of one name are of one declaration, where the innermost of these is meant.
fn can_mean(declared: Bound, used: Bound) -> bool {
    match (declared, used) {
        (Bound::Constant(_), Bound::Constant(_)) | (Bound::Global(_), Bound::Global(_)) => true,
        (Bound::Variable(_, one), Bound::Variable(_, other)) => one == other,
        _ => false,
    }
}

impl Uses {
    /// No declarations.
    pub fn new(alloc: Global) -> Uses {
        Uses {
            used: Vec::new(alloc),
            scope: Vec::new(alloc),
            statics: Vec::new(alloc),
            labels: Vec::new(alloc),
        }
    }

    /// How many declarations are in scope.
    pub fn depth(&self) -> usize {
        self.scope.len()
    }

    /// The declarations in scope after the first so many go out of it.
    pub fn leave(&mut self, depth: usize) {
        self.scope.truncate(depth);
    }

    /// A constant, a global or a variable comes into scope. The number of its declaration is returned.
    pub fn declare(&mut self, at: Position, bound: Bound) -> Result<usize, AllocError> {
        let number = self.used.len();
        self.used.push(false)?;
        self.scope.push(Declared { at, bound, number })?;
        Ok(number)
    }

    /// The number of the innermost declaration that a name can mean.
    fn meant(&self, origin: &Origin<'_>, name: &[u8], bound: Bound) -> Option<usize> {
        let mut found = None;
        for one in self.scope.as_slice() {
            if can_mean(one.bound, bound) {
                if let Some(letters) = origin.name_at(one.at) {
                    if are_same(letters, name) {
                        found = Some(one.number);
                    }
                }
            }
        }
        found
    }

    /// A name is used, with this meaning.
    pub fn meet(
        &mut self,
        origin: &Origin<'_>,
        name: &[u8],
        bound: Bound,
    ) -> Result<(), AllocError> {
        match bound {
            Bound::Static(number) => put_at(&mut self.statics, number as usize, true),
            Bound::Label(_, _) => {
                self.labels.push(bound)?;
                Ok(())
            }
            _ => {
                if let Some(number) = self.meant(origin, name, bound) {
                    if let Some(used) = self.used.get_mut(number) {
                        *used = true;
                    }
                }
                Ok(())
            }
        }
    }

    /// Whether the declaration of this number is used.
    pub fn is_used(&self, number: usize) -> bool {
        matches!(self.used.get(number), Some(true))
    }

    /// Whether a static word, a procedure or a label of this meaning is used. A procedure that is a global is.
    pub fn is_met(&self, bound: Bound) -> bool {
        match bound {
            Bound::Static(number) => matches!(self.statics.get(number as usize), Some(Some(_))),
            Bound::Label(_, _) => self.labels.contains(&bound),
            _ => true,
        }
    }
}
