//! Bindings that come into scope later, all together.
ghost use Rattle.std.specs.Prelude.{◌≡◌, ◌++◌, [], ◌∷◌, IfOk, OnOk};
ghost use Rattle.bk_scope.specs.Scope.{bind_all};

use crate::bound::Bound;
use crate::table::Table;
use std::alloc::{AllocError, Global};
use std::marker::Model;

/// Bindings that come into scope together, the first one first.
#[derive(Drop)]
pub struct Fresh<'a> {
    bindings: Vec<FreshName<'a>>,
}

/// One of them.
#[derive(Clone, Copy)]
struct FreshName<'a> {
    name: &'a [u8],
    bound: Bound,
}

impl<'a> Model for Fresh<'a> {
    ghost use Rattle.std.specs.Prelude.{List};
    ghost use Rattle.bk_scope.specs.Scope.{Binding};
    ghost use Rattle.bk_scope.specs.FreshView.{bindings_of};

    ghost Value = { List Binding };

    ghost view = { λ f. bindings_of f.bindings.items };
}

impl<'a> Fresh<'a> {
    /// None.
    pub fn new(alloc: Global) -> Fresh<'a>
        ensures { result ≡ [] }
    {
        Fresh {
            bindings: Vec::new(alloc),
        }
    }

    /// None, with memory for this many.
    pub fn with_capacity(alloc: Global, capacity: usize) -> Result<Fresh<'a>, AllocError>
        ensures { IfOk result (λ fresh. fresh ≡ []) }
    {
        Ok(Fresh {
            bindings: Vec::with_capacity(alloc, capacity)?,
        })
    }

    /// One more.
    pub fn add(&mut self, name: &'a [u8], bound: Bound) -> Result<(), AllocError>
        ensures { OnOk result (self.new ≡ self.old ++ (record { name = name.now; bound = bound } ∷ [])) }
    {
        self.bindings.push(FreshName { name, bound })?;
        Ok(())
    }

    /// They come into scope.
    pub fn enter(&self, table: &mut Table<'a>) -> Result<(), AllocError>
        ensures { OnOk result (table.new ≡ bind_all self.now table.old) }
    {
        let bindings = self.bindings.as_slice();
        for fresh in bindings {
            table.bind(fresh.name, fresh.bound)?;
        }
        Ok(())
    }
}
