//! The declarations in scope, by name.
ghost use Rattle.std.specs.Prelude.{◌≡◌, ◌-◌, ◌≤◌, ◌<◌, [], drop, length, IfOk, OnOk, OnErr};
ghost use Rattle.bk_scope.specs.Scope.{bind, bound_in};
ghost use Rattle.bk_scope.specs.TableView.{place_in};

use crate::bound::Bound;
use crate::name_key::NameKey;
use bk_tables::KeyedHashers;
use indexmap::IndexMap;
use std::alloc::{AllocError, Global};
use std::marker::Model;

/// The number of bindings for which memory is reserved at first: those of a header, and of a few declarations.
const FIRST_BINDINGS: usize = 48;

/// The declarations in scope, which contracts see as the list of them, the innermost first.
#[derive(Drop)]
pub struct Table<'a> {
    /// Of each name that was bound, the place in `bindings` of the innermost binding that is in scope, if any.
    innermost: IndexMap<NameKey<'a>, Option<usize>, KeyedHashers>,
    /// The bindings in scope, the outermost first.
    bindings: Vec<Entry<'a>>,
}

/// A binding.
#[derive(Clone, Copy)]
struct Entry<'a> {
    name: NameKey<'a>,
    bound: Bound,
    /// The place of the binding that this one hides.
    hidden: Option<usize>,
}

impl<'a> Model for Table<'a> {
    ghost use Rattle.std.specs.Prelude.{List};
    ghost use Rattle.bk_scope.specs.Scope.{Binding};

    ghost Value = { List Binding };

    ghost use Rattle.bk_scope.specs.TableView.{scope_of, IsTable};

    ghost view = { λ t. scope_of t.bindings.items };

    ghost invariant = { IsTable };
}

impl<'a> Table<'a> {
    /// Nothing is in scope.
    pub fn new(alloc: Global, hashers: KeyedHashers) -> Result<Table<'a>, AllocError>
        ensures { IfOk result (λ table. table ≡ []) }
    {
        Ok(Table {
            innermost: IndexMap::with_capacity_and_hasher(alloc, FIRST_BINDINGS, hashers)?,
            bindings: Vec::with_capacity(alloc, FIRST_BINDINGS)?,
        })
    }

    /// A declaration inside those that are in scope.
    pub fn bind(&mut self, name: &'a [u8], bound: Bound) -> Result<(), AllocError>
        ensures bound { OnOk result (self.new ≡ bind name.now bound self.old) }
        ensures unbound { OnErr result (self.new ≡ self.old) }
    {
        self.bindings.reserve(1)?;
        let place = self.bindings.len();
        let name = NameKey::new(name);
        let hidden = self.innermost.insert(name, Some(place))?.flatten();
        self.bindings.push(Entry {
            name,
            bound,
            hidden,
        })?;
        Ok(())
    }

    /// How many bindings are in scope, to come back to.
    pub fn mark(&self) -> usize
        ensures { result ≡ length self.now }
    {
        self.bindings.len()
    }

    /// Back to so many bindings.
    pub fn leave(&mut self, mark: usize)
        requires { mark ≤ length self.old }
        ensures { self.new ≡ drop (length self.old - mark) self.old }
    {
        while mark < self.mark() {
            self.leave_innermost();
        }
    }

    /// What a name means.
    pub fn find(&self, name: &'a [u8]) -> Option<Bound>
        ensures { result ≡ bound_in self.now name.now }
    {
        let place = self.place(name)?;
        Some(self.bindings[place].bound)
    }

    /// The place of a name's innermost binding.
    fn place(&self, name: &'a [u8]) -> Option<usize>
        ensures { result ≡ place_in self.now name.now }
    {
        self.innermost.get(&NameKey::new(name)).copied().flatten()
    }

    /// Takes the innermost binding out. What it hid is in scope again.
    fn leave_innermost(&mut self)
        requires { 0 < length self.old }
        ensures { self.new ≡ drop 1 self.old }
    {
        let entry = self.bindings.pop().unwrap();
        *self.innermost.get_mut(&entry.name).unwrap() = entry.hidden;
    }
}
