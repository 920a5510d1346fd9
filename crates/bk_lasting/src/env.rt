//! What names mean at a place.
ghost use Rattle.std.specs.Prelude.{◌≡◌, ◌+◌, [], length, IfOk};
ghost use Rattle.std.specs.Option.{option_map};
ghost use Rattle.std.specs.Str.{bytes_eq};
ghost use Rattle.bk_meaning.specs.Environment.{bind, sense_of, following};
ghost use Rattle.bk_lasting.specs.Views.{sense_in, names_of, names_in, env_in};

use std::alloc::{AllocError, Global};
use std::rc::Rc;

/// The number of the global vector among the objects.
pub const GLOBALS_OBJECT: u64 = 0;

/// What a name means.
#[derive(Clone, Copy, Debug)]
pub enum Sense {
    /// A constant of MANIFEST, and its word.
    Constant(u32),
    /// A global, a static word, a formal or a variable: which cell of an object, and the number of the object.
    Cell(u32, u64),
    /// A label.
    Label,
    /// What has no meaning here, as a variable of another procedure.
    Foreign,
}

/// A name, and those that were declared before it.
pub struct Node<'a> {
    /// Its bytes.
    pub name: &'a [u8],
    /// What it means.
    pub sense: Sense,
    /// The names declared before it, the nearest first.
    pub outer: Option<Rc<Node<'a>>>,
}

impl<'a> Node<'a> {
    /// The names declared before it.
    fn into_outer(self) -> Option<Rc<Node<'a>>>
        ensures { length (names_of self.entry) ≡ 1 + length (names_in result) }
    {
        let Node {
            name: _,
            sense: _,
            outer,
        } = self;
        outer
    }
}

// The names are let go in a loop, since a recursion would be as deep as there are names.
impl<'a> Drop for Node<'a> {
    fn drop(self) {
        let mut rest = self.into_outer();
        while let Some(node) = rest {
            rest = match Rc::into_inner(node) {
                Some(inner) => inner.into_outer(),
                None => None,
            };
        }
    }
}

/// Whether two names are the same. Most differ in their first letters.
fn is_same(a: &[u8], b: &[u8]) -> bool
    ensures { result ≡ bytes_eq a.now b.now }
{
    match (a.split_first(), b.split_first()) {
        (Some((x, xs)), Some((y, ys))) => x == y && xs == ys,
        (None, None) => true,
        _ => false,
    }
}

/// What names mean at a place, and the number of the next object that lasts.
#[derive(Drop)]
pub struct Env<'a> {
    /// The names, the nearest declaration first.
    pub names: Option<Rc<Node<'a>>>,
    /// The number of the next object that lasts, in the order of the source.
    pub next: u64,
}

impl<'a> Env<'a> {
    /// No names, before the object of this number.
    pub fn new(next: u64) -> Env<'a>
        ensures { env_in result ≡ record { names = []; next = next } }
    {
        Env { names: None, next }
    }

    /// The same.
    pub fn again(&self) -> Result<Env<'a>, AllocError>
        ensures { IfOk result (λ env. env_in env ≡ env_in self.now) }
    {
        let names = match &self.names {
            None => None,
            Some(first) => Some(first.clone()?),
        };
        Ok(Env {
            names,
            next: self.next,
        })
    }

    /// What a name means.
    pub fn sense(&self, name: &[u8]) -> Option<Sense>
        ensures { option_map sense_in result ≡ sense_of name.now (env_in self.now) }
    {
        let mut names = &self.names;
        while let Some(node) = names {
            if is_same(node.name, name) {
                return Some(node.sense);
            }
            names = &node.outer;
        }
        None
    }

    /// The names with one more, which means this.
    pub fn bind(self, alloc: Global, name: &'a [u8], sense: Sense) -> Result<Env<'a>, AllocError>
        ensures { IfOk result (λ env. env_in env ≡ bind name.now (sense_in sense) (env_in self.entry)) }
    {
        let Env { names, next } = self;
        let node = Rc::new(
            alloc,
            Node {
                name,
                sense,
                outer: names,
            },
        )?;
        Ok(Env {
            names: Some(node),
            next,
        })
    }

    /// After so many lasting objects.
    pub fn following(self, count: u64) -> Result<Env<'a>, AllocError>
        ensures { IfOk result (λ env. env_in env ≡ following count (env_in self.entry)) }
    {
        let Env { names, next } = self;
        let next = next.checked_add(count).ok_or(AllocError)?;
        Ok(Env { names, next })
    }

    /// With another number of the next object that lasts.
    pub fn with_next(self, next: u64) -> Env<'a>
        ensures { env_in result ≡ record { names = (env_in self.entry).names; next = next } }
    {
        let Env { names, next: _ } = self;
        Env { names, next }
    }
}
