//! What may be claimed once in a section.
ghost use Rattle.std.specs.Prelude.{◌≡◌, not, cond, false, [], ◌∷◌, IfOk, OnErr};
ghost use Rattle.bk_scope.specs.Found.{is_claimed};
ghost use Rattle.bk_scope.specs.Claims.{claim_of};
ghost use Rattle.bk_scope.specs.ClaimInput.{input_of, same_input};

use crate::name_key::NameKey;
use bk_tables::KeyedHashers;
use indexmap::IndexSet;
use std::alloc::{AllocError, Global};
use std::hash::{Hash, Hasher};
use std::marker::Model;

/// The number of claims for which memory is reserved at first: those of a header, and of a few declarations.
const FIRST_CLAIMS: usize = 48;

/// What may be claimed once in a section.
#[derive(Clone, Copy, PartialEq, Eq)]
pub enum Claim<'a> {
    /// A name, in the list of names of this number.
    Naming(u32, NameKey<'a>),
    /// A word, by the CASEs of the SWITCHON of this number.
    Choosing(u32, u32),
    /// The DEFAULT of the SWITCHON of this number.
    Defaulting(u32),
    /// A global, by a procedure.
    Setting(u32),
}

impl<'a> Hash for Claim<'a> {
    ghost hash_input = { input_of };

    ghost respects_eq = { same_input };

    /// The number of the variant is not hashed: most claims are of names, and few others have the same numbers.
    #[inline(always)]
    fn hash<H: Hasher>(&self, state: &mut H) {
        match self {
            Claim::Naming(list, name) => {
                state.write_u64(u64::from(*list));
                name.hash(state);
            }
            Claim::Choosing(switch, word) => {
                state.write_u32(*switch);
                state.write_u32(*word);
            }
            Claim::Defaulting(switch) => state.write_u32(*switch),
            Claim::Setting(global) => state.write_u32(*global),
        }
    }
}

/// What was claimed so far, which contracts see as the list of it, the newest first.
#[derive(Drop)]
pub struct Claims<'a> {
    /// The newest last.
    in_turn: IndexSet<Claim<'a>, KeyedHashers>,
}

impl<'a> Model for Claims<'a> {
    ghost use Rattle.std.specs.Prelude.{List};
    ghost use Rattle.bk_scope.specs.Found.{Claim};

    ghost Value = { List Claim };

    ghost use Rattle.bk_scope.specs.Claims.{claims_in};

    ghost view = { λ c. claims_in c.in_turn.keys };
}

impl<'a> Claims<'a> {
    /// Nothing is claimed.
    pub fn new(alloc: Global, hashers: KeyedHashers) -> Result<Claims<'a>, AllocError>
        ensures { IfOk result (λ claims. claims ≡ []) }
    {
        Ok(Claims {
            in_turn: IndexSet::with_capacity_and_hasher(alloc, FIRST_CLAIMS, hashers)?,
        })
    }

    /// Claims it; whether nothing had claimed it before.
    pub fn claim(&mut self, claim: Claim<'a>) -> Result<bool, AllocError>
        ensures first { IfOk result (λ new. new ≡ not (is_claimed (claim_of claim.entry) self.old)) }
        ensures claims { IfOk result (λ new. self.new ≡ cond new (claim_of claim.entry ∷ self.old) self.old) }
        ensures kept { OnErr result (self.new ≡ self.old) }
        ensures absent { OnErr result (is_claimed (claim_of claim.entry) self.old ≡ false) }
    {
        Ok(self.in_turn.insert(claim)?)
    }
}
