//! What is found as one goes through a section.
ghost use Rattle.std.specs.Prelude.{◌≡◌, ◌+◌, None, Some, IfOk, IfErr, OnOk};
ghost use Rattle.bk_tree.specs.Tree.{expression};
ghost use Rattle.bk_scope.specs.Wrong.{text_of};
ghost use Rattle.bk_scope.specs.FirstFault.{first_fault, wrong_of, misnamed, breach_of};
ghost use Rattle.bk_scope.specs.Claims.{claim_of};
ghost use Rattle.bk_scope.specs.Found.{breaks, claims_once, means, holds, takes, reaches, opens, following};
ghost use Rattle.bk_scope.specs.Constants.{constant_word};
ghost use Rattle.bk_scope.specs.Names.{nothing, constant_found, listed, named_as, sets, frame_wrong};

use crate::bound::Bound;
use crate::claims::{Claim, Claims};
use crate::constant::constant_of;
use crate::first_fault::{FirstFault, Misnaming};
use crate::name_key::NameKey;
use crate::place::kept_depth;
use crate::table::Table;
use bk_base::SourceKind;
use bk_base::limit::FRAME_WORDS;
use bk_tables::KeyedHashers;
use bk_tree::{Expr, PlacedFault, Position};
use std::alloc::{AllocError, Global};
use std::marker::Model;
use std::mem;

/// What was found before a procedure: what is wrong first, and the greatest depth of the frame around.
#[derive(Drop)]
pub struct OuterFindings {
    first: FirstFault,
    deepest: u32,
}

/// What a section says where nothing is wrong.
#[derive(Drop)]
pub struct Known {
    /// What each name that is used means.
    pub meanings: Vec<Bound>,
    /// The word of each constant.
    pub words: Vec<u32>,
}

/// The number of names that are used, and of constants, for which memory is reserved at first.
const FIRST_NAMES: usize = 64;

/// What was found so far in a section.
#[derive(Drop)]
pub struct Findings<'a> {
    alloc: Global,
    /// What is wrong first, if anything is.
    first: FirstFault,
    /// What was claimed.
    claims: Claims<'a>,
    /// What each name that is used means.
    meanings: Vec<Bound>,
    /// The word of each constant.
    words: Vec<u32>,
    /// The number that is next.
    next: u32,
    /// The greatest depth of the procedure's frame.
    deepest: u32,
}

impl<'a> Model for Findings<'a> {
    ghost use Rattle.bk_scope.specs.Found.{Found};
    ghost use Rattle.bk_scope.specs.FirstFault.{first_fault};

    ghost Value = { Found };

    ghost view = { λ f. record {
      first = first_fault f.first;
      claims = f.claims;
      meanings = f.meanings.items;
      words = f.words.items;
      next = f.next;
      deepest = f.deepest;
    } };
}

impl<'a> Findings<'a> {
    /// Nothing yet.
    pub fn new(alloc: Global, hashers: KeyedHashers) -> Result<Findings<'a>, AllocError>
        ensures { IfOk result (λ findings. findings ≡ nothing) }
    {
        Ok(Findings {
            alloc,
            first: FirstFault::new(),
            claims: Claims::new(alloc, hashers)?,
            meanings: Vec::with_capacity(alloc, FIRST_NAMES)?,
            words: Vec::with_capacity(alloc, FIRST_NAMES)?,
            next: 1,
            deepest: 0,
        })
    }

    /// Where more memory comes from.
    pub fn alloc(&self) -> Global {
        self.alloc
    }

    /// Something is wrong at this position, by a kind that keeps no name.
    pub fn breaks(&mut self, at: Position, kind: SourceKind)
        ensures { self.new ≡ breaks at (wrong_of kind) self.old }
    {
        self.first.record_first(at, kind);
    }

    /// A name at this position is wrong.
    pub fn misnames(
        &mut self,
        at: Position,
        misnaming: Misnaming,
        name: &[u8],
    ) -> Result<(), AllocError>
        ensures { OnOk result (self.new ≡ breaks at (misnamed misnaming (text_of name.now)) self.old) }
    {
        self.first.record_name(self.alloc, at, misnaming, name)
    }

    /// A name in the list of this number, in which no name occurs twice.
    pub fn lists(&mut self, list: u32, at: Position, name: &'a [u8]) -> Result<(), AllocError>
        ensures { OnOk result (self.new ≡ listed list at name.now self.old) }
    {
        if !self.claims.claim(Claim::Naming(list, NameKey::new(name)))? {
            self.misnames(at, Misnaming::DeclaredTwice, name)?;
        }
        Ok(())
    }

    /// A procedure of this name, which means this: one at most sets a global.
    pub fn sets(
        &mut self,
        at: Position,
        name: &'a [u8],
        bound: Option<Bound>,
    ) -> Result<(), AllocError>
        ensures { OnOk result (self.new ≡ sets at name.now bound self.old) }
    {
        if let Some(Bound::Global(Some(global))) = bound {
            if !self.claims.claim(Claim::Setting(global))? {
                self.misnames(at, Misnaming::TwoProcedures, name)?;
            }
        }
        Ok(())
    }

    /// A CASE or DEFAULT, which may not be twice.
    pub fn chooses(
        &mut self,
        claim: Claim<'a>,
        at: Position,
        kind: SourceKind,
    ) -> Result<(), AllocError>
        ensures { OnOk result (self.new ≡ claims_once (claim_of claim.entry) at (wrong_of kind) self.old) }
    {
        if !self.claims.claim(claim)? {
            self.breaks(at, kind);
        }
        Ok(())
    }

    /// A name that is used means this.
    pub fn means(&mut self, bound: Bound) -> Result<(), AllocError>
        ensures { OnOk result (self.new ≡ means bound self.old) }
    {
        self.meanings.push(bound)?;
        Ok(())
    }

    /// The name of a label or of a procedure means this, where it is.
    pub fn names(&mut self, bound: Option<Bound>) -> Result<(), AllocError>
        ensures { OnOk result (self.new ≡ named_as bound self.old) }
    {
        if let Some(bound) = bound {
            self.means(bound)?;
        }
        Ok(())
    }

    /// A constant has this word, if any.
    pub fn holds(&mut self, word: Option<u32>) -> Result<(), AllocError>
        ensures { OnOk result (self.new ≡ holds word self.old) }
    {
        if let Some(word) = word {
            self.words.push(word)?;
        }
        Ok(())
    }

    /// Takes the number that is next. A section within the limits does not come to the last number.
    #[inline]
    pub fn takes(&mut self) -> u32
        ensures number { result ≡ self.old.next }
        ensures taken { self.new ≡ takes self.old }
    {
        let number = self.next;
        self.next = number.wrapping_add(1);
        number
    }

    /// The frame is this deep, and so many words deeper.
    pub fn reaches(&mut self, depth: u32, words: usize)
        ensures { self.new ≡ reaches (depth + words) self.old }
    {
        let reached = kept_depth((depth as usize).saturating_add(words));
        self.deepest = self.deepest.max(reached);
    }

    /// A frame begins, this deep. What is found wrong from here on follows what is wrong with the frame itself.
    pub fn opens(&mut self, depth: u32) -> OuterFindings
        ensures found { self.new ≡ opens depth self.old }
        ensures first { first_fault result.first ≡ self.old.first }
        ensures deepest { result.deepest ≡ self.old.deepest }
    {
        let first = mem::replace(&mut self.first, FirstFault::new());
        let deepest = self.deepest;
        self.deepest = depth;
        OuterFindings { first, deepest }
    }

    /// The frame of the procedure whose name is at this position ends.
    pub fn closes(&mut self, opened: OuterFindings, at: Position)
        ensures { self.new ≡ following (first_fault opened.first) opened.deepest (frame_wrong at self.old) self.old }
    {
        let inner = mem::replace(&mut self.first, opened.first);
        if self.deepest > FRAME_WORDS {
            self.first.record_first(at, SourceKind::FrameTooLarge);
        }
        self.first.then(inner);
        self.deepest = opened.deepest;
    }

    /// An expression where a constant is asked for, and its word if it has one.
    pub fn constant(
        &mut self,
        table: &Table<'a>,
        procedure: u32,
        expr: &'a Expr,
    ) -> Result<Option<u32>, AllocError>
        ensures word { IfOk result (λ word. word ≡ constant_word table.now (expression expr.now)) }
        ensures found { OnOk result (self.new ≡ constant_found table.now procedure (expression expr.now) self.old) }
    {
        let word = constant_of(self.alloc, expr, table, procedure, &mut self.first)?;
        self.holds(word)?;
        Ok(word)
    }

    /// All of it is found: what the section says, or what is wrong first.
    pub fn end(self) -> Result<Known, PlacedFault>
        ensures right { OnOk result (self.entry.first ≡ None) }
        ensures known { IfOk result (λ known. (known.meanings.items ≡ self.entry.meanings) × (known.words.items ≡ self.entry.words)) }
        ensures wrong { IfErr result (λ fault. self.entry.first ≡ Some (breach_of fault)) }
    {
        match self.first.fault() {
            None => Ok(Known {
                meanings: self.meanings,
                words: self.words,
            }),
            Some(fault) => Err(fault),
        }
    }
}
