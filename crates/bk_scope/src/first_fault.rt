//! The first fault that is found in a section.
ghost use Rattle.std.specs.Prelude.{◌≡◌, None, Some, OnOk, IfOk, string_bytes};
ghost use Rattle.bk_scope.specs.FirstFault.{first_fault, breach_reported, wrong_of, misnamed};
ghost use Rattle.bk_scope.specs.Found.{else_first};
ghost use Rattle.bk_scope.specs.Wrong.{text_of};

use bk_base::SourceKind;
use bk_tree::{PlacedFault, Position};
use std::alloc::{AllocError, Global};

/// What is wrong with a name.
#[derive(Clone, Copy)]
pub enum Misnaming {
    /// It means nothing where it is used.
    NotDeclared,
    /// It is declared again in one list of names.
    DeclaredTwice,
    /// It is a variable of an outer procedure.
    Dynamic,
    /// It is no label which a GOTO may reach, or a label as an operand.
    LabelNotHere,
    /// It is that of a second procedure of its global.
    TwoProcedures,
}

/// The first fault of those that were reported, if any was.
#[derive(Drop)]
pub struct FirstFault {
    fault: Option<PlacedFault>,
}

impl FirstFault {
    /// None yet.
    pub fn new() -> FirstFault
        ensures { first_fault result ≡ None }
    {
        FirstFault { fault: None }
    }

    /// Reports a fault of a kind that keeps no name, at this position.
    pub fn record_first(&mut self, at: Position, kind: SourceKind)
        ensures { first_fault self.new ≡ else_first (first_fault self.old) (Some (record { at = at; wrong = wrong_of kind })) }
    {
        if self.fault.is_none() {
            self.fault = Some(PlacedFault { at, kind });
        }
    }

    /// The fault, if any was reported.
    pub fn fault(self) -> Option<PlacedFault>
        ensures { breach_reported result ≡ first_fault self }
    {
        self.fault
    }

    /// Adds what was reported elsewhere, after this.
    pub fn then(&mut self, other: FirstFault)
        ensures { first_fault self.new ≡ else_first (first_fault self.old) (first_fault other) }
    {
        if self.fault.is_none() {
            self.fault = other.fault;
        }
    }

    /// Reports what is wrong with a name, at this position.
    pub fn record_name(
        &mut self,
        alloc: Global,
        at: Position,
        misnaming: Misnaming,
        name: &[u8],
    ) -> Result<(), AllocError>
        ensures { OnOk result (first_fault self.new ≡ else_first (first_fault self.old)
            (Some (record { at = at; wrong = misnamed misnaming (text_of name.now) }))) }
    {
        if self.fault.is_none() {
            let kind = kind_of(misnaming, spelled(alloc, name)?);
            self.fault = Some(PlacedFault { at, kind });
        }
        Ok(())
    }
}

/// The kind of fault that this is, with the name's text.
fn kind_of(misnaming: Misnaming, name: String) -> SourceKind
    ensures { wrong_of result ≡ misnamed misnaming (string_bytes name) }
{
    match misnaming {
        Misnaming::NotDeclared => SourceKind::NotDeclared(name),
        Misnaming::DeclaredTwice => SourceKind::DeclaredTwice(name),
        Misnaming::Dynamic => SourceKind::DynamicName(name),
        Misnaming::LabelNotHere => SourceKind::LabelNotHere(name),
        Misnaming::TwoProcedures => SourceKind::TwoProcedures(name),
    }
}

/// The text of a name: each byte is the character of that number.
fn spelled(alloc: Global, name: &[u8]) -> Result<String, AllocError>
    ensures { IfOk result (λ text. string_bytes text ≡ text_of name.now) }
{
    let mut text = String::new(alloc);
    for &byte in name {
        text.push(char::from(byte))?;
    }
    Ok(text)
}
