//! The words of a program's code in a store, each with what it comes from.

use crate::origin::{Origin, put_at};
use crate::placer::FIRST_SEGMENT;
use crate::words::Code;
use bk_lex::Token;
use bk_machine::Intcode;
use bk_ocode::Ocode;
use bk_source_map::Placing;
use std::alloc::{AllocError, Global};

/// The code of a section, with the places that it comes from.
#[derive(Clone, Copy)]
pub struct PlacedCode<'a> {
    /// The tokens of the section.
    pub tokens: &'a [Token<'a>],
    /// Its statements.
    pub code: &'a Ocode,
    /// Where they come from.
    pub placing: &'a Placing,
    /// Its items.
    pub segment: &'a Intcode,
    /// How many items there are up to the end of each statement.
    pub ends: &'a [usize],
}

/// A word of the code.
#[derive(Clone, Copy)]
pub struct PlacedWord {
    /// The number of its line, if it has one.
    pub line: Option<u32>,
    /// The number of its procedure in the program; data is of none.
    pub procedure: Option<usize>,
    /// The number of the name of its operand.
    pub name: Option<usize>,
}

/// A procedure of a program.
#[derive(Drop)]
pub struct ProgramProcedure {
    /// The name that ENTRY gives it.
    pub name: Vec<u8>,
    /// How many arguments it has.
    pub formals: u32,
}

/// A program whose segments are loaded in their order, as `bcpl` loads them.
#[derive(Drop)]
pub struct Program {
    words: Vec<PlacedWord>,
    procedures: Vec<ProgramProcedure>,
    names: Vec<Vec<u8>>,
}

/// A copy of bytes.
fn copy_of(alloc: Global, bytes: &[u8]) -> Result<Vec<u8>, AllocError> {
    let mut copy = Vec::new(alloc);
    copy.extend_from_slice(bytes)?;
    Ok(copy)
}

impl Program {
    /// A program without segments.
    pub fn new(alloc: Global) -> Program {
        Program {
            words: Vec::new(alloc),
            procedures: Vec::new(alloc),
            names: Vec::new(alloc),
        }
    }

    /// The number of a token's name among the names. `numbers` has those of the tokens of the section that were met.
    fn name_of(
        &mut self,
        alloc: Global,
        origin: &Origin<'_>,
        numbers: &mut Vec<Option<usize>>,
        token: usize,
    ) -> Result<Option<usize>, AllocError> {
        if let Some(Some(number)) = numbers.get(token).copied() {
            return Ok(Some(number));
        }
        let Some(name) = origin.name_of_token(token) else {
            return Ok(None);
        };
        let number = self.names.len();
        self.names.push(copy_of(alloc, name)?)?;
        put_at(numbers, token, number)?;
        Ok(Some(number))
    }

    /// Adds the words of a section's code.
    fn add_words(
        &mut self,
        alloc: Global,
        origin: &Origin<'_>,
        code: &Code,
    ) -> Result<(), AllocError> {
        let before = self.procedures.len();
        let mut numbers = Vec::new(alloc);
        for word in code.words.as_slice() {
            let name = match word.token {
                Some(token) => self.name_of(alloc, origin, &mut numbers, token)?,
                None => None,
            };
            self.words.push(PlacedWord {
                line: word.line.map(|line| line.number()),
                procedure: word.procedure.map(|number| number.saturating_add(before)),
                name,
            })?;
        }
        Ok(())
    }

    /// Adds the code of a section, which is loaded after the sections before it. It fails only where memory is refused.
    pub fn add(&mut self, alloc: Global, section: &PlacedCode<'_>) -> Result<(), AllocError> {
        let places = section.placing.places.as_slice();
        let marks = section.placing.marks.as_slice();
        let origin = Origin::of(alloc, section.tokens, section.code, places)?;
        let code = Code::of(alloc, &origin, section.segment, section.ends, marks)?;
        self.add_words(alloc, &origin, &code)?;
        for procedure in code.procedures.as_slice() {
            self.procedures.push(ProgramProcedure {
                name: copy_of(alloc, origin.entry_name(procedure.stmt))?,
                formals: procedure.formals,
            })?;
        }
        Ok(())
    }

    /// The word of the code at an address.
    pub fn word(&self, at: u32) -> Option<PlacedWord> {
        let number = at.checked_sub(FIRST_SEGMENT)?;
        self.words.get(number as usize).copied()
    }

    /// The procedure of this number.
    pub fn procedure(&self, number: usize) -> Option<&ProgramProcedure> {
        self.procedures.get(number)
    }

    /// The name of this number; empty where there is none.
    pub fn name(&self, number: usize) -> &[u8] {
        match self.names.get(number) {
            Some(name) => name.as_slice(),
            None => b"",
        }
    }
}
