//! A section of a source, compiled.
ghost use Rattle.std.specs.Prelude.{ℕ, List, ◌≡◌, IfOk, IfErr, map};
ghost use Rattle.bk_lex.specs.Symbol.{symbols_of};
ghost use Rattle.bk_ocode.specs.StmtRange.{AreBytes};
ghost use Rattle.bk_tree.specs.Section.{declarations_of};
ghost use Rattle.bk_ocode.specs.SectionStmts.{stmts_of};
ghost use Rattle.bk_filters.specs.CompilingSection.{Translates, Compiled, Refuses, RefusesSymbols};

use crate::kit_fault::KitFault;
use bk_base::Line;
use bk_lex::{Lexed, Lexer, Token};
use bk_ocode::Ocode;
use bk_scope::resolve_keyed;
use bk_syntax::parse;
use bk_tables::{KeyMaker, KeyedHashers};
use bk_trans::translate;
use bk_tree::Section;
use std::alloc::Global;

/// The tree and the code of a section.
#[derive(Drop)]
pub struct SectionCode {
    /// The tree.
    pub tree: Section,
    /// The code.
    pub code: Ocode,
}

/// A section of a source, compiled.
#[derive(Drop)]
pub struct CompiledSection {
    /// Its tree and code; none of a section without symbols.
    pub code: Option<SectionCode>,
    /// The line on which the next section begins, where a `.` ended this one.
    pub next: Option<Line>,
}

/// The hashers for tables of what a section names. Their key is made from its whole text.
pub fn hashers_of(lexer: &Lexer) -> KeyedHashers {
    let mut key = KeyMaker::new();
    key.add_bytes(lexer.bytes());
    key.hashers()
}

/// The tree and the code of the tokens of a section, the end of which is on line `end`. The tokens are dropped after the parser.
fn code_of(
    alloc: Global,
    tokens: Vec<Token>,
    end: Line,
    hashers: KeyedHashers,
) -> Result<SectionCode, KitFault>
    ensures translates { IfOk result (λ section. Translates (symbols_of tokens.entry.items) (stmts_of section.code) (declarations_of section.tree)) }
    ensures refuses { IfErr result (λ fault. RefusesSymbols fault (symbols_of tokens.entry.items) end) }
{
    let tree = {
        let tokens = tokens;
        parse(alloc, tokens.as_slice(), end)?
    };
    let code = {
        let resolved = resolve_keyed(alloc, &tree, hashers)?;
        translate(alloc, &resolved)?
    };
    Ok(SectionCode { tree, code })
}

/// Bytes are such, as their type has it.
fn are_bytes(bytes: &[u8])
    ensures { AreBytes bytes.now }
{}

/// Compiles the section that a lexer took.
pub fn compile_section(alloc: Global, lexer: &Lexer) -> Result<CompiledSection, KitFault>
    ensures compiled { IfOk result (λ section. Compiled section lexer.now.bytes lexer.now.from) }
    ensures refuses { IfErr result (λ fault. Refuses fault lexer.now.bytes lexer.now.from) }
{
    are_bytes(lexer.bytes());
    let lexed = lexer.lexed(alloc)?;
    let next = if lexed.ended { Some(lexed.line) } else { None };
    let Lexed {
        tokens,
        used: _,
        ended: _,
        line,
    } = lexed;
    let code = if tokens.as_slice().is_empty() {
        None
    } else {
        Some(code_of(alloc, tokens, line, hashers_of(lexer))?)
    };
    Ok(CompiledSection { code, next })
}
