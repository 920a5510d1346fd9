//! A source as a person reads what the phases of the compiler make of it.
ghost use Rattle.std.specs.Prelude.{◌≡◌, IfOk, IfErr, Err};
ghost use Rattle.bk_base.specs.Devices.{Begins};
ghost use Rattle.bk_filters.specs.declared.kit_fault.KitFault.TheVariants.{Write};
ghost use Rattle.bk_filters.specs.CompilingSection.{Compiled, Refuses};
ghost use Rattle.bk_filters.specs.Telling.{output};
ghost use Rattle.bk_kit.specs.Showing.{PutsSection, NotPut, ShowsSections, ShowsSource};

use bk_base::{ByteIn, ByteOut, Line};
use bk_filters::{CompiledSection, KitFault, compile_section, hashers_of, read_source_section};
use bk_gen::generate_placed;
use bk_lex::Lexer;
use bk_scope::resolve_keyed;
use bk_show::{Layout, NotShown, Part, RefusedSection, Shown, show_refused};
use bk_source_map::places_of;
use bk_syntax::parse;
use std::alloc::Global;

/// Writes a section, if it has symbols.
fn put_section<O, L: Layout<O>>(
    alloc: Global,
    number: u32,
    line: Line,
    lexer: &Lexer,
    section: &CompiledSection,
    layout: &L,
    out: &mut O,
) -> Result<(), NotShown>
    requires { Compiled section.now lexer.now.bytes lexer.now.from }
    ensures puts { IfOk result (λ done. PutsSection (L.writes layout.now) (L.fails layout.now) section.now.code out.old out.new) }
    ensures failed { IfErr result (λ why. NotPut (L.writes layout.now) (L.fails layout.now) out.old out.new why) }
{
    let Some(section) = &section.code else {
        return Ok(());
    };
    let Ok(lexed) = lexer.lexed(alloc) else {
        return Err(NotShown::Memory);
    };
    let Ok(resolved) = resolve_keyed(alloc, &section.tree, hashers_of(lexer)) else {
        return Err(NotShown::Memory);
    };
    let placing = places_of(alloc, &section.tree, &section.code)?;
    let placed = generate_placed(alloc, &section.code)?;
    let shown = Shown {
        number,
        line,
        tokens: lexed.tokens.as_slice(),
        resolved: &resolved,
        code: &section.code,
        placing: &placing,
        segment: &placed.segment,
        ends: placed.ends.as_slice(),
    };
    layout.write(alloc, &shown, out)
}

/// A section that is refused.
#[derive(Drop)]
pub struct RefusedText {
    text: Vec<u8>,
    number: u32,
    line: Line,
}

/// A copy of the section that a lexer took; none where memory is refused.
fn copy_of(alloc: Global, number: u32, lexer: &Lexer, line: Line) -> Option<RefusedText> {
    let mut text = Vec::new(alloc);
    text.extend_from_slice(lexer.bytes()).ok()?;
    Some(RefusedText { text, number, line })
}

/// Compiles the section that a lexer took, and leaves it in `refused` where it is refused.
fn compile_or_keep(
    alloc: Global,
    number: u32,
    line: Line,
    lexer: &Lexer,
    refused: &mut Option<RefusedText>,
) -> Result<CompiledSection, KitFault>
    ensures compiled { IfOk result (λ section. Compiled section lexer.now.bytes lexer.now.from) }
    ensures refuses { IfErr result (λ fault. Refuses fault lexer.now.bytes lexer.now.from) }
{
    let answer = compile_section(alloc, lexer);
    if answer.is_err() {
        *refused = copy_of(alloc, number, lexer, line);
    }
    answer
}

/// Writes the sections of a source by a layout, one after another, up to the first that is refused, of which nothing is written; it is
/// left in `refused`. A source is refused as `compile` refuses it. A section without symbols is skipped, and counted.
pub fn show_sections<C: ByteIn, O, L: Layout<O>>(
    alloc: Global,
    source: &mut C,
    layout: &L,
    out: &mut O,
    refused: &mut Option<RefusedText>,
) -> Result<(), KitFault>
    ensures shows { ShowsSections (L.writes layout.now) (L.fails layout.now) result (C.left source.old) (C.left source.new) (C.ended source.new)
        (C.faults source.new) out.old out.new }
{
    let mut taken = 0;
    let mut line = Line::first();
    let mut number = 1u32;
    loop {
        let lexer = read_source_section(alloc, source, &mut taken, line)?;
        let section = compile_or_keep(alloc, number, line, &lexer, refused)?;
        match put_section(alloc, number, line, &lexer, &section, layout, out) {
            Ok(()) => {}
            Err(NotShown::Memory) => return Err(KitFault::Memory),
            Err(NotShown::Device) => return Err(KitFault::Write),
        }
        match section.next {
            Some(next) => line = next,
            None => return Ok(()),
        }
        number = number.saturating_add(1);
    }
}

/// Writes the tokens of a refused section, which a lexer took, and its tree if the tokens have one, those of them that are asked for. A
/// section whose tokens are refused has neither.
fn put_refused<O: ByteOut>(
    alloc: Global,
    refused: &RefusedText,
    lexer: &Lexer,
    asked: Part,
    out: &mut O,
) -> Result<(), NotShown>
    ensures grows { Begins (O.taken out.old) (O.taken out.new) }
    ensures passes { Begins (O.passed out.old) (O.passed out.new) }
{
    let Ok(lexed) = lexer.lexed(alloc) else {
        return Ok(());
    };
    let end = lexed.line;
    let tokens = lexed.tokens.as_slice();
    let parsed = parse(alloc, tokens, end).ok();
    let section = RefusedSection {
        number: refused.number,
        line: refused.line,
        tokens,
    };
    show_refused(alloc, &section, parsed.as_ref(), asked, out)
}

/// The lexer after the text of a refused section.
fn lexer_of(alloc: Global, refused: &RefusedText) -> Option<Lexer> {
    let mut lexer = Lexer::new(alloc, refused.line).ok()?;
    let _front = lexer.take_front(refused.text.as_slice()).ok()?;
    Some(lexer)
}

/// Writes what there is of the section that a source is refused for. A failure of the output shows at the flush; where memory is refused,
/// less is written.
fn finish_show<O: ByteOut>(
    alloc: Global,
    answer: &Result<(), KitFault>,
    refused: &Option<RefusedText>,
    asked: Part,
    out: &mut O,
)
    ensures grows { Begins (O.taken out.old) (O.taken out.new) }
    ensures passes { Begins (O.passed out.old) (O.passed out.new) }
    ensures unless_refused { answer.now ≡ Err Write → out.new ≡ out.old }
{
    let (Err(KitFault::Source(_)), Some(refused)) = (answer, refused) else {
        return;
    };
    if let Some(lexer) = lexer_of(alloc, refused) {
        let _put = put_refused(alloc, refused, &lexer, asked, out);
    }
}

/// Writes the part that is asked for of each section of a source, one after another, up to the first that is refused. Of that one the
/// parts before its fault are written: the tokens where its syntax is refused, the tokens and the tree where its names are. A source is
/// refused as `compile` refuses it. A section without symbols is skipped, and counted.
pub fn show_source<C: ByteIn, O: ByteOut>(
    alloc: Global,
    source: &mut C,
    asked: Part,
    out: &mut O,
) -> Result<(), KitFault>
    ensures shows { ShowsSource result (C.left source.old) (C.left source.new) (C.ended source.new) (C.faults source.new)
        (output O.ByteOut out.old) (output O.ByteOut out.new) }
{
    let mut refused = None;
    let answer = show_sections(alloc, source, &asked, out, &mut refused);
    finish_show(alloc, &answer, &refused, asked, out);
    let Ok(()) = out.flush() else {
        return Err(KitFault::Write);
    };
    answer
}
