//! Running a source.
ghost use Rattle.std.specs.Prelude.{◌≡◌, ◌≤◌, IfOk, IfErr, OnOk, OnErr, map, if◌then◌else◌};
ghost use Rattle.bk_base.specs.declared.limit.TheConstants.{STORE_LEAST, STORE_MOST};
ghost use Rattle.bk_gen.specs.Represents.{Represents};
ghost use Rattle.bk_ocode.specs.SectionStmts.{stmts_of};
ghost use Rattle.bk_machine.specs.Runs.{HeldBy};
ghost use Rattle.bk_machine.specs.SegmentItems.{items_of};
ghost use Rattle.bk_filters.specs.Interpreting.{is_read, streams};
ghost use Rattle.bk_filters.specs.CompilingSection.{codes_in};
ghost use Rattle.bk_filters.specs.RunningSource.{Generated, Assembled, NotAssembled, LoadsSource, RefusesSource, ReadsSource, NotLoaded, KeepsLimits};
ghost use Rattle.bk_filters.specs.Headline.{Headline};
ghost use Rattle.bk_filters.specs.SourceMeaning.{meanings};

use crate::kit_fault::KitFault;
use crate::laws::sources_run;
use crate::reading::read_source_section;
use crate::section::{SectionCode, compile_section};
use bk_base::{ByteIn, ByteOut, End, Limits, Line};
use bk_gen::generate;
use bk_lex::Lexer;
use bk_machine::{Intcode, Machine};
use std::alloc::{AllocError, Global};

/// A way to generate the segments of the sections of a source, one after another.
pub trait SegmentMaker {
    /// The segment of a section, which a lexer took. It fails only where memory is refused.
    fn segment(
        &mut self,
        alloc: Global,
        lexer: &Lexer,
        section: &SectionCode,
    ) -> Result<Intcode, AllocError>
        ensures applies { IfOk result (λ segment. Represents (items_of segment) (stmts_of section.now.code)) };
}

/// Segments as `generate` makes them.
#[derive(Clone, Copy)]
struct Plain;

impl SegmentMaker for Plain {
    fn segment(
        &mut self,
        alloc: Global,
        _lexer: &Lexer,
        section: &SectionCode,
    ) -> Result<Intcode, AllocError> {
        generate(alloc, &section.code)
    }
}

/// Generates the segment of a section's code, if it has any, after those of the sections before.
fn push_segment<M: SegmentMaker>(
    alloc: Global,
    lexer: &Lexer,
    section: &Option<SectionCode>,
    maker: &mut M,
    segments: &mut Vec<Intcode>,
) -> Result<(), AllocError>
    ensures generated { OnOk result (Generated (map items_of segments.old.items) (map items_of segments.new.items) (codes_in section.now)) }
{
    match section {
        Some(section) => {
            let segment = maker.segment(alloc, lexer, section)?;
            segments.push(segment)?;
            Ok(())
        }
        None => Ok(()),
    }
}

/// The segments of all sections of a source that have symbols. The text, the tree and the code of one section are held, and
/// dropped before the next is read.
fn assemble<C: ByteIn, M: SegmentMaker>(
    alloc: Global,
    source: &mut C,
    maker: &mut M,
) -> Result<Vec<Intcode>, KitFault>
    ensures assembled { IfOk result (λ list. Assembled (map items_of list.items) (C.left source.old) (C.left source.new) (C.ended source.new)) }
    ensures refused { IfErr result (λ fault. NotAssembled fault (C.left source.old) (C.left source.new) (C.ended source.new)) }
    ensures delivered { ReadsSource (is_read result) (C.left source.old) (C.left source.new) }
    ensures failures { C.faults source.new ≡ (if is_read result then 1 else 0) }
{
    let mut segments = Vec::new(alloc);
    let mut taken = 0;
    let mut line = Line::first();
    loop {
        let lexer = read_source_section(alloc, source, &mut taken, line)?;
        let section = compile_section(alloc, &lexer)?;
        let Ok(()) = push_segment(alloc, &lexer, &section.code, maker, &mut segments) else {
            return Err(KitFault::Memory);
        };
        match section.next {
            Some(next) => line = next,
            None => return Ok(segments),
        }
    }
}

/// Reads a source, and loads its segments into a store of so many words.
pub fn load_source<C: ByteIn, M: SegmentMaker>(
    alloc: Global,
    source: &mut C,
    words: u32,
    maker: &mut M,
) -> Result<Machine, KitFault>
    requires least { STORE_LEAST ≤ words }
    requires most { words ≤ STORE_MOST }
    ensures loaded { IfOk result (λ machine. LoadsSource machine words (C.left source.old) (C.left source.new) (C.ended source.new)) }
    ensures refused { IfErr result (λ fault. RefusesSource fault words (C.left source.old) (C.left source.new) (C.ended source.new)) }
    ensures not_loaded { IfErr result (λ fault. NotLoaded fault words (C.left source.old) (C.left source.new) (C.ended source.new)) }
    ensures delivered { ReadsSource (is_read result) (C.left source.old) (C.left source.new) }
    ensures failures { C.faults source.new ≡ (if is_read result then 1 else 0) }
{
    sources_run();
    let segments = assemble(alloc, source, maker)?;
    Ok(Machine::load(alloc, segments.as_slice(), words)?)
}

/// Compiles a source, a section after another, loads the segments of all, and runs them with this input and output.
///
/// Its contract is the headline: with enough steps and words the run of an accepted source writes exactly the bytes of its meaning
/// and gives its end. `docs/HEADLINE.md` goes through it word by word. For any source it keeps its limits: each answer of a run is that of
/// segments that represent the sections, loaded into just so many words and run for at most so many steps.
///
/// Nothing is run unless all sections were accepted and loaded. Where the source is refused or cannot be read, neither input
/// nor output is touched, and no byte of the source is asked for after the section that is refused. `TooSmall` and
/// `NoStart` come from accepted sources alone.
pub fn run_source<C: ByteIn, I: ByteIn, O: ByteOut>(
    alloc: Global,
    source: &mut C,
    limits: Limits,
    input: &mut I,
    out: &mut O,
) -> Result<End, KitFault>
    ensures headline { Headline meanings result limits.steps limits.words (C.left source.old) (C.left source.new) (C.ended source.new)
        (streams I.ByteIn O.ByteOut input.old out.old) (streams I.ByteIn O.ByteOut input.new out.new) }
    ensures keeps_limits { KeepsLimits (HeldBy I.held) result limits.steps limits.words (C.left source.old) (C.left source.new) (C.ended source.new)
        (streams I.ByteIn O.ByteOut input.old out.old) (streams I.ByteIn O.ByteOut input.new out.new) }
    ensures delivered { ReadsSource (is_read result) (C.left source.old) (C.left source.new) }
    ensures runs_nothing { OnErr result ((input.new ≡ input.old) × (out.new ≡ out.old)) }
    ensures read_fails { C.faults source.new ≡ (if is_read result then 1 else 0) }
{
    sources_run();
    let mut machine = load_source(alloc, source, limits.words(), &mut Plain)?;
    Ok(machine.run(limits.steps(), input, out))
}
