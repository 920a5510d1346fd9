//! A run of a source with lines for its steps.
ghost use Rattle.std.specs.Prelude.{◌≡◌, ◌≢◌, Ok, OnErr, if◌then◌else◌};
ghost use Rattle.bk_base.specs.declared.run_end.End.TheVariants.{WriteFault};
ghost use Rattle.bk_base.specs.Devices.{Begins};
ghost use Rattle.bk_machine.specs.Runs.{HeldBy};
ghost use Rattle.bk_filters.specs.Interpreting.{is_read, streams};
ghost use Rattle.bk_filters.specs.Headline.{Headline};
ghost use Rattle.bk_filters.specs.RunningSource.{KeepsLimits, ReadsSource};
ghost use Rattle.bk_filters.specs.SourceMeaning.{meanings};

use crate::tracing::{Telling, run_steps};
use bk_base::{ByteIn, ByteOut, End, Limits};
use bk_filters::{KitFault, SectionCode, SegmentMaker, load_source, sources_run};
use bk_gen::{PlacedSegment, generate_placed};
use bk_lex::Lexer;
use bk_machine::Intcode;
use bk_show::{Extent, PlacedCode, Program, SourceTrace, put_source_end, put_source_heading};
use bk_source_map::places_of;
use std::alloc::{AllocError, Global};

/// Segments with the places of their code, which a program has.
#[derive(Drop)]
struct Placed {
    /// The program.
    program: Program,
}

impl SegmentMaker for Placed {
    /// The segment that `generate` makes, which the program then knows.
    fn segment(
        &mut self,
        alloc: Global,
        lexer: &Lexer,
        section: &SectionCode,
    ) -> Result<Intcode, AllocError> {
        let Ok(lexed) = lexer.lexed(alloc) else {
            return Err(AllocError);
        };
        let placing = places_of(alloc, &section.tree, &section.code)?;
        let placed = generate_placed(alloc, &section.code)?;
        let code = PlacedCode {
            tokens: lexed.tokens.as_slice(),
            code: &section.code,
            placing: &placing,
            segment: &placed.segment,
            ends: placed.ends.as_slice(),
        };
        self.program.add(alloc, &code)?;
        let PlacedSegment { segment, .. } = placed;
        Ok(segment)
    }
}

/// Writes the line above the steps on the error stream, and passes it on. A failure of that stream, or refused memory, changes nothing.
fn report_heading<E: ByteOut>(alloc: Global, err: &mut E)
    ensures grows { Begins (E.taken err.old) (E.taken err.new) }
    ensures passes { Begins (E.passed err.old) (E.passed err.new) }
{
    if put_source_heading(alloc, err).is_ok() {
        let _passed = err.flush();
    }
}

/// Writes the line after them in the same way.
fn report_end<E: ByteOut>(alloc: Global, end: End, err: &mut E)
    ensures grows { Begins (E.taken err.old) (E.taken err.new) }
    ensures passes { Begins (E.passed err.old) (E.passed err.new) }
{
    if put_source_end(alloc, end, err).is_ok() {
        let _passed = err.flush();
    }
}

/// Compiles a source and runs it as `run_source` does, with lines on the error stream for the steps that are asked for, with their lines,
/// procedures and names in the source. The run is the one of the headline, unless the output fails: it is passed on at each step, so a
/// failure of it shows earlier. A failure of the error stream changes nothing.
pub fn trace_source<C: ByteIn, I: ByteIn, O: ByteOut, E: ByteOut>(
    alloc: Global,
    source: &mut C,
    limits: Limits,
    extent: &Extent,
    input: &mut I,
    out: &mut O,
    err: &mut E,
) -> Result<End, KitFault>
    ensures headline { result ≢ Ok WriteFault → Headline meanings result limits.steps limits.words (C.left source.old) (C.left source.new) (C.ended source.new)
        (streams I.ByteIn O.ByteOut input.old out.old) (streams I.ByteIn O.ByteOut input.new out.new) }
    ensures keeps_limits { result ≢ Ok WriteFault → KeepsLimits (HeldBy I.held) result limits.steps limits.words (C.left source.old) (C.left source.new) (C.ended source.new)
        (streams I.ByteIn O.ByteOut input.old out.old) (streams I.ByteIn O.ByteOut input.new out.new) }
    ensures passes { Begins (O.passed out.old) (O.passed out.new) }
    ensures runs_nothing { OnErr result ((input.new ≡ input.old) × (out.new ≡ out.old)) }
    ensures delivered { ReadsSource (is_read result) (C.left source.old) (C.left source.new) }
    ensures read_fails { C.faults source.new ≡ (if is_read result then 1 else 0) }
    ensures reported { Begins (E.taken err.old) (E.taken err.new) × Begins (E.passed err.old) (E.passed err.new) }
{
    sources_run();
    let mut placed = Placed {
        program: Program::new(alloc),
    };
    let mut machine = load_source(alloc, source, limits.words(), &mut placed)?;
    report_heading(alloc, err);
    let mut telling = Telling::Source(SourceTrace::of(&placed.program, extent));
    let end = run_steps(alloc, &mut machine, limits, &mut telling, input, out, err);
    report_end(alloc, end, err);
    Ok(end)
}
