//! The first filter: BCPL in, OCODE out.
ghost use Rattle.std.specs.Prelude.{◌≡◌, OnOk, OnErr, is_err, if◌then◌else◌};
ghost use Rattle.std.specs.Io.KnownBytes.{Appends};
ghost use Rattle.bk_base.specs.Devices.{Begins, AppendsPart};
ghost use Rattle.bk_filters.specs.Sources.{texts_of};
ghost use Rattle.bk_filters.specs.CompilingSection.{codes_in};
ghost use Rattle.bk_filters.specs.Compiling.{Compiles, PutsSections};
ghost use Rattle.bk_filters.specs.Telling.{output};

use crate::kit_fault::KitFault;
use crate::reading::read_source_section;
use crate::section::{SectionCode, compile_section};
use bk_base::{ByteIn, ByteOut, Failed, Line};
use bk_ocode::print;
use std::alloc::Global;

/// Writes the code of a section, if it has any. It is a function of its own, so that the loops over statements and bytes have their
/// registers to themselves.
#[inline(never)]
fn put_code<O: ByteOut>(section: &Option<SectionCode>, out: &mut O) -> Result<(), Failed>
    ensures takes { OnOk result (Appends (O.taken out.old) (O.taken out.new) (texts_of (codes_in section.now))) }
    ensures part { OnErr result (AppendsPart (O.taken out.old) (O.taken out.new) (texts_of (codes_in section.now))) }
    ensures passes { Begins (O.passed out.old) (O.passed out.new) }
    ensures same_failures { OnOk result (O.faults out.new ≡ O.faults out.old) }
    ensures failed { OnErr result (O.faults out.new ≡ 1) }
{
    match section {
        Some(section) => print(&section.code, out),
        None => Ok(()),
    }
}

/// Writes the code of one section after another, up to the first that is refused.
fn put_sections<C: ByteIn, O: ByteOut>(
    alloc: Global,
    source: &mut C,
    out: &mut O,
) -> Result<(), KitFault>
    ensures puts { PutsSections result (C.left source.old) (C.left source.new) (C.ended source.new) (C.faults source.new)
        (output O.ByteOut out.old) (output O.ByteOut out.new) }
{
    let mut taken = 0;
    let mut line = Line::first();
    loop {
        let lexer = read_source_section(alloc, source, &mut taken, line)?;
        let section = compile_section(alloc, &lexer)?;
        let Ok(()) = put_code(&section.code, out) else {
            return Err(KitFault::Write);
        };
        match section.next {
            Some(next) => line = next,
            None => return Ok(()),
        }
    }
}

/// Compiles a source: the text in OCODE of each of its sections, one after another, up to the first that is refused, of
/// which nothing is written.
///
/// The text, the tree and the code of one section are held, and dropped before the next is read. `Read` comes where the
/// source could not be read after the sections that were written, `Write` where the output failed, in the place of any
/// other answer. A section without symbols is skipped.
pub fn compile<C: ByteIn, O: ByteOut>(
    alloc: Global,
    source: &mut C,
    out: &mut O,
) -> Result<(), KitFault>
    ensures compiles { Compiles result (C.left source.old) (C.left source.new) (C.ended source.new) (C.faults source.new)
        (output O.ByteOut out.old) (output O.ByteOut out.new) }
{
    let answer = put_sections(alloc, source, out);
    let Ok(()) = out.flush() else {
        return Err(KitFault::Write);
    };
    answer
}
