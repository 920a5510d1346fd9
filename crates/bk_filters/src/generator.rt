//! The second filter: OCODE in, INTCODE out.
ghost use Rattle.std.specs.Prelude.{◌≡◌};
ghost use Rattle.bk_filters.specs.Generating.{Generates, PutsSegments, ocode_refused};
ghost use Rattle.bk_filters.specs.Telling.{output};

use crate::code::number_after;
use crate::kit_fault::KitFault;
use bk_base::{ByteIn, ByteOut, OcodeFault, Refused};
use bk_gen::generate;
use bk_intcode::print;
use bk_ocode::read_section;
use std::alloc::Global;

/// What the kit answers of a section after so many others that is refused.
pub fn section_refused(before: usize, refused: Refused<OcodeFault>) -> KitFault
    ensures { result ≡ ocode_refused before refused }
{
    match refused {
        Refused::Fault(fault) => KitFault::Ocode(number_after(before), fault),
        Refused::Memory => KitFault::Memory,
        Refused::Device => KitFault::Read,
    }
}

/// Writes the segment of one section after another, up to the first that is refused. A text has fewer sections than one call
/// reads bytes.
fn put_segments<I: ByteIn, O: ByteOut>(
    alloc: Global,
    input: &mut I,
    out: &mut O,
) -> Result<(), KitFault>
    ensures puts { PutsSegments result (I.left input.old) (I.left input.new) (I.ended input.new) (I.faults input.new)
        (output O.ByteOut out.old) (output O.ByteOut out.new) }
{
    for before in 0..usize::MAX {
        let section = match read_section(alloc, input) {
            Ok(Some(section)) => section,
            Ok(None) => return Ok(()),
            Err(refused) => return Err(section_refused(before, refused)),
        };
        let segment = generate(alloc, &section)?;
        let Ok(()) = print(&segment, out) else {
            return Err(KitFault::Write);
        };
    }
    Ok(())
}

/// Generates INTCODE from a text of OCODE: the text of a segment for each of its sections, one after another, up to the first
/// that is refused, of which nothing is written.
///
/// One section is held with its segment, and dropped before the next is read. `Read` comes where the input could not be read
/// after the sections that were written, `Write` where the output failed, in the place of any other answer.
pub fn generate_all<I: ByteIn, O: ByteOut>(
    alloc: Global,
    input: &mut I,
    out: &mut O,
) -> Result<(), KitFault>
    ensures generates { Generates result (I.left input.old) (I.left input.new) (I.ended input.new) (I.faults input.new)
        (output O.ByteOut out.old) (output O.ByteOut out.new) }
{
    let answer = put_segments(alloc, input, out);
    let Ok(()) = out.flush() else {
        return Err(KitFault::Write);
    };
    answer
}
