//! The runner of INTCODE.
ghost use Rattle.std.specs.Prelude.{◌≡◌, OnErr, OnOk, if◌then◌else◌};
ghost use Rattle.std.specs.Io.KnownBytes.{Appends};
ghost use Rattle.bk_base.specs.Devices.{AppendsPart};
ghost use Rattle.bk_machine.specs.Runs.{HeldBy};
ghost use Rattle.bk_filters.specs.Interpreting.{Interpreted, is_read, streams};
ghost use Rattle.bk_filters.specs.Sizes.{sizes_line, store_words, Reports};
ghost use Rattle.bk_filters.specs.Telling.{output};

use crate::code::load_code;
use crate::kit_fault::KitFault;
use crate::pieces::put_pieces;
use bk_base::limit::{STORE_LEAST, STORE_MOST};
use bk_base::{ByteIn, ByteOut, End, Failed, Limits};
use bk_machine::Sizes;
use itoa::Buffer;
use std::alloc::Global;

/// Reads all segments of a text of INTCODE, loads them and runs them with this input and output.
///
/// Where the text is refused, cannot be read or cannot be loaded, nothing is run, and neither input nor output is touched.
pub fn interpret<C: ByteIn, I: ByteIn, O: ByteOut>(
    alloc: Global,
    code: &mut C,
    limits: Limits,
    input: &mut I,
    out: &mut O,
) -> Result<End, KitFault>
    ensures interpreted { Interpreted (HeldBy I.held) result limits.steps limits.words (C.left code.old) (C.left code.new) (C.ended code.new)
        (streams I.ByteIn O.ByteOut input.old out.old) (streams I.ByteIn O.ByteOut input.new out.new) }
    ensures runs_nothing { OnErr result ((input.new ≡ input.old) × (out.new ≡ out.old)) }
    ensures read_fails { C.faults code.new ≡ (if is_read result then 1 else 0) }
{
    let mut machine = load_code(alloc, code, limits.words())?;
    Ok(machine.run(limits.steps(), input, out))
}

/// Writes the line of what segments need.
fn put_sizes<O: ByteOut>(sizes: Sizes, out: &mut O) -> Result<(), Failed>
    ensures takes { OnOk result (Appends (O.taken out.old) (O.taken out.new) (sizes_line sizes)) }
    ensures part { OnErr result (AppendsPart (O.taken out.old) (O.taken out.new) (sizes_line sizes)) }
    ensures failed { OnErr result (O.faults out.new ≡ 1) }
{
    let mut image = Buffer::new();
    let mut frame = Buffer::new();
    put_pieces(
        out,
        &[
            b"image ",
            image.format(sizes.image).as_bytes(),
            b", frame ",
            frame.format(sizes.frame).as_bytes(),
            b"\n",
        ],
    )
}

/// Writes the line of what segments need, and passes it on.
fn report<O: ByteOut>(sizes: Sizes, out: &mut O) -> Result<(), Failed>
    ensures takes { OnOk result (Appends (O.taken out.old) (O.taken out.new) (sizes_line sizes) × (O.passed out.new ≡ O.taken out.new)) }
    ensures part { OnErr result (AppendsPart (O.taken out.old) (O.taken out.new) (sizes_line sizes)) }
    ensures failed { OnErr result (O.faults out.new ≡ 1) }
{
    put_sizes(sizes, out)?;
    out.flush()
}

/// Reads a text of INTCODE and loads it into a store of so many words as `interpret` does, runs nothing, and writes what its
/// segments need as a line, as `image 1039, frame 16`: the first word of the stack, and the greatest depth of a frame, in
/// words. For a number of words that no store has the nearest one counts.
pub fn sizes<C: ByteIn, O: ByteOut>(
    alloc: Global,
    code: &mut C,
    words: u32,
    out: &mut O,
) -> Result<(), KitFault>
    ensures reports { Reports result (store_words words) (C.left code.old) (C.left code.new) (C.ended code.new)
        (output O.ByteOut out.old) (output O.ByteOut out.new) }
    ensures read_fails { C.faults code.new ≡ (if is_read result then 1 else 0) }
{
    let machine = load_code(alloc, code, words.max(STORE_LEAST).min(STORE_MOST))?;
    if report(machine.sizes(), out).is_err() {
        return Err(KitFault::Write);
    }
    Ok(())
}
