//! Reading and loading texts of segments.
ghost use Rattle.std.specs.Prelude.{◌≡◌, ◌≤◌, IfOk, IfErr, map, if◌then◌else◌};
ghost use Rattle.bk_base.specs.declared.limit.TheConstants.{STORE_LEAST, STORE_MOST};
ghost use Rattle.bk_machine.specs.SegmentItems.{items_of};
ghost use Rattle.bk_machine.specs.State.{words_of};
ghost use Rattle.bk_filters.specs.Texts.{part_number, parts, Applies};
ghost use Rattle.bk_filters.specs.Code.{intcode};
ghost use Rattle.bk_filters.specs.Interpreting.{TextRefused, CodeRefused, Loads, is_read};

use crate::kit_fault::KitFault;
use bk_base::limit::{STORE_LEAST, STORE_MOST};
use bk_base::{ByteIn, Refused};
use bk_intcode::read_segment;
use bk_machine::{Intcode, Machine};
use std::alloc::Global;

/// The number of the segment or section after so many others.
pub fn number_after(before: usize) -> u32
    ensures { result ≡ part_number before }
{
    before.min(u32::MAX as usize - 1) as u32 + 1
}

/// Reads all segments of a text.
pub fn read_code<C: ByteIn>(alloc: Global, code: &mut C) -> Result<Vec<Intcode>, KitFault>
    ensures read { IfOk result (λ list. Applies intcode (parts (map items_of list.items)) (C.left code.old) (C.left code.new) (C.ended code.new)) }
    ensures refused { IfErr result (λ fault. TextRefused fault (C.left code.old) (C.left code.new) (C.ended code.new)) }
    ensures failures { C.faults code.new ≡ (if is_read result then 1 else 0) }
{
    let mut list = Vec::new(alloc);
    loop {
        match read_segment(alloc, code) {
            Ok(Some(segment)) => {
                let Ok(()) = list.push(segment) else {
                    return Err(KitFault::Memory);
                };
            }
            Ok(None) => return Ok(list),
            Err(Refused::Fault(fault)) => {
                return Err(KitFault::Intcode(number_after(list.len()), fault));
            }
            Err(Refused::Memory) => return Err(KitFault::Memory),
            Err(Refused::Device) => return Err(KitFault::Read),
        }
    }
}

/// Reads a text of INTCODE to its end and loads its segments, in their order, into a store of `words` words of 32 bits. Nothing is
/// run: C is 1 and P is the first word after the segments.
///
/// A fault of the text is `Intcode`, with the number of the segment and of the item in it, both from 1. Where the text has none,
/// `TooSmall` says that fewer than 16 words would be left for the stack, and after that `NoStart` that no segment sets global 1.
/// `Read` says that the device failed. These rules are this project's own.
pub fn load_code<C: ByteIn>(alloc: Global, code: &mut C, words: u32) -> Result<Machine, KitFault>
    requires least { STORE_LEAST ≤ words }
    requires most { words ≤ STORE_MOST }
    ensures loaded { IfOk result (λ machine. Loads machine words (C.left code.old) (C.left code.new) (C.ended code.new)) }
    ensures words { IfOk result (λ machine. words_of machine ≡ words) }
    ensures refused { IfErr result (λ fault. CodeRefused fault words (C.left code.old) (C.left code.new) (C.ended code.new)) }
    ensures failures { C.faults code.new ≡ (if is_read result then 1 else 0) }
{
    let segments = read_code(alloc, code)?;
    Ok(Machine::load(alloc, segments.as_slice(), words)?)
}
