//! The machine.
ghost use Rattle.std.specs.Prelude.{ℕ, ◌≡◌, ◌≢◌, ◌+◌, ◌<◌, ◌≤◌, ◌↔◌, ◌⊎◌, None, Some, IfOk, false, map, slice_get};
ghost use Rattle.std.specs.Io.KnownBytes.{Keeps};
ghost use Rattle.bk_base.specs.declared.run_end.End.TheVariants.{StepLimit, WriteFault};
ghost use Rattle.bk_base.specs.declared.limit.TheConstants.{STORE_LEAST, STORE_MOST};
ghost use Rattle.bk_machine.specs.declared.load_fault.LoadFault.TheVariants.{TooSmall, NoStart};
ghost use Rattle.bk_machine.specs.Placement.{SEGMENTS, stack_start, loaded_store, greatest_frame, any_starts};
ghost use Rattle.bk_base.specs.Devices.{Begins};
ghost use Rattle.bk_machine.specs.Runs.{HeldBy, Ran, Went, Blames, BlamesBefore, devices};

use crate::board::Board;
use crate::load_fault::LoadFault;
use crate::loader::load;
use crate::registers::Registers;
use crate::run::go;
use crate::segment::Intcode;
use bk_base::limit::{STORE_LEAST, STORE_MOST};
use bk_base::{ByteIn, ByteOut, End};
use std::alloc::Global;

/// What the segments of a machine need.
#[derive(Clone, Copy, Debug, PartialEq, Eq)]
pub struct Sizes {
    /// The first word of the stack.
    pub image: u32,
    /// The greatest depth of a frame that a segment gives, in words.
    pub frame: u32,
}

/// A machine whose store has a fixed number of words.
#[derive(Debug, Drop)]
pub struct Machine {
    board: Board,
    end: Option<End>,
    sizes: Sizes,
    pub ghost not_paused: { end ≢ Some StepLimit },
}

impl Machine {
    ghost use Rattle.bk_machine.specs.SegmentItems.{items_of};
    ghost use Rattle.bk_machine.specs.State.{store_of, registers_of, end_of, words_of, sizes_of};

    /// A machine with the segments in a store of so many words, ready to begin. There is memory for all of them, and those after the
    /// segments are written when they are reached: `TooSmall` where less than 16 words would be
    /// left for the stack, else `NoStart` where no segment sets global 1; both before anything grows. It takes the time
    /// of a look-up for each item.
    pub fn load(alloc: Global, segments: &[Intcode], words: u32) -> Result<Machine, LoadFault>
        requires least { STORE_LEAST ≤ words }
        requires most { words ≤ STORE_MOST }
        ensures store { IfOk result (λ machine. store_of machine ≡ loaded_store words (map items_of segments.now)) }
        ensures registers { IfOk result (λ machine. registers_of machine
            ≡ record { c = 1; p = stack_start SEGMENTS (map items_of segments.now); a = 0; b = 0 }) }
        ensures fresh { IfOk result (λ machine. end_of machine ≡ None) }
        ensures words { IfOk result (λ machine. words_of machine ≡ words) }
        ensures sizes { IfOk result (λ machine. sizes_of machine ≡ record {
          image = stack_start SEGMENTS (map items_of segments.now);
          frame = greatest_frame (map items_of segments.now);
        }) }

        ensures too_small { (result ≡ Err TooSmall) ↔ (words < stack_start SEGMENTS (map items_of segments.now) + 16) }
        ensures no_start { (result ≡ Err NoStart) ↔ ((stack_start SEGMENTS (map items_of segments.now) + 16 ≤ words)
            × (any_starts (map items_of segments.now) ≡ false)) }
    {
        let loaded = load(alloc, segments, words)?;
        Ok(Machine {
            board: Board {
                kept: loaded.store,
                words,
                registers: Registers {
                    c: 1,
                    p: loaded.stack,
                    a: 0,
                    b: 0,
                },
            },
            end: None,
            sizes: Sizes {
                image: loaded.stack,
                frame: loaded.frame,
            },
        })
    }

    /// What its segments need. It takes no memory.
    pub fn sizes(&self) -> Sizes
        ensures { result ≡ sizes_of self.now }
    {
        self.sizes
    }

    /// Its registers. Where the last call of `run` ended with `StepLimit`, or before the first, they are those of the next step; no
    /// contract says what they are after another end. It takes no memory.
    pub fn registers(&self) -> Registers
        ensures { result ≡ registers_of self.now }
    {
        self.board.registers
    }

    /// The word of its store at an address, if the store has one; after a run, as the registers. It takes no memory.
    pub fn word(&self, at: u32) -> Option<u32>
        ensures { result ≡ slice_get (store_of self.now) at }
    {
        self.board.store().at(at)
    }

    /// Does up to this many steps more. `StepLimit` comes after just so many, and the machine is ready to go on in another
    /// call; any other end is given again by each later call, which asks neither reader nor writer. Each end flushes. It
    /// takes no memory.
    pub fn run<I: ByteIn, O: ByteOut>(&mut self, steps: u64, input: &mut I, out: &mut O) -> End
        ensures fixed { (words_of self.new ≡ words_of self.old) × (sizes_of self.new ≡ sizes_of self.old) }

        ensures ran { end_of self.old ≡ None → Ran (HeldBy I.held) result steps
            (store_of self.old) (registers_of self.old) (store_of self.new) (registers_of self.new)
            (devices I.ByteIn O.ByteOut input.old out.old) (devices I.ByteIn O.ByteOut input.new out.new) }
        ensures flushed { end_of self.old ≡ None → result ≢ WriteFault → O.passed out.new ≡ O.taken out.new }
        ensures passes { Begins (O.passed out.old) (O.passed out.new) }
        ensures cause { end_of self.old ≡ None → Blames result (I.faults input.old) (I.faults input.new) (O.faults out.new) }

        ensures paused { result ≡ StepLimit → end_of self.new ≡ None }
        ensures ended { result ≢ StepLimit → end_of self.new ≡ Some result }
        ensures again { (end : _) → end_of self.old ≡ Some end →
            (result ≡ end) × (self.new ≡ self.old) × (input.new ≡ input.old) × (out.new ≡ out.old) }
    {
        if let Some(end) = self.end {
            return end;
        }
        let end = go(&mut self.board, steps, input, out);
        let end = finish(end, out);
        if end != End::StepLimit {
            self.end = Some(end);
        }
        end
    }
}

/// Each end flushes, and one that cannot is a write fault.
fn finish<O: ByteOut>(end: End, out: &mut O) -> End
    ensures same { result ≡ end ⊎ result ≡ WriteFault }
    ensures passed { result ≢ WriteFault → O.passed out.new ≡ O.taken out.new }
    ensures kept { Keeps (O.taken out.old) (O.taken out.new) }
    ensures passes { Begins (O.passed out.old) (O.passed out.new) }
    ensures cause { (reads reads' : ℕ) → reads ≤ 1 → BlamesBefore end reads reads' (O.faults out.old) → Blames result reads reads' (O.faults out.new) }
{
    match out.flush() {
        Ok(()) => end,
        Err(_) => End::WriteFault,
    }
}
