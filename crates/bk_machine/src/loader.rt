//! Loading: segments into the store of a machine.
ghost use Rattle.std.specs.Prelude.{◌≡◌, ◌+◌, ◌<◌, ◌≤◌, ◌↔◌, false, OnOk, IfOk, MatchOption, map, vec_len, vec_capacity};
ghost use Rattle.bk_base.specs.declared.limit.TheConstants.{STORE_LEAST, STORE_MOST};
ghost use Rattle.bk_machine.specs.Segment.{IsSegment};
ghost use Rattle.bk_machine.specs.SegmentItems.{items_of};
ghost use Rattle.bk_machine.specs.Placement.{SEGMENTS, stack_start, loaded_store, greatest_frame, any_starts, segment_size};
ghost use Rattle.bk_machine.specs.Kept.{padded};
ghost use Rattle.bk_machine.specs.Inner.Placed.{placed};
ghost use Rattle.bk_machine.specs.declared.load_fault.LoadFault.TheVariants.{TooSmall, NoStart};

use crate::extent::measure_segment;
use crate::item::Item;
use crate::labels::Labels;
use crate::library::{FIRST_SEGMENT, push_library};
use crate::load_fault::LoadFault;
use crate::packing::push_items;
use crate::segment::Intcode;
use bk_base::limit::{FRAME_WORDS, STORE_LEAST, STORE_MOST};
use std::alloc::{AllocError, Global};

/// The least words of a stack.
const STACK_LEAST: u32 = 16;

/// A store before its run.
#[derive(Debug, Drop)]
pub struct Loaded {
    /// The words of the store, up to the end of the segments.
    pub store: Vec<u32>,
    /// The first word of the stack.
    pub stack: u32,
    /// The depth of the deepest frame that a segment states, in words.
    pub frame: u32,
}

/// What the segments need.
#[derive(Clone, Copy)]
struct Needs {
    /// The address after them, the first word of the stack.
    stack: u32,
    /// One of them sets global 1.
    starts: bool,
    /// The depth of the deepest frame that one of them reports, in words.
    frame: u32,
}

/// What the segments need, unless they reach beyond `room`.
fn needs_of(segments: &[Intcode], room: u32) -> Option<Needs>
    requires first { SEGMENTS ≤ room }
    requires room { room ≤ STORE_MOST }
    ensures { let all = map items_of segments.now in
        MatchOption result (room < stack_start SEGMENTS all) (λ needs. (needs.stack ≡ stack_start SEGMENTS all) × (needs.stack ≤ room)
        × (needs.starts ≡ any_starts all) × (needs.frame ≡ greatest_frame all)) }
{
    let mut stack = FIRST_SEGMENT;
    let mut starts = false;
    let mut frame = 0;
    for segment in segments {
        let measure = measure_segment(segment.items(), stack, room)?;
        stack = measure.extent.next;
        starts = starts || measure.starts;
        frame = frame.max(measure.frame.unwrap_or(FRAME_WORDS));
    }
    Some(Needs {
        stack,
        starts,
        frame,
    })
}

/// Puts a segment after the words of the store, and sets its globals.
fn place(alloc: Global, store: &mut Vec<u32>, items: &[Item]) -> Result<(), AllocError>
    requires whole { IsSegment items.now }
    requires globals { SEGMENTS ≤ vec_len store.old }
    requires room { vec_len store.old + segment_size items.now ≤ STORE_MOST }
    ensures { OnOk result (store.new.items ≡ placed store.old.items items.now) }
{
    let labels = Labels::of(alloc, items, store.len() as u32)?;
    push_items(store, &labels, items)
}

/// The store of so many words with the segments in it, up to their end; there is memory for all its words.
fn loaded_store(alloc: Global, segments: &[Intcode], words: u32) -> Result<Vec<u32>, AllocError>
    requires room { stack_start SEGMENTS (map items_of segments.now) ≤ words }
    requires most { words ≤ STORE_MOST }
    ensures store { IfOk result (λ store. padded words store.items ≡ loaded_store words (map items_of segments.now)) }
    ensures within { IfOk result (λ store. vec_len store ≤ words) }
    ensures capacity { IfOk result (λ store. words ≤ vec_capacity store) }
{
    let mut store = Vec::with_capacity(alloc, words as usize)?;
    push_library(&mut store)?;
    for segment in segments {
        place(alloc, &mut store, segment.items())?;
    }
    store.reserve_exact(words as usize - store.len())?;
    Ok(store)
}

/// Puts the segments one after another into a store of so many words.
pub fn load(alloc: Global, segments: &[Intcode], words: u32) -> Result<Loaded, LoadFault>
    requires least { STORE_LEAST ≤ words }
    requires most { words ≤ STORE_MOST }
    ensures store { IfOk result (λ loaded. padded words loaded.store.items ≡ loaded_store words (map items_of segments.now)) }
    ensures within { IfOk result (λ loaded. vec_len loaded.store ≤ words) }
    ensures capacity { IfOk result (λ loaded. words ≤ vec_capacity loaded.store) }
    ensures stack { IfOk result (λ loaded. loaded.stack ≡ stack_start SEGMENTS (map items_of segments.now)) }
    ensures room { IfOk result (λ loaded. loaded.stack + 16 ≤ words) }
    ensures frame { IfOk result (λ loaded. loaded.frame ≡ greatest_frame (map items_of segments.now)) }
    ensures too_small { (result ≡ Err TooSmall) ↔ (words < stack_start SEGMENTS (map items_of segments.now) + 16) }
    ensures no_start { (result ≡ Err NoStart) ↔ ((stack_start SEGMENTS (map items_of segments.now) + 16 ≤ words)
        × (any_starts (map items_of segments.now) ≡ false)) }
{
    let needs = needs_of(segments, words - STACK_LEAST).ok_or(LoadFault::TooSmall)?;
    if !needs.starts {
        return Err(LoadFault::NoStart);
    }
    let store = loaded_store(alloc, segments, words)?;
    Ok(Loaded {
        store,
        stack: needs.stack,
        frame: needs.frame,
    })
}
