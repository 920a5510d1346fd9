//! How far items reach in the store, and what else of a segment is known before its words are.
ghost use Rattle.std.specs.Prelude.{◌≡◌, ◌+◌, ◌≤◌, ◌<◌, MatchOption, unwrap_or};
ghost use Rattle.bk_base.specs.declared.limit.TheConstants.{FRAME_WORDS, STORE_MOST};
ghost use Rattle.bk_base.specs.Word.{word_of};
ghost use Rattle.bk_machine.specs.Segment.{frame_of};
ghost use Rattle.bk_machine.specs.Placement.{segment_size, starts};
ghost use Rattle.bk_machine.specs.Inner.Reach.{address_size, operand_size, item_size};

use crate::item::{Item, Operand};
use bk_base::limit;

/// The least address that takes a word of its own after its instruction. The field for an address has the bits below it, and a word
/// divided by it gives the form of the instruction.
pub(crate) const LONG_ADDRESS: u32 = 0x200_0000;

/// How many words an instruction with this address takes.
fn address_size(address: i32) -> u32
    ensures value { result ≡ address_size (word_of address) }
    ensures most { result ≤ 2 }
{
    if address.cast_unsigned() < LONG_ADDRESS {
        1
    } else {
        2
    }
}

/// How many words an instruction with this operand takes.
fn operand_size(operand: Operand) -> u32
    ensures value { result ≡ operand_size operand }
    ensures most { result ≤ 2 }
{
    match operand {
        Operand::Number(n) => address_size(n),
        Operand::Local(n) => address_size(n),
        Operand::Global(n) => address_size(n),
        Operand::Label(_) => 1,
    }
}

/// How many words an item other than a byte takes.
fn item_size(item: Item) -> u32
    ensures value { result ≡ item_size item }
    ensures most { result ≤ 2 }
{
    match item {
        Item::Instruction { operand, .. } => operand_size(operand),
        Item::Word(_) | Item::LabelWord(_) => 1,
        _ => 0,
    }
}

/// How far consecutive items reach.
#[derive(Clone, Copy)]
pub(crate) struct Extent {
    /// The address after them.
    pub(crate) next: u32,
    /// How many bytes the last word holds of a run that may go on, 0 where none may.
    pub(crate) filled: u32,
}

impl Extent {
    ghost use Rattle.std.specs.Prelude.{◌≡◌, ◌+◌, ◌^◌, ◌<◌};
    ghost use Rattle.bk_machine.specs.Inner.Reach.{reached};

    /// That of no items.
    pub(crate) fn at(start: u32) -> Extent
        ensures { result ≡ record { next = start; filled = 0 } }
    {
        Extent {
            next: start,
            filled: 0,
        }
    }

    /// That with one more item.
    pub(crate) fn with(self, item: Item) -> Extent
        requires room { self.next + 2 < 2 ^ 32 }
        requires part { self.filled < 4 }
        ensures value { result ≡ reached self item }
        ensures part { result.filled < 4 }
    {
        match item {
            Item::Byte(_) if self.filled == 0 => Extent {
                next: self.next + 1,
                filled: 1,
            },
            Item::Byte(_) => Extent {
                next: self.next,
                filled: (self.filled + 1) % 4,
            },
            _ => Extent::at(self.next + item_size(item)),
        }
    }
}

/// What the machine needs of consecutive items.
#[derive(Clone, Copy)]
pub(crate) struct Measure {
    /// How far they reach.
    pub(crate) extent: Extent,
    /// One of them sets global 1.
    pub(crate) starts: bool,
    /// The largest depth of a frame that one of them gives, in words.
    pub(crate) frame: Option<u32>,
}

impl Measure {
    ghost use Rattle.std.specs.Prelude.{◌≡◌, ◌+◌, ◌^◌, ◌<◌, ◌||◌, ◌∷◌, List, unwrap_or};
    ghost use Rattle.bk_machine.specs.Inner.Reach.{reached};
    ghost use Rattle.bk_machine.specs.Segment.{frame_of};
    ghost use Rattle.bk_machine.specs.Placement.{item_starts};
    ghost use Rattle.bk_machine.specs.declared.item.Item.{Item as ItemOf};

    /// That with one more item.
    fn with(self, item: Item) -> Measure
        requires room { self.extent.next + 2 < 2 ^ 32 }
        requires part { self.extent.filled < 4 }
        ensures extent { result.extent ≡ reached self.extent item }
        ensures part { result.extent.filled < 4 }
        ensures starts { result.starts ≡ (self.starts || item_starts item) }
        ensures frame { (rest : List ItemOf) → unwrap_or result.frame (frame_of rest) ≡ unwrap_or self.frame (frame_of (item ∷ rest)) }
    {
        match item {
            Item::SetGlobal { number, .. } => Measure {
                extent: Extent::at(self.extent.next),
                starts: self.starts || number == 1,
                frame: self.frame,
            },
            Item::Frame(words) => Measure {
                extent: Extent::at(self.extent.next),
                starts: self.starts,
                frame: Some(self.frame.unwrap_or(words)),
            },
            _ => Measure {
                extent: self.extent.with(item),
                starts: self.starts,
                frame: self.frame,
            },
        }
    }
}

/// What a segment needs that starts at `start`, unless it reaches beyond `room`.
pub(crate) fn measure_segment(items: &[Item], start: u32, room: u32) -> Option<Measure>
    requires start { start ≤ room }
    requires room { room ≤ STORE_MOST }
    ensures { MatchOption result (room < start + segment_size items.now) (λ measure.
        (measure.extent.next ≡ start + segment_size items.now) × (measure.extent.next ≤ room)
        × (measure.starts ≡ starts items.now) × (unwrap_or measure.frame FRAME_WORDS ≡ frame_of items.now)) }
{
    let mut measure = Measure {
        extent: Extent::at(start),
        starts: false,
        frame: None,
    };
    for item in items {
        measure = measure.with(*item);
        if measure.extent.next > room {
            return None;
        }
    }
    Some(measure)
}
