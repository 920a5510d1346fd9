//! Segments of INTCODE.
ghost use Rattle.std.specs.Prelude.{◌≡◌};
ghost use Rattle.bk_machine.specs.Segment.{IsSegment};

use crate::item::Item;

/// A segment: a list of items that ends with the one `Item::End`, sets no label twice, sets each label that it uses, gives
/// its largest frame once at most, and keeps the limits of labels, globals, frames and items.
#[derive(Debug, Drop)]
pub struct Intcode {
    items: Vec<Item>,
    ghost whole: { ∥ IsSegment items.items ∥₁ },
}

impl Intcode {
    ghost use Rattle.bk_machine.specs.SegmentItems.{items_of};

    /// The segment of these items, whose caller owes that they are one. It takes no memory.
    pub fn new(items: Vec<Item>) -> Intcode
        requires { IsSegment items.items }
        ensures { items_of result ≡ items.items }
    {
        Intcode { items }
    }

    /// Its items.
    pub fn items(&self) -> &[Item]
        ensures value { result.now ≡ items_of self.now }
        ensures whole { IsSegment result.now }
    {
        self.items.as_slice()
    }
}
