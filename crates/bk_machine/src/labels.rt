//! The numbers of a segment's labels.
ghost use Rattle.std.specs.Prelude.{◌≡◌, ℕ, ◌≤◌, ◌==◌, nat_eq, IfOk, OnOk, unwrap_or, if◌then◌else◌};
ghost use Rattle.indexmap.specs.IndexMap.{get, IsEmpty};
ghost use Rattle.bk_base.specs.declared.limit.TheConstants.{STORE_MOST};

use crate::extent::Extent;
use crate::item::Item;
use bk_base::limit;
use bk_tables::{KeyMaker, KeyedHashers};
use indexmap::IndexMap;
use std::alloc::{AllocError, Global};

/// A table by label.
type Table = IndexMap<u32, u32, KeyedHashers>;

/// The numbers of a segment's labels.
#[derive(Drop)]
pub(crate) struct Labels {
    /// By label that is set: its number.
    numbers: Table,
    /// The address after the segment, the number of each label that is not set.
    end: u32,
    ghost within: { (label : ℕ) → unwrap_or (get nat_eq numbers label) end ≤ STORE_MOST },
}

impl Labels {
    ghost use Rattle.std.specs.Prelude.{◌≡◌, ℕ, ◌+◌, ◌≤◌, IfOk};
    ghost use Rattle.bk_base.specs.declared.limit.TheConstants.{STORE_MOST};
    ghost use Rattle.bk_machine.specs.Segment.{IsSegment};
    ghost use Rattle.bk_machine.specs.Placement.{label_number, segment_size};
    ghost use Rattle.bk_machine.specs.Inner.LabelNumbers.{number_of};

    /// Those of a segment that starts at `start`.
    pub(crate) fn of(alloc: Global, items: &[Item], start: u32) -> Result<Labels, AllocError>
        requires whole { IsSegment items.now }
        requires room { start + segment_size items.now ≤ STORE_MOST }
        ensures { IfOk result (λ labels. (label : ℕ) → number_of labels label ≡ label_number start items.now label) }
    {
        let mut numbers = empty_table(alloc, items)?;
        let mut extent = Extent::at(start);
        for item in items {
            if let Item::SetLabel(label) = *item {
                set_number(&mut numbers, label, extent.next)?;
            }
            extent = extent.with(*item);
        }
        Ok(Labels {
            numbers,
            end: extent.next,
        })
    }

    /// The number of a label.
    #[inline]
    pub(crate) fn number(&self, label: u32) -> u32
        ensures value { result ≡ number_of self.now label }
        ensures within { result ≤ STORE_MOST }
    {
        self.numbers.get(&label).copied().unwrap_or(self.end)
    }
}

/// A table with room for the labels that these items set. The key of its hashes is made from them.
fn empty_table(alloc: Global, items: &[Item]) -> Result<Table, AllocError>
    ensures { IfOk result IsEmpty }
{
    let mut key = KeyMaker::new();
    let mut count = 0usize;
    for item in items {
        if let Item::SetLabel(label) = *item {
            key.add(u64::from(label));
            count = count.saturating_add(1);
        }
    }
    IndexMap::with_capacity_and_hasher(alloc, count, key.hashers())
}

/// Gives a label a number.
fn set_number(numbers: &mut Table, label: u32, number: u32) -> Result<(), AllocError>
    ensures { OnOk result ((other unset : ℕ) → unwrap_or (get nat_eq numbers.new other) unset
        ≡ (if other == label then number else unwrap_or (get nat_eq numbers.old other) unset)) }
{
    numbers.insert(label, number).map_err(|_| AllocError)?;
    Ok(())
}
