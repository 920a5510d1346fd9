//! A segment that is being read.
ghost use Rattle.std.specs.Prelude.{◌≡◌, ℕ, ◌+◌, ◌≤◌, [], ◌∷◌, ◌++◌, length, slice_get, OnOk};
ghost use Rattle.bk_machine.specs.Segment.{IsSegment, use_is_set};
ghost use Rattle.bk_machine.specs.SegmentItems.{items_of};
ghost use Rattle.bk_intcode.specs.ItemFault.{all_set, too_long, item_fault};
ghost use Rattle.bk_intcode.specs.Drafts.{IsDraft};

use bk_base::IntcodeKind;
use bk_base::limit::INTCODE_ITEMS;
use bk_machine::{Intcode, Item, Operand};
use std::alloc::{AllocError, Global};
use std::collections::BTreeSet;

/// The items so far, the labels that they set, and whether one gives the largest frame.
#[derive(Drop)]
pub struct Draft {
    items: Vec<Item>,
    labels: BTreeSet<u32>,
    framed: bool,
}

impl Draft {
    /// No items.
    pub fn new(alloc: Global) -> Draft
        ensures items { result.items.items ≡ [] }
        ensures draft { IsDraft result }
    {
        Draft {
            items: Vec::new(alloc),
            labels: BTreeSet::new(alloc),
            framed: false,
        }
    }

    /// How many items there are.
    pub fn len(&self) -> usize
        ensures { result ≡ length self.now.items.items }
    {
        self.items.len()
    }

    /// Whether the label that an item uses is set, if it uses one.
    fn use_is_set(&self, item: &Item) -> bool
        requires { IsDraft self.now }
        ensures { result ≡ use_is_set self.now.items.items item.now }
    {
        match *item {
            Item::Instruction {
                operand: Operand::Label(label),
                ..
            }
            | Item::LabelWord(label)
            | Item::SetGlobal { label, .. } => self.labels.contains(&label),
            _ => true,
        }
    }

    /// Whether each label that is used is set.
    fn all_set(&self) -> bool
        requires { IsDraft self.now }
        ensures { result ≡ all_set self.now.items.items }
    {
        for item in &self.items {
            if !self.use_is_set(item) {
                return false;
            }
        }
        true
    }

    /// The fault of one item more.
    fn long_fault(&self) -> Option<IntcodeKind>
        ensures { result ≡ slice_get (too_long self.now.items.items) 0 }
    {
        if self.items.len() < INTCODE_ITEMS as usize {
            None
        } else {
            Some(IntcodeKind::TooLong)
        }
    }

    /// The fault that is reported of an item after these.
    pub fn fault_of(&self, item: Item) -> Option<IntcodeKind>
        requires { IsDraft self.now }
        ensures { result ≡ item_fault self.now.items.items item }
    {
        match item {
            Item::End if !self.all_set() => Some(IntcodeKind::LabelNotSet),
            Item::SetLabel(label) if self.labels.contains(&label) => Some(
                IntcodeKind::LabelSetTwice,
            ),
            Item::Frame(_) if self.framed => {
                let long = self.long_fault();
                if long.is_some() {
                    long
                } else {
                    Some(IntcodeKind::FrameGivenTwice)
                }
            }
            _ => self.long_fault(),
        }
    }

    /// Adds an item.
    pub fn add(&mut self, item: Item) -> Result<(), AllocError>
        requires { IsDraft self.old }
        ensures added { OnOk result (self.new.items.items ≡ self.old.items.items ++ item ∷ []) }
        ensures draft { OnOk result (IsDraft self.new) }
    {
        self.items.push(item)?;
        match item {
            Item::SetLabel(label) => {
                self.labels.insert(label)?;
            }
            Item::Frame(_) => self.framed = true,
            _ => {}
        }
        Ok(())
    }

    /// The segment of these items, if they are one.
    pub fn into_segment(self) -> Intcode
        requires { IsSegment self.items.items }
        ensures { items_of result ≡ self.items.items }
    {
        let Draft {
            items,
            labels: _,
            framed: _,
        } = self;
        Intcode::new(items)
    }
}
