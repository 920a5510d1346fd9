//! The stack of the unfinished constructs.
ghost use Rattle.std.specs.Prelude.{◌≡◌, ◌<◌, vec_len, vec_capacity};
ghost use Rattle.bk_tree.specs.Tree.{declarations_in};
ghost use Rattle.bk_frames.specs.Sizes.{size_of_declarations};
ghost use Rattle.bk_frames.specs.Unfinished.{unfinished_on, held_in};
ghost use Rattle.bk_frames.specs.Spares.{spare_of_section};
ghost use Rattle.bk_frames.specs.Stacked.{Ample, Spared};

use crate::budget::FrameBudgets;
use crate::frame::{Frame, Size};
use bk_tree::Decl;
use std::alloc::Global;

/// The unfinished constructs: the section, with its declarations and their size, and above it the others, the last one on top. The
/// budgets of the lowest frames are kept, of as many as were computed.
#[derive(Drop)]
pub struct Frames {
    pub decls: Vec<Decl>,
    pub held: Size,
    pub above: Vec<Frame>,
    pub budgets: Vec<FrameBudgets>,
    pub alloc: Global,
    ghost holds: { held ≡ size_of_declarations (declarations_in decls.items) },
    ghost spared: { Spared (spare_of_section held) above.items },
    ghost ample: { Ample decls.items above.items budgets.items },
    ghost reserved: { vec_len above < vec_capacity above },
}
