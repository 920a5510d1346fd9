//! Depths of statements.
ghost use Rattle.std.specs.Prelude.{◌≡◌, ◌<◌, ◌^◌, max};
ghost use Rattle.bk_ocode.specs.Depth.{next_depth};

use crate::stmt::Stmt;

/// The depth after a statement that has this depth before it.
pub fn depth_after(depth: u32, stmt: &Stmt) -> u32
    requires { next_depth depth stmt.now < 2 ^ 32 }
    ensures { result ≡ next_depth depth stmt.now }
{
    match stmt {
        Stmt::Number { .. }
        | Stmt::True
        | Stmt::False
        | Stmt::Query
        | Stmt::Load { .. }
        | Stmt::Address { .. }
        | Stmt::Text { .. } => depth + 1,
        Stmt::Dyadic { .. }
        | Stmt::LoadByte
        | Stmt::Assign { .. }
        | Stmt::JumpIf { .. }
        | Stmt::GiveResult { .. }
        | Stmt::ReturnItem
        | Stmt::Switch { .. } => depth.saturating_sub(1),
        Stmt::AssignAt => depth.saturating_sub(2),
        Stmt::AssignByte => depth.saturating_sub(3),
        Stmt::TakeResult { depth } => *depth + 1,
        Stmt::CallFunction { frame } => *frame + 1,
        Stmt::CallRoutine { frame } => *frame,
        Stmt::Stack { depth } => *depth,
        Stmt::Save { depth } => *depth,
        Stmt::Entry { .. } => 2,
        _ => depth,
    }
}

/// The larger of two depths.
pub(crate) fn larger(a: u32, b: u32) -> u32
    ensures { result ≡ max a b }
{
    if a < b { b } else { a }
}
