//! Where statements are, and what they need and set.
ghost use Rattle.std.specs.Prelude.{◌≡◌};
ghost use Rattle.bk_ocode.specs.Depth.{load_depth, assign_depth, least_depth};
ghost use Rattle.bk_ocode.specs.Labels.{label_set};
ghost use Rattle.bk_ocode.specs.Places.{role, may_stand, position_after};
ghost use Rattle.bk_ocode.specs.StmtRange.{InRange, IsVariable};

use crate::standing::{Position, StmtPlace};
use crate::stmt::{Stmt, Variable};

/// The place that a statement may have.
pub(crate) fn role_of(stmt: &Stmt) -> StmtPlace
    ensures { result ≡ role stmt.now }
{
    match stmt {
        Stmt::Entry { .. } | Stmt::DataLabel { .. } | Stmt::Globals { .. } => StmtPlace::Outer,
        Stmt::Save { .. } => StmtPlace::First,
        Stmt::TakeResult { .. } => StmtPlace::Taker,
        Stmt::EndProcedure => StmtPlace::Last,
        Stmt::DataNumber { .. } | Stmt::DataAddress { .. } => StmtPlace::Datum,
        _ => StmtPlace::Body,
    }
}

/// Whether a statement of this kind may be there.
pub(crate) fn fits(position: Position, role: StmtPlace) -> bool
    ensures { result ≡ may_stand position role }
{
    match position {
        Position::Outside => role == StmtPlace::Outer,
        Position::InData => role == StmtPlace::Outer || role == StmtPlace::Datum,
        Position::Opened => role == StmtPlace::First,
        Position::AfterLabel(_) => role == StmtPlace::Body || role == StmtPlace::Taker,
        Position::AfterReturn => role == StmtPlace::Body || role == StmtPlace::Last,
        Position::Inside => role == StmtPlace::Body,
        Position::Ended => false,
    }
}

/// Where the statement after this one is.
pub(crate) fn following(stmt: &Stmt) -> Position
    ensures { result ≡ position_after stmt.now }
{
    match stmt {
        Stmt::Entry { .. } => Position::Opened,
        Stmt::Label { label } => Position::AfterLabel(*label),
        Stmt::ReturnItem | Stmt::Return => Position::AfterReturn,
        Stmt::EndProcedure => Position::Outside,
        Stmt::DataLabel { .. } | Stmt::DataNumber { .. } | Stmt::DataAddress { .. } => {
            Position::InData
        }
        Stmt::Globals { .. } => Position::Ended,
        _ => Position::Inside,
    }
}

/// The label that a statement sets.
pub(crate) fn set_label(stmt: &Stmt) -> Option<u32>
    ensures { result ≡ label_set stmt.now }
{
    match stmt {
        Stmt::Label { label } => Some(*label),
        Stmt::Entry { label, .. } => Some(*label),
        Stmt::DataLabel { label } => Some(*label),
        _ => None,
    }
}

/// The depth that is needed to load a variable.
fn depth_to_load(variable: Variable) -> u32
    requires { IsVariable variable }
    ensures { result ≡ load_depth variable }
{
    match variable {
        Variable::Local(slot) => slot + 1,
        _ => 0,
    }
}

/// The depth that is needed to store an item in a variable.
fn depth_to_assign(variable: Variable) -> u32
    requires { IsVariable variable }
    ensures { result ≡ assign_depth variable }
{
    match variable {
        Variable::Local(slot) => slot + 2,
        _ => 3,
    }
}

/// The least depth that a statement needs before it.
pub(crate) fn depth_needed(stmt: &Stmt) -> u32
    requires { InRange stmt.now }
    ensures { result ≡ least_depth stmt.now }
{
    match stmt {
        Stmt::Load { from } => depth_to_load(*from),
        Stmt::Address { of } => depth_to_load(*of),
        Stmt::Assign { to } => depth_to_assign(*to),
        Stmt::Monadic { .. }
        | Stmt::JumpIf { .. }
        | Stmt::GiveResult { .. }
        | Stmt::ReturnItem
        | Stmt::Switch { .. } => 3,
        Stmt::Dyadic { .. } | Stmt::LoadByte | Stmt::AssignAt => 4,
        Stmt::AssignByte => 5,
        Stmt::CallFunction { frame } => *frame + 3,
        Stmt::CallRoutine { frame } => *frame + 3,
        _ => 0,
    }
}
