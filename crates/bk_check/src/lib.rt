//! The meaning of programs, done: values, memory, and what is to be done with them.
#![tactic(auto)]

mod blocks;
mod calls;
mod commands;
mod fors;
mod frame;
mod going_on;
mod known;
mod landings;
mod loops;
mod machine;
mod scopes;
mod seeking;
mod steps;

pub use calls::call;
pub use frame::{
    Call, Continuation, Exit, Next, OnDone, OnTarget, OnTruth, OnValue, Subject, Thing,
};
pub use machine::{Evaluator, acts_at};
pub use scopes::Scope;
pub use steps::step;
