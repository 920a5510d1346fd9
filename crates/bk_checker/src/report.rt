//! What a check answers.
use bk_objects::Reason;
use bk_reports::{Notice, Remark};
use std::alloc::AllocError;

/// How a check ends.
#[derive(Clone, Copy, Debug)]
pub enum Verdict {
    /// The program ends with this status.
    Status(u32),
    /// The program ends with a division by zero.
    DivideByZero,
    /// The program has no START.
    NoStart,
    /// The program does what is undefined.
    Undefined {
        /// The number of the argument at fault, from 1, in a call of a routine of the library.
        argument: Option<usize>,
        /// Why it is undefined.
        reason: Reason,
    },
    /// The program goes on after all turns.
    Turns,
}

/// Why a check gives no verdict.
#[derive(Clone, Copy, Debug)]
pub enum CheckFault {
    /// A growth was refused.
    Memory,
    /// More is to be done, or more lives, than the limits of a check.
    TooDeep,
    /// The input failed.
    Read,
    /// The output failed.
    Write,
}

impl From<AllocError> for CheckFault {
    ghost use Rattle.std.specs.Prelude.{◌≡◌};
    ghost use Rattle.bk_checker.specs.declared.report.CheckFault.TheVariants.{Memory};

    ghost from_gives = { λ _ fault. fault ≡ Memory };

    fn from(_error: AllocError) -> CheckFault {
        CheckFault::Memory
    }
}

/// Why a check was given up, and what is reported to a person of it.
#[derive(Debug, Drop)]
pub struct GivenUp {
    /// Why.
    pub fault: CheckFault,
    /// Where, and which, if the limits of a check were reached.
    pub stop: Option<Notice>,
}

impl From<CheckFault> for GivenUp {
    ghost use Rattle.std.specs.Prelude.{◌≡◌};

    ghost from_gives = { λ fault given. given.fault ≡ fault };

    fn from(fault: CheckFault) -> GivenUp {
        GivenUp { fault, stop: None }
    }
}

impl From<AllocError> for GivenUp {
    ghost use Rattle.std.specs.Prelude.{◌≡◌};
    ghost use Rattle.bk_checker.specs.declared.report.CheckFault.TheVariants.{Memory};

    ghost from_gives = { λ _ given. given.fault ≡ Memory };

    fn from(_error: AllocError) -> GivenUp {
        GivenUp {
            fault: CheckFault::Memory,
            stop: None,
        }
    }
}

/// The verdict of a check, and what is reported to a person of it.
#[derive(Debug, Drop)]
pub struct Report {
    /// The verdict.
    pub verdict: Verdict,
    /// Where the run stopped, and why: at the node that acts or divides, or for which no turn was left.
    pub stop: Notice,
    /// What is suspicious in the source, in its order: ten things at most.
    pub remarks: Vec<Remark>,
}
