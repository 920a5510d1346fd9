//! Why segments are not loaded.
use std::alloc::AllocError;
use thiserror::Error;

/// Why segments are not loaded.
#[derive(Clone, Copy, Debug, PartialEq, Eq, Error)]
pub enum LoadFault {
    /// Less than 16 words would be left for the stack.
    #[error("store too small")]
    TooSmall,
    /// No segment sets global 1.
    #[error("no START")]
    NoStart,
    /// A growth was refused.
    #[error("no memory")]
    Memory,
}

impl From<AllocError> for LoadFault {
    ghost use Rattle.std.specs.Prelude.{◌≡◌};
    ghost use Rattle.bk_machine.specs.declared.load_fault.LoadFault.TheVariants.{Memory};

    ghost from_gives = { λ _ fault. fault ≡ Memory };

    fn from(_error: AllocError) -> LoadFault {
        LoadFault::Memory
    }
}
