//! Why a system is not made, or does not grow.
use std::alloc::{AllocError, AllocFailed};
use thiserror::Error;

/// Why a system is not made, or takes no further candidate.
#[derive(Clone, Copy, Debug, PartialEq, Eq, Error)]
pub enum SystemError {
    #[error("out of memory")]
    Memory,
    #[error("there are more than {} candidates", u32::MAX)]
    TooMany,
    #[error("a need is about no candidate, or its list does not rise")]
    BadNeed,
}

impl From<AllocError> for SystemError {
    ghost use Rattle.std.specs.Prelude.{◌≡◌};
    ghost use Rattle.solve.specs.declared.error.SystemError.TheVariants.{Memory};

    ghost from_gives = { λ _ e. e ≡ Memory };

    fn from(_e: AllocError) -> SystemError {
        SystemError::Memory
    }
}

impl<T: Drop> From<AllocFailed<T>> for SystemError {
    ghost use Rattle.std.specs.Prelude.{◌≡◌};
    ghost use Rattle.solve.specs.declared.error.SystemError.TheVariants.{Memory};

    ghost from_gives = { λ _ e. e ≡ Memory };

    fn from(_e: AllocFailed<T>) -> SystemError {
        SystemError::Memory
    }
}

/// A caller whose own systems have good needs may treat "too many" as a lack of memory.
impl From<SystemError> for AllocError {
    fn from(_e: SystemError) -> AllocError {
        AllocError
    }
}
