//! Why an update is not read.
use std::alloc::{AllocError, AllocFailed};
use terms::TextFault;
use thiserror::Error;

/// Why an update is not read: memory ran out, or its first bad record has this fault.
#[derive(Clone, Copy, Debug, PartialEq, Eq, Error)]
pub enum TextError {
    #[error("out of memory")]
    Memory,
    #[error("{0}")]
    Fault(TextFault),
}

impl From<AllocError> for TextError {
    ghost use Rattle.std.specs.Prelude.{◌≡◌};
    ghost use Rattle.text80.specs.declared.error.TextError.TheVariants.{Memory};

    ghost from_gives = { λ _ e. e ≡ Memory };

    fn from(_e: AllocError) -> TextError {
        TextError::Memory
    }
}

impl<T: Drop> From<AllocFailed<T>> for TextError {
    ghost use Rattle.std.specs.Prelude.{◌≡◌};
    ghost use Rattle.text80.specs.declared.error.TextError.TheVariants.{Memory};

    ghost from_gives = { λ _ e. e ≡ Memory };

    fn from(_e: AllocFailed<T>) -> TextError {
        TextError::Memory
    }
}

impl From<TextFault> for TextError {
    ghost use Rattle.std.specs.Prelude.{◌≡◌};
    ghost use Rattle.text80.specs.declared.error.TextError.TheVariants.{Fault};

    ghost from_gives = { λ fault e. e ≡ Fault fault };

    fn from(fault: TextFault) -> TextError {
        TextError::Fault(fault)
    }
}
