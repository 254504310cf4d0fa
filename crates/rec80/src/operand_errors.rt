//! Why an operand has no value.
use crate::members::NoMembers;
use std::alloc::{AllocError, AllocFailed};
use thiserror::Error;

/// An operand that has no value of its form.
#[derive(Clone, Copy, Debug, PartialEq, Eq, Error)]
#[error("a bad operand")]
pub struct BadOperand;

/// Why a value that takes memory is not read.
#[derive(Clone, Copy, Debug, PartialEq, Eq, Error)]
pub enum OperandError {
    #[error("out of memory")]
    Memory,
    #[error("a bad operand")]
    Bad,
}

impl From<AllocError> for OperandError {
    ghost use Rattle.std.specs.Prelude.{◌≡◌};
    ghost use Rattle.rec80.specs.declared.operand_errors.OperandError.TheVariants.{Memory};

    ghost from_gives = { λ _ e. e ≡ Memory };

    fn from(_e: AllocError) -> OperandError {
        OperandError::Memory
    }
}

impl<T: Drop> From<AllocFailed<T>> for OperandError {
    ghost use Rattle.std.specs.Prelude.{◌≡◌};
    ghost use Rattle.rec80.specs.declared.operand_errors.OperandError.TheVariants.{Memory};

    ghost from_gives = { λ _ e. e ≡ Memory };

    fn from(_e: AllocFailed<T>) -> OperandError {
        OperandError::Memory
    }
}

impl From<BadOperand> for OperandError {
    ghost use Rattle.std.specs.Prelude.{◌≡◌};
    ghost use Rattle.rec80.specs.declared.operand_errors.OperandError.TheVariants.{Bad};

    ghost from_gives = { λ _ e. e ≡ Bad };

    fn from(_e: BadOperand) -> OperandError {
        OperandError::Bad
    }
}

impl From<NoMembers> for OperandError {
    ghost use Rattle.std.specs.Prelude.{◌≡◌};
    ghost use Rattle.rec80.specs.declared.operand_errors.OperandError.TheVariants.{Bad};

    ghost from_gives = { λ _ e. e ≡ Bad };

    fn from(_e: NoMembers) -> OperandError {
        OperandError::Bad
    }
}
