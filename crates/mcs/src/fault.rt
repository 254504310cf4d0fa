//! Why one statement has no value.

use rec80::OperandError;
use std::alloc::{AllocError, AllocFailed};
use terms::StatementCode;

/// Why a statement has no value.
#[derive(Clone, Copy, Debug)]
pub enum StatementError {
    Memory,
    Fault(StatementCode),
}

impl From<AllocError> for StatementError {
    ghost use Rattle.std.specs.Prelude.{◌≡◌};
    ghost use Rattle.mcs.specs.declared.fault.StatementError.TheVariants.{Memory};

    ghost from_gives = { λ _ e. e ≡ Memory };

    fn from(_e: AllocError) -> StatementError {
        StatementError::Memory
    }
}

impl<T: Drop> From<AllocFailed<T>> for StatementError {
    ghost use Rattle.std.specs.Prelude.{◌≡◌};
    ghost use Rattle.mcs.specs.declared.fault.StatementError.TheVariants.{Memory};

    ghost from_gives = { λ _ e. e ≡ Memory };

    fn from(_e: AllocFailed<T>) -> StatementError {
        StatementError::Memory
    }
}

impl From<OperandError> for StatementError {
    ghost use Rattle.std.specs.Prelude.{◌≡◌};
    ghost use Rattle.mcs.specs.Faults.{value_error};

    ghost from_gives = { λ operand e. e ≡ value_error operand };

    fn from(error: OperandError) -> StatementError {
        match error {
            OperandError::Memory => StatementError::Memory,
            OperandError::Bad => StatementError::Fault(StatementCode::BadStatementOperand),
        }
    }
}
