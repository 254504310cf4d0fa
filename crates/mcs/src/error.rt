//! Why a file of statements is not read.
use fields::spelling::{as_str, statement_code_text};
use std::alloc::{AllocError, AllocFailed};
use terms::StatementCode;
use thiserror::Error;

/// Why a file is not read: memory ran out, or its first bad statement begins in this record and has this fault.
#[derive(Clone, Copy, Debug, Error)]
pub enum McsError {
    #[error("out of memory")]
    Memory,
    #[error("{} in record {number}", as_str(statement_code_text(*code)))]
    Fault { number: usize, code: StatementCode },
}

impl From<AllocError> for McsError {
    ghost use Rattle.std.specs.Prelude.{◌≡◌};
    ghost use Rattle.mcs.specs.declared.error.McsError.TheVariants.{Memory};

    ghost from_gives = { λ _ e. e ≡ Memory };

    fn from(_e: AllocError) -> McsError {
        McsError::Memory
    }
}

impl<T: Drop> From<AllocFailed<T>> for McsError {
    ghost use Rattle.std.specs.Prelude.{◌≡◌};
    ghost use Rattle.mcs.specs.declared.error.McsError.TheVariants.{Memory};

    ghost from_gives = { λ _ e. e ≡ Memory };

    fn from(_e: AllocFailed<T>) -> McsError {
        McsError::Memory
    }
}
