//! Why rows are not read.

use sqlite::ErrorCode;
use std::alloc::AllocError;
use thiserror::Error;

/// Why rows were not read.
#[derive(Clone, Copy, Debug, PartialEq, Eq, Error)]
pub enum ReadError {
    #[error("out of memory")]
    Memory,
    #[error("the database failed")]
    Fault,
    /// A row stands for nothing.
    #[error("a row stands for nothing")]
    BadRow,
}

impl From<AllocError> for ReadError {
    ghost use Rattle.std.specs.Prelude.{◌≡◌};
    ghost use Rattle.store_rows.specs.declared.error.ReadError.TheVariants.{Memory};

    ghost from_gives = { λ _ e. e ≡ Memory };

    fn from(_error: AllocError) -> ReadError {
        ReadError::Memory
    }
}

impl From<sqlite::Error> for ReadError {
    ghost use Rattle.std.specs.Prelude.{◌≡◌};
    ghost use Rattle.store_rows.specs.Told.{read_error};

    ghost from_gives = { λ error e. e ≡ read_error error };

    fn from(error: sqlite::Error) -> ReadError {
        match error {
            sqlite::Error::SqliteFailure(ErrorCode::OutOfMemory) => ReadError::Memory,
            _ => ReadError::Fault,
        }
    }
}
