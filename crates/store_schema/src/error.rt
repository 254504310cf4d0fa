//! Why a call of the store fails.

use sqlite::ErrorCode;
use std::alloc::AllocError;
use thiserror::Error;

/// The display is the code that the program prints.
#[derive(Clone, Copy, Debug, PartialEq, Eq, Error)]
pub enum StoreError {
    /// The database failed.
    #[error("Sf1")]
    Fault,
    /// The tables are those of another version.
    #[error("Sf2")]
    OtherSchema,
    /// The rows stand for no state.
    #[error("Sf3")]
    NoState,
    /// Memory ran out.
    #[error("out of memory")]
    Memory,
}

impl From<sqlite::Error> for StoreError {
    ghost use Rattle.std.specs.Prelude.{◌≡◌};
    ghost use Rattle.store_schema.specs.Known.{told};

    ghost from_gives = { λ error e. e ≡ told error };

    fn from(error: sqlite::Error) -> StoreError {
        match error {
            sqlite::Error::SqliteFailure(ErrorCode::OutOfMemory) => StoreError::Memory,
            _ => StoreError::Fault,
        }
    }
}

impl From<AllocError> for StoreError {
    ghost use Rattle.std.specs.Prelude.{◌≡◌};
    ghost use Rattle.store_schema.specs.declared.error.StoreError.TheVariants.{Memory};

    ghost from_gives = { λ _ e. e ≡ Memory };

    fn from(_error: AllocError) -> StoreError {
        StoreError::Memory
    }
}
