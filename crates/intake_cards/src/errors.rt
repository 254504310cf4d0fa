//! Why a file cannot be read as cards.
use std::alloc::{AllocError, AllocFailed};
use thiserror::Error;

/// Why a file cannot be read as cards: memory ran out, or the first fault of the file.
#[derive(Clone, Copy, Debug, PartialEq, Eq, Error)]
pub enum CardError {
    #[error("out of memory")]
    Memory,
    #[error("it is compressed by gzip: unpack it first")]
    Compressed,
    #[error("it is in UTF-16: convert it to UTF-8 first, as iconv -f UTF-16 -t UTF-8 does")]
    Utf16,
    /// Each record has its length before it.
    #[error("its records have their lengths before them (RDW): transfer it as records of 80 bytes")]
    RecordLengths,
    #[error("its lines end with carriage returns without line feeds: put line feeds there")]
    CarriageReturns,
    /// Records were asked for, and so many bytes follow the last whole one.
    #[error("--records asks for records of 80 bytes, and {bytes} bytes are left over: leave the option out")]
    ShortRecord { bytes: usize },
    #[error("it has more than 4,294,967,295 bytes: cut it into several files")]
    TooLong,
}

impl From<AllocError> for CardError {
    ghost use Rattle.std.specs.Prelude.{◌≡◌};
    ghost use Rattle.intake_cards.specs.declared.errors.CardError.TheVariants.{Memory};

    ghost from_gives = { λ _ e. e ≡ Memory };

    fn from(_e: AllocError) -> CardError {
        CardError::Memory
    }
}

impl<T: Drop> From<AllocFailed<T>> for CardError {
    ghost use Rattle.std.specs.Prelude.{◌≡◌};
    ghost use Rattle.intake_cards.specs.declared.errors.CardError.TheVariants.{Memory};

    ghost from_gives = { λ _ e. e ≡ Memory };

    fn from(_e: AllocFailed<T>) -> CardError {
        CardError::Memory
    }
}
