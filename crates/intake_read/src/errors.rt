//! Why a file of statements is not read.
use crate::items::OtherReason;
use intake_cards::CardPlace;
use std::alloc::{AllocError, AllocFailed};
use thiserror::Error;

/// Why a file of statements is not read: memory ran out, or it has a fault that leaving out a SYSMOD does not mend. The
/// first such fault counts.
#[derive(Debug, Drop, Error)]
pub enum WideError {
    #[error("out of memory")]
    Memory,
    /// More than blanks and comments precedes the first statement.
    #[error("{hint}")]
    NoStatement {
        place: CardPlace,
        /// What to do about it.
        hint: &'static str,
    },
    /// A comment is open at the end of the file.
    #[error("the comment is not closed")]
    OpenComment {
        place: CardPlace,
    },
    /// The statement makes no item, for this reason, and there is no SYSMOD before it that could be left out.
    #[error("{reason}")]
    Statement {
        place: CardPlace,
        /// Its word without `++`, and the text in parentheses after the word, both in upper case.
        word: Vec<u8>,
        name: Vec<u8>,
        reason: OtherReason,
    },
}

impl From<AllocError> for WideError {
    ghost use Rattle.std.specs.Prelude.{◌≡◌};
    ghost use Rattle.intake_read.specs.declared.errors.WideError.TheVariants.{Memory};

    ghost from_gives = { λ _ e. e ≡ Memory };

    fn from(_e: AllocError) -> WideError {
        WideError::Memory
    }
}

impl<T: Drop> From<AllocFailed<T>> for WideError {
    ghost use Rattle.std.specs.Prelude.{◌≡◌};
    ghost use Rattle.intake_read.specs.declared.errors.WideError.TheVariants.{Memory};

    ghost from_gives = { λ _ e. e ≡ Memory };

    fn from(_e: AllocFailed<T>) -> WideError {
        WideError::Memory
    }
}
