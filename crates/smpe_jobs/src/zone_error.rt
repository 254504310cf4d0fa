//! Why a zone is not defined.

use store::StoreError;
use thiserror::Error;

/// The refusals, in the order in which they are checked.
#[derive(Clone, Copy, Debug, PartialEq, Eq, Error)]
pub enum ZoneFault {
    /// The name exists already, or is GLOBAL.
    #[error("Zn1")]
    NameTaken,
    /// A target zone needs a distribution zone to which no other one is related, and a distribution zone has no related
    /// zone.
    #[error("Zn2")]
    WrongRelated,
    /// The SRELs differ.
    #[error("Zn3")]
    OtherSrel,
    /// There are 64 zones already.
    #[error("Zn4")]
    TooMany,
}

/// Why a zone was not defined.
#[derive(Clone, Copy, Debug, PartialEq, Eq, Error)]
pub enum ZoneError {
    /// The definition has this fault, and nothing changed.
    #[error("{0}")]
    Refused(ZoneFault),
    /// The store failed, but not because memory ran out.
    #[error("{0}")]
    Store(StoreError),
    /// Memory ran out.
    #[error("out of memory")]
    Memory,
}

impl From<StoreError> for ZoneError {
    ghost use Rattle.std.specs.Prelude.{◌≡◌};
    ghost use Rattle.smpe_jobs.specs.ZoneDefinitions.{zone_error};

    ghost from_gives = { λ error e. e ≡ zone_error error };

    fn from(error: StoreError) -> ZoneError {
        match error {
            StoreError::Memory => ZoneError::Memory,
            error => ZoneError::Store(error),
        }
    }
}
