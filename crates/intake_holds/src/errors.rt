//! Why a hold or a release cannot be carried.

use std::alloc::{AllocError, AllocFailed};
use thiserror::Error;

/// Why a hold or a release cannot be carried.
#[derive(Debug, Drop, Error)]
pub enum HoldError {
    #[error("out of memory")]
    Memory,
    /// Its id, kind, reason or FMID cannot be read. The remark on it comes from `OutsideHolds::remark_bad_statements`.
    #[error("a hold can't be carried")]
    BadHold,
}

impl From<AllocError> for HoldError {
    fn from(_e: AllocError) -> HoldError {
        HoldError::Memory
    }
}

impl<T: Drop> From<AllocFailed<T>> for HoldError {
    fn from(_e: AllocFailed<T>) -> HoldError {
        HoldError::Memory
    }
}
