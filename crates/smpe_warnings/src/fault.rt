//! Why there are no warnings.
use std::alloc::{AllocError, AllocFailed};
use thiserror::Error;

/// Why there are no warnings: memory ran out, or the database did not answer. In either case nothing is said, because
/// what is missing would be taken for what there is not.
#[derive(Debug, Drop, Error)]
pub enum WarningFault {
    #[error("out of memory")]
    Memory,
    #[error("the database does not answer")]
    NoAnswer,
}

impl From<AllocError> for WarningFault {
    fn from(_error: AllocError) -> WarningFault {
        WarningFault::Memory
    }
}

impl<T: Drop> From<AllocFailed<T>> for WarningFault {
    fn from(_error: AllocFailed<T>) -> WarningFault {
        WarningFault::Memory
    }
}
