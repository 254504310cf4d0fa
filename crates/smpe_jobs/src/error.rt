//! Why a job ends before its end.

use report::WriteFault;
use std::alloc::AllocError;
use store::StoreError;
use thiserror::Error;

/// Why a job did not come to its end.
#[derive(Clone, Copy, Debug, PartialEq, Eq, Error)]
pub enum JobError {
    #[error("out of memory")]
    Memory,
    /// A store fault: `Sf1`, `Sf3` if the tables stand for no state, or, for a store that was not opened, `Sf2`.
    #[error("{0}")]
    Store(StoreError),
    /// The report could not be written.
    #[error("write")]
    Write,
}

impl From<AllocError> for JobError {
    ghost use Rattle.std.specs.Prelude.{◌≡◌};
    ghost use Rattle.smpe_jobs.specs.declared.error.JobError.TheVariants.{Memory};

    ghost from_gives = { λ _ e. e ≡ Memory };

    fn from(_error: AllocError) -> JobError {
        JobError::Memory
    }
}

impl From<StoreError> for JobError {
    ghost use Rattle.std.specs.Prelude.{◌≡◌};
    ghost use Rattle.smpe_jobs.specs.Errors.{job_error};

    ghost from_gives = { λ s e. e ≡ job_error s };

    fn from(error: StoreError) -> JobError {
        match error {
            StoreError::Memory => JobError::Memory,
            fault => JobError::Store(fault),
        }
    }
}

impl From<WriteFault> for JobError {
    ghost use Rattle.std.specs.Prelude.{◌≡◌};
    ghost use Rattle.smpe_jobs.specs.declared.error.JobError.TheVariants.{Write};

    ghost from_gives = { λ _ e. e ≡ Write };

    fn from(_fault: WriteFault) -> JobError {
        JobError::Write
    }
}
