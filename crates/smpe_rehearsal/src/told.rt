//! How the result of a job is told.
ghost use Rattle.std.specs.Prelude.{◌≡◌};
ghost use Rattle.smpe_rehearsal.specs.Told.{job_told};

use smpe::{Fault, JobError};

/// The status, or the error of the job as a fault of the program.
pub fn status_or_fault<'a>(status: Result<u8, JobError>) -> Result<u8, Fault<'a>>
    ensures { result ≡ job_told status }
{
    Ok(status?)
}
