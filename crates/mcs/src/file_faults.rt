//! The statements of a file, and where a bad one is.
ghost use Rattle.std.specs.Prelude.{◌≡◌, IfOk, IfErr};
ghost use Rattle.terms.specs.Records.{HasRecords};
ghost use Rattle.mcs.specs.FileFaults.{error_at, IsFileError};

use crate::error::McsError;
use crate::fault::StatementError;
use rec80::{Groups, records};
use terms::StatementCode;

/// The error of a file in which the statement that begins at this record has this error.
pub fn error_at(number: usize, error: StatementError) -> McsError
    ensures { result ≡ error_at number error }
{
    match error {
        StatementError::Memory => McsError::Memory,
        StatementError::Fault(code) => McsError::Fault { number, code },
    }
}

/// Splits a file into its statements. A `Fault` here precedes all faults of the statements: `BadStatementForm` at the
/// first bad record, otherwise `WrongPlace` at record 1 if no statement begins there. It never returns `Memory`.
pub fn split_statements(bytes: &[u8]) -> Result<Groups<'_>, McsError>
    ensures ok { IfOk result (λ groups. (groups.number ≡ 1) × HasRecords bytes.now groups.rest.now) }
    ensures fault { IfErr result (IsFileError bytes.now) }
{
    let file = match records(bytes) {
        Ok(file) => file,
        Err(error) => {
            return Err(McsError::Fault {
                number: error.record(),
                code: StatementCode::BadStatementForm,
            });
        }
    };
    let Ok(groups) = file.groups() else {
        return Err(McsError::Fault {
            number: 1,
            code: StatementCode::WrongPlace,
        });
    };
    Ok(groups)
}
