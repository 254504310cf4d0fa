//! The faults of records, and those of the form of a statement or a command.
ghost use Rattle.std.specs.Prelude.{◌≡◌};
ghost use Rattle.terms.specs.Records.{rec_fault_record};
ghost use Rattle.rec80.specs.Faults.{rec_fault};

use thiserror::Error;

/// The first fault of a file's records. Records and columns count from 1.
#[derive(Clone, Copy, Debug, PartialEq, Eq, Error)]
pub enum RecError {
    /// The file ends inside this record.
    #[error("record {record} is cut short")]
    ShortRecord { record: usize },
    /// A byte outside 0x20 to 0x7E.
    #[error("record {record} has a bad byte in column {column}")]
    BadByte { record: usize, column: usize },
}

impl RecError {
    /// The bad record.
    pub fn record(&self) -> usize
        ensures { result ≡ rec_fault_record (rec_fault self.now) }
    {
        match *self {
            RecError::ShortRecord { record } => record,
            RecError::BadByte { record, .. } => record,
        }
    }
}

/// What is wrong with the form of a statement or a command.
#[derive(Clone, Copy, Debug, PartialEq, Eq, Error)]
pub enum StmtError {
    /// It ends without its period.
    #[error("St1: no period")]
    NoPeriod,
    #[error("St2: a comment is not closed")]
    OpenComment,
    /// A parenthesis lacks its partner, or there is a third level of them.
    #[error("St3: parentheses do not pair or nest too deep")]
    BadParens,
    /// More than blanks and comments follow the period in its record.
    #[error("St4: text after the period")]
    TextAfterPeriod,
}
