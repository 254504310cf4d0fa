//! What is said on standard error when the program ends, besides the line of its fault.
use crate::copy::{may_have_meta_table, read_for_copy};
use crate::host::{Closing, Database, DatabaseState, ProgramHost};
use crate::place::{is_surely_no_database, place_fault};
use jiff::Timestamp;
use jiff::tz::Offset;
use smpe_hints::{no_command_hint, operand_hint};
use smpe_warnings::{ReportWatch, careful_zone_hint};
use sqlite::{Error, ErrorCode};
use std::alloc::AllocError;
use std::time::Duration;

// The length of a day in seconds.
const DAY: u64 = 86_400;

const FULL: &str = "the disk is full";

const FAILED: &str = "a read or write of the database failed";

const ALTERED_ROW: &str = "a row of the database is not as smpe wrote it";

const NO_META_TABLE: &str =
    "the file has no table meta: another program made it, or nothing could be written to it";

// What is said of a database whose tables the library does not read.
const UNSOUND: &str =
    "the database is damaged, has rows that break its own keys, or has tables that smpe cannot read";

/// What the job should be warned of, as the database that it has left shows; nothing if the job was broken off, if the
/// database does not answer, or if memory runs out.
pub(crate) fn job_warnings(
    rt: &HostRuntime,
    words: &[Vec<u8>],
    host: &mut ProgramHost<'_>,
    report: &ReportWatch,
    faults: &ReportWatch,
) -> Vec<String> {
    if !faults.first_line().is_empty() || report.has_lost_line() || faults.has_lost_line() {
        return Vec::new(rt.alloc());
    }
    let tomorrow = tomorrow(rt);
    let files = host.files.as_slice();
    let warnings = report.warnings(words, files, tomorrow.as_deref(), &mut host.left);
    warnings.unwrap_or(Vec::new(rt.alloc()))
}

// The day after this one, as YYYY-MM-DD, by a clock at UTC: everywhere it is this day, the one before or the one after.
// `None` if there is no clock.
fn tomorrow(rt: &HostRuntime) -> Option<String> {
    let now = Timestamp::now(rt).ok()?;
    let later = now.checked_add(Duration::from_secs(DAY)).ok()?;
    let date = Offset::UTC.to_datetime(later).date();
    format!(in rt.alloc(); "{date}").ok()
}

/// Writes lines that explain the report and the fault to standard error, and these warnings. It writes none if memory
/// runs out.
pub(crate) fn write_hints(
    rt: &HostRuntime,
    words: &[Vec<u8>],
    host: &ProgramHost<'_>,
    report: &ReportWatch,
    faults: &ReportWatch,
    warnings: Vec<String>,
) {
    if let Ok(lines) = hint_lines(rt, words, host, report, faults) {
        for line in lines {
            let _ = eprintln!(rt; "smpe: {line}");
        }
        for line in warnings {
            let _ = eprintln!(rt; "smpe: {line}");
        }
    }
}

// The lines about the report, the fault, a file that was not read or not created, and a database that was made. Here
// and below, an error means that memory runs out.
fn hint_lines(
    rt: &HostRuntime,
    words: &[Vec<u8>],
    host: &ProgramHost<'_>,
    report: &ReportWatch,
    faults: &ReportWatch,
) -> Result<Vec<String>, AllocError> {
    if report.has_lost_line() || faults.has_lost_line() {
        return Err(AllocError);
    }
    let mut lines = report.hints(words, host.files.as_slice(), &host.related)?;
    let hint = match faults.first_line() {
        // (the job has read its files, and printed nothing)
        "" if report.first_line().is_empty() && !host.files.is_empty() => {
            no_command_hint(rt.alloc(), words)?
        }
        fault => fault_hint(rt, words, host, fault)?,
    };
    push_if_any(hint, &mut lines)?;
    if let Some(fault) = &host.file_fault {
        lines.push(String::from_str(rt.alloc(), fault.as_str())?)?;
    }
    push_if_any(new_database_hint(rt, &host.database)?, &mut lines)?;
    Ok(lines)
}

// The line that explains the line of a fault, or `None` if there is nothing to add.
fn fault_hint(
    rt: &HostRuntime,
    words: &[Vec<u8>],
    host: &ProgramHost<'_>,
    fault: &str,
) -> Result<Option<String>, AllocError> {
    if let Some(zone) = fault.strip_prefix("smpe: no zone ") {
        return careful_zone_hint(rt.alloc(), words, host.files.as_slice(), zone);
    }
    match fault {
        "smpe: bad operand" => operand_hint(rt.alloc(), words),
        "smpe: store Sf1" => database_hint(rt, &host.database),
        "smpe: no command" => no_command_hint(rt.alloc(), words),
        _ => Ok(None),
    }
}

// Appends the line, if there is one.
fn push_if_any(line: Option<String>, lines: &mut Vec<String>) -> Result<(), AllocError> {
    if let Some(line) = line {
        lines.push(line)?;
    }
    Ok(())
}

// The line that says that the program has created the database, as it does for a misspelled name, or `None` if it has
// not.
fn new_database_hint(
    rt: &HostRuntime,
    database: &Option<Database>,
) -> Result<Option<String>, AllocError> {
    let Some(database) = database else {
        return Ok(None);
    };
    let name = database.name.as_str();
    match database.state {
        DatabaseState::Opened { is_new: true, .. } => Ok(Some(format!(in rt.alloc();
            "there was no database {name}, and it was made"
        )?)),
        _ => Ok(None),
    }
}

// Why the database failed, as far as the library or the file shows that, or `None` if the words ask for no database.
fn database_hint(
    rt: &HostRuntime,
    database: &Option<Database>,
) -> Result<Option<String>, AllocError> {
    let Some(database) = database else {
        return Ok(None);
    };
    let name = database.name.as_str();
    let text = match database.state {
        DatabaseState::Missing => {
            let hint = format!(in rt.alloc(); "there is no database {name}; smpe zone makes one")?;
            return Ok(Some(hint));
        }
        DatabaseState::Refused(Error::SqliteFailure(ErrorCode::CannotOpen)) => {
            let fault = place_fault(rt, name)?;
            let hint = format!(in rt.alloc(); "the database can't be opened: {name}: {fault}")?;
            return Ok(Some(hint));
        }
        DatabaseState::Refused(Error::SqliteFailure(ErrorCode::NotADatabase))
            if is_surely_no_database(rt, name) => "the file is no database",
        DatabaseState::Refused(error) => open_error_text(error),
        DatabaseState::Copied => match copy_error_text(rt, name) {
            Some(text) => text,
            None => return Ok(None),
        },
        DatabaseState::Opened { closing, .. } => match closing {
            Some(closing) => failure_text(&closing),
            None => ALTERED_ROW,
        },
    };
    Ok(Some(String::from_str(rt.alloc(), text)?))
}

// Why the library refused to open the database.
fn open_error_text(error: Error) -> &'static str {
    match error {
        Error::SqliteFailure(ErrorCode::DatabaseBusy) => "another program has the database",
        Error::SqliteFailure(ErrorCode::NotADatabase) => UNSOUND,
        Error::SqliteFailure(ErrorCode::DatabaseCorrupt) => "the database breaks its own rules",
        Error::SqliteFailure(ErrorCode::DiskFull) => FULL,
        _ => FAILED,
    }
}

// Why a database that was copied failed, as far as its files, which are read once more, show the reason. `None` if they
// cannot be read any more.
fn copy_error_text(rt: &HostRuntime, name: &str) -> Option<&'static str> {
    match read_for_copy(rt, name, 0) {
        Ok(bytes) if !may_have_meta_table(&bytes) => Some(NO_META_TABLE),
        Ok(_) => Some(UNSOUND),
        Err(_) => None,
    }
}

// Why a database that was opened failed, judged by what was met when it was closed.
fn failure_text(closing: &Closing) -> &'static str {
    if closing.tally.refused > 0 {
        return FULL;
    }
    if closing.tally.caught > 0 {
        return "the database has other bytes than were written to it";
    }
    match (closing.meta, closing.log) {
        (Some(Error::SqlInputError(_)), None) => NO_META_TABLE,
        (None, None) => ALTERED_ROW,
        (_, Some(Error::SqliteFailure(ErrorCode::DiskFull))) => FULL,
        _ => FAILED,
    }
}
