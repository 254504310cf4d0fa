//! What is at the name of a database.
use std::alloc::AllocError;
use std::fs::{File, OpenOptions};
use std::io::{ErrorKind, Read};
use std::os::unix::fs::MetadataExt;
use std::{fs, io};

/// What is said of a database that has a rollback journal beside it.
pub(crate) const LEFT_JOURNAL: &str =
    "a killed sqlite3 left a journal beside it; read it once with sqlite3";

/// What is said of a name that is of no plain file.
pub(crate) const NO_PLAIN_FILE: &str = "it is no plain file";

// The first bytes of each database file of SQLite.
const HEAD: &[u8] = b"SQLite format 3\0";

// The length of `HEAD`.
const HEAD_BYTES: usize = 16;

// The ends of the names of the files that a database has beside it.
const ENDS_BESIDE_DATABASE: [&str; 3] = ["-wal", "-shm", "-journal"];

/// Whether a database that exists would take a file of this name for its own log or journal.
pub(crate) fn belongs_to_database(rt: &HostRuntime, name: &str) -> bool {
    for end in ENDS_BESIDE_DATABASE {
        if let Some(database) = name.strip_suffix(end)
            && !is_missing(rt, database)
        {
            return true;
        }
    }
    false
}

/// Whether no file has this name. The answer is false if the system does not tell.
pub(crate) fn is_missing(rt: &HostRuntime, name: &str) -> bool {
    matches!(fs::exists(rt, name), Ok(false))
}

/// Whether a file is not empty and does not begin as those of SQLite do. The answer is false if the file cannot be
/// read, or if a log is next to it, which may make it whole.
pub(crate) fn is_surely_no_database(rt: &HostRuntime, name: &str) -> bool {
    match (has_other_head(rt, name), has_log(rt, name)) {
        (Ok(has_other_head), Ok(has_log)) => has_other_head && !has_log,
        _ => false,
    }
}

// Whether the file is not empty and begins with other bytes than a file of SQLite. The answer is false if it is not a
// plain file.
fn has_other_head(rt: &HostRuntime, name: &str) -> io::Result<bool> {
    if !fs::metadata(rt, name)?.is_file() {
        return Ok(false);
    }
    let mut file = File::open(rt, name)?;
    let mut head = [0u8; HEAD_BYTES];
    let count = file.read(head.as_mut_slice())?;
    Ok(!HEAD.starts_with(head.get(..count).unwrap_or(b"")))
}

// Whether the database has a log with bytes.
fn has_log(rt: &HostRuntime, name: &str) -> io::Result<bool> {
    let log = format!(in rt.alloc(); "{name}-wal")?;
    has_bytes(rt, log.as_str())
}

/// Whether a file of this name exists and has bytes.
pub(crate) fn has_bytes(rt: &HostRuntime, name: &str) -> io::Result<bool> {
    match fs::metadata(rt, name) {
        Ok(metadata) => Ok(metadata.len() > 0),
        Err(error) if error.kind() == ErrorKind::NotFound => Ok(false),
        Err(error) => Err(error),
    }
}

/// Why the library cannot open a database of this name, as far as its file shows that. An error means that memory runs
/// out.
pub(crate) fn place_fault(rt: &HostRuntime, name: &str) -> Result<&'static str, AllocError> {
    if name.is_empty() || name == ":memory:" || name.starts_with("file:") {
        return Ok("this is no name of a file");
    }
    Ok(match fs::metadata(rt, name) {
        Err(error) if error.kind() == ErrorKind::OutOfMemory => return Err(AllocError),
        Err(error) if error.kind() == ErrorKind::NotFound => {
            "its folder is not there, or nothing can be made in it"
        }
        Err(_) => "it is in a folder that is closed to you, or a part of its path is no folder",
        Ok(metadata) if metadata.is_dir() => "it is a folder",
        Ok(metadata) if !metadata.is_file() => NO_PLAIN_FILE,
        Ok(metadata) if metadata.nlink() > 1 => "it has a second name, by a hard link",
        Ok(_) => file_fault(rt, name)?,
    })
}

// Why the library cannot open this plain file.
fn file_fault(rt: &HostRuntime, name: &str) -> Result<&'static str, AllocError> {
    let journal = format!(in rt.alloc(); "{name}-journal")?;
    Ok(
        match OpenOptions::new().read(true).write(true).open(rt, name) {
            Err(error) if error.kind() == ErrorKind::OutOfMemory => return Err(AllocError),
            Err(error) if error.kind() == ErrorKind::PermissionDenied => {
                "you have no permission to write to it"
            }
            Err(error) if error.kind() == ErrorKind::ReadOnlyFilesystem => {
                "it is on a file system that is read-only"
            }
            Err(_) => "it cannot be written",
            Ok(_) if has_bytes(rt, journal.as_str()).unwrap_or(false) => LEFT_JOURNAL,
            Ok(_) => "nothing can be written in its folder, or its -wal belongs to someone else",
        },
    )
}
