//! Faults: why a run writes nothing.

use crate::inputs::InputFiles;
use crate::options::WordsFault;
use crate::shown::{append_shown, shown_name};
use intake_cards::CardError;
use intake_read::WideError;
use std::alloc::{AllocError, AllocFailed, Global};
use std::io::ErrorKind;

/// Why a file cannot be read.
#[derive(Clone, Copy, Debug, PartialEq, Eq)]
pub enum Unread {
    /// It is a folder.
    Folder,
    /// It is a device, or a pipe that has a name.
    NoFile,
    /// It is larger than an input may be.
    TooLarge,
    /// It does not exist, or the system does not let it be read.
    Other,
}

/// Why a run ends without output.
#[derive(Debug, Drop)]
pub enum IntakeFault {
    Memory,
    Words(WordsFault),
    /// A file that cannot be read.
    CannotRead { name: String, why: Unread },
    /// The input is a file that would be written.
    OutputIsInput { input: String, output: String },
    /// The path of a file that would be replaced or removed, which no earlier run wrote.
    NotOwn(String),
    /// A line of the list of known SYSMODs is not in form. Lines are counted from 1.
    KnownLine { name: String, line: usize },
    /// The files cannot be written into the folder.
    CannotWrite,
    /// Standard output cannot be written to.
    CannotPrint,
    /// Why the file of that name cannot be read as cards.
    NoCards { name: String, error: CardError },
    /// Statements that cannot be carried, and that belong to no SYSMOD that could be left out. Each has its file and
    /// card.
    Statements(Vec<Vec<u8>>),
    /// No file has a statement.
    NoStatement,
    /// The bytes for this file are not read back as the items that they were made of.
    NotReadBack(&'static str),
}

impl From<AllocError> for IntakeFault {
    fn from(_error: AllocError) -> IntakeFault {
        IntakeFault::Memory
    }
}

impl<T: Drop> From<AllocFailed<T>> for IntakeFault {
    fn from(_error: AllocFailed<T>) -> IntakeFault {
        IntakeFault::Memory
    }
}

// Each fault is `Memory` instead if memory runs out while its text is made.
impl IntakeFault {
    /// The fault of a file that was not read, for an error of this kind.
    pub fn of_unread_file(alloc: Global, name: &str, kind: ErrorKind) -> IntakeFault {
        if kind == ErrorKind::OutOfMemory {
            return IntakeFault::Memory;
        }
        match shown_name(alloc, name) {
            Ok(name) => IntakeFault::CannotRead {
                name,
                why: unread_of_kind(kind),
            },
            Err(_) => IntakeFault::Memory,
        }
    }

    /// The fault of a file that would be replaced or removed, and that no earlier run wrote.
    pub fn of_file_not_own(alloc: Global, path: &str) -> IntakeFault {
        match shown_name(alloc, path) {
            Ok(path) => IntakeFault::NotOwn(path),
            Err(_) => IntakeFault::Memory,
        }
    }

    /// The fault of an input that is one of the files that would be written.
    pub fn of_overwritten_input(alloc: Global, input: &str, output: &str) -> IntakeFault {
        match (shown_name(alloc, input), shown_name(alloc, output)) {
            (Ok(input), Ok(output)) => IntakeFault::OutputIsInput { input, output },
            _ => IntakeFault::Memory,
        }
    }

    /// The fault of a line of a list of known SYSMODs.
    pub fn of_known_line(alloc: Global, name: &str, line: usize) -> IntakeFault {
        match shown_name(alloc, name) {
            Ok(name) => IntakeFault::KnownLine { name, line },
            Err(_) => IntakeFault::Memory,
        }
    }

    /// The fault of a file that cannot be read as cards.
    pub fn of_cards(alloc: Global, name: &str, error: CardError) -> IntakeFault {
        match shown_name(alloc, name) {
            Ok(name) if error != CardError::Memory => IntakeFault::NoCards { name, error },
            _ => IntakeFault::Memory,
        }
    }

    /// The fault of a statement that cannot be read, and that belongs to no SYSMOD that could be left out.
    pub fn of_statement(alloc: Global, inputs: &InputFiles, error: &WideError) -> IntakeFault {
        match statement_fault(alloc, inputs, error) {
            Ok(fault) => fault,
            Err(_) => IntakeFault::Memory,
        }
    }
}

// Why a file was not read, for an error of this kind. The host says so with these kinds.
fn unread_of_kind(kind: ErrorKind) -> Unread {
    match kind {
        ErrorKind::IsADirectory => Unread::Folder,
        ErrorKind::InvalidInput => Unread::NoFile,
        ErrorKind::FileTooLarge => Unread::TooLarge,
        _ => Unread::Other,
    }
}

// The fault of a statement that cannot be read: a line with its file and card, its word and name, and what the error
// says.
fn statement_fault(
    alloc: Global,
    inputs: &InputFiles,
    error: &WideError,
) -> Result<IntakeFault, AllocError> {
    let place = match error {
        WideError::Memory => return Ok(IntakeFault::Memory),
        WideError::NoStatement { place, .. } => *place,
        WideError::OpenComment { place } => *place,
        WideError::Statement { place, .. } => *place,
    };
    let mut line = inputs.place_text(alloc, place)?;
    if let WideError::Statement { word, name, .. } = error {
        append_statement(&mut line, word, name)?;
    }
    line.extend_from_slice(format!(in alloc; "{error}")?.as_bytes())?;
    let mut lines = Vec::new(alloc);
    lines.push(line)?;
    Ok(IntakeFault::Statements(lines))
}

// Appends the statement's word, and its name if it has one.
fn append_statement(line: &mut Vec<u8>, word: &[u8], name: &[u8]) -> Result<(), AllocError> {
    line.extend_from_slice(b"++")?;
    append_shown(line, word)?;
    if !name.is_empty() {
        line.extend_from_slice(b"(")?;
        append_shown(line, name)?;
        line.extend_from_slice(b")")?;
    }
    line.extend_from_slice(b": ")
}
