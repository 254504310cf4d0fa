//! The lines that report a fault.

use crate::fault::{IntakeFault, Unread};
use crate::options::WordsFault;
use crate::shown::shown_name;
use std::alloc::{AllocError, Global};

/// What each line begins with.
const PROGRAM: &[u8] = b"smpe-intake: ";

impl IntakeFault {
    /// The lines that report the fault: one, or one for each statement. A fault that `clap` found has none, since the
    /// host prints its text. `folder` is the folder of the files that are written.
    pub fn lines(&self, alloc: Global, folder: &str) -> Result<Vec<u8>, AllocError> {
        let mut lines = Vec::new(alloc);
        let text = match self {
            IntakeFault::Words(WordsFault::Clap(_)) => return Ok(lines),
            IntakeFault::Statements(texts) => {
                for text in texts {
                    append_line(&mut lines, text)?;
                }
                return Ok(lines);
            }
            IntakeFault::Memory | IntakeFault::Words(WordsFault::Memory) => format!(in alloc;
                "out of memory"
            )?,
            IntakeFault::Words(WordsFault::BadOperand(why)) => format!(in alloc;
                "bad operand: {why}"
            )?,
            IntakeFault::CannotRead { name, why } => {
                let why = unread_words(*why);
                format!(in alloc; "cannot read {name}{why}")?
            }
            IntakeFault::NotOwn(path) => format!(in alloc;
                "{path} is not of an earlier run, whose remarks would name it: give another folder with --out"
            )?,
            IntakeFault::OutputIsInput { input, output } => format!(in alloc;
                "{output} would replace the input {input}: give another folder with --out"
            )?,
            IntakeFault::KnownLine { name, line } => format!(in alloc;
                "{name} line {line}: a line has an id, a type and source ids"
            )?,
            IntakeFault::CannotWrite => {
                let folder = shown_name(alloc, folder)?;
                format!(in alloc; "cannot write into {folder}")?
            }
            IntakeFault::CannotPrint => format!(in alloc; "write")?,
            IntakeFault::NoCards { name, error } => format!(in alloc; "{name}: {error}")?,
            IntakeFault::NoStatement => format!(in alloc; "no statement found")?,
            IntakeFault::NotReadBack(name) => format!(in alloc;
                "what was made for {name} is not read as it was meant; nothing is written"
            )?,
        };
        append_line(&mut lines, text.as_bytes())?;
        Ok(lines)
    }
}

/// The line that says that the files in the folder are those of an earlier run.
pub fn earlier_files_line(alloc: Global, folder: &str) -> Result<Vec<u8>, AllocError> {
    let folder = shown_name(alloc, folder)?;
    let text = format!(in alloc; "the files in {folder} are those of an earlier run")?;
    let mut lines = Vec::new(alloc);
    append_line(&mut lines, text.as_bytes())?;
    Ok(lines)
}

// Why a file cannot be read, after its name.
fn unread_words(why: Unread) -> &'static str {
    match why {
        Unread::Folder => ": it is a folder",
        Unread::NoFile => ": it is a device or a named pipe, and no file",
        Unread::TooLarge => ": it has more than 536,870,912 bytes",
        Unread::Other => "",
    }
}

/// Appends a line of this text.
pub(crate) fn append_line(lines: &mut Vec<u8>, text: &[u8]) -> Result<(), AllocError> {
    lines.extend_from_slice(PROGRAM)?;
    lines.extend_from_slice(text)?;
    lines.push(b'\n')?;
    Ok(())
}
