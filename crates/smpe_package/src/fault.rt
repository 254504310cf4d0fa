//! Why there is no package.

use intake_words::IntakeFault;
use std::alloc::{AllocError, AllocFailed, Global};
use thiserror::Error;

/// What each line of a fault begins with.
const PROGRAM: &[u8] = b"smpe: ";

/// What `smpe-intake` begins its lines with.
const INTAKE: &[u8] = b"smpe-intake: ";

/// Why nothing is made of a shop's files.
#[derive(Debug, Drop, Error)]
pub enum PackageFault {
    #[error("out of memory")]
    Memory,
    /// A file has no statements that can be carried. These are the lines that say why, each with its file and card.
    #[error("the files cannot be carried")]
    NotCarried(Vec<u8>),
}

impl From<AllocError> for PackageFault {
    fn from(_error: AllocError) -> PackageFault {
        PackageFault::Memory
    }
}

impl<T: Drop> From<AllocFailed<T>> for PackageFault {
    fn from(_error: AllocFailed<T>) -> PackageFault {
        PackageFault::Memory
    }
}

impl PackageFault {
    // The fault of files that cannot be carried.
    pub(crate) fn of_intake(alloc: Global, fault: &IntakeFault) -> PackageFault {
        if matches!(fault, IntakeFault::Memory) {
            return PackageFault::Memory;
        }
        match fault_lines(alloc, fault) {
            Ok(lines) => PackageFault::NotCarried(lines),
            Err(_) => PackageFault::Memory,
        }
    }
}

// The lines of the fault, which begin with the name of this program.
fn fault_lines(alloc: Global, fault: &IntakeFault) -> Result<Vec<u8>, AllocError> {
    let told = fault.lines(alloc, "")?;
    let mut lines = Vec::new(alloc);
    for line in told.as_slice().split(|byte| *byte == b'\n') {
        if !line.is_empty() {
            lines.extend_from_slice(PROGRAM)?;
            lines.extend_from_slice(line.strip_prefix(INTAKE).unwrap_or(line))?;
            lines.push(b'\n')?;
        }
    }
    Ok(lines)
}
