//! Files of a shop, which come as they are.
use std::io::{ErrorKind, Read};
use std::os::unix::fs::FileTypeExt;
use std::{fs, io};

/// The size of the largest file, in bytes.
const LARGEST_INPUT: u64 = 536_870_912;

// Checks that reading the file ends: it is a file that is not too large, or a pipe that another program has open, as
// `<(..)` gives one. Such a pipe has no path, and opening it does not wait. Returns `IsADirectory` for a folder,
// `InvalidInput` for a device or a named pipe, and `FileTooLarge`.
fn check_input(rt: &HostRuntime, name: &str) -> io::Result<()> {
    let metadata = fs::metadata(rt, name)?;
    if metadata.is_file() {
        if metadata.len() > LARGEST_INPUT {
            return Err(io::Error::from(ErrorKind::FileTooLarge));
        }
        return Ok(());
    }
    if metadata.is_dir() {
        return Err(io::Error::from(ErrorKind::IsADirectory));
    }
    if metadata.file_type().is_fifo() && fs::canonicalize(rt, name).is_err() {
        return Ok(());
    }
    Err(io::Error::from(ErrorKind::InvalidInput))
}

/// The bytes of the file. A device, a named pipe and what is too large are refused, as `smpe-intake` refuses them.
pub(crate) fn read_input(rt: &HostRuntime, name: &str) -> io::Result<Vec<u8>> {
    check_input(rt, name)?;
    let mut bytes = Vec::new(rt.alloc());
    let mut file = fs::open(rt, name)?.take(LARGEST_INPUT.saturating_add(1));
    file.read_to_end(&mut bytes)?;
    if bytes.len() as u64 > LARGEST_INPUT {
        return Err(io::Error::from(ErrorKind::FileTooLarge));
    }
    Ok(bytes)
}
