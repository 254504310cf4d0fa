//! A file that this run creates.
use std::fs::{File, OpenOptions};
use std::io::Write;
use std::{fs, io};

/// Creates the file, writes the bytes into it, and has the system write them to the disk. The file is created
/// exclusively: no link is followed, and nothing that exists is opened. Returns `AlreadyExists` if the name is taken.
/// If the bytes cannot be written, no file is left.
pub(crate) fn write_new_file(rt: &HostRuntime, name: &str, bytes: &[u8]) -> io::Result<()> {
    let file = OpenOptions::new()
        .write(true)
        .create_new(true)
        .open(rt, name)?;
    let written = write_synced(file, bytes);
    if written.is_err() {
        let _ = fs::remove_file(rt, name);
    }
    written
}

// Writes the bytes into the file, and has the system write them to the disk.
fn write_synced(mut file: File, bytes: &[u8]) -> io::Result<()> {
    file.write_all(bytes)?;
    file.sync_all()
}
