//! A file as records.

/// 80 bytes. Columns 1 to 72 hold text, columns 73 to 80 do not.
pub type Record = [u8; 80];

/// The records of a file.
#[derive(Clone, Copy, Debug)]
pub struct Records<'a> {
    pub all: &'a [Record],
}
