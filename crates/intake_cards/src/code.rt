//! How a file is laid out, and its code.
use crate::tables::{IBM037, IBM1047};

/// The length of a record.
pub(crate) const RECORD: usize = 80;

/// How a file is laid out.
#[derive(Clone, Copy, Debug, PartialEq, Eq)]
pub enum Layout {
    /// Lines, each with its end: a line feed, or a carriage return and a line feed; in EBCDIC X'15' or X'25' for the
    /// line feed.
    Text,
    /// Records of 80 bytes.
    Records,
}

/// The code of a file's characters.
#[derive(Clone, Copy, Debug, PartialEq, Eq)]
pub enum Code {
    Ascii,
    Ibm1047,
    Ibm037,
}

impl Code {
    /// The byte in ASCII. A character that ASCII lacks becomes its byte in ISO 8859-1. In an ASCII file it stays as it
    /// is.
    pub fn to_ascii(self, byte: u8) -> u8 {
        match self {
            Code::Ascii => byte,
            Code::Ibm1047 => IBM1047[byte as usize],
            Code::Ibm037 => IBM037[byte as usize],
        }
    }

    /// Whether the byte ends a line.
    pub(crate) fn ends_line(self, byte: u8) -> bool {
        match self {
            Code::Ascii => byte == b'\n',
            Code::Ibm1047 | Code::Ibm037 => byte == 0x15 || byte == 0x25,
        }
    }

    /// Whether the byte pads a file after its last line: NUL, and in ASCII also the end of file of older systems (^Z).
    pub(crate) fn is_padding(self, byte: u8) -> bool {
        match self {
            Code::Ascii => byte == 0 || byte == 0x1A,
            Code::Ibm1047 | Code::Ibm037 => byte == 0,
        }
    }
}
