//! The limits of a SYSMOD and of its statements.

/// The most `++VER`s of a SYSMOD.
pub const MOST_VERS: usize = 8;

/// The most `++IF`s of a `++VER`.
pub const MOST_IFS: usize = 100;

/// The most elements that a SYSMOD may change.
pub const MOST_ELEMENTS: usize = 999;

/// The most ids in a list of an operand.
pub const MOST_IDS: usize = 1_000;

/// The most records in the text of an element statement.
pub const MOST_RECORDS: usize = 99_999;

/// The most characters in the comment of a hold.
pub const LONGEST_COMMENT: usize = 200;
