//! How an indented line begins.

/// The start of an indented line; the blank before its first word is the last of the indent.
pub(crate) const INDENT: &[u8] = b"   ";
