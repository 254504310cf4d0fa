//! The place of something in a file.

/// A card of one of the files that are read: the file by its place among them, from 0, and the line or record in it,
/// from 1. A file of more than 4,294,967,295 bytes is not read, so each card has such a number.
#[derive(Clone, Copy, Debug, PartialEq, Eq, PartialOrd, Ord)]
pub struct CardPlace {
    pub file: u32,
    pub card: u32,
}
