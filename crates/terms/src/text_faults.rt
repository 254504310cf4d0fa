//! The faults of texts of elements.

use thiserror::Error;

/// What is wrong with a record of a text, in the order of the codes `Tx1` to `Tx6`.
#[derive(Clone, Copy, Debug, PartialEq, Eq)]
pub enum TextCode {
    /// The record has no number: no eight digits in columns 73 to 80.
    NoNumber,
    /// The number of a text does not rise.
    NumberOutOfOrder,
    /// An update does not begin with a CHANGE record.
    NoChangeRecord,
    /// The CHANGE record names another element.
    OtherElement,
    /// Another `./` record is not a good DELETE record.
    BadDelete,
    /// The number of an update does not rise.
    UpdateOutOfOrder,
}

/// The first bad record of a text, counted from 1.
#[derive(Clone, Copy, Debug, PartialEq, Eq, Error)]
#[error("{} in record {number} of the text", code_word(*code))]
pub struct TextFault {
    pub number: usize,
    pub code: TextCode,
}

// The code, as the profile names it.
fn code_word(code: TextCode) -> &'static str {
    match code {
        TextCode::NoNumber => "Tx1",
        TextCode::NumberOutOfOrder => "Tx2",
        TextCode::NoChangeRecord => "Tx3",
        TextCode::OtherElement => "Tx4",
        TextCode::BadDelete => "Tx5",
        TextCode::UpdateOutOfOrder => "Tx6",
    }
}
