//! The cards of a file: what their bytes are, and their text.
use crate::words::{CardWords, shown_char};
use std::alloc::{AllocError, Global};

/// How many bytes a record has.
pub(crate) const RECORD: usize = 80;

/// The bytes of the record with this number, counted from 1: fewer than 80 if the file ends within the record, and none
/// if the file ends before.
pub fn record_bytes(file: &[u8], record: usize) -> &[u8] {
    file.chunks(RECORD)
        .nth(record.saturating_sub(1))
        .unwrap_or(b"")
}

/// The number of eight digits in columns 73 to 80 of the card; `None` if it has none.
pub(crate) fn card_number(card: &[u8]) -> Option<usize> {
    let digits = card.get(72..80)?;
    if !digits.iter().all(|byte| byte.is_ascii_digit()) {
        return None;
    }
    str::from_utf8(digits).ok()?.parse().ok()
}

/// Whether a file has only whole records.
pub fn has_whole_records(file: &[u8]) -> bool {
    file.len() % RECORD == 0
}

/// What the bytes of a record are.
#[derive(Clone, Copy)]
pub enum RecordForm {
    /// All are printable.
    Card,
    /// One is not ASCII, as nearly all bytes of EBCDIC are.
    NotAscii,
    /// A line ends among them.
    LineEnd,
    /// The one in this column, counted from 1, is of another kind that is not printable.
    Unprintable(usize),
    /// There are only so many.
    Short(usize),
}

impl RecordForm {
    /// The form of a record with these bytes. The first byte that is not ASCII or ends a line decides, and if there is
    /// none, the first one that is not printable.
    pub fn of_record(record: &[u8]) -> RecordForm {
        for &byte in record {
            if !byte.is_ascii() {
                return RecordForm::NotAscii;
            }
            if byte == b'\n' {
                return RecordForm::LineEnd;
            }
        }
        match record.iter().position(|byte| is_unprintable(*byte)) {
            Some(place) => RecordForm::Unprintable(place.saturating_add(1)),
            None if record.len() < RECORD => RecordForm::Short(record.len()),
            None => RecordForm::Card,
        }
    }
}

/// Whether the byte is neither a blank nor a character of ASCII that can be seen.
pub(crate) fn is_unprintable(byte: u8) -> bool {
    byte != b' ' && !byte.is_ascii_graphic()
}

/// Whether all bytes are blanks.
pub(crate) fn is_blank(card: &[u8]) -> bool {
    card.iter().all(|byte| *byte == b' ')
}

/// The text of a record, without the blanks at its end, and with a question mark for each character that is not
/// printable.
pub fn card_text(alloc: Global, record: &[u8]) -> Result<String, AllocError> {
    let mut text = String::new(alloc);
    for &byte in record {
        text.push(shown_char(byte))?;
    }
    String::from_str(alloc, text.as_str().trim_end())
}

/// The record, counted from 1, in which the first SET of the zone begins; `None` if there is none. Each command of the
/// file begins in a new record, as it does in every file whose form the job has accepted.
pub fn find_set(alloc: Global, file: &[u8], zone: &str) -> Result<Option<usize>, AllocError> {
    let mut command = CardWords::new(alloc);
    let mut start = None;
    for (place, card) in file.chunks(RECORD).enumerate() {
        command.add_card(card)?;
        // Cards of comments may come before the command.
        if start.is_none() && !command.words.is_empty() {
            start = place.checked_add(1);
        }
        if command.is_done {
            if command.is_set_of(zone) {
                return Ok(start);
            }
            command = CardWords::new(alloc);
            start = None;
        }
    }
    Ok(None)
}
