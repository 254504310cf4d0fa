//! A card.
use crate::place::CardPlace;

/// The columns that statements use. The number of the card is in the columns after them.
const COLUMNS: usize = 72;

/// A card: 80 columns, with blanks after a shorter line. The bytes are ASCII, whatever the file's code was. A letter
/// that ASCII lacks is its byte in ISO 8859-1, or `NO_LATIN` if it has none.
#[derive(Clone, Copy, Debug, PartialEq, Eq)]
pub struct Card {
    pub place: CardPlace,
    pub text: [u8; 80],
    /// The line has more than blanks after column 80.
    pub is_cut: bool,
    /// The line is cut, and its last text is `*/`, which ends a comment that is open.
    pub ends_comment: bool,
}

/// What columns 73 to 80 of a card hold.
#[derive(Clone, Copy, Debug, PartialEq, Eq)]
pub enum Tail {
    Blank,
    /// Digits, maybe with blanks among them.
    Number,
    Other,
}

// Whether all bytes are blanks.
fn are_blanks(bytes: &[u8]) -> bool {
    bytes.iter().all(|byte| *byte == b' ')
}

/// Whether the byte is a blank or a printable character of ASCII, as RECEIVE asks of each byte of a record.
pub fn is_printable_byte(byte: u8) -> bool {
    matches!(byte, 0x20..=0x7E)
}

impl Card {
    /// Columns 1 to 72.
    pub fn columns(&self) -> &[u8] {
        &self.text[..COLUMNS]
    }

    /// Columns 3 to 72, which follow the `++` of a card that begins a statement.
    pub fn columns_after_plus_signs(&self) -> &[u8] {
        &self.text[2..COLUMNS]
    }

    /// Columns 73 to 80, in which a card has its number.
    pub fn number_columns(&self) -> [u8; 8] {
        let mut number = [b' '; 8];
        number.copy_from_slice(&self.text[COLUMNS..]);
        number
    }

    /// What columns 73 to 80 hold.
    pub fn tail(&self) -> Tail {
        let number = self.number_columns();
        if are_blanks(number.as_slice()) {
            Tail::Blank
        } else if number
            .iter()
            .all(|byte| *byte == b' ' || byte.is_ascii_digit())
        {
            Tail::Number
        } else {
            Tail::Other
        }
    }

    /// Whether columns 1 to 72 are blank, whatever follows them.
    pub fn has_blank_columns(&self) -> bool {
        are_blanks(self.columns())
    }

    /// Whether all 80 columns are blank.
    pub fn is_blank(&self) -> bool {
        are_blanks(self.text.as_slice())
    }

    /// Whether a statement begins on this card: `++` in columns 1 and 2.
    pub fn begins_statement(&self) -> bool {
        self.text.starts_with(b"++")
    }

    /// Whether the card only ends the data in a job: `/*` or `$$` in columns 1 and 2, and blanks after them.
    pub(crate) fn is_delimiter(&self) -> bool {
        (self.text.starts_with(b"/*") || self.text.starts_with(b"$$"))
            && are_blanks(&self.text[2..])
    }

    /// Whether each column has a blank or a printable character of ASCII.
    pub fn is_printable(&self) -> bool {
        self.text.iter().all(|byte| is_printable_byte(*byte))
    }
}
