//! A line as the columns of a card.
use crate::card::Card;
use crate::code::Code;
use crate::place::CardPlace;

/// The byte that replaces a letter that ISO 8859-1 lacks: an inverted question mark.
pub const NO_LATIN: u8 = 0xBF;

/// The text after column 80.
#[derive(Clone, Copy, Debug, PartialEq, Eq)]
pub(crate) enum PastColumns {
    Nothing,
    Blanks,
    More,
}

/// The first 80 columns of a line, with blanks after a shorter one, and the text after them.
#[derive(Clone, Copy)]
pub(crate) struct CutLine {
    text: [u8; 80],
    pub(crate) past: PastColumns,
    /// The last text of the line is `*/`.
    ends_comment: bool,
}

impl CutLine {
    // A line of blanks.
    fn blank() -> CutLine {
        CutLine {
            text: [b' '; 80],
            past: PastColumns::Nothing,
            ends_comment: false,
        }
    }

    /// The line as columns. In UTF-8 a letter has one column, however many bytes it has. A line that is not in UTF-8
    /// has a column for each byte.
    pub(crate) fn read(line: &[u8], code: Code) -> CutLine {
        if code == Code::Ascii {
            let is_ascii = line.is_ascii();
            if is_ascii && line.len() <= 80 {
                return CutLine::of_short_line(line);
            }
            if !is_ascii {
                if let Ok(text) = str::from_utf8(line) {
                    return CutLine::of_text(text);
                }
            }
        }
        CutLine::of_bytes(line, code)
    }

    // A line of up to 80 bytes in ASCII.
    fn of_short_line(line: &[u8]) -> CutLine {
        let mut cut = CutLine::blank();
        for (column, letter) in cut.text.iter_mut().zip(line) {
            *column = *letter;
        }
        cut
    }

    // Each character of the text as a column.
    fn of_text(text: &str) -> CutLine {
        let mut cut = CutLine::blank();
        cut.ends_comment = text.as_bytes().trim_ascii_end().ends_with(b"*/");
        for (column, letter) in text.chars().enumerate() {
            cut.set_column(column, u8::try_from(letter as u32).unwrap_or(NO_LATIN));
        }
        cut
    }

    // Each byte of the line as a column. A `*/` is the last text of the line if only blanks follow it.
    fn of_bytes(line: &[u8], code: Code) -> CutLine {
        let mut cut = CutLine::blank();
        let mut before = b' ';
        for (column, byte) in line.iter().enumerate() {
            let letter = code.to_ascii(*byte);
            cut.set_column(column, letter);
            let is_comment_end = letter == b'/' && before == b'*';
            cut.ends_comment = is_comment_end || (letter == b' ' && cut.ends_comment);
            before = letter;
        }
        cut
    }

    // Sets the column, counted from 0, to the letter. Of the columns after the 80th only the kind of text is kept.
    fn set_column(&mut self, column: usize, letter: u8) {
        match self.text.get_mut(column) {
            Some(place) => *place = letter,
            None if letter != b' ' => self.past = PastColumns::More,
            None if self.past == PastColumns::Nothing => self.past = PastColumns::Blanks,
            None => {}
        }
    }

    /// The line as the card at this place.
    pub(crate) fn card_at(&self, place: CardPlace) -> Card {
        let is_cut = self.past == PastColumns::More;
        Card {
            place,
            text: self.text,
            is_cut,
            ends_comment: is_cut && self.ends_comment,
        }
    }
}
