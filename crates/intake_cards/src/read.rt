//! Reads the bytes of a file as cards, one after the other. A loop over `0..usize::MAX` ends when the cards end. With
//! `loop` it would need a proof that it ends.
use crate::card::{Card, is_printable_byte};
use crate::code::{Code, Layout, RECORD};
use crate::errors::CardError;
use crate::guess::{
    guess_code, guess_layout, has_bare_returns, unreadable_format, without_padding,
};
use crate::line::{CutLine, PastColumns};
use crate::place::CardPlace;
use std::alloc::{AllocError, Global};

// The most bytes of a file: as many as there are numbers of cards.
const LONGEST_FILE: usize = u32::MAX as usize;

/// What was assumed about a card, or what a card should not have.
#[derive(Clone, Copy, Debug, PartialEq, Eq)]
pub enum CardNoteReason {
    /// The byte order mark of UTF-8 precedes the first card. It is skipped.
    ByteOrderMark,
    /// Blanks after column 80 are left out.
    BlanksAfter80,
    /// More than blanks follows column 80. It is not read.
    LongLine,
    /// The card has tabs, each of which takes one column.
    Tab,
    /// The card has characters that are not printable ASCII.
    NotPrintable,
    /// NULs or the end of file of older systems follow the last card. They are skipped.
    Padding,
    /// `/*` or `$$`, which ended the data in a job, follows the last card. It is skipped.
    Delimiter,
}

/// What was noted about cards, with the first of these cards and their number.
#[derive(Clone, Copy, Debug, PartialEq, Eq)]
pub struct CardNote {
    pub reason: CardNoteReason,
    pub first: CardPlace,
    pub cards: usize,
}

/// A file as cards.
#[derive(Drop)]
pub struct Cards {
    /// How the file is laid out: as the caller asked, or as the bytes show.
    pub layout: Layout,
    /// The code that the caller asked for, or that the bytes show.
    pub code: Code,
    pub cards: Vec<Card>,
    /// One for each reason.
    pub notes: Vec<CardNote>,
}

/// Reads the cards of a file, one after the other.
#[derive(Clone, Copy)]
pub struct CardReader<'a> {
    /// How the file is laid out: as the caller asked, or as the bytes show.
    pub layout: Layout,
    /// The code that the caller asked for, or that the bytes show.
    pub code: Code,
    /// The number of the file among those that are read.
    file: u32,
    /// The lines or records that have not been read yet.
    rest: &'a [u8],
    /// How many cards were read.
    cards: u32,
    has_mark: bool,
    has_padding: bool,
    /// The delimiter that ended the cards.
    delimiter: Option<CardPlace>,
}

// Notes the card at that place: counts it in the note of this reason, or begins such a note.
fn note_card(
    notes: &mut Vec<CardNote>,
    reason: CardNoteReason,
    place: CardPlace,
) -> Result<(), AllocError> {
    for earlier in notes.iter_mut() {
        if earlier.reason == reason {
            earlier.cards = earlier.cards.saturating_add(1);
            return Ok(());
        }
    }
    notes.push(CardNote {
        reason,
        first: place,
        cards: 1,
    })?;
    Ok(())
}

// Notes whether the card has tabs, and whether it has other characters that are not printable ASCII.
fn note_characters(notes: &mut Vec<CardNote>, card: &Card) -> Result<(), AllocError> {
    if card.is_printable() {
        return Ok(());
    }
    if card.text.contains(&b'\t') {
        note_card(notes, CardNoteReason::Tab, card.place)?;
    }
    if card
        .text
        .iter()
        .any(|byte| *byte != b'\t' && !is_printable_byte(*byte))
    {
        note_card(notes, CardNoteReason::NotPrintable, card.place)?;
    }
    Ok(())
}

impl<'a> CardReader<'a> {
    /// A reader of the cards of the file that has this number among those that are read. If no layout or no code is
    /// given, the bytes decide. Returns an error if they cannot be read as cards, if there are too many, or if records
    /// are asked for and 80 does not divide the length.
    pub fn open(
        file: u32,
        bytes: &'a [u8],
        layout: Option<Layout>,
        code: Option<Code>,
    ) -> Result<CardReader<'a>, CardError> {
        if let Some(fault) = unreadable_format(bytes) {
            return Err(fault);
        }
        if bytes.len() > LONGEST_FILE {
            return Err(CardError::TooLong);
        }
        let after_mark = bytes.strip_prefix(b"\xEF\xBB\xBF");
        let text = after_mark.unwrap_or(bytes);
        let code = code.unwrap_or(guess_code(text));
        let layout = layout.unwrap_or(guess_layout(text, code));
        if layout == Layout::Text && code == Code::Ascii && has_bare_returns(text) {
            return Err(CardError::CarriageReturns);
        }
        let content = without_padding_after_cards(text, layout, code);
        if layout == Layout::Records && content.len() % RECORD != 0 {
            return Err(CardError::ShortRecord {
                bytes: content.len() % RECORD,
            });
        }
        Ok(CardReader {
            layout,
            code,
            file,
            rest: content,
            cards: 0,
            has_mark: after_mark.is_some(),
            has_padding: content.len() < text.len(),
            delimiter: None,
        })
    }

    // The place of the card that was read last.
    fn place(&self) -> CardPlace {
        CardPlace {
            file: self.file,
            card: self.cards,
        }
    }

    // The next line or record as columns.
    fn next_line(&mut self) -> Option<CutLine> {
        if self.rest.is_empty() {
            return None;
        }
        let (line, rest) = match self.layout {
            Layout::Text => first_line(self.rest, self.code),
            Layout::Records => first_record(self.rest),
        };
        self.rest = rest;
        self.cards = self.cards.saturating_add(1);
        Some(CutLine::read(line, self.code))
    }

    // The next line or record as a card, with notes on what a card should not have.
    fn read_card(&mut self, notes: &mut Vec<CardNote>) -> Result<Option<Card>, AllocError> {
        let Some(line) = self.next_line() else {
            return Ok(None);
        };
        let card = line.card_at(self.place());
        match line.past {
            PastColumns::Nothing => {}
            PastColumns::Blanks => note_card(notes, CardNoteReason::BlanksAfter80, card.place)?,
            PastColumns::More => note_card(notes, CardNoteReason::LongLine, card.place)?,
        }
        note_characters(notes, &card)?;
        Ok(Some(card))
    }

    // Whether all further cards are blank.
    fn is_rest_blank(&self) -> bool {
        let mut ahead = *self;
        for _ in 0..usize::MAX {
            let Some(line) = ahead.next_line() else {
                return true;
            };
            if !line.card_at(ahead.place()).has_blank_columns() {
                return false;
            }
        }
        true
    }

    /// The next card, or `None` after the last one. If only blank cards follow a delimiter, the cards end before it.
    /// Notes say what was assumed about the cards, and what a card should not have.
    pub fn next_card(&mut self, notes: &mut Vec<CardNote>) -> Result<Option<Card>, AllocError> {
        if self.has_mark && self.cards == 0 {
            let first = CardPlace {
                file: self.file,
                card: 1,
            };
            note_card(notes, CardNoteReason::ByteOrderMark, first)?;
            self.has_mark = false;
        }
        let Some(card) = self.read_card(notes)? else {
            return Ok(None);
        };
        if !card.is_delimiter() || !self.is_rest_blank() {
            return Ok(Some(card));
        }
        self.delimiter = Some(card.place);
        for _ in 0..usize::MAX {
            if self.read_card(notes)?.is_none() {
                break;
            }
        }
        Ok(None)
    }

    /// Notes the padding and the delimiter that follow the last card.
    pub fn note_end(&self, notes: &mut Vec<CardNote>) -> Result<(), AllocError> {
        if self.has_padding {
            note_card(notes, CardNoteReason::Padding, self.place())?;
        }
        if let Some(place) = self.delimiter {
            note_card(notes, CardNoteReason::Delimiter, place)?;
        }
        Ok(())
    }
}

// The first line without its end, which may have a carriage return, and the bytes after that end.
fn first_line(bytes: &[u8], code: Code) -> (&[u8], &[u8]) {
    match bytes.iter().position(|byte| code.ends_line(*byte)) {
        Some(end) => {
            let line = &bytes[..end];
            (line.strip_suffix(b"\r").unwrap_or(line), &bytes[end + 1..])
        }
        None => (bytes, b""),
    }
}

// The first record, and the bytes after it.
fn first_record(bytes: &[u8]) -> (&[u8], &[u8]) {
    match bytes.split_at_checked(RECORD) {
        Some(parts) => parts,
        None => (bytes, b""),
    }
}

// The lines or records of the file, without its padding. If the last record ends with bytes that look like padding, it
// keeps them.
fn without_padding_after_cards(bytes: &[u8], layout: Layout, code: Code) -> &[u8] {
    let front = without_padding(bytes, code);
    if layout == Layout::Text {
        return front;
    }
    let missing = (RECORD - front.len() % RECORD) % RECORD;
    match bytes.split_at_checked(front.len().saturating_add(missing)) {
        Some((records, _)) => records,
        None => front,
    }
}

/// The cards of a file, as `CardReader` reads them.
pub fn read_cards(
    alloc: Global,
    file: u32,
    bytes: &[u8],
    layout: Option<Layout>,
    code: Option<Code>,
) -> Result<Cards, CardError> {
    let mut reader = CardReader::open(file, bytes, layout, code)?;
    let mut cards = Vec::new(alloc);
    let mut notes = Vec::new(alloc);
    for _ in 0..usize::MAX {
        let Some(card) = reader.next_card(&mut notes)? else {
            break;
        };
        cards.push(card)?;
    }
    reader.note_end(&mut notes)?;
    Ok(Cards {
        layout: reader.layout,
        code: reader.code,
        cards,
        notes,
    })
}
