//! Cards as statements, one after the other.
use crate::errors::WideError;
use crate::gather::FileSoFar;
use crate::items::{OtherReason, SwallowedStatement, WideFile, WideHold};
use crate::meaning::{excludes_inline_text, may_have_inline_text};
use crate::statement::WideStatement;
use intake_cards::{Card, CardPiece, CardPlace, CardScanner, Open, Tail, Token, is_word_byte};
use std::alloc::{AllocError, Global};

/// What a card belongs to.
#[derive(Clone, Copy, Debug, PartialEq, Eq)]
enum CardPart {
    /// It precedes the first statement.
    Before,
    /// The statement's own text.
    Own,
    /// The statement's period has been read, and it has no text.
    After,
    /// The text after the statement.
    Inline,
}

/// Reads the statements of a file's cards, which it is given one after the other, and keeps the last hold.
#[derive(Drop)]
pub(crate) struct StatementReader {
    alloc: Global,
    scanner: CardScanner,
    part: CardPart,
    /// Where the statement that is being read begins.
    place: CardPlace,
    /// Whether a card of the statement's own text is cut at column 80, outside comments.
    is_cut: bool,
    /// Whether columns 73 to 80 of such a card have a period, which is not read.
    has_late_period: bool,
    /// The statement, once its period has been read.
    whole: Option<WideStatement>,
    gathered: FileSoFar,
}

// The word at the beginning of the text, in upper case; empty if none begins there.
fn first_word(alloc: Global, text: &[u8]) -> Result<Vec<u8>, AllocError> {
    let length = text.iter().take_while(|byte| is_word_byte(**byte)).count();
    let (word, _) = text.split_at(length);
    word.to_ascii_uppercase(alloc)
}

// The text after the first opening parenthesis; empty if there is none.
fn after_parenthesis(text: &[u8]) -> &[u8] {
    match text.iter().position(|byte| *byte == b'(') {
        Some(place) => &text[place + 1..],
        None => b"",
    }
}

// The statement that the card would begin if the comment were not open.
fn swallowed_statement(
    alloc: Global,
    comment: CardPlace,
    card: &Card,
) -> Result<SwallowedStatement, AllocError> {
    let text = card.columns_after_plus_signs().trim_ascii_start();
    Ok(SwallowedStatement {
        place: card.place,
        comment,
        word: first_word(alloc, text)?,
        name: first_word(alloc, after_parenthesis(text).trim_ascii_start())?,
    })
}

// What to do about a card before the first statement that is neither blank nor a comment.
fn missing_statement_hint(card: &Card) -> &'static str {
    if card.text.starts_with(b"//") {
        "JCL stands there: give the cards after its DD * without it"
    } else if card.text.starts_with(b"./") {
        "input of IEBUPDTE stands there: give the cards between its ./ statements"
    } else {
        "no statement begins there: a statement has ++ in columns 1 and 2"
    }
}

// The word that the piece is, or `None` if it is another one.
fn word_of(piece: &CardPiece) -> Option<&[u8]> {
    match &piece.token {
        Token::Word(word) => Some(word.as_slice()),
        _ => None,
    }
}

// Whether cards after the statement of these pieces may be its text: its word allows one, and no operand excludes it.
fn may_be_followed_by_text(pieces: &[CardPiece]) -> bool {
    let mut words = pieces.iter().filter_map(word_of);
    words.next().is_some_and(may_have_inline_text) && !words.any(excludes_inline_text)
}

impl StatementReader {
    /// A reader that has read no card.
    pub(crate) fn new(alloc: Global) -> StatementReader {
        StatementReader {
            alloc,
            scanner: CardScanner::new(alloc),
            part: CardPart::Before,
            place: CardPlace { file: 0, card: 0 },
            is_cut: false,
            has_late_period: false,
            whole: None,
            gathered: FileSoFar::new(alloc),
        }
    }

    // Adds the next card: it begins a statement, or belongs to the last one.
    fn add_card(&mut self, card: &Card) -> Result<(), WideError> {
        if card.begins_statement() {
            let Open::Comment(comment) = self.scanner.open() else {
                return self.begin_statement(card);
            };
            let swallowed = swallowed_statement(self.alloc, comment, card)?;
            self.gathered.add_swallowed(swallowed)?;
        }
        match self.part {
            CardPart::Inline => {
                if let Some(statement) = &mut self.whole {
                    statement.inline.push(*card)?;
                    if card.is_cut {
                        statement.note_fault(OtherReason::LongLine);
                    }
                }
                Ok(())
            }
            CardPart::Own => {
                self.note_tail(card)?;
                self.scanner.scan_card(card)?;
                self.end_card(card);
                self.end_own_text()
            }
            CardPart::Before | CardPart::After => {
                self.scanner.scan_card(card)?;
                self.end_card(card);
                self.note_text_after(card)
            }
        }
    }

    // Ends the last statement, and begins that of the card.
    fn begin_statement(&mut self, card: &Card) -> Result<(), WideError> {
        self.end_statement()?;
        self.part = CardPart::Own;
        self.place = card.place;
        self.is_cut = false;
        self.has_late_period = false;
        self.note_tail(card)?;
        self.scanner
            .scan_columns(card.place, card.columns_after_plus_signs())?;
        self.end_card(card);
        self.end_own_text()
    }

    // Ends a card that was scanned. A `*/` after column 80 ends a comment that is open. A line that is cut at column 80
    // is noted, but not inside a comment, where nothing is lost.
    fn end_card(&mut self, card: &Card) {
        let is_open = matches!(self.scanner.open(), Open::Comment(_));
        if is_open && card.ends_comment {
            self.scanner.end_comment();
        } else if card.is_cut && !is_open {
            self.is_cut = true;
        }
    }

    // Notes columns 73 to 80 if they hold more than digits and blanks, and whether they hold a period.
    fn note_tail(&mut self, card: &Card) -> Result<(), WideError> {
        if card.tail() == Tail::Other {
            self.has_late_period = self.has_late_period || card.number_columns().contains(&b'.');
            self.gathered.note_tail(card)?;
        }
        Ok(())
    }

    // Makes a statement of the pieces that were scanned, and takes them out of the scanner.
    fn take_statement(&mut self) -> Result<WideStatement, AllocError> {
        let mut statement = WideStatement::take_scanned(self.alloc, self.place, &mut self.scanner)?;
        if self.has_late_period && statement.fault == Some(OtherReason::NoPeriod) {
            statement.fault = Some(OtherReason::LatePeriod);
        }
        if self.is_cut {
            statement.fault = Some(OtherReason::LongLine);
        }
        Ok(statement)
    }

    // Makes the statement, and goes on to the cards after it, if its period was read and no comment is open.
    fn end_own_text(&mut self) -> Result<(), WideError> {
        if !self.scanner.has_period() || matches!(self.scanner.open(), Open::Comment(_)) {
            return Ok(());
        }
        self.part = if may_be_followed_by_text(self.scanner.pieces()) {
            CardPart::Inline
        } else {
            CardPart::After
        };
        self.whole = Some(self.take_statement()?);
        Ok(())
    }

    // Notes a fault of the last statement if the card has more than comments and blanks. Returns `NoStatement` if there
    // is no statement yet.
    fn note_text_after(&mut self, card: &Card) -> Result<(), WideError> {
        let is_open = matches!(self.scanner.open(), Open::Parenthesis(_));
        let pieces = self.scanner.take_pieces();
        if pieces.is_empty() && !is_open {
            return Ok(());
        }
        match &mut self.whole {
            Some(statement) => statement.note_fault(OtherReason::TextAfterPeriod),
            None => {
                return Err(WideError::NoStatement {
                    place: card.place,
                    hint: missing_statement_hint(card),
                });
            }
        }
        Ok(())
    }

    // Gathers the statement that is being read, if there is one.
    fn end_statement(&mut self) -> Result<(), WideError> {
        if let Some(statement) = self.whole.take() {
            return self.gathered.add(statement);
        }
        if self.part == CardPart::Own {
            let statement = self.take_statement()?;
            return self.gathered.add(statement);
        }
        Ok(())
    }

    /// Reads the next card. If this ends a hold outside SYSMODs, hands out that hold. Returns `NoStatement` if more
    /// than blanks and comments precedes the first statement, and `Statement` if a statement that belongs to a SYSMOD,
    /// or that is not known, precedes the first SYSMOD.
    pub(crate) fn read_card(&mut self, card: &Card) -> Result<Option<WideHold>, WideError> {
        self.add_card(card)?;
        Ok(self.gathered.take_hold())
    }

    /// Ends the last statement, and hands it out if it is a hold outside SYSMODs. Returns `OpenComment` if a comment is
    /// open after the last card.
    pub(crate) fn read_end(&mut self) -> Result<Option<WideHold>, WideError> {
        if let Open::Comment(place) = self.scanner.open() {
            return Err(WideError::OpenComment { place });
        }
        self.end_statement()?;
        Ok(self.gathered.take_hold())
    }

    /// All statements but the holds that `read_card` and `read_end` handed out.
    pub(crate) fn into_file(self) -> Result<WideFile, WideError> {
        self.gathered.into_file()
    }
}
