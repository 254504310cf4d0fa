//! The pieces of cards, one after the other: words, the texts in parentheses, and periods. Comments separate them, and
//! so do blanks, commas and the ends of cards. In parentheses a comment counts as a blank, but in those of a text
//! operand (COMMENT, DESC) it belongs to the text.
use crate::card::Card;
use crate::place::CardPlace;
use std::alloc::{AllocError, Global};
use std::mem;

/// What a piece is.
#[derive(Drop)]
pub enum Token {
    /// Letters, digits, `$`, `#`, `@` and other characters of names, the letters in upper case.
    Word(Vec<u8>),
    /// The text in parentheses, unchanged, inner parentheses included. Blanks at either end of a card are left out, and
    /// one blank stands between two cards.
    List(Vec<u8>),
    Period,
    /// A closing parenthesis without a partner.
    Closing,
    /// A character that no word has.
    Stray(u8),
}

/// A word, a list or another character, and the card where it begins.
#[derive(Drop)]
pub struct CardPiece {
    pub place: CardPlace,
    pub token: Token,
}

/// Where a scanner is.
#[derive(Clone, Copy, Debug, PartialEq, Eq)]
enum State {
    Gap,
    Word,
    List,
    /// After a slash, outside words.
    Slash,
    Comment,
    /// After an asterisk in a comment.
    Star,
}

/// What is open at the end of the cards that were scanned.
#[derive(Clone, Copy, Debug, PartialEq, Eq)]
pub enum Open {
    Nothing,
    /// Parentheses, and where the first of them opens.
    Parenthesis(CardPlace),
    /// A comment, and where it opens.
    Comment(CardPlace),
}

/// Scans cards, one after the other, and finds their pieces.
#[derive(Drop)]
pub struct CardScanner {
    alloc: Global,
    state: State,
    /// How many parentheses are open.
    depth: usize,
    /// Where the list, or the comment, or both, opened.
    list_place: CardPlace,
    comment_place: CardPlace,
    /// The word or the list so far.
    text: Vec<u8>,
    /// Blanks of the list that become text if more text follows on the same card.
    blanks: usize,
    /// Whether the list has only blanks so far on this card.
    at_margin: bool,
    /// Whether the list is the value of a text operand.
    is_text: bool,
    has_lower: bool,
    has_period: bool,
    pieces: Vec<CardPiece>,
}

/// Whether the character may be part of a word.
pub fn is_word_byte(byte: u8) -> bool {
    byte.is_ascii_alphanumeric() || matches!(byte, b'$' | b'#' | b'@' | b'+' | b'_' | b'-')
}

// Whether the value of the operand of this name is text, in which `/*` begins no comment.
fn is_text_operand(word: &[u8]) -> bool {
    matches!(word, b"COMMENT" | b"DESC" | b"DESCRIPTION")
}

impl CardScanner {
    /// A scanner that has scanned no card.
    pub fn new(alloc: Global) -> CardScanner {
        let nowhere = CardPlace { file: 0, card: 0 };
        CardScanner {
            alloc,
            state: State::Gap,
            depth: 0,
            list_place: nowhere,
            comment_place: nowhere,
            text: Vec::new(alloc),
            blanks: 0,
            at_margin: true,
            is_text: false,
            has_lower: false,
            has_period: false,
            pieces: Vec::new(alloc),
        }
    }

    /// What is open after the cards that were scanned.
    pub fn open(&self) -> Open {
        match self.state {
            State::Comment | State::Star => Open::Comment(self.comment_place),
            _ if self.depth > 0 => Open::Parenthesis(self.list_place),
            _ => Open::Nothing,
        }
    }

    /// The pieces so far.
    pub fn pieces(&self) -> &[CardPiece] {
        self.pieces.as_slice()
    }

    /// Whether one of the words so far has a letter in lower case.
    pub fn has_lower(&self) -> bool {
        self.has_lower
    }

    /// Whether a period is among the pieces so far.
    pub fn has_period(&self) -> bool {
        self.has_period
    }

    /// Takes the pieces so far out of the scanner. It forgets parentheses that are open, but a comment stays open.
    pub fn take_pieces(&mut self) -> Vec<CardPiece> {
        self.depth = 0;
        self.has_lower = false;
        self.has_period = false;
        self.text.clear();
        if matches!(self.state, State::List) {
            self.state = State::Gap;
        }
        mem::replace(&mut self.pieces, Vec::new(self.alloc))
    }

    /// Scans the columns of a card up to column 72, or the last ones of these.
    pub fn scan_columns(&mut self, place: CardPlace, columns: &[u8]) -> Result<(), AllocError> {
        for byte in columns {
            self.scan_byte(place, *byte)?;
        }
        self.end_card(place)
    }

    /// Scans columns 1 to 72 of a card.
    pub fn scan_card(&mut self, card: &Card) -> Result<(), AllocError> {
        self.scan_columns(card.place, card.columns())
    }

    // Scans the next character, in the state that the one before left.
    fn scan_byte(&mut self, place: CardPlace, byte: u8) -> Result<(), AllocError> {
        match self.state {
            State::Gap => self.scan_in_gap(place, byte),
            State::Word => self.scan_in_word(place, byte),
            State::List => self.scan_in_list(place, byte),
            State::Slash => self.scan_after_slash(place, byte),
            State::Comment => {
                self.scan_in_comment(byte);
                Ok(())
            }
            State::Star => {
                self.scan_after_star(byte);
                Ok(())
            }
        }
    }

    // Ends what cannot go on over the end of a card: a word, or the beginning or end of a comment.
    fn end_card(&mut self, place: CardPlace) -> Result<(), AllocError> {
        match self.state {
            State::Word => self.end_word(place)?,
            State::Slash => self.push_slash(place)?,
            State::Star => self.state = State::Comment,
            _ => {}
        }
        self.blanks = 1;
        self.at_margin = true;
        Ok(())
    }

    fn push_piece(&mut self, place: CardPlace, token: Token) -> Result<(), AllocError> {
        self.pieces.push(CardPiece { place, token })?;
        Ok(())
    }

    // Scans a character outside words, lists and comments.
    fn scan_in_gap(&mut self, place: CardPlace, byte: u8) -> Result<(), AllocError> {
        match byte {
            b' ' | b',' | b'\t' => {}
            b'/' => self.state = State::Slash,
            b'.' => {
                self.has_period = true;
                self.push_piece(place, Token::Period)?;
            }
            b'(' => self.open_list(place),
            b')' => self.push_piece(place, Token::Closing)?,
            _ => {
                if is_word_byte(byte) {
                    self.state = State::Word;
                    self.push_word_byte(byte)?;
                } else {
                    self.push_piece(place, Token::Stray(byte))?;
                }
            }
        }
        Ok(())
    }

    // Adds a character to the word, in upper case.
    fn push_word_byte(&mut self, byte: u8) -> Result<(), AllocError> {
        self.has_lower = self.has_lower || byte.is_ascii_lowercase();
        self.text.push(byte.to_ascii_uppercase())?;
        Ok(())
    }

    // Scans the character after one of a word: it belongs to the word, or the word ends before it.
    fn scan_in_word(&mut self, place: CardPlace, byte: u8) -> Result<(), AllocError> {
        if is_word_byte(byte) {
            return self.push_word_byte(byte);
        }
        self.end_word(place)?;
        self.scan_in_gap(place, byte)
    }

    // Makes a piece of the word.
    fn end_word(&mut self, place: CardPlace) -> Result<(), AllocError> {
        self.state = State::Gap;
        let word = mem::replace(&mut self.text, Vec::new(self.alloc));
        self.push_piece(place, Token::Word(word))
    }

    // Begins a list. If the word before it is a text operand, the list is text.
    fn open_list(&mut self, place: CardPlace) {
        self.state = State::List;
        self.depth = 1;
        self.list_place = place;
        self.blanks = 0;
        self.at_margin = true;
        self.is_text = self.pieces.last().is_some_and(|piece| match &piece.token {
            Token::Word(word) => is_text_operand(word.as_slice()),
            _ => false,
        });
    }

    // Scans a character inside parentheses.
    fn scan_in_list(&mut self, place: CardPlace, byte: u8) -> Result<(), AllocError> {
        match byte {
            b' ' | b'\t' => {
                self.count_list_blank();
                Ok(())
            }
            b'/' if !self.is_text => {
                self.state = State::Slash;
                Ok(())
            }
            b'(' => {
                self.depth = self.depth.saturating_add(1);
                self.push_list_byte(byte)
            }
            b')' if self.depth == 1 => self.end_list(),
            b')' => {
                self.depth = self.depth.saturating_sub(1);
                self.push_list_byte(byte)
            }
            _ => self.push_list_byte(byte),
        }
    }

    // Counts a blank in the list, unless the card has no text of the list before it.
    fn count_list_blank(&mut self) {
        if !self.at_margin {
            self.blanks = self.blanks.saturating_add(1);
        }
    }

    // Adds a character that is not a blank to the list, after the blanks that were counted.
    fn push_list_byte(&mut self, byte: u8) -> Result<(), AllocError> {
        if !self.text.is_empty() {
            for _ in 0..self.blanks {
                self.text.push(b' ')?;
            }
        }
        self.blanks = 0;
        self.at_margin = false;
        self.text.push(byte)?;
        Ok(())
    }

    // Makes a piece of the list.
    fn end_list(&mut self) -> Result<(), AllocError> {
        self.depth = 0;
        self.state = State::Gap;
        let list = mem::replace(&mut self.text, Vec::new(self.alloc));
        self.push_piece(self.list_place, Token::List(list))
    }

    // Scans the character after a slash. The two begin a comment if it is an asterisk. Otherwise the slash stands by
    // itself.
    fn scan_after_slash(&mut self, place: CardPlace, byte: u8) -> Result<(), AllocError> {
        if byte == b'*' {
            self.state = State::Comment;
            self.comment_place = place;
            return Ok(());
        }
        self.push_slash(place)?;
        if self.depth > 0 {
            self.scan_in_list(place, byte)
        } else {
            self.scan_in_gap(place, byte)
        }
    }

    // Adds a slash that begins no comment: to the list, or as a stray character.
    fn push_slash(&mut self, place: CardPlace) -> Result<(), AllocError> {
        if self.depth > 0 {
            self.state = State::List;
            self.push_list_byte(b'/')
        } else {
            self.state = State::Gap;
            self.push_piece(place, Token::Stray(b'/'))
        }
    }

    // Scans a character of a comment.
    fn scan_in_comment(&mut self, byte: u8) {
        if byte == b'*' {
            self.state = State::Star;
        }
    }

    // Scans the character after an asterisk in a comment: a slash ends the comment.
    fn scan_after_star(&mut self, byte: u8) {
        match byte {
            b'/' => self.end_comment(),
            b'*' => {}
            _ => self.state = State::Comment,
        }
    }

    /// Ends the comment, which counts as a blank in a list.
    pub fn end_comment(&mut self) {
        if self.depth > 0 {
            self.state = State::List;
            self.count_list_blank();
        } else {
            self.state = State::Gap;
        }
    }
}
