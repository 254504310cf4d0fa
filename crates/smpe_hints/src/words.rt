//! The words of a command or a statement, as far as they show without the grammar.
use crate::card::{RECORD, is_unprintable};
use std::alloc::{AllocError, Global};

/// How many columns of a card have words.
const TEXT_COLUMNS: usize = 72;

/// How many cards of one command or statement are read at most.
const MOST_CARDS: usize = 200;

/// How deep parentheses may be.
const MOST_DEPTH: usize = 2;

/// A word of a command or of a statement: an operand, or a value in the parentheses of an operand.
#[derive(Drop)]
pub(crate) struct CardWord {
    pub(crate) operand: String,
    pub(crate) value: Option<String>,
}

impl CardWord {
    // Whether this word is the zone, as the value of the operand BDY.
    fn is_boundary(&self, zone: &str) -> bool {
        self.is_value("BDY", zone)
    }

    /// Whether this word is this value of this operand.
    pub(crate) fn is_value(&self, operand: &str, value: &str) -> bool {
        self.operand.as_str() == operand
            && self.value.as_ref().is_some_and(|own| own.as_str() == value)
    }
}

/// The words of a command or of a statement, up to the period that ends it.
#[derive(Drop)]
pub(crate) struct CardWords {
    alloc: Global,
    /// The words that have ended.
    pub(crate) words: Vec<CardWord>,
    /// The last operand.
    operand: String,
    /// The word that has not ended, or no text between words.
    word: String,
    /// How many parentheses are open.
    pub(crate) depth: usize,
    /// How many cards have been read.
    pub(crate) card_count: usize,
    /// The last byte.
    last: u8,
    /// The last byte that is no blank.
    last_sign: u8,
    pub(crate) is_comment: bool,
    /// Whether the period has come.
    pub(crate) is_done: bool,
    /// Whether something but a comment follows the period on its card.
    pub(crate) has_rest: bool,
    /// Whether a parenthesis closes that none has opened.
    pub(crate) closes_none: bool,
    /// Whether parentheses are deeper than they may be.
    pub(crate) is_too_deep: bool,
    /// The operand in whose list a comma has no member before it or after it.
    pub(crate) gap: Option<String>,
}

impl CardWords {
    /// No words, before the first card.
    pub(crate) fn new(alloc: Global) -> CardWords {
        CardWords {
            alloc,
            words: Vec::new(alloc),
            operand: String::new(alloc),
            word: String::new(alloc),
            depth: 0,
            card_count: 0,
            last: b' ',
            last_sign: b' ',
            is_comment: false,
            is_done: false,
            has_rest: false,
            closes_none: false,
            is_too_deep: false,
            gap: None,
        }
    }

    /// Reads the words of the command that begins in this record, counted from 1.
    pub(crate) fn read_command(
        alloc: Global,
        file: &[u8],
        record: usize,
    ) -> Result<CardWords, AllocError> {
        let mut card_words = CardWords::new(alloc);
        let cards = file.chunks(RECORD).skip(record.saturating_sub(1));
        for card in cards.take(MOST_CARDS) {
            card_words.add_card(card)?;
            if card_words.is_done {
                break;
            }
        }
        Ok(card_words)
    }

    /// Reads the words of the statement that begins in this record, counted from 1. It ends before the next statement.
    pub(crate) fn read_statement(
        alloc: Global,
        file: &[u8],
        record: usize,
    ) -> Result<CardWords, AllocError> {
        let mut card_words = CardWords::new(alloc);
        let cards = file.chunks(RECORD).skip(record.saturating_sub(1));
        for card in cards.take(MOST_CARDS) {
            if card_words.is_done || (card_words.card_count > 0 && card.starts_with(b"++")) {
                break;
            }
            card_words.add_card(card)?;
        }
        Ok(card_words)
    }

    /// Adds the words of the next card, up to the period. A word ends with its card.
    pub(crate) fn add_card(&mut self, card: &[u8]) -> Result<(), AllocError> {
        self.card_count = self.card_count.saturating_add(1);
        for &byte in card.iter().take(TEXT_COLUMNS) {
            if self.is_done {
                self.pass_rest(byte);
            } else {
                self.add_byte(byte)?;
            }
        }
        if self.is_done {
            Ok(())
        } else {
            self.add_byte(b' ')
        }
    }

    // Passes over a byte after the period, where only blanks, commas and comments may be.
    fn pass_rest(&mut self, byte: u8) {
        let previous = self.last;
        self.last = byte;
        if self.is_comment {
            if previous == b'*' && byte == b'/' {
                self.is_comment = false;
                self.last = b' ';
            }
        } else if previous == b'/' && byte == b'*' {
            self.is_comment = true;
            self.last = b' ';
        } else if byte != b' ' && byte != b',' && byte != b'/' {
            self.has_rest = true;
        }
    }

    // Adds the byte of the next column, which belongs to a comment or a word, or ends a word. An asterisk that opens a
    // comment does not close it, and there are no comments inside parentheses.
    fn add_byte(&mut self, byte: u8) -> Result<(), AllocError> {
        let previous = self.last;
        self.last = byte;
        if self.is_comment {
            if previous == b'*' && byte == b'/' {
                self.is_comment = false;
                self.last = b' ';
            }
            return Ok(());
        }
        if self.depth == 0 && previous == b'/' && byte == b'*' {
            self.is_comment = true;
            self.last = b' ';
            self.word.pop();
            return self.end_word();
        }
        self.note_gap(byte)?;
        match byte {
            b'(' => {
                self.end_word()?;
                self.open_list();
            }
            b')' => {
                self.end_word()?;
                self.close_list();
            }
            b'.' if self.depth == 0 => {
                self.end_word()?;
                self.is_done = true;
            }
            b' ' | b',' => self.end_word()?,
            _ => self.word.push(shown_char(byte))?,
        }
        Ok(())
    }

    // Follows a parenthesis that opens.
    fn open_list(&mut self) {
        self.depth = self.depth.saturating_add(1);
        if self.depth > MOST_DEPTH {
            self.is_too_deep = true;
        }
    }

    // Follows a parenthesis that closes.
    fn close_list(&mut self) {
        if self.depth == 0 {
            self.closes_none = true;
        }
        self.depth = self.depth.saturating_sub(1);
    }

    // Notes a comma in a list that has no member before it or after it.
    fn note_gap(&mut self, byte: u8) -> Result<(), AllocError> {
        if byte == b' ' {
            return Ok(());
        }
        let has_gap = match byte {
            b',' => self.last_sign == b',' || self.last_sign == b'(',
            b')' => self.last_sign == b',',
            _ => false,
        };
        if has_gap && self.depth == 1 && self.operand.as_str() != "COMMENT" && self.gap.is_none() {
            self.gap = Some(String::from_str(self.alloc, self.operand.as_str())?);
        }
        self.last_sign = byte;
        Ok(())
    }

    // Keeps the word that has ended, if there is one: outside parentheses as an operand, and inside as a value of the
    // last operand. A word of an inner list is dropped, as a reason in BYPASS(HOLDUSER(..)).
    fn end_word(&mut self) -> Result<(), AllocError> {
        if self.word.is_empty() {
            return Ok(());
        }
        let word = String::from_str(self.alloc, self.word.as_str())?;
        self.word.clear();
        match self.depth {
            0 => {
                self.operand = String::from_str(self.alloc, word.as_str())?;
                self.words.push(CardWord {
                    operand: word,
                    value: None,
                })?;
            }
            1 => {
                let operand = String::from_str(self.alloc, self.operand.as_str())?;
                self.words.push(CardWord {
                    operand,
                    value: Some(word),
                })?;
            }
            _ => {}
        }
        Ok(())
    }

    /// The first word, or no text if there is none.
    pub(crate) fn name(&self) -> &str {
        self.words.first().map_or("", |word| word.operand.as_str())
    }

    /// The first value of the operand, or of the statement's own word; `None` if it has none.
    pub(crate) fn value_of(&self, operand: &str) -> Option<&str> {
        for word in &self.words {
            if let Some(value) = &word.value
                && word.operand.as_str() == operand
            {
                return Some(value.as_str());
            }
        }
        None
    }

    /// Whether the words have this operand, with or without a value.
    pub(crate) fn has_operand(&self, operand: &str) -> bool {
        self.words
            .iter()
            .skip(1)
            .any(|word| word.operand.as_str() == operand)
    }

    /// Whether this is a SET of the zone.
    pub(crate) fn is_set_of(&self, zone: &str) -> bool {
        self.name() == "SET" && self.words.iter().any(|word| word.is_boundary(zone))
    }
}

/// The character of the byte, or a question mark for one that is not printable.
pub(crate) fn shown_char(byte: u8) -> char {
    if is_unprintable(byte) {
        '?'
    } else {
        char::from(byte)
    }
}
