//! Cards as they are printed: words on cards of 80 bytes.
ghost use Rattle.std.specs.Prelude.{◌<◌};

use std::alloc::{AllocError, Global};

/// The length of a card.
const CARD: usize = 80;

/// The last column that a word may use.
const LAST_COLUMN: usize = 71;

/// A card of blanks.
const BLANKS: &[u8; CARD] = &[b' '; CARD];

/// Cards of 80 bytes each, one after the other. The last one may be begun.
#[derive(Debug, Drop)]
pub struct PrintedCards {
    bytes: Vec<u8>,
}

impl PrintedCards {
    /// No cards.
    pub fn new(alloc: Global) -> PrintedCards {
        PrintedCards {
            bytes: Vec::new(alloc),
        }
    }

    // How many columns of the last card are filled, or 0 if no card is begun.
    fn filled_columns(&self) -> usize
        ensures { result < 80 }
    {
        self.bytes.len() % CARD
    }

    /// Fills the rest of the last card with blanks, if a card is begun.
    pub fn end_card(&mut self) -> Result<(), AllocError> {
        let filled = self.filled_columns();
        if filled != 0 {
            let blanks = &BLANKS[..];
            self.bytes.extend_from_slice(&blanks[filled..])?;
        }
        Ok(())
    }

    /// Begins a card with the text.
    pub fn begin_card(&mut self, text: &[u8]) -> Result<(), AllocError> {
        self.end_card()?;
        self.bytes.extend_from_slice(text)?;
        Ok(())
    }

    /// Adds a blank and the word, or begins a card with the word if it does not fit into 71 columns.
    pub fn add_word(&mut self, word: &[u8]) -> Result<(), AllocError> {
        if word.len().saturating_add(self.filled_columns()) < LAST_COLUMN {
            self.bytes.push(b' ')?;
            self.bytes.extend_from_slice(word)?;
            return Ok(());
        }
        self.begin_card(word)
    }

    /// Adds the text without a blank before it, or begins a card with it if it does not fit into 71 columns.
    pub fn add_directly(&mut self, text: &[u8]) -> Result<(), AllocError> {
        if text.len().saturating_add(self.filled_columns()) <= LAST_COLUMN {
            self.bytes.extend_from_slice(text)?;
            return Ok(());
        }
        self.begin_card(text)
    }

    /// Adds the text without a blank before it, even if it runs over column 71.
    pub fn add_across_columns(&mut self, text: &[u8]) -> Result<(), AllocError> {
        self.bytes.extend_from_slice(text)?;
        Ok(())
    }

    /// Adds a word with one member in parentheses.
    pub fn add_value(&mut self, word: &[u8], member: &[u8]) -> Result<(), AllocError> {
        self.add_word(word)?;
        self.add_in_parentheses(member)
    }

    /// Adds one member in parentheses.
    pub fn add_in_parentheses(&mut self, member: &[u8]) -> Result<(), AllocError> {
        self.add_directly(b"(")?;
        self.add_directly(member)?;
        self.add_directly(b")")
    }

    /// The bytes of all cards.
    pub fn into_bytes(mut self) -> Result<Vec<u8>, AllocError> {
        self.end_card()?;
        Ok(self.bytes)
    }
}
