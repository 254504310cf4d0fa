//! The text of a COMMENT, and its form on cards. A card has up to 71 characters of it, in columns 2 to 72, and two
//! blanks separate the texts of two cards.

use crate::printed::PrintedCards;
use std::alloc::{AllocError, Global};

/// How many characters of a COMMENT fit on a card.
const ON_CARD: usize = 71;

/// How many characters one card takes of a COMMENT, with the two blanks before the next card.
const STRIDE: usize = 73;

/// The words of the text with the blanks that they have on cards: if a word would run over the end of a card, more
/// blanks move it to the next one, and a word that is longer than a card is cut into pieces. So the cards that
/// `PrintedCards::add_comment` prints are read as the same text again.
pub fn lay_out_comment(alloc: Global, text: &[u8]) -> Result<Vec<u8>, AllocError> {
    let mut layout = Vec::with_capacity(alloc, text.len())?;
    for word in text.split(|byte| *byte == b' ') {
        for piece in word.chunks(ON_CARD) {
            append_word(&mut layout, piece)?;
        }
    }
    Ok(layout)
}

// Adds a word that is no longer than a card, after one blank, or after as many blanks as lead to the next card.
fn append_word(layout: &mut Vec<u8>, word: &[u8]) -> Result<(), AllocError> {
    if !layout.is_empty() {
        layout.push(b' ')?;
    }
    let column = layout.len() % STRIDE;
    if word.len().saturating_add(column) > ON_CARD {
        for _ in column..STRIDE {
            layout.push(b' ')?;
        }
    }
    layout.extend_from_slice(word)?;
    Ok(())
}

impl PrintedCards {
    /// Adds COMMENT with a text that `lay_out_comment` has laid out, in parentheses and on cards of its own.
    pub fn add_comment(&mut self, text: &[u8]) -> Result<(), AllocError> {
        self.add_word(b"COMMENT(")?;
        for piece in text.chunks(STRIDE) {
            self.begin_card(b" ")?;
            self.add_across_columns(without_gap(piece))?;
        }
        self.add_directly(b")")
    }
}

// The part of a piece that its card shows: all but the two blanks before the next card.
fn without_gap(piece: &[u8]) -> &[u8] {
    match piece.split_at_checked(ON_CARD) {
        Some((front, _)) => front,
        None => piece,
    }
}
