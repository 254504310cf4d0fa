//! Whether a file has statements.

use intake_cards::CardReader;
use std::alloc::{AllocError, Global};

/// Whether a statement begins on a card of the file: two plus signs and a letter. A file that cannot be read as cards
/// has none.
pub fn is_statement_file(alloc: Global, bytes: &[u8]) -> Result<bool, AllocError> {
    let Ok(mut cards) = CardReader::open(0, bytes, None, None) else {
        return Ok(false);
    };
    let mut notes = Vec::new(alloc);
    for _ in 0..usize::MAX {
        let Some(card) = cards.next_card(&mut notes)? else {
            break;
        };
        if begins_statement(card.columns()) {
            return Ok(true);
        }
    }
    Ok(false)
}

// Whether the columns of a card begin with two plus signs and a letter.
fn begins_statement(columns: &[u8]) -> bool {
    matches!(columns, [b'+', b'+', letter, ..] if letter.is_ascii_alphabetic())
}
