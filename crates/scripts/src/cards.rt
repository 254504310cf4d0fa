//! Cards: lines of text as records.

use std::alloc::Global;
use std::test::Fail;

/// How many bytes a card has.
const CARD: usize = 80;

/// How many columns of a card have text. Column 73 follows them.
const TEXT_COLUMNS: usize = 72;

// A card with as much of this text as fits. A tab leads to column 73.
fn card(text: &str) -> [u8; CARD] {
    let mut card = [b' '; CARD];
    let mut place: usize = 0;
    for byte in text.as_bytes() {
        if *byte == b'\t' {
            place = TEXT_COLUMNS;
        } else if let Some(column) = card.get_mut(place) {
            *column = *byte;
            place = place.saturating_add(1);
        }
    }
    card
}

/// Appends a card for each line of the text, or none for an empty text. A tab leads to column 73.
pub fn append_cards(bytes: &mut Vec<u8>, text: &str) -> Result<(), Fail> {
    if text.is_empty() {
        return Ok(());
    }
    for line in text.split('\n') {
        bytes.extend_from_slice(&card(line))?;
    }
    Ok(())
}

/// A card for each line of the text.
pub fn card_file(alloc: Global, text: &str) -> Result<Vec<u8>, Fail> {
    let mut bytes = Vec::new(alloc);
    append_cards(&mut bytes, text)?;
    Ok(bytes)
}
