//! What is wrong with the text of an element.
use crate::card::{RECORD, card_number, record_bytes};
use crate::vocabulary::is_update;
use crate::words::CardWords;
use std::alloc::{AllocError, Global};

/// The hint about the text after the statement of an element, which begins in this record; `None` if no card shows a
/// fault.
pub(crate) fn text_hint(
    alloc: Global,
    file: &[u8],
    record: usize,
    card_words: &CardWords,
) -> Result<Option<String>, AllocError> {
    let name = card_words.name();
    let first = record.saturating_add(card_words.card_count);
    let card = record_bytes(file, first);
    if card.is_empty() || card.starts_with(b"++") {
        return Ok(Some(format!(in alloc; "{name} has no text after it")?));
    }
    if is_update(name) && !card.starts_with(b"./") {
        return Ok(Some(format!(in alloc;
            "record {first} after it should be ./ CHANGE NAME=, with the name of the element"
        )?));
    }
    let rest = if is_update(name) {
        first.saturating_add(1)
    } else {
        first
    };
    match bad_text_card(file, rest, is_update(name)) {
        Some((place, fault)) => Ok(Some(format!(in alloc; "record {place} of its text {fault}")?)),
        None => Ok(None),
    }
}

// The first card at fault of a text that goes on in this record, and what is wrong with it.
fn bad_text_card(file: &[u8], first: usize, is_update: bool) -> Option<(usize, &'static str)> {
    let mut last = 0usize;
    for (count, card) in file
        .chunks(RECORD)
        .skip(first.saturating_sub(1))
        .enumerate()
    {
        let place = first.saturating_add(count);
        if card.starts_with(b"++") {
            return None;
        }
        if is_update && card.starts_with(b"./") {
            if !card.starts_with(b"./ DELETE") {
                return Some((
                    place,
                    "has another word than DELETE; smpe-intake drops ./ ENDUP",
                ));
            }
            continue;
        }
        match card_number(card) {
            Some(number) if number > last => last = number,
            Some(_) => {
                return Some((
                    place,
                    "has a number that is not above the one before, in columns 73 to 80",
                ));
            }
            None => {
                return Some((
                    place,
                    "has no number of eight digits in columns 73 to 80; smpe-intake numbers texts",
                ));
            }
        }
    }
    None
}
