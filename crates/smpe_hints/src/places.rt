//! What is wrong with the place of a statement.
use crate::card::{RECORD, is_blank, record_bytes};
use crate::vocabulary::{is_command, is_element, is_header, is_statement, is_update};
use crate::words::CardWords;
use std::alloc::{AllocError, Global};

/// The hint about a statement that stands where it may not, or that something follows. It begins in this record of the
/// file of this option.
pub(crate) fn place_hint(
    alloc: Global,
    option: &str,
    file: &[u8],
    record: usize,
    card_words: &CardWords,
) -> Result<String, AllocError> {
    if !record_bytes(file, record).starts_with(b"++") {
        return no_statement_hint(alloc, file, record, card_words.name());
    }
    if let Some(hint) = extra_card_hint(alloc, file, record, card_words)? {
        return Ok(hint);
    }
    if is_exchanged(option, record, card_words.name()) {
        return exchanged_hint(alloc, card_words.name(), option);
    }
    order_hint(alloc, file, record, card_words.name())
}

// Whether the statement belongs into the other one of PTFIN and the hold file.
fn is_exchanged(option: &str, record: usize, name: &str) -> bool {
    match name {
        _ if option == "--hold" => true,
        "++RELEASE" => true,
        "++HOLD" => record == 1,
        _ => false,
    }
}

// The hint about a statement that belongs into the other file.
fn exchanged_hint(alloc: Global, name: &str, option: &str) -> Result<String, AllocError> {
    format!(in alloc;
        "{name} is no statement of the file of {option}: did you exchange --ptfin and --hold?"
    )
}

// The hint about the first card of a file, which begins no statement.
fn no_statement_hint(
    alloc: Global,
    file: &[u8],
    record: usize,
    name: &str,
) -> Result<String, AllocError> {
    let card = record_bytes(file, record);
    if is_blank(card) {
        return format!(in alloc; "record {record} is blank; smpe-intake takes such files");
    }
    if is_command(name) {
        return format!(in alloc;
            "{name} is a command and no statement: did you exchange --cntl and --ptfin?"
        );
    }
    if is_statement(name) {
        return format!(in alloc; "{name} does not begin in column 1");
    }
    let fault = if card.starts_with(b"//") {
        "a card of JCL is no statement: remove it"
    } else if card.trim_ascii_start().starts_with(b"/*") {
        "a comment before the first statement: smpe-intake takes such files"
    } else {
        "the file does not begin with a statement, as ++PTF, in column 1"
    };
    String::from_str(alloc, fault)
}

// The hint about a card that follows a statement which has no text.
fn extra_card_hint(
    alloc: Global,
    file: &[u8],
    record: usize,
    card_words: &CardWords,
) -> Result<Option<String>, AllocError> {
    let extra = record.saturating_add(card_words.card_count);
    let card = record_bytes(file, extra);
    if card.is_empty() || card.starts_with(b"++") || is_element(card_words.name()) {
        return Ok(None);
    }
    let fault = if is_blank(card) {
        "is blank"
    } else if card.trim_ascii_start().starts_with(b"/*") {
        "is a comment on a card of its own"
    } else if card.starts_with(b"//") {
        "is a card of JCL"
    } else {
        "belongs to no statement"
    };
    Ok(Some(format!(in alloc;
        "record {extra} after it {fault}: remove it, or let smpe-intake take the file"
    )?))
}

// The hint about a statement of PTFIN that is not in order.
fn order_hint(alloc: Global, file: &[u8], record: usize, name: &str) -> Result<String, AllocError> {
    if is_header(name) {
        return format!(in alloc; "{name} has no ++VER after it: is the file cut off?");
    }
    let before = name_before(alloc, file, record)?;
    let before = before.as_str();
    if before.is_empty() {
        return format!(in alloc; "{name} has no header before it, as ++PTF(UA00001).");
    }
    if is_update(name) && header_before(alloc, file, record)?.name() == "++FUNCTION" {
        return format!(in alloc;
            "{name} may not be in a ++FUNCTION: a function has whole elements"
        );
    }
    if rank(before) > rank(name) {
        return format!(in alloc;
            "{name} stands after {before}: first comes each ++VER with its ++IFs, then ++HOLDs, then elements"
        );
    }
    repetition_hint(alloc, name, before)
}

// The hint about a statement that comes after this one in order, and may not be there once more.
fn repetition_hint(alloc: Global, name: &str, before: &str) -> Result<String, AllocError> {
    if name == "++VER" {
        return String::from_str(
            alloc,
            "++VER is the second for one SREL and FMID, or in a ++FUNCTION for one SREL",
        );
    }
    if is_element(name) && !is_header(before) {
        return format!(in alloc; "{name} is the second statement for this element in its SYSMOD");
    }
    format!(in alloc; "{name} may not stand after {before}")
}

// The place of a statement among those of a SYSMOD.
fn rank(name: &str) -> u8 {
    match name {
        "++VER" | "++IF" => 1,
        "++HOLD" => 2,
        _ if is_element(name) => 3,
        _ => 0,
    }
}

// The word of the last statement before the record; no text if there is none.
fn name_before(alloc: Global, file: &[u8], record: usize) -> Result<String, AllocError> {
    match last_statement_before(file, record, false) {
        Some(place) => {
            let card_words = CardWords::read_statement(alloc, file, place)?;
            String::from_str(alloc, card_words.name())
        }
        None => Ok(String::new(alloc)),
    }
}

/// The words of the last header before the record; no words if there is none.
pub(crate) fn header_before(
    alloc: Global,
    file: &[u8],
    record: usize,
) -> Result<CardWords, AllocError> {
    match last_statement_before(file, record, true) {
        Some(place) => CardWords::read_statement(alloc, file, place),
        None => Ok(CardWords::new(alloc)),
    }
}

// The last record before this one in which a statement begins, or a header if only these count; counted from 1.
fn last_statement_before(file: &[u8], record: usize, is_for_header: bool) -> Option<usize> {
    let mut last = None;
    for (count, card) in file
        .chunks(RECORD)
        .take(record.saturating_sub(1))
        .enumerate()
    {
        if card.starts_with(b"++") && (!is_for_header || begins_header(card)) {
            last = count.checked_add(1);
        }
    }
    last
}

// Whether the card begins a SYSMOD.
fn begins_header(card: &[u8]) -> bool {
    card.starts_with(b"++FUNCTION")
        || card.starts_with(b"++PTF")
        || card.starts_with(b"++APAR")
        || card.starts_with(b"++USERMOD")
}
