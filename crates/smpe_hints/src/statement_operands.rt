//! What is wrong with the operands of a statement.
use crate::lists::{list_hint, operand_list, repeated_operand_hint, wrong_value_hint};
use crate::places::header_before;
use crate::vocabulary::{
    is_foreign_statement_operand, is_service, is_update, meant_operand, operands_of,
    required_operands,
};
use crate::words::CardWords;
use std::alloc::{AllocError, Global};

/// The hint about the first operand of a statement that is none, or has a bad list; otherwise about what is missing.
/// The statement begins in this record of the file of this option.
pub(crate) fn statement_operand_hint(
    alloc: Global,
    option: &str,
    file: &[u8],
    record: usize,
    card_words: &CardWords,
) -> Result<Option<String>, AllocError> {
    let hint = wrong_word_hint(alloc, card_words)?;
    if hint.is_some() {
        return Ok(hint);
    }
    let hint = repeated_operand_hint(alloc, card_words.words.as_slice())?;
    if hint.is_some() {
        return Ok(hint);
    }
    let hint = list_hint(alloc, card_words)?;
    if hint.is_some() {
        return Ok(hint);
    }
    missing_hint(alloc, option, file, record, card_words)
}

// The hint about the first operand or value that is at fault by itself.
fn wrong_word_hint(alloc: Global, card_words: &CardWords) -> Result<Option<String>, AllocError> {
    let name = card_words.name();
    for word in &card_words.words {
        let operand = word.operand.as_str();
        let hint = match &word.value {
            None if operand == name => None,
            None => unknown_operand_hint(alloc, name, operand)?,
            Some(value) => wrong_value_hint(alloc, operand, value.as_str())?,
        };
        if hint.is_some() {
            return Ok(hint);
        }
    }
    Ok(None)
}

// The hint about a word that should be an operand of the statement of this name; `None` if it is one.
fn unknown_operand_hint(
    alloc: Global,
    name: &str,
    operand: &str,
) -> Result<Option<String>, AllocError> {
    let Some(operands) = operands_of(name) else {
        return Ok(None);
    };
    if operands.iter().any(|own| *own == operand) {
        return Ok(None);
    }
    let rest = instead_of_operand(alloc, name, operands, operand)?;
    let rest = rest.as_str();
    Ok(Some(format!(in alloc; "{operand} is no operand here{rest}")?))
}

// What to do about a word that is no operand of the statement, with its sign.
fn instead_of_operand(
    alloc: Global,
    name: &str,
    operands: &[&str],
    operand: &str,
) -> Result<String, AllocError> {
    if is_update(name) && matches!(operand, "DISTLIB" | "SYSLIB") {
        return String::from_str(
            alloc,
            ": an update names the element only, and smpe-intake drops the library",
        );
    }
    if is_foreign_statement_operand(operand) {
        return String::from_str(
            alloc,
            "; smpe-intake takes files as IBM writes them, and says what it drops",
        );
    }
    if let Some(meant) = meant_operand(name, operand) {
        return format!(in alloc; "; did you mean {meant}?");
    }
    let list = operand_list(alloc, operands)?;
    let list = list.as_str();
    format!(in alloc; "; {name} has {list}")
}

// The hint about what the statement lacks, or may not have.
fn missing_hint(
    alloc: Global,
    option: &str,
    file: &[u8],
    record: usize,
    card_words: &CardWords,
) -> Result<Option<String>, AllocError> {
    let name = card_words.name();
    for operand in required_operands(name) {
        if !card_words.has_operand(operand) {
            return Ok(Some(format!(in alloc; "{name} lacks {operand}")?));
        }
    }
    match name {
        "++VER" => ver_hint(alloc, file, record, card_words),
        "++IF" => Ok(Some(String::from_str(
            alloc,
            "++IF has FMID, THEN and REQ in this order, and REQ does not name the SYSMOD itself",
        )?)),
        "++HOLD" | "++RELEASE" => hold_hint(alloc, option, card_words),
        _ => Ok(None),
    }
}

// The hint about a ++VER whose words all have their forms, as the SYSMOD's header shows.
fn ver_hint(
    alloc: Global,
    file: &[u8],
    record: usize,
    card_words: &CardWords,
) -> Result<Option<String>, AllocError> {
    let header = header_before(alloc, file, record)?;
    let name = header.name();
    if let Some(id) = header.value_of(name)
        && let Some(operand) = operand_with(card_words, id)
    {
        return Ok(Some(format!(in alloc; "{operand} has {id}, which is the SYSMOD itself")?));
    }
    if !is_service(name) {
        return Ok(None);
    }
    if !card_words.has_operand("FMID") {
        return Ok(Some(format!(in alloc;
            "++VER lacks FMID: {name} is service, and belongs to a function, as FMID(HAA1100)"
        )?));
    }
    let operand = if card_words.has_operand("NPRE") {
        "NPRE"
    } else {
        "DELETE"
    };
    Ok(Some(format!(in alloc; "{operand} is for ++FUNCTION, not for {name}")?))
}

// The first operand with this value.
fn operand_with<'a>(card_words: &'a CardWords, value: &str) -> Option<&'a str> {
    for word in card_words.words.iter().skip(1) {
        if word.value.as_ref().is_some_and(|own| own.as_str() == value) {
            return Some(word.operand.as_str());
        }
    }
    None
}

// The hint about a ++HOLD or a ++RELEASE whose words all have their forms.
fn hold_hint(
    alloc: Global,
    option: &str,
    card_words: &CardWords,
) -> Result<Option<String>, AllocError> {
    let name = card_words.name();
    let has_kind = ["ERROR", "SYSTEM", "USER"]
        .iter()
        .any(|kind| card_words.has_operand(kind));
    let fault = if !has_kind {
        "lacks its kind: ERROR, SYSTEM or USER"
    } else if option == "--ptfin" {
        "is inside a SYSMOD, where only a SYSTEM hold of this SYSMOD may be: put it into the hold file"
    } else if card_words.has_operand("COMMENT") && card_words.value_of("COMMENT").is_none() {
        "has an empty COMMENT"
    } else if card_words.has_operand("ERROR") {
        "has an ERROR hold, whose REASON is the id of an APAR, as AA00001"
    } else {
        return Ok(None);
    };
    Ok(Some(format!(in alloc; "{name} {fault}")?))
}
