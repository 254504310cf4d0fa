//! What is wrong with the operands of a command.
use crate::lists::{has_value, list_hint, operand_list, wrong_value_hint};
use crate::vocabulary::{counterpart, is_command, is_foreign_operand, meant_operand, operands_of};
use crate::words::CardWords;
use std::alloc::{AllocError, Global};

/// The hint about the first operand that is none of the command's, or has a bad list; otherwise about what is missing.
pub(crate) fn command_operand_hint(
    alloc: Global,
    card_words: &CardWords,
) -> Result<Option<String>, AllocError> {
    let hint = command_word_hint(alloc, card_words)?;
    if hint.is_some() {
        return Ok(hint);
    }
    let hint = list_hint(alloc, card_words)?;
    if hint.is_some() {
        return Ok(hint);
    }
    match missing_operand(card_words) {
        Some(missing) => Ok(Some(String::from_str(alloc, missing)?)),
        None => Ok(None),
    }
}

/// The hint about the first operand or value that is at fault by itself.
pub(crate) fn command_word_hint(
    alloc: Global,
    card_words: &CardWords,
) -> Result<Option<String>, AllocError> {
    for word in card_words.words.iter().skip(1) {
        let operand = word.operand.as_str();
        let hint = match &word.value {
            None => unknown_operand_hint(alloc, card_words.name(), operand)?,
            Some(value) => wrong_value_hint(alloc, operand, value.as_str())?,
        };
        if hint.is_some() {
            return Ok(hint);
        }
    }
    Ok(None)
}

// What the command lacks, or may not have.
fn missing_operand(card_words: &CardWords) -> Option<&'static str> {
    match card_words.name() {
        "SET" if !card_words.has_operand("BDY") => {
            Some("SET has no operand: it names a zone, as SET BDY(TGT1)")
        }
        "REJECT" if !card_words.has_operand("SELECT") => {
            Some("REJECT names SYSMODs, as REJECT SELECT(UA00001)")
        }
        "REPORT" => Some("REPORT has no operand but ERRSYSMODS: REPORT ERRSYSMODS"),
        "APPLY" if has_value(card_words.words.as_slice(), "BYPASS", "APPLYCHECK") => {
            Some("BYPASS(APPLYCHECK) is for ACCEPT, not for APPLY")
        }
        _ => None,
    }
}

// The hint about a word that should be an operand of the command of this name; `None` if it is one.
fn unknown_operand_hint(
    alloc: Global,
    name: &str,
    operand: &str,
) -> Result<Option<String>, AllocError> {
    let Some(operands) = operands_of(name) else {
        return Ok(None);
    };
    if has_word(operands, operand) {
        return Ok(None);
    }
    if is_command(operand) && operand != "LIST" {
        return Ok(Some(format!(in alloc;
            "{operand} is a command and no operand: {name} has no period before it"
        )?));
    }
    let rest = instead_of_operand(alloc, name, operands, operand)?;
    let rest = rest.as_str();
    Ok(Some(format!(in alloc; "{operand} is no operand here; {rest}")?))
}

// What to write in place of a word that is no operand of the command.
fn instead_of_operand(
    alloc: Global,
    name: &str,
    operands: &[&str],
    operand: &str,
) -> Result<String, AllocError> {
    if let Some(own) = counterpart(operand)
        && has_word(operands, own)
    {
        return format!(in alloc; "write {own}");
    }
    if let Some(meant) = meant_operand(name, operand) {
        return format!(in alloc; "did you mean {meant}?");
    }
    if is_foreign_operand(operand) {
        return String::from_str(
            alloc,
            "smpe-intake --cntl takes a shop's commands, and drops it or says what to do",
        );
    }
    let list = operand_list(alloc, operands)?;
    let list = list.as_str();
    format!(in alloc; "{name} has {list}")
}

// Whether the word is one of these.
fn has_word(words: &[&str], word: &str) -> bool {
    words.iter().any(|own| *own == word)
}
