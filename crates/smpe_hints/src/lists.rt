//! What is wrong with the lists of a command or a statement, whichever it is.
use crate::operand::Form;
use crate::vocabulary::{
    BYPASS_MEMBERS, counterpart, is_bypass_member, is_element, is_flag, is_header, meant_member,
    operands_of,
};
use crate::words::{CardWord, CardWords};
use std::alloc::{AllocError, Global};

/// The operands with commas between them.
pub(crate) fn operand_list(alloc: Global, operands: &[&str]) -> Result<String, AllocError> {
    if operands.is_empty() {
        return String::from_str(alloc, "none");
    }
    let mut list = String::new(alloc);
    for operand in operands {
        if !list.is_empty() {
            list.push_str(", ")?;
        }
        list.push_str(operand)?;
    }
    Ok(list)
}

/// The hint about a list that has a comma too many, is empty, or has a member twice.
pub(crate) fn list_hint(
    alloc: Global,
    card_words: &CardWords,
) -> Result<Option<String>, AllocError> {
    if let Some(operand) = &card_words.gap {
        let operand = operand.as_str();
        return Ok(Some(format!(in alloc;
            "{operand} has a comma with nothing before it or after it"
        )?));
    }
    match empty_list(card_words) {
        Some(operand) => Ok(Some(format!(in alloc; "{operand} has nothing in parentheses")?)),
        None => repeated_value_hint(alloc, card_words.words.as_slice()),
    }
}

// The first word that should have a list and has none.
fn empty_list(card_words: &CardWords) -> Option<&str> {
    for word in &card_words.words {
        let operand = word.operand.as_str();
        if word.value.is_none()
            && needs_list(card_words.name(), operand)
            && card_words.value_of(operand).is_none()
        {
            return Some(operand);
        }
    }
    None
}

// Whether the word, the command's or statement's own or an operand of it, has a list.
fn needs_list(name: &str, operand: &str) -> bool {
    if operand == name {
        return is_header(name)
            || is_element(name)
            || matches!(name, "++VER" | "++HOLD" | "++RELEASE");
    }
    let is_own = operands_of(name).is_some_and(|own| own.iter().any(|other| *other == operand));
    is_own && !is_flag(operand) && operand != "COMMENT"
}

// The hint that names the first value that a list has twice.
fn repeated_value_hint(alloc: Global, words: &[CardWord]) -> Result<Option<String>, AllocError> {
    for (place, word) in words.iter().enumerate() {
        let Some(value) = &word.value else {
            continue;
        };
        let operand = word.operand.as_str();
        let value = value.as_str();
        let earlier = words.get(..place).unwrap_or(words);
        if operand != "COMMENT" && has_value(earlier, operand, value) {
            return Ok(Some(format!(in alloc; "{operand} has {value} twice")?));
        }
    }
    Ok(None)
}

/// Whether the operand has this value among these words.
pub(crate) fn has_value(words: &[CardWord], operand: &str, value: &str) -> bool {
    words.iter().any(|word| word.is_value(operand, value))
}

/// The hint that says what a value of this operand should look like; `None` if this value has that form, or if the
/// operand takes any value.
pub(crate) fn wrong_value_hint(
    alloc: Global,
    operand: &str,
    value: &str,
) -> Result<Option<String>, AllocError> {
    if operand == "BYPASS" && !is_bypass_member(value) {
        return Ok(Some(wrong_member_hint(alloc, value)?));
    }
    match value_form(operand) {
        Some(form) if !form.fits(value) => {
            let fault = form.description();
            Ok(Some(format!(in alloc; "{operand} has {value}: {fault}")?))
        }
        _ => Ok(None),
    }
}

// The hint about a word that is no member of BYPASS.
fn wrong_member_hint(alloc: Global, value: &str) -> Result<String, AllocError> {
    match counterpart(value).or(meant_member(value)) {
        Some(own) => format!(in alloc;
            "BYPASS has {value}: BYPASS has no such member; write {own}"
        ),
        None => {
            let members = operand_list(alloc, BYPASS_MEMBERS)?;
            let members = members.as_str();
            format!(in alloc; "BYPASS has {value}: BYPASS has no such member; it has {members}")
        }
    }
}

/// The hint that names the first operand or value that occurs twice; `None` if none does.
pub(crate) fn repeated_operand_hint(
    alloc: Global,
    words: &[CardWord],
) -> Result<Option<String>, AllocError> {
    for (place, word) in words.iter().enumerate().skip(1) {
        let operand = word.operand.as_str();
        let earlier = words.get(..place).unwrap_or(words);
        if word.value.is_none() && has_flag(earlier, operand) {
            return Ok(Some(format!(in alloc;
                "{operand} stands there twice: give it once, with all that belongs to it"
            )?));
        }
    }
    repeated_value_hint(alloc, words)
}

// Whether the operand is among these words, without a value.
fn has_flag(words: &[CardWord], operand: &str) -> bool {
    words.iter().any(|word| word.value.is_none() && word.operand.as_str() == operand)
}

// The form of the values of this word, which is an operand or begins a statement; `None` if they have several forms.
fn value_form(word: &str) -> Option<Form> {
    match word {
        "BDY" => Some(Form::ZoneName),
        "++VER" => Some(Form::Srel),
        "DISTLIB" | "SYSLIB" => Some(Form::Name),
        "REASON" => Some(Form::Reason),
        "CLASS" => Some(Form::Class),
        "DATE" => Some(Form::HoldDate),
        "SOURCEID" => Some(Form::Source),
        _ if is_element(word) => Some(Form::Name),
        _ if takes_ids(word) => Some(Form::Id),
        _ => None,
    }
}

// Whether the values of this word, which is an operand or begins a statement, are ids.
fn takes_ids(word: &str) -> bool {
    match word {
        // operands of commands
        "SELECT" | "EXCLUDE" | "GROUP" | "FORFMID" => true,
        // operands of statements
        "FMID" | "PRE" | "REQ" | "NPRE" | "SUP" | "DELETE" | "TO" => true,
        // statements
        "++HOLD" | "++RELEASE" => true,
        _ => is_header(word),
    }
}
