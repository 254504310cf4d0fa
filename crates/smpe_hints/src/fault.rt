//! What is wrong with a card, as far as that shows without the grammar.
use crate::card::record_bytes;
use crate::command_operands::{command_operand_hint, command_word_hint};
use crate::lists::repeated_operand_hint;
use crate::places::place_hint;
use crate::statement_operands::statement_operand_hint;
use crate::texts::text_hint;
use crate::vocabulary::{
    is_foreign_command, is_foreign_statement, is_statement, meant_command, meant_statement,
};
use crate::words::CardWords;
use std::alloc::{AllocError, Global};

/// What is wrong with the command that begins in the record: the word at fault, if that shows, otherwise what the code
/// says of the whole command.
pub fn command_fault(
    alloc: Global,
    file: &[u8],
    record: usize,
    code: &str,
) -> Result<String, AllocError> {
    let card_words = CardWords::read_command(alloc, file, record)?;
    if record_bytes(file, record).starts_with(b"//") {
        return String::from_str(alloc, "a card of JCL is no command: remove it");
    }
    let name = card_words.name();
    let hint = match code {
        "Cn1" => unknown_command_hint(alloc, name)?,
        "Cn2" => command_operand_hint(alloc, &card_words)?,
        "Cn3" => repeated_operand_hint(alloc, card_words.words.as_slice())?,
        "Cn4" => command_word_hint(alloc, &card_words)?,
        "Cn5" => form_hint(alloc, &card_words)?,
        _ => None,
    };
    hint_or_code(alloc, hint, name, code)
}

/// What is wrong with the statement that begins in the record, of the file of this option, in the same way.
pub fn statement_fault(
    alloc: Global,
    option: &str,
    file: &[u8],
    record: usize,
    code: &str,
) -> Result<String, AllocError> {
    let card_words = CardWords::read_statement(alloc, file, record)?;
    let name = card_words.name();
    let hint = match code {
        "Mc1" => form_hint(alloc, &card_words)?,
        "Mc2" => unknown_statement_hint(alloc, name)?,
        "Mc3" => statement_operand_hint(alloc, option, file, record, &card_words)?,
        "Mc4" => Some(place_hint(alloc, option, file, record, &card_words)?),
        "Mc5" => text_hint(alloc, file, record, &card_words)?,
        "Mc6" if card_words.has_operand("COMMENT") => Some(String::from_str(
            alloc,
            "a COMMENT has at most 200 characters; smpe-intake shortens it",
        )?),
        _ => None,
    };
    hint_or_code(alloc, hint, name, code)
}

// The hint, or what the code says of the command or statement of this name.
fn hint_or_code(
    alloc: Global,
    hint: Option<String>,
    name: &str,
    code: &str,
) -> Result<String, AllocError> {
    if let Some(hint) = hint {
        return Ok(hint);
    }
    let name = if name.is_empty() { "the card" } else { name };
    let fault = fault_of_code(code);
    format!(in alloc; "{name} {fault}")
}

// What a code says of a command or a statement, after its name.
fn fault_of_code(code: &str) -> &'static str {
    match code {
        "Cn1" => "is no command; SET, RECEIVE, REJECT, APPLY, ACCEPT, RESTORE, LIST and REPORT are",
        "Cn2" => "has no operand, or one that has not its form",
        "Cn3" => "has a member twice",
        "Cn4" => "takes just one of SELECT and GROUP",
        "Cn5" =>
            "has no whole form: a period, a parenthesis, the end of a comment or of a record is missing",
        "Mc1" => "has no whole form: a period, a parenthesis or the end of a comment is missing",
        "Mc2" => "is no statement that smpe takes",
        "Mc3" => "lacks an operand, or has one that has not its form",
        "Mc4" => "stands where it may not, or something follows it that may not",
        "Mc5" => "has a text that is at fault further down",
        "Mc6" =>
            "goes beyond a limit: 1,000 ids in a list, 8 ++VERs, 100 ++IFs for each, 999 elements",
        _ => "is at fault",
    }
}

// The hint about a word that is no command.
fn unknown_command_hint(alloc: Global, name: &str) -> Result<Option<String>, AllocError> {
    if is_statement(name) || name.starts_with("++") {
        return Ok(Some(format!(in alloc;
            "{name} is a statement and no command: did you exchange --cntl and --ptfin?"
        )?));
    }
    if is_foreign_command(name) {
        return Ok(Some(format!(in alloc;
            "{name} is a command of SMP/E that smpe does not have; smpe-intake --cntl drops it or says what to do"
        )?));
    }
    match meant_command(name) {
        Some(meant) => Ok(Some(format!(in alloc; "{name} is no command; did you mean {meant}?")?)),
        None => Ok(None),
    }
}

// The hint about a word that is no statement.
fn unknown_statement_hint(alloc: Global, name: &str) -> Result<Option<String>, AllocError> {
    if name == "++" {
        return Ok(Some(String::from_str(alloc, "no blank may follow ++, as in ++VER")?));
    }
    if is_foreign_statement(name) {
        return Ok(Some(format!(in alloc;
            "{name} is a statement of SMP/E that smpe does not take; smpe-intake leaves only such SYSMODs out"
        )?));
    }
    match meant_statement(name) {
        Some(meant) => Ok(Some(format!(in alloc;
            "{name} is no statement; did you mean {meant}?"
        )?)),
        None => Ok(None),
    }
}

// What is wrong with the form of a command or a statement.
fn form_hint(alloc: Global, card_words: &CardWords) -> Result<Option<String>, AllocError> {
    let fault = if card_words.is_comment {
        "has a comment that is not closed: */ is missing"
    } else if card_words.closes_none {
        "has a ) without its ("
    } else if card_words.is_too_deep {
        "has parentheses three deep; smpe-intake takes such COMMENTs and writes brackets"
    } else if card_words.depth > 0 {
        "has a ( without its ), or a comment inside parentheses"
    } else if !card_words.is_done {
        "has no period at its end, in columns 1 to 72"
    } else if card_words.has_rest {
        "has something after its period on the same card: put that on a card of its own"
    } else {
        return Ok(None);
    };
    let name = card_words.name();
    Ok(Some(format!(in alloc; "{name} {fault}")?))
}
