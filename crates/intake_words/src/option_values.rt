//! The values of the options.
ghost use Rattle.std.specs.Prelude.{◌≡◌, ◌↔◌, IsTrue, IfOk, IfErr, codes, map, option_map};
ghost use Rattle.std.specs.String.{string_bytes};
ghost use Rattle.clap.specs.Words.{all_of, first_of, found_of, rows_of};
ghost use Rattle.intake_words.specs.Asking.{IsOwn};
ghost use Rattle.intake_words.specs.Values.{AreTexts, HasFlag, HasLayout, HasOptional, HasText, code_text};

use crate::options::WordsFault;
use clap::ArgMatches;
use intake_cards::{Code, Layout};
use std::alloc::{AllocError, Global};

/// What is told if `--out` names no folder.
const NO_FOLDER: &str = "--out takes the name of a folder";

// The text of the option, or `None` if the words lack it.
fn find_text<'a>(found: &ArgMatches<'a>, id: &str) -> Option<&'a str>
    ensures { option_map (λ text. text.now) result ≡ first_of id.now (rows_of (found_of found.now)) }
{
    found.get_str(id)
}

// The texts of an option that may be repeated, or `None` if the words lack it.
fn find_texts<'a, 'b>(found: &'b ArgMatches<'a>, id: &str) -> Option<&'b [&'a str]>
    ensures { option_map (λ texts. map (λ text. text.now) texts.now) result
        ≡ all_of id.now (rows_of (found_of found.now)) }
{
    found.get_strs(id)
}

/// Whether the option has this text.
pub(crate) fn has_text(found: &ArgMatches<'_>, id: &str, wanted: &str) -> bool
    ensures { IsTrue result ↔ HasText id.now (rows_of (found_of found.now)) wanted.now }
{
    match find_text(found, id) {
        Some(text) => text == wanted,
        None => false,
    }
}

/// Whether the flag is set. `clap` gives a flag the text `true` or `false`.
pub(crate) fn has_flag(found: &ArgMatches<'_>, id: &str) -> bool
    ensures { HasFlag id.now (rows_of (found_of found.now)) result }
{
    has_text(found, id, "true")
}

/// A copy of the text of the option, which is not empty. Returns `BadOperand` if it is empty, or if the words lack the
/// option, which `clap` refuses before.
pub(crate) fn required_text(
    alloc: Global,
    found: &ArgMatches<'_>,
    id: &str,
) -> Result<String, WordsFault>
    ensures ok { IfOk result (λ text. HasText id.now (rows_of (found_of found.now)) (string_bytes text)) }
    ensures err { IfErr result IsOwn }
{
    let Some(text) = find_text(found, id) else {
        return Err(WordsFault::BadOperand(NO_FOLDER));
    };
    if text.is_empty() {
        return Err(WordsFault::BadOperand(NO_FOLDER));
    }
    Ok(String::from_str(alloc, text)?)
}

/// A copy of the text of the option, or `None` if the words lack it.
pub(crate) fn option_text(
    alloc: Global,
    found: &ArgMatches<'_>,
    id: &str,
) -> Result<Option<String>, AllocError>
    ensures { IfOk result (λ text. HasOptional id.now (rows_of (found_of found.now)) (option_map string_bytes text)) }
{
    match find_text(found, id) {
        Some(text) => Ok(Some(String::from_str(alloc, text)?)),
        None => Ok(None),
    }
}

/// Copies of the texts of the option, one for each time that the words have it.
pub(crate) fn option_texts(
    alloc: Global,
    found: &ArgMatches<'_>,
    id: &str,
) -> Result<Vec<String>, AllocError>
    ensures { IfOk result (λ texts. AreTexts (all_of id.now (rows_of (found_of found.now)))
        (map string_bytes texts.items)) }
{
    match find_texts(found, id) {
        Some(texts) => copy_texts(alloc, texts),
        None => Ok(Vec::new(alloc)),
    }
}

// Copies of the texts.
fn copy_texts(alloc: Global, texts: &[&str]) -> Result<Vec<String>, AllocError>
    ensures { IfOk result (λ copies. map string_bytes copies.items ≡ map (λ text. text.now) texts.now) }
{
    let mut copies = Vec::new(alloc);
    for text in texts {
        let copy = String::from_str(alloc, *text)?;
        copies.push(copy)?;
    }
    Ok(copies)
}

/// The layout that --text or --records asks for, or `None` without them. Returns `BadOperand` if the words have both.
pub(crate) fn layout_option(found: &ArgMatches<'_>) -> Result<Option<Layout>, WordsFault>
    ensures ok { IfOk result (HasLayout (rows_of (found_of found.now))) }
    ensures err { IfErr result IsOwn }
{
    let has_lines = has_flag(found, "text");
    let has_records = has_flag(found, "records");
    if has_lines {
        if has_records {
            return Err(WordsFault::BadOperand("--text and --records exclude each other"));
        }
        return Ok(Some(Layout::Text));
    }
    if has_records {
        return Ok(Some(Layout::Records));
    }
    Ok(None)
}

/// The code that --code asks for, or `None` without it. Returns `BadOperand` for any other text, which `clap` refuses
/// before.
pub(crate) fn code_option(found: &ArgMatches<'_>) -> Result<Option<Code>, WordsFault>
    ensures ok { IfOk result (λ code. HasOptional (codes "code") (rows_of (found_of found.now))
        (option_map code_text code)) }
    ensures err { IfErr result IsOwn }
{
    let Some(text) = find_text(found, "code") else {
        return Ok(None);
    };
    if text == "ascii" {
        Ok(Some(Code::Ascii))
    } else if text == "ibm1047" {
        Ok(Some(Code::Ibm1047))
    } else if text == "ibm037" {
        Ok(Some(Code::Ibm037))
    } else {
        Err(WordsFault::BadOperand("--code takes ascii, ibm1047 or ibm037"))
    }
}
