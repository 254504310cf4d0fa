//! The lines of a text, and the words of a line.
ghost use Rattle.std.specs.Prelude.{◌≡◌, IfOk, OnOk, map, ◌++◌};
ghost use Rattle.std.specs.List.{list_all};
ghost use Rattle.intake_list.specs.Rows.{is_gap, words_in, lines_in, word_at, indent, is_name_byte, is_name};

use std::alloc::{AllocError, Global};

// Whether the character separates words.
fn is_gap(byte: u8) -> bool
    ensures { result ≡ is_gap byte }
{
    byte == b' ' || byte == b'\t' || byte == b'\r' || byte == b',' || byte == b'(' || byte == b')'
}

/// The lines of the text.
pub(crate) fn lines_in(alloc: Global, text: &[u8]) -> Result<Vec<&[u8]>, AllocError>
    ensures { IfOk result (λ lines. map (λ line. line.now) lines.items ≡ lines_in text.now) }
{
    text.split(|byte| *byte == b'\n').collect(alloc)
}

/// The words of the line.
pub(crate) fn words_in(alloc: Global, line: &[u8]) -> Result<Vec<&[u8]>, AllocError>
    ensures { IfOk result (λ words. map (λ word. word.now) words.items ≡ words_in line.now) }
{
    line.split(|byte| is_gap(*byte))
        .filter(|word| !word.is_empty())
        .collect(alloc)
}

/// The word at the place, or no text if there are fewer words.
pub(crate) fn word_at<'a>(words: &[&'a [u8]], at: usize) -> &'a [u8]
    ensures { result.now ≡ word_at (map (λ word. word.now) words.now) at }
{
    match words.get(at) {
        Some(word) => *word,
        None => b"",
    }
}

/// Adds words to the others.
pub(crate) fn add_words<'a>(words: &mut Vec<&'a [u8]>, more: &[&'a [u8]]) -> Result<(), AllocError>
    ensures { OnOk result (map (λ word. word.now) words.new.items
        ≡ map (λ word. word.now) words.old.items ++ map (λ word. word.now) more.now) }
{
    for word in more {
        words.push(*word)?;
    }
    Ok(())
}

/// How many characters precede the first word.
pub(crate) fn indent(line: &[u8]) -> usize
    ensures { result ≡ indent line.now }
{
    line.iter().take_while(|byte| is_gap(**byte)).count()
}

// Whether a name may have the character.
fn is_name_byte(byte: u8) -> bool
    ensures { result ≡ is_name_byte byte }
{
    (b'A' <= byte && byte <= b'Z')
        || (b'0' <= byte && byte <= b'9')
        || byte == b'$'
        || byte == b'#'
        || byte == b'@'
}

// Whether a name may have each of the characters.
fn are_name_bytes(word: &[u8]) -> bool
    ensures { result ≡ list_all is_name_byte word.now }
{
    word.iter().all(|byte| is_name_byte(*byte))
}

/// Whether the word is a name.
pub(crate) fn is_name(word: &[u8]) -> bool
    ensures { result ≡ is_name word.now }
{
    word.len() > 0 && word.len() < 9 && are_name_bytes(word)
}
