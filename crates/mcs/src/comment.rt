//! The text of a comment, without the blanks at its ends.
ghost use Rattle.std.specs.Prelude.{◌≡◌, ℕ, List, Option, All, reverse, option_map, IfOk, IfErr, IfSome, IfNone};
ghost use Rattle.std.specs.String.{string_bytes};
ghost use Rattle.terms.specs.Records.{IsPrintable};
ghost use Rattle.terms.specs.Forms.{IsTrimmed};
ghost use Rattle.terms.specs.Operands.{operand};
ghost use Rattle.terms.specs.HoldStatements.{HasComment};
ghost use Rattle.rec80.specs.Cursors.{text_of};
ghost use Rattle.rec80.specs.Views.{words_of};
ghost use Rattle.rec80.specs.Failing.{Excludes};
ghost use Rattle.mcs.specs.Trimmed.{SkipsSomeBlanks, DropsBlanks, BeginsNoBlank};

use rec80::{OperandError, Text, Word, operand};
use std::alloc::{AllocError, Global};

// A copy of the bytes of the text.
fn copy_bytes(alloc: Global, text: &Text<'_>) -> Result<Vec<u8>, AllocError>
    ensures { IfOk result (λ bytes. bytes.items ≡ text_of text.now) }
{
    let mut bytes = Vec::new(alloc);
    let mut left = *text;
    while let Some((byte, next)) = left.next_byte() {
        bytes.push(byte)?;
        left = next;
    }
    Ok(bytes)
}

// The text after its leading blanks.
#[tactic(auto, using(crate::proofs::Trimming::skips_more))]
fn skip_leading_blanks(text: &[u8]) -> &[u8]
    ensures skips { SkipsSomeBlanks text.now result.now }
    ensures dark { BeginsNoBlank result.now }
{
    let mut rest = text;
    while let Some((first, next)) = rest.split_first() {
        if *first != b' ' {
            return rest;
        }
        rest = next;
    }
    rest
}

// The text before its trailing blanks.
fn drop_trailing_blanks(text: &[u8]) -> &[u8]
    ensures drops { DropsBlanks text.now result.now }
    ensures dark { BeginsNoBlank (reverse result.now) }
{
    let mut rest = text;
    while let Some((last, front)) = rest.split_last() {
        if *last != b' ' {
            return rest;
        }
        rest = front;
    }
    rest
}

// The text without the blanks at both ends, if anything is left.
fn trim(text: &[u8]) -> Option<&[u8]>
    ensures cut { IfSome result (λ cut. IsTrimmed text.now cut.now) }
    ensures none { IfNone result ((cut : List ℕ) → IsTrimmed text.now cut → ⊥) }
{
    let cut = drop_trailing_blanks(skip_leading_blanks(text));
    if cut.is_empty() {
        return None;
    }
    Some(cut)
}

// The text of a comment without the blanks at both ends. It is bad if nothing is left, or it is not UTF-8.
fn read_comment(alloc: Global, text: &Text<'_>) -> Result<String, OperandError>
    ensures cut { IfOk result (λ comment. IsTrimmed (text_of text.now) (string_bytes comment)) }
    ensures bad { All IsPrintable (text_of text.now) → IfErr result (λ e. Excludes e ((cut : List ℕ)
        × IsTrimmed (text_of text.now) cut)) }
{
    let bytes = copy_bytes(alloc, text)?;
    let Some(cut) = trim(bytes.as_slice()) else {
        return Err(OperandError::Bad);
    };
    let Ok(comment) = std::str::from_utf8(cut) else {
        return Err(OperandError::Bad);
    };
    Ok(String::from_str(alloc, comment)?)
}

/// The text of a comment operand that may be absent. Returns `Memory` if memory runs out, and `Bad` if the operand is
/// present and its list is absent, blank or not UTF-8.
pub fn optional_comment(
    alloc: Global,
    words: &[Word<'_>],
    name: &[u8],
) -> Result<Option<String>, OperandError>
    ensures ok { IfOk result (λ comment. HasComment (operand name.now (words_of words.now))
        (option_map string_bytes comment)) }
    ensures bad { IfSome (operand name.now (words_of words.now)) (λ w. IfSome w.list (All IsPrintable))
        → IfErr result (λ e. Excludes e ((comment : Option (List ℕ))
        × HasComment (operand name.now (words_of words.now)) comment)) }
{
    let Some(word) = operand(words, name) else {
        return Ok(None);
    };
    let Some(list) = word.list else {
        return Err(OperandError::Bad);
    };
    match read_comment(alloc, &list) {
        Ok(comment) => Ok(Some(comment)),
        Err(error) => Err(error),
    }
}
