//! The CHANGE and DELETE records of an update.
ghost use Rattle.std.specs.Prelude.{◌≡◌, ◌≢◌, ◌==◌, ◌++◌, ℕ, List, not, IfSome, IfNone};
ghost use Rattle.terms.specs.Texts.{IsControl, IsChange, IsRange, IsDelete, IsSomeDelete};
ghost use Rattle.text80.specs.Cuts.{IsCut};

use crate::line::{Line, NUMBER_DIGITS, TEXT_COLUMNS, number_in};

/// The numbers that a DELETE record deletes.
#[derive(Clone, Copy, Debug, PartialEq, Eq)]
pub struct Range {
    pub low: u32,
    pub high: u32,
}

// The rest of the text after the prefix, if the text begins with the prefix.
fn text_after<'a>(text: &'a [u8], prefix: &[u8]) -> Option<&'a [u8]>
    ensures some { IfSome result (λ rest. text.now ≡ prefix.now ++ rest.now) }
    ensures none { IfNone result ((rest : List ℕ) → text.now ≢ prefix.now ++ rest) }
{
    text.strip_prefix(prefix)
}

// The leading blanks, and the rest.
#[tactic(auto, using(crate::proofs::Cuts::cut_prefix, crate::proofs::Cuts::prefix_within))]
fn split_blanks(text: &[u8]) -> (&[u8], &[u8])
    ensures { IsCut (λ b. b == 32) text.now result.0.now result.1.now }
{
    let blanks = text.iter().take_while(|b| **b == b' ').count();
    text.split_at(blanks)
}

// The bytes up to the first blank, and the rest.
#[tactic(auto, using(crate::proofs::Cuts::cut_prefix, crate::proofs::Cuts::prefix_within))]
fn split_solid(text: &[u8]) -> (&[u8], &[u8])
    ensures { IsCut (λ b. not (b == 32)) text.now result.0.now result.1.now }
{
    let solid = text.iter().take_while(|b| **b != b' ').count();
    text.split_at(solid)
}

// The word and the operand of a control record, if the record is one: `./`, a word and an operand, with blanks between
// them and nothing after them.
fn control_parts(line: &Line) -> Option<(&[u8], &[u8])>
    ensures some { IfSome result (λ found. IsControl found.0.now found.1.now line.now) }
    ensures none { IfNone result ((word operand : List ℕ) → ¬ IsControl word operand line.now) }
{
    let (front, _) = line.bytes().split_at(TEXT_COLUMNS);
    let text = text_after(front, b"./")?;
    let (gap, text) = split_blanks(text);
    let (word, text) = split_solid(text);
    let (gap2, text) = split_blanks(text);
    let (operand, text) = split_solid(text);
    let (_, end) = split_blanks(text);
    if gap.is_empty()
        || word.is_empty()
        || gap2.is_empty()
        || operand.is_empty()
        || !end.is_empty()
    {
        return None;
    }
    Some((word, operand))
}

/// The name in the record, if it is a CHANGE record.
pub(crate) fn changed_name(line: &Line) -> Option<&[u8]>
    ensures some { IfSome result (λ name. IsChange name.now line.now) }
    ensures none { IfNone result ((name : List ℕ) → ¬ IsChange name line.now) }
{
    let (word, operand) = control_parts(line)?;
    if word != b"CHANGE".as_slice() {
        return None;
    }
    text_after(operand, b"NAME=")
}

// The range in the operand of a DELETE record, if it has the form `SEQ1=..,SEQ2=..` and does not end before it begins.
fn range_in(operand: &[u8]) -> Option<Range>
    ensures some { IfSome result (λ range. IsRange operand.now range.low range.high) }
    ensures none { IfNone result ((low high : ℕ) → ¬ IsRange operand.now low high) }
{
    let text = text_after(operand, b"SEQ1=")?;
    if text.len() < NUMBER_DIGITS {
        return None;
    }
    let (from, text) = text.split_at(NUMBER_DIGITS);
    let to = text_after(text, b",SEQ2=")?;
    let low = number_in(from)?;
    let high = number_in(to)?;
    if low > high {
        return None;
    }
    Some(Range { low, high })
}

/// The range that the record deletes, if it is a DELETE record.
pub(crate) fn deleted_range(line: &Line) -> Option<Range>
    ensures some { IfSome result (λ range. IsDelete range.low range.high line.now) }
    ensures none { IfNone result (¬ IsSomeDelete line.now) }
{
    let (word, operand) = control_parts(line)?;
    if word != b"DELETE".as_slice() {
        return None;
    }
    range_in(operand)
}
