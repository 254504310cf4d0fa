//! The texts of elements.
ghost use Rattle.std.specs.Prelude.{
  ◌≡◌,
  ◌⊎◌,
  ◌<◌,
  ◌≤◌,
  IfOk,
  IfSome,
  IfNone,
  IsTrue,
  All,
  true,
  length,
  take,
  drop,
};
ghost use Rattle.terms.specs.Beside.{Beside};
ghost use Rattle.terms.specs.Texts.{IsNumbered, IsReplacement};
ghost use Rattle.intake_elements.specs.ElementTexts.{are_blanks, is_unnumbered, is_blank, IsRecordOf, HasBlankEnd};

use intake_cards::Card;
use std::alloc::{AllocError, Global};
use terms::ElemType;
use text80::{Line, Numbered};

/// The most records that a text may have.
pub(crate) const MOST_RECORDS: usize = 99999;

/// How many columns of a record come before its number.
pub(crate) const TEXT_COLUMNS: usize = 72;

/// The first number of a text that is numbered here, and the difference between two numbers.
const STEP: u32 = 100;

// Columns 1 to 72 of a record.
fn columns_of(bytes: &[u8]) -> &[u8]
    requires { 72 ≤ length bytes.now }
    ensures { result.now ≡ take 72 bytes.now }
{
    let (columns, _) = bytes.split_at(TEXT_COLUMNS);
    columns
}

// Columns 73 to 80 of a record.
fn number_columns_of(bytes: &[u8]) -> &[u8]
    requires { 72 ≤ length bytes.now }
    ensures { result.now ≡ drop 72 bytes.now }
{
    let (_, number) = bytes.split_at(TEXT_COLUMNS);
    number
}

// Whether the bytes are blanks.
fn are_blanks(bytes: &[u8]) -> bool
    ensures { result ≡ are_blanks bytes.now }
{
    bytes.iter().all(|byte| *byte == b' ')
}

// Whether columns 73 to 80 are blank.
fn has_no_number(card: &Card) -> bool
    ensures { result ≡ is_unnumbered card.now }
{
    are_blanks(number_columns_of(card.text.as_slice()))
}

// Whether all columns are blank.
fn is_blank(card: &Card) -> bool
    ensures { result ≡ is_blank card.now }
{
    are_blanks(card.text.as_slice())
}

// Whether columns 1 to 72 of the record are those of the card.
fn has_same_columns(card: &Card, line: &Line) -> bool
    ensures { IsTrue result → take 72 line.now ≡ take 72 card.now.text }
{
    columns_of(line.bytes()) == columns_of(card.text.as_slice())
}

// Whether the record is the card.
fn has_same_bytes(card: &Card, line: &Line) -> bool
    ensures { IsTrue result → line.now ≡ card.now.text }
{
    line.bytes() == card.text.as_slice()
}

// Whether the card has no number, or the record is the card.
fn keeps_number(card: &Card, line: &Line) -> bool
    ensures { IsTrue result → (is_unnumbered card.now ≡ true) ⊎ (line.now ≡ card.now.text) }
{
    has_no_number(card) || has_same_bytes(card, line)
}

// Whether the record says what the card says: it has the same columns 1 to 72, and the card's number, if that has one.
fn is_record_of(card: &Card, line: &Line) -> bool
    ensures { IsTrue result → IsRecordOf card.now line.now }
{
    has_same_columns(card, line) && keeps_number(card, line)
}

// How many cards there are up to the last one that is not blank.
fn count_without_blank_end(cards: &[Card]) -> usize {
    match cards.iter().rposition(|card| !card.is_blank()) {
        Some(last) => last.saturating_add(1),
        None => 0,
    }
}

// The first card that is not blank, or `None` if all are.
fn first_not_blank(cards: &[Card]) -> Option<&Card>
    ensures { IfNone result (All (λ c. is_blank c ≡ true) cards.now) }
{
    cards.iter().find(|card| !is_blank(card))
}

// The first cards, as many as these, if the others are blank, or else all.
fn front_if_rest_blank(cards: &[Card], count: usize) -> &[Card]
    ensures { HasBlankEnd cards.now result.now }
{
    let Some((front, rest)) = cards.split_at_checked(count) else {
        return cards;
    };
    let Some(_) = first_not_blank(rest) else {
        return front;
    };
    cards
}

/// The cards without the blank ones at their end.
pub(crate) fn without_blank_cards_at_end(cards: &[Card]) -> &[Card]
    ensures { HasBlankEnd cards.now result.now }
{
    front_if_rest_blank(cards, count_without_blank_end(cards))
}

// Whether blank cards at the end are part of a text of the type: it has no numbers, or none of the cards has one.
fn keeps_blank_end(elem_type: ElemType, cards: &[Card]) -> bool {
    !elem_type.is_numbered() || needs_numbers(elem_type, cards)
}

/// The cards, without the blank ones at their end if texts of the type have numbers and one of the cards has one.
pub(crate) fn without_blank_end_if_numbered(elem_type: ElemType, cards: &[Card]) -> &[Card]
    ensures { HasBlankEnd cards.now result.now }
{
    if keeps_blank_end(elem_type, cards) {
        return cards;
    }
    without_blank_cards_at_end(cards)
}

/// The first card whose columns 73 to 80 are not eight digits, or not a number that is higher than that of the card
/// before. Returns `None` if all cards are in order.
pub(crate) fn first_misnumbered(cards: &[Card]) -> Option<&Card> {
    let mut previous = [b' '; 8];
    for card in cards {
        let number = card.number_columns();
        if !number.iter().all(|byte| byte.is_ascii_digit()) || number <= previous {
            return Some(card);
        }
        previous = number;
    }
    None
}

// The card as a record with this number in columns 73 to 80.
fn with_number(card: &Card, number: u32) -> Line {
    let mut bytes = card.text;
    let mut rest = number;
    for column in bytes[TEXT_COLUMNS..].iter_mut().rev() {
        *column = b'0' + (rest % 10) as u8;
        rest /= 10;
    }
    Line::new(bytes)
}

// The card as a record, with this number in columns 73 to 80 if it gets one.
fn record_of(card: &Card, gets_number: bool, number: u32) -> Line {
    if gets_number {
        with_number(card, number)
    } else {
        Line::new(card.text)
    }
}

// The cards as records, with the numbers 00000100, 00000200 and so on in columns 73 to 80 if they get some. Returns
// `None` if a record says something else than its card.
fn record_lines(
    alloc: Global,
    cards: &[Card],
    get_numbers: bool,
) -> Result<Option<Vec<Line>>, AllocError>
    ensures { IfOk result (λ found. IfSome found (λ lines. Beside (λ _. IsRecordOf) cards.now lines.items)) }
{
    let mut lines = Vec::with_capacity(alloc, cards.len())?;
    let mut number = 0u32;
    for card in cards {
        number = number.saturating_add(STEP);
        let line = record_of(card, get_numbers, number);
        if !is_record_of(card, &line) {
            return Ok(None);
        }
        lines.push(line)?;
    }
    Ok(Some(lines))
}

// The records as a numbered text, or `None` if there are none, or if their numbers do not rise.
fn read_numbered_text(lines: Vec<Line>) -> Option<Vec<Line>>
    ensures numbered { IfSome result (λ text. IsNumbered text.items × (0 < length text.items)) }
    ensures same { IfSome result (λ text. text.items ≡ lines.items) }
{
    if lines.is_empty() {
        return None;
    }
    match Numbered::read(lines) {
        Ok(numbered) => Some(numbered.into_lines()),
        Err(_) => None,
    }
}

/// Whether the cards have no numbers although a text of the type has them.
pub(crate) fn needs_numbers(elem_type: ElemType, cards: &[Card]) -> bool {
    elem_type.is_numbered() && cards.iter().all(has_no_number)
}

// The records as the text of a replacement of this type, or `None` if there are none, or if their numbers do not rise.
fn replacement_of_lines(elem_type: ElemType, lines: Vec<Line>) -> Option<Vec<Line>>
    ensures replacement { IfSome result (λ text. IsReplacement elem_type text.items) }
    ensures same { IfSome result (λ text. text.items ≡ lines.items) }
{
    if lines.is_empty() {
        return None;
    }
    if elem_type.is_numbered() {
        return read_numbered_text(lines);
    }
    Some(lines)
}

/// The cards as the text of a replacement of this type, or `None` if there are none, or if their numbers do not rise.
pub(crate) fn replacement_text(
    alloc: Global,
    elem_type: ElemType,
    cards: &[Card],
) -> Result<Option<Vec<Line>>, AllocError>
    ensures replacement { IfOk result (λ found. IfSome found (λ lines. IsReplacement elem_type lines.items)) }
    ensures records { IfOk result (λ found. IfSome found (λ lines. Beside (λ _. IsRecordOf) cards.now lines.items)) }
{
    let get_numbers = needs_numbers(elem_type, cards);
    let Some(lines) = record_lines(alloc, cards, get_numbers)? else {
        return Ok(None);
    };
    Ok(replacement_of_lines(elem_type, lines))
}
