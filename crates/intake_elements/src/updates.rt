//! `./` records of updates.

use intake_cards::{Card, RemarkReason, Remarks, Subject};
use std::alloc::{AllocError, Global};
use text80::Line;

// The operand LIST of a CHANGE, before or after NAME.
const LIST_OPERAND: &[u8] = b"LIST=";

/// A `./` record of an update.
enum Control<'a> {
    /// CHANGE of the element of this name. Its other operands change nothing.
    Change(&'a [u8]),
    /// DELETE of the records with these numbers and of those between them.
    Delete { first: Number, last: Number },
    EndOfUpdate,
    /// Any other record, or one of these with a fault.
    Other,
}

/// How many digits the number of a record has.
const NUMBER_DIGITS: usize = 8;

/// The number of a record, in digits.
type Number = [u8; NUMBER_DIGITS];

// The word before the first blank, and the text that follows the blanks after it.
fn split_word(text: &[u8]) -> (&[u8], &[u8]) {
    let length = text.iter().take_while(|byte| **byte != b' ').count();
    let (word, rest) = text.split_at(length);
    let blanks = rest.iter().take_while(|byte| **byte == b' ').count();
    let (_, rest) = rest.split_at(blanks);
    (word, rest)
}

// The number, with leading zeros, or `None` if the text is not one to eight digits.
fn read_number(text: &[u8]) -> Option<Number> {
    if text.is_empty()
        || text.len() > NUMBER_DIGITS
        || !text.iter().all(|byte| byte.is_ascii_digit())
    {
        return None;
    }
    let mut number = [b'0'; NUMBER_DIGITS];
    number[NUMBER_DIGITS - text.len()..].copy_from_slice(text);
    Some(number)
}

// The value of the first operand with this keyword, as `NAME=`, in the list, or `None` if there is none.
fn operand_value<'a>(list: &'a [u8], keyword: &[u8]) -> Option<&'a [u8]> {
    list.split(|byte| *byte == b',')
        .find_map(|operand| operand.strip_prefix(keyword))
}

// Whether each operand of the list has one of the keywords.
fn has_only_operands(list: &[u8], keywords: &[&[u8]]) -> bool {
    let mut operands = list.split(|byte| *byte == b',');
    operands.all(|operand| keywords.iter().any(|keyword| operand.starts_with(keyword)))
}

// The meaning of a record that begins with `./`.
fn read_control(card: &Card) -> Control<'_> {
    let (_, rest) = split_word(card.columns());
    let (word, rest) = split_word(rest);
    let (list, _) = split_word(rest);
    match word {
        b"CHANGE" => read_change(list),
        b"DELETE" => read_delete(list),
        b"ENDUP" => Control::EndOfUpdate,
        _ => Control::Other,
    }
}

// The CHANGE that has this list of operands, or `Other` if the list is faulty.
fn read_change(list: &[u8]) -> Control<'_> {
    match operand_value(list, b"NAME=") {
        Some(name) if has_only_operands(list, &[b"NAME=", b"LIST="]) => Control::Change(name),
        _ => Control::Other,
    }
}

// The DELETE that has this list of operands, or `Other` if the list is faulty.
fn read_delete(list: &[u8]) -> Control<'_> {
    if !has_only_operands(list, &[b"SEQ1=", b"SEQ2="]) {
        return Control::Other;
    }
    let first = operand_value(list, b"SEQ1=").and_then(|text| read_number(text));
    let last = operand_value(list, b"SEQ2=").and_then(|text| read_number(text));
    match (first, last) {
        (Some(first), Some(last)) => Control::Delete { first, last },
        _ => Control::Other,
    }
}

// The record that these parts make, one after the other. It is cut at column 80.
fn record_of_parts(alloc: Global, parts: &[&[u8]]) -> Result<Line, AllocError> {
    let mut text = Vec::with_capacity(alloc, 80)?;
    for part in parts {
        text.extend_from_slice(part)?;
    }
    let mut bytes = [b' '; 80];
    for (to, from) in bytes.iter_mut().zip(text.iter()) {
        *to = *from;
    }
    Ok(Line::new(bytes))
}

/// The CHANGE record of an element.
pub(crate) fn change_record(alloc: Global, name: &[u8]) -> Result<Line, AllocError> {
    record_of_parts(alloc, &[b"./ CHANGE NAME=", name])
}

// The text of the card, without the blanks at its end, as a remark quotes it.
fn quoted_text(card: &Card) -> &[u8] {
    card.text.as_slice().trim_ascii_end()
}

// Whether the card and the record have the same columns 1 to 72.
fn has_same_columns(card: &Card, line: &Line) -> bool {
    line.bytes().starts_with(card.columns())
}

// Whether the CHANGE on the card has the operand LIST.
fn has_list_operand(card: &Card) -> bool {
    card.columns()
        .windows(LIST_OPERAND.len())
        .any(|part| part == LIST_OPERAND)
}

// Remarks that LIST is dropped, if the CHANGE on the card has it.
fn tell_dropped_list(
    alloc: Global,
    remarks: &mut Remarks,
    subject: &Subject<'_>,
    card: &Card,
) -> Result<(), AllocError> {
    if !has_list_operand(card) {
        return Ok(());
    }
    remarks.tell_dropped(
        alloc,
        subject,
        b"LIST",
        RemarkReason::NoDecision,
        quoted_text(card),
    )
}

// The DELETE record of these numbers, with a remark if the card does not have eight digits of each.
fn delete_record(
    alloc: Global,
    remarks: &mut Remarks,
    subject: &Subject<'_>,
    card: &Card,
    first: Number,
    last: Number,
) -> Result<Line, AllocError> {
    let line = record_of_parts(
        alloc,
        &[
            b"./ DELETE SEQ1=",
            first.as_slice(),
            b",SEQ2=",
            last.as_slice(),
        ],
    )?;
    if !has_same_columns(card, &line) {
        remarks.tell_carried(
            alloc,
            subject,
            b"./ DELETE",
            RemarkReason::EightDigits,
            quoted_text(card),
        )?;
    }
    Ok(line)
}

// Adds the record that a `./` card becomes, with a remark if it is changed or dropped. Returns `false`, with a remark,
// if it cannot be carried.
fn add_control_record(
    alloc: Global,
    remarks: &mut Remarks,
    subject: &Subject<'_>,
    card: &Card,
    lines: &mut Vec<Line>,
) -> Result<bool, AllocError> {
    match read_control(card) {
        Control::Change(name) => {
            lines.push(change_record(alloc, name)?)?;
            tell_dropped_list(alloc, remarks, subject, card)?;
        }
        Control::Delete { first, last } => {
            lines.push(delete_record(alloc, remarks, subject, card, first, last)?)?;
        }
        Control::EndOfUpdate => {
            remarks.tell_dropped(alloc, subject, b"./ ENDUP", RemarkReason::EndOfUpdate, b"")?;
        }
        Control::Other => {
            remarks.tell_left_out(
                alloc,
                subject,
                b"./",
                RemarkReason::BadText,
                quoted_text(card),
            )?;
            return Ok(false);
        }
    }
    Ok(true)
}

/// The records of an update in the form of the profile. Returns `None`, with a remark, if one cannot be carried.
pub(crate) fn update_lines(
    alloc: Global,
    remarks: &mut Remarks,
    subject: &Subject<'_>,
    cards: &[Card],
) -> Result<Option<Vec<Line>>, AllocError> {
    if !cards.iter().all(|card| card.is_printable()) {
        remarks.tell_left_out(alloc, subject, b"", RemarkReason::NoAscii, b"")?;
        return Ok(None);
    }
    let mut lines = Vec::with_capacity(alloc, cards.len())?;
    for card in cards {
        if !card.text.starts_with(b"./") {
            lines.push(Line::new(card.text))?;
        } else if !add_control_record(alloc, remarks, subject, card, &mut lines)? {
            return Ok(None);
        }
    }
    Ok(Some(lines))
}
