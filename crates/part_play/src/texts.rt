//! Numbered texts, updates and merges, as text.

use crate::row_text::RowText;
use std::alloc::Global;
use std::test::Fail;
use terms::{TextCode, TextFault};
use text80::{Line, Numbered, RECORD, TextError, Update, bytes_of, lines_of, merge};

/// How many columns of a record come before its number.
const TEXT_COLUMNS: usize = 72;

/// The name of the element that all updates change.
const ELEMENT: &[u8] = b"M1";

// The records of the file, which must all be whole.
fn whole_lines(alloc: Global, file: &[u8]) -> Result<Vec<Line>, Fail> {
    if file.len() % RECORD != 0 {
        return Err(Fail::from("the last record is not whole"));
    }
    Ok(lines_of(alloc, file)?)
}

fn print_fault(out: &mut RowText, fault: TextFault) {
    out.print_number(fault.number);
    out.print(match fault.code {
        TextCode::NoNumber => b" no number",
        TextCode::NumberOutOfOrder => b" number out of order",
        TextCode::NoChangeRecord => b" no CHANGE",
        TextCode::OtherElement => b" other element",
        TextCode::BadDelete => b" bad DELETE",
        TextCode::UpdateOutOfOrder => b" update out of order",
    });
}

/// The number of records of the text, or its fault.
pub(crate) fn text_size(alloc: Global, file: &[u8]) -> Result<RowText, Fail> {
    let mut out = RowText::new();
    match Numbered::read(whole_lines(alloc, file)?) {
        Ok(text) => out.print_number(text.lines().len()),
        Err(fault) => print_fault(&mut out, fault),
    }
    Ok(out)
}

/// The number of records of the update, or its fault.
pub(crate) fn update_size(alloc: Global, file: &[u8]) -> Result<RowText, Fail> {
    let mut out = RowText::new();
    match Update::read(alloc, whole_lines(alloc, file)?, ELEMENT) {
        Ok(update) => out.print_number(update.records().len()),
        Err(TextError::Fault(fault)) => print_fault(&mut out, fault),
        Err(TextError::Memory) => return Err(Fail::from("out of memory")),
    }
    Ok(out)
}

/// How many records a copy of the update has, and how many of them it gives.
pub(crate) fn copy_sizes(alloc: Global, file: &[u8]) -> Result<RowText, Fail> {
    let original = Update::read(alloc, whole_lines(alloc, file)?, ELEMENT)?;
    let update = original.clone()?;
    let mut out = RowText::new();
    out.print_number(update.records().len());
    out.print(b" ");
    out.print_number(update.given_records(alloc)?.lines().len());
    Ok(out)
}

/// The records of the text after the update: the columns of each before its number, without the blanks at their end,
/// and its number.
pub(crate) fn merged_text(alloc: Global, text: &[u8], update: &[u8]) -> Result<RowText, Fail> {
    let old = Numbered::read(whole_lines(alloc, text)?)?;
    let update = Update::read(alloc, whole_lines(alloc, update)?, ELEMENT)?;
    let merged = merge(alloc, &old, &update)?;
    let bytes = bytes_of(alloc, merged.lines())?;
    let mut out = RowText::new();
    for record in bytes.chunks(RECORD) {
        if let Some((columns, number)) = record.split_at_checked(TEXT_COLUMNS) {
            out.print_words(&[columns.trim_ascii_end(), number]);
        }
    }
    Ok(out)
}
