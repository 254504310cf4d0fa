//! Operands of a command, as text.

use crate::row_text::RowText;
use fields::{Source, ZoneName};
use rec80::{Record, Records, Word, flag, ids, ids_in_file_order, one, operand, records, rising};
use std::alloc::Global;
use std::test::Fail;

// The operand of this name in the first command.
fn operand_in<'a>(alloc: Global, cards: &'a [Record], name: &[u8]) -> Option<Word<'a>> {
    let mut commands = Records { all: cards }.commands();
    let command = commands.next_command().ok()??;
    let operands = command.words.operands(alloc).ok()?;
    operand(operands.only()?, name)
}

/// Whether the file's first command has the operand, and what its list is read as: ids in rising order, the number of
/// ids in the order of the file, sources, and the name of a zone. What the list cannot be read as is left out.
pub(crate) fn operand_text(alloc: Global, file: &[u8], name: &[u8]) -> Result<RowText, Fail> {
    let mut out = RowText::new();
    let found = operand_in(alloc, records(file)?.all, name);
    out.print(match flag(&found) {
        Ok(true) => b"there",
        Ok(false) => b"none ",
        Err(_) => b"list ",
    });
    if let Some(word) = found {
        print_ids(alloc, &mut out, &word);
        print_sources(alloc, &mut out, &word);
        if let Some(zone) = one::<ZoneName>(&word) {
            out.print_words(&[b"zone", zone.as_bytes()]);
        }
    }
    Ok(out)
}

// Appends the operand's ids in rising order, and how many ids it has in the order of the file.
fn print_ids(alloc: Global, out: &mut RowText, word: &Word<'_>) {
    if let Ok(list) = ids(alloc, word) {
        out.print_id_list(b"ids", &list);
    }
    if let Ok(list) = ids_in_file_order(alloc, word) {
        out.print(b" listed ");
        out.print_number(list.len());
    }
}

// Appends the operand's sources.
fn print_sources(alloc: Global, out: &mut RowText, word: &Word<'_>) {
    if let Ok(list) = rising::<Source>(alloc, word) {
        for source in list.iter() {
            out.print_words(&[source.as_bytes()]);
        }
    }
}
