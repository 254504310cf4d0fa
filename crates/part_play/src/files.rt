//! Files: what is read from them, as a whole and cut at each byte.

use crate::commands::commands_text;
use crate::holds::hold_file_text;
use crate::ptfin::ptfin_text;
use crate::row_text::RowText;
use crate::texts::{copy_sizes, text_size, update_size};
use crate::words::{group_sizes, lines_of_list, pieces_of, statement_text, words_of_commands};
use rec80::records;
use std::alloc::Global;
use std::test::Fail;

/// What the reader with this name reads from the file.
pub(crate) fn read_file(alloc: Global, reader: &str, file: &[u8]) -> Result<RowText, Fail> {
    match reader.as_bytes() {
        b"COMMANDS" => Ok(commands_text(alloc, file)),
        b"PTFIN" => Ok(ptfin_text(alloc, file)),
        b"HOLD" => Ok(hold_file_text(alloc, file)),
        b"TEXT" => text_size(alloc, file),
        b"UPDATE" => update_size(alloc, file),
        b"COPY" => copy_sizes(alloc, file),
        _ => read_records(reader, file),
    }
}

// What the reader with this name reads from the file's records.
fn read_records(reader: &str, file: &[u8]) -> Result<RowText, Fail> {
    let found = records(file)?;
    match reader.as_bytes() {
        b"STATEMENT" => Ok(statement_text(found)),
        b"GROUPS" => Ok(group_sizes(found)),
        b"WORDS" => Ok(words_of_commands(found)),
        b"PIECES" => Ok(pieces_of(found)),
        b"LINES" => Ok(lines_of_list(found)),
        _ => Err(Fail::from("no reader has this name")),
    }
}

/// Reads the file cut off after each of its bytes, from none to all, and appends a line for each cut from which the
/// reader reads something else than from the cut before it.
pub(crate) fn read_cuts(
    alloc: Global,
    reader: &str,
    file: &[u8],
    printed: &mut Vec<u8>,
) -> Result<(), Fail> {
    let mut before = RowText::new();
    before.print(b"nothing");
    for len in 0..=file.len() {
        let now = read_file(alloc, reader, &file[..len])?;
        if now.text() != before.text() {
            print_cut(alloc, len, now.text(), printed)?;
        }
        before = now;
    }
    Ok(())
}

// Appends a line with the number of bytes of a cut, and the number of items that were read from it, or its fault.
fn print_cut(alloc: Global, len: usize, text: &str, printed: &mut Vec<u8>) -> Result<(), Fail> {
    // A semicolon ends each item, and a fault has none.
    let line = match text.split(';').count() {
        1 => format!(in alloc; "{len}: {text}\n")?,
        parts => {
            let items = parts.saturating_sub(1);
            format!(in alloc; "{len}: {items} items\n")?
        }
    };
    printed.extend_from_slice(line.as_bytes())?;
    Ok(())
}
