//! Fields, lists of ids, lists by keys, and files with bytes that no record may have.

use crate::row_text::RowText;
use fields::{Class, HoldDate, Id, IdList, Name, Reason, Rising, Source, Srel, YyDdd, ZoneName};
use rec80::{RecError, records};
use sorted::multi_map::{MultiMap, add, add_to_all, listed};
use std::alloc::Global;
use std::collections::BTreeMap;
use std::test::Fail;

/// How many bytes a file of the table BYTES has at most: two records and a byte.
const MOST_FILE_BYTES: usize = 161;

/// What the reader with this name reads from the text.
pub(crate) fn read_value(alloc: Global, reader: &str, text: &str) -> Result<RowText, Fail> {
    match reader.as_bytes() {
        b"FIELD" => Ok(fitting_fields(text)),
        b"DATE" => Ok(date_of_day(text)),
        b"RISING" => list_calls(alloc, text),
        b"SORTED" => sorted_ids(alloc, text),
        b"LISTS" => lists_by_key(alloc),
        b"BYTES" => record_count(text),
        _ => Err(Fail::from("no value has this name")),
    }
}

/// The id with this text.
pub(crate) fn read_id(text: &str) -> Result<Id, &'static str> {
    Id::read(text.as_bytes()).ok_or("no id")
}

// Whether the field with this letter can have this text.
fn fits_field(letter: u8, text: &[u8]) -> bool {
    match letter {
        b'I' => Id::read(text).is_some(),
        b'S' => Source::read(text).is_some(),
        b'C' => Class::read(text).is_some(),
        b'R' => Reason::read(text).is_some(),
        b'N' => Name::read(text).is_some(),
        b'Z' => ZoneName::read(text).is_some(),
        b'L' => Srel::read(text).is_some(),
        b'H' => HoldDate::read(text).is_some(),
        b'D' => YyDdd::read(text).is_some(),
        _ => false,
    }
}

// The letters of the fields that can have this text.
fn fitting_fields(text: &str) -> RowText {
    let mut out = RowText::new();
    for letter in b"ISCRNZLHD" {
        if fits_field(*letter, text.as_bytes()) {
            out.print(&[*letter]);
        }
    }
    out
}

// The date of the day of 2024 with this number, if there is one.
fn date_of_day(text: &str) -> RowText {
    let mut out = RowText::new();
    if let Ok(day) = text.parse::<u16>()
        && (1..=366).contains(&day)
    {
        out.print(YyDdd::new(2024, day).as_bytes());
    }
    out
}

// Inserts an id (`+`), appends it (`>`), removes it (`-`), or looks for it (`?`), and returns what that call returns.
fn call_list(list: &mut IdList, word: &str) -> Result<bool, Fail> {
    let (sign, id) = word.split_at_checked(1).ok_or("no sign")?;
    let id = read_id(id)?;
    Ok(match sign.as_bytes() {
        b"+" => list.insert(id)?,
        b">" => list.push_last(id)?,
        b"-" => list.remove(id),
        _ => list.contains(id),
    })
}

// A letter for what each of these calls on a list returns, and then a copy of the list.
fn list_calls(alloc: Global, text: &str) -> Result<RowText, Fail> {
    let mut list = IdList::new(alloc);
    let mut out = RowText::new();
    for word in text.split_whitespace() {
        out.print_flag(call_list(&mut list, word)?);
    }
    out.print_id_list(b" ", &list.try_clone(alloc)?);
    Ok(out)
}

// The rising list of ids that are given in any order.
fn sorted_ids(alloc: Global, text: &str) -> Result<RowText, Fail> {
    let mut ids: Vec<Id> = Vec::new(alloc);
    for word in text.split_whitespace() {
        ids.push(read_id(word)?)?;
    }
    let mut out = RowText::new();
    out.print_id_list(b"", &Rising::from_vec(ids));
    Ok(out)
}

// The values under the keys 1, 2 and 3, once 7 is under 2, and 9 under 1 and 2.
fn lists_by_key(alloc: Global) -> Result<RowText, Fail> {
    let mut lists: MultiMap<u32, usize> = BTreeMap::new(alloc);
    add(alloc, &mut lists, 2, 7)?;
    add_to_all(alloc, &mut lists, &[1, 2], 9)?;
    let mut out = RowText::new();
    for key in 1..=3u32 {
        for value in listed(&lists, key) {
            out.print_number(*value);
        }
        out.print(b"/");
    }
    Ok(out)
}

// How many records a file has, or why it has none. The text has the size of the file, and the place and the value of
// its one byte that is not blank.
fn record_count(text: &str) -> Result<RowText, Fail> {
    let mut numbers = text.split_whitespace();
    let size: usize = numbers.next().unwrap_or("").parse()?;
    let place: usize = numbers.next().unwrap_or("").parse()?;
    let byte: u8 = numbers.next().unwrap_or("").parse()?;
    let mut bytes = [b' '; MOST_FILE_BYTES];
    if let Some(at) = bytes.get_mut(place) {
        *at = byte;
    }
    let mut out = RowText::new();
    match records(bytes.get(..size).ok_or("too many bytes")?) {
        Ok(found) => out.print_number(found.all.len()),
        Err(error) => print_record_error(&mut out, error),
    }
    Ok(out)
}

fn print_record_error(out: &mut RowText, error: RecError) {
    out.print(b"record ");
    out.print_number(error.record());
    match error {
        RecError::ShortRecord { .. } => out.print(b" is short"),
        RecError::BadByte { column, .. } => {
            out.print(b" has a bad byte in column ");
            out.print_number(column);
        }
    }
}
