//! The lines of a list, each with its form and its words.
ghost use Rattle.std.specs.Prelude.{◌≡◌, IfOk, IfSome, map, length, position, ◌<◌, ◌==◌, take, drop, codes};
ghost use Rattle.std.specs.Str.{bytes_eq};
ghost use Rattle.intake_list.specs.Rows.{
  is_page,
  is_title,
  plain_form,
  key_form,
  plain_row,
  key_row,
  row_of,
  begins_page,
  names_page,
  indent,
  has_control,
  columns,
  rows_from,
  rows_in,
};

use crate::list_words::{indent, is_name, lines_in, word_at, words_in};
use std::alloc::{AllocError, Global};
use std::marker::Model;

/// What a line is.
#[derive(Clone, Copy, Debug, PartialEq, Eq)]
pub enum RowForm {
    /// The heading of a page, which names the zone.
    Page,
    /// The title of entries, which names their kind.
    Title,
    /// The first line of an entry: its name, and its first key.
    Begins,
    /// A key of the entry above.
    Names,
    /// More values of the key above.
    GoesOn,
    Other,
}

/// A line: its number, its form, the words up to its first equals sign, and those after it. A line without an equals
/// sign has all its words as values.
#[derive(Drop)]
pub struct ListRow<'a> {
    number: usize,
    form: RowForm,
    head: Vec<&'a [u8]>,
    values: Vec<&'a [u8]>,
}

impl<'a> Model for ListRow<'a> {
    ghost use Rattle.std.specs.Prelude.{map};
    ghost use Rattle.intake_list.specs.Rows as rows;

    ghost Value = { rows.ListRow };

    ghost view = { λ r. record {
      number = r.number;
      form = r.form;
      head = map (λ word. word.now) r.head.items;
      values = map (λ word. word.now) r.values.items;
    } };
}

impl<'a> ListRow<'a> {
    /// The number of the line in the text.
    pub fn number(&self) -> usize
        ensures { result ≡ self.now.number }
    {
        self.number
    }

    /// What the line is.
    pub fn form(&self) -> RowForm
        ensures { result ≡ self.now.form }
    {
        self.form
    }

    /// The words up to the first equals sign.
    pub fn head(&self) -> &[&'a [u8]]
        ensures { map (λ word. word.now) result.now ≡ self.now.head }
    {
        self.head.as_slice()
    }

    /// The words after the first equals sign, or all words of a line without one.
    pub fn values(&self) -> &[&'a [u8]]
        ensures { map (λ word. word.now) result.now ≡ self.now.values }
    {
        self.values.as_slice()
    }
}

// Whether the words are the heading of a page.
fn is_page(words: &[&[u8]]) -> bool
    ensures { result ≡ is_page (map (λ word. word.now) words.now) }
{
    word_at(words, 0) == b"PAGE".as_slice()
        && word_at(words, 3) == b"NOW".as_slice()
        && word_at(words, 4) == b"SET".as_slice()
        && word_at(words, 5) == b"TO".as_slice()
        && word_at(words, 7) == b"ZONE".as_slice()
}

// Whether the words are the title of entries.
fn is_title(words: &[&[u8]]) -> bool
    ensures { result ≡ is_title (map (λ word. word.now) words.now) }
{
    words.len() > 2 && word_at(words, words.len() - 1) == b"ENTRIES".as_slice()
}

// The form of a line without an equals sign.
fn plain_form(left: usize, words: &[&[u8]]) -> RowForm
    ensures { result ≡ plain_form left (map (λ word. word.now) words.now) }
{
    if is_page(words) {
        RowForm::Page
    } else if is_title(words) {
        RowForm::Title
    } else if left > 7 && words.len() > 0 {
        RowForm::GoesOn
    } else {
        RowForm::Other
    }
}

// The form of a line with an equals sign.
fn key_form(left: usize, head: &[&[u8]]) -> RowForm
    ensures { result ≡ key_form left (map (λ word. word.now) head.now) }
{
    if left < 4 {
        if is_name(word_at(head, 0)) && head.len() > 1 {
            RowForm::Begins
        } else {
            RowForm::Other
        }
    } else if head.len() > 0 {
        RowForm::Names
    } else {
        RowForm::Other
    }
}

// A line without an equals sign.
fn plain_row<'a>(alloc: Global, number: usize, line: &'a [u8]) -> Result<ListRow<'a>, AllocError>
    ensures { IfOk result (λ row. row ≡ plain_row number line.now) }
{
    let values = words_in(alloc, line)?;
    let form = plain_form(indent(line), values.as_slice());
    let head = Vec::new(alloc);
    Ok(ListRow {
        number,
        form,
        head,
        values,
    })
}

// A line whose first equals sign is at this place.
fn key_row<'a>(
    alloc: Global,
    number: usize,
    line: &'a [u8],
    at: usize,
) -> Result<ListRow<'a>, AllocError>
    requires { at < length line.now }
    ensures { IfOk result (λ row. row ≡ key_row number line.now at) }
{
    let head = words_in(alloc, &line[..at])?;
    let values = words_in(alloc, &line[at + 1..])?;
    let form = key_form(indent(line), head.as_slice());
    Ok(ListRow {
        number,
        form,
        head,
        values,
    })
}

// The place of the first equals sign of the line.
fn equals_place(line: &[u8]) -> Option<usize>
    ensures place { result ≡ position (λ b. b == 61) line.now }
    ensures bound { IfSome result (λ at. at < length line.now) }
{
    line.iter().position(|byte| *byte == b'=')
}

// The line as a row.
fn row_of<'a>(alloc: Global, number: usize, line: &'a [u8]) -> Result<ListRow<'a>, AllocError>
    ensures { IfOk result (λ row. row ≡ row_of number line.now) }
{
    match equals_place(line) {
        Some(at) => key_row(alloc, number, line, at),
        None => plain_row(alloc, number, line),
    }
}

// Whether the text begins with the word PAGE.
fn has_page_in_front(text: &[u8]) -> bool
    ensures { result ≡ bytes_eq (take 4 text.now) (codes "PAGE") }
{
    match text.get(..4) {
        Some(front) => front == b"PAGE".as_slice(),
        None => false,
    }
}

// The line from its first word on.
fn from_first_word(line: &[u8]) -> &[u8]
    ensures { result.now ≡ drop (indent line.now) line.now }
{
    match line.get(indent(line)..) {
        Some(words) => words,
        None => b"",
    }
}

// Whether the first word of the line is PAGE.
fn names_page(line: &[u8]) -> bool
    ensures { result ≡ names_page line.now }
{
    has_page_in_front(from_first_word(line))
}

// Whether the line is the heading of a page, with carriage control.
fn begins_page(line: &[u8]) -> bool
    ensures { result ≡ begins_page line.now }
{
    match line.split_first() {
        Some((control, rest)) => *control == b'1' && names_page(rest),
        None => false,
    }
}

// Whether the lines have carriage control.
fn has_control(lines: &[&[u8]]) -> bool
    ensures { result ≡ has_control (map (λ line. line.now) lines.now) }
{
    for line in lines {
        if begins_page(*line) {
            return true;
        }
    }
    false
}

// The line without its carriage control.
fn columns(control: bool, line: &[u8]) -> &[u8]
    ensures { result.now ≡ columns control line.now }
{
    if control {
        line.get(1..).unwrap_or(line)
    } else {
        line
    }
}

// The lines as rows.
fn rows_of<'a>(
    alloc: Global,
    control: bool,
    lines: &[&'a [u8]],
) -> Result<Vec<ListRow<'a>>, AllocError>
    ensures { IfOk result (λ rows. rows.items ≡ rows_from control 1 (map (λ line. line.now) lines.now)) }
{
    let mut rows = Vec::new(alloc);
    for (i, line) in lines.iter().enumerate() {
        let row = row_of(alloc, i + 1, columns(control, *line))?;
        rows.push(row)?;
    }
    Ok(rows)
}

/// The lines of the text.
pub fn read_rows<'a>(alloc: Global, text: &'a [u8]) -> Result<Vec<ListRow<'a>>, AllocError>
    ensures { IfOk result (λ rows. rows.items ≡ rows_in text.now) }
{
    let lines = lines_in(alloc, text)?;
    let control = has_control(lines.as_slice());
    rows_of(alloc, control, lines.as_slice())
}
