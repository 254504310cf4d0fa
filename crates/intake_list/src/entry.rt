//! The entries of a list, with their keys and values.
ghost use Rattle.std.specs.Prelude.{◌≡◌, ◌++◌, IfOk, OnOk, map, []};
ghost use Rattle.intake_list.specs.Entries.{
  is_title_form,
  begins_entry,
  names_key,
  goes_on,
  ends_key,
  more_values,
  values_below,
  key_of,
  key_here,
  keys_below,
  entry_of,
  entry_here,
  kind_after,
  entries_of,
};

use crate::list_words::{add_words, word_at};
use crate::row::{ListRow, RowForm};
use std::alloc::{AllocError, Global};
use std::marker::Model;

/// A key with its values, and the line where it is.
#[derive(Drop)]
pub struct ListKey<'a> {
    line: usize,
    name: Vec<&'a [u8]>,
    values: Vec<&'a [u8]>,
}

impl<'a> Model for ListKey<'a> {
    ghost use Rattle.std.specs.Prelude.{map};
    ghost use Rattle.intake_list.specs.Entries as entries;

    ghost Value = { entries.ListKey };

    ghost view = { λ k. record {
      line = k.line;
      name = map (λ word. word.now) k.name.items;
      values = map (λ word. word.now) k.values.items;
    } };
}

impl<'a> ListKey<'a> {
    /// The number of the line where the key is.
    pub fn line(&self) -> usize
        ensures { result ≡ self.now.line }
    {
        self.line
    }

    /// The words of its name, as PRE and VER and 001.
    pub fn name(&self) -> &[&'a [u8]]
        ensures { map (λ word. word.now) result.now ≡ self.now.name }
    {
        self.name.as_slice()
    }

    /// Its values.
    pub fn values(&self) -> &[&'a [u8]]
        ensures { map (λ word. word.now) result.now ≡ self.now.values }
    {
        self.values.as_slice()
    }
}

/// An entry with its keys, the line where it begins, and the kind that the title above it names.
#[derive(Drop)]
pub struct ListEntry<'a> {
    line: usize,
    kind: &'a [u8],
    id: &'a [u8],
    keys: Vec<ListKey<'a>>,
}

impl<'a> Model for ListEntry<'a> {
    ghost use Rattle.intake_list.specs.Entries as entries;

    ghost Value = { entries.ListEntry };

    ghost view = { λ e. record { line = e.line; kind = e.kind.now; id = e.id.now; keys = e.keys.items } };
}

impl<'a> ListEntry<'a> {
    /// The number of the line where the entry begins.
    pub fn line(&self) -> usize
        ensures { result ≡ self.now.line }
    {
        self.line
    }

    /// The kind that the title above the entry names, as SYSMOD. Without a title there is no text.
    pub fn kind(&self) -> &'a [u8]
        ensures { result.now ≡ self.now.kind }
    {
        self.kind
    }

    /// The name of the entry.
    pub fn id(&self) -> &'a [u8]
        ensures { result.now ≡ self.now.id }
    {
        self.id
    }

    /// Its keys, in the order of the list.
    pub fn keys(&self) -> &[ListKey<'a>]
        ensures { result.now ≡ self.now.keys }
    {
        self.keys.as_slice()
    }
}

// Whether the line is the title of entries.
fn is_title(row: &ListRow<'_>) -> bool
    ensures { result ≡ is_title_form row.now.form }
{
    matches!(row.form(), RowForm::Title)
}

/// Whether the line begins an entry.
pub(crate) fn begins_entry(row: &ListRow<'_>) -> bool
    ensures { result ≡ begins_entry row.now.form }
{
    matches!(row.form(), RowForm::Begins)
}

// Whether the line has a key of the entry above it.
fn names_key(row: &ListRow<'_>) -> bool
    ensures { result ≡ names_key row.now.form }
{
    matches!(row.form(), RowForm::Names)
}

// Whether the line has more values of the key above it.
fn goes_on(row: &ListRow<'_>) -> bool
    ensures { result ≡ goes_on row.now.form }
{
    matches!(row.form(), RowForm::GoesOn)
}

/// Whether a key ends above the line.
pub(crate) fn ends_key(row: &ListRow<'_>) -> bool
    ensures { result ≡ ends_key row.now.form }
{
    matches!(row.form(), RowForm::Begins | RowForm::Names)
}

// Adds the values in the lines below a key.
fn add_values_below<'a>(values: &mut Vec<&'a [u8]>, below: &[ListRow<'a>]) -> Result<(), AllocError>
    ensures { OnOk result (map (λ word. word.now) values.new.items
        ≡ map (λ word. word.now) values.old.items ++ values_below below.now) }
{
    for row in below {
        if ends_key(row) {
            return Ok(());
        }
        add_more_values(values, row)?;
    }
    Ok(())
}

// Adds the values of a line that goes on with the key above it.
fn add_more_values<'a>(values: &mut Vec<&'a [u8]>, row: &ListRow<'a>) -> Result<(), AllocError>
    ensures { OnOk result (map (λ word. word.now) values.new.items
        ≡ map (λ word. word.now) values.old.items ++ more_values row.now) }
{
    if goes_on(row) {
        add_words(values, row.values())?;
    }
    Ok(())
}

// The key of the line, with this name, and its values in the lines below it.
fn key_of<'a>(
    alloc: Global,
    name: &[&'a [u8]],
    row: &ListRow<'a>,
    below: &[ListRow<'a>],
) -> Result<ListKey<'a>, AllocError>
    ensures { IfOk result (λ key. key ≡ key_of (map (λ word. word.now) name.now) row.now below.now) }
{
    let mut own_name = Vec::new(alloc);
    add_words(&mut own_name, name)?;
    let mut values = Vec::new(alloc);
    add_words(&mut values, row.values())?;
    add_values_below(&mut values, below)?;
    Ok(ListKey {
        line: row.number(),
        name: own_name,
        values,
    })
}

// Adds the key of the line, if it has one.
fn add_key_here<'a>(
    alloc: Global,
    keys: &mut Vec<ListKey<'a>>,
    row: &ListRow<'a>,
    below: &[ListRow<'a>],
) -> Result<(), AllocError>
    ensures { OnOk result (keys.new.items ≡ keys.old.items ++ key_here row.now below.now) }
{
    if names_key(row) {
        let key = key_of(alloc, row.head(), row, below)?;
        keys.push(key)?;
    }
    Ok(())
}

// Adds the keys in the lines below the first one of an entry.
fn add_keys_below<'a>(
    alloc: Global,
    keys: &mut Vec<ListKey<'a>>,
    below: &[ListRow<'a>],
) -> Result<(), AllocError>
    ensures { OnOk result (keys.new.items ≡ keys.old.items ++ keys_below below.now) }
{
    for (i, row) in below.iter().enumerate() {
        if begins_entry(row) {
            return Ok(());
        }
        add_key_here(alloc, keys, row, &below[i + 1..])?;
    }
    Ok(())
}

// The entry that the line begins.
fn entry_of<'a>(
    alloc: Global,
    kind: &'a [u8],
    row: &ListRow<'a>,
    below: &[ListRow<'a>],
) -> Result<ListEntry<'a>, AllocError>
    ensures { IfOk result (λ entry. entry ≡ entry_of kind.now row.now below.now) }
{
    let head = row.head();
    let first = key_of(alloc, head.get(1..).unwrap_or(head), row, below)?;
    let mut keys = Vec::new(alloc);
    keys.push(first)?;
    add_keys_below(alloc, &mut keys, below)?;
    Ok(ListEntry {
        line: row.number(),
        kind,
        id: word_at(head, 0),
        keys,
    })
}

// Adds the entry that the line begins, if it begins one.
fn add_entry_here<'a>(
    alloc: Global,
    entries: &mut Vec<ListEntry<'a>>,
    kind: &'a [u8],
    row: &ListRow<'a>,
    below: &[ListRow<'a>],
) -> Result<(), AllocError>
    ensures { OnOk result (entries.new.items ≡ entries.old.items ++ entry_here kind.now row.now below.now) }
{
    if begins_entry(row) {
        let entry = entry_of(alloc, kind, row, below)?;
        entries.push(entry)?;
    }
    Ok(())
}

// The kind of the entries below the line.
fn kind_after<'a>(kind: &'a [u8], row: &ListRow<'a>) -> &'a [u8]
    ensures { result.now ≡ kind_after kind.now row.now }
{
    if is_title(row) {
        word_at(row.values(), 1)
    } else {
        kind
    }
}

/// The entries of the lines.
pub fn read_entries<'a>(
    alloc: Global,
    rows: &[ListRow<'a>],
) -> Result<Vec<ListEntry<'a>>, AllocError>
    ensures { IfOk result (λ entries. entries.items ≡ entries_of [] rows.now) }
{
    let mut entries = Vec::new(alloc);
    let mut kind: &'a [u8] = b"";
    for (i, row) in rows.iter().enumerate() {
        add_entry_here(alloc, &mut entries, kind, row, &rows[i + 1..])?;
        kind = kind_after(kind, row);
    }
    Ok(entries)
}
