//! The lines of a list that reading leaves out.
ghost use Rattle.std.specs.Prelude.{◌≡◌, ◌++◌, ◌||◌, IfOk, OnOk};
ghost use Rattle.intake_list.specs.Entries.{begins_entry};
ghost use Rattle.intake_list.specs.Unread.{is_other, needs_entry, is_name_heading, is_unread, unread_here, unread};

use crate::cut::has_words;
use crate::entry::begins_entry;
use crate::list_words::word_at;
use crate::row::{ListRow, RowForm};
use std::alloc::{AllocError, Global};

// Whether the line has no form.
fn is_other(row: &ListRow<'_>) -> bool
    ensures { result ≡ is_other row.now.form }
{
    matches!(row.form(), RowForm::Other)
}

// Whether the line says something of an entry that begins above it.
fn needs_entry(row: &ListRow<'_>) -> bool
    ensures { result ≡ needs_entry row.now.form }
{
    matches!(row.form(), RowForm::Names | RowForm::GoesOn)
}

// Whether the line is the one over the names of entries.
fn is_name_heading(row: &ListRow<'_>) -> bool
    ensures { result ≡ is_name_heading row.now }
{
    let words = row.values();
    words.len() == 1 && word_at(words, 0) == b"NAME".as_slice()
}

// Whether reading leaves the line out. The flag says whether an entry is above it.
fn is_unread(within: bool, row: &ListRow<'_>) -> bool
    ensures { result ≡ is_unread within row.now }
{
    (is_other(row) && has_words(row) && !is_name_heading(row)) || (needs_entry(row) && !within)
}

// Adds the number of the line, if reading leaves it out.
fn add_unread(found: &mut Vec<usize>, within: bool, row: &ListRow<'_>) -> Result<(), AllocError>
    ensures { OnOk result (found.new.items ≡ found.old.items ++ unread_here within row.now) }
{
    if is_unread(within, row) {
        found.push(row.number())?;
    }
    Ok(())
}

// Whether an entry is above the lines below this one.
fn is_within(within: bool, row: &ListRow<'_>) -> bool
    ensures { result ≡ (within || begins_entry row.now.form) }
{
    within || begins_entry(row)
}

/// The numbers of the lines that reading leaves out: those that have words and no form, and those that say something of
/// an entry although none is above them. The lines of headings are not among them, but SMP/E's own messages are.
pub fn unread_lines(alloc: Global, rows: &[ListRow<'_>]) -> Result<Vec<usize>, AllocError>
    ensures { IfOk result (λ found. found.items ≡ unread rows.now) }
{
    let mut found = Vec::new(alloc);
    let mut within = false;
    for row in rows {
        add_unread(&mut found, within, row)?;
        within = is_within(within, row);
    }
    Ok(found)
}
