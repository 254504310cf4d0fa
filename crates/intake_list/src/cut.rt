//! Signs that a list may be cut off: it ends within an entry, or its ids do not rise.
ghost use Rattle.std.specs.Prelude.{◌≡◌, ◌++◌, IfOk, OnOk, map};
ghost use Rattle.std.specs.Option.{option_copied};
ghost use Rattle.std.specs.List.{find};
ghost use Rattle.std.specs.Prelude.{reverse};
ghost use Rattle.intake_list.specs.Cut.{
  has_words,
  is_open,
  ends_open,
  rank,
  precedes,
  may_follow,
  fall_here,
  falls_after,
  falls,
};

use crate::entry::{ListEntry, ends_key};
use crate::row::ListRow;
use std::alloc::{AllocError, Global};

/// Whether the line has words.
pub(crate) fn has_words(row: &ListRow<'_>) -> bool
    ensures { result ≡ has_words row.now }
{
    row.head().len() > 0 || row.values().len() > 0
}

// Whether the line is a key without a value.
fn is_open(row: &ListRow<'_>) -> bool
    ensures { result ≡ is_open row.now }
{
    ends_key(row) && row.values().len() == 0
}

// The last line that has words.
fn last_with_words<'r, 'a>(rows: &'r [ListRow<'a>]) -> Option<&'r ListRow<'a>>
    ensures { option_copied result ≡ find has_words (reverse rows.now) }
{
    rows.iter().rev().find(|row| has_words(*row))
}

/// Whether the list ends within an entry: the last line that has words is a key without a value.
pub fn ends_open(rows: &[ListRow<'_>]) -> bool
    ensures { result ≡ ends_open rows.now }
{
    match last_with_words(rows) {
        Some(row) => is_open(row),
        None => false,
    }
}

// The place of the character in the order of EBCDIC.
fn rank(byte: u8) -> u8
    ensures { result ≡ rank byte }
{
    if byte == b'$' {
        0
    } else if byte == b'#' {
        1
    } else if byte == b'@' {
        2
    } else if b'0' <= byte && byte <= b'9' {
        byte + 43
    } else {
        byte
    }
}

// The places of the characters.
fn ranks(alloc: Global, id: &[u8]) -> Result<Vec<u8>, AllocError>
    ensures { IfOk result (λ ranks. ranks.items ≡ map rank id.now) }
{
    id.iter().map(|byte| rank(*byte)).collect(alloc)
}

// Whether the first id precedes the other.
fn precedes(alloc: Global, before: &[u8], after: &[u8]) -> Result<bool, AllocError>
    ensures { IfOk result (λ does. does ≡ precedes before.now after.now) }
{
    let left = ranks(alloc, before)?;
    let right = ranks(alloc, after)?;
    Ok(left.as_slice().cmp(right.as_slice()).is_lt())
}

// Whether the entry may follow the one before.
fn may_follow(
    alloc: Global,
    before: &ListEntry<'_>,
    after: &ListEntry<'_>,
) -> Result<bool, AllocError>
    ensures { IfOk result (λ may. may ≡ may_follow before.now after.now) }
{
    if before.kind() == after.kind() {
        return precedes(alloc, before.id(), after.id());
    }
    Ok(true)
}

// Adds the line of the entry, if it may not follow the one before.
fn add_fall(
    alloc: Global,
    found: &mut Vec<usize>,
    before: &ListEntry<'_>,
    after: &ListEntry<'_>,
) -> Result<(), AllocError>
    ensures { OnOk result (found.new.items ≡ found.old.items ++ fall_here before.now after.now) }
{
    if may_follow(alloc, before, after)? {
        return Ok(());
    }
    found.push(after.line())?;
    Ok(())
}

// The lines of the entries that may not follow those above them.
fn falls_after<'a>(
    alloc: Global,
    first: &ListEntry<'a>,
    entries: &[ListEntry<'a>],
) -> Result<Vec<usize>, AllocError>
    ensures { IfOk result (λ found. found.items ≡ falls_after first.now entries.now) }
{
    let mut found = Vec::new(alloc);
    let mut before = first;
    for entry in entries {
        add_fall(alloc, &mut found, before, entry)?;
        before = entry;
    }
    Ok(found)
}

/// The lines of the entries whose ids do not follow those above them.
pub fn falls<'a>(alloc: Global, entries: &[ListEntry<'a>]) -> Result<Vec<usize>, AllocError>
    ensures { IfOk result (λ found. found.items ≡ falls entries.now) }
{
    match entries.split_first() {
        Some((first, others)) => falls_after(alloc, first, others),
        None => Ok(Vec::new(alloc)),
    }
}
