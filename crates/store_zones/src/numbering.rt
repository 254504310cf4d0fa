//! Entries joined with their numbers, which are in a table of their own if they are not 1.

ghost use Rattle.std.specs.Prelude.{◌≡◌, ◌≢◌, [], IfOk, IsErrOf, option_map};
ghost use Rattle.terms.specs.Types.{an_applied};
ghost use Rattle.store_zones.specs.Numbered as spec;
ghost use Rattle.store_zones.specs.Numbered.{left_over, behind_first, with_first, begins_with};

use crate::installed_vers::EntryNumber;
use crate::zone_rows::into_table;
use fields::VerNumber;
use sorted::Table;
use std::alloc::{AllocError, Global};
use std::collections::VecDeque;
use store_rows::ReadError;
use zones_maps::{Applied, Entry};

// When the SYSMOD was applied or accepted, by the `++VER` of this number instead, or none if it was not.
fn applied_with_number(applied: Option<Applied>, number: VerNumber) -> Option<Applied>
    ensures { result ≡ option_map (λ a. an_applied a.date number) applied }
{
    let applied = applied?;
    Some(Applied {
        date: applied.date,
        number,
    })
}

// The entry, installed by the `++VER` of this number if it is applied.
fn with_number(entry: Entry, number: VerNumber) -> Entry
    ensures { result ≡ spec.renumbered entry number }
{
    Entry {
        id: entry.id,
        applied: applied_with_number(entry.applied, number),
        supby: entry.supby,
        delby: entry.delby,
        waived: entry.waived,
    }
}

// Whether the first of the numbers is that of this entry, and the entry is applied.
fn begins_with_number_of(numbers: &VecDeque<EntryNumber>, entry: &Entry) -> bool
    ensures { result ≡ begins_with entry.now numbers.now.items }
{
    match numbers.front() {
        Some(number) => entry.applied.is_some() && number.id == entry.id,
        None => false,
    }
}

// Gives the entry the first of the numbers, and takes it from them, if it is the number of this entry.
fn give_number(entry: Entry, numbers: &mut VecDeque<EntryNumber>) -> Entry
    ensures same { result ≡ with_first entry numbers.old.items }
    ensures left { numbers.new.items ≡ behind_first entry numbers.old.items }
{
    if !begins_with_number_of(numbers, &entry) {
        return entry;
    }
    match numbers.pop_front() {
        Some(first) => with_number(entry, first.number),
        None => entry,
    }
}

// The entries with their numbers, which it takes from `numbers`. Both lists rise by id. A number that is left belongs
// to no applied entry.
fn entries_with_numbers(
    alloc: Global,
    mut entries: VecDeque<Entry>,
    numbers: &mut VecDeque<EntryNumber>,
) -> Result<Vec<Entry>, AllocError>
    ensures same { IfOk result (λ all. all.items ≡ spec.numbered entries.items numbers.old.items) }
    ensures left { IfOk result (λ all. numbers.new.items ≡ left_over entries.items numbers.old.items) }
{
    let mut all = Vec::with_capacity(alloc, entries.len())?;
    while let Some(entry) = entries.pop_front() {
        all.push(give_number(entry, numbers))?;
    }
    Ok(all)
}

/// The entries with their numbers. An entry that has none was installed by the first `++VER`. Returns `BadRow` if a
/// number is not that of an applied entry.
pub(crate) fn number_entries(
    alloc: Global,
    entries: Table<Entry>,
    numbers: Table<EntryNumber>,
) -> Result<Table<Entry>, ReadError>
    ensures same { IfOk result (λ all. all ≡ spec.numbered entries numbers) }
    ensures whole { IfOk result (λ all. left_over entries numbers ≡ []) }
    ensures none { IsErrOf result ReadError.BadRow → left_over entries numbers ≢ [] }
    ensures fault { IsErrOf result ReadError.Fault → ⊥ }
{
    let mut numbers = VecDeque::from(numbers.into_vec());
    if numbers.is_empty() {
        return Ok(entries);
    }
    let all = entries_with_numbers(alloc, VecDeque::from(entries.into_vec()), &mut numbers)?;
    if !numbers.is_empty() {
        return Err(ReadError::BadRow);
    }
    into_table(all)
}
