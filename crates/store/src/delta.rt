//! What a delta puts and removes, written in an open transaction. What is put instead of something else, or removed,
//! has a statement of its own. What is new comes in at the end, many rows by one statement. What writes returns an
//! error if the database refuses a row, if the disk fails or if memory runs out.

ghost use Rattle.std.specs.Prelude.{◌≡◌, OnOk, IfOk, map};
ghost use Rattle.std.specs.List.{filter_map, flat_map, zip};
ghost use Rattle.std.specs.Option.{option_copied};
ghost use Rattle.store_rows.specs.Calls.{RunsInside};
ghost use Rattle.store_rows.specs.Inside.{Continues};
ghost use Rattle.store.specs.Calls.{entry_calls, entries_calls, new_entry as new_entry_of};
ghost use Rattle.store.specs.Calls.{element_calls, elements_calls, new_element as new_element_of, delta_calls};
ghost use Rattle.store_zones.specs.Zones.{ChangesZone};
ghost use Rattle.store.specs.Writes.{EditsOldEntry, EditsEntries, EditsOldElement, EditsElements, HasEdited, others};
ghost use Rattle.terms.specs.Types.{Zone};
ghost use Rattle.zones_maps.specs.Delta.{KnowsStood, entry_stood, element_stood};

use fields::{Id, Name, VerNumber, ZoneName};
use sorted::Edit;
use sqlite::{Alter, Error, Transaction};
use std::alloc::{AllocError, Global};
use store_zones::{
    insert_elements, insert_entries, remove_element, remove_entry, upsert_element, upsert_entry,
};
use terms::ElemType;
use zones_maps::{Element, Entry, ZoneDelta};

// ---- entries

// Makes the edit, unless it puts a new entry. `number_before` is the number of the `++VER` that installed the entry
// which the zone has at its key, or none if there is no such entry.
fn replace_or_remove_entry<S: Alter>(
    alloc: Global,
    tx: &mut Transaction<'_, S>,
    name: ZoneName,
    edit: &Edit<Entry, Id>,
    number_before: Option<VerNumber>,
) -> Result<(), Error>
    ensures continues { Continues S.Store tx.old tx.new }
    ensures calls { RunsInside S.Store (entry_calls name (edit.now, number_before))
        tx.old.conn.now tx.new.conn.now result }
    ensures ok { OnOk result ((zone : Zone) → entry_stood zone edit.now ≡ number_before
        → ChangesZone S.Store tx.old.conn.now tx.new.conn.now name (EditsOldEntry zone (edit.now, number_before))) }
{
    match edit {
        Edit::Put(entry) => match number_before {
            Some(_) => upsert_entry(alloc, tx, name, number_before, entry),
            None => Ok(()),
        },
        Edit::Remove(id) => remove_entry(tx, name, number_before, *id),
    }
}

// Makes each edit that does not put a new entry. `numbers_before` has for each the number of the `++VER` that installed
// the entry which the zone has at its key, or none if there is no such entry.
fn replace_or_remove_entries<S: Alter>(
    alloc: Global,
    tx: &mut Transaction<'_, S>,
    name: ZoneName,
    edits: &[Edit<Entry, Id>],
    numbers_before: &[Option<VerNumber>],
) -> Result<(), Error>
    ensures continues { Continues S.Store tx.old tx.new }
    ensures calls { RunsInside S.Store (flat_map (entry_calls name) (zip edits.now numbers_before.now))
        tx.old.conn.now tx.new.conn.now result }
    ensures ok { OnOk result ((zone : Zone) → numbers_before.now ≡ map (entry_stood zone) edits.now
        → ChangesZone S.Store tx.old.conn.now tx.new.conn.now name
        (EditsEntries zone (others new_entry_of (zip edits.now numbers_before.now)))) }
{
    for (edit, number_before) in edits.iter().zip(numbers_before) {
        replace_or_remove_entry(alloc, tx, name, edit, *number_before)?;
    }
    Ok(())
}

// The new entry that the edit puts, or `None` if it removes an entry or puts one in place of another.
fn new_entry(edit: &Edit<Entry, Id>, number_before: Option<VerNumber>) -> Option<&Entry>
    ensures { option_copied result ≡ new_entry_of (edit.now, number_before) }
{
    match edit {
        Edit::Put(entry) => match number_before {
            Some(_) => None,
            None => Some(entry),
        },
        Edit::Remove(_) => None,
    }
}

// The new entries that the edits put, in their order.
fn new_entries<'a>(
    alloc: Global,
    edits: &'a [Edit<Entry, Id>],
    numbers_before: &[Option<VerNumber>],
) -> Result<Vec<&'a Entry>, AllocError>
    ensures { IfOk result (λ news. map (λ e. e.now) news.items
        ≡ filter_map new_entry_of (zip edits.entry.now numbers_before.now)) }
{
    let mut news: Vec<&'a Entry> = Vec::new(alloc);
    for (edit, number_before) in edits.iter().zip(numbers_before) {
        let Some(entry) = new_entry(edit, *number_before) else {
            continue;
        };
        news.push(entry)?;
    }
    Ok(news)
}

// Makes the edits of entries. `numbers_before` has for each the number of the `++VER` that installed the entry which
// the zone has at its key, or none if there is no such entry.
fn edit_entries<S: Alter>(
    alloc: Global,
    tx: &mut Transaction<'_, S>,
    name: ZoneName,
    edits: &[Edit<Entry, Id>],
    numbers_before: &[Option<VerNumber>],
) -> Result<(), Error>
    ensures continues { Continues S.Store tx.old tx.new }
    ensures calls { RunsInside S.Store (entries_calls name (zip edits.now numbers_before.now))
        tx.old.conn.now tx.new.conn.now result }
    ensures ok { OnOk result ((zone : Zone) → numbers_before.now ≡ map (entry_stood zone) edits.now
        → ChangesZone S.Store tx.old.conn.now tx.new.conn.now name (EditsEntries zone edits.now)) }
{
    replace_or_remove_entries(alloc, tx, name, edits, numbers_before)?;
    let news = new_entries(alloc, edits, numbers_before)?;
    insert_entries(alloc, tx, name, news.as_slice())
}

// ---- elements

// Makes the edit, unless it puts a new element. `existed` says whether the zone has an element at its key.
fn replace_or_remove_element<S: Alter>(
    alloc: Global,
    tx: &mut Transaction<'_, S>,
    name: ZoneName,
    edit: &Edit<Element, (ElemType, Name)>,
    existed: bool,
) -> Result<(), Error>
    ensures continues { Continues S.Store tx.old tx.new }
    ensures calls { RunsInside S.Store (element_calls name (edit.now, existed)) tx.old.conn.now tx.new.conn.now result }
    ensures ok { OnOk result ((zone : Zone) → element_stood zone edit.now ≡ existed
        → ChangesZone S.Store tx.old.conn.now tx.new.conn.now name (EditsOldElement zone (edit.now, existed))) }
{
    match edit {
        Edit::Put(element) => {
            if !existed {
                return Ok(());
            }
            upsert_element(alloc, tx, name, existed, element)
        }
        Edit::Remove((elem_type, element)) => remove_element(tx, name, *elem_type, *element),
    }
}

// Makes each edit that does not put a new element. `elements_existed` says for each whether the zone has an element at
// its key.
fn replace_or_remove_elements<S: Alter>(
    alloc: Global,
    tx: &mut Transaction<'_, S>,
    name: ZoneName,
    edits: &[Edit<Element, (ElemType, Name)>],
    elements_existed: &[bool],
) -> Result<(), Error>
    ensures continues { Continues S.Store tx.old tx.new }
    ensures calls { RunsInside S.Store (flat_map (element_calls name) (zip edits.now elements_existed.now))
        tx.old.conn.now tx.new.conn.now result }
    ensures ok { OnOk result ((zone : Zone) → elements_existed.now ≡ map (element_stood zone) edits.now
        → ChangesZone S.Store tx.old.conn.now tx.new.conn.now name
        (EditsElements zone (others new_element_of (zip edits.now elements_existed.now)))) }
{
    for (edit, existed) in edits.iter().zip(elements_existed) {
        replace_or_remove_element(alloc, tx, name, edit, *existed)?;
    }
    Ok(())
}

// The new element that the edit puts, or `None` if it removes an element or puts one in place of another.
fn new_element(edit: &Edit<Element, (ElemType, Name)>, existed: bool) -> Option<&Element>
    ensures { option_copied result ≡ new_element_of (edit.now, existed) }
{
    match edit {
        Edit::Put(element) => {
            if existed {
                return None;
            }
            Some(element)
        }
        Edit::Remove(_) => None,
    }
}

// The new elements that the edits put, in their order.
fn new_elements<'a>(
    alloc: Global,
    edits: &'a [Edit<Element, (ElemType, Name)>],
    elements_existed: &[bool],
) -> Result<Vec<&'a Element>, AllocError>
    ensures { IfOk result (λ news. map (λ e. e.now) news.items
        ≡ filter_map new_element_of (zip edits.entry.now elements_existed.now)) }
{
    let mut news: Vec<&'a Element> = Vec::new(alloc);
    for (edit, existed) in edits.iter().zip(elements_existed) {
        let Some(element) = new_element(edit, *existed) else {
            continue;
        };
        news.push(element)?;
    }
    Ok(news)
}

// Makes the edits of elements. `elements_existed` says for each whether the zone has an element at its key.
fn edit_elements<S: Alter>(
    alloc: Global,
    tx: &mut Transaction<'_, S>,
    name: ZoneName,
    edits: &[Edit<Element, (ElemType, Name)>],
    elements_existed: &[bool],
) -> Result<(), Error>
    ensures continues { Continues S.Store tx.old tx.new }
    ensures calls { RunsInside S.Store (elements_calls name (zip edits.now elements_existed.now))
        tx.old.conn.now tx.new.conn.now result }
    ensures ok { OnOk result ((zone : Zone) → elements_existed.now ≡ map (element_stood zone) edits.now
        → ChangesZone S.Store tx.old.conn.now tx.new.conn.now name (EditsElements zone edits.now)) }
{
    replace_or_remove_elements(alloc, tx, name, edits, elements_existed)?;
    let news = new_elements(alloc, edits, elements_existed)?;
    insert_elements(alloc, tx, name, news.as_slice())
}

/// Makes the edits of the delta in the zone of this name, and writes no other rows. The delta must know what the zone
/// has at their keys.
pub(crate) fn write_delta<S: Alter>(
    alloc: Global,
    tx: &mut Transaction<'_, S>,
    name: ZoneName,
    delta: &ZoneDelta,
) -> Result<(), Error>
    ensures continues { Continues S.Store tx.old tx.new }
    ensures calls { RunsInside S.Store (delta_calls name delta.now) tx.old.conn.now tx.new.conn.now result }
    ensures ok { OnOk result ((zone : Zone) → KnowsStood zone delta.now
        → ChangesZone S.Store tx.old.conn.now tx.new.conn.now name (HasEdited zone delta.now)) }
{
    edit_entries(alloc, tx, name, delta.entries(), delta.numbers_before())?;
    edit_elements(alloc, tx, name, delta.elements(), delta.elements_existed())
}
