//! The table of SYSMOD entries.

ghost use Rattle.std.specs.Prelude.{◌≡◌, [], ◌∷◌, OnOk, if◌then◌else◌, ◌≢◌, Option, IfSome, map};
ghost use Rattle.std.specs.Prelude.{IfOk, IsErrOf, option_map};
ghost use Rattle.std.specs.List.{join_with_byte};
ghost use Rattle.store_rows.specs.Calls.{RunsInside};
ghost use Rattle.store_rows.specs.Inside.{Continues, Turns};
ghost use Rattle.store_rows.specs.Rows.{HasContents, in_table, without};
ghost use Rattle.store_schema.specs.Rows.{entry_row};
ghost use Rattle.store_schema.specs.Tables.{entry as entry_table, store_schema};
ghost use Rattle.store_zones.specs.Calls.{insert_entries_calls, upsert_entry_calls, remove_entry_calls};
ghost use Rattle.store_zones.specs.Entries.{insert_entry, upsert_entry as into_entry, delete_entry, entry_key};
ghost use Rattle.store_zones.specs.Zones.{ChangesZone, HasMoreEntries, HasPutEntry, HasRemovedEntry, rows_with};
ghost use Rattle.store_zones.specs.Zones.{with_more_entries, with_entry, without_entry};
ghost use Rattle.sqlite.specs.declared.types.Value.TheVariants.{Text};
ghost use Rattle.sqlite.specs.Order.{Row as SqlRow};
ghost use Rattle.sqlite.specs.Values.{bound, or_null};
ghost use Rattle.sqlite_value.specs.Value.{owned};
ghost use Rattle.terms.specs.Types.{Applied as AppliedTerm, Entry as EntryTerm};
ghost use Rattle.store_schema.specs.Forms.{HasAppliedForms};
ghost use Rattle.store_zones.specs.declared.zone_rows.ZoneRow.{ZoneRow as AZoneRow};
ghost use Rattle.zones_maps.specs.Delta.{number_of};

use crate::installed_vers::{change_number, insert_numbers, number_or_first};
use crate::items::{ZoneItem, insert_items};
use crate::zone_rows::ZoneRow;
use fields::{Id, VerNumber, ZoneName};
use sqlite::{Alter, Error, Row, Transaction};
use sqlite_value::row::Row as Cells;
use sqlite_value::value::ValueRef;
use std::alloc::{AllocError, Global};
use store_rows::{FromRow, ReadError, insert, remove, row_of_values, upsert};
use store_schema::{Columns, Query, entry_columns, joined_ids, text_or_null};
use zones_maps::{Applied, Entry};

const SELECT: &str = entry_columns!(select_text "WHERE zone = ?1 ORDER BY id");

const INSERT: &str = entry_columns!(insert_text);

// For sixteen rows, as many as one statement adds.
const INSERT_MANY: &str = entry_columns!(insert_many_text);

const UPSERT: &str = entry_columns!(upsert_text);

const DELETE: &str = "DELETE FROM entry WHERE zone = ?1 AND id = ?2";

/// Adds the entries to the zone, sixteen rows by one statement and the remaining ones one at a time. Returns an error
/// if the zone has one of the same id after all, if there is no such zone, if the disk fails or if memory runs out.
pub fn insert_entries<S: Alter>(
    alloc: Global,
    tx: &mut Transaction<'_, S>,
    zone: ZoneName,
    entries: &[&Entry],
) -> Result<(), Error>
    ensures continues { Continues S.Store tx.old tx.new }
    ensures calls { RunsInside S.Store (insert_entries_calls zone (map (λ e. e.now) entries.now))
        tx.old.conn.now tx.new.conn.now result }
    ensures ok { OnOk result (Turns S.Store tx.old.conn.now tx.new.conn.now (HasContents store_schema)
        (with_more_entries zone (map (λ e. e.now) entries.now))) }
    ensures stands { OnOk result (ChangesZone S.Store tx.old.conn.now tx.new.conn.now zone
        (HasMoreEntries (map (λ e. e.now) entries.now))) }
{
    insert_items(alloc, tx, &zone, INSERT_MANY, INSERT, entries)?;
    insert_numbers(alloc, tx, &zone, entries)
}

/// Puts the entry into the zone, in place of the one of its id. `number_before` is the number of the `++VER` that
/// installed the old entry, or none if there is no old entry. Returns an error if the zone has one although
/// `number_before` says no, if there is no such zone, if the disk fails or if memory runs out.
pub fn upsert_entry<S: Alter>(
    alloc: Global,
    tx: &mut Transaction<'_, S>,
    zone: ZoneName,
    number_before: Option<VerNumber>,
    entry: &Entry,
) -> Result<(), Error>
    ensures continues { Continues S.Store tx.old tx.new }
    ensures calls { RunsInside S.Store (upsert_entry_calls zone number_before entry.now)
        tx.old.conn.now tx.new.conn.now result }
    ensures ok { OnOk result (Turns S.Store tx.old.conn.now tx.new.conn.now (HasContents store_schema)
        (with_entry zone number_before entry.now)) }
    ensures stands { OnOk result ((old : Option EntryTerm) → option_map number_of old ≡ number_before
        → ChangesZone S.Store tx.old.conn.now tx.new.conn.now zone (HasPutEntry old entry.now)) }
{
    let supby = joined_ids(alloc, entry.supby.as_slice())?;
    let waived = joined_ids(alloc, entry.waived.as_slice())?;
    upsert_entry_row(
        tx,
        &zone,
        number_before.is_some(),
        entry,
        supby.as_slice(),
        waived.as_slice(),
    )?;
    change_number(
        tx,
        &zone,
        &entry.id,
        number_or_first(number_before),
        entry.number().get(),
    )
}

// The date on which the SYSMOD was applied or accepted, or NULL if it was not.
fn date_value(applied: &Option<Applied>) -> ValueRef<'_>
    ensures { owned result ≡ or_null Text (option_map (λ a. a.date) applied.now) }
{
    match applied {
        Some(applied) => ValueRef::Text(applied.date.as_bytes()),
        None => ValueRef::Null,
    }
}

// The columns of the entry's row, with these texts of its lists.
fn entry_values<'a>(
    zone: &'a ZoneName,
    entry: &'a Entry,
    supby: &'a [u8],
    waived: &'a [u8],
) -> [ValueRef<'a>; 6]
    requires supby { supby.now ≡ join_with_byte 44 entry.now.supby }
    requires waived { waived.now ≡ join_with_byte 44 entry.now.waived }
    ensures { bound result ≡ entry_row zone.now entry.now }
{
    [
        ValueRef::Text(zone.as_bytes()),
        ValueRef::Text(entry.id.as_bytes()),
        date_value(&entry.applied),
        ValueRef::Text(supby),
        text_or_null(&entry.delby),
        ValueRef::Text(waived),
    ]
}

// Puts the entry's row, with these texts of its lists, in place of the one that existed, if one did.
fn upsert_entry_row<S: Alter>(
    tx: &mut Transaction<'_, S>,
    zone: &ZoneName,
    existed: bool,
    entry: &Entry,
    supby: &[u8],
    waived: &[u8],
) -> Result<(), Error>
    requires supby { supby.now ≡ join_with_byte 44 entry.now.supby }
    requires waived { waived.now ≡ join_with_byte 44 entry.now.waived }
    ensures continues { Continues S.Store tx.old tx.new }
    ensures calls { RunsInside S.Store ((
      if existed then into_entry else insert_entry,
      entry_row zone.now entry.now,
    ) ∷ []) tx.old.conn.now tx.new.conn.now result }
    ensures ok { OnOk result (Turns S.Store tx.old.conn.now tx.new.conn.now (HasContents store_schema)
        (in_table entry_table (rows_with existed (entry_key zone.now entry.now.id) (entry_row zone.now entry.now)))) }
{
    let row = entry_values(zone, entry, supby, waived);
    if existed {
        return upsert(tx, UPSERT, &row);
    }
    insert(tx, INSERT, &row)
}

// Removes the row of the entry of this id, if there is one.
fn remove_entry_row<S: Alter>(
    tx: &mut Transaction<'_, S>,
    zone: &ZoneName,
    id: &Id,
) -> Result<(), Error>
    ensures continues { Continues S.Store tx.old tx.new }
    ensures calls { RunsInside S.Store ((delete_entry, entry_key zone.now id.now) ∷ [])
        tx.old.conn.now tx.new.conn.now result }
    ensures ok { OnOk result (Turns S.Store tx.old.conn.now tx.new.conn.now (HasContents store_schema)
        (in_table entry_table (without (entry_key zone.now id.now)))) }
{
    let key = [
        ValueRef::Text(zone.as_bytes()),
        ValueRef::Text(id.as_bytes()),
    ];
    remove(tx, DELETE, &key)
}

/// Removes the entry of the id from the zone. `number_before` is the number of the `++VER` that installed it, or none
/// if there is no such entry. Returns an error if the disk fails or memory runs out.
pub fn remove_entry<S: Alter>(
    tx: &mut Transaction<'_, S>,
    zone: ZoneName,
    number_before: Option<VerNumber>,
    id: Id,
) -> Result<(), Error>
    ensures continues { Continues S.Store tx.old tx.new }
    ensures calls { RunsInside S.Store (remove_entry_calls zone number_before id)
        tx.old.conn.now tx.new.conn.now result }
    ensures ok { OnOk result (Turns S.Store tx.old.conn.now tx.new.conn.now (HasContents store_schema)
        (without_entry zone number_before id)) }
    ensures stands { OnOk result ((old : Option EntryTerm) → option_map number_of old ≡ number_before
        → ChangesZone S.Store tx.old.conn.now tx.new.conn.now zone (HasRemovedEntry old id)) }
{
    remove_entry_row(tx, &zone, &id)?;
    change_number(tx, &zone, &id, number_or_first(number_before), 1)
}

/// Reads the rows of entries.
pub(crate) struct Entries;

impl FromRow for Entries {
    ghost use Rattle.store_zones.specs.Entries.{row_of_entry, HasEntryRowForms};

    type Item = ZoneRow<Entry>;

    ghost row_of = { row_of_entry };

    ghost has_form = { HasEntryRowForms };

    fn read(alloc: Global, row: &Row) -> Result<ZoneRow<Entry>, ReadError>
        ensures read { IfOk result (λ item. (row.now ≡ row_of_entry item) × HasEntryRowForms item) }
        ensures none { IsErrOf result ReadError.BadRow → (item : AZoneRow EntryTerm) → HasEntryRowForms item
            → row.now ≢ row_of_entry item }
        ensures fault { IsErrOf result ReadError.Fault → ⊥ }
    {
        let mut columns = Columns::new(row);
        let zone = columns.zone_name()?;
        let id = columns.id()?;
        let applied = read_applied(&mut columns)?;
        let supby = columns.ids(alloc)?;
        let delby = columns.optional()?;
        let waived = columns.ids(alloc)?;
        columns.expect_end()?;
        Ok(ZoneRow {
            zone,
            item: Entry {
                id,
                applied,
                supby,
                delby,
                waived,
            },
        })
    }
}

// When the SYSMOD was applied or accepted, or none if it was not. The row has no number of a `++VER`: it is 1 unless
// the table of numbers has another one.
fn read_applied(columns: &mut Columns<'_>) -> Result<Option<Applied>, ReadError>
    ensures read { IfOk result (λ applied.
        (columns.old ≡ or_null Text (option_map (λ a. a.date) applied) ∷ columns.new)
        × IfSome applied HasAppliedForms × IfSome applied (λ a. a.number ≡ 1)) }
    ensures none { IsErrOf result ReadError.BadRow → (applied : Option AppliedTerm) (rest : SqlRow)
        → IfSome applied HasAppliedForms
        → columns.old ≢ or_null Text (option_map (λ a. a.date) applied) ∷ rest }
    ensures fault { IsErrOf result ReadError.Fault → ⊥ }
{
    let date = columns.optional()?;
    Ok(date.map(Applied::on))
}

impl Query for Entries {
    ghost use Rattle.std.specs.Prelude.{⊤};
    ghost use Rattle.store_schema.specs.Tables.{entry};

    type Rows = Entries;

    ghost table = { entry };

    ghost at = { 7 };

    ghost width = { 1 };

    ghost knows = { λ r. ⊤ };

    fn select_sql() -> &'static str {
        SELECT
    }
}

impl ZoneItem for Entry {
    ghost use Rattle.std.specs.Prelude.{refl};

    type Rows = Entries;

    fn row_in_zone(&self, alloc: Global, zone: &ZoneName) -> Result<Cells, AllocError> {
        let supby = joined_ids(alloc, self.supby.as_slice())?;
        let waived = joined_ids(alloc, self.waived.as_slice())?;
        let row = entry_values(zone, self, supby.as_slice(), waived.as_slice());
        row_of_values(alloc, &row)
    }

    ghost by_zone = { refl };

    ghost named = { λ r. refl };
}
