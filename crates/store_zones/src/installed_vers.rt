//! The table of `++VER`s by which entries were installed, if that was not the first of its SREL.

ghost use Rattle.std.specs.Prelude.{◌≡◌, ◌<◌, ◌^◌, [], ◌∷◌, OnOk, ◌≢◌, ◌≤◌, ℕ, pos, IfOk, IsErrOf, map};
ghost use Rattle.std.specs.List.{flat_map};
ghost use Rattle.store_rows.specs.Calls.{RunsInside, puts};
ghost use Rattle.store_rows.specs.Inside.{Continues, Turns};
ghost use Rattle.store_rows.specs.Rows.{HasContents, as_bound, in_table, with_row, with_rows, with_put, without};
ghost use Rattle.store_schema.specs.Rows.{chosen_in, chosen_row};
ghost use Rattle.store_schema.specs.Tables.{chosen, store_schema};
ghost use Rattle.store_zones.specs.Calls.{number_calls};
ghost use Rattle.store_zones.specs.Chosen.{insert_chosen, insert_numbers as insert_many, upsert_chosen, delete_chosen};
ghost use Rattle.store_zones.specs.Chosen.{number_before};
ghost use Rattle.store_zones.specs.Entries.{entry_key};
ghost use Rattle.store_zones.specs.Zones.{numbered};
ghost use Rattle.sqlite.specs.declared.types.Value.TheVariants.{Int};
ghost use Rattle.sqlite.specs.Order.{Row as SqlRow};
ghost use Rattle.sqlite.specs.Values.{bound};
ghost use Rattle.store_zones.specs.declared.installed_vers.EntryNumber.{EntryNumber as ANumber};
ghost use Rattle.store_zones.specs.declared.zone_rows.ZoneRow.{ZoneRow as AZoneRow};

use crate::items::ZoneItem;
use crate::zone_rows::ZoneRow;
use fields::{Id, VerNumber, ZoneName};
use sorted::Keyed;
use sqlite::{Alter, Error, Row, Transaction};
use sqlite_value::row::Row as Cells;
use sqlite_value::value::ValueRef;
use std::alloc::{AllocError, Global};
use store_rows::{FromRow, ReadError, insert, insert_rows, remove, row_of_values, upsert};
use store_schema::{Columns, Query, chosen_columns};
use zones_maps::Entry;

const SELECT: &str = chosen_columns!(select_text "WHERE zone = ?1 ORDER BY id");

const INSERT: &str = chosen_columns!(insert_text);

// For sixteen rows, as many as one statement adds.
const INSERT_MANY: &str = chosen_columns!(insert_many_text);

const UPSERT: &str = chosen_columns!(upsert_text);

const DELETE: &str = "DELETE FROM chosen WHERE zone = ?1 AND id = ?2";

/// The number as an integer, or that of the first `++VER` if there is none.
pub(crate) fn number_or_first(number: Option<VerNumber>) -> usize
    ensures { result ≡ number_before number }
{
    number.unwrap_or(VerNumber::FIRST).get()
}

// The columns of the row that gives the entry of this id its number.
fn number_values<'a>(zone: &'a ZoneName, id: &'a Id, number: usize) -> [ValueRef<'a>; 3]
    requires { number < 2 ^ 63 }
    ensures { bound result ≡ chosen_row zone.now id.now number }
{
    [
        ValueRef::Text(zone.as_bytes()),
        ValueRef::Text(id.as_bytes()),
        ValueRef::Int(number as i64),
    ]
}

// The rows of the numbers of these entries. An entry that the first `++VER` installed has none.
fn number_rows(alloc: Global, zone: &ZoneName, entries: &[&Entry]) -> Result<Vec<Cells>, AllocError>
    ensures { IfOk result (λ rows. map as_bound rows.items
        ≡ flat_map (chosen_in zone.now) (map (λ e. e.now) entries.now)) }
{
    let mut rows = Vec::new(alloc);
    for entry in entries {
        let number = entry.number();
        if number.get() == 1 {
            continue;
        }
        let id = entry.id;
        rows.push(EntryNumber { id, number }.row_in_zone(alloc, zone)?)?;
    }
    Ok(rows)
}

/// Adds the numbers of these entries, which are new in the zone.
pub(crate) fn insert_numbers<S: Alter>(
    alloc: Global,
    tx: &mut Transaction<'_, S>,
    zone: &ZoneName,
    entries: &[&Entry],
) -> Result<(), Error>
    ensures continues { Continues S.Store tx.old tx.new }
    ensures calls { RunsInside S.Store
        (puts insert_many insert_chosen (flat_map (chosen_in zone.now) (map (λ e. e.now) entries.now)))
        tx.old.conn.now tx.new.conn.now result }
    ensures ok { OnOk result (Turns S.Store tx.old.conn.now tx.new.conn.now (HasContents store_schema)
        (in_table chosen
        (with_rows (flat_map (chosen_in zone.now) (map (λ e. e.now) entries.now))))) }
{
    let rows = number_rows(alloc, zone, entries)?;
    insert_rows(alloc, tx, INSERT_MANY, INSERT, rows.as_slice())
}

// Adds the row of the number of this entry, which has no row yet.
fn insert_number_row<S: Alter>(
    tx: &mut Transaction<'_, S>,
    zone: &ZoneName,
    id: &Id,
    number: usize,
) -> Result<(), Error>
    requires { number < 2 ^ 63 }
    ensures continues { Continues S.Store tx.old tx.new }
    ensures calls { RunsInside S.Store ((insert_chosen, chosen_row zone.now id.now number) ∷ [])
        tx.old.conn.now tx.new.conn.now result }
    ensures ok { OnOk result (Turns S.Store tx.old.conn.now tx.new.conn.now (HasContents store_schema)
        (in_table chosen (with_row (chosen_row zone.now id.now number)))) }
{
    let row = number_values(zone, id, number);
    insert(tx, INSERT, &row)
}

// Puts the row of the number of this entry, in place of the one that it has.
fn upsert_number_row<S: Alter>(
    tx: &mut Transaction<'_, S>,
    zone: &ZoneName,
    id: &Id,
    number: usize,
) -> Result<(), Error>
    requires { number < 2 ^ 63 }
    ensures continues { Continues S.Store tx.old tx.new }
    ensures calls { RunsInside S.Store ((upsert_chosen, chosen_row zone.now id.now number) ∷ [])
        tx.old.conn.now tx.new.conn.now result }
    ensures ok { OnOk result (Turns S.Store tx.old.conn.now tx.new.conn.now (HasContents store_schema)
        (with_put chosen (entry_key zone.now id.now) (chosen_row zone.now id.now number))) }
{
    let row = number_values(zone, id, number);
    upsert(tx, UPSERT, &row)
}

// Removes the row of the number of this entry.
fn remove_number_row<S: Alter>(
    tx: &mut Transaction<'_, S>,
    zone: &ZoneName,
    id: &Id,
) -> Result<(), Error>
    ensures continues { Continues S.Store tx.old tx.new }
    ensures calls { RunsInside S.Store ((delete_chosen, entry_key zone.now id.now) ∷ [])
        tx.old.conn.now tx.new.conn.now result }
    ensures ok { OnOk result (Turns S.Store tx.old.conn.now tx.new.conn.now (HasContents store_schema)
        (in_table chosen (without (entry_key zone.now id.now)))) }
{
    let key = [
        ValueRef::Text(zone.as_bytes()),
        ValueRef::Text(id.as_bytes()),
    ];
    remove(tx, DELETE, &key)
}

/// Changes the number of the entry of this id from `old` to `new`. The number 1 has no row.
pub(crate) fn change_number<S: Alter>(
    tx: &mut Transaction<'_, S>,
    zone: &ZoneName,
    id: &Id,
    old: usize,
    new: usize,
) -> Result<(), Error>
    requires { new < 2 ^ 63 }
    ensures continues { Continues S.Store tx.old tx.new }
    ensures calls { RunsInside S.Store (number_calls zone.now id.now old new) tx.old.conn.now tx.new.conn.now result }
    ensures ok { OnOk result (Turns S.Store tx.old.conn.now tx.new.conn.now (HasContents store_schema)
        (in_table chosen (numbered zone.now id.now old new))) }
{
    if new == old {
        return Ok(());
    }
    if new == 1 {
        return remove_number_row(tx, zone, id);
    }
    if old == 1 {
        return insert_number_row(tx, zone, id, new);
    }
    upsert_number_row(tx, zone, id, new)
}

/// The id of an entry, and the number of the `++VER` that installed it, which was not the first.
#[derive(Clone, Copy, Debug, PartialEq, Eq)]
pub(crate) struct EntryNumber {
    pub id: Id,
    pub number: VerNumber,
}

impl Keyed for EntryNumber {
    type Key = Id;

    ghost key_of = { λ n. n.id };

    fn key(&self) -> Id {
        self.id
    }
}

// The number in the next column. Returns `BadRow` if it is below 2, because the number 1 has no row.
fn read_number(columns: &mut Columns<'_>) -> Result<VerNumber, ReadError>
    ensures read { IfOk result (λ n. (columns.old ≡ Int (pos n) ∷ columns.new) × (2 ≤ n) × (n < 2 ^ 63)) }
    ensures none { IsErrOf result ReadError.BadRow → (n : ℕ) (rest : SqlRow) → 2 ≤ n
        → columns.old ≢ Int (pos n) ∷ rest }
    ensures fault { IsErrOf result ReadError.Fault → ⊥ }
{
    let number = columns.integer()?;
    if number < 2 {
        return Err(ReadError::BadRow);
    }
    Ok(VerNumber::new(number as usize))
}

/// Reads the rows of numbers.
pub(crate) struct Numbers;

impl FromRow for Numbers {
    ghost use Rattle.store_zones.specs.Chosen.{row_of_number, HasNumberForms};

    type Item = ZoneRow<EntryNumber>;

    ghost row_of = { row_of_number };

    ghost has_form = { HasNumberForms };

    fn read(_alloc: Global, row: &Row) -> Result<ZoneRow<EntryNumber>, ReadError>
        ensures read { IfOk result (λ item. (row.now ≡ row_of_number item) × HasNumberForms item) }
        ensures none { IsErrOf result ReadError.BadRow → (item : AZoneRow ANumber) → HasNumberForms item
            → row.now ≢ row_of_number item }
        ensures fault { IsErrOf result ReadError.Fault → ⊥ }
    {
        let mut columns = Columns::new(row);
        let zone = columns.zone_name()?;
        let id = columns.id()?;
        let number = read_number(&mut columns)?;
        columns.expect_end()?;
        Ok(ZoneRow {
            zone,
            item: EntryNumber { id, number },
        })
    }
}

impl Query for Numbers {
    ghost use Rattle.std.specs.Prelude.{◌≡◌};
    ghost use Rattle.store_schema.specs.declared.schema.Schema.TheVariants.{Third};
    ghost use Rattle.store_schema.specs.Tables.{chosen};

    type Rows = Numbers;

    ghost table = { chosen };

    ghost at = { 12 };

    ghost width = { 1 };

    ghost knows = { λ r. r ≡ Third };

    fn select_sql() -> &'static str {
        SELECT
    }
}

impl ZoneItem for EntryNumber {
    ghost use Rattle.std.specs.Prelude.{refl};

    type Rows = Numbers;

    fn row_in_zone(&self, alloc: Global, zone: &ZoneName) -> Result<Cells, AllocError> {
        row_of_values(alloc, &number_values(zone, &self.id, self.number.get()))
    }

    ghost by_zone = { refl };

    ghost named = { λ r. refl };
}
