//! The number that `meta` gives to the schema.

ghost use Rattle.std.specs.Prelude.{◌≡◌, ◌↔◌, ℤ, false, [], codes, IsTrue, OnOk, IfOk, IfSome, IfNone, IsErrOf};
ghost use Rattle.std.specs.List.{Any};
ghost use Rattle.sqlite.specs.Held.{state};
ghost use Rattle.sqlite.specs.State.{HasCleanDisk, Shown};
ghost use Rattle.store_schema.specs.Earlier.{schema_under, number_under};
ghost use Rattle.store_schema.specs.Known.{select_meta, select_own, Gives, GivesOther, GivesOwn, IsNumber};
ghost use Rattle.store_schema.specs.Known.{HasTablesUnder, HasNumberBut, HasNumbersAmong};
ghost use Rattle.store_schema.specs.Looks.{LeavesAll, KeepsLast, SurvivesAs};

use crate::error::StoreError;
use crate::schema::Schema;
use sqlite::{Alter, Connection, Error, Row};
use sqlite_value::value::ValueRef;

// The keys and values of `meta`, in a database with any tables.
fn load_meta_rows<S: Alter>(conn: &mut Connection<S>) -> Result<Vec<Row>, Error>
    ensures shown { HasCleanDisk (state S.Store conn.new) → IfOk result
        (λ rows. Shown select_meta [] (state S.Store conn.old) (state S.Store conn.new) rows.items) }
    ensures same { LeavesAll S.Store conn.old conn.new result }
    ensures kept { KeepsLast S.Store conn.old conn.new }
    ensures crash { SurvivesAs S.Store conn.old conn.new }
    ensures mode { conn.old.in_transaction ≡ false → conn.new.in_transaction ≡ false }
{
    conn.query_all("SELECT k, v FROM meta", &[])
}

// All that `meta` holds, rowids included, in a database that may have the tables of a schema.
fn load_meta_rows_with_rowids<S: Alter>(conn: &mut Connection<S>) -> Result<Vec<Row>, Error>
    ensures shown { HasCleanDisk (state S.Store conn.new) → IfOk result
        (λ rows. Shown select_own [] (state S.Store conn.old) (state S.Store conn.new) rows.items) }
    ensures same { LeavesAll S.Store conn.old conn.new result }
    ensures kept { KeepsLast S.Store conn.old conn.new }
    ensures crash { SurvivesAs S.Store conn.old conn.new }
    ensures mode { conn.old.in_transaction ≡ false → conn.new.in_transaction ≡ false }
{
    conn.query_all("SELECT rowid, k, v FROM meta", &[])
}

// Whether this is the key under which `meta` has the number of the schema.
fn is_schema_key(key: &[u8]) -> bool
    ensures { IsTrue result ↔ (key.now ≡ codes "schema") }
{
    key == b"schema".as_slice()
}

// The number that a row of `meta`, as `load_meta_rows` reads it, gives to the schema.
fn number_in_row(row: &Row) -> Option<i64>
    ensures some { IfSome result (λ n. Gives n row.now) }
    ensures none { IfNone result ((n : ℤ) → ¬ Gives n row.now) }
{
    if row.column_count() != 2 {
        return None;
    }
    match (row.get_ref(0), row.get_ref(1)) {
        (Ok(ValueRef::Text(key)), Ok(ValueRef::Int(number))) if is_schema_key(key) => Some(number),
        _ => None,
    }
}

// The number that a row of `meta` with its rowid, as `load_meta_rows_with_rowids` reads it, gives to the schema.
fn number_in_row_with_rowid(row: &Row) -> Option<i64>
    ensures some { IfSome result (λ n. GivesOwn n row.now) }
    ensures none { IfNone result ((n : ℤ) → ¬ GivesOwn n row.now) }
{
    if row.column_count() != 3 {
        return None;
    }
    match (row.get_ref(0), row.get_ref(1), row.get_ref(2)) {
        (Ok(ValueRef::Int(_)), Ok(ValueRef::Text(key)), Ok(ValueRef::Int(number)))
            if is_schema_key(key) => { Some(number) }
        _ => None,
    }
}

// Whether the row gives a number that is none of these.
fn gives_other_number(row: &Row, numbers: &[i64]) -> bool
    ensures { IsTrue result ↔ GivesOther numbers.now row.now }
{
    match number_in_row(row) {
        Some(number) => !numbers.contains(&number),
        None => false,
    }
}

// Whether the row gives the number of the schema.
fn gives_number(row: &Row, schema: Schema) -> bool
    ensures { IsTrue result ↔ GivesOwn (number_under schema) row.now }
{
    match number_in_row_with_rowid(row) {
        Some(number) => number == schema.number(),
        None => false,
    }
}

// Whether any row gives a number that is none of these.
fn has_other_number(rows: &[Row], numbers: &[i64]) -> bool
    ensures { IsTrue result ↔ Any (GivesOther numbers.now) rows.now }
{
    for row in rows {
        if gives_other_number(row, numbers) {
            return true;
        }
    }
    false
}

/// Returns `OtherSchema` if `meta` gives the schema a number that is none of these.
pub(crate) fn refuse_other_numbers<S: Alter>(
    conn: &mut Connection<S>,
    numbers: &[i64],
) -> Result<(), StoreError>
    ensures known { HasCleanDisk (state S.Store conn.new) → OnOk result
        (HasNumbersAmong numbers.now (state S.Store conn.old)) }
    ensures other { HasCleanDisk (state S.Store conn.new) → IsErrOf result StoreError.OtherSchema
        → HasNumberBut numbers.now (state S.Store conn.old) }
    ensures which { IsErrOf result StoreError.NoState → ⊥ }
    ensures same { LeavesAll S.Store conn.old conn.new result }
    ensures kept { KeepsLast S.Store conn.old conn.new }
    ensures crash { SurvivesAs S.Store conn.old conn.new }
    ensures mode { conn.old.in_transaction ≡ false → conn.new.in_transaction ≡ false }
{
    let rows = load_meta_rows(conn)?;
    if has_other_number(rows.as_slice(), numbers) {
        return Err(StoreError::OtherSchema);
    }
    Ok(())
}

// Whether `meta` has one row, with the number of the schema.
fn gives_only_number(rows: &[Row], schema: Schema) -> bool
    ensures { IsTrue result ↔ IsNumber (number_under schema) rows.now }
{
    rows.len() == 1 && gives_number(&rows[0], schema)
}

/// Returns `NoState` if `meta` of a database with the tables of the schema gives it another number or none.
pub(crate) fn check_number<S: Alter>(
    conn: &mut Connection<S>,
    schema: Schema,
) -> Result<(), StoreError>
    ensures known { HasCleanDisk (state S.Store conn.new) → OnOk result
        ((state S.Store conn.old).now.schema ≡ schema_under schema
        → HasTablesUnder schema (state S.Store conn.old).now) }
    ensures none { HasCleanDisk (state S.Store conn.new) → IsErrOf result StoreError.NoState
        → ¬ HasTablesUnder schema (state S.Store conn.old).now }
    ensures which { IsErrOf result StoreError.OtherSchema → ⊥ }
    ensures same { LeavesAll S.Store conn.old conn.new result }
    ensures kept { KeepsLast S.Store conn.old conn.new }
    ensures crash { SurvivesAs S.Store conn.old conn.new }
    ensures mode { conn.old.in_transaction ≡ false → conn.new.in_transaction ≡ false }
{
    let rows = load_meta_rows_with_rowids(conn)?;
    if !gives_only_number(rows.as_slice(), schema) {
        return Err(StoreError::NoState);
    }
    Ok(())
}
