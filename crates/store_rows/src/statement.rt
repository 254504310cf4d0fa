//! The statements that write rows, each in an open transaction.

ghost use Rattle.std.specs.Prelude.{◌≡◌, ◌∷◌, [], ℕ, List, map, length, take, Ok, OnOk, IfOk};
ghost use Rattle.std.specs.List.{AllByRecursion};
ghost use Rattle.sqlite.specs.Held.{state};
ghost use Rattle.sqlite.specs.State.{HasCleanDisk, Executes};
ghost use Rattle.sqlite.specs.Values.{bound};
ghost use Rattle.sqlite.specs.Schema.{Schema};
ghost use Rattle.sqlite.specs.Table.{Table};
ghost use Rattle.store_rows.specs.Calls.{RunsInside, many, columns_of, puts};
ghost use Rattle.store_rows.specs.Inside.{Continues, Turns};
ghost use Rattle.store_rows.specs.Rows.{Contents, HasContents, HaveNone, in_table, as_bound, with_row, with_rows};
ghost use Rattle.store_rows.specs.Rows.{with_put, in_place, without};
ghost use Rattle.store_rows.specs.Texts.{SuitColumns, PutsIn, PutsByKey, PutsInPlace, DeletesByKey, TakesOutParent};

use sqlite::{Alter, Error, Transaction};
use sqlite_value::row::Row as Cells;
use sqlite_value::value::ValueRef;
use std::alloc::{AllocError, Global};

/// How many rows an INSERT of many rows adds.
const MANY: usize = 16;

// Runs a statement that returns no rows.
fn run_statement<S: Alter>(
    tx: &mut Transaction<'_, S>,
    sql: &str,
    params: &[ValueRef<'_>],
) -> Result<(), Error>
    ensures continues { Continues S.Store tx.old tx.new }
    ensures calls { RunsInside S.Store ((sql.now, bound params.now) ∷ []) tx.old.conn.now tx.new.conn.now result }
    ensures ran { OnOk result (HasCleanDisk (state S.Store tx.new.conn.now)
        → (count : ℕ) × Executes sql.now (bound params.now) (state S.Store tx.old.conn.now)
        (state S.Store tx.new.conn.now) (Ok count)) }
{
    tx.execute(sql, params)?;
    Ok(())
}

// The values of all columns of the rows, row after row.
fn columns_of_rows<'a>(alloc: Global, rows: &'a [Cells]) -> Result<Vec<ValueRef<'a>>, AllocError>
    ensures { IfOk result (λ values. bound values.items ≡ columns_of (map as_bound rows.now)) }
{
    let mut values = Vec::new(alloc);
    for row in rows {
        for at in 0..row.len() {
            values.push(row.get(at))?;
        }
    }
    Ok(values)
}

// Adds these rows by one statement, which has a place for each of their columns.
fn insert_by_one_statement<S: Alter>(
    alloc: Global,
    tx: &mut Transaction<'_, S>,
    sql: &str,
    rows: &[Cells],
) -> Result<(), Error>
    ensures continues { Continues S.Store tx.old tx.new }
    ensures calls { RunsInside S.Store ((sql.now, columns_of (map as_bound rows.now)) ∷ []) tx.old.conn.now
        tx.new.conn.now result }
    ensures ok { OnOk result ((schema : Schema) (at : ℕ) (table : Table)
        → PutsIn schema at table (length rows.now) sql.now
        → AllByRecursion (SuitColumns table.columns) (map as_bound rows.now)
        → Turns S.Store tx.old.conn.now tx.new.conn.now (HasContents schema)
        (in_table table (with_rows (map as_bound rows.now)))) }
{
    let values = columns_of_rows(alloc, rows)?;
    run_statement(tx, sql, values.as_slice())
}

/// Adds these rows to the table that the two statements name: `many_sql` adds `MANY` rows at a time, and `one_sql` the
/// remaining ones, one at a time. Returns an error if the database refuses a statement, as for a row whose key exists
/// already, if the disk fails or if memory runs out.
pub fn insert_rows<S: Alter>(
    alloc: Global,
    tx: &mut Transaction<'_, S>,
    many_sql: &str,
    one_sql: &str,
    rows: &[Cells],
) -> Result<(), Error>
    ensures continues { Continues S.Store tx.old tx.new }
    ensures calls { RunsInside S.Store (puts many_sql.now one_sql.now (map as_bound rows.now)) tx.old.conn.now
        tx.new.conn.now result }
    ensures ok { OnOk result ((schema : Schema) (at : ℕ) (table : Table)
        → PutsIn schema at table many many_sql.now → PutsIn schema at table 1 one_sql.now
        → AllByRecursion (SuitColumns table.columns) (map as_bound rows.now)
        → Turns S.Store tx.old.conn.now tx.new.conn.now (HasContents schema)
        (in_table table (with_rows (map as_bound rows.now)))) }
{
    let mut rest = rows;
    while rest.len() >= MANY {
        let (front, more) = rest.split_at(MANY);
        insert_by_one_statement(alloc, tx, many_sql, front)?;
        rest = more;
    }
    while !rest.is_empty() {
        let (row, more) = rest.split_at(1);
        insert_by_one_statement(alloc, tx, one_sql, row)?;
        rest = more;
    }
    Ok(())
}

/// Adds one row, whose columns are the parameters, to the table that the text names. Returns an error if the database
/// refuses the statement, as for a row whose key exists already, if the disk fails or if memory runs out.
pub fn insert<S: Alter>(
    tx: &mut Transaction<'_, S>,
    sql: &str,
    row: &[ValueRef<'_>],
) -> Result<(), Error>
    ensures continues { Continues S.Store tx.old tx.new }
    ensures calls { RunsInside S.Store ((sql.now, bound row.now) ∷ []) tx.old.conn.now tx.new.conn.now result }
    ensures ok { OnOk result ((schema : Schema) (at : ℕ) (table : Table) → PutsIn schema at table 1 sql.now
        → SuitColumns table.columns (bound row.now)
        → Turns S.Store tx.old.conn.now tx.new.conn.now (HasContents schema)
        (in_table table (with_row (bound row.now)))) }
{
    run_statement(tx, sql, row)
}

/// Removes from the table that the text names the rows whose first columns are the parameters. Returns an error if the
/// database refuses the statement, if the disk fails or if memory runs out.
pub fn remove<S: Alter>(
    tx: &mut Transaction<'_, S>,
    sql: &str,
    key: &[ValueRef<'_>],
) -> Result<(), Error>
    ensures continues { Continues S.Store tx.old tx.new }
    ensures calls { RunsInside S.Store ((sql.now, bound key.now) ∷ []) tx.old.conn.now tx.new.conn.now result }
    ensures ok { OnOk result ((schema : Schema) (at : ℕ) (table : Table)
        → DeletesByKey schema at table (length key.now) sql.now
        → Turns S.Store tx.old.conn.now tx.new.conn.now (HasContents schema)
        (in_table table (without (bound key.now)))) }
{
    run_statement(tx, sql, key)
}

/// Puts a row, whose columns are the parameters, into the table that the text names. If a row has its key, that row is
/// updated and keeps its rowid. `INSERT OR REPLACE` would remove it, and might also remove the row of another key whose
/// rowid the new one gets. Returns an error if the database refuses the statement, if the disk fails or if memory runs
/// out.
pub fn upsert<S: Alter>(
    tx: &mut Transaction<'_, S>,
    sql: &str,
    row: &[ValueRef<'_>],
) -> Result<(), Error>
    ensures continues { Continues S.Store tx.old tx.new }
    ensures calls { RunsInside S.Store ((sql.now, bound row.now) ∷ []) tx.old.conn.now tx.new.conn.now result }
    ensures ok { OnOk result ((schema : Schema) (at : ℕ) (table : Table) (width : ℕ)
        → PutsByKey schema at table width sql.now → SuitColumns table.columns (bound row.now)
        → Turns S.Store tx.old.conn.now tx.new.conn.now (HasContents schema)
        (with_put table (take width (bound row.now)) (bound row.now))) }
{
    run_statement(tx, sql, row)
}

/// Updates each row of the table that the text names whose first columns are the first parameters, so that its columns
/// are the parameters. Rows of other tables that refer to it stay, while a removal would remove them too. Returns an
/// error if the database refuses the statement, if the disk fails or if memory runs out.
pub fn replace<S: Alter>(
    tx: &mut Transaction<'_, S>,
    sql: &str,
    columns: &[ValueRef<'_>],
) -> Result<(), Error>
    ensures continues { Continues S.Store tx.old tx.new }
    ensures calls { RunsInside S.Store ((sql.now, bound columns.now) ∷ []) tx.old.conn.now tx.new.conn.now result }
    ensures ok { OnOk result ((schema : Schema) (at : ℕ) (table : Table) (width : ℕ)
        → PutsInPlace schema at table width sql.now → SuitColumns table.columns (bound columns.now)
        → Turns S.Store tx.old.conn.now tx.new.conn.now (HasContents schema)
        (in_table table (in_place (take width (bound columns.now)) (bound columns.now)))) }
{
    run_statement(tx, sql, columns)
}

/// Removes from the table that the text names the rows whose first column is the parameter, to which no row of another
/// table may refer. Returns an error if the database refuses the statement, if the disk fails or if memory runs out.
pub fn remove_parent<S: Alter>(
    tx: &mut Transaction<'_, S>,
    sql: &str,
    parent: &[ValueRef<'_>],
) -> Result<(), Error>
    ensures continues { Continues S.Store tx.old tx.new }
    ensures calls { RunsInside S.Store ((sql.now, bound parent.now) ∷ []) tx.old.conn.now tx.new.conn.now result }
    ensures ok { OnOk result ((schema : Schema) (at : ℕ) (table : Table) (children : List Table)
        → TakesOutParent schema at table children sql.now → length parent.now ≡ 1
        → HasCleanDisk (state S.Store tx.new.conn.now) → (contents : Contents)
        → HaveNone children (bound parent.now) contents → HasContents schema contents
        (state S.Store tx.old.conn.now).now
        → HasContents schema (in_table table (without (bound parent.now)) contents)
        (state S.Store tx.new.conn.now).now) }
{
    run_statement(tx, sql, parent)
}
