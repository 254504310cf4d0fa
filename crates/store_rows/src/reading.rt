//! The rows of a table, and what they stand for.

ghost use Rattle.std.specs.Prelude.{◌≡◌, ◌≢◌, List, map, length, IsPermutation, IfOk, IsErrOf};
ghost use Rattle.std.specs.List.{AllByRecursion};
ghost use Rattle.sqlite.specs.declared.types.Value.{Value as SqlValue};
ghost use Rattle.sqlite.specs.Held.{state};
ghost use Rattle.sqlite.specs.Schema.{Schema};
ghost use Rattle.sqlite.specs.State.{HasCleanDisk};
ghost use Rattle.sqlite.specs.Table.{Table};
ghost use Rattle.sqlite.specs.Values.{bound};
ghost use Rattle.store_rows.specs.Reads.{OnlyReads};
ghost use Rattle.store_rows.specs.Rows.{AreFound};
ghost use Rattle.store_rows.specs.Selects.{IsSelect};
ghost use Rattle.store_rows.specs.Texts.{ReadsRows, AreTexts};

use crate::error::ReadError;
use sqlite::{Alter, Connection, Row};
use sqlite_value::value::ValueRef;
use std::alloc::Global;

/// What a row of a table stands for, and how it is read.
pub trait FromRow {
    type Item: Drop;

    // The columns that represent an item.
    ghost row_of: { Self.Item → List SqlValue };

    // Whether the item has the forms that a row must show.
    ghost has_form: { Self.Item → Type 0 };

    /// The item of the row. Returns `BadRow` if it stands for none, and `Memory` if memory runs out, but never `Fault`.
    fn read(alloc: Global, row: &Row) -> Result<Self::Item, ReadError>
        ensures read { IfOk result (λ item. (row.now ≡ row_of item) × has_form item) }
        ensures none { IsErrOf result ReadError.BadRow → (item : Self.Item) → has_form item → row.now ≢ row_of item }
        ensures fault { IsErrOf result ReadError.Fault → ⊥ };
}

/// The items of the rows that the query finds; their first columns are the key. Returns `BadRow` if a row stands for no
/// item, `Memory` if memory runs out, and `Fault` if the disk fails or the database refuses the query.
pub fn load<S: Alter, T: FromRow>(
    alloc: Global,
    conn: &mut Connection<S>,
    sql: &str,
    key: &[ValueRef<'_>],
) -> Result<Vec<T::Item>, ReadError>
    ensures found { HasCleanDisk (state S.Store conn.new) → IfOk result
        (λ items. (schema : Schema) (table : Table) → ReadsRows schema table (length key.now) sql.now
        → conn.old.schema ≡ schema
        → AreFound table (bound key.now) (map T.row_of items.items) ((state S.Store conn.old).now.trees table.tree)) }
    ensures forms { IfOk result (λ items. AllByRecursion T.has_form items.items) }
    ensures none { HasCleanDisk (state S.Store conn.new) → IsErrOf result ReadError.BadRow
        → (schema : Schema) (table : Table) → ReadsRows schema table (length key.now) sql.now → conn.old.schema ≡ schema
        → (items : List T.Item) → AllByRecursion T.has_form items
        → ¬ AreFound table (bound key.now) (map T.row_of items) ((state S.Store conn.old).now.trees table.tree) }
    ensures reads { IsSelect sql.now → (schema : Schema) (table : Table)
        → ReadsRows schema table (length key.now) sql.now → AreTexts (bound key.now)
        → OnlyReads S.Store schema ReadError.BadRow ReadError.Fault conn.old conn.new result }
{
    let mut items = Vec::new(alloc);
    let mut rows = conn.query(sql, key)?;
    // The bound shows that the loop ends, since no table has so many rows. The proof calls the loop by its label.
    'rows: for _ in 0..u64::MAX {
        rows.advance()?;
        let Some(row) = rows.get() else {
            return Ok(items);
        };
        let item = T::read(alloc, row)?;
        if items.push(item).is_err() {
            return Err(ReadError::Memory);
        }
    }
    Err(ReadError::Memory)
}
