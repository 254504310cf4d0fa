//! The rows of a table of the store that a query asks for.

ghost use Rattle.std.specs.Prelude.{◌≡◌, List, map, length, IfOk, IsErrOf, IsPermutation};
ghost use Rattle.std.specs.List.{AllByRecursion};
ghost use Rattle.sqlite.specs.Held.{state};
ghost use Rattle.sqlite.specs.State.{HasCleanDisk};
ghost use Rattle.sqlite.specs.Values.{bound};
ghost use Rattle.store_rows.specs.Reads.{OnlyReads};
ghost use Rattle.store_rows.specs.Rows.{Contents, HasContents};
ghost use Rattle.store_rows.specs.Texts.{AreTexts};
ghost use Rattle.store_schema.specs.declared.schema.Schema.{Schema};
ghost use Rattle.store_schema.specs.Earlier.{schema_under};
ghost use Rattle.store_schema.specs.Asked.{asked};

use sqlite::{Alter, Connection};
use sqlite_value::value::ValueRef;
use std::alloc::Global;
use store_rows::{FromRow, ReadError, load};

/// A query for the rows of one table, by so many of their first columns.
pub trait Query {
    ghost use Rattle.std.specs.Prelude.{◌≡◌, ℕ};
    ghost use Rattle.sqlite.specs.Table.{Table};
    ghost use Rattle.store_rows.specs.Selects.{IsSelect};
    ghost use Rattle.store_rows.specs.Texts.{IsTableOf, ReadsRows};
    ghost use Rattle.store_schema.specs.declared.schema.Schema.{Schema};
    ghost use Rattle.store_schema.specs.Earlier.{schema_under};

    type Rows: FromRow;

    ghost table: { Table };

    ghost at: { ℕ };

    ghost width: { ℕ };

    // The schemas that have the table.
    ghost knows: { Schema → Type 0 };

    /// Its SQL, which has one meaning under all schemas that have the table. A row represents its item completely.
    fn select_sql() -> &'static str
        ensures reads { (r : Schema) → knows r → ReadsRows (schema_under r) table width result.now }
        ensures there { (r : Schema) → knows r → IsTableOf (schema_under r) at table }
        ensures selects { IsSelect result.now }
        ensures exact { (a b : Self.Rows.Item) → Self.Rows.has_form a → Self.Rows.has_form b
            → Self.Rows.row_of a ≡ Self.Rows.row_of b → a ≡ b };
}

/// The items of the rows that the query asks for; their first columns are the key. Returns `BadRow` if a row stands
/// for nothing, `Memory` if memory runs out, and `Fault` if the disk fails or the tables are others.
pub fn load_query<S: Alter, Q: Query>(
    alloc: Global,
    conn: &mut Connection<S>,
    key: &[ValueRef<'_>],
) -> Result<Vec<<Q::Rows as FromRow>::Item>, ReadError>
    ensures found { HasCleanDisk (state S.Store conn.new) → length key.now ≡ Q.width → (r : Schema) → Q.knows r
        → (contents : Contents) → HasContents (schema_under r) contents (state S.Store conn.old).now
        → IfOk result (λ items. IsPermutation (map Q.Rows.row_of items.items)
        (asked (bound key.now) (contents Q.table.tree))) }
    ensures forms { IfOk result (λ items. AllByRecursion Q.Rows.has_form items.items) }
    ensures only { HasCleanDisk (state S.Store conn.new) → length key.now ≡ Q.width → (r : Schema) → Q.knows r
        → (contents : Contents) → HasContents (schema_under r) contents (state S.Store conn.old).now
        → IfOk result (λ items. (xs : List Q.Rows.Item) → AllByRecursion Q.Rows.has_form xs
        → IsPermutation (map Q.Rows.row_of xs) (asked (bound key.now) (contents Q.table.tree))
        → IsPermutation items.items xs) }
    ensures none { HasCleanDisk (state S.Store conn.new) → IsErrOf result ReadError.BadRow
        → length key.now ≡ Q.width → (r : Schema) → Q.knows r → (contents : Contents)
        → HasContents (schema_under r) contents (state S.Store conn.old).now
        → (xs : List Q.Rows.Item) → AllByRecursion Q.Rows.has_form xs
        → ¬ IsPermutation (map Q.Rows.row_of xs) (asked (bound key.now) (contents Q.table.tree)) }
    ensures reads { length key.now ≡ Q.width → AreTexts (bound key.now) → (r : Schema) → Q.knows r
        → OnlyReads S.Store (schema_under r) ReadError.BadRow ReadError.Fault conn.old conn.new result }
{
    load::<S, Q::Rows>(alloc, conn, Q::select_sql(), key)
}
