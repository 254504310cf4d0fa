//! The contents of a zone, and the rows of a table that name the zone.

ghost use Rattle.std.specs.Prelude.{◌≡◌, ℕ, List, map, IfOk, IsErrOf, OnOk};
ghost use Rattle.std.specs.List.{AllByRecursion};
ghost use Rattle.sqlite.specs.Held.{state};
ghost use Rattle.sqlite.specs.Schema.{Schema as ASchema};
ghost use Rattle.sqlite.specs.State.{HasCleanDisk};
ghost use Rattle.sqlite.specs.Table.{Table as ATable};
ghost use Rattle.store_rows.specs.Calls.{RunsInside, many, puts};
ghost use Rattle.store_rows.specs.Inside.{Continues, Turns};
ghost use Rattle.store_rows.specs.Reads.{OnlyReads};
ghost use Rattle.store_rows.specs.Rows.{Contents, HasContents, as_bound, in_table, with_rows};
ghost use Rattle.store_rows.specs.Texts.{PutsIn, SuitColumns};
ghost use Rattle.store_schema.specs.declared.schema.Schema.{Schema};
ghost use Rattle.store_schema.specs.Earlier.{schema_under};
ghost use Rattle.store_zones.specs.Held.{HoldsItems, in_zone};

use crate::zone_rows::{ZoneRow, zone_items};
use fields::ZoneName;
use sorted::{Keyed, Table};
use sqlite::{Alter, Connection, Error, Transaction};
use sqlite_value::row::Row as Cells;
use sqlite_value::value::ValueRef;
use std::alloc::{AllocError, Global};
use store_rows::{FromRow, ReadError, insert_rows};
use store_schema::{Query, load_query};

/// How many rows a statement adds at most, and how many items `insert_items` makes the rows of at a time.
const ROWS_A_STATEMENT: usize = 16;

/// What a zone contains, by its keys, the query for its rows, whose first column is the name of the zone, and the row
/// of an item.
pub(crate) trait ZoneItem: Keyed + Drop {
    ghost use Rattle.std.specs.Prelude.{◌≡◌, ◌∷◌, drop, IfOk};
    ghost use Rattle.sqlite.specs.declared.types.Value.TheVariants.{Text};
    ghost use Rattle.store_rows.specs.Rows.{as_bound};
    ghost use Rattle.store_zones.specs.declared.zone_rows.ZoneRow.{ZoneRow as AZoneRow};
    ghost use Rattle.store_zones.specs.Held.{in_zone};

    type Rows: FromRow<Item = ZoneRow<Self>> + Query<Rows = Self::Rows>;

    /// The item's row in the zone of this name.
    fn row_in_zone(&self, alloc: Global, zone: &ZoneName) -> Result<Cells, AllocError>
        ensures { IfOk result (λ cells. as_bound cells ≡ in_zone Self.Rows.row_of zone.now self.now) };

    ghost by_zone: { Self.Rows.width ≡ 1 };

    ghost named: { (r : AZoneRow Self) → Self.Rows.row_of r ≡ Text r.zone ∷ drop 1 (Self.Rows.row_of r) };
}

/// The items of the zone of this name.
pub(crate) fn load_items<S: Alter, T: ZoneItem>(
    alloc: Global,
    conn: &mut Connection<S>,
    name: &ZoneName,
) -> Result<Table<T>, ReadError>
    ensures found { HasCleanDisk (state S.Store conn.new) → (r : Schema) → T.Rows.knows r → (contents : Contents)
        → HasContents (schema_under r) contents (state S.Store conn.old).now
        → IfOk result (HoldsItems T.Rows.table (in_zone T.Rows.row_of) T.Rows.has_form T.Key.cmp T.key_of contents
        name.now) }
    ensures none { HasCleanDisk (state S.Store conn.new) → IsErrOf result ReadError.BadRow → (r : Schema)
        → T.Rows.knows r → (contents : Contents) → HasContents (schema_under r) contents (state S.Store conn.old).now
        → (items : List T) → ¬ HoldsItems T.Rows.table (in_zone T.Rows.row_of) T.Rows.has_form T.Key.cmp T.key_of
        contents name.now items }
    ensures reads { (r : Schema) → T.Rows.knows r
        → OnlyReads S.Store (schema_under r) ReadError.BadRow ReadError.Fault conn.old conn.new result }
{
    let rows = load_query::<S, T::Rows>(alloc, conn, &[ValueRef::Text(name.as_bytes())])?;
    zone_items(alloc, rows)
}

// The rows of these items of the zone.
fn item_rows<T: ZoneItem>(
    alloc: Global,
    zone: &ZoneName,
    items: &[&T],
) -> Result<Vec<Cells>, AllocError>
    ensures { IfOk result (λ rows. map as_bound rows.items
        ≡ map (in_zone T.Rows.row_of zone.now) (map (λ x. x.now) items.now)) }
{
    let mut rows = Vec::with_capacity(alloc, items.len())?;
    for item in items {
        rows.push(item.row_in_zone(alloc, zone)?)?;
    }
    Ok(rows)
}

/// Adds the rows of the items to the table that the two statements name: `many_sql` adds `ROWS_A_STATEMENT` rows at a
/// time, and `one_sql` the remaining ones, one at a time. It makes the rows of at most `ROWS_A_STATEMENT` items at a
/// time, to save memory.
pub(crate) fn insert_items<S: Alter, T: ZoneItem>(
    alloc: Global,
    tx: &mut Transaction<'_, S>,
    zone: &ZoneName,
    many_sql: &str,
    one_sql: &str,
    items: &[&T],
) -> Result<(), Error>
    ensures continues { Continues S.Store tx.old tx.new }
    ensures calls { RunsInside S.Store
        (puts many_sql.now one_sql.now (map (in_zone T.Rows.row_of zone.now) (map (λ x. x.now) items.now)))
        tx.old.conn.now tx.new.conn.now result }
    ensures ok { OnOk result ((schema : ASchema) (at : ℕ) (table : ATable)
        → PutsIn schema at table many many_sql.now → PutsIn schema at table 1 one_sql.now
        → AllByRecursion (SuitColumns table.columns) (map (in_zone T.Rows.row_of zone.now) (map (λ x. x.now) items.now))
        → Turns S.Store tx.old.conn.now tx.new.conn.now (HasContents schema)
        (in_table table (with_rows (map (in_zone T.Rows.row_of zone.now) (map (λ x. x.now) items.now))))) }
{
    let mut done = 0;
    while done < items.len() {
        let end = done + (items.len() - done).min(ROWS_A_STATEMENT);
        let rows = item_rows(alloc, zone, &items[done..end])?;
        insert_rows(alloc, tx, many_sql, one_sql, rows.as_slice())?;
        done = end;
    }
    Ok(())
}
