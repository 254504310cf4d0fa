//! Rows that name their zone, and its contents by their keys.

ghost use Rattle.std.specs.Prelude.{◌≡◌, List, map, IfOk, IsErrOf, IsPermutation};
ghost use Rattle.terms.specs.Rising.{Rises};

use fields::ZoneName;
use sorted::{Keyed, Table};
use std::alloc::{AllocError, Global};
use store_rows::ReadError;

/// An item of a zone, and the name of the zone.
#[derive(Drop)]
pub(crate) struct ZoneRow<T> {
    pub zone: ZoneName,
    pub item: T,
}

// The items of the rows, in the same order.
fn items_of_rows<T: Drop>(alloc: Global, rows: Vec<ZoneRow<T>>) -> Result<Vec<T>, AllocError>
    ensures { IfOk result (λ items. items.items ≡ map (λ row. row.item) rows.items) }
{
    let mut items = Vec::with_capacity(alloc, rows.len())?;
    for row in rows {
        items.push(row.item)?;
    }
    Ok(items)
}

/// The items, sorted by their keys. Returns `BadRow` if two have the same key.
pub(crate) fn into_table<T: Keyed + Drop>(items: Vec<T>) -> Result<Table<T>, ReadError>
    ensures same { IfOk result (λ table. IsPermutation items.items table) }
    ensures rise { IfOk result (λ table. Rises T.Key.cmp T.key_of table) }
    ensures none { IsErrOf result ReadError.BadRow → (xs : List T) → IsPermutation items.items xs
        → ¬ Rises T.Key.cmp T.key_of xs }
    ensures fault { IsErrOf result ReadError.Fault → ⊥ }
{
    Table::from_vec(items).ok_or(ReadError::BadRow)
}

/// The items of the rows of one zone, sorted by their keys. Returns `BadRow` if two have the same key.
pub(crate) fn zone_items<T: Keyed + Drop>(
    alloc: Global,
    rows: Vec<ZoneRow<T>>,
) -> Result<Table<T>, ReadError>
    ensures same { IfOk result (λ table. IsPermutation (map (λ row. row.item) rows.items) table) }
    ensures rise { IfOk result (λ table. Rises T.Key.cmp T.key_of table) }
    ensures none { IsErrOf result ReadError.BadRow → (xs : List T)
        → IsPermutation (map (λ row. row.item) rows.items) xs → ¬ Rises T.Key.cmp T.key_of xs }
    ensures fault { IsErrOf result ReadError.Fault → ⊥ }
{
    into_table(items_of_rows(alloc, rows)?)
}
