//! The rows of a whole table, by their keys.

ghost use Rattle.std.specs.Prelude.{◌≡◌, List, map, IfOk, IsErrOf, IsPermutation};
ghost use Rattle.std.specs.List.{AllByRecursion};
ghost use Rattle.sqlite.specs.Held.{state};
ghost use Rattle.sqlite.specs.State.{HasCleanDisk};
ghost use Rattle.store_rows.specs.Reads.{OnlyReads};
ghost use Rattle.store_rows.specs.Rows.{Contents, HasContents};
ghost use Rattle.store_schema.specs.declared.schema.Schema.{Schema as ARelease};
ghost use Rattle.store_schema.specs.Earlier.{schema_under};
ghost use Rattle.terms.specs.Rising.{Rises};

use sqlite::{Alter, Connection};
use std::alloc::Global;
use store_rows::{FromRow, ReadError};
use store_schema::{Query, load_query};

/// A query for a whole table, whose rows have different keys.
pub trait WholeTable: Query {
    ghost use Rattle.std.specs.Prelude.{◌≡◌};

    type Key: Ord + Copy;

    ghost key_of: { Self.Rows.Item → Self.Key };

    /// The key of the item that a row stands for.
    fn key(item: &<Self::Rows as FromRow>::Item) -> Self::Key
        ensures { result ≡ key_of item.now };

    ghost whole: { Self.width ≡ 0 };
}

/// The items, sorted by their keys.
pub fn sort_by_keys<T: WholeTable>(
    mut items: Vec<<T::Rows as FromRow>::Item>,
) -> Vec<<T::Rows as FromRow>::Item>
    ensures same { IsPermutation items.items result.items }
    ensures only { (xs : List T.Rows.Item) → IsPermutation items.items xs → Rises T.Key.cmp T.key_of xs
        → result.items ≡ xs }
{
    items.sort_unstable_by_key(|item| T::key(item));
    items
}

/// The items of the table's rows, sorted by their keys. Returns `BadRow` if a row stands for no item, `Memory` if
/// memory runs out, and `Fault` if the disk fails or the tables are others.
pub fn load_sorted<S: Alter, T: WholeTable>(
    alloc: Global,
    conn: &mut Connection<S>,
) -> Result<Vec<<T::Rows as FromRow>::Item>, ReadError>
    ensures found { HasCleanDisk (state S.Store conn.new) → (r : ARelease) → T.knows r → (contents : Contents)
        → HasContents (schema_under r) contents (state S.Store conn.old).now
        → IfOk result (λ items. IsPermutation (map T.Rows.row_of items.items) (contents T.table.tree)) }
    ensures forms { IfOk result (λ items. AllByRecursion T.Rows.has_form items.items) }
    ensures only { HasCleanDisk (state S.Store conn.new) → (r : ARelease) → T.knows r → (contents : Contents)
        → HasContents (schema_under r) contents (state S.Store conn.old).now
        → IfOk result (λ items. (xs : List T.Rows.Item) → AllByRecursion T.Rows.has_form xs
        → Rises T.Key.cmp T.key_of xs → IsPermutation (map T.Rows.row_of xs) (contents T.table.tree)
        → items.items ≡ xs) }
    ensures none { HasCleanDisk (state S.Store conn.new) → IsErrOf result ReadError.BadRow → (r : ARelease)
        → T.knows r → (contents : Contents) → HasContents (schema_under r) contents (state S.Store conn.old).now
        → (xs : List T.Rows.Item) → AllByRecursion T.Rows.has_form xs → ¬ IsPermutation (map T.Rows.row_of xs)
        (contents T.table.tree) }
    ensures reads { (r : ARelease) → T.knows r
        → OnlyReads S.Store (schema_under r) ReadError.BadRow ReadError.Fault conn.old conn.new result }
{
    let items = load_query::<S, T>(alloc, conn, &[])?;
    Ok(sort_by_keys::<T>(items))
}
