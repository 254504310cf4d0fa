//! The rows of the items of a list. Those of an item may count the items before it.

ghost use Rattle.std.specs.Prelude.{◌≡◌, ◌+◌, ◌<◌, ◌^◌, ◌++◌, length, map, [], OnOk};
ghost use Rattle.store_rows.specs.Rows.{as_bound};
ghost use Rattle.store_sysmods.specs.Behind.{rows_behind};

use sqlite_value::row::Row as Cells;
use std::alloc::AllocError;

/// The rows of one table for an item that follows others of its list.
pub(crate) trait ItemRows {
    ghost use Rattle.std.specs.Prelude.{◌≡◌, ◌+◌, ◌<◌, ◌^◌, ◌++◌, List, length, map, OnOk};
    ghost use Rattle.sqlite.specs.Order.{Row};
    ghost use Rattle.store_rows.specs.Rows.{as_bound};

    type Item;

    ghost of_item: { Self → List Self.Item → Self.Item → List Row };

    /// Adds the rows of the item. `front` has the items of the list before it.
    fn append_rows(
        &self,
        rows: &mut Vec<Cells>,
        front: &[Self::Item],
        item: &Self::Item,
    ) -> Result<(), AllocError>
        requires { length front.now + 1 < 2 ^ 63 }
        ensures { OnOk result (map as_bound rows.new.items
            ≡ map as_bound rows.old.items ++ of_item self.now front.now item.now) };
}

/// Adds the rows of each item, in order.
pub(crate) fn append_all_rows<R: ItemRows>(
    rows: &mut Vec<Cells>,
    item_rows: &R,
    items: &[R::Item],
) -> Result<(), AllocError>
    requires { length items.now < 2 ^ 63 }
    ensures { OnOk result (map as_bound rows.new.items
        ≡ map as_bound rows.old.items ++ rows_behind (R.of_item item_rows.now) [] items.now) }
{
    for (index, item) in items.iter().enumerate() {
        item_rows.append_rows(rows, &items[..index], item)?;
    }
    Ok(())
}
