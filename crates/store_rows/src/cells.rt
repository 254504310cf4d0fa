//! Rows of columns.

ghost use Rattle.std.specs.Prelude.{◌≡◌, IfOk};
ghost use Rattle.sqlite.specs.Values.{bound};
ghost use Rattle.store_rows.specs.Rows.{as_bound};

use sqlite_value::row::Row as Cells;
use sqlite_value::value::ValueRef;
use std::alloc::{AllocError, Global};

/// A row whose columns are copies of these values.
pub fn row_of_values(alloc: Global, values: &[ValueRef<'_>]) -> Result<Cells, AllocError>
    ensures { IfOk result (λ cells. as_bound cells ≡ bound values.now) }
{
    let mut cells = Cells::new(alloc);
    for value in values {
        cells.push(*value)?;
    }
    Ok(cells)
}
