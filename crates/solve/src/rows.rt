//! A row of values for each number.
ghost use Rattle.std.specs.Prelude.{◌≡◌, ◌<◌, ◌++◌, [], ℕ, IfOk, OnOk, All, length, replicate};
ghost use Rattle.solve.specs.Rows.{row_at, times};

use std::alloc::{AllocError, Global};

/// `n` rows without members.
pub fn empty_rows<T: Copy>(alloc: Global, n: u32) -> Result<Vec<Vec<T>>, AllocError>
    ensures size { IfOk result (λ rows. length rows.items ≡ n) }
    ensures empty { IfOk result (λ rows. (x : ℕ) → row_at rows.items x ≡ []) }
{
    let mut rows = Vec::new(alloc);
    for _row in 0..n {
        rows.push(Vec::new(alloc))?;
    }
    Ok(rows)
}

/// Adds the value to the row of each number in the list, once for each time that the list has the number.
pub(crate) fn add_to_rows<T: Copy>(
    rows: &mut [Vec<T>],
    list: &[u32],
    value: T,
) -> Result<(), AllocError>
    requires { All (λ y. y < length rows.old) list.now }
    ensures { OnOk result ((x : ℕ) → row_at rows.new x ≡ row_at rows.old x ++ replicate (times x list.now) value) }
{
    for y in list {
        rows[*y as usize].push(value)?;
    }
    Ok(())
}
