//! The needs that each candidate serves.
ghost use Rattle.std.specs.Prelude.{◌≡◌, ◌<◌, ◌++◌, ℕ, All, IfOk, OnOk, false, Any, IsTrue, length, replicate};
ghost use Rattle.solve.specs.Rows.{row_at, times};
ghost use Rattle.solve.specs.System.{holds};
ghost use Rattle.smpe_certificate.specs.Index.{AreServed};

use solve::{System, empty_rows};
use std::alloc::{AllocError, Global};

// Adds the value to the row of each number in the list, once for each time that the list has the number.
fn add_to_rows(rows: &mut [Vec<usize>], list: &[u32], value: usize) -> Result<(), AllocError>
    requires { All (λ y. y < length rows.old) list.now }
    ensures { OnOk result ((x : ℕ) → row_at rows.new x ≡ row_at rows.old x ++ replicate (times x list.now) value) }
{
    for y in list {
        rows[*y as usize].push(value)?;
    }
    Ok(())
}

/// For each candidate, the places of the needs that it serves.
pub(crate) fn served_needs(alloc: Global, system: &System) -> Result<Vec<Vec<usize>>, AllocError>
    ensures { IfOk result (λ rows. AreServed system.now rows.items) }
{
    let mut rows = empty_rows(alloc, system.size())?;
    let needs = system.needs();
    for place in 0..needs.len() {
        add_to_rows(&mut rows, &needs[place].any, place)?;
    }
    Ok(rows)
}

/// The row of a candidate.
pub(crate) fn row_of(rows: &[Vec<usize>], candidate: u32) -> &[usize]
    requires { candidate < length rows.now }
    ensures { result.now ≡ row_at rows.now candidate }
{
    rows[candidate as usize].as_slice()
}

// Whether the set has the number; no number past its end is a member.
fn is_member(set: &[bool], x: u32) -> bool
    ensures { result ≡ holds set.now x }
{
    matches!(set.get(x as usize), Some(true))
}

/// Whether some number of the list is in the set.
pub(crate) fn contains_any(set: &[bool], list: &[u32]) -> bool
    ensures some { IsTrue result → Any (λ y. IsTrue (holds set.now y)) list.now }
    ensures none { result ≡ false → All (λ y. holds set.now y ≡ false) list.now }
{
    list.iter().any(|x| is_member(set, *x))
}
