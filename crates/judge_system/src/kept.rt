//! The ids of the kept candidates.
ghost use Rattle.std.specs.Prelude.{◌≡◌, ◌↔◌, ◌<◌, [], ℕ, Some, All, Contains, IsTrue, IfOk, length};
ghost use Rattle.std.specs.Prelude.{map, slice_get, slice_index_or};
ghost use Rattle.terms.specs.Types.{Id as AnId};
ghost use Rattle.solve.specs.System.{holds};

use fields::{Id, IdList};
use std::alloc::{AllocError, Global};

/// The ids of the kept candidates. `flags` says of each candidate, by its place, whether it is kept.
pub(crate) fn kept_ids(alloc: Global, ids: &[Id], flags: &[bool]) -> Result<IdList, AllocError>
    requires { length flags.now ≡ length ids.now }
    ensures { IfOk result (λ kept. (x : AnId) → Contains kept x
        ↔ ((n : ℕ) × (slice_get ids.now n ≡ Some x) × IsTrue (holds flags.now n))) }
{
    let mut kept = Vec::new(alloc);
    for i in 0..ids.len() {
        if !flags[i] {
            continue;
        }
        kept.push(ids[i])?;
    }
    Ok(IdList::from_vec(kept))
}

/// The ids at the places, in their order.
pub(crate) fn ids_at(alloc: Global, ids: &[Id], places: &[u32]) -> Result<Vec<Id>, AllocError>
    requires { All (λ m. m < length ids.now) places.now }
    ensures { IfOk result (λ found. found.items ≡ map (λ m. slice_index_or ids.now m []) places.now) }
{
    let mut found = Vec::new(alloc);
    for place in places {
        found.push(ids[*place as usize])?;
    }
    Ok(found)
}
