//! Copies of values that own memory.
ghost use Rattle.std.specs.Prelude.{◌≡◌, ◌++◌, IfOk, OnOk};

use std::alloc::{AllocError, Global};

/// A value that can be copied if there is enough memory.
pub trait TryClone: Drop {
    /// A copy.
    fn try_clone(&self, alloc: Global) -> Result<Self, AllocError>
        ensures { IfOk result (λ copy. copy ≡ self.now) };
}

/// A copy of each item.
pub fn try_clone_all<T: TryClone>(alloc: Global, items: &[T]) -> Result<Vec<T>, AllocError>
    ensures { IfOk result (λ copies. copies.items ≡ items.now) }
{
    let mut copies = Vec::new(alloc);
    append_clones(alloc, items, &mut copies)?;
    Ok(copies)
}

/// Appends a copy of each item to `copies`.
pub(crate) fn append_clones<T: TryClone>(
    alloc: Global,
    items: &[T],
    copies: &mut Vec<T>,
) -> Result<(), AllocError>
    ensures { OnOk result (copies.new.items ≡ copies.old.items ++ items.now) }
{
    for item in items {
        copies.push(item.try_clone(alloc)?)?;
    }
    Ok(())
}
