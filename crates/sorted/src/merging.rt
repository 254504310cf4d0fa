//! A list after edits, beside the old list.
ghost use Rattle.std.specs.Prelude.{◌≡◌, ◌++◌, [], IfOk, OnOk};
ghost use Rattle.std.specs.Option.{option_to_list};
ghost use Rattle.terms.specs.Rising.{Rises, before, behind};
ghost use Rattle.sorted.specs.Edits.{edit_key, edit_put, edited};

use crate::copies::{TryClone, append_clones};
use crate::edits::Edit;
use crate::keyed::Keyed;
use std::alloc::{AllocError, Global};

/// Copies of the items that stay and of those that the edits put, in order. It goes once over the items and the edits.
pub(crate) fn edited_copy<T: Keyed + TryClone>(
    alloc: Global,
    items: &[T],
    edits: &[Edit<T, T::Key>],
) -> Result<Vec<T>, AllocError>
    requires items { Rises T.Key.cmp T.key_of items.now }
    requires edits { Rises T.Key.cmp (edit_key T.key_of) edits.now }
    ensures { IfOk result (λ new. new.items ≡ edited T.Key.cmp T.key_of items.now edits.now) }
{
    let mut new = Vec::new(alloc);
    let mut rest = items;
    for edit in edits {
        let key = edit.key();
        rest = after_key(copy_before(alloc, rest, key, &mut new)?, key);
        copy_put_item(alloc, edit, &mut new)?;
    }
    append_clones(alloc, rest, &mut new)?;
    Ok(new)
}

// Appends copies of the items before the key to `new`, and returns the other items.
fn copy_before<'a, T: Keyed + TryClone>(
    alloc: Global,
    items: &'a [T],
    key: T::Key,
    new: &mut Vec<T>,
) -> Result<&'a [T], AllocError>
    requires { Rises T.Key.cmp T.key_of items.now }
    ensures copied { OnOk result (new.new.items ≡ new.old.items ++ before T.Key.cmp T.key_of key items.now) }
    ensures kept { IfOk result
        (λ rest. behind T.Key.cmp T.key_of key rest.now ≡ behind T.Key.cmp T.key_of key items.now) }
    ensures none { IfOk result (λ rest. before T.Key.cmp T.key_of key rest.now ≡ []) }
    ensures rises { IfOk result (λ rest. Rises T.Key.cmp T.key_of rest.now) }
{
    let mut rest = items;
    while let Some((first, others)) = rest.split_first() {
        if first.key() >= key {
            return Ok(rest);
        }
        new.push(first.try_clone(alloc)?)?;
        rest = others;
    }
    Ok(rest)
}

// The items after the key. No item comes before it, so only the first can have it.
fn after_key<T: Keyed>(items: &[T], key: T::Key) -> &[T]
    requires rises { Rises T.Key.cmp T.key_of items.now }
    requires none { before T.Key.cmp T.key_of key items.now ≡ [] }
    ensures { result.now ≡ behind T.Key.cmp T.key_of key items.now }
{
    let Some((first, others)) = items.split_first() else {
        return items;
    };
    if first.key() == key { others } else { items }
}

// Appends a copy of the item that the edit puts to `new`, if it puts one.
fn copy_put_item<T: Keyed + TryClone>(
    alloc: Global,
    edit: &Edit<T, T::Key>,
    new: &mut Vec<T>,
) -> Result<(), AllocError>
    ensures { OnOk result (new.new.items ≡ new.old.items ++ option_to_list (edit_put edit.now)) }
{
    if let Edit::Put(item) = edit {
        new.push(item.try_clone(alloc)?)?;
    }
    Ok(())
}
