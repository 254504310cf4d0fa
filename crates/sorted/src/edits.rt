//! Edits of items that rise by their keys.
ghost use Rattle.std.specs.Prelude.{◌≡◌, ◌++◌, ◌∷◌, ◌+◌, ◌<◌, ◌≤◌, [], length, IfSome, IfNone, IsTrue, vec_len, vec_capacity};
ghost use Rattle.std.specs.Option.{option_to_list};
ghost use Rattle.std.specs.VecDeque.{deque_len};
ghost use Rattle.std.specs.Ordering.{is_lt};
ghost use Rattle.terms.specs.Rising.{Rises, before, behind};
ghost use Rattle.sorted.specs.Edits.{edit_key, edit_put, edited};

use crate::copies::TryClone;
use crate::keyed::Keyed;
use std::alloc::{AllocError, Global};
use std::collections::VecDeque;
use std::mem;

/// What a change does at a key: it puts an item there, or removes the one that is there.
#[derive(Drop)]
pub enum Edit<T, K> {
    Put(T),
    Remove(K),
}

impl<T: Keyed> Keyed for Edit<T, T::Key> {
    ghost use Rattle.sorted.specs.Edits.{edit_key};

    type Key = T::Key;

    ghost key_of = { edit_key T.key_of };

    fn key(&self) -> T::Key {
        match self {
            Edit::Put(item) => item.key(),
            Edit::Remove(key) => *key,
        }
    }
}

impl<T: Keyed + TryClone> TryClone for Edit<T, T::Key> {
    fn try_clone(&self, alloc: Global) -> Result<Self, AllocError> {
        match self {
            Edit::Put(item) => Ok(Edit::Put(item.try_clone(alloc)?)),
            Edit::Remove(key) => Ok(Edit::Remove(*key)),
        }
    }
}

/// Makes the edits. It moves the items that stay and those that are put into the room, so it allocates nothing.
pub(crate) fn make_edits<T: Keyed + Drop>(
    items: &mut Vec<T>,
    edits: Vec<Edit<T, T::Key>>,
    room: Vec<T>,
)
    requires items { Rises T.Key.cmp T.key_of items.old.items }
    requires edits { Rises T.Key.cmp (edit_key T.key_of) edits.items }
    requires empty { room.items ≡ [] }
    requires room { vec_len items.old + vec_len edits ≤ vec_capacity room }
    ensures { items.new.items ≡ edited T.Key.cmp T.key_of items.old.items edits.items }
{
    let mut rest = VecDeque::from_vec(mem::replace(items, room));
    for edit in edits {
        let key = edit.key();
        move_before(&mut rest, items, key);
        remove_key(&mut rest, key);
        move_put_item(edit, items);
    }
    move_all(rest, items);
}

// Takes the first item, if it comes before the key.
fn pop_before<T: Keyed>(rest: &mut VecDeque<T>, key: T::Key) -> Option<T>
    requires { Rises T.Key.cmp T.key_of rest.old.items }
    ensures some { IfSome result (λ x. (rest.old.items ≡ x ∷ rest.new.items)
        × IsTrue (is_lt (T.Key.cmp (T.key_of x) key))) }
    ensures none { IfNone result ((rest.new.items ≡ rest.old.items)
        × (before T.Key.cmp T.key_of key rest.old.items ≡ [])) }
    ensures len { deque_len rest.new + length (option_to_list result) ≡ deque_len rest.old }
{
    if rest.front()?.key() < key {
        rest.pop_front()
    } else {
        None
    }
}

// Moves the items before the key to the end of `new`.
fn move_before<T: Keyed + Drop>(rest: &mut VecDeque<T>, new: &mut Vec<T>, key: T::Key)
    requires rises { Rises T.Key.cmp T.key_of rest.old.items }
    requires room { vec_len new.old + deque_len rest.old ≤ vec_capacity new.old }
    ensures moved { new.new.items ≡ new.old.items ++ before T.Key.cmp T.key_of key rest.old.items }
    ensures kept { behind T.Key.cmp T.key_of key rest.new.items ≡ behind T.Key.cmp T.key_of key rest.old.items }
    ensures none { before T.Key.cmp T.key_of key rest.new.items ≡ [] }
    ensures rises { Rises T.Key.cmp T.key_of rest.new.items }
    ensures len { vec_len new.new + deque_len rest.new ≡ vec_len new.old + deque_len rest.old }
    ensures capacity { vec_capacity new.new ≡ vec_capacity new.old }
{
    while let Some(item) = pop_before(rest, key) {
        new.push_reserved(item);
    }
}

// Removes the item of the key, if there is one. It could only be the first: no item comes before the key.
fn remove_key<T: Keyed + Drop>(rest: &mut VecDeque<T>, key: T::Key)
    requires rises { Rises T.Key.cmp T.key_of rest.old.items }
    requires none { before T.Key.cmp T.key_of key rest.old.items ≡ [] }
    ensures rest { rest.new.items ≡ behind T.Key.cmp T.key_of key rest.old.items }
    ensures len { deque_len rest.new ≤ deque_len rest.old }
{
    let Some(first) = rest.front() else {
        return;
    };
    if first.key() == key {
        drop(rest.pop_front());
    }
}

// Moves all items that are left to the end of `new`.
fn move_all<T: Drop>(mut rest: VecDeque<T>, new: &mut Vec<T>)
    requires { vec_len new.old + deque_len rest ≤ vec_capacity new.old }
    ensures { new.new.items ≡ new.old.items ++ rest.items }
{
    while let Some(item) = rest.pop_front() {
        new.push_reserved(item);
    }
}

// Moves the item that the edit puts to the end of `new`, if it puts one.
fn move_put_item<T: Keyed + Drop>(edit: Edit<T, T::Key>, new: &mut Vec<T>)
    requires { vec_len new.old < vec_capacity new.old }
    ensures items { new.new.items ≡ new.old.items ++ option_to_list (edit_put edit) }
    ensures len { vec_len new.new ≤ vec_len new.old + 1 }
    ensures capacity { vec_capacity new.new ≡ vec_capacity new.old }
{
    match edit {
        Edit::Put(item) => new.push_reserved(item),
        Edit::Remove(_) => {}
    }
}
