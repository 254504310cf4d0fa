//! Items in the order of their keys, no key twice.
ghost use Rattle.std.specs.Prelude.{◌≡◌, ◌<◌, ◌≤◌, ◌↔◌, ◌+◌, ◌++◌, [], ◌∷◌, length, IsTrue, All, IfOk};
ghost use Rattle.std.specs.Prelude.{IfSome, IfNone, OnOk, OnErr, List, IsPermutation, find, option_copied};
ghost use Rattle.std.specs.Prelude.{if◌then◌else◌};
ghost use Rattle.std.specs.Ordering.{is_lt};
ghost use Rattle.terms.specs.Rising.{Rises, with_item};
ghost use Rattle.sorted.specs.Edits.{edited};

use crate::copies::{TryClone, try_clone_all};
use crate::edits::{Edit, make_edits};
use crate::keyed::{Keyed, are_rising, comes_after_all, place};
use crate::merging::edited_copy;
use std::alloc::{AllocError, Global};
use std::marker::Model;

/// Items that rise by their keys, no key twice. A contract sees them as their list.
#[derive(Drop)]
pub struct Table<T: Keyed + Drop> {
    items: Vec<T>,
}

impl<T: Keyed + Drop> Model for Table<T> {
    ghost use Rattle.std.specs.Prelude.{List};
    ghost use Rattle.terms.specs.Rising.{Rises};

    ghost Value = { List T };

    ghost view = { λ a. a.items.items };

    ghost invariant = { λ a. Rises T.Key.cmp T.key_of a.items.items };
}

/// Edits that a table takes without allocating: copies of the edits, and room for the items that result.
#[derive(Drop)]
pub struct Prepared<T: Keyed + Drop> {
    edits: Table<Edit<T, T::Key>>,
    room: Vec<T>,
}

impl<T: Keyed + Drop> Model for Prepared<T> {
    ghost use Rattle.std.specs.Prelude.{◌≡◌, [], vec_capacity};
    ghost use Rattle.sorted.specs.Edits.{PreparedEdits};

    ghost Value = { PreparedEdits T T.Key };

    ghost view = { λ p. record { edits = p.edits; room = vec_capacity p.room } };

    ghost invariant = { λ p. p.room.items ≡ [] };
}

impl<T: Keyed + Drop> Table<T> {
    /// A table of no items.
    pub fn new(alloc: Global) -> Self
        ensures { result ≡ [] }
    {
        Table {
            items: Vec::new(alloc),
        }
    }

    /// The table of these items, if no two of them have the same key. It sorts them.
    pub fn from_vec(mut items: Vec<T>) -> Option<Self>
        ensures same { IfSome result (λ table. IsPermutation items.items table) }
        ensures rising { IfSome result (λ table. Rises T.Key.cmp T.key_of table) }
        ensures none { IfNone result
            ((other : List T) → IsPermutation items.items other → ¬ Rises T.Key.cmp T.key_of other) }
    {
        items.sort_unstable_by_key(|item| item.key());
        if !are_rising(items.as_slice()) {
            return None;
        }
        Some(Table { items })
    }

    /// Its items, which rise by their keys.
    pub fn into_vec(self) -> Vec<T>
        ensures items { result.items ≡ self }
        ensures rising { Rises T.Key.cmp T.key_of result.items }
    {
        self.items
    }

    /// Its items, which rise by their keys.
    pub fn as_slice(&self) -> &[T]
        ensures items { result.now ≡ self.now }
        ensures rising { Rises T.Key.cmp T.key_of result.now }
    {
        self.items.as_slice()
    }

    /// The item of the key, if there is one.
    pub fn get(&self, key: T::Key) -> Option<&T>
        ensures { option_copied result ≡ find (λ x. T.Key.eq (T.key_of x) key) self.now }
    {
        match place(self.items.as_slice(), key) {
            Ok(place) => Some(&self.items[place]),
            Err(_) => None,
        }
    }

    /// Puts the item at its place, and replaces one of the same key.
    pub fn put(&mut self, item: T) -> Result<(), AllocError>
        ensures ok { OnOk result (self.new ≡ with_item T.Key.cmp T.key_of self.old item) }
        ensures err { OnErr result (self.new ≡ self.old) }
        ensures rising { Rises T.Key.cmp T.key_of self.new }
    {
        match place(self.items.as_slice(), item.key()) {
            Ok(place) => {
                self.items[place] = item;
                Ok(())
            }
            Err(place) => {
                self.items.insert(place, item)?;
                Ok(())
            }
        }
    }

    /// Appends the item if its key comes after all others, and returns whether it does.
    pub fn push_last(&mut self, item: T) -> Result<bool, AllocError>
        ensures fits { IfOk result
            (λ fits. IsTrue fits
            ↔ All (λ x. IsTrue (is_lt (T.Key.cmp (T.key_of x) (T.key_of item)))) self.old) }
        ensures ok { IfOk result
            (λ fits. self.new ≡ (if fits then self.old ++ item ∷ [] else self.old)) }
        ensures err { OnErr result (self.new ≡ self.old) }
    {
        let fits = comes_after_all(self.items.as_slice(), item.key());
        if fits {
            self.items.push(item)?;
        }
        Ok(fits)
    }
}

impl<T: Keyed + TryClone> Table<T> {
    /// A table of the same items.
    pub fn try_clone(&self, alloc: Global) -> Result<Self, AllocError>
        ensures { IfOk result (λ copy. copy ≡ self.now) }
    {
        Ok(Table {
            items: try_clone_all(alloc, self.items.as_slice())?,
        })
    }

    /// A new table after these edits, in time proportional to the number of items and edits.
    pub fn edited(&self, alloc: Global, edits: &Table<Edit<T, T::Key>>) -> Result<Self, AllocError>
        ensures items { IfOk result (λ new. new ≡ edited T.Key.cmp T.key_of self.now edits.now) }
        ensures rising { IfOk result (Rises T.Key.cmp T.key_of) }
    {
        let items = edited_copy(alloc, self.items.as_slice(), edits.items.as_slice())?;
        Ok(Table { items })
    }

    /// Copies these edits and reserves room for their result, so that [`Table::edit`] allocates nothing.
    pub fn prepare(
        &self,
        alloc: Global,
        edits: &Table<Edit<T, T::Key>>,
    ) -> Result<Prepared<T>, AllocError>
        ensures { IfOk result (λ made. (made.edits ≡ edits.now) × (length self.now + length edits.now ≤ made.room)) }
    {
        let most_items = self.items.len().checked_add(edits.items.len());
        Ok(Prepared {
            edits: edits.try_clone(alloc)?,
            room: Vec::with_capacity(alloc, most_items.ok_or(AllocError)?)?,
        })
    }

    /// Makes the edits, in time proportional to the number of items and edits. It moves the items that stay and those
    /// that are put, so it allocates nothing.
    pub fn edit(&mut self, prepared: Prepared<T>)
        requires { length self.old + length prepared.edits ≤ prepared.room }
        ensures items { self.new ≡ edited T.Key.cmp T.key_of self.old prepared.edits }
        ensures rising { Rises T.Key.cmp T.key_of self.new }
    {
        let Prepared { edits, room } = prepared;
        make_edits(&mut self.items, edits.into_vec(), room);
    }
}
