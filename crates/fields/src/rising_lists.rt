//! Lists that rise by their bytes, none twice, as in statements and tables.
ghost use Rattle.std.specs.Prelude.{◌≡◌, ◌↔◌, ◌++◌, [], ◌∷◌, length, not, IsTrue, All, Contains, IfOk, OnOk, OnErr};
ghost use Rattle.std.specs.Prelude.{if◌then◌else◌};
ghost use Rattle.std.specs.List.{list_any};
ghost use Rattle.std.specs.Ordering.{is_lt};
ghost use Rattle.std.specs.Slice.Iter.{iter_rest};
ghost use Rattle.std.specs.Iterator.Adapters.{IterYieldsInOrder};
ghost use Rattle.terms.specs.Rising.{Rises, with_item, without_key};

use crate::attest::Attest;
use std::alloc::{AllocError, Global};
use std::marker::Model;
use std::slice::Iter;

/// A value whose order tells it apart from every other one.
pub trait Field: Ord + Copy {
    ghost use Rattle.std.specs.declared.cmp.Ordering.TheVariants.{Equal};

    ghost exact: { (x y : Self) → Self.cmp x y ≡ Equal → x ≡ y };
}

/// Values in rising order, none twice. A contract sees them as their list.
#[derive(Drop)]
pub struct Rising<T: Field> {
    items: Vec<T>,
}

impl<T: Field> Model for Rising<T> {
    ghost use Rattle.std.specs.Prelude.{List};
    ghost use Rattle.terms.specs.Rising.{Rises};

    ghost Value = { List T };

    ghost view = { λ a. a.items.items };

    ghost invariant = { λ a. Rises T.cmp (λ x. x) a.items.items };
}

impl<T: Field> Attest for Rising<T> {
    ghost use Rattle.terms.specs.Rising.{Rises};

    ghost form = { Rises T.cmp (λ x. x) };

    fn attest(&self) {
        let _ = self.as_slice();
    }
}

impl<T: Field> Rising<T> {
    /// An empty list.
    pub fn new(alloc: Global) -> Self
        ensures { result ≡ [] }
    {
        Rising {
            items: Vec::new(alloc),
        }
    }

    /// How many items it has.
    pub fn len(&self) -> usize
        ensures { result ≡ length self.now }
    {
        self.items.len()
    }

    /// Whether it is empty.
    pub fn is_empty(&self) -> bool
        ensures { IsTrue result ↔ (self.now ≡ []) }
    {
        self.items.is_empty()
    }

    /// Its items, rising.
    pub fn as_slice(&self) -> &[T]
        ensures items { result.now ≡ self.now }
        ensures rising { Rises T.cmp (λ x. x) result.now }
    {
        self.items.as_slice()
    }

    /// Its items, rising, one after the other.
    pub fn iter(&self) -> Iter<'_, T>
        ensures rest { iter_rest result ≡ self.now }
        ensures runs { IterYieldsInOrder T }
    {
        self.items.as_slice().iter()
    }

    /// Whether the item is in it.
    pub fn contains(&self, item: T) -> bool
        ensures { result ≡ list_any (T.eq item) self.now }
    {
        self.items.binary_search(&item).is_ok()
    }

    /// Puts the item into the list, unless it is there already, and returns whether it was new.
    pub fn insert(&mut self, item: T) -> Result<bool, AllocError>
        ensures added { IfOk result (λ added. added ≡ not (list_any (T.eq item) self.old)) }
        ensures ok { OnOk result (self.new ≡ with_item T.cmp (λ x. x) self.old item) }
        ensures err { OnErr result (self.new ≡ self.old) }
    {
        match self.items.binary_search(&item) {
            Ok(_) => Ok(false),
            Err(place) => {
                self.items.insert(place, item)?;
                Ok(true)
            }
        }
    }

    /// Takes the item out of the list, and returns whether it was there.
    pub fn remove(&mut self, item: T) -> bool
        ensures found { result ≡ list_any (T.eq item) self.old }
        ensures after { self.new ≡ without_key T.cmp (λ x. x) self.old item }
    {
        match self.items.binary_search(&item) {
            Ok(place) => {
                self.items.remove(place);
                true
            }
            Err(_) => false,
        }
    }

    /// Appends the item if it comes after all others, and returns whether it does.
    pub fn push_last(&mut self, item: T) -> Result<bool, AllocError>
        ensures fits { IfOk result
            (λ fits. IsTrue fits ↔ All (λ x. IsTrue (is_lt (T.cmp x item))) self.old) }
        ensures ok { IfOk result
            (λ fits. self.new ≡ (if fits then self.old ++ item ∷ [] else self.old)) }
        ensures err { OnErr result (self.new ≡ self.old) }
    {
        let fits = comes_after_all(self.items.as_slice(), item);
        if fits {
            self.items.push(item)?;
        }
        Ok(fits)
    }

    /// A list of the same items.
    pub fn try_clone(&self, alloc: Global) -> Result<Self, AllocError>
        ensures { IfOk result (λ copy. copy ≡ self.now) }
    {
        Ok(Rising {
            items: Vec::from_slice(alloc, self.items.as_slice())?,
        })
    }

    /// The list of these items. It sorts them and removes duplicates.
    pub fn from_vec(mut items: Vec<T>) -> Self
        ensures members { (x : T) → Contains result x ↔ Contains items.items x }
        ensures rising { Rises T.cmp (λ x. x) result }
    {
        items.sort_unstable();
        items.dedup();
        Rising { items }
    }
}

// Whether all items, which rise, come before this one.
fn comes_after_all<T: Field>(items: &[T], item: T) -> bool
    requires { Rises T.cmp (λ x. x) items.now }
    ensures { IsTrue result ↔ All (λ x. IsTrue (is_lt (T.cmp x item))) items.now }
{
    match items.last() {
        Some(last) => *last < item,
        None => true,
    }
}
