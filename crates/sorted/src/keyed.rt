//! Items with a key, and lists that rise by their keys.
ghost use Rattle.std.specs.Prelude.{◌≡◌, ◌<◌, ◌≤◌, ◌↔◌, length, take, drop, IsTrue, All, IfOk, IfErr};
ghost use Rattle.std.specs.Ordering.{is_lt};
ghost use Rattle.terms.specs.Rising.{Rises, Splits, StandsAt};

/// An item with a key.
pub trait Keyed {
    type Key: Ord + Copy;

    ghost key_of: { Self → Self.Key };

    /// The item's key.
    fn key(&self) -> Self::Key
        ensures { result ≡ key_of self.now };
}

/// The place of the item with the key. If there is none, the error is the place at which to insert it.
pub fn place<T: Keyed>(items: &[T], key: T::Key) -> Result<usize, usize>
    requires { Rises T.Key.cmp T.key_of items.now }
    ensures found { IfOk result
        (λ i. (i < length items.now) × ((x : T) × StandsAt T.Key.cmp T.key_of key items.now i x)) }
    ensures missing { IfErr result
        (λ i. (i ≤ length items.now)
        × Splits T.Key.cmp T.key_of key (take i items.now) (drop i items.now)) }
{
    items.binary_search_by_key(&key, |item| item.key())
}

/// Whether all items come before the key.
pub(crate) fn comes_after_all<T: Keyed>(items: &[T], key: T::Key) -> bool
    requires { Rises T.Key.cmp T.key_of items.now }
    ensures { IsTrue result ↔ All (λ x. IsTrue (is_lt (T.Key.cmp (T.key_of x) key))) items.now }
{
    match items.last() {
        Some(last) => last.key() < key,
        None => true,
    }
}

/// Whether the keys rise, none twice.
pub fn are_rising<T: Keyed>(items: &[T]) -> bool
    ensures { IsTrue result ↔ Rises T.Key.cmp T.key_of items.now }
{
    for i in 0..items.len() {
        if !comes_after_all(&items[..i], items[i].key()) {
            return false;
        }
    }
    true
}
