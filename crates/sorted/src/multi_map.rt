//! Lists by keys: for each key some values, in the order in which they came.
ghost use Rattle.std.specs.Prelude.{◌≡◌, ◌∷◌, [], IfOk, OnOk};
ghost use Rattle.sorted.specs.MultiMap.{Adds, AddsToAll, listed};

use std::alloc::{AllocError, Global};
use std::collections::BTreeMap;

/// For each key some values.
pub type MultiMap<K, V> = BTreeMap<K, Vec<V>>;

/// Adds the value after those of the key.
pub fn add<K: Ord + Copy, V: Drop>(
    alloc: Global,
    lists: &mut MultiMap<K, V>,
    key: K,
    value: V,
) -> Result<(), AllocError>
    ensures { OnOk result (Adds K.cmp key value lists.old lists.new) }
{
    if let Some(values) = lists.get_mut(&key) {
        values.push(value)?;
        return Ok(());
    }
    lists.insert(key, list_of_one(alloc, value)?)?;
    Ok(())
}

/// Adds the value once for each of these keys, after those of the key. If memory runs out, some of the keys may have
/// the value.
pub fn add_to_all<K: Ord + Copy, V: Copy>(
    alloc: Global,
    lists: &mut MultiMap<K, V>,
    keys: &[K],
    value: V,
) -> Result<(), AllocError>
    ensures { OnOk result (AddsToAll K.cmp keys.now value lists.old lists.new) }
{
    for key in keys {
        add(alloc, lists, *key, value)?;
    }
    Ok(())
}

// The value by itself, as the list of a new key.
fn list_of_one<V: Drop>(alloc: Global, value: V) -> Result<Vec<V>, AllocError>
    ensures { IfOk result (λ values. values.items ≡ value ∷ []) }
{
    let mut values = Vec::new(alloc);
    values.push(value)?;
    Ok(values)
}

/// The values of the key.
pub fn listed<K: Ord + Copy, V>(lists: &MultiMap<K, V>, key: K) -> &[V]
    ensures { result.now ≡ listed K.cmp lists.now key }
{
    match lists.get(&key) {
        Some(values) => values.as_slice(),
        None => &[],
    }
}
