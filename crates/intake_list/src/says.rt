//! What an entry says of a SYSMOD or an element.
ghost use Rattle.std.specs.Prelude.{◌≡◌, ◌++◌, ◌&&◌, IfOk, OnOk, map, codes};
ghost use Rattle.std.specs.Str.{bytes_eq};
ghost use Rattle.intake_list.specs.Says.{
  is_among,
  has_name,
  values_of_key,
  values_in,
  values_under,
  has_value,
  standing_of,
};

use crate::entry::{ListEntry, ListKey};
use crate::list_words::{add_words, word_at};
use std::alloc::{AllocError, Global};

/// Whether a SYSMOD is on.
#[derive(Clone, Copy, Debug, PartialEq, Eq)]
pub enum Stands {
    On,
    Superseded,
    Deleted,
    /// It is only received, or the list gives no STATUS.
    Off,
}

// Whether both texts are the same.
fn are_same(left: &[u8], right: &[u8]) -> bool
    ensures { result ≡ bytes_eq left.now right.now }
{
    left == right
}

// Whether the text is one of the words.
fn is_among(words: &[&[u8]], text: &[u8]) -> bool
    ensures { result ≡ is_among (map (λ word. word.now) words.now) text.now }
{
    for word in words {
        if are_same(*word, text) {
            return true;
        }
    }
    false
}

// Whether the key has this name.
fn has_name(name: &[u8], key: &ListKey<'_>) -> bool
    ensures { result ≡ has_name name.now key.now }
{
    word_at(key.name(), 0) == name
}

// Whether the key has this name and the value.
fn has_name_and_value(name: &[u8], text: &[u8], key: &ListKey<'_>) -> bool
    ensures { result ≡ (has_name name.now key.now && is_among key.now.values text.now) }
{
    has_name(name, key) && is_among(key.values(), text)
}

/// Whether a key of this name has the value.
pub fn has_value(name: &[u8], text: &[u8], entry: &ListEntry<'_>) -> bool
    ensures { result ≡ has_value name.now text.now entry.now }
{
    let keys = entry.keys();
    keys.iter().any(|key| has_name_and_value(name, text, key))
}

// Adds the values of the key, if it has this name.
fn add_values_of_key<'a>(
    values: &mut Vec<&'a [u8]>,
    name: &[u8],
    key: &ListKey<'a>,
) -> Result<(), AllocError>
    ensures { OnOk result (map (λ word. word.now) values.new.items
        ≡ map (λ word. word.now) values.old.items ++ values_of_key name.now key.now) }
{
    if has_name(name, key) {
        add_words(values, key.values())?;
    }
    Ok(())
}

/// All values of the keys of this name.
pub fn values_under<'a>(
    alloc: Global,
    name: &[u8],
    entry: &ListEntry<'a>,
) -> Result<Vec<&'a [u8]>, AllocError>
    ensures { IfOk result (λ values. map (λ word. word.now) values.items ≡ values_under name.now entry.now) }
{
    let mut values = Vec::new(alloc);
    let all = entry.keys();
    for key in all {
        add_values_of_key(&mut values, name, key)?;
    }
    Ok(values)
}

// Whether a key STATUS has the value.
fn has_status(text: &[u8], entry: &ListEntry<'_>) -> bool
    ensures { result ≡ has_value (codes "STATUS") text.now entry.now }
{
    has_value(b"STATUS", text, entry)
}

// Whether a key TYPE has the value.
fn has_type(text: &[u8], entry: &ListEntry<'_>) -> bool
    ensures { result ≡ has_value (codes "TYPE") text.now entry.now }
{
    has_value(b"TYPE", text, entry)
}

/// Whether the SYSMOD of the entry is on.
pub fn standing_of(entry: &ListEntry<'_>) -> Stands
    ensures { result ≡ standing_of entry.now }
{
    if has_type(b"SUPERSEDED", entry) {
        Stands::Superseded
    } else if has_type(b"DELETED", entry) {
        Stands::Deleted
    } else if has_status(b"APP", entry) || has_status(b"ACC", entry) {
        Stands::On
    } else {
        Stands::Off
    }
}
