//! Lists of the same texts, in whatever order.
ghost use Rattle.std.specs.Prelude.{◌≡◌, ◌↔◌, ◌∷◌, [], IsTrue, IfOk, All, map};
ghost use Rattle.terms.specs.Lookups.{is_in};
ghost use Rattle.intake_asked.specs.Said.{AreThese};

use fields::{Class, Id, Reason, Source, ZoneName};
use rec80::is_among;
use std::alloc::{AllocError, Global};

/// A value that is a word of a command: an id, a source id, a reason, a class, or the name of a zone.
pub(crate) trait Worded {
    ghost use Rattle.std.specs.Prelude.{◌≡◌, ℕ, List};

    ghost text: { Self → List ℕ };

    /// The text of the word.
    fn word(&self) -> &[u8]
        ensures { result.now ≡ text self.now };
}

impl Worded for Id {
    ghost text = { λ value. value };

    fn word(&self) -> &[u8] {
        self.as_bytes()
    }
}

impl Worded for Source {
    ghost text = { λ value. value };

    fn word(&self) -> &[u8] {
        self.as_bytes()
    }
}

impl Worded for Reason {
    ghost text = { λ value. value };

    fn word(&self) -> &[u8] {
        self.as_bytes()
    }
}

impl Worded for Class {
    ghost text = { λ value. value };

    fn word(&self) -> &[u8] {
        self.as_bytes()
    }
}

impl Worded for ZoneName {
    ghost text = { λ value. value };

    fn word(&self) -> &[u8] {
        self.as_bytes()
    }
}

/// The texts of the values.
pub(crate) fn texts_of<T: Worded>(alloc: Global, values: &[T]) -> Result<Vec<&[u8]>, AllocError>
    ensures { IfOk result (λ words. map (λ word. word.now) words.items ≡ map T.text values.now) }
{
    let mut words = Vec::with_capacity(alloc, values.len())?;
    for value in values {
        words.push(value.word())?;
    }
    Ok(words)
}

// Whether each of the texts is one of the others.
fn are_among(texts: &[&[u8]], others: &[&[u8]]) -> bool
    ensures { IsTrue result ↔ All (λ text. IsTrue (is_in (map (λ other. other.now) others.now) text.now)) texts.now }
{
    texts.iter().all(|text| is_among(others, text))
}

// Whether both lists have the same texts, in whatever order.
fn have_same_texts(texts: &[&[u8]], others: &[&[u8]]) -> bool
    ensures { IsTrue result → AreThese (map (λ text. text.now) texts.now) (map (λ other. other.now) others.now) }
{
    are_among(texts, others) && are_among(others, texts)
}

/// Whether the texts of the values are exactly the wanted ones, in whatever order.
pub(crate) fn are_wanted_texts<T: Worded>(
    alloc: Global,
    values: &[T],
    wanted: &[&[u8]],
) -> Result<bool, AllocError>
    ensures { IfOk result (λ are. IsTrue are → AreThese (map T.text values.now) (map (λ word. word.now) wanted.now)) }
{
    let words = texts_of(alloc, values)?;
    Ok(have_same_texts(words.as_slice(), wanted))
}

/// Whether the wanted texts are only the text of the value.
pub(crate) fn is_only_wanted_text<T: Worded>(
    alloc: Global,
    value: &T,
    wanted: &[&[u8]],
) -> Result<bool, AllocError>
    ensures { IfOk result (λ is. IsTrue is → AreThese (T.text value.now ∷ []) (map (λ word. word.now) wanted.now)) }
{
    let mut words = Vec::new(alloc);
    words.push(value.word())?;
    Ok(have_same_texts(words.as_slice(), wanted))
}

/// Whether there are no texts. The contract of `is_empty` says this of the references, and the contract here says it of
/// the texts.
pub(crate) fn has_no_texts(texts: &[&[u8]]) -> bool
    ensures { IsTrue result → map (λ text. text.now) texts.now ≡ [] }
{
    texts.is_empty()
}
