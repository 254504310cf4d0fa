//! The words of statements that bring or update elements.
ghost use Rattle.std.specs.Prelude.{◌≡◌, IfSome, IfNone};
ghost use Rattle.intake_elements.specs.Elements.{
  IsProfileType,
  IsLacked,
  stand_in_type,
  is_update,
  is_update_word,
  is_source,
};

use fields::Name;
use fields::spelling::read_type;
use terms::{ElemType, Kind};

/// The element that a statement of the profile changes.
#[derive(Clone, Copy)]
pub(crate) struct Target {
    pub(crate) elem_type: ElemType,
    pub(crate) name: Name,
}

/// The type of the element that a statement of this word changes, or `None` if the profile lacks the word.
#[tactic(auto, using(crate::proofs::Targets::lacked))]
pub(crate) fn profile_type(word: &[u8]) -> Option<ElemType>
    ensures found { IfSome result (IsProfileType word.now) }
    ensures none { IfNone result (IsLacked word.now) }
{
    if word == b"MACUPD".as_slice() {
        return Some(ElemType::Mac);
    }
    if word == b"SRCUPD".as_slice() {
        return Some(ElemType::Src);
    }
    read_type(word)
}

/// Whether a statement of the word updates its element.
pub(crate) fn is_update_word(word: &[u8]) -> bool
    ensures { result ≡ is_update_word word.now }
{
    word == b"MACUPD".as_slice()
        || word == b"SRCUPD".as_slice()
        || word == b"ZAP".as_slice()
        || word == b"JARUPD".as_slice()
}

/// Whether a statement of the word in a SYSMOD of the kind updates its element. A function brings only whole elements.
pub(crate) fn is_update(kind: Kind, word: &[u8]) -> bool
    ensures { result ≡ is_update kind word.now }
{
    kind != Kind::Function && is_update_word(word)
}

/// Whether a statement of the word brings or updates a source.
pub(crate) fn is_source(word: &[u8]) -> bool
    ensures { result ≡ is_source word.now }
{
    word == b"SRC".as_slice() || word == b"SRCUPD".as_slice()
}

/// The type of the stand-in for the element of a statement that the profile lacks.
pub(crate) fn stand_in_type(word: &[u8]) -> ElemType
    ensures { result ≡ stand_in_type word.now }
{
    if word == b"MOD".as_slice()
        || word == b"PROGRAM".as_slice()
        || word == b"JAR".as_slice()
        || word == b"ZAP".as_slice()
        || word == b"JARUPD".as_slice()
    {
        ElemType::Mac
    } else {
        ElemType::Data
    }
}
