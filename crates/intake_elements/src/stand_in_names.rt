//! The names of stand-ins: the same in every run for the same element.
ghost use Rattle.std.specs.Prelude.{◌≡◌, ◌<◌, ◌++◌, IfSome, codes, true};
ghost use Rattle.std.specs.List.{fold};
ghost use Rattle.terms.specs.declared.kinds.ElemType.{ElemType as AnyType};
ghost use Rattle.terms.specs.declared.kinds.ElemType.TheVariants.{Mac};
ghost use Rattle.terms.specs.Types.{Text};
ghost use Rattle.intake_elements.specs.StandInNames.{hash_step, hash_of, character, name_of, stand_in_name, owner_word};
ghost use Rattle.intake_elements.specs.StandInNames.{key_of};
ghost use Rattle.intake_elements.specs.Elements.{IsTarget, module_name};

use crate::element_words::{profile_type, stand_in_type};
use fields::Name;
use fields::spelling::type_text;
use intake_read::WideElement;
use terms::ElemType;

/// The characters of names, of which the first 29 may stand in front.
const CHARACTERS: &[u8; 39] = b"ABCDEFGHIJKLMNOPQRSTUVWXYZ$#@0123456789";

/// How many names of eight characters there are, and so how many hashes: 29 times the seventh power of 39.
const NAMES: u64 = 3979699193691;

/// The factor of the hash, a prime number.
const FACTOR: u64 = 1000003;

// Continues a hash over these bytes.
fn continue_hash(start: u64, text: &[u8]) -> u64
    requires { start < 3979699193691 }
    ensures below { result < 3979699193691 }
    ensures folded { result ≡ fold hash_step start text.now }
{
    let mut hash = start;
    for byte in text {
        hash = (hash * FACTOR + *byte as u64) % NAMES;
    }
    hash
}

// The character for a digit of the number to the base 39: the digit that counts this power of 39.
fn character(number: u64, power: u64) -> u8
    requires { 0 < power }
    ensures { result ≡ character number power }
{
    CHARACTERS[(number / power % 39) as usize]
}

/// The word of the statement that brings the element that a statement of this word changes: `++ZAP` changes a module,
/// and `++JARUPD` a JAR.
pub(crate) fn owner_word(word: &[u8]) -> &[u8]
    ensures { result.now ≡ owner_word word.now }
{
    if word == b"ZAP".as_slice() {
        b"MOD"
    } else if word == b"JARUPD".as_slice() {
        b"JAR"
    } else {
        word
    }
}

// The hash of a word and a name, with a parenthesis between, so that no two pairs are hashed as the same text.
#[tactic(auto, using(crate::proofs::Targets::hash_parts))]
fn hash_of(word: &[u8], name: &[u8]) -> u64
    ensures { result ≡ hash_of (word.now ++ codes "(" ++ name.now) }
{
    continue_hash(continue_hash(continue_hash(0, word), b"("), name)
}

// The hash as a name: its eight digits to the base 39, from the seventh power of 39 down.
fn name_of(hash: u64) -> [u8; 8]
    ensures { result ≡ name_of hash }
{
    [
        character(hash, 137231006679),
        character(hash, 3518743761),
        character(hash, 90224199),
        character(hash, 2313441),
        character(hash, 59319),
        character(hash, 1521),
        character(hash, 39),
        character(hash, 1),
    ]
}

// The name of the stand-in of an element of this name in a statement of this word, as bytes.
fn stand_in_name_bytes(word: &[u8], name: &[u8]) -> [u8; 8]
    ensures { result ≡ stand_in_name word.now name.now }
{
    name_of(hash_of(owner_word(word), name))
}

/// The name of the stand-in of an element of this name in a statement of this word, or `None` if it does not
/// have the form of a name.
pub(crate) fn stand_in_name(word: &[u8], name: &[u8]) -> Option<Name>
    ensures { IfSome result (λ found. found ≡ stand_in_name word.now name.now) }
{
    Name::read(stand_in_name_bytes(word, name).as_slice())
}

/// The key of the element of this type and name: a hash, so others may have it too.
pub fn change_key(elem_type: ElemType, name: &[u8]) -> u64
    ensures { result ≡ key_of elem_type name.now }
{
    hash_of(type_text(elem_type), name)
}

/// The key of the element that the statement changes if stand-ins are asked for. All statements that change the element
/// have it.
pub(crate) fn element_key(element: &WideElement) -> u64
    ensures { (type : AnyType) (name : Text)
        → IsTarget true element.now.word.items element.now.name.items type name → result ≡ key_of type name }
{
    let word = element.word.as_slice();
    let name = element.name.as_slice();
    match profile_type(word) {
        Some(elem_type) => change_key(elem_type, name),
        None => change_key(
            stand_in_type(word),
            stand_in_name_bytes(word, name).as_slice(),
        ),
    }
}

/// The key of the stand-in of the module of this name.
pub(crate) fn module_key(module: &[u8]) -> u64
    ensures { result ≡ key_of Mac (module_name module.now) }
{
    change_key(
        ElemType::Mac,
        stand_in_name_bytes(b"MOD", module).as_slice(),
    )
}
