//! Operands without a list, and operands with one value.
ghost use Rattle.std.specs.Prelude.{ℕ, Bool, List, Option, [], ◌∷◌, option_map, IfOk, IfSome, IfNone, OnErr};
ghost use Rattle.std.specs.Prelude.{IsSomeAnd};
ghost use Rattle.terms.specs.Words.{HasMembers, plain};
ghost use Rattle.terms.specs.Operands.{operand, HasFlag, HasOwn, HasOptional, HasRequired};
ghost use Rattle.rec80.specs.Views.{word_of, words_of};

use crate::find::operand;
use crate::member::Member;
use crate::operand_errors::BadOperand;
use crate::words::Word;

/// Whether this operand was found. A flag is its name only, so it returns an error if the operand has a list.
pub fn flag(found: &Option<Word<'_>>) -> Result<bool, BadOperand>
    ensures ok { IfOk result (λ flag. HasFlag (option_map word_of found.now) flag) }
    ensures bad { OnErr result ((flag : Bool) → HasFlag (option_map word_of found.now) flag → ⊥) }
{
    match found {
        None => Ok(false),
        Some(word) => {
            if word.list.is_some() {
                return Err(BadOperand);
            }
            Ok(true)
        }
    }
}

// The only member of the word's list, if the list has exactly one and this one has no list of its own.
fn one_member<'a>(word: &Word<'a>) -> Option<&'a [u8]>
    ensures one { IfSome result (λ m. IsSomeAnd (word_of word.now).list (λ text. HasMembers text (plain m.now ∷ []))) }
    ensures none { IfNone result ((m : List ℕ) → IsSomeAnd (word_of word.now).list
        (λ text. HasMembers text (plain m ∷ [])) → ⊥) }
{
    let list = word.list?;
    let mut members = list.members();
    let Ok(first) = members.next_member() else {
        return None;
    };
    let member = first?;
    if member.list.is_some() {
        return None;
    }
    let Ok(second) = members.next_member() else {
        return None;
    };
    if second.is_some() {
        return None;
    }
    Some(member.word)
}

/// The value that is the only member of the word's list.
pub fn one<T: Member>(word: &Word<'_>) -> Option<T>
    ensures one { IfSome result (λ value. HasOwn T.form (word_of word.now).list (T.text value)) }
    ensures none { IfNone result ((value : List ℕ) → HasOwn T.form (word_of word.now).list value → ⊥) }
{
    T::read(one_member(word)?)
}

/// The value of an operand that must be present.
pub fn required<T: Member>(words: &[Word<'_>], name: &[u8]) -> Option<T>
    ensures some { IfSome result (λ value. HasRequired T.form (operand name.now (words_of words.now)) (T.text value)) }
    ensures none { IfNone result ((value : List ℕ)
        → HasRequired T.form (operand name.now (words_of words.now)) value → ⊥) }
{
    one::<T>(&operand(words, name)?)
}

/// The value of an operand that may be absent. Returns an error if it is present and has no list of exactly one such
/// value.
pub fn optional<T: Member>(words: &[Word<'_>], name: &[u8]) -> Result<Option<T>, BadOperand>
    ensures ok { IfOk result (λ found. HasOptional T.form (operand name.now (words_of words.now))
        (option_map T.text found)) }
    ensures bad { OnErr result ((value : Option (List ℕ))
        → HasOptional T.form (operand name.now (words_of words.now)) value → ⊥) }
{
    let Some(word) = operand(words, name) else {
        return Ok(None);
    };
    match one::<T>(&word) {
        Some(value) => Ok(Some(value)),
        None => Err(BadOperand),
    }
}
