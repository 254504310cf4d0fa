//! The values of single operands.
ghost use Rattle.std.specs.Prelude.{ℕ, Bool, List, map, IfOk, IfErr, OnErr};
ghost use Rattle.terms.specs.Forms.{IsId};
ghost use Rattle.terms.specs.Words.{IsShort};
ghost use Rattle.terms.specs.Operands.{operand, HasFlag, HasSorted};
ghost use Rattle.terms.specs.CommandForms.{HasShort, HasSome};
ghost use Rattle.rec80.specs.Views.{word_of, words_of};
ghost use Rattle.rec80.specs.Failing.{Excludes};

use fields::{Id, IdList, Rising};
use rec80::{BadOperand, Member, OperandError, Word, flag, operand, rising};
use std::alloc::Global;

/// The most members that a list may have.
const MOST_MEMBERS: usize = 1_000;

/// Whether there is an operand of that name. The error is that it has a list.
pub fn flag_of(words: &[Word<'_>], name: &[u8]) -> Result<bool, BadOperand>
    ensures ok { IfOk result (λ flag. HasFlag (operand name.now (words_of words.now)) flag) }
    ensures bad { OnErr result ((flag : Bool)
        → HasFlag (operand name.now (words_of words.now)) flag → ⊥) }
{
    flag(&operand(words, name))
}

/// The members of the word's list in rising order. Returns `Memory` if memory runs out, and `Bad` if the word has no
/// list of such members, more than 1,000 of them, or one of them twice.
pub fn short_list<T: Member>(alloc: Global, word: &Word<'_>) -> Result<Rising<T>, OperandError>
    ensures ok { IfOk result (λ list. HasSorted T.form (word_of word.now) (map T.text list)
        × IsShort (map T.text list)) }
    ensures bad { IfErr result (λ e. Excludes e ((values : List (List ℕ))
        × (HasSorted T.form (word_of word.now) values × IsShort values))) }
{
    let list: Rising<T> = rising(alloc, word)?;
    if list.len() > MOST_MEMBERS {
        return Err(OperandError::Bad);
    }
    Ok(list)
}

/// The members of the list of an operand, or none if it is absent. Returns `Memory` if memory runs out, and `Bad` if
/// the operand is present and has no list of such members, more than 1,000 of them, or one of them twice.
pub fn optional_list<T: Member>(
    alloc: Global,
    words: &[Word<'_>],
    name: &[u8],
) -> Result<Rising<T>, OperandError>
    ensures ok { IfOk result (λ list. HasShort T.form (operand name.now (words_of words.now)) (map T.text list)) }
    ensures bad { IfErr result (λ e. Excludes e ((values : List (List ℕ))
        × HasShort T.form (operand name.now (words_of words.now)) values)) }
{
    match operand(words, name) {
        Some(word) => short_list::<T>(alloc, &word),
        None => Ok(Rising::new(alloc)),
    }
}

/// The ids of an operand that must be present. Returns `Memory` if memory runs out, and `Bad` if the operand is absent,
/// or has no list of ids, more than 1,000 of them, or one of them twice.
pub fn required_ids(alloc: Global, words: &[Word<'_>], name: &[u8]) -> Result<IdList, OperandError>
    ensures ok { IfOk result (λ list. HasSome IsId (operand name.now (words_of words.now)) list) }
    ensures bad { IfErr result (λ e. Excludes e ((list : List (List ℕ))
        × HasSome IsId (operand name.now (words_of words.now)) list)) }
{
    match operand(words, name) {
        Some(word) => short_list::<Id>(alloc, &word),
        None => Err(OperandError::Bad),
    }
}
