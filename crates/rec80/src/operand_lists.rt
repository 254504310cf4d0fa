//! Lists without duplicates: in rising order, or in the order of the file.
ghost use Rattle.std.specs.Prelude.{ℕ, List, map, IfOk, IfErr};
ghost use Rattle.terms.specs.Forms.{IsId};
ghost use Rattle.terms.specs.Operands.{HasListed, HasSorted};
ghost use Rattle.rec80.specs.Views.{word_of};
ghost use Rattle.rec80.specs.Failing.{Excludes};

use crate::member::Member;
use crate::operand_errors::OperandError;
use crate::operand_members::read_members;
use crate::words::Word;
use fields::{Id, IdList, Rising};
use std::alloc::Global;

/// The members of the word's list in rising order. Returns `Memory` if memory runs out, and `Bad` if the word has no
/// list of such members or a member occurs twice.
pub fn rising<T: Member>(alloc: Global, word: &Word<'_>) -> Result<Rising<T>, OperandError>
    ensures sorted { IfOk result (λ list. HasSorted T.form (word_of word.now) (map T.text list)) }
    ensures bad { IfErr result (λ e. Excludes e ((values : List (List ℕ))
        × HasSorted T.form (word_of word.now) values)) }
{
    let Some(list) = word.list else {
        return Err(OperandError::Bad);
    };
    let read: Vec<T> = read_members(alloc, &list)?;
    let len = read.len();
    let rising = Rising::from_vec(read);
    if rising.as_slice().len() != len {
        return Err(OperandError::Bad);
    }
    Ok(rising)
}

/// The members of the word's list in the order of the file, which need not rise. Returns `Memory` if memory runs out,
/// and `Bad` if the word has no list of such members or a member occurs twice.
pub fn list_in_file_order<T: Member>(alloc: Global, word: &Word<'_>) -> Result<Vec<T>, OperandError>
    ensures listed { IfOk result (λ list. HasListed T.form (word_of word.now) (map T.text list.items)) }
    ensures bad { IfErr result (λ e. Excludes e ((values : List (List ℕ))
        × HasListed T.form (word_of word.now) values)) }
{
    let Some(list) = word.list else {
        return Err(OperandError::Bad);
    };
    let read: Vec<T> = read_members(alloc, &list)?;
    let copy = Vec::from_slice(alloc, read.as_slice())?;
    let rising = Rising::from_vec(copy);
    if rising.as_slice().len() != read.len() {
        return Err(OperandError::Bad);
    }
    Ok(read)
}

/// The ids of the word's list in the order of the file, which need not rise: `list_in_file_order` with a contract about
/// the ids and not their texts. Returns `Memory` if memory runs out, and `Bad` if the word has no list of ids or an id
/// occurs twice.
pub fn ids_in_file_order(alloc: Global, word: &Word<'_>) -> Result<Vec<Id>, OperandError>
    ensures listed { IfOk result (λ list. HasListed IsId (word_of word.now) list.items) }
    ensures bad { IfErr result (λ e. Excludes e ((values : List (List ℕ)) × HasListed IsId (word_of word.now) values)) }
{
    list_in_file_order::<Id>(alloc, word)
}

/// The ids of the word's list in rising order: [`rising`] with a contract about the ids and not their texts. Returns
/// `Memory` if memory runs out, and `Bad` if the word has no list of ids or an id occurs twice.
pub fn ids(alloc: Global, word: &Word<'_>) -> Result<IdList, OperandError>
    ensures sorted { IfOk result (λ list. HasSorted IsId (word_of word.now) list) }
    ensures bad { IfErr result (λ e. Excludes e ((values : List (List ℕ)) × HasSorted IsId (word_of word.now) values)) }
{
    rising::<Id>(alloc, word)
}
