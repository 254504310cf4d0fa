//! The values of reasons and of lists of ids.
ghost use Rattle.std.specs.Prelude.{ℕ, List, IfOk, IfErr, IfSome, IfNone};
ghost use Rattle.terms.specs.Forms.{IsId, IsReason};
ghost use Rattle.terms.specs.Operands.{operand, HasRequired, HasTexts};
ghost use Rattle.rec80.specs.Views.{words_of};
ghost use Rattle.rec80.specs.Failing.{Excludes};

use fields::{IdList, Reason};
use rec80::{OperandError, Word, ids, operand, required};
use std::alloc::Global;
use terms::HoldKind;

/// The reason of an operand that must be present and suit a hold of the kind.
pub fn required_reason(kind: HoldKind, words: &[Word<'_>], name: &[u8]) -> Option<Reason>
    ensures some { IfSome result (λ v. HasRequired (IsReason kind) (operand name.now (words_of words.now)) v) }
    ensures form { IfSome result (λ v. IsReason kind v) }
    ensures none { IfNone result ((v : List ℕ)
        → HasRequired (IsReason kind) (operand name.now (words_of words.now)) v → ⊥) }
{
    let reason = required::<Reason>(words, name)?;
    if !reason.suits(kind) {
        return None;
    }
    Some(reason)
}

/// The ids of an operand in rising order, or none if it is absent. Returns `Memory` if memory runs out, and `Bad` if
/// the operand is present and has no list of ids, or has an id twice.
pub fn rising_ids(alloc: Global, words: &[Word<'_>], name: &[u8]) -> Result<IdList, OperandError>
    ensures ok { IfOk result (λ ids. HasTexts IsId (operand name.now (words_of words.now)) ids) }
    ensures bad { IfErr result (λ e. Excludes e ((ids : List (List ℕ))
        × HasTexts IsId (operand name.now (words_of words.now)) ids)) }
{
    let Some(word) = operand(words, name) else {
        return Ok(IdList::new(alloc));
    };
    ids(alloc, &word)
}
