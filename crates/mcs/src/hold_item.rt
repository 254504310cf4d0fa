//! One statement of a hold file.
ghost use Rattle.std.specs.Prelude.{◌≡◌, List, All, IfOk, IfErr};
ghost use Rattle.terms.specs.declared.statement_words.StatementWord.TheVariants as word;
ghost use Rattle.terms.specs.Records.{IsRecord};
ghost use Rattle.terms.specs.Statement.{Piece};
ghost use Rattle.terms.specs.HoldFile.{IsGoodItem};
ghost use Rattle.rec80.specs.Read.{IsRead};
ghost use Rattle.mcs.specs.KnownWords.{own_list};
ghost use Rattle.mcs.specs.Holds.{ArePrintable};
ghost use Rattle.mcs.specs.HoldItems.{item_of, IsItemSaid, IsSaidError, IsItemError};

use crate::begin::{KnownStatement, begin_statement};
use crate::fault::StatementError;
use crate::hold_operands::{Release, has_short_comment, hold_of_operands, release_of_operands};
use rec80::Group;
use std::alloc::Global;
use sysmods_values::Hold;
use terms::{StatementCode, StatementWord};

/// An item of a hold file.
#[derive(Drop)]
pub enum HoldItem {
    Hold(Hold),
    Release(Release),
}

// Reads a `++HOLD` of a hold file. Its hold is external.
fn hold_item(alloc: Global, known: &KnownStatement<'_>) -> Result<HoldItem, StatementError>
    requires { known.now.word ≡ word.Hold }
    ensures said { (rest : List Piece) → IsRead rest known.now.operands
        → IfOk result (λ item. IsItemSaid known.now.word (own_list known.now) rest (item_of item)) }
    ensures fault { (rest : List Piece) → IsRead rest known.now.operands → ArePrintable rest
        → IfErr result (IsSaidError known.now.word (own_list known.now) rest) }
{
    let hold = hold_of_operands(alloc, known, false)?;
    if !has_short_comment(&hold) {
        return Err(StatementError::Fault(StatementCode::OverLimit));
    }
    Ok(HoldItem::Hold(hold))
}

// Reads a `++RELEASE`.
fn release_item(known: &KnownStatement<'_>) -> Result<HoldItem, StatementError>
    requires { known.now.word ≡ word.Release }
    ensures said { (rest : List Piece) → IsRead rest known.now.operands
        → IfOk result (λ item. IsItemSaid known.now.word (own_list known.now) rest (item_of item)) }
    ensures fault { (rest : List Piece) → IsRead rest known.now.operands
        → IfErr result (IsSaidError known.now.word (own_list known.now) rest) }
{
    match release_of_operands(known) {
        Ok(release) => Ok(HoldItem::Release(release)),
        Err(_) => Err(StatementError::Fault(StatementCode::BadStatementOperand)),
    }
}

/// Reads a statement of a hold file. Returns `Memory` if memory runs out. `Fault` is the first that applies of
/// `BadStatementForm` for its form, `UnknownStatementWord` for its word, `WrongPlace` for text after it and for any
/// word but `++HOLD` and `++RELEASE`, `BadStatementOperand` for an operand, and `OverLimit` for a comment of more than
/// 200 characters.
pub(crate) fn read_item(alloc: Global, group: &Group<'_>) -> Result<HoldItem, StatementError>
    ensures good { IfOk result (λ item. IsGoodItem group.now.records.now (item_of item)) }
    ensures fault { All IsRecord group.now.records.now → IfErr result (IsItemError group.now.records.now) }
{
    let known = begin_statement(alloc, group)?;
    if !known.inline.is_empty() {
        return Err(StatementError::Fault(StatementCode::WrongPlace));
    }
    match known.word {
        StatementWord::Hold => hold_item(alloc, &known),
        StatementWord::Release => release_item(&known),
        _ => Err(StatementError::Fault(StatementCode::WrongPlace)),
    }
}
