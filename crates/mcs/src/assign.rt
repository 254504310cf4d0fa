//! `++ASSIGN`.
ghost use Rattle.std.specs.Prelude.{◌≡◌, ◌↔◌, ℕ, List, Option, IsTrue, IfOk, IfErr, IsSomeAnd};
ghost use Rattle.terms.specs.declared.statement_words.StatementWord.TheVariants as word;
ghost use Rattle.terms.specs.Types.{Assign as AnyAssign};
ghost use Rattle.terms.specs.Forms.{IsId};
ghost use Rattle.terms.specs.Words as grammar;
ghost use Rattle.terms.specs.Operands.{operand, HasListed};
ghost use Rattle.terms.specs.Statement.{Piece};
ghost use Rattle.terms.specs.Statements.{IsAssignOf};
ghost use Rattle.rec80.specs.Views.{words_of};
ghost use Rattle.rec80.specs.Failing.{Excludes};
ghost use Rattle.rec80.specs.Read.{IsRead};
ghost use Rattle.mcs.specs.declared.file.Begun.{Begun};
ghost use Rattle.mcs.specs.KnownWords.{own_list};
ghost use Rattle.mcs.specs.Said.{Says, Fails};

use crate::begin::KnownStatement;
use crate::fault::StatementError;
use crate::file::Assign;
use crate::limits::MOST_IDS;
use crate::said::Statement;
use fields::{Id, Source};
use rec80::{OperandError, Word, ids_in_file_order, operand, required};
use std::alloc::Global;
use terms::StatementCode;

/// The operands of `++ASSIGN`.
const OPERANDS: &[&[u8]] = &[b"SOURCEID", b"TO"];

// The ids of the operand, which must be present, in the order of the statement.
fn required_ids(alloc: Global, words: &[Word<'_>], name: &[u8]) -> Result<Vec<Id>, OperandError>
    ensures ok { IfOk result (λ ids. IsSomeAnd (operand name.now (words_of words.now))
        (λ w. HasListed IsId w ids.items)) }
    ensures bad { IfErr result (λ e. Excludes e ((ids : List (List ℕ))
        × IsSomeAnd (operand name.now (words_of words.now)) (λ w. HasListed IsId w ids))) }
{
    let Some(word) = operand(words, name) else {
        return Err(OperandError::Bad);
    };
    ids_in_file_order(alloc, &word)
}

// What the operands of an `++ASSIGN` say.
fn read_assign(alloc: Global, known: &KnownStatement<'_>) -> Result<Assign, OperandError>
    ensures ok { (rest : List Piece) → IsRead rest known.now.operands
        → IfOk result (λ a. (ws : List grammar.Word) × grammar.HasWords rest ws
        × IsAssignOf (own_list known.now) ws a) }
    ensures bad { (rest : List Piece) → IsRead rest known.now.operands
        → IfErr result (λ e. Excludes e ((a : AnyAssign) × ((ws : List grammar.Word) × grammar.HasWords rest ws
        × IsAssignOf (own_list known.now) ws a))) }
{
    if known.first.list.is_some() {
        return Err(OperandError::Bad);
    }
    let Some(words) = known.operands.words_named(OPERANDS) else {
        return Err(OperandError::Bad);
    };
    let Some(source) = required::<Source>(words, b"SOURCEID") else {
        return Err(OperandError::Bad);
    };
    let to = required_ids(alloc, words, b"TO")?;
    Ok(Assign { source, to })
}

// Whether TO has no more ids than the limit.
fn is_within_limits(assign: &Assign) -> bool
    ensures { IsTrue result ↔ grammar.IsShort assign.now.to }
{
    assign.to.len() <= MOST_IDS
}

/// Reads an `++ASSIGN`. Returns `Memory` if memory runs out. `Fault` is `BadStatementOperand` if it has anything
/// but SOURCEID and TO, each in its form, and `OverLimit` if TO has more than 1,000 ids.
pub fn assign_statement(
    alloc: Global,
    known: &KnownStatement<'_>,
) -> Result<Statement, StatementError>
    requires { known.now.word ≡ word.Assign }
    ensures said { (current : Option Begun) → Says current known.now result }
    ensures fault { (current : Option Begun) → Fails current known.now result }
{
    let assign = read_assign(alloc, known)?;
    if !is_within_limits(&assign) {
        return Err(StatementError::Fault(StatementCode::OverLimit));
    }
    Ok(Statement::Assign(assign))
}
