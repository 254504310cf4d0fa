//! `++HOLD` inside a SYSMOD.
ghost use Rattle.std.specs.Prelude.{◌≡◌, ◌↔◌, List, IsTrue, IfOk, IfErr, Some};
ghost use Rattle.terms.specs.declared.statement_words.StatementWord.TheVariants as word;
ghost use Rattle.terms.specs.declared.kinds.HoldKind.TheVariants.{System};
ghost use Rattle.terms.specs.Types.{Hold as AnyHold};
ghost use Rattle.terms.specs.Words as grammar;
ghost use Rattle.terms.specs.Statement.{Piece};
ghost use Rattle.terms.specs.Statements.{IsOwnHoldOf};
ghost use Rattle.rec80.specs.Failing.{Excludes};
ghost use Rattle.rec80.specs.Read.{IsRead};
ghost use Rattle.mcs.specs.KnownWords.{own_list};
ghost use Rattle.mcs.specs.Holds.{ArePrintable};
ghost use Rattle.mcs.specs.Said.{Says, FailsPrintable};

use crate::begin::KnownStatement;
use crate::fault::StatementError;
use crate::file::Begun;
use crate::hold_operands::{has_short_comment, hold_of_operands};
use crate::said::Statement;
use rec80::OperandError;
use std::alloc::Global;
use sysmods_values::{Hold, Sysmod};
use terms::{HoldKind, StatementCode};

// Whether the hold is a SYSTEM hold on this SYSMOD.
fn is_own_system_hold(sysmod: &Sysmod, hold: &Hold) -> bool
    ensures { IsTrue result ↔ ((hold.now.kind ≡ System) × (hold.now.id ≡ sysmod.now.id)) }
{
    matches!(hold.kind, HoldKind::System) && hold.id == sysmod.id
}

// The SYSTEM hold on the SYSMOD that a `++HOLD` inside it states.
fn read_inner_hold(
    alloc: Global,
    sysmod: &Sysmod,
    known: &KnownStatement<'_>,
) -> Result<Hold, OperandError>
    ensures ok { (rest : List Piece) → IsRead rest known.now.operands
        → IfOk result (λ h. (ws : List grammar.Word) × grammar.HasWords rest ws
        × IsOwnHoldOf sysmod.now (own_list known.now) ws h) }
    ensures bad { (rest : List Piece) → IsRead rest known.now.operands → ArePrintable rest
        → IfErr result (λ e. Excludes e ((h : AnyHold) × ((ws : List grammar.Word) × grammar.HasWords rest ws
        × IsOwnHoldOf sysmod.now (own_list known.now) ws h))) }
{
    let hold = hold_of_operands(alloc, known, true)?;
    if !is_own_system_hold(sysmod, &hold) {
        return Err(OperandError::Bad);
    }
    Ok(hold)
}

/// Reads a `++HOLD` in a SYSMOD. Returns `Memory` if memory runs out. `Fault` is `BadStatementOperand` if an
/// operand is unknown, repeated, missing or of a bad form, or if the hold is not a SYSTEM hold on this SYSMOD. It is
/// `OverLimit` if its comment has more than 200 characters.
pub fn hold_statement(
    alloc: Global,
    begun: &Begun,
    known: &KnownStatement<'_>,
) -> Result<Statement, StatementError>
    requires { known.now.word ≡ word.Hold }
    ensures said { Says (Some begun.now) known.now result }
    ensures fault { FailsPrintable (Some begun.now) known.now result }
{
    let hold = read_inner_hold(alloc, &begun.sysmod, known)?;
    if !has_short_comment(&hold) {
        return Err(StatementError::Fault(StatementCode::OverLimit));
    }
    Ok(Statement::Hold(hold))
}
