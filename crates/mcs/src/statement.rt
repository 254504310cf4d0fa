//! One statement of a PTFIN, after those before it.
ghost use Rattle.std.specs.Prelude.{◌≢◌, All, IfOk, IfErr, Some, None};
ghost use Rattle.terms.specs.declared.statement_words.StatementWord.TheVariants as word;
ghost use Rattle.terms.specs.Records.{IsRecord};
ghost use Rattle.terms.specs.Ptfin.{MayStand, IsGoodStatement};
ghost use Rattle.mcs.specs.Files.{begun_in};
ghost use Rattle.mcs.specs.Said.{Says, Fails, FailsPrintable, IsStatementError};
ghost use Rattle.mcs.specs.Statements.{statement_of};

use crate::assign::assign_statement;
use crate::begin::{KnownStatement, begin_statement};
use crate::change::{replacement_statement, update_statement};
use crate::fault::StatementError;
use crate::file::Begun;
use crate::header::header_statement;
use crate::ifs::if_statement;
use crate::inner_holds::hold_statement;
use crate::order::is_misplaced;
use crate::said::Statement;
use crate::ver::ver_statement;
use rec80::{Group, Record};
use std::alloc::Global;
use terms::{ElemType, StatementCode, StatementWord};

// Reads a statement while no SYSMOD has begun. Only a header and an `++ASSIGN` may come then.
fn read_outside_sysmod(
    alloc: Global,
    known: &KnownStatement<'_>,
) -> Result<Statement, StatementError>
    requires { MayStand None known.now.word }
    ensures said { Says None known.now result }
    ensures fault { Fails None known.now result }
{
    match known.word {
        StatementWord::Header(kind) => header_statement(kind, known),
        StatementWord::Assign => assign_statement(alloc, known),
        StatementWord::Ver
        | StatementWord::If
        | StatementWord::Hold
        | StatementWord::Release
        | StatementWord::Replace(_)
        | StatementWord::UpdateMac
        | StatementWord::UpdateSrc => Err(StatementError::Fault(StatementCode::WrongPlace)),
    }
}

// Reads a statement after those of the SYSMOD that has begun.
fn read_inside_sysmod(
    alloc: Global,
    begun: &Begun,
    known: &KnownStatement<'_>,
) -> Result<Statement, StatementError>
    requires { known.now.word ≢ word.Release }
    ensures said { Says (Some begun.now) known.now result }
    ensures fault { FailsPrintable (Some begun.now) known.now result }
{
    match known.word {
        StatementWord::Header(kind) => header_statement(kind, known),
        StatementWord::Ver => ver_statement(alloc, begun, known),
        StatementWord::If => if_statement(alloc, begun, known),
        StatementWord::Hold => hold_statement(alloc, begun, known),
        StatementWord::Release => Err(StatementError::Fault(StatementCode::WrongPlace)),
        StatementWord::Assign => assign_statement(alloc, known),
        StatementWord::Replace(elem_type) => replacement_statement(alloc, begun, elem_type, known),
        StatementWord::UpdateMac => update_statement(alloc, begun, ElemType::Mac, known),
        StatementWord::UpdateSrc => update_statement(alloc, begun, ElemType::Src, known),
    }
}

/// Reads a statement of a PTFIN after those so far. `later` has the records after it. Returns `Memory` if memory runs
/// out. `Fault` is the first that applies of `BadStatementForm` for its form, `UnknownStatementWord` for its word,
/// `WrongPlace` for its place, `BadStatementOperand` for an operand, `OverLimit` for a limit and `BadText` for its
/// text.
pub fn read_statement(
    alloc: Global,
    current: &Option<Begun>,
    later: &[Record],
    group: &Group<'_>,
) -> Result<Statement, StatementError>
    ensures good { IfOk result (λ s. IsGoodStatement (begun_in current.now) later.now group.now.records.now
        (statement_of s)) }
    ensures fault { All IsRecord group.now.records.now
        → IfErr result (IsStatementError (begun_in current.now) later.now group.now.records.now) }
{
    let known = begin_statement(alloc, group)?;
    if is_misplaced(current, later, &known) {
        return Err(StatementError::Fault(StatementCode::WrongPlace));
    }
    match current {
        Some(begun) => read_inside_sysmod(alloc, begun, &known),
        None => read_outside_sysmod(alloc, &known),
    }
}
