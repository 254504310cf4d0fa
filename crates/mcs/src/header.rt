//! The header of a SYSMOD.
ghost use Rattle.std.specs.Prelude.{◌≡◌, Option};
ghost use Rattle.terms.specs.declared.statement_words.StatementWord.TheVariants as word;
ghost use Rattle.mcs.specs.declared.file.Begun.{Begun};
ghost use Rattle.mcs.specs.Said.{Says, Fails};

use crate::begin::KnownStatement;
use crate::fault::StatementError;
use crate::said::Statement;
use fields::Id;
use rec80::one;
use terms::{Kind, StatementCode};

/// Reads a header. `Fault` is `BadStatementOperand` if it has anything but one id. It never returns `Memory`.
pub fn header_statement(kind: Kind, known: &KnownStatement<'_>) -> Result<Statement, StatementError>
    requires { known.now.word ≡ word.Header kind }
    ensures said { (current : Option Begun) → Says current known.now result }
    ensures fault { (current : Option Begun) → Fails current known.now result }
{
    if !known.operands.is_empty() {
        return Err(StatementError::Fault(StatementCode::BadStatementOperand));
    }
    match one::<Id>(&known.first) {
        Some(id) => Ok(Statement::Header(kind, id)),
        None => Err(StatementError::Fault(StatementCode::BadStatementOperand)),
    }
}
