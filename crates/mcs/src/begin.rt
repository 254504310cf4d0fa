//! The word with which a statement begins.
ghost use Rattle.std.specs.Prelude.{List, IfOk, IfErr};
ghost use Rattle.terms.specs.Statement.{Piece};
ghost use Rattle.terms.specs.Ptfin.{HasParts};
ghost use Rattle.rec80.specs.Read.{IsRead};
ghost use Rattle.mcs.specs.Forms.{IsFormError};
ghost use Rattle.mcs.specs.KnownWords.{parts_of};

use crate::fault::StatementError;
use crate::statement_kinds::statement_word;
use rec80::{Group, Operands, Record, Word, statement};
use std::alloc::Global;
use terms::{StatementCode, StatementWord};

/// A statement that begins with a known word: the operands after this word, and the inline records.
#[derive(Drop)]
pub struct KnownStatement<'a> {
    pub word: StatementWord,
    pub first: Word<'a>,
    pub operands: Operands<'a>,
    pub inline: &'a [Record],
}

/// Reads the first word of the statement and its operands. Returns `Memory` if memory runs out. `Fault` is
/// `BadStatementForm` if the statement's form is bad, and `UnknownStatementWord` if it does not begin with a known
/// word.
pub fn begin_statement<'a>(
    alloc: Global,
    group: &Group<'a>,
) -> Result<KnownStatement<'a>, StatementError>
    ensures ok { IfOk result (λ b. (rest : List Piece)
        × HasParts group.now.records.now (parts_of b rest) × IsRead rest b.operands) }
    ensures fault { IfErr result (IsFormError group.now.records.now) }
{
    let Ok(mut words) = statement(group) else {
        return Err(StatementError::Fault(StatementCode::BadStatementForm));
    };
    let first = match words.next_word() {
        Ok(Some(first)) => first,
        Ok(None) => return Err(StatementError::Fault(StatementCode::UnknownStatementWord)),
        Err(_) => return Err(StatementError::Fault(StatementCode::UnknownStatementWord)),
    };
    let Some(word) = statement_word(first.word) else {
        return Err(StatementError::Fault(StatementCode::UnknownStatementWord));
    };
    Ok(KnownStatement {
        word,
        first,
        operands: words.operands(alloc)?,
        inline: words.inline,
    })
}
