//! The element statements: replacements and updates, with their texts.
ghost use Rattle.std.specs.Prelude.{◌≡◌, ◌↔◌, Some, ◌≤◌, ◌<◌, ℕ, List, length, IsTrue, IfOk, IfErr, IfSome, IfNone};
ghost use Rattle.terms.specs.declared.statement_words.StatementWord.TheVariants as word;
ghost use Rattle.terms.specs.Statements.{changed_type};
ghost use Rattle.terms.specs.Ptfin.{IsUpdateWord};
ghost use Rattle.terms.specs.Words as grammar;
ghost use Rattle.terms.specs.Statement.{Piece};
ghost use Rattle.terms.specs.Texts.{IsReplacement, IsUpdate};
ghost use Rattle.rec80.specs.Read.{IsRead};
ghost use Rattle.mcs.specs.KnownWords.{own_list};
ghost use Rattle.mcs.specs.Elements.{HasNames, IsTextError, IsUpdateTextError};
ghost use Rattle.mcs.specs.Said.{Says, Fails};

use crate::begin::KnownStatement;
use crate::fault::StatementError;
use crate::file::Begun;
use crate::limits::{MOST_ELEMENTS, MOST_RECORDS};
use crate::said::Statement;
use fields::Name;
use rec80::{Record, one, required};
use std::alloc::{AllocError, Global};
use sysmods_values::{Action, ElemChange};
use terms::{ElemType, StatementCode};
use text80::{Line, Numbered, TextError, Update};

/// The operands of a replacement.
const OPERANDS: &[&[u8]] = &[b"DISTLIB", b"SYSLIB"];

/// The names of an element and its libraries.
#[derive(Clone, Copy, Debug)]
struct ElementNames {
    name: Name,
    distlib: Name,
    syslib: Name,
}

// The names that a replacement states: the element's, DISTLIB and SYSLIB. Returns `None` if one is missing or bad, or
// if there are other operands.
fn read_names(known: &KnownStatement<'_>) -> Option<ElementNames>
    ensures some { (rest : List Piece) → IsRead rest known.now.operands
        → IfSome result (λ n. (ws : List grammar.Word) × grammar.HasWords rest ws
        × HasNames (own_list known.now) ws n.name n.distlib n.syslib) }
    ensures none { (rest : List Piece) → IsRead rest known.now.operands
        → IfNone result ((ws : List grammar.Word) (name distlib syslib : List ℕ) → grammar.HasWords rest ws
        → HasNames (own_list known.now) ws name distlib syslib → ⊥) }
{
    let words = known.operands.words_named(OPERANDS)?;
    let name = one::<Name>(&known.first)?;
    let distlib = required::<Name>(words, b"DISTLIB")?;
    let syslib = required::<Name>(words, b"SYSLIB")?;
    Some(ElementNames {
        name,
        distlib,
        syslib,
    })
}

// The lines of the inline records.
fn lines_of(alloc: Global, inline: &[Record]) -> Result<Vec<Line>, AllocError>
    ensures { IfOk result (λ lines. lines.items ≡ inline.now) }
{
    let mut lines = Vec::with_capacity(alloc, inline.len())?;
    for record in inline {
        lines.push(Line::new(*record))?;
    }
    Ok(lines)
}

// The inline records as the text of a replacement. The error is `BadText` if there are none, or if a macro or source is
// not numbered as it must be.
fn read_replacement_text(
    alloc: Global,
    elem_type: ElemType,
    inline: &[Record],
) -> Result<Vec<Line>, StatementError>
    ensures text { IfOk result (λ lines. lines.items ≡ inline.now) }
    ensures good { IfOk result (λ lines. IsReplacement elem_type inline.now) }
    ensures bad { IfErr result (IsTextError elem_type inline.now) }
{
    if inline.is_empty() {
        return Err(StatementError::Fault(StatementCode::BadText));
    }
    let lines = lines_of(alloc, inline)?;
    if !elem_type.is_numbered() {
        return Ok(lines);
    }
    match Numbered::read(lines) {
        Ok(text) => Ok(text.into_lines()),
        Err(_) => Err(StatementError::Fault(StatementCode::BadText)),
    }
}

/// Reads a replacement. Returns `Memory` if memory runs out. `Fault` is `BadStatementOperand` if it has anything
/// but a name, DISTLIB and SYSLIB, each in its form; `OverLimit` if the SYSMOD has 999 elements already, or the text
/// has more than 99,999 records; and `BadText` if there is no text, or the text of a macro or source is not numbered.
pub fn replacement_statement(
    alloc: Global,
    begun: &Begun,
    elem_type: ElemType,
    known: &KnownStatement<'_>,
) -> Result<Statement, StatementError>
    requires { known.now.word ≡ word.Replace elem_type }
    ensures said { Says (Some begun.now) known.now result }
    ensures fault { Fails (Some begun.now) known.now result }
{
    let Some(names) = read_names(known) else {
        return Err(StatementError::Fault(StatementCode::BadStatementOperand));
    };
    let inline = known.inline;
    if !is_within_limits(begun, inline) {
        return Err(StatementError::Fault(StatementCode::OverLimit));
    }
    let lines = read_replacement_text(alloc, elem_type, inline)?;
    let ElementNames {
        name,
        distlib,
        syslib,
    } = names;
    let action = Action::Replaces {
        distlib,
        syslib,
        lines,
    };
    Ok(Statement::Change(ElemChange {
        elem_type,
        name,
        action,
    }))
}

// The inline records as an update of the element of this name. The error is `BadText` if they do not form one.
fn read_update(alloc: Global, name: Name, inline: &[Record]) -> Result<Update, StatementError>
    ensures text { IfOk result (λ update. update ≡ inline.now) }
    ensures good { IfOk result (λ update. IsUpdate name inline.now) }
    ensures bad { IfErr result (IsUpdateTextError name inline.now) }
{
    let lines = lines_of(alloc, inline)?;
    match Update::read(alloc, lines, name.as_bytes()) {
        Ok(update) => Ok(update),
        Err(TextError::Memory) => Err(StatementError::Memory),
        Err(TextError::Fault(_)) => Err(StatementError::Fault(StatementCode::BadText)),
    }
}

/// Reads an update. Returns `Memory` if memory runs out. `Fault` is `BadStatementOperand` if it has anything but
/// one name; `OverLimit` if the SYSMOD has 999 elements already, or the text has more than 99,999 records; and
/// `BadText` if the text is not an update of the element.
pub fn update_statement(
    alloc: Global,
    begun: &Begun,
    elem_type: ElemType,
    known: &KnownStatement<'_>,
) -> Result<Statement, StatementError>
    requires { (changed_type known.now.word ≡ Some elem_type) × IsUpdateWord known.now.word }
    ensures said { Says (Some begun.now) known.now result }
    ensures fault { Fails (Some begun.now) known.now result }
{
    if !known.operands.is_empty() {
        return Err(StatementError::Fault(StatementCode::BadStatementOperand));
    }
    let Some(name) = one::<Name>(&known.first) else {
        return Err(StatementError::Fault(StatementCode::BadStatementOperand));
    };
    let inline = known.inline;
    if !is_within_limits(begun, inline) {
        return Err(StatementError::Fault(StatementCode::OverLimit));
    }
    let update = read_update(alloc, name, inline)?;
    Ok(Statement::Change(ElemChange {
        elem_type,
        name,
        action: Action::Updates { update },
    }))
}

// Whether the SYSMOD may change one more element, and the text is no longer than the limit.
fn is_within_limits(begun: &Begun, inline: &[Record]) -> bool
    ensures { IsTrue result ↔ ((length begun.now.sysmod.changes < 999) × (length inline.now ≤ 99999)) }
{
    begun.sysmod.changes.len() < MOST_ELEMENTS && inline.len() <= MOST_RECORDS
}
