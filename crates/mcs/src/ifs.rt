//! `++IF`.
ghost use Rattle.std.specs.Prelude.{◌≡◌, ◌↔◌, ◌<◌, [], ◌∷◌, length, codes, IsTrue, IfOk, IfErr, IfSome, IfNone, Some};
ghost use Rattle.std.specs.Prelude.{option_copied};
ghost use Rattle.terms.specs.declared.statement_words.StatementWord.TheVariants as word;
ghost use Rattle.terms.specs.Types.{IfReq as AnyIf};
ghost use Rattle.terms.specs.Words as grammar;
ghost use Rattle.terms.specs.Statements.{IsIfOf};
ghost use Rattle.terms.specs.Ptfin.{last_of};
ghost use Rattle.rec80.specs.Failing.{Excludes};
ghost use Rattle.rec80.specs.Views.{word_of, words_of};
ghost use Rattle.mcs.specs.KnownWords.{own_list};
ghost use Rattle.mcs.specs.Files.{begun_of};
ghost use Rattle.mcs.specs.Said.{Says, Fails};

use crate::begin::KnownStatement;
use crate::fault::StatementError;
use crate::file::Begun;
use crate::limits::{MOST_IDS, MOST_IFS};
use crate::said::Statement;
use fields::Id;
use rec80::{OperandError, Word, ids, one};
use std::alloc::Global;
use sysmods_values::{IfReq, Sysmod, Ver};
use terms::StatementCode;

// Whether the word has this spelling, whatever list it has.
fn is_spelled(word: &Word<'_>, name: &[u8]) -> bool
    ensures { IsTrue result ↔ ((word_of word.now).word ≡ name.now) }
{
    word.word == name
}

/// The words of an `++IF` that have lists.
#[derive(Clone, Copy, Debug)]
struct IfLists<'a> {
    fmid: Word<'a>,
    req: Word<'a>,
}

// The words FMID and REQ, if the operands are FMID, THEN and REQ in this order, and THEN has no list.
fn read_lists<'a>(words: &[Word<'a>]) -> Option<IfLists<'a>>
    ensures some { IfSome result (λ l. (words_of words.now
        ≡ word_of l.fmid ∷ grammar.plain (codes "THEN") ∷ word_of l.req ∷ [])
        × ((word_of l.fmid).word ≡ codes "FMID") × ((word_of l.req).word ≡ codes "REQ")) }
    ensures none { IfNone result ((fmid req : grammar.Word) → fmid.word ≡ codes "FMID" → req.word ≡ codes "REQ"
        → words_of words.now ≡ fmid ∷ grammar.plain (codes "THEN") ∷ req ∷ [] → ⊥) }
{
    let [fmid, then, req] = words else {
        return None;
    };
    if !is_spelled(fmid, b"FMID") || !is_spelled(then, b"THEN") || !is_spelled(req, b"REQ") {
        return None;
    }
    if then.list.is_some() {
        return None;
    }
    Some(IfLists {
        fmid: *fmid,
        req: *req,
    })
}

// What the words of an `++IF` say.
fn read_if(
    alloc: Global,
    sysmod: &Sysmod,
    known: &KnownStatement<'_>,
    words: &[Word<'_>],
) -> Result<IfReq, OperandError>
    ensures ok { IfOk result (λ i. IsIfOf sysmod.now (own_list known.now) (words_of words.now) i) }
    ensures bad { IfErr result (λ e. Excludes e ((i : AnyIf)
        × IsIfOf sysmod.now (own_list known.now) (words_of words.now) i)) }
{
    if known.first.list.is_some() {
        return Err(OperandError::Bad);
    }
    let Some(lists) = read_lists(words) else {
        return Err(OperandError::Bad);
    };
    let Some(function) = one::<Id>(&lists.fmid) else {
        return Err(OperandError::Bad);
    };
    let req = ids(alloc, &lists.req)?;
    if req.contains(sysmod.id) {
        return Err(OperandError::Bad);
    }
    Ok(IfReq { function, req })
}

// The last `++VER` of the SYSMOD, to which an `++IF` belongs.
fn last_ver(begun: &Begun) -> Option<&Ver>
    ensures { option_copied result ≡ last_of (begun_of begun.now) }
{
    let place = begun.last?;
    begun.sysmod.vers.get(place)
}

// Whether the last `++VER` may have one more `++IF`, and REQ of this one is not too long.
fn is_within_limits(begun: &Begun, condition: &IfReq) -> bool
    ensures { IsTrue result ↔ (IfSome (last_of (begun_of begun.now)) (λ v. length v.ifs < 100)
        × grammar.IsShort condition.now.req) }
{
    let has_place = match last_ver(begun) {
        Some(ver) => ver.ifs.len() < MOST_IFS,
        None => true,
    };
    has_place && condition.req.len() <= MOST_IDS
}

/// Reads an `++IF`. Returns `Memory` if memory runs out. `Fault` is `BadStatementOperand` if it lacks FMID, THEN
/// and REQ in this order, each in its form, or if REQ names the SYSMOD itself. It is `OverLimit` if the last `++VER`
/// has 100 `++IF`s already, or REQ has more than 1,000 ids.
pub fn if_statement(
    alloc: Global,
    begun: &Begun,
    known: &KnownStatement<'_>,
) -> Result<Statement, StatementError>
    requires { known.now.word ≡ word.If }
    ensures said { Says (Some begun.now) known.now result }
    ensures fault { Fails (Some begun.now) known.now result }
{
    let Some(words) = known.operands.only() else {
        return Err(StatementError::Fault(StatementCode::BadStatementOperand));
    };
    let condition = read_if(alloc, &begun.sysmod, known, words)?;
    if !is_within_limits(begun, &condition) {
        return Err(StatementError::Fault(StatementCode::OverLimit));
    }
    Ok(Statement::If(condition))
}
