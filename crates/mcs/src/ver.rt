//! `++VER`.
ghost use Rattle.std.specs.Prelude.{◌≡◌, ◌↔◌, ◌<◌, ℕ, length, List, [], not, All, IsTrue, IfOk, IfErr, Some};
ghost use Rattle.terms.specs.declared.statement_words.StatementWord.TheVariants as word;
ghost use Rattle.terms.specs.Types.{Ver as AnyVer};
ghost use Rattle.std.specs.List.{list_all};
ghost use Rattle.terms.specs.Lookups.{is_in};
ghost use Rattle.terms.specs.Statements.{IsVerOf, SuitsKind, ver_operands, lists_of};
ghost use Rattle.terms.specs.Operands.{AreOperands};
ghost use Rattle.terms.specs.Words.{IsShort};
ghost use Rattle.rec80.specs.Views.{words_of};
ghost use Rattle.rec80.specs.Failing.{Excludes};
ghost use Rattle.mcs.specs.KnownWords.{own_list};
ghost use Rattle.mcs.specs.VerOperands.{HasLists};
ghost use Rattle.mcs.specs.Said.{Says, Fails};

use crate::begin::KnownStatement;
use crate::fault::StatementError;
use crate::file::Begun;
use crate::limits::{MOST_IDS, MOST_VERS};
use crate::listed_values::rising_ids;
use crate::said::Statement;
use fields::{Id, IdList, Srel};
use rec80::{OperandError, Word, one, operand, optional};
use std::alloc::Global;
use sysmods_values::{Sysmod, Ver};
use terms::{Kind, StatementCode};

/// The operands of `++VER`.
const OPERANDS: &[&[u8]] = &[b"FMID", b"PRE", b"REQ", b"SUP", b"NPRE", b"DELETE"];

// Whether a SYSMOD of the kind may have these operands: service needs FMID, and only a function has NPRE and DELETE.
fn suits_kind(kind: Kind, words: &[Word<'_>]) -> bool
    ensures { IsTrue result ↔ SuitsKind kind (words_of words.now) }
{
    match kind {
        Kind::Function => true,
        Kind::Ptf | Kind::Apar | Kind::Usermod => {
            operand(words, b"FMID").is_some()
                && operand(words, b"NPRE").is_none()
                && operand(words, b"DELETE").is_none()
        }
    }
}

// Whether no list of the `++VER` names its own SYSMOD.
fn no_list_names(own: Id, ver: &Ver) -> bool
    ensures { result ≡ list_all (λ ids. not (is_in ids own)) (lists_of ver.now) }
{
    !ver.pre.contains(own)
        && !ver.req.contains(own)
        && !ver.sup.contains(own)
        && !ver.npre.contains(own)
        && !ver.del.contains(own)
}

/// The ids that PRE, REQ, SUP, NPRE and DELETE of a `++VER` list.
#[derive(Drop)]
struct VerIdLists {
    pre: IdList,
    req: IdList,
    sup: IdList,
    npre: IdList,
    del: IdList,
}

// Whether FMID of the `++VER` is this id.
fn has_fmid(ver: &Ver, id: Id) -> bool
    ensures { IsTrue result ↔ (ver.now.fmid ≡ Some id) }
{
    match ver.fmid {
        Some(other) => other == id,
        None => false,
    }
}

// Reads the lists of PRE, REQ, SUP, NPRE and DELETE. Each is empty if the operand is absent.
fn read_lists(alloc: Global, words: &[Word<'_>]) -> Result<VerIdLists, OperandError>
    ensures ok { IfOk result (λ lists. HasLists (words_of words.now) lists.pre lists.req lists.sup lists.npre
        lists.del) }
    ensures bad { IfErr result (λ e. Excludes e ((pre req sup npre del : List (List ℕ))
        × HasLists (words_of words.now) pre req sup npre del)) }
{
    let pre = rising_ids(alloc, words, b"PRE")?;
    let req = rising_ids(alloc, words, b"REQ")?;
    let sup = rising_ids(alloc, words, b"SUP")?;
    let npre = rising_ids(alloc, words, b"NPRE")?;
    let del = rising_ids(alloc, words, b"DELETE")?;
    Ok(VerIdLists {
        pre,
        req,
        sup,
        npre,
        del,
    })
}

// The `++VER` of this SREL, FMID and lists, without `++IF`s.
fn ver_of_lists(alloc: Global, srel: Srel, fmid: Option<Id>, lists: VerIdLists) -> Ver
    ensures { result ≡ record {
      srel = srel;
      fmid = fmid;
      pre = lists.pre;
      req = lists.req;
      sup = lists.sup;
      npre = lists.npre;
      del = lists.del;
      ifs = [];
    } }
{
    let VerIdLists {
        pre,
        req,
        sup,
        npre,
        del,
    } = lists;
    Ver {
        srel,
        fmid,
        pre,
        req,
        sup,
        npre,
        del,
        ifs: Vec::new(alloc),
    }
}

// The `++VER` that these operands state. The caller has made sure that a `++VER` may have each of them.
fn read_ver(
    alloc: Global,
    sysmod: &Sysmod,
    known: &KnownStatement<'_>,
    words: &[Word<'_>],
) -> Result<Ver, OperandError>
    requires { AreOperands ver_operands (words_of words.now) }
    ensures ok { IfOk result (λ v. IsVerOf sysmod.now (own_list known.now) (words_of words.now) v) }
    ensures bad { IfErr result (λ e. Excludes e ((v : AnyVer)
        × IsVerOf sysmod.now (own_list known.now) (words_of words.now) v)) }
{
    let Some(srel) = one::<Srel>(&known.first) else {
        return Err(OperandError::Bad);
    };
    if !suits_kind(sysmod.kind, words) {
        return Err(OperandError::Bad);
    }
    let fmid = optional::<Id>(words, b"FMID")?;
    let lists = read_lists(alloc, words)?;
    let ver = ver_of_lists(alloc, srel, fmid, lists);
    if has_fmid(&ver, sysmod.id) {
        return Err(OperandError::Bad);
    }
    if !no_list_names(sysmod.id, &ver) {
        return Err(OperandError::Bad);
    }
    Ok(ver)
}

// Whether the SYSMOD may have one more `++VER`, and no list of this one is too long.
fn is_within_limits(sysmod: &Sysmod, ver: &Ver) -> bool
    ensures { IsTrue result ↔ ((length sysmod.now.vers < 8) × All IsShort (lists_of ver.now)) }
{
    sysmod.vers.len() < MOST_VERS
        && ver.pre.len() <= MOST_IDS
        && ver.req.len() <= MOST_IDS
        && ver.sup.len() <= MOST_IDS
        && ver.npre.len() <= MOST_IDS
        && ver.del.len() <= MOST_IDS
}

/// Reads a `++VER`. Returns `Memory` if memory runs out. `Fault` is `BadStatementOperand` if an operand is unknown,
/// repeated or of a bad form, if service has no FMID or has NPRE or DELETE, or if an operand names the SYSMOD itself.
/// It is `OverLimit` if the SYSMOD has 8 `++VER`s already, or a list has more than 1,000 ids.
pub fn ver_statement(
    alloc: Global,
    begun: &Begun,
    known: &KnownStatement<'_>,
) -> Result<Statement, StatementError>
    requires { known.now.word ≡ word.Ver }
    ensures said { Says (Some begun.now) known.now result }
    ensures fault { Fails (Some begun.now) known.now result }
{
    let Some(words) = known.operands.words_named(OPERANDS) else {
        return Err(StatementError::Fault(StatementCode::BadStatementOperand));
    };
    let ver = read_ver(alloc, &begun.sysmod, known, words)?;
    if !is_within_limits(&begun.sysmod, &ver) {
        return Err(StatementError::Fault(StatementCode::OverLimit));
    }
    Ok(Statement::Ver(ver))
}
