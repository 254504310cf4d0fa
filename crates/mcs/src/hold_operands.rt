//! `++HOLD` and `++RELEASE`, in either file.
ghost use Rattle.std.specs.Prelude.{◌≡◌, ◌↔◌, List, IsTrue, IfOk, IfErr, IfSome, IfNone, OnErr};
ghost use Rattle.terms.specs.Types.{Hold as AnyHold, Release as AnyRelease};
ghost use Rattle.terms.specs.Statement.{Piece};
ghost use Rattle.terms.specs.Words as grammar;
ghost use Rattle.terms.specs.HoldStatements.{IsHoldOf, IsReleaseOf, HasShortComment};
ghost use Rattle.rec80.specs.Read.{IsRead};
ghost use Rattle.rec80.specs.Views.{words_of};
ghost use Rattle.rec80.specs.Failing.{Excludes};
ghost use Rattle.mcs.specs.KnownWords.{own_list};
ghost use Rattle.mcs.specs.Holds.{HasKey, ArePrintable};

use crate::begin::KnownStatement;
use crate::comment::optional_comment;
use crate::kind::read_hold_kind;
use crate::limits::LONGEST_COMMENT;
use crate::listed_values::required_reason;
use fields::{Class, HoldDate, Id, Reason};
use rec80::{BadOperand, OperandError, Word, one, optional, required};
use std::alloc::Global;
use std::marker::Model;
use sysmods_values::Hold;
use terms::HoldKind;

/// The operands of `++HOLD`.
const HOLD_OPERANDS: &[&[u8]] = &[
    b"ERROR", b"SYSTEM", b"USER", b"FMID", b"REASON", b"CLASS", b"DATE", b"COMMENT",
];

/// The operands of `++RELEASE`.
const RELEASE_OPERANDS: &[&[u8]] = &[b"ERROR", b"SYSTEM", b"USER", b"FMID", b"REASON"];

/// What `++RELEASE` states: the key of the hold, and an FMID that is not compared with the hold's.
#[derive(Clone, Copy, Debug)]
pub struct Release {
    pub id: Id,
    pub kind: HoldKind,
    pub reason: Reason,
    pub fmid: Id,
}

impl Model for Release {
    ghost use Rattle.terms.specs.Types as terms;
    ghost use Rattle.terms.specs.Forms.{IsReason};

    ghost Value = { terms.Release };

    ghost view = { λ a. record { id = a.id; kind = a.kind; reason = a.reason; fmid = a.fmid } };

    ghost invariant = { λ a. IsReason a.kind a.reason };

    ghost inverse = { λ r. record { id = r.id; kind = r.kind; reason = r.reason; fmid = r.fmid } };
}

// What `++HOLD` and `++RELEASE` both state: the key of a hold, and an FMID.
fn read_key(known: &KnownStatement<'_>, words: &[Word<'_>]) -> Option<Release>
    ensures some { IfSome result (λ r. HasKey (own_list known.now) (words_of words.now) r) }
    ensures none { IfNone result ((r : AnyRelease) → HasKey (own_list known.now) (words_of words.now) r → ⊥) }
{
    let id = one::<Id>(&known.first)?;
    let kind = read_hold_kind(words)?;
    let fmid = required::<Id>(words, b"FMID")?;
    let reason = required_reason(kind, words, b"REASON")?;
    Some(Release {
        id,
        kind,
        reason,
        fmid,
    })
}

/// Reads the operands of a `++RELEASE`: an id, one of ERROR, SYSTEM and USER, FMID and REASON. Returns an error if an
/// operand is unknown, repeated, missing or of a bad form.
pub fn release_of_operands(known: &KnownStatement<'_>) -> Result<Release, BadOperand>
    ensures ok { (rest : List Piece) → IsRead rest known.now.operands
        → IfOk result (λ r. (ws : List grammar.Word) × grammar.HasWords rest ws
        × IsReleaseOf (own_list known.now) ws r) }
    ensures bad { (rest : List Piece) → IsRead rest known.now.operands
        → OnErr result ((ws : List grammar.Word) (r : AnyRelease) → grammar.HasWords rest ws
        → IsReleaseOf (own_list known.now) ws r → ⊥) }
{
    let Some(words) = known.operands.words_named(RELEASE_OPERANDS) else {
        return Err(BadOperand);
    };
    match read_key(known, words) {
        Some(release) => Ok(release),
        None => Err(BadOperand),
    }
}

/// Reads the operands of a `++HOLD`, in a SYSMOD or in a hold file: an id, one of ERROR, SYSTEM and USER, FMID and
/// REASON, and perhaps more. It does not limit the comment. Returns `Memory` if memory runs out, and `Bad` if an
/// operand is unknown, repeated, missing or of a bad form.
pub fn hold_of_operands(
    alloc: Global,
    known: &KnownStatement<'_>,
    internal: bool,
) -> Result<Hold, OperandError>
    ensures ok { (rest : List Piece) → IsRead rest known.now.operands
        → IfOk result (λ h. (ws : List grammar.Word) × grammar.HasWords rest ws × IsHoldOf (own_list known.now) ws h) }
    ensures internal { IfOk result (λ h. h.internal ≡ internal) }
    ensures bad { (rest : List Piece) → IsRead rest known.now.operands → ArePrintable rest
        → IfErr result (λ e. Excludes e ((ws : List grammar.Word) × (h : AnyHold) × grammar.HasWords rest ws
        × IsHoldOf (own_list known.now) ws h)) }
{
    let Some(words) = known.operands.words_named(HOLD_OPERANDS) else {
        return Err(OperandError::Bad);
    };
    let Some(key) = read_key(known, words) else {
        return Err(OperandError::Bad);
    };
    let class = optional::<Class>(words, b"CLASS")?;
    let date = optional::<HoldDate>(words, b"DATE")?;
    let comment = optional_comment(alloc, words, b"COMMENT")?;
    Ok(Hold {
        id: key.id,
        kind: key.kind,
        reason: key.reason,
        fmid: key.fmid,
        class,
        date,
        comment,
        internal,
    })
}

/// Whether the comment of the hold, if it has one, is no longer than the limit.
pub fn has_short_comment(hold: &Hold) -> bool
    ensures { IsTrue result ↔ HasShortComment hold.now }
{
    match &hold.comment {
        Some(comment) => comment.len() <= LONGEST_COMMENT,
        None => true,
    }
}
