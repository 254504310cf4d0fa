//! Which statements may follow which.
ghost use Rattle.std.specs.Prelude.{◌≡◌, ◌↔◌, ◌⊎◌, ℕ, List, Some, Any, IsTrue, IfSome, IfNone, IsSomeAnd};
ghost use Rattle.terms.specs.declared.statement_words.StatementWord.TheVariants as word;
ghost use Rattle.terms.specs.declared.kinds.Kind.TheVariants.{Function};
ghost use Rattle.terms.specs.Statements.{changed_type};
ghost use Rattle.terms.specs.Statement.{Piece};
ghost use Rattle.terms.specs.Ptfin.{MayStand, NamesFmid, IsSecond, Disorder, IsMisplaced, sysmod_in};
ghost use Rattle.rec80.specs.Read.{IsRead};
ghost use Rattle.mcs.specs.KnownWords.{own_list, parts_of};
ghost use Rattle.mcs.specs.Files.{begun_in};

use crate::begin::KnownStatement;
use crate::file::Begun;
use fields::{Id, Name, Srel};
use rec80::{Operands, Record, Word, one};
use sysmods_values::{Sysmod, Ver};
use terms::{ElemType, Kind, StatementWord};

// The type of the element that a statement of the word changes.
fn changed_type(word: StatementWord) -> Option<ElemType>
    ensures { result ≡ changed_type word }
{
    match word {
        StatementWord::Replace(elem_type) => Some(elem_type),
        StatementWord::UpdateMac => Some(ElemType::Mac),
        StatementWord::UpdateSrc => Some(ElemType::Src),
        StatementWord::Header(_)
        | StatementWord::Ver
        | StatementWord::If
        | StatementWord::Hold
        | StatementWord::Release
        | StatementWord::Assign => None,
    }
}

// Whether a statement of the word may come next in the SYSMOD that has begun, or outside of SYSMODs if none has.
fn may_stand(current: &Option<Begun>, word: StatementWord) -> bool
    ensures { IsTrue result ↔ MayStand (sysmod_in (begun_in current.now)) word }
{
    let Some(begun) = current else {
        return matches!(word, StatementWord::Header(_) | StatementWord::Assign);
    };
    let sysmod = &begun.sysmod;
    match word {
        StatementWord::Ver => sysmod.holds.is_empty() && sysmod.changes.is_empty(),
        StatementWord::If => {
            !sysmod.vers.is_empty() && sysmod.holds.is_empty() && sysmod.changes.is_empty()
        }
        StatementWord::Hold => !sysmod.vers.is_empty() && sysmod.changes.is_empty(),
        StatementWord::Release => false,
        StatementWord::Header(_)
        | StatementWord::Assign
        | StatementWord::Replace(_)
        | StatementWord::UpdateMac
        | StatementWord::UpdateSrc => !sysmod.vers.is_empty(),
    }
}

/// The operand FMID, which names an id only if it occurs once.
const FMID: &[&[u8]] = &[b"FMID"];

// The id that FMID names, even if other operands are bad.
fn named_fmid(operands: &Operands<'_>) -> Option<Id>
    ensures some { (rest : List Piece) → IsRead rest operands.now → IfSome result (NamesFmid rest) }
    ensures none { (rest : List Piece) → IsRead rest operands.now
        → IfNone result ((fmid : List ℕ) → NamesFmid rest fmid → ⊥) }
{
    if operands.has_twice(FMID) {
        return None;
    }
    let list = operands.list_after(b"FMID");
    one::<Id>(&Word {
        word: b"FMID",
        list,
    })
}

// Whether the `++VER` has the FMID that is named, if one is.
fn has_named_fmid(ver: &Ver, named: Option<Id>) -> bool
    ensures { IsTrue result ↔ IsSomeAnd ver.now.fmid (λ f. named ≡ Some f) }
{
    match (ver.fmid, named) {
        (Some(fmid), Some(named)) => fmid == named,
        _ => false,
    }
}

// Whether a SYSMOD of the kind that has the `++VER` may have no other one of the SREL and FMID.
fn excludes_another(kind: Kind, ver: &Ver, srel: Srel, named: Option<Id>) -> bool
    ensures { IsTrue result ↔ ((ver.now.srel ≡ srel) × ((kind ≡ Function) ⊎ IsSomeAnd ver.now.fmid
        (λ f. named ≡ Some f))) }
{
    ver.srel == srel && (matches!(kind, Kind::Function) || has_named_fmid(ver, named))
}

// Whether a SYSMOD of the kind that has the `++VER`s may have no other one of the SREL and FMID.
fn any_excludes_another(kind: Kind, vers: &[Ver], srel: Srel, named: Option<Id>) -> bool
    ensures { IsTrue result ↔ Any (λ v. (v.srel ≡ srel) × ((kind ≡ Function) ⊎ IsSomeAnd v.fmid
        (λ f. named ≡ Some f))) vers.now }
{
    vers.iter()
        .any(|ver| excludes_another(kind, ver, srel, named))
}

// Whether the statement is a second `++VER` of one SREL in a function, or of one SREL and FMID in another SYSMOD.
fn is_duplicate_ver(sysmod: &Sysmod, known: &KnownStatement<'_>) -> bool
    requires { known.now.word ≡ word.Ver }
    ensures { (rest : List Piece) → IsRead rest known.now.operands
        → IsTrue result ↔ IsSecond sysmod.now known.now.word (own_list known.now) rest }
{
    match one::<Srel>(&known.first) {
        Some(srel) => any_excludes_another(
            sysmod.kind,
            &sysmod.vers,
            srel,
            named_fmid(&known.operands),
        ),
        None => false,
    }
}

// Whether the statement is a second `++VER` that its SYSMOD may not have, or a second change of one element.
fn is_duplicate(sysmod: &Sysmod, known: &KnownStatement<'_>) -> bool
    ensures { (rest : List Piece) → IsRead rest known.now.operands
        → IsTrue result ↔ IsSecond sysmod.now known.now.word (own_list known.now) rest }
{
    if matches!(known.word, StatementWord::Ver) {
        return is_duplicate_ver(sysmod, known);
    }
    let Some(elem_type) = changed_type(known.word) else {
        return false;
    };
    match one::<Name>(&known.first) {
        Some(name) => sysmod.has_change(elem_type, name),
        None => false,
    }
}

/// Whether the statement may not come next. `later` has the records after it: a header must not be the last statement.
pub fn is_misplaced(current: &Option<Begun>, later: &[Record], known: &KnownStatement<'_>) -> bool
    ensures { (rest : List Piece) → IsRead rest known.now.operands → IsTrue result ↔ ((why : Disorder)
        × IsMisplaced (sysmod_in (begun_in current.now)) later.now (parts_of known.now rest) why) }
{
    if !may_stand(current, known.word) {
        return true;
    }
    let is_header = matches!(known.word, StatementWord::Header(_));
    if is_header && later.is_empty() {
        return true;
    }
    if changed_type(known.word).is_none() && !known.inline.is_empty() {
        return true;
    }
    match current {
        Some(begun) => {
            let is_update = matches!(
                known.word,
                StatementWord::UpdateMac | StatementWord::UpdateSrc
            );
            is_duplicate(&begun.sysmod, known)
                || (is_update && matches!(begun.sysmod.kind, Kind::Function))
        }
        None => false,
    }
}
