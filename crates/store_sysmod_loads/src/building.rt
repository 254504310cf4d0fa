//! SYSMODs put together from their rows.

ghost use Rattle.std.specs.Prelude.{◌≡◌, ◌≢◌, ◌≤◌, ◌↔◌, List, [], ◌∷◌, length, All, AllPairs, IsTrue, IfOk};
ghost use Rattle.std.specs.Prelude.{IsErrOf};
ghost use Rattle.terms.specs.declared.kinds.Kind.TheVariants.{Function};
ghost use Rattle.terms.specs.Types.{Sysmod as SysmodTerm};
ghost use Rattle.terms.specs.Rising.{Rises};
ghost use Rattle.terms.specs.Global.{change_cmp};
ghost use Rattle.store_schema.specs.Forms.{VerSuitsKind, AreVersApart};
ghost use Rattle.store_sysmods.specs.declared.ver.VerRow.{VerRow as VerLine};
ghost use Rattle.store_sysmods.specs.declared.ifreq.IfRow.{IfRow as IfLine};
ghost use Rattle.store_sysmods.specs.declared.elem.ElemRow.{ElemRow as ElemLine};
ghost use Rattle.store_sysmod_loads.specs.Runs.{AreBare};
ghost use Rattle.store_sysmod_loads.specs.Built.{MayDo, IsBuilt, sysmod_from, BeginsWithSysmod, AreTaken};

use crate::gathering::{pop_row, take_changes, take_vers};
use fields::Id;
use sorted::are_rising;
use std::alloc::Global;
use std::collections::VecDeque;
use store_rows::ReadError;
use store_sysmods::{ElemRow, HeadRow, IfRow, VerRow};
use sysmods_values::{Action, ElemChange, Sysmod, Ver};
use terms::Kind;

// Whether a SYSMOD of this kind may have the operands of the `++VER`. Only a function may lack an FMID, or have NPRE or
// DELETE.
fn suits_kind(kind: Kind, ver: &Ver) -> bool
    ensures { IsTrue result ↔ VerSuitsKind kind ver.now }
{
    match kind {
        Kind::Function => true,
        _ => ver.fmid.is_some() && ver.npre.is_empty() && ver.del.is_empty(),
    }
}

// Whether a SYSMOD of this kind may have this element statement. A function has no updates.
fn is_change_allowed(kind: Kind, change: &ElemChange) -> bool
    ensures { IsTrue result ↔ MayDo kind change.now.action }
{
    kind != Kind::Function || !matches!(change.action, Action::Updates { .. })
}

// Whether the operands of each `++VER` are those of a SYSMOD of this kind.
fn all_suit_kind(kind: Kind, vers: &[Ver]) -> bool
    ensures { IsTrue result ↔ All (VerSuitsKind kind) vers.now }
{
    vers.iter().all(|ver| suits_kind(kind, ver))
}

// Whether two `++VER`s of these FMIDs may be for one SREL in a SYSMOD of this kind.
fn may_share_srel(kind: Kind, fmid: Option<Id>, other: Option<Id>) -> bool
    ensures { IsTrue result ↔ ((kind ≢ Function) × (fmid ≢ other)) }
{
    kind != Kind::Function && fmid != other
}

// Whether the other `++VER` may follow this one in a SYSMOD of this kind: its SREL is later, or they may share one.
fn may_follow(kind: Kind, ver: &Ver, other: &Ver) -> bool
    ensures { IsTrue result ↔ AreVersApart kind ver.now other.now }
{
    if ver.srel == other.srel {
        return may_share_srel(kind, ver.fmid, other.fmid);
    }
    ver.srel < other.srel
}

// Whether the other `++VER` may follow each of these in a SYSMOD of this kind.
fn may_follow_all(kind: Kind, vers: &[Ver], other: &Ver) -> bool
    ensures { IsTrue result ↔ All (λ ver. AreVersApart kind ver other.now) vers.now }
{
    vers.iter().all(|ver| may_follow(kind, ver, other))
}

// Whether each `++VER` may follow all that come before it in a SYSMOD of this kind.
fn each_may_follow_earlier(kind: Kind, vers: &[Ver]) -> bool
    ensures { IsTrue result ↔ AllPairs (AreVersApart kind) vers.now }
{
    for i in 0..vers.len() {
        if !may_follow_all(kind, &vers[..i], &vers[i]) {
            return false;
        }
    }
    true
}

// Whether a SYSMOD of this kind may have each of these element statements.
fn are_changes_allowed(kind: Kind, changes: &[ElemChange]) -> bool
    ensures { IsTrue result ↔ All (λ c. MayDo kind c.action) changes.now }
{
    changes.iter().all(|change| is_change_allowed(kind, change))
}

// Whether the element statements rise by type and name. `sorted` compares their keys; the contract says the same by
// `change_cmp`, the order of the definitions.
fn are_changes_rising(changes: &[ElemChange]) -> bool
    ensures { IsTrue result ↔ Rises change_cmp (λ c. c) changes.now }
{
    are_rising(changes)
}

// Whether a SYSMOD of this kind may have these `++VER`s.
fn may_have_vers(kind: Kind, vers: &[Ver]) -> bool
    ensures { IsTrue result ↔ (All (VerSuitsKind kind) vers.now × AllPairs (AreVersApart kind) vers.now) }
{
    all_suit_kind(kind, vers) && each_may_follow_earlier(kind, vers)
}

// Whether a SYSMOD of this kind may have these element statements, in this order.
fn may_have_changes(kind: Kind, changes: &[ElemChange]) -> bool
    ensures { IsTrue result ↔ (All (λ c. MayDo kind c.action) changes.now × Rises change_cmp (λ c. c) changes.now) }
{
    are_changes_allowed(kind, changes) && are_changes_rising(changes)
}

// The SYSMOD of these parts. Returns `BadRow`, and no other error, if it has no `++VER`, or if no SYSMOD of its kind
// may have these statements.
fn build_sysmod(
    alloc: Global,
    head: HeadRow,
    vers: Vec<Ver>,
    changes: Vec<ElemChange>,
) -> Result<Sysmod, ReadError>
    requires { length vers.items ≤ 8 }
    ensures some { IfOk result (λ s. (s ≡ sysmod_from head vers.items changes.items) × IsBuilt s) }
    ensures none { IsErrOf result ReadError.BadRow → ¬ IsBuilt (sysmod_from head vers.items changes.items) }
    ensures fault { IsErrOf result ReadError.Fault → ⊥ }
{
    if vers.is_empty() {
        return Err(ReadError::BadRow);
    }
    if !may_have_vers(head.kind, vers.as_slice()) {
        return Err(ReadError::BadRow);
    }
    if !may_have_changes(head.kind, changes.as_slice()) {
        return Err(ReadError::BadRow);
    }
    Ok(Sysmod {
        id: head.id,
        kind: head.kind,
        sources: head.sources,
        vers,
        changes,
        holds: Vec::new(alloc),
    })
}

// The SYSMOD of this head, built from the rows of its statements, which it takes off the front of the lists. Returns
// `BadRow` if they stand for no SYSMOD, and `Memory` if memory runs out.
fn take_sysmod(
    alloc: Global,
    head: HeadRow,
    vers: &mut VecDeque<VerRow>,
    ifs: &mut VecDeque<IfRow>,
    elems: &mut VecDeque<ElemRow>,
) -> Result<Sysmod, ReadError>
    requires { AreBare vers.old.items }
    ensures bare { AreBare vers.new.items }
    ensures taken { IfOk result (λ s. BeginsWithSysmod head s vers.old.items ifs.old.items elems.old.items
        vers.new.items
        ifs.new.items elems.new.items) }
    ensures only { IfOk result (λ s. (other : SysmodTerm) (vs : List VerLine) (is : List IfLine) (es : List ElemLine)
        → BeginsWithSysmod head other vers.old.items ifs.old.items elems.old.items vs is es
        → (other ≡ s) × (vs ≡ vers.new.items) × (is ≡ ifs.new.items) × (es ≡ elems.new.items)) }
    ensures none { IsErrOf result ReadError.BadRow → (other : SysmodTerm) (vs : List VerLine) (is : List IfLine)
        (es : List ElemLine) → ¬ BeginsWithSysmod head other vers.old.items ifs.old.items elems.old.items vs is es }
    ensures fault { IsErrOf result ReadError.Fault → ⊥ }
{
    let found = take_vers(alloc, vers, ifs, head.id)?;
    let changes = take_changes(alloc, elems, head.id)?;
    build_sysmod(alloc, head, found, changes)
}

/// The SYSMODs of all heads, in their order. It takes the rows of one after the other, until no row is left. Returns
/// `BadRow` if the rows of a head stand for no SYSMOD, or if rows are left after the last head, and `Memory` if memory
/// runs out. The caller keeps the lists: if this function dropped them, that would have to be proved at each exit.
pub(crate) fn take_all_sysmods(
    alloc: Global,
    heads: &mut VecDeque<HeadRow>,
    vers: &mut VecDeque<VerRow>,
    ifs: &mut VecDeque<IfRow>,
    elems: &mut VecDeque<ElemRow>,
) -> Result<Vec<Sysmod>, ReadError>
    requires { AreBare vers.old.items }
    ensures taken { IfOk result (λ ss. AreTaken heads.old.items ss.items vers.old.items ifs.old.items
        elems.old.items) }
    ensures only { IfOk result (λ ss. (others : List SysmodTerm)
        → AreTaken heads.old.items others vers.old.items ifs.old.items elems.old.items → others ≡ ss.items) }
    ensures none { IsErrOf result ReadError.BadRow → (others : List SysmodTerm)
        → ¬ AreTaken heads.old.items others vers.old.items ifs.old.items elems.old.items }
    ensures fault { IsErrOf result ReadError.Fault → ⊥ }
{
    let mut sysmods = Vec::with_capacity(alloc, heads.len())?;
    while let Some(head) = pop_row(heads) {
        let sysmod = take_sysmod(alloc, head, vers, ifs, elems)?;
        if sysmods.push(sysmod).is_err() {
            return Err(ReadError::Memory);
        }
    }
    if !vers.is_empty() || !ifs.is_empty() || !elems.is_empty() {
        return Err(ReadError::BadRow);
    }
    Ok(sysmods)
}
