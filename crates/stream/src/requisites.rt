//! The requisites that a SYSMOD lacks of those that it supersedes.
ghost use Rattle.std.specs.Prelude.{◌≡◌, ◌≢◌, ◌++◌, ◌↔◌, filter, not, Contains, IsTrue, IfOk, OnOk};
ghost use Rattle.terms.specs.Choice.{sup_of};
ghost use Rattle.terms.specs.Lookups.{is_in};
ghost use Rattle.sysmods.specs.Choices.{choice};
ghost use Rattle.stream.specs.Gaining.{Gains, OneOf};
ghost use Rattle.stream.specs.Kept.{AreKnown};
ghost use Rattle.stream.specs.Lost.{VerLacks, IsLackOf};
ghost use Rattle.stream.specs.declared.breaches.Lack.{Lack as ALack};
ghost use Rattle.stream.specs.declared.breaches.Lack.TheVariants.{Fmid};

use crate::breaches::{Lack, LostRequisite};
use crate::keeping::Suspects;
use fields::Id;
use std::alloc::{AllocError, Global};
use sysmods::VerChoice;
use sysmods_values::Ver;

/// Whether both have one FMID, or neither has one.
pub(crate) fn have_one_fmid(ver: &Ver, other: &Ver) -> bool
    ensures { IsTrue result ↔ (ver.now.fmid ≡ other.now.fmid) }
{
    ver.fmid == other.fmid
}

/// Whether the `++VER` names the id in PRE or SUP.
pub(crate) fn requires_or_supersedes(ver: &Ver, id: Id) -> bool
    ensures { result ≡ is_in (ver.now.pre ++ ver.now.sup) id }
{
    ver.pre.contains(id) || ver.sup.contains(id)
}

// The PREs of the other `++VER` that this one names neither in PRE nor in SUP.
fn lost_pres(alloc: Global, ver: &Ver, other: &Ver) -> Result<Vec<Id>, AllocError>
    ensures { IfOk result
        (λ ids. ids.items ≡ filter (λ z. not (is_in (ver.now.pre ++ ver.now.sup) z)) other.now.pre) }
{
    other
        .pre
        .iter()
        .filter(|id| !requires_or_supersedes(ver, **id))
        .copied()
        .collect(alloc)
}

// The SUPs of the other `++VER` that this one does not name in SUP.
fn lost_sups(alloc: Global, ver: &Ver, other: &Ver) -> Result<Vec<Id>, AllocError>
    ensures { IfOk result (λ ids. ids.items ≡ filter (λ z. not (is_in ver.now.sup z)) other.now.sup) }
{
    other
        .sup
        .iter()
        .filter(|id| !ver.supersedes(**id))
        .copied()
        .collect(alloc)
}

// A lack of the FMID, if the two have not the same.
fn lost_fmid(alloc: Global, ver: &Ver, other: &Ver) -> Result<Vec<Lack>, AllocError>
    ensures { IfOk result (λ lacks. (lack : ALack) → Contains lacks.items lack
        ↔ ((lack ≡ Fmid) × (ver.now.fmid ≢ other.now.fmid))) }
{
    if have_one_fmid(ver, other) {
        return Ok(Vec::new(alloc));
    }
    Ok(vec![in alloc; Lack::Fmid]?)
}

// What the `++VER` lacks of the requisites of the other one.
fn lacks_of(alloc: Global, ver: &Ver, other: &Ver) -> Result<Vec<Lack>, AllocError>
    ensures { IfOk result (λ lacks. (lack : ALack) → Contains lacks.items lack ↔ VerLacks ver.now other.now lack) }
{
    let pres = lost_pres(alloc, ver, other)?;
    let sups = lost_sups(alloc, ver, other)?;
    let mut lacks = lost_fmid(alloc, ver, other)?;
    for pre in pres.as_slice() {
        lacks.push(Lack::Pre(*pre))?;
    }
    for sup in sups.as_slice() {
        lacks.push(Lack::Sup(*sup))?;
    }
    Ok(lacks)
}

// Appends what one SYSMOD lacks of the requisites of another one, if both are in the stream.
fn append_lacks(
    alloc: Global,
    vers: &VerChoice<'_>,
    superseding: Id,
    superseded: Id,
    found: &mut Vec<LostRequisite>,
) -> Result<(), AllocError>
    ensures { OnOk result
        (Gains (IsLackOf (choice vers.now) superseding superseded) found.old.items found.new.items) }
{
    let Some(ver) = vers.ver(superseding) else {
        return Ok(());
    };
    let Some(other) = vers.ver(superseded) else {
        return Ok(());
    };
    let lacks = lacks_of(alloc, ver, other)?;
    for lack in lacks.as_slice() {
        found.push(LostRequisite {
            superseding,
            superseded,
            lack: *lack,
        })?;
    }
    Ok(())
}

/// Appends the requisites that the SYSMOD lacks of each one of the stream that it names in SUP.
pub(crate) fn append_lost_requisites(
    alloc: Global,
    suspects: &Suspects<'_, '_>,
    id: Id,
    found: &mut Vec<LostRequisite>,
) -> Result<(), AllocError>
    requires { AreKnown suspects.now }
    ensures { OnOk result (Gains (OneOf (sup_of (choice suspects.now.vers.now) id)
        (IsLackOf (choice suspects.now.vers.now) id)) found.old.items found.new.items) }
{
    let superseded = suspects.of(id);
    for other in superseded {
        append_lacks(alloc, suspects.vers, id, *other, found)?;
    }
    Ok(())
}
