//! SYSTEM holds on SYSMODs that another one supersedes, which hold that one too. IBM repeats them in the superseding
//! SYSMOD, so that whoever installs only that one reads them. Which SYSMODs are installed already is not known here.
ghost use Rattle.std.specs.Prelude.{◌≡◌, [], true, OnOk};
ghost use Rattle.std.specs.List.{list_any};
ghost use Rattle.terms.specs.Lookups.{is_in};
ghost use Rattle.intake_carry.specs.PassedOn.{is_system_kind, is_passed_on, PassesOneOn, PassesOn};

use crate::parts::{id_of, vers_of};
use fields::{Id, IdList};
use intake_cards::{RemarkReason, Remarks};
use intake_holds::{HoldError, carry_hold, hold_subject};
use intake_read::{WideHold, WideHoldKind, WideSysmod};
use std::alloc::{AllocError, Global};
use sysmods_values::{Hold, Sysmod, Ver};

// Whether the kind of a hold is SYSTEM.
fn is_system_kind(kind: Option<WideHoldKind>) -> bool
    ensures { result ≡ is_system_kind kind }
{
    match kind {
        Some(WideHoldKind::Error) => false,
        Some(WideHoldKind::System) => true,
        Some(WideHoldKind::User) => false,
        Some(WideHoldKind::Fixcat) => false,
        None => false,
    }
}

// Whether the list has the id of this text.
fn has_id(ids: &IdList, text: &[u8]) -> bool
    ensures { result ≡ is_in ids.now text.now }
{
    ids.iter().any(|id| text == id.as_bytes())
}

// Whether one of the `++VER`s supersedes the SYSMOD of this id.
fn supersedes(vers: &[Ver], id: &[u8]) -> bool
    ensures { result ≡ list_any (λ v. is_in v.sup id.now) vers.now }
{
    vers.iter().any(|ver| has_id(&ver.sup, id))
}

// Whether the hold holds the SYSMOD with these `++VER`s too: it is a SYSTEM hold on one that the SYSMOD supersedes.
fn is_passed_on(vers: &[Ver], stated: &WideHold) -> bool
    ensures { result ≡ is_passed_on vers.now stated.now }
{
    is_system_kind(stated.kind) && supersedes(vers, stated.id.as_slice())
}

// The hold as an internal hold on the SYSMOD of this id.
fn as_hold_on(id: Id, hold: Hold) -> Hold
    ensures { result ≡ record hold { id = id; internal = true } }
{
    Hold {
        id,
        kind: hold.kind,
        reason: hold.reason,
        fmid: hold.fmid,
        class: hold.class,
        date: hold.date,
        comment: hold.comment,
        internal: true,
    }
}

// Gives the SYSMOD the hold as one of its own, with a remark, if the hold holds it too. Returns `BadHold` if the hold
// has no key, `Memory` if memory runs out.
fn pass_hold_on(
    alloc: Global,
    remarks: &mut Remarks,
    stated: &WideHold,
    sysmod: &mut Sysmod,
) -> Result<(), HoldError>
    ensures { OnOk result (PassesOneOn stated.now sysmod.old sysmod.new) }
{
    if !is_passed_on(vers_of(sysmod), stated) {
        return Ok(());
    }
    let id = id_of(sysmod);
    let mut unheard = Remarks::new(alloc);
    let Some(carried) = carry_hold(alloc, &mut unheard, stated, None)? else {
        return Ok(());
    };
    remarks.tell_carried(
        alloc,
        &hold_subject(stated),
        b"",
        RemarkReason::PassedOn,
        id.as_bytes(),
    )?;
    sysmod.push_hold(as_hold_on(id, carried))?;
    Ok(())
}

/// Gives the SYSMOD the SYSTEM holds on SYSMODs that it supersedes, as holds of its own, with remarks. Returns
/// `BadHold` if a hold has no key, `Memory` if memory runs out.
pub(crate) fn pass_holds_on(
    alloc: Global,
    remarks: &mut Remarks,
    stated: &WideSysmod,
    sysmod: &mut Sysmod,
) -> Result<(), HoldError>
    requires { sysmod.old.holds ≡ [] }
    ensures same { OnOk result (sysmod.new ≡ record sysmod.old { holds = sysmod.new.holds }) }
    ensures held { OnOk result (PassesOn sysmod.old.id sysmod.old.vers stated.now.holds.items sysmod.new.holds) }
{
    for hold in stated.holds.iter() {
        pass_hold_on(alloc, remarks, hold, sysmod)?;
    }
    Ok(())
}
