//! SYSMODs with their holds.
ghost use Rattle.std.specs.Prelude.{◌≡◌, ◌++◌, ◌∷◌, [], List, IfOk, IfSome, OnOk, IsTrue, IsFalse, Some};
ghost use Rattle.terms.specs.declared.kinds.HoldKind.TheVariants.{System};
ghost use Rattle.terms.specs.Types.{Hold as AnyHold};
ghost use Rattle.intake_sysmod.specs.NoLooser.{IsNoLooser};
ghost use Rattle.intake_holds.specs.Become.{Become};
ghost use Rattle.mcs.specs.declared.hold_item.HoldItem.TheVariants.{Hold as AHold};
ghost use Rattle.intake_holds.specs.Holds.{placed_at, HoldBecomes};
ghost use Rattle.intake_carry.specs.Carried.{item_in, HoldsBecome, SysmodBecomes};

use crate::left_out::{carry_left_out_holds, tell_hold_outside, tell_left_out_holds};
use crate::passed_on::pass_holds_on;
use crate::scope::CarryScope;
use fields::spelling::kind_text;
use intake_cards::{CardPlace, RemarkReason, Remarks, Subject};
use intake_holds::{HoldError, PlacedItem, carry_hold, hold_subject, is_internal_in, push_item};
use intake_read::{WideHold, WideSysmod};
use intake_sysmod::carry_sysmod;
use mcs::HoldItem;
use std::alloc::{AllocError, Global};
use sysmods_values::{Hold, Sysmod};

/// What becomes of a SYSMOD: itself with its internal holds, or `None` if it is left out, and those of its holds that
/// go to the hold file.
#[derive(Drop)]
pub(crate) struct CarriedSysmod {
    pub sysmod: Option<Sysmod>,
    pub outside: Vec<PlacedItem>,
}

// Puts the hold into the SYSMOD if it is internal, and into the hold file if it is not.
fn place_hold(
    sysmod: &mut Sysmod,
    outside: &mut Vec<PlacedItem>,
    place: CardPlace,
    hold: Hold,
) -> Result<(), AllocError>
    requires { IsTrue hold.internal → (hold.kind ≡ System) × (hold.id ≡ sysmod.old.id) }
    ensures inside { OnOk result (IsTrue hold.internal
        → (sysmod.new ≡ record sysmod.old { holds = sysmod.old.holds ++ hold ∷ [] })
        × (outside.new.items ≡ outside.old.items)) }
    ensures outside { OnOk result (IsFalse hold.internal → (sysmod.new ≡ sysmod.old)
        × (outside.new.items ≡ outside.old.items ++ placed_at place (AHold hold) ∷ [])) }
{
    if hold.internal {
        sysmod.push_hold(hold)?;
        Ok(())
    } else {
        push_item(outside, place, HoldItem::Hold(hold))?;
        Ok(())
    }
}

// Puts the internal holds into the SYSMOD, after those that it has, and returns the others, which go to the hold file.
// Remarks say what is changed. Returns `BadHold` if a hold has no key, `Memory` if memory runs out.
fn place_holds(
    alloc: Global,
    remarks: &mut Remarks,
    stated: &WideSysmod,
    sysmod: &mut Sysmod,
) -> Result<Vec<PlacedItem>, HoldError>
    ensures same { OnOk result (sysmod.new ≡ record sysmod.old { holds = sysmod.new.holds }) }
    ensures held { IfOk result (λ outside. (inside : List AnyHold) × (sysmod.new.holds ≡ sysmod.old.holds ++ inside)
        × Become (HoldBecomes (Some sysmod.old.id)) stated.now.holds.items inside outside.items) }
{
    let own = sysmod.id;
    let mut outside = Vec::new(alloc);
    for hold in stated.holds.iter() {
        let Some(carried) = carry_hold(alloc, remarks, hold, Some(own))? else {
            continue;
        };
        if !carried.internal {
            tell_hold_outside(alloc, remarks, hold)?;
        }
        place_hold(sysmod, &mut outside, hold.place, carried)?;
    }
    Ok(outside)
}

// Whether both holds have the same key: they are of one kind, on one SYSMOD, for one reason.
fn have_same_key(hold: &WideHold, later: &WideHold) -> bool {
    hold.kind == later.kind
        && hold.id.as_slice() == later.id.as_slice()
        && stated_text(&hold.reason) == stated_text(&later.reason)
}

/// The text, or an empty one if none is stated.
pub(crate) fn stated_text(stated: &Option<Vec<u8>>) -> &[u8] {
    match stated {
        Some(text) => text.as_slice(),
        None => b"",
    }
}

// Remarks on each internal hold that a later one of the same key follows: RECEIVE keeps only the later one.
fn tell_replaced_holds(
    alloc: Global,
    remarks: &mut Remarks,
    stated: &WideSysmod,
) -> Result<(), AllocError> {
    let holds = stated.holds.as_slice();
    for (index, hold) in holds.iter().enumerate() {
        let is_internal = is_internal_in(stated.id.as_slice(), hold);
        let has_later = holds
            .iter()
            .skip(index.saturating_add(1))
            .any(|later| have_same_key(hold, later));
        if is_internal && has_later {
            let subject = hold_subject(hold);
            let reason = stated_text(&hold.reason);
            remarks.tell_carried(alloc, &subject, b"REASON", RemarkReason::LaterHold, reason)?;
        }
    }
    Ok(())
}

// Carries the holds of a SYSMOD that is carried: the internal ones in it, after those of SYSMODs that it supersedes,
// and the others in the hold file. RECEIVE keeps the last hold of each reason, which is the SYSMOD's own. Returns
// `BadHold` if a hold has no key, `Memory` if memory runs out.
fn carry_holds(
    alloc: Global,
    remarks: &mut Remarks,
    stated: &WideSysmod,
    mut sysmod: Sysmod,
) -> Result<CarriedSysmod, HoldError>
    requires { sysmod.holds ≡ [] }
    ensures same { IfOk result (λ part. IfSome part.sysmod (λ s. s ≡ record sysmod { holds = s.holds })) }
    ensures held { IfOk result (λ part. HoldsBecome stated.now part.sysmod part.outside.items) }
{
    tell_replaced_holds(alloc, remarks, stated)?;
    pass_holds_on(alloc, remarks, stated, &mut sysmod)?;
    let outside = place_holds(alloc, remarks, stated, &mut sysmod)?;
    Ok(CarriedSysmod {
        sysmod: Some(sysmod),
        outside,
    })
}

// Remarks that another copy of the SYSMOD is carried.
fn tell_other_copy(
    alloc: Global,
    remarks: &mut Remarks,
    stated: &WideSysmod,
) -> Result<(), AllocError> {
    let subject = Subject {
        place: stated.place,
        word: kind_text(stated.kind),
        id: stated.id.as_slice(),
    };
    remarks.tell_left_out(alloc, &subject, b"", RemarkReason::OtherCopy, b"")
}

// Carries a SYSMOD without its holds. Returns `None`, with a remark, if it is left out or another copy of it is
// carried.
fn carry_without_holds(
    alloc: Global,
    scope: &CarryScope<'_>,
    remarks: &mut Remarks,
    stated: &WideSysmod,
) -> Result<Option<Sysmod>, AllocError>
    ensures { IfOk result (λ found. IfSome found (λ sysmod.
        IsNoLooser scope.now.options.now.decide scope.now.users.now stated.now sysmod × (sysmod.holds ≡ []))) }
{
    if scope.copies.is_other_copy(stated) {
        tell_other_copy(alloc, remarks, stated)?;
        return Ok(None);
    }
    carry_sysmod(alloc, scope.options, scope.users, remarks, stated)
}

/// Carries a SYSMOD with its holds. If it is left out, all its holds go to the hold file. Remarks say why it is left
/// out, or what is changed. Returns `BadHold` if a hold has no key, `Memory` if memory runs out.
pub(crate) fn carry_with_holds(
    alloc: Global,
    scope: &CarryScope<'_>,
    remarks: &mut Remarks,
    stated: &WideSysmod,
) -> Result<CarriedSysmod, HoldError>
    ensures { IfOk result (λ part. SysmodBecomes scope.now.options.now.decide scope.now.users.now stated.now
        (item_in part.sysmod) part.outside.items) }
{
    let Some(sysmod) = carry_without_holds(alloc, scope, remarks, stated)? else {
        tell_left_out_holds(alloc, scope.copies, remarks, stated)?;
        let outside = carry_left_out_holds(alloc, remarks, stated)?;
        return Ok(CarriedSysmod {
            sysmod: None,
            outside,
        });
    };
    carry_holds(alloc, remarks, stated, sysmod)
}
