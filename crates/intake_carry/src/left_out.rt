//! The holds of SYSMODs that are left out.
ghost use Rattle.std.specs.Prelude.{[], IfOk};
ghost use Rattle.intake_holds.specs.Become.{Become};
ghost use Rattle.intake_holds.specs.Holds.{LeftHoldBecomes};

use crate::copies::OtherCopies;
use intake_cards::{RemarkReason, Remarks};
use intake_holds::{HoldError, PlacedItem, carry_hold, hold_subject, is_internal_in};
use intake_read::{WideHold, WideHoldKind, WideSysmod};
use mcs::HoldItem;
use std::alloc::{AllocError, Global};

/// Remarks that a hold of a SYSMOD is in the hold file.
pub(crate) fn tell_hold_outside(
    alloc: Global,
    remarks: &mut Remarks,
    stated: &WideHold,
) -> Result<(), AllocError> {
    let subject = hold_subject(stated);
    remarks.tell_carried(alloc, &subject, b"", RemarkReason::HeldOutside, b"")
}

/// Remarks that the holds of a SYSMOD that is left out are in the hold file. If the files have the SYSMOD more than
/// once, its internal holds get their remarks later, when it is known which holds the carried copy has
/// (`without_held_already`).
pub(crate) fn tell_left_out_holds(
    alloc: Global,
    copies: &OtherCopies,
    remarks: &mut Remarks,
    stated: &WideSysmod,
) -> Result<(), AllocError> {
    let id = stated.id.as_slice();
    let is_repeated = copies.is_repeated(id);
    for hold in stated.holds.iter() {
        let is_told_later = is_repeated && is_internal_in(id, hold);
        if hold.kind != Some(WideHoldKind::Fixcat) && !is_told_later {
            tell_hold_outside(alloc, remarks, hold)?;
        }
    }
    Ok(())
}

/// Carries the holds of a SYSMOD that is left out: returns each of them as an external hold, except those of FIXCAT.
/// Remarks say what is changed. Returns `BadHold` if one has no key, `Memory` if memory runs out.
pub(crate) fn carry_left_out_holds(
    alloc: Global,
    remarks: &mut Remarks,
    stated: &WideSysmod,
) -> Result<Vec<PlacedItem>, HoldError>
    ensures { IfOk result (λ outside. Become (LeftHoldBecomes stated.now.id.items) stated.now.holds.items []
        outside.items) }
{
    let mut outside = Vec::with_capacity(alloc, stated.holds.len())?;
    for hold in stated.holds.iter() {
        let Some(carried) = carry_hold(alloc, remarks, hold, None)? else {
            continue;
        };
        let was_internal = is_internal_in(stated.id.as_slice(), hold);
        outside.push(PlacedItem {
            place: hold.place,
            item: HoldItem::Hold(carried),
            was_internal,
        })?;
    }
    Ok(outside)
}
