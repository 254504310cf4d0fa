//! The elements that a SYSMOD does not change, though one that it supersedes does.
ghost use Rattle.std.specs.Prelude.{OnOk};
ghost use Rattle.terms.specs.Choice.{sup_of};
ghost use Rattle.sysmods.specs.Choices.{choice};
ghost use Rattle.stream.specs.Gaining.{Gains, OneOf};
ghost use Rattle.stream.specs.Kept.{AreKnown};
ghost use Rattle.stream.specs.Lost.{IsLostStatement, IsLossOf};

use crate::breaches::LostElement;
use crate::first_vers::is_in_stream;
use crate::keeping::Suspects;
use fields::Id;
use std::alloc::AllocError;
use sysmods::{GlobalZone, VerChoice};
use sysmods_values::ElemChange;

// Appends the element of this statement of the superseded SYSMOD, if the superseding one does not change it.
fn append_if_lost(
    global: &GlobalZone,
    superseding: Id,
    superseded: Id,
    change: &ElemChange,
    found: &mut Vec<LostElement>,
) -> Result<(), AllocError>
    ensures { OnOk result (Gains (IsLostStatement global.now superseding superseded change.now)
        found.old.items found.new.items) }
{
    if global.has_change(superseding, change.elem_type, change.name) {
        return Ok(());
    }
    found.push(LostElement {
        superseding,
        superseded,
        elem_type: change.elem_type,
        name: change.name,
    })?;
    Ok(())
}

// Appends the elements that one SYSMOD changes and the other one does not, if the first is in the stream.
fn append_losses(
    vers: &VerChoice<'_>,
    superseding: Id,
    superseded: Id,
    found: &mut Vec<LostElement>,
) -> Result<(), AllocError>
    ensures { OnOk result (Gains (IsLossOf vers.now.global.now (choice vers.now) superseding superseded)
        found.old.items found.new.items) }
{
    if !is_in_stream(vers, superseded) {
        return Ok(());
    }
    let global = vers.global();
    let changes = global.changes_of(superseded);
    for change in changes {
        append_if_lost(global, superseding, superseded, change, found)?;
    }
    Ok(())
}

/// Appends the elements that the SYSMOD does not change, though one of the stream that it names in SUP does.
pub(crate) fn append_lost_elements(
    suspects: &Suspects<'_, '_>,
    id: Id,
    found: &mut Vec<LostElement>,
) -> Result<(), AllocError>
    requires { AreKnown suspects.now }
    ensures { OnOk result (Gains (OneOf (sup_of (choice suspects.now.vers.now) id)
        (IsLossOf suspects.now.vers.now.global.now (choice suspects.now.vers.now) id)) found.old.items
        found.new.items) }
{
    let superseded = suspects.of(id);
    for other in superseded {
        append_losses(suspects.vers, id, *other, found)?;
    }
    Ok(())
}
