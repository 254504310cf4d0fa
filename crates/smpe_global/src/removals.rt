//! The edits that remove a rejected SYSMOD from the tables.
ghost use Rattle.std.specs.Prelude.{◌≡◌, ◌++◌, map, filter, OnOk};
ghost use Rattle.terms.specs.declared.kinds.HoldKind.TheVariants.{System};
ghost use Rattle.terms.specs.Lookups.{holds_of};
ghost use Rattle.smpe_global.specs.Rejections.{removal, edits_of};

use fields::Id;
use std::alloc::AllocError;
use sysmods::{GlobalEdit, GlobalZone};
use terms::HoldKind;

// Appends the edits that remove the internal holds on a SYSMOD.
fn push_internal_hold_removals(
    global: &GlobalZone,
    id: Id,
    edits: &mut Vec<GlobalEdit>,
) -> Result<(), AllocError>
    ensures { OnOk result (edits.new.items ≡ edits.old.items
        ++ map removal (filter (λ h. h.internal) (holds_of global.now System id))) }
{
    for hold in global.holds_of(HoldKind::System, id) {
        if hold.internal {
            edits.push(GlobalEdit::RemoveHold(hold.id, hold.kind, hold.reason))?;
        }
    }
    Ok(())
}

/// Appends the edits that remove a SYSMOD and the internal holds on it from the tables. External holds stay: they come
/// from hold files, not from the SYSMOD.
pub(crate) fn push_sysmod_removal(
    global: &GlobalZone,
    id: Id,
    edits: &mut Vec<GlobalEdit>,
) -> Result<(), AllocError>
    ensures { OnOk result (edits.new.items ≡ edits.old.items ++ edits_of global.now id) }
{
    edits.push(GlobalEdit::RemoveSysmod(id))?;
    push_internal_hold_removals(global, id, edits)
}
