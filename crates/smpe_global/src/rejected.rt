//! REJECT: ids taken out of the global zone, or refused.
ghost use Rattle.std.specs.Prelude.{◌≡◌, All, List, IfOk, OnOk, map};
ghost use Rattle.std.specs.List.{list_any};
ghost use Rattle.std.specs.Str.{bytes_eq};
ghost use Rattle.indexmap.specs.IndexMap.{values, IsUnique};
ghost use Rattle.terms.specs.Types.{NamedZone, Global as AGlobal};
ghost use Rattle.terms.specs.Lookups.{is_applied};
ghost use Rattle.machine.specs.Runs.{Runs};
ghost use Rattle.machine.specs.Rejecting.{RejectsId};
ghost use Rattle.report.specs.Views.{line_view};
ghost use Rattle.sysmods.specs.Edits.{EachFits, after_edits, IsOfReject};
ghost use Rattle.smpe_global.specs.Rejections.{AppliesAlike, IsAnswered, IsRejected};

use crate::global_change::GlobalChange;
use crate::removals::push_sysmod_removal;
use fields::{Attest, Id, IdList, ZoneName};
use indexmap::IndexMap;
use report::{ReportLine, Status, place_of};
use std::alloc::{AllocError, Global};
use sysmods::{GlobalEdit, GlobalZone};
use terms::IdRefusal;
use zones::Zone;

// Whether the SYSMOD is applied in one of the zones.
fn is_applied_somewhere(zones: &IndexMap<ZoneName, Zone>, id: Id) -> bool
    ensures { result ≡ list_any (λ zone. is_applied zone id) (values zones.now) }
{
    zones.values().any(|zone| zone.is_applied(id))
}

// Takes a SYSMOD out of the global zone, and adds the edits for that. Refuses to if the SYSMOD is not received, or is
// applied in one of the zones.
fn remove_or_refuse(
    global: &mut GlobalZone,
    zones: &IndexMap<ZoneName, Zone>,
    id: Id,
    edits: &mut Vec<GlobalEdit>,
) -> Result<Status, AllocError>
    ensures { IfOk result (IsAnswered zones.now global.old id global.new edits.old.items edits.new.items) }
{
    // (for the clause: the global zone has its form, so the edits lead to what it becomes)
    global.attest();
    if !global.is_received(id) {
        return Ok(Status::Refused(IdRefusal::UnknownSysmod));
    }
    if is_applied_somewhere(zones, id) {
        return Ok(Status::Refused(IdRefusal::AppliedSomewhere));
    }
    push_sysmod_removal(global, id, edits)?;
    // (the SYSMOD is received, so this returns no error)
    let _ = global.reject(id);
    Ok(Status::Rejected)
}

// Rejects one id, and adds its line.
fn reject_id(
    global: &mut GlobalZone,
    zones: &IndexMap<ZoneName, Zone>,
    id: Id,
    change: &mut GlobalChange,
) -> Result<(), AllocError>
    ensures { OnOk result (IsRejected zones.now global.old id global.new change.old.edits.items
        change.new.edits.items change.old.lines.items change.new.lines.items) }
{
    let place = place_of(global, id);
    let status = remove_or_refuse(global, zones, id, &mut change.edits)?;
    change.lines.push(ReportLine::Status { id, place, status })?;
    Ok(())
}

/// Rejects the ids, in their order, each unless it is applied in one of the zones. After an error some may be gone.
pub fn reject(
    alloc: Global,
    global: &mut GlobalZone,
    zones: &IndexMap<ZoneName, Zone>,
    ids: &IdList,
) -> Result<GlobalChange, AllocError>
    ensures runs { IfOk result (λ r. (named : List NamedZone) → AppliesAlike zones.now named
        → Runs (RejectsId named) global.old ids.now global.new (map line_view r.lines.items)) }
    ensures rejects { IfOk result (λ r. All IsOfReject r.edits.items) }
    ensures fits { IfOk result (λ r. (stated : AGlobal) → EachFits stated r.edits.items global.old) }
    ensures edits { IfOk result (λ r. (stated : AGlobal) → after_edits stated r.edits.items global.old ≡ global.new) }
    ensures names { IsUnique bytes_eq zones.now }
{
    // (for the clause `names`: a map has each name once, which its type promises)
    prove!(zones.len() < usize::MAX);
    let mut change = GlobalChange::new(alloc);
    for id in ids.as_slice() {
        reject_id(global, zones, *id, &mut change)?;
    }
    Ok(change)
}
