//! The entries that an install makes.
ghost use Rattle.std.specs.Prelude.{◌≡◌, [], IfOk, OnOk, filter};
ghost use Rattle.terms.specs.Lookups.{IsZone};
ghost use Rattle.change.specs.Deleting.{AreDeletions};
ghost use Rattle.change.specs.Entries.{is_open, IsAppliedEntry, IsOtherEntry};
ghost use Rattle.change.specs.Entries.{HasPutEntries};

use crate::deleting::{Deleting, entry_left};
use crate::differing::{put_differing_entry, remove_existing_entry};
use crate::plan::Plan;
use fields::{Attest, Id, IdList};
use sorted::multi_map::listed;
use std::alloc::{AllocError, Global};
use zones::{Applied, Entry, ZoneEdits};

/// Adds the edits of the entries that the install may change. An entry that stays as it is gets no edit, and one that
/// has nothing left is removed.
pub(crate) fn put_entries(
    alloc: Global,
    deleting: &Deleting,
    plan: &Plan,
    zone_edits: &mut ZoneEdits,
) -> Result<(), AllocError>
    requires dels { AreDeletions deleting.now }
    requires empty { zone_edits.old.entries ≡ [] }
    ensures { OnOk result (HasPutEntries deleting.now plan.now plan.now.touched zone_edits.old zone_edits.new) }
{
    for id in plan.touched.as_slice() {
        let entry = if plan.effective.contains(*id) {
            applied_entry(alloc, deleting, plan, *id)?
        } else {
            other_entry(alloc, deleting, plan, *id)?
        };
        entry.attest();
        if entry.has_content() {
            put_differing_entry(deleting.left.zone, entry, zone_edits)?;
        } else {
            remove_existing_entry(deleting.left.zone, *id, zone_edits)?;
        }
    }
    Ok(())
}

// The entry of a SYSMOD that takes effect: what is left of the old entry, applied on the date of the install. The entry
// waives those bypassed requisites that nothing supplies.
fn applied_entry(
    alloc: Global,
    deleting: &Deleting,
    plan: &Plan,
    id: Id,
) -> Result<Entry, AllocError>
    requires { AreDeletions deleting.now }
    ensures { IfOk result (IsAppliedEntry deleting.now plan.now id) }
{
    let old = entry_left(alloc, &deleting.left, id)?;
    let bypassed = listed(&plan.bypassed, id);
    let waived = IdList::from_vec(unsupplied_among(alloc, deleting, plan, bypassed)?);
    let delby = deleting.delby(id);
    let applied = Some(Applied {
        date: plan.date,
        number: deleting.left.vers.number(id),
    });
    Ok(Entry {
        applied,
        delby,
        waived,
        ..old
    })
}

// The ids among these that nothing supplies after the install.
fn unsupplied_among(
    alloc: Global,
    deleting: &Deleting,
    plan: &Plan,
    ids: &[Id],
) -> Result<Vec<Id>, AllocError>
    ensures { IfOk result (λ left. left.items ≡ filter (is_open deleting.now plan.now) ids.now) }
{
    ids.iter()
        .filter(|id| is_unsupplied(deleting, plan, **id))
        .copied()
        .collect(alloc)
}

// Whether nothing supplies the id after the install.
fn is_unsupplied(deleting: &Deleting, plan: &Plan, id: Id) -> bool
    ensures { result ≡ is_open deleting.now plan.now id }
{
    !plan.effective.contains(id)
        && listed(&plan.superseders, id).is_empty()
        && !deleting.left.supplies(id)
}

// The entry of an id that does not take effect: what is left of the old entry, with the SYSMODs that take effect and
// supersede the id added to SUPBY.
fn other_entry(alloc: Global, deleting: &Deleting, plan: &Plan, id: Id) -> Result<Entry, AllocError>
    requires { AreDeletions deleting.now }
    ensures entry { IfOk result (IsOtherEntry deleting.now plan.now id) }
    ensures form { IsZone deleting.now.left.zone.now }
{
    let old = entry_left(alloc, &deleting.left, id)?;
    let mut supby = Vec::from_slice(alloc, old.supby.as_slice())?;
    supby.extend_from_slice(listed(&plan.superseders, id))?;
    let supby = IdList::from_vec(supby);
    let delby = deleting.delby(id);
    Ok(Entry {
        supby,
        delby,
        ..old
    })
}
