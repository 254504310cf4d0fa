//! What RESTORE makes of a target zone.
ghost use Rattle.std.specs.Prelude.{◌≡◌, [], All, IsPermutation, IsTrue, IfOk, OnOk, fold};
ghost use Rattle.std.specs.List.{list_any};
ghost use Rattle.terms.specs.Types.{Zone as AZone};
ghost use Rattle.terms.specs.Lookups.{is_in, waives_applied};
ghost use Rattle.terms.specs.Restore.{Restoring, Restores};
ghost use Rattle.zones_maps.specs.Delta.{IsChanged, KnowsStood};
ghost use Rattle.zones_maps.specs.Differing.{EachChanges};
ghost use Rattle.change.specs.Restoring.{IsRestoringOf, ArePutBack, PutsBack, all_changed, loses};
ghost use Rattle.change.specs.Restoring.{take_off};

use fields::{Id, IdList, Name};
use sorted::TryClone;
use std::alloc::{AllocError, Global};
use sysmods::GlobalZone;
use terms::ElemType;
use zones::{Entry, Zone, ZoneDelta, ZoneEdits, are_same_elements, entry_less};

/// What changes in a target zone when the kept SYSMODs are taken off it. Elements that they change become those of the
/// distribution zone, which is `accepted`. Each edit changes something.
pub fn restore(
    alloc: Global,
    global: &GlobalZone,
    zone: &Zone,
    accepted: &Zone,
    kept: &IdList,
) -> Result<ZoneDelta, AllocError>
    ensures restores { IfOk result (λ delta. (r : Restoring) → IsRestoringOf r global.now zone.now accepted.now
        → (new : AZone) → IsChanged delta zone.now new → Restores r kept.now new) }
    ensures differs { IfOk result (λ delta. EachChanges zone.now delta.edits) }
    ensures knows { IfOk result (KnowsStood zone.now) }
{
    let mut zone_edits = ZoneEdits::new(alloc);
    take_all_off(alloc, kept, zone.entries(), &mut zone_edits)?;
    let changed = changed_keys_in_order(alloc, global, kept)?;
    put_all_back(alloc, zone, accepted, changed.as_slice(), &mut zone_edits)?;
    ZoneDelta::from_edits(alloc, zone_edits, zone)
}

// The types and names of the elements that the SYSMODs change, sorted. An element that several of them change occurs
// several times.
fn changed_keys_in_order(
    alloc: Global,
    global: &GlobalZone,
    ids: &IdList,
) -> Result<Vec<(ElemType, Name)>, AllocError>
    ensures { IfOk result (λ keys. IsPermutation (all_changed global.now ids.now) keys.items) }
{
    let mut changed = Vec::new(alloc);
    for id in ids.as_slice() {
        let changes = global.changes_of(*id);
        for change in changes {
            changed.push((change.elem_type, change.name))?;
        }
    }
    changed.sort_unstable();
    Ok(changed)
}

// Whether the restore takes something out of the entry: its own SYSMOD is applied and is taken off, or a SYSMOD in its
// SUPBY is taken off.
fn loses_kept(kept: &IdList, entry: &Entry) -> bool
    ensures { result ≡ loses (is_in kept.now) entry.now }
{
    (kept.contains(entry.id) && entry.applied.is_some()) || any_kept(kept, entry.supby.as_slice())
}

// Whether one of the ids is kept.
fn any_kept(kept: &IdList, ids: &[Id]) -> bool
    ensures { result ≡ list_any (is_in kept.now) ids.now }
{
    ids.iter().any(|id| kept.contains(*id))
}

// Takes the kept SYSMODs out of each of these entries.
fn take_all_off(
    alloc: Global,
    kept: &IdList,
    entries: &[Entry],
    zone_edits: &mut ZoneEdits,
) -> Result<(), AllocError>
    requires { All (λ e. IsTrue (waives_applied e)) entries.now }
    ensures { OnOk result (zone_edits.new ≡ fold (take_off (is_in kept.now)) zone_edits.old entries.now) }
{
    for entry in entries {
        take_off(alloc, kept, entry, zone_edits)?;
    }
    Ok(())
}

// Takes the kept SYSMODs out of the entry, and removes it if that leaves it empty.
fn take_off(
    alloc: Global,
    kept: &IdList,
    entry: &Entry,
    zone_edits: &mut ZoneEdits,
) -> Result<(), AllocError>
    requires { IsTrue (waives_applied entry.now) }
    ensures { OnOk result (zone_edits.new ≡ take_off (is_in kept.now) zone_edits.old entry.now) }
{
    if !loses_kept(kept, entry) {
        return Ok(());
    }
    let less = entry_less(alloc, kept, entry)?;
    if !less.has_content() {
        return zone_edits.remove_entry(entry.id);
    }
    zone_edits.put_entry(less)
}

// Makes the elements of these types and names those of the distribution zone.
fn put_all_back(
    alloc: Global,
    zone: &Zone,
    accepted: &Zone,
    keys: &[(ElemType, Name)],
    zone_edits: &mut ZoneEdits,
) -> Result<(), AllocError>
    requires { zone_edits.old.elements ≡ [] }
    ensures { OnOk result (ArePutBack zone.now accepted.now keys.now zone_edits.old zone_edits.new) }
{
    for key in keys {
        put_back(alloc, zone, accepted, *key, zone_edits)?;
    }
    Ok(())
}

// Makes the element that of the distribution zone, or removes it if that zone has none. If both zones have the same
// element, this adds no edit.
fn put_back(
    alloc: Global,
    zone: &Zone,
    accepted: &Zone,
    key: (ElemType, Name),
    zone_edits: &mut ZoneEdits,
) -> Result<(), AllocError>
    ensures { OnOk result (PutsBack zone.now accepted.now key zone_edits.old zone_edits.new) }
{
    let wanted = accepted.element(key.0, key.1);
    if are_same_elements(zone.element(key.0, key.1), wanted) {
        return Ok(());
    }
    match wanted {
        Some(element) => zone_edits.put_element(element.try_clone(alloc)?),
        None => zone_edits.remove_element(key.0, key.1),
    }
}
