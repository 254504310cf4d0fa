//! What the DELETEs of the SYSMODs that go on take off.
ghost use Rattle.std.specs.Prelude.{◌≡◌, ◌++◌, ◌∷◌, [], map, filter, is_some, IfOk, OnOk};
ghost use Rattle.std.specs.List.{flat_map};
ghost use Rattle.terms.specs.Lookups.{applied_ids};
ghost use Rattle.sysmods.specs.Choices.{choice};
ghost use Rattle.zones.specs.Gone.{is_gone};
ghost use Rattle.smpe_summary.specs.Todo.{is_usermod, taken_ids, taken_by, taken_off};
ghost use Rattle.smpe_summary.specs.Views.{taken_view};

use crate::values::TakenOff;
use fields::Id;
use std::alloc::{AllocError, Global};
use sysmods::{GlobalZone, VerChoice};
use terms::Kind;
use zones::{Entry, TakesOut, Zone, ZoneLess};

// Appends the id of the entry, if its SYSMOD is applied.
fn push_if_applied(entry: &Entry, found: &mut Vec<Id>) -> Result<(), AllocError>
    ensures { OnOk result (found.new.items
        ≡ found.old.items ++ map (λ e. e.id) (filter (λ e. is_some e.applied) (entry.now ∷ []))) }
{
    if entry.applied.is_some() {
        found.push(entry.id)?;
    }
    Ok(())
}

/// The ids of the SYSMODs that the zone has applied.
pub(crate) fn applied_ids(alloc: Global, zone: &Zone) -> Result<Vec<Id>, AllocError>
    ensures { IfOk result (λ found. found.items ≡ applied_ids zone.now) }
{
    let mut found = Vec::new(alloc);
    for entry in zone.entries() {
        push_if_applied(entry, &mut found)?;
    }
    Ok(found)
}

// Whether the SYSMOD is received and a USERMOD.
fn is_usermod(global: &GlobalZone, id: Id) -> bool
    ensures { result ≡ is_usermod global.now id }
{
    match global.get(id) {
        Some(sysmod) => sysmod.kind == Kind::Usermod,
        None => false,
    }
}

// The USERMODs among these.
fn usermods_among(alloc: Global, global: &GlobalZone, ids: &[Id]) -> Result<Vec<Id>, AllocError>
    ensures { IfOk result (λ found. found.items ≡ filter (is_usermod global.now) ids.now) }
{
    ids.iter()
        .filter(|id| is_usermod(global, **id))
        .copied()
        .collect(alloc)
}

// The ids among these that the deletions of `less` take out of the zone.
fn gone_among(alloc: Global, less: &ZoneLess<'_, '_>, ids: &[Id]) -> Result<Vec<Id>, AllocError>
    ensures { IfOk result (λ gone. gone.items ≡ filter (is_gone less.now) ids.now) }
{
    // Most SYSMODs delete nothing, so they need no loop over all applied ids.
    if less.dels.is_empty() {
        return Ok(Vec::new(alloc));
    }
    ids.iter()
        .filter(|id| less.takes_out(**id))
        .copied()
        .collect(alloc)
}

// The applied ids that the DELETE of the SYSMOD takes out of the zone.
fn taken_ids(
    alloc: Global,
    vers: &VerChoice<'_>,
    zone: &Zone,
    applied: &[Id],
    id: Id,
) -> Result<Vec<Id>, AllocError>
    requires { applied.now ≡ applied_ids zone.now }
    ensures { IfOk result (λ taken. taken.items
        ≡ taken_ids vers.now.global.now (choice vers.now) zone.now id) }
{
    let dels = vers.del(id);
    let less = ZoneLess { vers, dels, zone };
    gone_among(alloc, &less, applied)
}

// Appends what the DELETE of the SYSMOD takes off, if it takes off anything.
fn push_taken(
    alloc: Global,
    global: &GlobalZone,
    by: Id,
    ids: Vec<Id>,
    found: &mut Vec<TakenOff>,
) -> Result<(), AllocError>
    ensures { OnOk result (map taken_view found.new.items
        ≡ map taken_view found.old.items ++ taken_by global.now by ids.items) }
{
    if ids.is_empty() {
        return Ok(());
    }
    let usermods = usermods_among(alloc, global, ids.as_slice())?;
    found.push(TakenOff { by, ids, usermods })?;
    Ok(())
}

/// What the DELETEs of these SYSMODs take off the zone, in which these ids are applied.
pub(crate) fn taken_off(
    alloc: Global,
    vers: &VerChoice<'_>,
    zone: &Zone,
    applied: &[Id],
    ids: &[Id],
) -> Result<Vec<TakenOff>, AllocError>
    requires { applied.now ≡ applied_ids zone.now }
    ensures { IfOk result (λ found. map taken_view found.items
        ≡ taken_off vers.now.global.now (choice vers.now) zone.now ids.now) }
{
    let mut found = Vec::new(alloc);
    for id in ids {
        let taken = taken_ids(alloc, vers, zone, applied, *id)?;
        push_taken(alloc, vers.global(), *id, taken, &mut found)?;
    }
    Ok(found)
}
