//! ORPHAN: what SYSMODs that stay applied lose by a DELETE.
ghost use Rattle.std.specs.Prelude.{◌≡◌, ◌++◌, ◌&&◌, [], not, is_some, IfOk, OnOk, filter, if◌then◌else◌};
ghost use Rattle.terms.specs.Needs.{orphans};
ghost use Rattle.terms.specs.Tests.{Setting};
ghost use Rattle.sysmods.specs.Choices.{choice};
ghost use Rattle.zones.specs.Gone.{is_gone, loses, binding_of, lost_by};

use crate::binding::binding_ids;
use crate::entry::TakesOut;
use crate::zone_less::ZoneLess;
use fields::Id;
use std::alloc::{AllocError, Global};
use sysmods::VerChoice;
use zones_maps::{Entry, Zone};

/// The requisites of SYSMODs that stay applied, if this SYSMOD's own DELETE takes out the SYSMODs that supply them.
pub fn orphans(
    alloc: Global,
    vers: &VerChoice<'_>,
    zone: &Zone,
    id: Id,
) -> Result<Vec<Id>, AllocError>
    ensures { IfOk result (λ found. (s : Setting) → s.global ≡ vers.now.global.now → s.choice ≡ choice vers.now
        → s.zone ≡ zone.now → found.items ≡ orphans s id) }
{
    let dels = vers.del(id);
    if dels.is_empty() {
        return Ok(Vec::new(alloc));
    }
    all_lost_requisites(alloc, &ZoneLess { vers, dels, zone })
}

// The requisites that the SYSMODs that stay applied lose.
fn all_lost_requisites(alloc: Global, left: &ZoneLess) -> Result<Vec<Id>, AllocError>
    ensures { IfOk result (λ found. found.items ≡ lost_by left.now left.now.zone.now.entries) }
{
    let mut found = Vec::new(alloc);
    for entry in left.zone.entries() {
        push_lost_requisites(alloc, left, entry, &mut found)?;
    }
    Ok(found)
}

// Adds what the entry's SYSMOD loses, if it stays applied.
fn push_lost_requisites(
    alloc: Global,
    left: &ZoneLess,
    entry: &Entry,
    found: &mut Vec<Id>,
) -> Result<(), AllocError>
    ensures { OnOk result (found.new.items ≡ found.old.items
        ++ (if is_some entry.now.applied && not (is_gone left.now entry.now.id)
        then filter (loses left.now) (binding_of left.now entry.now.id) else [])) }
{
    if entry.applied.is_some() && !left.takes_out(entry.id) {
        let lost = lost_requisites(alloc, left, entry.id)?;
        found.extend_from_slice(lost.as_slice())?;
    }
    Ok(())
}

// The requisites that the SYSMOD loses.
fn lost_requisites(alloc: Global, left: &ZoneLess, id: Id) -> Result<Vec<Id>, AllocError>
    ensures { IfOk result (λ lost. lost.items ≡ filter (loses left.now) (binding_of left.now id)) }
{
    let mut ids = binding_ids(alloc, left, id)?;
    ids.retain(|id| left.loses(*id));
    Ok(ids)
}
