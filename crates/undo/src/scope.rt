//! What RESTORE looks at.
ghost use Rattle.std.specs.Prelude.{◌≡◌, ◌++◌, [], ◌∷◌, not, filter, map, is_some, IfOk, OnOk};
ghost use Rattle.terms.specs.Lookups.{IsZone, is_supplied, applied_ids};

use fields::Id;
use std::alloc::{AllocError, Global};
use sysmods::VerChoice;
use zones::{Entry, Zone};

/// The zones of a RESTORE, and what is looked up once for all that it decides.
#[derive(Clone, Copy)]
pub(crate) struct RestoreScope<'a, 'b> {
    /// The `++VER`s that count.
    pub(crate) vers: &'a VerChoice<'b>,
    /// The target zone.
    pub(crate) zone: &'a Zone,
    /// The distribution zone of the target zone.
    pub(crate) accepted: &'a Zone,
    /// The ids that are applied in the target zone, as `applied_ids` finds them.
    pub(crate) applied: &'a [Id],
    pub(crate) ghost has_applied: { applied.now ≡ applied_ids zone.now },
    pub(crate) ghost form: { IsZone zone.now },
}

// Adds the id of the entry, if it is applied.
fn push_id_if_applied(entry: &Entry, found: &mut Vec<Id>) -> Result<(), AllocError>
    ensures { OnOk result (found.new.items ≡ found.old.items
        ++ map (λ e. e.id) (filter (λ e. is_some e.applied) (entry.now ∷ []))) }
{
    if entry.applied.is_some() {
        found.push(entry.id)?;
    }
    Ok(())
}

/// The ids of the SYSMODs that the zone has applied.
pub fn applied_ids(alloc: Global, zone: &Zone) -> Result<Vec<Id>, AllocError>
    ensures ids { IfOk result (λ found. found.items ≡ applied_ids zone.now) }
    ensures form { IsZone zone.now }
{
    let mut found = Vec::new(alloc);
    for entry in zone.entries() {
        push_id_if_applied(entry, &mut found)?;
    }
    Ok(found)
}

/// The ids among these that the distribution zone does not supply.
pub(crate) fn unaccepted_among(
    alloc: Global,
    accepted: &Zone,
    ids: &[Id],
) -> Result<Vec<Id>, AllocError>
    ensures { IfOk result (λ found. found.items ≡ filter (λ y. not (is_supplied accepted.now y)) ids.now) }
{
    ids.iter()
        .filter(|id| !accepted.supplies(**id))
        .copied()
        .collect(alloc)
}
