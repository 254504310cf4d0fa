//! The candidates of a RESTORE.
ghost use Rattle.std.specs.Prelude.{◌≡◌, not, filter, map, IfOk};
ghost use Rattle.terms.specs.declared.not_chosen.NotChosen.TheVariants.{NotApplied};
ghost use Rattle.terms.specs.Lookups.{is_applied};
ghost use Rattle.fields.specs.Choices.{restore_list_of};
ghost use Rattle.undo.specs.Candidates.{HasCandidates};
ghost use Rattle.undo.specs.Scopes.{restoring_from};

use crate::listing::restore_list;
use fields::{Id, IdList, RestoreList};
use std::alloc::{AllocError, Global};
use sysmods::GlobalZone;
use terms::NotChosen;
use zones::{Candidates, Zone};

/// The SYSMODs that a RESTORE of this target zone may take off, and those of its list that are not applied there. With
/// GROUP the list includes all that a RESTORE of the named ones needs.
pub fn restore_candidates(
    alloc: Global,
    global: &GlobalZone,
    zone: &Zone,
    accepted: &Zone,
    list: &RestoreList,
) -> Result<Candidates, AllocError>
    ensures { IfOk result
        (HasCandidates (restoring_from global.now zone.now accepted.now) (restore_list_of list.now)) }
{
    let listed = restore_list(alloc, global, zone, accepted, list)?;
    let all = listed.as_slice();
    let ids = IdList::from_vec(zone.applied_among(alloc, all)?);
    Ok(Candidates {
        ids,
        left_out: ids_not_applied(alloc, zone, all)?,
    })
}

// The ids that the zone has not applied, each with NOTAPPLIED as the reason.
fn ids_not_applied(
    alloc: Global,
    zone: &Zone,
    ids: &[Id],
) -> Result<Vec<(Id, NotChosen)>, AllocError>
    ensures { IfOk result (λ left. left.items
        ≡ map (λ x. (x, NotApplied)) (filter (λ x. not (is_applied zone.now x)) ids.now)) }
{
    ids.iter()
        .filter(|id| !zone.is_applied(**id))
        .map(|id| (*id, NotChosen::NotApplied))
        .collect(alloc)
}
