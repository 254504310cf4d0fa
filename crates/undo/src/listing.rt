//! The list of a RESTORE.
ghost use Rattle.std.specs.Prelude.{◌↔◌, Contains, IfOk};
ghost use Rattle.terms.specs.Types.{RestoreGroup, Id as AnId};
ghost use Rattle.terms.specs.Restore.{IsListed};
ghost use Rattle.fields.specs.Choices.{restore_list_of};
ghost use Rattle.undo.specs.Scopes.{restoring_from};

use crate::numbered::reached_ids;
use crate::scope::{RestoreScope, applied_ids};
use crate::steps::all_steps;
use fields::{IdList, RestoreList};
use std::alloc::{AllocError, Global};
use sysmods::GlobalZone;
use zones::{Zone, counting_vers};

/// SELECT's ids, or GROUP's ids with all that a RESTORE of them needs, and all that those need.
pub(crate) fn restore_list(
    alloc: Global,
    global: &GlobalZone,
    zone: &Zone,
    accepted: &Zone,
    list: &RestoreList,
) -> Result<IdList, AllocError>
    ensures { IfOk result (λ ids. (x : AnId) → Contains ids x
        ↔ IsListed (restoring_from global.now zone.now accepted.now) (restore_list_of list.now) x) }
{
    match list {
        RestoreList::Select(ids) => ids.try_clone(alloc),
        RestoreList::Group(ids) => group_list(alloc, global, zone, accepted, ids),
    }
}

// GROUP's ids with all that a RESTORE of them needs, and all that those need.
fn group_list(
    alloc: Global,
    global: &GlobalZone,
    zone: &Zone,
    accepted: &Zone,
    ids: &IdList,
) -> Result<IdList, AllocError>
    ensures { IfOk result (λ found. (x : AnId) → Contains found x
        ↔ IsListed (restoring_from global.now zone.now accepted.now) (RestoreGroup ids.now) x) }
{
    let none = IdList::new(alloc);
    let vers = counting_vers(alloc, global, zone, &none)?;
    let applied = applied_ids(alloc, zone)?;
    let scope = RestoreScope {
        vers: &vers,
        zone,
        accepted,
        applied: applied.as_slice(),
    };
    let steps = all_steps(alloc, &scope)?;
    reached_ids(alloc, ids, steps.as_slice())
}
