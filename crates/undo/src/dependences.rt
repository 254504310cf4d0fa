//! What an applied SYSMOD depends on: its function, and for each of its requisites the SYSMODs that supply it.
ghost use Rattle.std.specs.Prelude.{◌≡◌, filter, map, All, IsTrue, IfOk};
ghost use Rattle.std.specs.List.{flat_map, list_all};
ghost use Rattle.terms.specs.Lookups.{is_applied, is_in, supby_of};
ghost use Rattle.undo.specs.Scopes.{restoring_of};
ghost use Rattle.undo.specs.Dependences.{suppliers, dependences_of};
ghost use Rattle.undo.specs.Needed.{HaveDep};

use crate::scope::RestoreScope;
use fields::{Id, IdList};
use std::alloc::{AllocError, Global};
use zones::{Zone, binding_requisites};

// The SYSMODs that supersede the id in the zone.
fn superseders(zone: &Zone, id: Id) -> &[Id]
    ensures { result.now ≡ supby_of zone.now id }
{
    match zone.entry(id) {
        Some(entry) => entry.supby.as_slice(),
        None => &[],
    }
}

/// The applied SYSMODs that supply the id.
pub fn suppliers(alloc: Global, zone: &Zone, id: Id) -> Result<Vec<Id>, AllocError>
    ensures { IfOk result (λ found. found.items ≡ suppliers zone.now id) }
{
    let mut ids = vec![in alloc; id]?;
    ids.extend_from_slice(superseders(zone, id))?;
    zone.applied_among(alloc, ids.as_slice())
}

/// The groups of applied SYSMODs on which the SYSMOD depends: those that supply a requisite of it, for each requisite,
/// and its function. The SYSMOD has to go as soon as all members of one group go, unless the group is empty.
pub(crate) fn dependences_of(
    alloc: Global,
    scope: &RestoreScope<'_, '_>,
    id: Id,
) -> Result<Vec<Vec<Id>>, AllocError>
    ensures { IfOk result (λ groups. map (λ group. group.items) groups.items
        ≡ dependences_of (restoring_of scope.now) id) }
{
    let requisites = binding_requisites(alloc, scope.vers, scope.zone, id)?;
    let mut groups = Vec::new(alloc);
    for requisite in requisites.as_slice() {
        groups.push(suppliers(alloc, scope.zone, *requisite)?)?;
    }
    if let Some(function) = scope.vers.fmid(id) {
        groups.push(scope.zone.applied_among(alloc, &[function])?)?;
    }
    Ok(groups)
}

// Whether the list contains all of the ids.
fn contains_all(list: &IdList, ids: &[Id]) -> bool
    ensures { result ≡ list_all (is_in list.now) ids.now }
{
    ids.iter().all(|id| list.contains(*id))
}

// The members of those groups all of whose members are in the list.
fn members_of_listed_groups(
    alloc: Global,
    list: &IdList,
    groups: &[Vec<Id>],
) -> Result<Vec<Id>, AllocError>
    ensures { IfOk result (λ ids. ids.items
        ≡ flat_map (λ group. group.items) (filter (λ group. list_all (is_in list.now) group.items) groups.now)) }
{
    groups
        .iter()
        .filter(|group| contains_all(list, group.as_slice()))
        .flat_map(|group| group.iter())
        .copied()
        .collect(alloc)
}

/// Pairs of a candidate and an applied SYSMOD that depends on it: all members of one of its groups are candidates, and
/// the candidate is one of them.
pub(crate) fn dependence_pairs(
    alloc: Global,
    scope: &RestoreScope<'_, '_>,
    candidates: &IdList,
) -> Result<Vec<(Id, Id)>, AllocError>
    requires { All (λ x. IsTrue (is_applied scope.now.zone.now x)) candidates.now }
    ensures { IfOk result (λ pairs. HaveDep (restoring_of scope.now) candidates.now pairs.items) }
{
    let mut pairs = Vec::new(alloc);
    for dependent in scope.applied {
        let groups = dependences_of(alloc, scope, *dependent)?;
        let ids = members_of_listed_groups(alloc, candidates, groups.as_slice())?;
        for id in ids.as_slice() {
            pairs.push((*id, *dependent))?;
        }
    }
    Ok(pairs)
}
