//! What applied SYSMODs state for functions in their `++IF`s.
ghost use Rattle.std.specs.Prelude.{◌≡◌, [], map, filter, OnOk, IfOk, if◌then◌else◌};
ghost use Rattle.std.specs.List.{flat_map};
ghost use Rattle.std.specs.Str.{bytes_eq};
ghost use Rattle.terms.specs.Lookups.{IsZone};
ghost use Rattle.judge_needs.specs.Conditions.{AddsMore, AreStated, a_requisite};
ghost use Rattle.zones.specs.Scopes.{choice_of};

use fields::Id;
use sorted::multi_map::{MultiMap, add};
use std::alloc::{AllocError, Global};
use std::collections::BTreeMap;
use sysmods_values::IfReq;
use zones::Scope;

/// A requisite, and the applied SYSMOD that states it.
#[derive(Clone, Copy)]
pub(crate) struct StatedRequisite {
    pub(crate) by: Id,
    pub(crate) id: Id,
}

/// For each function, the requisites that are stated for it.
pub(crate) type Stated = MultiMap<Id, StatedRequisite>;

// Adds these requisites, which the SYSMOD `by` states for the function.
fn add_requisites(
    alloc: Global,
    stated: &mut Stated,
    by: Id,
    function: Id,
    ids: &[Id],
) -> Result<(), AllocError>
    ensures { OnOk result (AddsMore stated.old stated.new
        (λ f. if bytes_eq f function then map (a_requisite by) ids.now else [])) }
{
    for id in ids {
        add(alloc, stated, function, StatedRequisite { by, id: *id })?;
    }
    Ok(())
}

// Adds the requisites of these `++IF`s, which the SYSMOD `by` states.
fn add_conditions(
    alloc: Global,
    stated: &mut Stated,
    by: Id,
    conditions: &[IfReq],
) -> Result<(), AllocError>
    ensures { OnOk result (AddsMore stated.old stated.new (λ f. map (a_requisite by) (flat_map (λ i. i.req)
        (filter (λ i. bytes_eq f i.function) conditions.now)))) }
{
    for condition in conditions {
        add_requisites(
            alloc,
            stated,
            by,
            condition.function,
            condition.req.as_slice(),
        )?;
    }
    Ok(())
}

/// The requisites that all applied SYSMODs state, by the functions for which they state them.
pub(crate) fn all_stated_requisites(
    alloc: Global,
    scope: &Scope<'_, '_>,
) -> Result<Stated, AllocError>
    ensures form { IsZone scope.now.zone.now }
    ensures stated { IfOk result (AreStated (choice_of scope.now) scope.now.zone.now) }
{
    let mut stated = BTreeMap::new(alloc);
    for entry in scope.zone.entries() {
        if entry.applied.is_none() {
            continue;
        }
        add_conditions(alloc, &mut stated, entry.id, scope.ifs(entry.id))?;
    }
    Ok(stated)
}
