//! Which applied SYSMODs need what another one supplies.
ghost use Rattle.std.specs.Prelude.{◌≡◌, ◌++◌, [], ◌∷◌, filter, map, IfOk, OnOk};
ghost use Rattle.std.specs.List.{flat_map, list_all};
ghost use Rattle.std.specs.Str.{bytes_eq};
ghost use Rattle.terms.specs.Types.{Global as AGlobal, Zone as AZone};
ghost use Rattle.terms.specs.Lookups.{at_most_one, is_applied, applied_ids};
ghost use Rattle.terms.specs.Choice.{fmid_of};
ghost use Rattle.sysmods.specs.Choices.{choice};
ghost use Rattle.undo.specs.Dependences.{suppliers};
ghost use Rattle.undo.specs.Scopes.{restoring};
ghost use Rattle.report.specs.FactViews.{fact_view};
ghost use Rattle.why_facts.specs.Needed.{sole, soles, needed_pairs, needing, AllNeeded, AreNeeded};

use fields::{Id, IdList};
use report::Fact;
use std::alloc::{AllocError, Global};
use sysmods::VerChoice;
use undo::suppliers;
use zones::{Zone, binding_requisites};

// Whether the group of `first` and the `rest` has only one member, which it may name several times.
fn is_only_member(first: Id, rest: &[Id]) -> bool
    ensures { result ≡ list_all (bytes_eq first) rest.now }
{
    rest.iter().all(|id| first == *id)
}

// Adds the member of the group, if it has only one.
fn push_only_member(group: &[Id], found: &mut Vec<Id>) -> Result<(), AllocError>
    ensures { OnOk result (found.new.items ≡ found.old.items ++ sole group.now) }
{
    let Some((first, rest)) = group.split_first() else {
        return Ok(());
    };
    if is_only_member(*first, rest) {
        found.push(*first)?;
    }
    Ok(())
}

// Adds the SYSMOD that supplies the requisite, if only one does.
fn push_only_supplier(
    alloc: Global,
    zone: &Zone,
    requisite: Id,
    found: &mut Vec<Id>,
) -> Result<(), AllocError>
    ensures { OnOk result (found.new.items ≡ found.old.items ++ sole (suppliers zone.now requisite)) }
{
    let group = suppliers(alloc, zone, requisite)?;
    push_only_member(group.as_slice(), found)
}

// For each of these requisites, adds the SYSMOD that supplies it, if only one does.
fn push_only_suppliers(
    alloc: Global,
    zone: &Zone,
    requisites: &[Id],
    found: &mut Vec<Id>,
) -> Result<(), AllocError>
    ensures { OnOk result (found.new.items
        ≡ found.old.items ++ flat_map (λ z. sole (suppliers zone.now z)) requisites.now) }
{
    for requisite in requisites {
        push_only_supplier(alloc, zone, *requisite, found)?;
    }
    Ok(())
}

// Adds the function, if there is one and it is applied.
fn push_applied_function(
    alloc: Global,
    zone: &Zone,
    function: Option<Id>,
    found: &mut Vec<Id>,
) -> Result<(), AllocError>
    ensures { OnOk result (found.new.items ≡ found.old.items
        ++ flat_map (λ f. sole (filter (is_applied zone.now) (f ∷ []))) (at_most_one function)) }
{
    match function {
        Some(function) => {
            let group = zone.applied_among(alloc, &[function])?;
            push_only_member(group.as_slice(), found)
        }
        None => Ok(()),
    }
}

// The SYSMODs that are the only supplier of something that the applied SYSMOD `by` needs.
fn only_suppliers(
    alloc: Global,
    vers: &VerChoice<'_>,
    zone: &Zone,
    by: Id,
) -> Result<Vec<Id>, AllocError>
    ensures { IfOk result (λ found. found.items ≡ soles (restoring vers.now zone.now zone.now) by) }
{
    let requisites = binding_requisites(alloc, vers, zone, by)?;
    let mut found = Vec::new(alloc);
    push_only_suppliers(alloc, zone, requisites.as_slice(), &mut found)?;
    push_applied_function(alloc, zone, vers.fmid(by), &mut found)?;
    Ok(found)
}

/// A pair `(id, by)` for each SYSMOD `id` that is the only supplier of something that the applied SYSMOD `by` needs.
/// The `++VER`s are those that count without candidates.
pub(crate) fn needed_pairs(
    alloc: Global,
    vers: &VerChoice<'_>,
    zone: &Zone,
    applied: &[Id],
) -> Result<Vec<(Id, Id)>, AllocError>
    requires { applied.now ≡ applied_ids zone.now }
    ensures { IfOk result (λ pairs. pairs.items ≡ needed_pairs (restoring vers.now zone.now zone.now)) }
{
    let mut pairs = Vec::new(alloc);
    for by in applied {
        let ids = only_suppliers(alloc, vers, zone, *by)?;
        for id in ids.as_slice() {
            pairs.push((*id, *by))?;
        }
    }
    Ok(pairs)
}

// Takes a pair `(supplier, by)` of `needed_pairs`. Adds `by`, if the supplier is this id and `by` is another SYSMOD.
fn push_needing(pair: &(Id, Id), id: Id, found: &mut Vec<Id>) -> Result<(), AllocError>
    ensures { OnOk result (found.new.items ≡ found.old.items ++ needing id pair.now) }
{
    let (supplier, by) = *pair;
    if supplier == id && by != id {
        found.push(by)?;
    }
    Ok(())
}

/// The applied SYSMODs that need what the id supplies, as a RESTORE of it alone finds them. The pairs are those of
/// `needed_pairs`.
pub(crate) fn needed_facts(
    alloc: Global,
    pairs: &[(Id, Id)],
    id: Id,
) -> Result<Vec<Fact<'static>>, AllocError>
    ensures { IfOk result (λ facts. (g : AGlobal) (zone : AZone) → AllNeeded g zone pairs.now
        → AreNeeded g zone id (map fact_view facts.items)) }
{
    let mut found = Vec::new(alloc);
    for pair in pairs {
        push_needing(pair, id, &mut found)?;
    }
    let needing = IdList::from_vec(found);
    let mut facts = Vec::new(alloc);
    for by in needing.as_slice() {
        facts.push(Fact::Needed(*by))?;
    }
    Ok(facts)
}
