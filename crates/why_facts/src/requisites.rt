//! What an id asks for.
ghost use Rattle.std.specs.Prelude.{◌≡◌, ◌++◌, ◌&&◌, None, not, filter, map, IfOk, List, OnOk};
ghost use Rattle.std.specs.List.{flat_map};
ghost use Rattle.std.specs.Str.{bytes_eq};
ghost use Rattle.terms.specs.Beside.{Beside};
ghost use Rattle.terms.specs.Lookups.{is_applied, is_function};
ghost use Rattle.zones.specs.Scopes.{choice_of};
ghost use Rattle.terms.specs.Types.{Id as AnId};
ghost use Rattle.report.specs.Facts.{a_requisite, stated_by, conditions_of, conditions, requisites, IsRequisiteFact};
ghost use Rattle.report.specs.Facts.{AreOrphans};
ghost use Rattle.why_facts.specs.Asking.{setting_in, view_in, is_there};
ghost use Rattle.report.specs.FactViews.{fact_view};

use crate::answers::resolve_requisite;
use crate::asking::Asking;
use fields::{Id, IdList};
use report::{Fact, Requisite};
use std::alloc::{AllocError, Global};
use sysmods_values::IfReq;
use terms::NeedKind;
use zones::orphans;

// Adds a requisite of this kind for each of the ids.
fn push_requisites_of_kind(
    kind: NeedKind,
    by: Id,
    ids: &[Id],
    found: &mut Vec<Requisite>,
) -> Result<(), AllocError>
    ensures { OnOk result (found.new.items ≡ found.old.items ++ map (a_requisite kind by None) ids.now) }
{
    for id in ids {
        found.push(Requisite {
            kind,
            by,
            function: None,
            id: *id,
        })?;
    }
    Ok(())
}

// Adds each requisite of an `++IF` of the SYSMOD `by`, with the function for which it is stated.
fn push_ifreqs(by: Id, condition: &IfReq, found: &mut Vec<Requisite>) -> Result<(), AllocError>
    ensures { OnOk result (found.new.items ≡ found.old.items ++ stated_by by condition.now) }
{
    for id in condition.req.as_slice() {
        found.push(Requisite {
            kind: NeedKind::Ifreq,
            by,
            function: Some(condition.function),
            id: *id,
        })?;
    }
    Ok(())
}

// Adds the requisites of each of the id's own `++IF`s whose function is applied in its view or is a candidate.
fn push_own_ifreqs(
    asking: &Asking<'_, '_>,
    conditions: &[IfReq],
    found: &mut Vec<Requisite>,
) -> Result<(), AllocError>
    ensures { OnOk result (found.new.items ≡ found.old.items ++ flat_map (stated_by asking.now.id)
        (filter (λ i. is_there asking.now i.function) conditions.now)) }
{
    for condition in conditions {
        if asking.has_function(condition.function) {
            push_ifreqs(asking.id, condition, found)?;
        }
    }
    Ok(())
}

// Adds the requisites of each of these `++IF`s of the SYSMOD `by` that is for the function.
fn push_ifreqs_for(
    function: Id,
    by: Id,
    conditions: &[IfReq],
    found: &mut Vec<Requisite>,
) -> Result<(), AllocError>
    ensures { OnOk result (found.new.items ≡ found.old.items ++ flat_map (stated_by by)
        (filter (λ i. bytes_eq function i.function) conditions.now)) }
{
    for condition in conditions {
        if function == condition.function {
            push_ifreqs(by, condition, found)?;
        }
    }
    Ok(())
}

// Whether `by` is applied in the view of the SYSMOD in question, and is another SYSMOD.
fn is_another_applied(asking: &Asking<'_, '_>, by: Id) -> bool
    ensures { result ≡ (is_applied (view_in asking.now) by && not (bytes_eq asking.now.id by)) }
{
    asking.is_applied_in_view(by) && asking.id != by
}

// Adds the requisites that `++IF`s state for the function in question, if the SYSMOD that states them is one of `ids`,
// applied in the function's view, and not the function itself.
fn push_ifreqs_of_others(
    asking: &Asking<'_, '_>,
    ids: &[Id],
    found: &mut Vec<Requisite>,
) -> Result<(), AllocError>
    ensures { OnOk result (found.new.items ≡ found.old.items
        ++ flat_map (conditions_of (choice_of asking.now.scope) (bytes_eq asking.now.id))
        (filter (λ y. is_applied (view_in asking.now) y && not (bytes_eq asking.now.id y)) ids.now)) }
{
    for by in ids {
        if is_another_applied(asking, *by) {
            push_ifreqs_for(asking.id, *by, asking.scope.ifs(*by), found)?;
        }
    }
    Ok(())
}

// Adds the conditional requisites: those of the id's own `++IF`s and, if the id is a function, those that other applied
// SYSMODs state for it.
fn push_all_ifreqs(asking: &Asking<'_, '_>, found: &mut Vec<Requisite>) -> Result<(), AllocError>
    ensures { OnOk result (found.new.items ≡ found.old.items ++ conditions (setting_in asking.now) asking.now.id) }
{
    push_own_ifreqs(asking, asking.scope.ifs(asking.id), found)?;
    if !asking.scope.global().is_function(asking.id) {
        return Ok(());
    }
    push_ifreqs_of_others(asking, asking.applied, found)
}

// All that the id asks for: its FMID, its requisites, and each requisite of another SYSMOD whose last supplier the id's
// DELETE would take out. The reason IDs of ERROR holds are not among them: `hold_facts` has these.
fn requisites(alloc: Global, asking: &Asking<'_, '_>) -> Result<Vec<Requisite>, AllocError>
    ensures { IfOk result (λ found. (lost : List AnId) × AreOrphans (setting_in asking.now) asking.now.id lost
        × (found.items ≡ requisites (setting_in asking.now) asking.now.id lost)) }
{
    let scope = &asking.scope;
    let id = asking.id;
    let fmid = scope.fmid(id);
    let mut found = Vec::new(alloc);
    push_requisites_of_kind(NeedKind::Fmid, id, fmid.as_slice(), &mut found)?;
    push_requisites_of_kind(NeedKind::Pre, id, scope.pre(id), &mut found)?;
    push_requisites_of_kind(NeedKind::Req, id, scope.req(id), &mut found)?;
    push_all_ifreqs(asking, &mut found)?;
    let unsorted_orphans = orphans(alloc, scope.vers, scope.zone, id)?;
    let orphans = IdList::from_vec(unsorted_orphans);
    push_requisites_of_kind(NeedKind::Orphan, id, orphans.as_slice(), &mut found)?;
    Ok(found)
}

/// The requisites of the id, and how each is resolved.
pub(crate) fn requisite_facts(
    alloc: Global,
    asking: &Asking<'_, '_>,
) -> Result<Vec<Fact<'static>>, AllocError>
    ensures { IfOk result (λ facts. (lost : List AnId) × AreOrphans (setting_in asking.now) asking.now.id lost
        × Beside (λ n r fact. IsRequisiteFact (setting_in asking.now) asking.now.id r (fact_view fact))
        (requisites (setting_in asking.now) asking.now.id lost) facts.items) }
{
    let found = requisites(alloc, asking)?;
    let mut facts = Vec::new(alloc);
    for requisite in found.as_slice() {
        let resolution = resolve_requisite(alloc, asking, *requisite)?;
        facts.push(Fact::Requisite {
            requisite: *requisite,
            resolution,
        })?;
    }
    Ok(facts)
}
