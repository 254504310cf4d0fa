//! How a requisite of a SYSMOD is resolved.
ghost use Rattle.std.specs.Prelude.{◌≡◌, ◌↔◌, ◌||◌, [], ◌∷◌, false, Contains, IfOk};
ghost use Rattle.std.specs.Prelude.{if◌then◌else◌};
ghost use Rattle.terms.specs.Types.{Id as AnId};
ghost use Rattle.terms.specs.Lookups.{IsRising, is_in, is_applied, waived_of};
ghost use Rattle.terms.specs.Candidates.{is_installable};
ghost use Rattle.zones.specs.Scopes.{global_of};
ghost use Rattle.report.specs.Facts.{suppliers, is_waivable, is_waived, MayServe, IsResolution};
ghost use Rattle.why_facts.specs.Asking.{setting_in, left_in};
ghost use Rattle.report.specs.FactViews.{resolution_view};

use crate::asking::Asking;
use fields::{Id, IdList};
use report::{Requisite, Resolution, serving_ids};
use std::alloc::{AllocError, Global};
use terms::NeedKind;
use zones::Zone;

// A list of only the id, if the id remains applied despite the DELETE of the SYSMOD in question; otherwise an empty
// list.
fn id_if_remains_applied(
    alloc: Global,
    asking: &Asking<'_, '_>,
    id: Id,
) -> Result<Vec<Id>, AllocError>
    ensures { IfOk result (λ ids. ids.items ≡ (if is_applied (left_in asking.now) id then id ∷ [] else [])) }
{
    let mut found = Vec::new(alloc);
    if asking.remains_applied(id) {
        found.push(id)?;
    }
    Ok(found)
}

// The SYSMODs that supply the id and that the DELETE of the SYSMOD in question does not take out: the id itself, and
// except for an FMID those that supersede it.
fn suppliers(
    alloc: Global,
    asking: &Asking<'_, '_>,
    kind: NeedKind,
    id: Id,
) -> Result<Vec<Id>, AllocError>
    ensures { IfOk result (λ ids. ids.items ≡ suppliers (left_in asking.now) kind id) }
{
    match kind {
        NeedKind::Fmid => id_if_remains_applied(alloc, asking, id),
        _ => {
            let mut found = id_if_remains_applied(alloc, asking, id)?;
            let superseders = asking.superseders(alloc, id)?;
            found.extend_from_slice(superseders.as_slice())?;
            Ok(found)
        }
    }
}

// Whether the entry of the SYSMOD `by` waives the requisite `id`.
fn waives(zone: &Zone, by: Id, id: Id) -> bool
    ensures { result ≡ is_in (waived_of zone.now by) id }
{
    match zone.entry(by) {
        Some(entry) => entry.waived.contains(id),
        None => false,
    }
}

// Whether requisites of this kind can be waived.
fn is_waivable(kind: NeedKind) -> bool
    ensures { result ≡ is_waivable kind }
{
    matches!(kind, NeedKind::Pre | NeedKind::Req | NeedKind::Ifreq)
}

// Whether the requisite of the id is waived, by the SYSMOD that states the requisite or by the function for which it is
// stated. Only an applied SYSMOD can have a waived requisite.
fn is_waived(zone: &Zone, id: Id, requisite: Requisite) -> bool
    ensures { result ≡ is_waived zone.now id requisite }
{
    if !zone.is_applied(id) || !is_waivable(requisite.kind) {
        return false;
    }
    if waives(zone, requisite.by, requisite.id) {
        return true;
    }
    match requisite.function {
        Some(function) => waives(zone, function, requisite.id),
        None => false,
    }
}

// Whether the id is received with a `++VER` for the zone, and the zone neither supplies it nor has deleted it.
fn is_installable(asking: &Asking<'_, '_>, id: Id) -> bool
    ensures { result ≡ is_installable (global_of asking.now.scope) asking.now.scope.zone.now id }
{
    let scope = &asking.scope;
    scope.vers.has_ver(id) && !scope.zone.supplies(id) && !scope.zone.is_deleted(id)
}

/// The received SYSMODs that may be installed and that would supply the id for this kind of need.
pub(crate) fn installable_suppliers(
    alloc: Global,
    asking: &Asking<'_, '_>,
    kind: NeedKind,
    id: Id,
) -> Result<IdList, AllocError>
    ensures { IfOk result (λ ids. IsRising ids
        × ((y : AnId) → Contains ids y ↔ MayServe (setting_in asking.now) kind id y)) }
{
    let srel = asking.scope.zone.srel();
    let mut found = serving_ids(alloc, asking.scope.vers, srel, kind, id)?;
    found.retain(|by| is_installable(asking, *by));
    Ok(IdList::from_vec(found))
}

/// How the requisite of the id is resolved: SYSMODs supply it, it is waived, the id would serve it itself, or it is
/// open, with the received SYSMODs that would serve it.
pub(crate) fn resolve_requisite(
    alloc: Global,
    asking: &Asking<'_, '_>,
    requisite: Requisite,
) -> Result<Resolution, AllocError>
    ensures { IfOk result (λ a. IsResolution (setting_in asking.now) asking.now.id requisite (resolution_view a)) }
{
    let Requisite { kind, id, .. } = requisite;
    if asking.meets_need(kind, id) {
        return Ok(Resolution::Supplied(suppliers(alloc, asking, kind, id)?));
    }
    if is_waived(asking.scope.zone, asking.id, requisite) {
        return Ok(Resolution::Waived);
    }
    let serving = installable_suppliers(alloc, asking, kind, id)?;
    if serving.contains(asking.id) {
        return Ok(Resolution::ByItself);
    }
    Ok(Resolution::Open(serving))
}
