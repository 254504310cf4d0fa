//! The rules for elements.
ghost use Rattle.std.specs.Prelude.{◌≡◌, not, find};
ghost use Rattle.std.specs.Str.{bytes_eq};
ghost use Rattle.terms.specs.Over.{owner};
ghost use Rattle.terms.specs.Changes.{has_update};
ghost use Rattle.sysmods.specs.Choices.{choice};
ghost use Rattle.smpe_verify.specs.FirstBreach.{level_fault, change_fault, owner_fault, other_owner_fault};
ghost use Rattle.smpe_verify.specs.FirstBreach.{element_fault};

use crate::breach::{ElementFault, Level};
use crate::entry_rules::first_not_applied;
use fields::{Id, Name};
use sysmods::{GlobalZone, VerChoice};
use terms::ElemType;
use zones::{Element, Zone};

/// The fault of the first rule that the element breaks, or `None`. The rules in order: its FMID, RMID and UMIDs are
/// applied, the RMID replaces the element and the UMIDs update it, and the elements of all of them belong to the
/// function in the FMID.
pub(crate) fn element_fault(
    vers: &VerChoice<'_>,
    zone: &Zone,
    element: &Element,
) -> Option<ElementFault>
    ensures { result ≡ element_fault vers.now.global.now (choice vers.now) zone.now element.now }
{
    if let Some(fault) = level_fault(zone, element) {
        return Some(fault);
    }
    if let Some(fault) = change_fault(vers.global(), element) {
        return Some(fault);
    }
    owner_fault(vers, element)
}

// The fault of the first of the element's FMID, RMID and UMIDs that is not applied; `None` if all are.
fn level_fault(zone: &Zone, element: &Element) -> Option<ElementFault>
    ensures { result ≡ level_fault zone.now element.now }
{
    if let Some(id) = first_not_applied(zone, &[element.fmid]) {
        return Some(ElementFault::LevelNotApplied(Level::Fmid, id));
    }
    if let Some(id) = first_not_applied(zone, &[element.rmid]) {
        return Some(ElementFault::LevelNotApplied(Level::Rmid, id));
    }
    let id = first_not_applied(zone, element.umids.as_slice())?;
    Some(ElementFault::LevelNotApplied(Level::Umid, id))
}

// The fault of the element's RMID if that does not replace the element, or else of its first UMID that does not update
// it; `None` if there is no such fault.
fn change_fault(global: &GlobalZone, element: &Element) -> Option<ElementFault>
    ensures { result ≡ change_fault global.now element.now }
{
    if !global.has_replacement(element.rmid, element.elem_type, element.name) {
        return Some(ElementFault::NotReplacedBy(element.rmid));
    }
    let umids = element.umids.as_slice();
    let id = first_not_updating(global, element.elem_type, element.name, umids)?;
    Some(ElementFault::NotUpdatedBy(id))
}

// The fault of the first of the element's FMID, RMID and UMIDs whose elements belong to another function than the FMID;
// `None` if none does.
fn owner_fault(vers: &VerChoice<'_>, element: &Element) -> Option<ElementFault>
    ensures { result ≡ owner_fault vers.now.global.now (choice vers.now) element.now }
{
    if let Some(fault) = other_owner_fault(vers, element.fmid, Level::Fmid, &[element.fmid]) {
        return Some(fault);
    }
    if let Some(fault) = other_owner_fault(vers, element.fmid, Level::Rmid, &[element.rmid]) {
        return Some(fault);
    }
    other_owner_fault(vers, element.fmid, Level::Umid, element.umids.as_slice())
}

// The fault of the first of these ids whose elements belong to another function than `fmid`, with the level of the ids
// and that owner; `None` if there is no such id.
fn other_owner_fault(
    vers: &VerChoice<'_>,
    fmid: Id,
    level: Level,
    ids: &[Id],
) -> Option<ElementFault>
    ensures { result ≡ other_owner_fault vers.now.global.now (choice vers.now) fmid level ids.now }
{
    let id = first_owned_elsewhere(vers, fmid, ids)?;
    Some(ElementFault::OtherOwner(level, id, vers.owner(id)))
}

// The first of these ids whose elements belong to another function than `fmid`, or `None`.
fn first_owned_elsewhere(vers: &VerChoice<'_>, fmid: Id, ids: &[Id]) -> Option<Id>
    ensures { result
        ≡ find (λ x. not (bytes_eq (owner vers.now.global.now (choice vers.now) x) fmid)) ids.now }
{
    ids.iter().copied().find(|id| vers.owner(*id) != fmid)
}

// The first of these SYSMODs that does not update the element, or `None`.
fn first_not_updating(
    global: &GlobalZone,
    elem_type: ElemType,
    name: Name,
    ids: &[Id],
) -> Option<Id>
    ensures { result ≡ find (λ x. not (has_update global.now x elem_type name)) ids.now }
{
    ids.iter()
        .copied()
        .find(|id| !has_update(global, *id, elem_type, name))
}

// Whether the SYSMOD updates the element.
fn has_update(global: &GlobalZone, id: Id, elem_type: ElemType, name: Name) -> bool
    ensures { result ≡ has_update global.now id elem_type name }
{
    global
        .change_of(id, elem_type, name)
        .is_some_and(|change| !change.is_replacement())
}
