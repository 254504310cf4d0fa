//! The tests that look at the elements that a candidate changes.
ghost use Rattle.std.specs.Prelude.{◌≡◌, ◌↔◌, Any, IsTrue, IfOk};
ghost use Rattle.std.specs.List.{list_any};
ghost use Rattle.terms.specs.Over.{IsOver};
ghost use Rattle.sysmods.specs.Choices.{choice};
ghost use Rattle.zones.specs.Gone.{left_of};
ghost use Rattle.judge_faults.specs.Own.{has_nothing_to_update, is_brought_along, is_owned_by_another};
ghost use Rattle.judge_faults.specs.Own.{IsLower, IsLowerAt};

use fields::{Id, IdList};
use std::alloc::{AllocError, Global};
use sysmods::{GlobalZone, Overs};
use sysmods_values::ElemChange;
use zones::{Element, ZoneLess};

// Whether the view has the element of the statement, and another function owns it there.
fn is_owned_by_another(view: &ZoneLess<'_, '_>, owner: Id, change: &ElemChange) -> bool
    ensures { result ≡ is_owned_by_another (left_of view.now) owner change.now }
{
    match view.element(change.elem_type, change.name) {
        Some(element) => element.fmid != owner,
        None => false,
    }
}

/// Whether the view has an element of these statements that another function owns there.
pub(crate) fn any_owned_by_another(
    view: &ZoneLess<'_, '_>,
    owner: Id,
    changes: &[ElemChange],
) -> bool
    ensures { result ≡ list_any (is_owned_by_another (left_of view.now) owner) changes.now }
{
    changes
        .iter()
        .any(|change| is_owned_by_another(view, owner, change))
}

// Whether one of these SYSMODs is one that the candidate is not over.
fn is_not_over_all(
    alloc: Global,
    overs: &mut Overs<'_, '_>,
    id: Id,
    others: &[Id],
) -> Result<bool, AllocError>
    ensures lower { IfOk result (λ lower. IsTrue lower ↔ Any (λ z. ¬ IsOver (choice overs.old) id z) others.now) }
    ensures same { overs.new ≡ overs.old }
{
    for other in others {
        if !overs.over(alloc, id, *other)? {
            return Ok(true);
        }
    }
    Ok(false)
}

// Whether the candidate would regress the element: it is not over the element's RMID or one of its UMIDs.
fn regresses_element(
    alloc: Global,
    overs: &mut Overs<'_, '_>,
    id: Id,
    element: &Element,
) -> Result<bool, AllocError>
    ensures lower { IfOk result (λ lower. IsTrue lower ↔ IsLower (choice overs.old) id element.now) }
    ensures same { overs.new ≡ overs.old }
{
    if !overs.over(alloc, id, element.rmid)? {
        return Ok(true);
    }
    is_not_over_all(alloc, overs, id, element.umids.as_slice())
}

// Whether the candidate would regress the element of the statement. An element that the view lacks cannot be regressed.
fn regresses_changed_element(
    alloc: Global,
    view: &ZoneLess<'_, '_>,
    overs: &mut Overs<'_, '_>,
    id: Id,
    change: &ElemChange,
) -> Result<bool, AllocError>
    ensures lower { IfOk result (λ lower. IsTrue lower
        ↔ IsLowerAt (choice overs.old) (left_of view.now) id change.now) }
    ensures same { overs.new ≡ overs.old }
{
    match view.element(change.elem_type, change.name) {
        Some(element) => regresses_element(alloc, overs, id, element),
        None => Ok(false),
    }
}

/// Whether the candidate would regress an element of one of these statements.
pub(crate) fn regresses_any_element(
    alloc: Global,
    view: &ZoneLess<'_, '_>,
    overs: &mut Overs<'_, '_>,
    id: Id,
    changes: &[ElemChange],
) -> Result<bool, AllocError>
    ensures lower { IfOk result (λ lower. IsTrue lower
        ↔ Any (IsLowerAt (choice overs.old) (left_of view.now) id) changes.now) }
    ensures same { overs.new ≡ overs.old }
{
    for change in changes {
        if regresses_changed_element(alloc, view, overs, id, change)? {
            return Ok(true);
        }
    }
    Ok(false)
}

// Whether the function `fmid` is a candidate and has a replacement of the element.
fn is_brought_along(
    global: &GlobalZone,
    ids: &IdList,
    fmid: Option<Id>,
    change: &ElemChange,
) -> bool
    ensures { result ≡ is_brought_along global.now ids.now fmid change.now }
{
    match fmid {
        Some(fmid) => {
            ids.contains(fmid) && global.has_replacement(fmid, change.elem_type, change.name)
        }
        None => false,
    }
}

// Whether the statement is an update of an element that the view lacks and that the function does not bring along.
fn has_nothing_to_update(
    global: &GlobalZone,
    view: &ZoneLess<'_, '_>,
    ids: &IdList,
    fmid: Option<Id>,
    change: &ElemChange,
) -> bool
    ensures { result ≡ has_nothing_to_update global.now (left_of view.now) ids.now fmid change.now }
{
    !change.is_replacement()
        && view.element(change.elem_type, change.name).is_none()
        && !is_brought_along(global, ids, fmid, change)
}

/// Whether one of these statements is an update of an element that the view lacks and that the function does not bring
/// along.
pub(crate) fn any_has_nothing_to_update(
    global: &GlobalZone,
    view: &ZoneLess<'_, '_>,
    ids: &IdList,
    fmid: Option<Id>,
    changes: &[ElemChange],
) -> bool
    ensures { result ≡ list_any (has_nothing_to_update global.now (left_of view.now) ids.now fmid) changes.now }
{
    changes.iter().any(|change| has_nothing_to_update(global, view, ids, fmid, change))
}
