//! What the SYSMODs that change one element make of it, one after the other in the order of over.
ghost use Rattle.std.specs.Prelude.{◌≡◌, ◌<◌, ◌+◌, ◌⊎◌, All, AllPairs, Any, IsTrue, IsFalse, IsSome, IfOk, IfSome};
ghost use Rattle.std.specs.Prelude.{IfNone, Some, drop, length, option_copied};
ghost use Rattle.sysmods.specs.Choices.{choice};
ghost use Rattle.terms.specs.Changes.{has_replacement};
ghost use Rattle.terms.specs.Install.{Installation, HasElementAfter};
ghost use Rattle.terms.specs.Lookups.{IsRising, change_of, has_change};
ghost use Rattle.terms.specs.Over.{IsOver};
ghost use Rattle.terms.specs.Texts.{IsNumbered};
ghost use Rattle.change.specs.Folding.{AreChangers, IsFolded, IsMadeBy, IsUpdateOf};

use fields::{Attest, Id, IdList, Name};
use sorted::TryClone;
use std::alloc::{AllocError, Global};
use sysmods::{GlobalZone, VerChoice};
use sysmods_values::{Action, ElemChange};
use terms::ElemType;
use text80::{Numbered, Update, merge};
use zones::Element;

/// The element after all these SYSMODs, which change it and each of which is over the earlier ones. The zone has it
/// already, as `base`, or one of them replaces it. What happens before the last replacement does not matter.
pub(crate) fn element_after(
    alloc: Global,
    vers: &VerChoice<'_>,
    base: Option<&Element>,
    elem_type: ElemType,
    name: Name,
    changers: &[Id],
) -> Result<Element, AllocError>
    requires base { IfSome (option_copied base) (λ e. (e.elem_type ≡ elem_type) × (e.name ≡ name)) }
    requires changers { All (λ x. IsTrue (has_change vers.now.global.now x elem_type name)) changers.now }
    requires order { AllPairs (λ x y. IsOver (choice vers.now) y x) changers.now }
    requires some { IsSome (option_copied base)
        ⊎ Any (λ x. IsTrue (has_replacement vers.now.global.now x elem_type name)) changers.now }
    ensures key { IfOk result (λ e. (e.elem_type ≡ elem_type) × (e.name ≡ name)) }
    ensures element { IfOk result (λ e. (i : Installation)
        → AreChangers i vers.now.global.now (choice vers.now) elem_type name (option_copied base.entry) changers.now
        → HasElementAfter i elem_type name e) }
{
    vers.global().attest();
    match last_replacement(vers.global(), elem_type, name, changers) {
        Some(place) => fold_changes(alloc, vers, None, elem_type, name, &changers[place..]),
        None => {
            let base = base.unwrap();
            base.umids.attest();
            let copy = base.try_clone(alloc)?;
            fold_changes(alloc, vers, Some(copy), elem_type, name, changers)
        }
    }
}

// The place of the last of these SYSMODs that replaces the element.
fn last_replacement(
    global: &GlobalZone,
    elem_type: ElemType,
    name: Name,
    changers: &[Id],
) -> Option<usize>
    ensures within { IfSome result (λ place. place < length changers.now) }
    ensures replaces { IfSome result
        (λ place. Any (λ x. IsTrue (has_replacement global.now x elem_type name)) (drop place changers.now)) }
    ensures last { IfSome result
        (λ place. All (λ x. IsFalse (has_replacement global.now x elem_type name)) (drop (place + 1) changers.now)) }
    ensures none { IfNone result (All (λ x. IsFalse (has_replacement global.now x elem_type name)) changers.now) }
{
    let mut place = changers.len();
    while place > 0 {
        if global.has_replacement(changers[place - 1], elem_type, name) {
            return Some(place - 1);
        }
        place -= 1;
    }
    None
}

// What these SYSMODs make of the element with which they start, one after the other. Without such an element one of
// them replaces it.
fn fold_changes(
    alloc: Global,
    vers: &VerChoice<'_>,
    start: Option<Element>,
    elem_type: ElemType,
    name: Name,
    changers: &[Id],
) -> Result<Element, AllocError>
    requires start { IfSome start (λ e. (e.elem_type ≡ elem_type) × (e.name ≡ name)) }
    requires rising { IfSome start (λ e. IsRising e.umids) }
    requires changers { All (λ x. IsTrue (has_change vers.now.global.now x elem_type name)) changers.now }
    requires order { AllPairs (λ x y. IsOver (choice vers.now) y x) changers.now }
    requires some { IsSome start
        ⊎ Any (λ x. IsTrue (has_replacement vers.now.global.now x elem_type name)) changers.now }
    ensures key { IfOk result (λ e. (e.elem_type ≡ elem_type) × (e.name ≡ name)) }
    ensures folded { IfOk result
        (λ e. IsFolded vers.now.global.now (choice vers.now) elem_type name changers.now start (Some e)) }
{
    vers.global().attest();
    let mut element = start;
    for id in changers {
        let change = known_change(vers.global(), *id, elem_type, name);
        element = apply_change(alloc, vers.owner(*id), *id, change, element)?;
    }
    Ok(element.unwrap())
}

// The SYSMOD's statement for the element, which must exist.
fn known_change(global: &GlobalZone, id: Id, elem_type: ElemType, name: Name) -> &ElemChange
    requires { IsTrue (has_change global.now id elem_type name) }
    ensures change { change_of global.now id elem_type name ≡ Some result.now }
    ensures elem_type { result.now.elem_type ≡ elem_type }
    ensures name { result.now.name ≡ name }
{
    global.change_of(id, elem_type, name).unwrap()
}

// The element after the statement of the SYSMOD `id`, which the function `owner` owns. `old` is the element before. If
// there is none, an update makes none.
fn apply_change(
    alloc: Global,
    owner: Id,
    id: Id,
    change: &ElemChange,
    old: Option<Element>,
) -> Result<Option<Element>, AllocError>
    requires { IfSome old (λ e. (e.elem_type ≡ change.now.elem_type) × (e.name ≡ change.now.name)) }
    ensures made { IfOk result
        (λ new. IsMadeBy owner id change.now.elem_type change.now.name change.now.action old new) }
    ensures new { IfOk result (λ new. IfSome new
        (λ e. (e.elem_type ≡ change.now.elem_type) × (e.name ≡ change.now.name))) }
{
    match &change.action {
        Action::Replaces {
            distlib,
            syslib,
            lines,
        } => Ok(Some(Element {
            elem_type: change.elem_type,
            name: change.name,
            fmid: owner,
            rmid: id,
            umids: IdList::new(alloc),
            distlib: *distlib,
            syslib: *syslib,
            text: Vec::from_slice(alloc, lines.as_slice())?,
        })),
        Action::Updates { update } => match old {
            Some(element) => Ok(Some(apply_update(alloc, id, update, element)?)),
            None => Ok(None),
        },
    }
}

// The element after an update by the SYSMOD, which becomes one of the element's UMIDs.
fn apply_update(alloc: Global, id: Id, update: &Update, old: Element) -> Result<Element, AllocError>
    requires { IsNumbered old.text }
    ensures { IfOk result (IsUpdateOf id update.now old) }
{
    let Element {
        elem_type,
        name,
        fmid,
        rmid,
        mut umids,
        distlib,
        syslib,
        text,
    } = old;
    umids.insert(id)?;
    let text = merge(alloc, &Numbered::known(text), update)?.into_lines();
    Ok(Element {
        elem_type,
        name,
        fmid,
        rmid,
        umids,
        distlib,
        syslib,
        text,
    })
}
