//! Which SYSMODs change which element.
ghost use Rattle.std.specs.Prelude.{◌≡◌, IsFalse, IfOk, filter, not};
ghost use Rattle.std.specs.List.{list_any};
ghost use Rattle.terms.specs.Lookups.{changes_of, is_in};
ghost use Rattle.undo.specs.Elements.{sharers, is_changed_by};
ghost use Rattle.undo.specs.Needed.{HaveElem};
ghost use Rattle.undo.specs.Scopes.{restoring_of};
ghost use Rattle.undo.specs.Whole.{HasChangers};

use crate::scope::{RestoreScope, unaccepted_among};
use fields::{Id, IdList, Name};
use sorted::multi_map::{MultiMap, listed};
use std::alloc::{AllocError, Global};
use sysmods::GlobalZone;
use sysmods_values::ElemChange;
use terms::ElemType;
use zones::changers_by_element;

/// For each element those of some SYSMODs that change it.
type Changers = MultiMap<(ElemType, Name), Id>;

// The listed SYSMODs that change an element that this one changes too. One is repeated for each shared element.
fn sharers_of(
    alloc: Global,
    global: &GlobalZone,
    changers: &Changers,
    id: Id,
) -> Result<Vec<Id>, AllocError>
    ensures { IfOk result (λ ids. ids.items ≡ sharers global.now changers.now id) }
{
    global
        .changes_of(id)
        .iter()
        .flat_map(|change| listed(changers, (change.elem_type, change.name)).iter())
        .copied()
        .collect(alloc)
}

/// Pairs of a candidate and an applied, unaccepted SYSMOD that changes an element of it. The two may be the same.
pub(crate) fn element_pairs(
    alloc: Global,
    scope: &RestoreScope<'_, '_>,
    candidates: &IdList,
) -> Result<Vec<(Id, Id)>, AllocError>
    ensures { IfOk result (λ pairs. HaveElem (restoring_of scope.now) candidates.now pairs.items) }
{
    let global = scope.vers.global();
    let others = unaccepted_among(alloc, scope.accepted, scope.applied)?;
    let changers = changers_by_element(alloc, global, others.as_slice())?;
    let mut pairs = Vec::new(alloc);
    for id in candidates.as_slice() {
        let sharers = sharers_of(alloc, global, &changers, *id)?;
        for sharer in sharers.as_slice() {
            pairs.push((*id, *sharer))?;
        }
    }
    Ok(pairs)
}

// Whether one of the listed SYSMODs changes the element of the statement.
fn is_changed_by(changers: &Changers, change: &ElemChange) -> bool
    ensures { result ≡ is_changed_by changers.now change.now }
{
    !listed(changers, (change.elem_type, change.name)).is_empty()
}

// Whether one of the listed SYSMODs changes an element that this one changes.
fn has_sharer(global: &GlobalZone, changers: &Changers, id: Id) -> bool
    ensures { result ≡ list_any (is_changed_by changers.now) (changes_of global.now id) }
{
    global
        .changes_of(id)
        .iter()
        .any(|change| is_changed_by(changers, change))
}

// Whether one of the listed SYSMODs changes an element that one of these changes.
fn any_has_sharer(global: &GlobalZone, changers: &Changers, ids: &[Id]) -> bool
    ensures { result ≡ list_any (λ x. list_any (is_changed_by changers.now) (changes_of global.now x)) ids.now }
{
    ids.iter().any(|id| has_sharer(global, changers, *id))
}

// The ids among these that are not in the list.
fn ids_outside(alloc: Global, list: &IdList, ids: &[Id]) -> Result<Vec<Id>, AllocError>
    ensures { IfOk result (λ found. found.items ≡ filter (λ y. not (is_in list.now y)) ids.now) }
{
    ids.iter()
        .filter(|id| !list.contains(**id))
        .copied()
        .collect(alloc)
}

/// Whether an applied, unaccepted SYSMOD that is no candidate changes an element of a candidate.
pub(crate) fn is_changed_outside(
    alloc: Global,
    scope: &RestoreScope<'_, '_>,
    candidates: &IdList,
) -> Result<bool, AllocError>
    ensures { IfOk result (λ outside. IsFalse outside → HasChangers (restoring_of scope.now) candidates.now) }
{
    let global = scope.vers.global();
    let unaccepted = unaccepted_among(alloc, scope.accepted, scope.applied)?;
    let others = ids_outside(alloc, candidates, unaccepted.as_slice())?;
    let changers = changers_by_element(alloc, global, others.as_slice())?;
    Ok(any_has_sharer(global, &changers, candidates.as_slice()))
}
