//! What GROUP and GROUPEXTEND ask for besides the start. The search goes once through the ids that are asked for, open
//! or not, and each brings others. A requisite can have several premises: that one SYSMOD grows, that the FMID of the
//! `++VER` is a candidate, and that the function of the `++IF` is one. It is asked for when the last of them is met:
//! once a function is a candidate, those that grow and name it are asked again by the `++VER`s that name it.
ghost use Rattle.std.specs.Prelude.{◌≡◌, ◌↔◌, [], Contains, IsTrue, IfOk, OnOk};
ghost use Rattle.std.specs.List.{flat_map};
ghost use Rattle.terms.specs.Types.{Id as AnId};
ghost use Rattle.sysmods.specs.Seen.{AddsAll};
ghost use Rattle.select.specs.Scopes.{is_start_in};
ghost use Rattle.select.specs.Growing.{AreAsked, asked_first, next_asked};

use crate::asked::Asked;
use crate::scope::Selecting;
use crate::start::brings_others;
use fields::{Attest, Id};
use indexmap::IndexSet;
use std::alloc::{AllocError, Global};

// Inserts the ids that have not been seen, in their order.
fn insert_all(ids: &[Id], seen: &mut IndexSet<Id>) -> Result<(), AllocError>
    ensures { OnOk result (AddsAll seen.old.keys ids.now seen.new.keys) }
{
    for id in ids {
        seen.insert(*id)?;
    }
    Ok(())
}

// Inserts what the search asks for after the id.
fn insert_next_asked(
    alloc: Global,
    scope: &Selecting,
    id: Id,
    seen: &mut IndexSet<Id>,
) -> Result<(), AllocError>
    ensures { OnOk result (AddsAll seen.old.keys (next_asked scope.now seen.old.keys id) seen.new.keys) }
{
    let found = Asked { scope, seen }.asked_after(alloc, id)?;
    insert_all(found.as_slice(), seen)?;
    Ok(())
}

// What an id of the start asks for before anything else is asked for, or nothing if it brings no others in.
fn asked_by_start_id(alloc: Global, scope: &Selecting, id: Id) -> Result<Vec<Id>, AllocError>
    ensures { IfOk result (λ found. found.items ≡ asked_first scope.now id) }
{
    if !brings_others(scope.selection, id) {
        return Ok(Vec::new(alloc));
    }
    let seen = &IndexSet::new(alloc);
    Asked { scope, seen }.asked_by_itself(alloc, id)
}

// Inserts what an id of the start asks for.
fn insert_first_asked(
    alloc: Global,
    scope: &Selecting,
    id: Id,
    seen: &mut IndexSet<Id>,
) -> Result<(), AllocError>
    ensures { OnOk result (AddsAll seen.old.keys (asked_first scope.now id) seen.new.keys) }
{
    let found = asked_by_start_id(alloc, scope, id)?;
    insert_all(found.as_slice(), seen)?;
    Ok(())
}

// What those ids of the start that bring others in ask for by themselves.
fn asked_by_start(
    alloc: Global,
    scope: &Selecting,
    start: &[Id],
) -> Result<IndexSet<Id>, AllocError>
    ensures { IfOk result (λ seen. AddsAll [] (flat_map (asked_first scope.now) start.now) seen.keys) }
{
    let mut seen = IndexSet::new(alloc);
    for id in start {
        insert_first_asked(alloc, scope, *id, &mut seen)?;
    }
    Ok(seen)
}

/// The ids that the start asks for, directly or through others, open or not.
pub(crate) fn asked_ids(
    alloc: Global,
    scope: &Selecting,
    start: &[Id],
) -> Result<IndexSet<Id>, AllocError>
    requires { (x : AnId) → Contains start.now x ↔ IsTrue (is_start_in scope.now x) }
    ensures { IfOk result (λ seen. AreAsked scope.now seen.keys) }
{
    scope.zone.attest();
    let mut seen = asked_by_start(alloc, scope, start)?;
    let mut searched = 0;
    while searched < seen.len() {
        let id = seen.as_slice()[searched];
        insert_next_asked(alloc, scope, id, &mut seen)?;
        searched += 1;
    }
    Ok(seen)
}
