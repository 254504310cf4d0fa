//! Which candidates clash with another one, by an element that they share or by NPRE.
ghost use Rattle.std.specs.Prelude.{◌≡◌, ◌↔◌, ◌<◌, ℕ, Some, length, OnOk, IfOk};
ghost use Rattle.sysmods.specs.Choices.{choice};
ghost use Rattle.judge_faults.specs.Claims.{PassesAt};
ghost use Rattle.judge_faults.specs.Forbidding.{AreCandidates, IsOfNamed, IsByNpre, AreClashing};
ghost use Rattle.judge_faults.specs.Sharing.{Marks};

use crate::own::OwnFaults;
use crate::sharing::element_clash_places;
use fields::Id;
use indexmap::IndexSet;
use judge_system::item_at;
use std::alloc::{AllocError, Global};
use sysmods::{Overs, VerChoice};

// The place of the id among the candidates, if it is a candidate and passes the tests of its own.
fn passing_place(ids: &[Id], faults: &[OwnFaults], id: Id) -> Option<usize>
    requires { AreCandidates ids.now faults.now }
    ensures { (n : ℕ) → (result ≡ Some n) ↔ PassesAt ids.now faults.now n id }
{
    let Ok(place) = ids.binary_search(&id) else {
        return None;
    };
    if !item_at(faults, place).passes() {
        return None;
    }
    Some(place)
}

// Marks the candidate `id`, which is at the place and names `named` in NPRE, together with `named`, if that is another
// candidate and passes the tests of its own.
fn mark_npre_pair(
    ids: &[Id],
    faults: &[OwnFaults],
    place: usize,
    id: Id,
    named: Id,
    marked: &mut IndexSet<usize>,
) -> Result<(), AllocError>
    requires { AreCandidates ids.now faults.now }
    ensures { OnOk result (Marks (IsOfNamed ids.now faults.now place id named) marked.old.keys marked.new.keys) }
{
    if id == named {
        return Ok(());
    }
    let Some(other) = passing_place(ids, faults, named) else {
        return Ok(());
    };
    marked.insert(place)?;
    marked.insert(other)?;
    Ok(())
}

// If the candidate at the place passes the tests of its own, marks it together with each other one that it names in
// NPRE and that passes them too.
fn mark_by_npre(
    vers: &VerChoice<'_>,
    ids: &[Id],
    faults: &[OwnFaults],
    place: usize,
    marked: &mut IndexSet<usize>,
) -> Result<(), AllocError>
    requires are { AreCandidates ids.now faults.now }
    requires below { place < length ids.now }
    ensures { OnOk result (Marks (IsByNpre (choice vers.now) ids.now faults.now place) marked.old.keys
        marked.new.keys) }
{
    if !item_at(faults, place).passes() {
        return Ok(());
    }
    let id = ids[place];
    let named = vers.npre(id);
    for other in named {
        mark_npre_pair(ids, faults, place, id, *other, marked)?;
    }
    Ok(())
}

/// The places of the candidates that pass the tests of their own and clash with another such one.
pub(crate) fn clashing_places(
    alloc: Global,
    overs: &mut Overs<'_, '_>,
    ids: &[Id],
    faults: &[OwnFaults],
) -> Result<IndexSet<usize>, AllocError>
    requires { AreCandidates ids.now faults.now }
    ensures clashing { IfOk result (λ places. AreClashing overs.old.global.now (choice overs.old) ids.now faults.now
        places.keys) }
    ensures same { overs.new ≡ overs.old }
{
    let mut marked = element_clash_places(alloc, overs, ids, faults)?;
    let vers = overs.vers();
    for i in 0..ids.len() {
        mark_by_npre(vers, ids, faults, i, &mut marked)?;
    }
    Ok(marked)
}
