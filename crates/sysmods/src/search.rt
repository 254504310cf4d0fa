//! Searches in a graph of ids.
ghost use Rattle.std.specs.Prelude.{◌≡◌, ◌++◌, ◌↔◌, ◌<◌, ◌||◌, length, List, ℕ, OnOk, IfOk, IsSomeAnd, Contains};
ghost use Rattle.std.specs.Prelude.{IsTrue};
ghost use Rattle.terms.specs.Lookups.{is_in};
ghost use Rattle.terms.specs.Over.{Reaches};
ghost use Rattle.sysmods.specs.Seen.{AddsAll, GoesOn, IsTurned};

use fields::{Id, IdList};
use indexmap::IndexSet;
use std::alloc::{AllocError, Global};

/// A graph of ids, given by the ids that each one names.
pub trait IdGraph {
    ghost named: { Self → List ℕ → List (List ℕ) };

    /// Appends the ids that this one names. An unknown id names none.
    fn append_named(&self, id: Id, found: &mut Vec<Id>) -> Result<(), AllocError>
        ensures { OnOk result (found.new.items ≡ found.old.items ++ named self.now id) };
}

// Adds the ids that this one names to those seen. `found` is working space, which the call empties first.
fn see_named<N: IdGraph>(
    graph: &N,
    id: Id,
    found: &mut Vec<Id>,
    seen: &mut IndexSet<Id>,
) -> Result<(), AllocError>
    ensures { OnOk result (AddsAll seen.old.keys (N.named graph.now id) seen.new.keys) }
{
    found.clear();
    graph.append_named(id, found)?;
    for next in found.iter() {
        seen.insert(*next)?;
    }
    Ok(())
}

// Whether the search has seen the id at which it stops, if there is one.
fn is_stop_seen(seen: &IndexSet<Id>, stop: Option<&Id>) -> bool
    ensures { IsTrue result ↔ IsSomeAnd stop.entry (λ z. Contains seen.now.keys z.now) }
{
    match stop {
        Some(z) => seen.contains(z),
        None => false,
    }
}

// Visits the id at this place among those seen, by adding the ids that it names to them.
fn visit<N: IdGraph>(
    graph: &N,
    place: usize,
    found: &mut Vec<Id>,
    seen: &mut IndexSet<Id>,
) -> Result<(), AllocError>
    requires { place < length seen.old.keys }
    ensures { OnOk result (GoesOn (N.named graph.now) place seen.old.keys seen.new.keys) }
{
    let id = seen.as_slice()[place];
    see_named(graph, id, found, seen)?;
    Ok(())
}

// The ids that x reaches, in the order in which the search meets them: the set serves both as marks and as a queue.
// Once the search has seen the id `stop`, it goes no further, and may not have met all.
fn search_reachable<N: IdGraph>(
    alloc: Global,
    graph: &N,
    x: Id,
    stop: Option<&Id>,
) -> Result<IndexSet<Id>, AllocError>
    ensures sound { IfOk result (λ seen. (z : List ℕ) → Contains seen.keys z → Reaches (N.named graph.now) x z) }
    ensures all { IfOk result (λ seen. ¬ IsSomeAnd stop.entry (λ z. Contains seen.keys z.now) →
        (z : List ℕ) → Reaches (N.named graph.now) x z → Contains seen.keys z) }
{
    let mut seen = IndexSet::new(alloc);
    let mut found = Vec::new(alloc);
    see_named(graph, x, &mut found, &mut seen)?;
    let mut i = 0;
    while i < seen.len() {
        if is_stop_seen(&seen, stop) {
            return Ok(seen);
        }
        visit(graph, i, &mut found, &mut seen)?;
        i += 1;
    }
    Ok(seen)
}

/// Whether x leads to z: each id on the way names the next, in one step or more. If z is x, this says whether x is on a
/// loop.
pub(crate) fn leads_to<N: IdGraph>(
    alloc: Global,
    graph: &N,
    x: Id,
    z: Id,
) -> Result<bool, AllocError>
    ensures { IfOk result (λ found. IsTrue found ↔ Reaches (N.named graph.now) x z) }
{
    let seen = search_reachable(alloc, graph, x, Some(&z))?;
    Ok(seen.contains(&z))
}

// Whether the search from x has seen z, or the one back from z has seen x.
fn either_has_arrived(ahead: &IndexSet<Id>, behind: &IndexSet<Id>, x: Id, z: Id) -> bool
    ensures { result ≡ (is_in ahead.now.keys z || is_in behind.now.keys x) }
{
    ahead.contains(&z) || behind.contains(&x)
}

/// Whether x leads to z. `reversed` gives for each id those that name it in `graph`. One search goes on from x and one
/// goes back from z. The one that has seen less takes the next step, and they stop once either has seen the other's end
/// or has nothing left.
pub(crate) fn leads_to_from_both_ends<F: IdGraph, B: IdGraph>(
    alloc: Global,
    graph: &F,
    reversed: &B,
    x: Id,
    z: Id,
) -> Result<bool, AllocError>
    requires { IsTurned (F.named graph.now) (B.named reversed.now) }
    ensures { IfOk result (λ found. IsTrue found ↔ Reaches (F.named graph.now) x z) }
{
    let mut found = Vec::new(alloc);
    let mut ahead = IndexSet::new(alloc);
    let mut behind = IndexSet::new(alloc);
    see_named(graph, x, &mut found, &mut ahead)?;
    see_named(reversed, z, &mut found, &mut behind)?;
    let mut i = 0;
    let mut j = 0;
    while i < ahead.len() && j < behind.len() {
        if either_has_arrived(&ahead, &behind, x, z) {
            return Ok(true);
        }
        if ahead.len() <= behind.len() {
            visit(graph, i, &mut found, &mut ahead)?;
            i += 1;
        } else {
            visit(reversed, j, &mut found, &mut behind)?;
            j += 1;
        }
    }
    Ok(either_has_arrived(&ahead, &behind, x, z))
}

/// The ids to which x leads, in one step or more.
pub(crate) fn reachable_ids<N: IdGraph>(
    alloc: Global,
    graph: &N,
    x: Id,
) -> Result<IdList, AllocError>
    ensures { IfOk result (λ ends. (z : List ℕ) → Contains ends z ↔ Reaches (N.named graph.now) x z) }
{
    let seen = search_reachable(alloc, graph, x, None)?;
    let ends = Vec::from_slice(alloc, seen.as_slice())?;
    Ok(IdList::from_vec(ends))
}
