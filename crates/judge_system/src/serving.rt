//! The candidates that serve a need: the id itself, and a candidate that supersedes it if that serves the need.
ghost use Rattle.std.specs.Prelude.{◌≡◌, ◌<◌, ◌^◌, ℕ, List, Some, length, slice_get, All, AllPairs};
ghost use Rattle.std.specs.Prelude.{Contains, IsTrue, IsFalse, IsNone, IfSome, OnOk, IfOk};
ghost use Rattle.terms.specs.declared.codes.NeedKind.{NeedKind as AKind};
ghost use Rattle.terms.specs.Types.{Id as AnId};
ghost use Rattle.terms.specs.Lookups.{IsRising, is_in};
ghost use Rattle.terms.specs.Needs.{takes_superseder};
ghost use Rattle.judge_system.specs.Serving.{AreOwn, AddsSuperseded, AreServed, AreOwnPlaces, IsServedIn};

use fields::Id;
use indexmap::IndexSet;
use std::alloc::{AllocError, Global};
use std::collections::BTreeSet;
use terms::NeedKind;

// The place of the id among the candidates, if it is one. The place is its number.
fn place_of(ids: &IndexSet<Id>, id: Id) -> Option<u32>
    requires { length ids.now.keys < 2 ^ 32 }
    ensures at { IfSome result (λ n. slice_get ids.now.keys n ≡ Some id) }
    ensures none { IsNone result → IsFalse (is_in ids.now.keys id) }
{
    match ids.get_index_of(&id) {
        Some(place) => Some(place as u32),
        None => None,
    }
}

/// The place of a candidate.
pub(crate) fn own_place(ids: &IndexSet<Id>, id: Id) -> u32
    requires few { length ids.now.keys < 2 ^ 32 }
    requires within { Contains ids.now.keys id }
    ensures { slice_get ids.now.keys result ≡ Some id }
{
    place_of(ids, id).unwrap()
}

// Each candidate with its own place.
fn own_pairs(alloc: Global, ids: &[Id]) -> Result<Vec<(Id, u32)>, AllocError>
    requires { length ids.now < 2 ^ 32 }
    ensures { IfOk result (λ pairs. AreOwn ids.now (length ids.now) pairs.items) }
{
    let mut pairs = Vec::new(alloc);
    for i in 0..ids.len() {
        pairs.push((ids[i], i as u32))?;
    }
    Ok(pairs)
}

// Adds the ids that candidates supersede, each with the place of the candidate.
fn add_superseded(
    ids: &IndexSet<Id>,
    superseded: &[(Id, Id)],
    pairs: &mut Vec<(Id, u32)>,
) -> Result<(), AllocError>
    requires few { length ids.now.keys < 2 ^ 32 }
    requires rising { IsRising ids.now.keys }
    requires within { All (λ p. Contains ids.now.keys p.0) superseded.now }
    ensures { OnOk result (AddsSuperseded ids.now.keys superseded.now pairs.old.items pairs.new.items) }
{
    for pair in superseded {
        pairs.push((pair.1, own_place(ids, pair.0)))?;
    }
    Ok(())
}

/// Each id that a candidate is or supersedes, with the place of the candidate, in order.
pub(crate) fn served_pairs(
    alloc: Global,
    ids: &IndexSet<Id>,
    superseded: &[(Id, Id)],
) -> Result<BTreeSet<(Id, u32)>, AllocError>
    requires few { length ids.now.keys < 2 ^ 32 }
    requires rising { IsRising ids.now.keys }
    requires within { All (λ p. Contains ids.now.keys p.0) superseded.now }
    ensures { IfOk result (λ set. AreServed ids.now.keys superseded.now set.keys) }
{
    let mut pairs = own_pairs(alloc, ids.as_slice())?;
    add_superseded(ids, superseded, &mut pairs)?;
    let set: BTreeSet<(Id, u32)> = pairs.into_iter().collect(alloc)?;
    Ok(set)
}

// The places of the id and of its superseders, as far as they are candidates. They serve a need that a superseder may
// serve.
fn own_and_superseding_places(
    alloc: Global,
    ids: &IndexSet<Id>,
    served: &BTreeSet<(Id, u32)>,
    id: Id,
) -> Result<Vec<u32>, AllocError>
    requires few { length ids.now.keys < 2 ^ 32 }
    ensures places { IfOk result (λ any. (kind : AKind) → IsTrue (takes_superseder kind)
        → IsServedIn ids.now.keys kind id served.now.keys any.items) }
    ensures below { IfOk result (λ any. All (λ n. n < length ids.now.keys) any.items) }
    ensures rising { IfOk result (λ any. AllPairs (λ a b. a < b) any.items) }
{
    let mut places = Vec::new(alloc);
    for pair in served.range((id, 0)..(id, ids.len() as u32)) {
        places.push(pair.1)?;
    }
    Ok(places)
}

// The place of the id itself, if it is a candidate. No other one serves a need that a superseder may not serve.
fn own_places(alloc: Global, ids: &IndexSet<Id>, id: Id) -> Result<Vec<u32>, AllocError>
    requires few { length ids.now.keys < 2 ^ 32 }
    requires rising { IsRising ids.now.keys }
    ensures places { IfOk result (λ any. AreOwnPlaces ids.now.keys id any.items) }
    ensures below { IfOk result (λ any. All (λ n. n < length ids.now.keys) any.items) }
    ensures rising { IfOk result (λ any. AllPairs (λ a b. a < b) any.items) }
{
    let mut places = Vec::new(alloc);
    let Some(place) = place_of(ids, id) else {
        return Ok(places);
    };
    places.push(place)?;
    Ok(places)
}

/// The places of the candidates that serve a need.
pub(crate) fn serving_places(
    alloc: Global,
    ids: &IndexSet<Id>,
    served: &BTreeSet<(Id, u32)>,
    kind: NeedKind,
    id: Id,
) -> Result<Vec<u32>, AllocError>
    requires few { length ids.now.keys < 2 ^ 32 }
    requires rising { IsRising ids.now.keys }
    ensures places { IfOk result (λ any. IsServedIn ids.now.keys kind id served.now.keys any.items) }
    ensures below { IfOk result (λ any. All (λ n. n < length ids.now.keys) any.items) }
    ensures rising { IfOk result (λ any. AllPairs (λ a b. a < b) any.items) }
{
    if kind.takes_superseder() {
        own_and_superseding_places(alloc, ids, served, id)
    } else {
        own_places(alloc, ids, id)
    }
}
