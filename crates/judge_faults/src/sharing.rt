//! Which candidates change an element that they may not share with another candidate.
ghost use Rattle.std.specs.Prelude.{◌≡◌, ◌↔◌, ◌<◌, ◌⊎◌, ◌&&◌, [], ◌∷◌, ◌++◌, ℕ, List, length, IsTrue};
ghost use Rattle.std.specs.Prelude.{Contains, OnOk, IfOk};
ghost use Rattle.sysmods.specs.Choices.{choice};
ghost use Rattle.judge_faults.specs.Rows.{is_among};
ghost use Rattle.judge_faults.specs.Sharing.{Marks, IsOfPair, IsAgainst, IsAmong, Clashes, AreMarked};
ghost use Rattle.judge_faults.specs.Sharing.{AllMarked, AreSettled, IsRun, IsClashing};

use crate::chains::{may_not_share, place_in_chain};
use crate::claims::{Claim, claims_of};
use crate::own::OwnFaults;
use fields::Id;
use indexmap::IndexSet;
use std::alloc::{AllocError, Global};
use sysmods::Overs;

// Whether the two need no comparison: they are claims of one candidate, or both are marked already.
fn is_settled(one: &Claim, other: &Claim, marked: &IndexSet<usize>) -> bool
    ensures settled { IsTrue result → (one.now.id ≡ other.now.id) ⊎ (Contains marked.now.keys one.now.place
        × Contains marked.now.keys other.now.place) }
    ensures own { one.now.id ≡ other.now.id → IsTrue result }
{
    one.id == other.id || marked.contains(&one.place) && marked.contains(&other.place)
}

// Marks two claims on one element if they clash.
fn mark_pair(
    alloc: Global,
    overs: &mut Overs<'_, '_>,
    one: &Claim,
    other: &Claim,
    marked: &mut IndexSet<usize>,
) -> Result<(), AllocError>
    ensures marks { OnOk result (Marks (IsOfPair overs.old.global.now (choice overs.old) one.now other.now)
        marked.old.keys marked.new.keys) }
    ensures same { overs.new ≡ overs.old }
{
    if is_settled(one, other, marked) {
        return Ok(());
    }
    if may_not_share(alloc, overs, one.id, other.id)? {
        marked.insert(one.place)?;
        marked.insert(other.place)?;
    }
    Ok(())
}

// Marks each clash of the claim with one of the others, on both sides.
fn mark_against(
    alloc: Global,
    overs: &mut Overs<'_, '_>,
    claim: &Claim,
    others: &[Claim],
    marked: &mut IndexSet<usize>,
) -> Result<(), AllocError>
    ensures marks { OnOk result (Marks (IsAgainst overs.old.global.now (choice overs.old) claim.now others.now)
        marked.old.keys marked.new.keys) }
    ensures same { overs.new ≡ overs.old }
{
    for other in others {
        mark_pair(alloc, overs, claim, other, marked)?;
    }
    Ok(())
}

// Marks each clash of the claim with one of the others, on both sides. If all others are marked, the first clash
// settles the rest, because both sides of each further one are marked.
fn mark_until_settled(
    alloc: Global,
    overs: &mut Overs<'_, '_>,
    claim: &Claim,
    others: &[Claim],
    marked: &mut IndexSet<usize>,
) -> Result<(), AllocError>
    ensures marks { OnOk result (AllMarked others.now marked.old.keys
        → Marks (IsAgainst overs.old.global.now (choice overs.old) claim.now others.now) marked.old.keys
        marked.new.keys) }
    ensures same { overs.new ≡ overs.old }
{
    for other in others {
        if marked.contains(&claim.place) {
            return Ok(());
        }
        mark_pair(alloc, overs, claim, other, marked)?;
    }
    Ok(())
}

/// The claims on one element so far. Those of the chain may share the element with each other, because each of them is
/// over those before it. The others do not fit into the chain. All of these are marked, unless a candidate has several
/// claims on the element.
#[derive(Drop)]
struct Claimants {
    chain: Vec<Claim>,
    others: Vec<Claim>,
    /// Whether all others are known to be marked.
    are_marked: bool,
}

// Marks each clash of the claim with one of those outside the chain, on both sides.
fn mark_against_others(
    alloc: Global,
    overs: &mut Overs<'_, '_>,
    claim: &Claim,
    claimants: &Claimants,
    marked: &mut IndexSet<usize>,
) -> Result<(), AllocError>
    ensures marks { OnOk result (AreSettled claimants.now.are_marked claimants.now.others.items marked.old.keys
        → Marks (IsAgainst overs.old.global.now (choice overs.old) claim.now claimants.now.others.items)
        marked.old.keys marked.new.keys) }
    ensures same { overs.new ≡ overs.old }
{
    let others = claimants.others.as_slice();
    if claimants.are_marked {
        mark_until_settled(alloc, overs, claim, others, marked)
    } else {
        mark_against(alloc, overs, claim, others, marked)
    }
}

// Whether the others are marked, as is known, and the claim is marked too.
fn is_marked_too(are_marked: bool, claim: &Claim, marked: &IndexSet<usize>) -> bool
    ensures { result ≡ (are_marked && is_among marked.now.keys claim.now.place) }
{
    are_marked && marked.contains(&claim.place)
}

// Adds one more claim, and marks its clashes with the claims so far.
fn add_claim(
    alloc: Global,
    overs: &mut Overs<'_, '_>,
    claim: &Claim,
    claimants: &mut Claimants,
    marked: &mut IndexSet<usize>,
) -> Result<(), AllocError>
    ensures taken { OnOk result ((claims : List Claim) (before : List ℕ)
        → AreMarked overs.old.global.now (choice overs.old) claims claimants.old.chain.items claimants.old.others.items
        claimants.old.are_marked before marked.old.keys
        → AreMarked overs.old.global.now (choice overs.old) (claims ++ claim.now ∷ []) claimants.new.chain.items
        claimants.new.others.items claimants.new.are_marked before marked.new.keys) }
    ensures same { overs.new ≡ overs.old }
{
    let Some(place) = place_in_chain(alloc, overs, claimants.chain.as_slice(), claim)? else {
        mark_against(alloc, overs, claim, claimants.chain.as_slice(), marked)?;
        mark_against_others(alloc, overs, claim, claimants, marked)?;
        claimants.others.push(*claim)?;
        claimants.are_marked = is_marked_too(claimants.are_marked, claim, marked);
        return Ok(());
    };
    mark_against_others(alloc, overs, claim, claimants, marked)?;
    claimants.chain.insert(place, *claim)?;
    Ok(())
}

// Marks the claims that clash with each other. All are on one element.
fn mark_clashes(
    alloc: Global,
    overs: &mut Overs<'_, '_>,
    claims: &[Claim],
    marked: &mut IndexSet<usize>,
) -> Result<(), AllocError>
    ensures marks { OnOk result (Marks (IsAmong (Clashes overs.old.global.now (choice overs.old)) claims.now)
        marked.old.keys marked.new.keys) }
    ensures same { overs.new ≡ overs.old }
{
    let mut claimants = Claimants {
        chain: Vec::new(alloc),
        others: Vec::new(alloc),
        are_marked: true,
    };
    for claim in claims {
        add_claim(alloc, overs, claim, &mut claimants, marked)?;
    }
    Ok(())
}

// Where the claims end that follow `start` and are on the same element as the claim at `start`.
fn run_end(claims: &[Claim], start: usize) -> usize
    requires { start < length claims.now }
    ensures { IsRun claims.now start result }
{
    let first = &claims[start];
    let mut end = start + 1;
    while end < claims.len() && claims[end].is_on_same_element(first) {
        end += 1;
    }
    end
}

/// The places of the candidates that pass the tests of their own and change an element that they may not share with
/// another such one.
pub(crate) fn element_clash_places(
    alloc: Global,
    overs: &mut Overs<'_, '_>,
    ids: &[Id],
    faults: &[OwnFaults],
) -> Result<IndexSet<usize>, AllocError>
    requires { length faults.now ≡ length ids.now }
    ensures clashing { IfOk result (λ places. (n : ℕ) → Contains places.keys n
        ↔ IsClashing overs.old.global.now (choice overs.old) ids.now faults.now n) }
    ensures same { overs.new ≡ overs.old }
{
    let all = claims_of(alloc, overs.vers().global(), ids, faults)?;
    let claims = all.as_slice();
    let mut marked = IndexSet::new(alloc);
    let mut start = 0;
    while start < claims.len() {
        let end = run_end(claims, start);
        mark_clashes(alloc, overs, &claims[start..end], &mut marked)?;
        start = end;
    }
    Ok(marked)
}
