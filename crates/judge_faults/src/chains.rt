//! Chains of claims on one element: each SYSMOD is over those before it, and all have one owner.
ghost use Rattle.std.specs.Prelude.{◌≡◌, ◌↔◌, ◌≤◌, ◌⊎◌, length, take, drop, All, IsTrue, IfOk, IfSome};
ghost use Rattle.terms.specs.Over.{IsOver, owner};
ghost use Rattle.sysmods.specs.Choices.{choice};
ghost use Rattle.judge_faults.specs.Sharing.{StandApart, IsBelow, IsChain, FitsAt};

use crate::claims::Claim;
use fields::Id;
use std::alloc::{AllocError, Global};
use sysmods::{Overs, VerChoice};

// Whether one function owns both SYSMODs.
fn have_one_owner(vers: &VerChoice<'_>, one: Id, other: Id) -> bool
    ensures { IsTrue result ↔ (owner vers.now.global.now (choice vers.now) one
        ≡ owner vers.now.global.now (choice vers.now) other) }
{
    vers.owner(one) == vers.owner(other)
}

/// Whether two SYSMODs may not change one element: they have two owners, or neither is over the other.
pub(crate) fn may_not_share(
    alloc: Global,
    overs: &mut Overs<'_, '_>,
    one: Id,
    other: Id,
) -> Result<bool, AllocError>
    ensures apart { IfOk result (λ apart. IsTrue apart ↔ StandApart overs.old.global.now (choice overs.old) one other) }
    ensures same { overs.new ≡ overs.old }
{
    if !have_one_owner(overs.vers(), one, other) {
        return Ok(true);
    }
    if overs.over(alloc, one, other)? {
        return Ok(false);
    }
    Ok(!overs.over(alloc, other, one)?)
}

// Whether the first claim is below the second: one function owns both SYSMODs, and the second is over the first.
fn is_below(
    alloc: Global,
    overs: &mut Overs<'_, '_>,
    first: &Claim,
    second: &Claim,
) -> Result<bool, AllocError>
    ensures below { IfOk result (λ below. IsTrue below
        ↔ IsBelow overs.old.global.now (choice overs.old) first.now second.now) }
    ensures same { overs.new ≡ overs.old }
{
    if !have_one_owner(overs.vers(), first.id, second.id) {
        return Ok(false);
    }
    overs.over(alloc, second.id, first.id)
}

// Whether the claim is over the whole chain. Each claim of the chain is over those before it, so the last one decides.
fn is_over_chain(
    alloc: Global,
    overs: &mut Overs<'_, '_>,
    chain: &[Claim],
    claim: &Claim,
) -> Result<bool, AllocError>
    ensures ends { IfOk result (λ ends. IsTrue ends → IsChain overs.old.global.now (choice overs.old) chain.now
        → All (λ b. IsBelow overs.old.global.now (choice overs.old) b claim.now) chain.now) }
    ensures same { overs.new ≡ overs.old }
{
    match chain.last() {
        Some(last) => is_below(alloc, overs, last, claim),
        None => Ok(true),
    }
}

// Searches the chain by halves for a place before which the claim is over all claims. If the claim fits into the chain,
// it fits at this place.
fn search_place(
    alloc: Global,
    overs: &mut Overs<'_, '_>,
    chain: &[Claim],
    claim: &Claim,
) -> Result<usize, AllocError>
    ensures within { IfOk result (λ k. k ≤ length chain.now) }
    ensures front { IfOk result (λ k. IsChain overs.old.global.now (choice overs.old) chain.now
        → All (λ b. IsBelow overs.old.global.now (choice overs.old) b claim.now) (take k chain.now)) }
    ensures same { overs.new ≡ overs.old }
{
    let mut low = 0;
    let mut high = chain.len();
    while low < high {
        let middle = low + (high - low) / 2;
        if is_below(alloc, overs, &chain[middle], claim)? {
            low = middle + 1;
        } else {
            high = middle;
        }
    }
    Ok(low)
}

// Whether all claims of the chain from the place on are over this one. The claim at the place decides, because those
// after it are over it.
fn is_below_chain_from(
    alloc: Global,
    overs: &mut Overs<'_, '_>,
    chain: &[Claim],
    place: usize,
    claim: &Claim,
) -> Result<bool, AllocError>
    requires { place ≤ length chain.now }
    ensures fits { IfOk result (λ fits. IsTrue fits → IsChain overs.old.global.now (choice overs.old) chain.now
        → All (λ b. IsBelow overs.old.global.now (choice overs.old) claim.now b) (drop place chain.now)) }
    ensures same { overs.new ≡ overs.old }
{
    if place == chain.len() {
        return Ok(true);
    }
    is_below(alloc, overs, claim, &chain[place])
}

/// The place at which the claim fits into the chain, or `None` if it may not share the element with one of the claims.
/// Usually the claim is over the whole chain and fits at its end.
pub(crate) fn place_in_chain(
    alloc: Global,
    overs: &mut Overs<'_, '_>,
    chain: &[Claim],
    claim: &Claim,
) -> Result<Option<usize>, AllocError>
    ensures within { IfOk result (λ place. IfSome place (λ k. k ≤ length chain.now)) }
    ensures fits { IfOk result (λ place. IfSome place (λ k. IsChain overs.old.global.now (choice overs.old) chain.now
        → FitsAt overs.old.global.now (choice overs.old) chain.now claim.now k)) }
    ensures same { overs.new ≡ overs.old }
{
    if is_over_chain(alloc, overs, chain, claim)? {
        return Ok(Some(chain.len()));
    }
    if is_below_chain_from(alloc, overs, chain, 0, claim)? {
        return Ok(Some(0));
    }
    let Some(first) = chain.first() else {
        return Ok(None);
    };
    // A claim that is neither below nor over the first one fits nowhere.
    if !is_below(alloc, overs, first, claim)? {
        return Ok(None);
    }
    let place = search_place(alloc, overs, chain, claim)?;
    if !is_below_chain_from(alloc, overs, chain, place, claim)? {
        return Ok(None);
    }
    Ok(Some(place))
}
