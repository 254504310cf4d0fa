//! SYSMODs in the order of over.
ghost use Rattle.std.specs.Prelude.{◌≡◌, ◌<◌, ◌≤◌, ◌-◌, ◌⊎◌, AllPairs, All, IfOk, IsPermutation, drop, get_or, length};
ghost use Rattle.sysmods.specs.Choices.{choice};
ghost use Rattle.terms.specs.Over.{IsOver};

use fields::Id;
use std::alloc::{AllocError, Global};
use sysmods::Overs;

/// Sorts ids so that each later one is over each earlier one. Of any two, one has to be over the other. An id that is
/// over all ids before it takes one comparison, any other a binary search.
pub(crate) fn sort_by_over(
    alloc: Global,
    overs: &mut Overs<'_, '_>,
    ids: &[Id],
) -> Result<Vec<Id>, AllocError>
    requires { AllPairs (λ x y. IsOver (choice overs.old) x y ⊎ IsOver (choice overs.old) y x) ids.now }
    ensures same { IfOk result (λ ordered. IsPermutation ids.now ordered.items) }
    ensures order { IfOk result (λ ordered. AllPairs (λ x y. IsOver (choice overs.old) y x) ordered.items) }
    ensures overs { overs.new ≡ overs.old }
{
    let mut ordered = Vec::new(alloc);
    for id in ids {
        let place = find_place(alloc, overs, &ordered, *id)?;
        ordered.insert(place, *id)?;
    }
    Ok(ordered)
}

// The place of the id among sorted ones: after the last one that the id is over. The search begins with the last one,
// which usually decides, and then halves the rest.
fn find_place(
    alloc: Global,
    overs: &mut Overs<'_, '_>,
    ordered: &[Id],
    id: Id,
) -> Result<usize, AllocError>
    requires { AllPairs (λ x y. IsOver (choice overs.old) y x) ordered.now }
    ensures within { IfOk result (λ place. place ≤ length ordered.now) }
    ensures front { IfOk result
        (λ place. 0 < place → IsOver (choice overs.old) id (get_or ordered.now (place - 1) id)) }
    ensures back { IfOk result (λ place. All (λ x. ¬ IsOver (choice overs.old) id x) (drop place ordered.now)) }
    ensures overs { overs.new ≡ overs.old }
{
    let mut low = 0;
    let mut high = ordered.len();
    let mut middle = high.saturating_sub(1);
    while low < high {
        if overs.over(alloc, id, ordered[middle])? {
            low = middle + 1;
        } else {
            high = middle;
        }
        middle = low + (high - low) / 2;
    }
    Ok(low)
}
