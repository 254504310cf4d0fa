//! The holds and releases of the hold file, in the order in which the files state them.
ghost use Rattle.std.specs.Prelude.{◌≡◌, ◌∷◌, ◌++◌, [], IfOk, OnOk, map, IsPermutation};
ghost use Rattle.std.specs.List.Sorted.{IsSortedByKey};
ghost use Rattle.intake_holds.specs.Become.{Become};
ghost use Rattle.intake_holds.specs.Holds.{placed_at, place_cmp, AreInOrder, ReleaseBecomes};

use crate::errors::HoldError;
use crate::holds::carry_release;
use intake_cards::Remarks;
use intake_read::{CardPlace, WideRelease};
use mcs::HoldItem;
use std::alloc::{AllocError, Global};

/// A hold or a release of the hold file, and the place of its statement.
#[derive(Drop)]
pub struct PlacedItem {
    pub place: CardPlace,
    pub item: HoldItem,
    /// Whether it was an internal hold of a SYSMOD that is left out.
    pub was_internal: bool,
}

/// Adds a hold or a release, which was not internal, after the others.
pub fn push_item(
    placed: &mut Vec<PlacedItem>,
    place: CardPlace,
    item: HoldItem,
) -> Result<(), AllocError>
    ensures { OnOk result (placed.new.items ≡ placed.old.items ++ placed_at place item ∷ []) }
{
    placed.push(PlacedItem {
        place,
        item,
        was_internal: false,
    })?;
    Ok(())
}

/// The releases as they are carried, each with its place, without those of FIXCAT. Remarks say what is left out and
/// what differs. Returns `BadHold` if the key of one cannot be read, and `Memory` if memory runs out.
pub fn carry_releases(
    alloc: Global,
    remarks: &mut Remarks,
    stated: &[WideRelease],
) -> Result<Vec<PlacedItem>, HoldError>
    ensures { IfOk result (λ placed. Become ReleaseBecomes stated.now [] placed.items) }
{
    let mut placed = Vec::with_capacity(alloc, stated.len())?;
    for release in stated {
        let Some(carried) = carry_release(alloc, remarks, release)? else {
            continue;
        };
        push_item(&mut placed, release.place, HoldItem::Release(carried))?;
    }
    Ok(placed)
}

// Sorts the items by their places.
fn sort_by_place(mut placed: Vec<PlacedItem>) -> Vec<PlacedItem>
    ensures same { IsPermutation placed.items result.items }
    ensures rising { IsSortedByKey (λ placed_item. placed_item.place) place_cmp result.items }
{
    placed.sort_unstable_by_key(|placed_item| placed_item.place);
    placed
}

// The items without their places.
fn without_places(alloc: Global, placed: Vec<PlacedItem>) -> Result<Vec<HoldItem>, AllocError>
    ensures { IfOk result (λ items. items.items ≡ map (λ placed_item. placed_item.item) placed.items) }
{
    let mut items = Vec::with_capacity(alloc, placed.len())?;
    for placed_item in placed {
        items.push(placed_item.item)?;
    }
    Ok(items)
}

/// The items without their places, in the order in which the files state them.
pub fn items_in_order(alloc: Global, placed: Vec<PlacedItem>) -> Result<Vec<HoldItem>, AllocError>
    ensures { IfOk result (λ items. AreInOrder placed.items items.items) }
{
    without_places(alloc, sort_by_place(placed))
}
