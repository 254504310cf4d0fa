//! Holds that were internal in a copy of a SYSMOD that is left out. If the copy that is carried has a hold of the same
//! key, they are dropped.
ghost use Rattle.std.specs.Prelude.{◌≡◌, ◌++◌, not, List, IfOk, OnOk};
ghost use Rattle.std.specs.List.{filter, flat_map};
ghost use Rattle.terms.specs.Types as terms;
ghost use Rattle.mcs.specs.declared.file.Item.{Item as AnItem};
ghost use Rattle.intake_carry.specs.Carried.{holds_of, is_held, is_held_by_copy};
ghost use Rattle.intake_carry.specs.Keys.{AreKeysOf};

use crate::copies::OtherCopies;
use fields::{Id, Reason as HoldReason};
use intake_cards::{CardPlace, RemarkReason, Remarks, Subject};
use intake_holds::PlacedItem;
use mcs::{HoldItem, Item};
use std::alloc::{AllocError, Global};
use std::collections::BTreeSet;
use sysmods_values::Hold;
use terms::HoldKind;

/// What tells holds apart: id, kind and reason.
type HoldKey = (Id, (HoldKind, HoldReason));

// The key of the hold.
fn key_of(hold: &Hold) -> HoldKey
    ensures { result ≡ (hold.now.id, (hold.now.kind, hold.now.reason)) }
{
    (hold.id, (hold.kind, hold.reason))
}

// Adds the keys of the holds.
fn add_keys(keys: &mut BTreeSet<HoldKey>, holds: &[Hold]) -> Result<(), AllocError>
    ensures { OnOk result ((before : List terms.Hold) → AreKeysOf keys.old before
        → AreKeysOf keys.new (before ++ holds.now)) }
{
    for hold in holds {
        keys.insert(key_of(hold))?;
    }
    Ok(())
}

// The internal holds of an item.
fn holds_of(item: &Item) -> &[Hold]
    ensures { result.now ≡ holds_of item.now }
{
    match item {
        Item::Sysmod(sysmod) => sysmod.holds.as_slice(),
        Item::Assign(_) => &[],
    }
}

// The keys of the internal holds of the items.
fn internal_keys(alloc: Global, items: &[Item]) -> Result<BTreeSet<HoldKey>, AllocError>
    ensures { IfOk result (λ keys. AreKeysOf keys (flat_map holds_of items.now)) }
{
    let mut keys = BTreeSet::new(alloc);
    for item in items {
        add_keys(&mut keys, holds_of(item))?;
    }
    Ok(keys)
}

// Whether the item is a hold with one of the keys.
fn is_held(keys: &BTreeSet<HoldKey>, item: &HoldItem) -> bool
    ensures { (items : List AnItem) → AreKeysOf keys.now (flat_map holds_of items) → result ≡ is_held items item.now }
{
    match item {
        HoldItem::Hold(hold) => keys.contains(&key_of(hold)),
        HoldItem::Release(_) => false,
    }
}

// Whether the item is a hold that was internal and has one of the keys.
fn is_held_by_copy(keys: &BTreeSet<HoldKey>, placed: &PlacedItem) -> bool
    ensures { (items : List AnItem) → AreKeysOf keys.now (flat_map holds_of items)
        → result ≡ is_held_by_copy items placed.now }
{
    placed.was_internal && is_held(keys, &placed.item)
}

// The holds and releases without the holds that were internal and have one of the keys.
fn keep_unheld(keys: &BTreeSet<HoldKey>, mut placed: Vec<PlacedItem>) -> Vec<PlacedItem>
    ensures { (items : List AnItem) → AreKeysOf keys.now (flat_map holds_of items)
        → result.items ≡ filter (λ p. not (is_held_by_copy items p)) placed.items }
{
    placed.retain(|item| !is_held_by_copy(keys, item));
    placed
}

// Remarks on a hold that was internal in a SYSMOD that is not carried: it is dropped because the SYSMOD has a hold of
// the same key already, or it is in the hold file. If the files have the SYSMOD only once, `tell_left_out_holds` has
// already remarked that the hold is in the hold file.
fn tell_copy_hold(
    alloc: Global,
    remarks: &mut Remarks,
    keys: &BTreeSet<HoldKey>,
    copies: &OtherCopies,
    place: CardPlace,
    hold: &Hold,
) -> Result<(), AllocError> {
    let subject = Subject {
        place,
        word: b"HOLD",
        id: hold.id.as_bytes(),
    };
    if keys.contains(&key_of(hold)) {
        let reason = hold.reason.as_bytes();
        return remarks.tell_dropped(
            alloc,
            &subject,
            b"REASON",
            RemarkReason::HeldAlready,
            reason,
        );
    }
    if copies.is_repeated(hold.id.as_bytes()) {
        return remarks.tell_carried(alloc, &subject, b"", RemarkReason::HeldOutside, b"");
    }
    Ok(())
}

// Remarks on each of the holds that were internal in a SYSMOD that is not carried.
fn tell_copy_holds(
    alloc: Global,
    remarks: &mut Remarks,
    keys: &BTreeSet<HoldKey>,
    copies: &OtherCopies,
    placed: &[PlacedItem],
) -> Result<(), AllocError> {
    for placed_item in placed {
        if !placed_item.was_internal {
            continue;
        }
        if let HoldItem::Hold(hold) = &placed_item.item {
            tell_copy_hold(alloc, remarks, keys, copies, placed_item.place, hold)?;
        }
    }
    Ok(())
}

/// The holds and releases of the hold file, without the holds that are held already: they were internal in a copy of a
/// SYSMOD that is not carried, and a SYSMOD of the items has a hold of the same key. Remarks say what becomes of each
/// hold that was internal in such a copy.
pub(crate) fn without_held_already(
    alloc: Global,
    remarks: &mut Remarks,
    copies: &OtherCopies,
    items: &[Item],
    placed: Vec<PlacedItem>,
) -> Result<Vec<PlacedItem>, AllocError>
    ensures { IfOk result (λ kept. kept.items
        ≡ filter (λ p. not (is_held_by_copy items.now p)) placed.items) }
{
    let keys = internal_keys(alloc, items)?;
    tell_copy_holds(alloc, remarks, &keys, copies, placed.as_slice())?;
    Ok(keep_unheld(&keys, placed))
}
