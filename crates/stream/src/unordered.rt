//! Which SYSMODs of one owner change one element, though neither is over the other.
ghost use Rattle.std.specs.Prelude.{◌≡◌, ◌⊎◌, ◌++◌, List, Some, All, IfOk, OnOk};
ghost use Rattle.std.specs.BTreeMap.{get, Updates};
ghost use Rattle.terms.specs.Lookups.{change_key};
ghost use Rattle.terms.specs.Stream.{IsInStream};
ghost use Rattle.sysmods.specs.Choices.{choice};
ghost use Rattle.stream.specs.Breaches.{IsUnordered};
ghost use Rattle.stream.specs.Ordering.{IsOrder};
ghost use Rattle.stream.specs.Comparing.{Claim, part_cmp, Compares, IsCompared, claims_of, AreBefore, HasFound};
ghost use Rattle.stream.specs.Comparing.{AreOrdered};

use crate::breaches::Unordered;
use fields::{Attest, Id, Name};
use std::alloc::{AllocError, Global};
use std::collections::BTreeMap;
use sysmods::{Overs, VerChoice};
use sysmods_values::ElemChange;
use terms::ElemType;

/// An element, and an owner of SYSMODs that change it.
type Part = ((ElemType, Name), Id);

// Compares the SYSMOD, whose statement this is, with the one before it that changes the element and has the same owner,
// if there is one.
fn compare_with_last(
    alloc: Global,
    overs: &mut Overs<'_, '_>,
    change: &ElemChange,
    owner: Id,
    id: Id,
    last: &mut BTreeMap<Part, Id>,
    found: &mut Vec<Unordered>,
) -> Result<(), AllocError>
    ensures last { OnOk result (Updates part_cmp last.old last.new (change_key change.now, owner) (Some id)) }
    ensures found { OnOk result (Compares (choice overs.old) (change_key change.now, owner) id
        (get part_cmp last.old (change_key change.now, owner)) found.old.items found.new.items) }
    ensures same { overs.new ≡ overs.old }
{
    let part = ((change.elem_type, change.name), owner);
    let Some(before) = last.insert(part, id)? else {
        return Ok(());
    };
    if overs.over(alloc, id, before)? {
        return Ok(());
    }
    found.push(Unordered {
        elem_type: change.elem_type,
        name: change.name,
        one: before,
        other: id,
    })?;
    Ok(())
}

// Compares the SYSMOD with those before it, element by element.
fn compare_changes(
    alloc: Global,
    overs: &mut Overs<'_, '_>,
    id: Id,
    last: &mut BTreeMap<Part, Id>,
    found: &mut Vec<Unordered>,
) -> Result<(), AllocError>
    ensures compared { OnOk result ((claims : List Claim) → IsInStream (choice overs.old) id
        → AreBefore (choice overs.old) id claims
        → IsCompared overs.old.global.now (choice overs.old) claims last.old found.old.items
        → IsCompared overs.old.global.now (choice overs.old)
        (claims ++ claims_of overs.old.global.now (choice overs.old) id) last.new found.new.items) }
    ensures same { overs.new ≡ overs.old }
{
    let vers = overs.vers();
    let global = vers.global();
    global.attest();
    let owner = vers.owner(id);
    let changes = global.changes_of(id);
    for change in changes {
        compare_with_last(alloc, overs, change, owner, id, last, found)?;
    }
    Ok(())
}

/// The neighbours of one owner that change one element, though neither is over the other. If there are none, of any two
/// that change one element and have one owner one is over the other, because over leads on.
pub(crate) fn unordered_pairs(
    alloc: Global,
    vers: &VerChoice<'_>,
    ids: &[Id],
) -> Result<Vec<Unordered>, AllocError>
    requires { IsOrder (choice vers.now) ids.now }
    ensures pairs { IfOk result (λ found. All (IsUnordered vers.now.global.now (choice vers.now)) found.items) }
    ensures none { IfOk result
        (λ found. HasFound found.items ⊎ AreOrdered vers.now.global.now (choice vers.now) ids.now) }
{
    let mut overs = Overs::new(alloc, vers);
    let mut last = BTreeMap::new(alloc);
    let mut found = Vec::new(alloc);
    for id in ids {
        compare_changes(alloc, &mut overs, *id, &mut last, &mut found)?;
    }
    Ok(found)
}
