//! The SYSMODs of the files that are left out.
ghost use Rattle.std.specs.Prelude.{◌≡◌, ◌++◌, ◌∷◌, [], List, IfOk, OnOk, IsTrue, All, not, map};
ghost use Rattle.std.specs.List.{list_any};
ghost use Rattle.mcs.specs.declared.file.Item.{Item as AnItem};
ghost use Rattle.intake_read.specs.declared.items.WideSysmod.{WideSysmod as AnySysmod};
ghost use Rattle.intake_sysmod.specs.Users.{run_of, IsKnown};
ghost use Rattle.intake_carry.specs.Unsure.{has_id, AreIdsOf, AreLeftOutOf};

use crate::parts::id_of;
use fields::Id;
use intake_read::{WideFile, WideSysmod};
use intake_sysmod::{ElementUser, add_users_of_sysmod};
use mcs::Item;
use std::alloc::{AllocError, Global};
use std::collections::{BTreeMap, BTreeSet};

// Adds the id of the item, if it is a SYSMOD.
fn add_id(ids: &mut BTreeSet<Id>, item: &Item) -> Result<(), AllocError>
    ensures { OnOk result ((before : List AnItem) → AreIdsOf ids.old before
        → AreIdsOf ids.new (before ++ item.now ∷ [])) }
{
    match item {
        Item::Sysmod(sysmod) => {
            ids.insert(id_of(sysmod))?;
            Ok(())
        }
        Item::Assign(_) => Ok(()),
    }
}

/// The ids of the SYSMODs among the items.
pub(crate) fn carried_ids(alloc: Global, items: &[Item]) -> Result<BTreeSet<Id>, AllocError>
    ensures { IfOk result (λ ids. AreIdsOf ids items.now) }
{
    let mut ids = BTreeSet::new(alloc);
    for item in items {
        add_id(&mut ids, item)?;
    }
    Ok(ids)
}

// Whether no SYSMOD of these ids has the id. A text that is no id counts as one that none has.
fn is_left_out(ids: &BTreeSet<Id>, id: &[u8]) -> bool
    ensures { (items : List AnItem) → AreIdsOf ids.now items → IsTrue (not (list_any (has_id id.now) items))
        → IsTrue result }
{
    match Id::read(id) {
        Some(id) => !ids.contains(&id),
        None => true,
    }
}

// Adds the SYSMOD if it is left out.
fn push_if_left_out<'a>(
    ids: &BTreeSet<Id>,
    stated: &'a WideSysmod,
    left: &mut Vec<&'a WideSysmod>,
) -> Result<(), AllocError>
    ensures { OnOk result ((items : List AnItem) → AreIdsOf ids.now items → (before : List AnySysmod)
        → AreLeftOutOf items before (map (λ l. l.now) left.old.items)
        → AreLeftOutOf items (before ++ stated.now ∷ []) (map (λ l. l.now) left.new.items)) }
{
    if !is_left_out(ids, stated.id.as_slice()) {
        return Ok(());
    }
    left.push(stated)?;
    Ok(())
}

// Adds those of the SYSMODs that are left out.
fn push_left_out<'a>(
    ids: &BTreeSet<Id>,
    sysmods: &'a [WideSysmod],
    left: &mut Vec<&'a WideSysmod>,
) -> Result<(), AllocError>
    ensures { OnOk result ((items : List AnItem) → AreIdsOf ids.now items → (before : List AnySysmod)
        → AreLeftOutOf items before (map (λ l. l.now) left.old.items)
        → AreLeftOutOf items (before ++ sysmods.now) (map (λ l. l.now) left.new.items)) }
{
    for stated in sysmods {
        push_if_left_out(ids, stated, left)?;
    }
    Ok(())
}

/// The SYSMODs of the files that are left out: those whose id is none of these.
pub(crate) fn left_out_of_files<'a>(
    alloc: Global,
    ids: &BTreeSet<Id>,
    files: &'a [WideFile],
) -> Result<Vec<&'a WideSysmod>, AllocError>
    ensures { IfOk result (λ left. (items : List AnItem) → AreIdsOf ids.now items
        → AreLeftOutOf items (run_of files.now) (map (λ l. l.now) left.items)) }
{
    let mut left = Vec::new(alloc);
    for file in files {
        push_left_out(ids, file.sysmods.as_slice(), &mut left)?;
    }
    Ok(left)
}

/// Which of the SYSMODs change an element, by its key.
pub(crate) fn users_of_all(
    alloc: Global,
    sysmods: &[&WideSysmod],
) -> Result<BTreeMap<u64, ElementUser>, AllocError>
    ensures { IfOk result (λ users. All (λ s. IsKnown users s.now) sysmods.now) }
{
    let mut users = BTreeMap::new(alloc);
    for stated in sysmods {
        add_users_of_sysmod(alloc, &mut users, *stated)?;
    }
    Ok(users)
}
