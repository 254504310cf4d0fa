//! The users of elements: the SYSMODs of the files that change an element, by its key.
ghost use Rattle.std.specs.Prelude.{◌≡◌, IfOk, IfSome, OnOk, IsTrue, All, Some};
ghost use Rattle.std.specs.Ordering.{nat_cmp};
ghost use Rattle.std.specs.BTreeMap.{get};
ghost use Rattle.intake_sysmod.specs.declared.element_users.ElementUser.TheVariants.{Only as IsOnly};
ghost use Rattle.intake_sysmod.specs.Users.{run_of, Covers, IsUser, UsersGrow, IsKnown, KnowsRun};

use crate::passing::has_large_sysmod;
use fields::Id;
use intake_elements::{Options, keys_of};
use intake_read::{WideFile, WideSysmod};
use std::alloc::{AllocError, Global};
use std::collections::BTreeMap;

/// The SYSMODs that change an element: only the one of this id, or several.
#[derive(Clone, Copy, PartialEq, Eq)]
pub enum ElementUser {
    Only(Id),
    Several,
}

// The SYSMOD of this id as a user. A text that is not an id counts as several SYSMODs.
fn user_for_id(id: &[u8]) -> ElementUser
    ensures { Covers result (IsOnly id.now) }
{
    match Id::read(id) {
        Some(id) => ElementUser::Only(id),
        None => ElementUser::Several,
    }
}

// The users of an element, when this one is added to those before.
fn with_user(before: Option<ElementUser>, user: ElementUser) -> ElementUser
    ensures new { Covers result user }
    ensures old { IfSome before (Covers result) }
{
    match before {
        None => user,
        Some(before) => {
            if before == user {
                user
            } else {
                ElementUser::Several
            }
        }
    }
}

// Adds the SYSMOD of the id to the users of the element with the key.
fn add_user(users: &mut BTreeMap<u64, ElementUser>, key: u64, id: &[u8]) -> Result<(), AllocError>
    ensures has { OnOk result (IsUser users.new key id.now) }
    ensures grows { OnOk result (UsersGrow users.old users.new) }
{
    let before = users.get(&key).copied();
    users.insert(key, with_user(before, user_for_id(id)))?;
    Ok(())
}

// Adds the SYSMOD of the id to the users of each of the elements with the keys.
fn add_user_of_keys(
    users: &mut BTreeMap<u64, ElementUser>,
    keys: &[u64],
    id: &[u8],
) -> Result<(), AllocError>
    ensures has { OnOk result (All (λ key. IsUser users.new key id.now) keys.now) }
    ensures grows { OnOk result (UsersGrow users.old users.new) }
{
    for key in keys {
        add_user(users, *key, id)?;
    }
    Ok(())
}

/// Adds the SYSMOD to the users of each element that it changes.
pub fn add_users_of_sysmod(
    alloc: Global,
    users: &mut BTreeMap<u64, ElementUser>,
    stated: &WideSysmod,
) -> Result<(), AllocError>
    ensures has { OnOk result (IsKnown users.new stated.now) }
    ensures grows { OnOk result (UsersGrow users.old users.new) }
{
    let id = stated.id.as_slice();
    for element in stated.elements.iter() {
        let keys = keys_of(alloc, element)?;
        add_user_of_keys(users, keys.as_slice(), id)?;
    }
    Ok(())
}

// Adds each SYSMOD of the file to the users of the elements that it changes.
fn add_users_of_file(
    alloc: Global,
    users: &mut BTreeMap<u64, ElementUser>,
    file: &WideFile,
) -> Result<(), AllocError>
    ensures has { OnOk result (All (IsKnown users.new) file.now.sysmods.items) }
    ensures grows { OnOk result (UsersGrow users.old users.new) }
{
    for sysmod in file.sysmods.iter() {
        add_users_of_sysmod(alloc, users, sysmod)?;
    }
    Ok(())
}

// The users of each element among the SYSMODs of all files.
fn users_of_files(
    alloc: Global,
    files: &[WideFile],
) -> Result<BTreeMap<u64, ElementUser>, AllocError>
    ensures { IfOk result (λ users. All (IsKnown users) (run_of files.now)) }
{
    let mut users = BTreeMap::new(alloc);
    for file in files {
        add_users_of_file(alloc, &mut users, file)?;
    }
    Ok(users)
}

/// The users of each element among the SYSMODs of all files. If no element may be passed over, they are not gathered,
/// and the map is empty.
pub(crate) fn known_users(
    alloc: Global,
    options: &Options,
    files: &[WideFile],
) -> Result<BTreeMap<u64, ElementUser>, AllocError>
    ensures { IfOk result (λ users. KnowsRun users (run_of files.now)) }
{
    if !options.decide || !files.iter().any(has_large_sysmod) {
        return Ok(BTreeMap::new(alloc));
    }
    users_of_files(alloc, files)
}

// Whether the users are only the SYSMOD of the id.
fn is_only(user: ElementUser, id: &[u8]) -> bool
    ensures { IsTrue result → user ≡ IsOnly id.now }
{
    match user {
        ElementUser::Only(owner) => owner.as_bytes() == id,
        ElementUser::Several => false,
    }
}

// Whether the SYSMOD of the id is the only user of the element with the key.
fn is_only_user(users: &BTreeMap<u64, ElementUser>, key: u64, id: &[u8]) -> bool
    ensures { IsTrue result → get nat_cmp users.now key ≡ Some (IsOnly id.now) }
{
    match users.get(&key) {
        Some(user) => is_only(*user, id),
        None => false,
    }
}

/// Whether the SYSMOD of the id is the only user of each of the elements with the keys.
pub(crate) fn is_only_user_of_all(
    users: &BTreeMap<u64, ElementUser>,
    keys: &[u64],
    id: &[u8],
) -> bool
    ensures { IsTrue result → All (λ key. get nat_cmp users.now key ≡ Some (IsOnly id.now)) keys.now }
{
    for key in keys {
        if !is_only_user(users, *key, id) {
            return false;
        }
    }
    true
}
