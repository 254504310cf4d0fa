//! SYSMODs of which it is not sure that they can be installed. A SYSMOD that is left out forbids nothing: no other one
//! clashes with it, and its NPRE and DELETE have no effect. So each carried SYSMOD that has to do with it is named. If
//! stand-ins are asked for, so is each SYSMOD that has to do with a VERSION, by which a function takes an element over.
ghost use Rattle.std.specs.Prelude.{◌≡◌, ◌||◌, IfOk, OnOk, IfNone, is_some, false, All, map};
ghost use Rattle.std.specs.List.{list_any};
ghost use Rattle.std.specs.Ordering.{nat_cmp};
ghost use Rattle.std.specs.BTreeMap.{get};
ghost use Rattle.terms.specs.Lookups.{is_in};
ghost use Rattle.intake_elements.specs.StandInNames.{key_of as key_in};
ghost use Rattle.intake_sysmod.specs.Users.{run_of, IsKnown};
ghost use Rattle.intake_carry.specs.Unsure.{is_fmid, is_of, forbids_in, forbids, excludes, Meets};
ghost use Rattle.intake_carry.specs.Unsure.{AreUnsure, IsAmong, IsNamed, KeepsNamed};

use crate::left_out_sysmods::{carried_ids, left_out_of_files, users_of_all};
use crate::parts::{changes_of, id_of, key_of, vers_of};
use crate::unsure_reasons::{SharedElements, conflict_text};
use fields::Id;
use intake_read::{WideFile, WideSysmod, WideVer};
use intake_sysmod::{ElementUser, Options};
use mcs::Item;
use std::alloc::{AllocError, Global};
use std::collections::BTreeMap;
use sysmods_values::{ElemChange, Sysmod, Ver};

/// A carried SYSMOD of which it is not sure that it can be installed.
#[derive(Debug, Drop)]
pub struct Unsure {
    pub id: Id,
    /// Why not, in words, as in `MOD IEFBR14 is also changed by UI00001, which was left out`.
    pub reason: Vec<u8>,
}

// Whether the id is this text, or `false` if there is no id.
fn is_fmid(fmid: &Option<Id>, text: &[u8]) -> bool
    ensures { result ≡ is_fmid fmid.now text.now }
{
    match fmid {
        Some(fmid) => fmid.as_bytes() == text,
        None => false,
    }
}

// Whether one of the `++VER`s is for the function of this id.
fn is_for_function(vers: &[Ver], text: &[u8]) -> bool
    ensures { result ≡ list_any (λ v. is_fmid v.fmid text.now) vers.now }
{
    vers.iter().any(|ver| is_fmid(&ver.fmid, text))
}

// Whether the id is that of the SYSMOD or of a function that it is for.
fn is_of(sysmod: &Sysmod, text: &[u8]) -> bool
    ensures { result ≡ is_of sysmod.now text.now }
{
    id_of(sysmod).as_bytes() == text || is_for_function(vers_of(sysmod), text)
}

// Whether one of the ids is that of the SYSMOD or of a function that it is for.
fn names_any(ids: &[Vec<u8>], sysmod: &Sysmod) -> bool
    ensures { result ≡ list_any (λ t. is_of sysmod.now t.items) ids.now }
{
    ids.iter().any(|text| is_of(sysmod, text.as_slice()))
}

// Whether NPRE or DELETE of the `++VER` names the SYSMOD, or a function that it is for.
fn forbids_in(ver: &WideVer, sysmod: &Sysmod) -> bool
    ensures { result ≡ forbids_in ver.now sysmod.now }
{
    names_any(ver.npre.as_slice(), sysmod) || names_any(ver.delete.as_slice(), sysmod)
}

// Whether NPRE or DELETE of the SYSMOD that is left out names the other one, or a function that it is for.
fn forbids(left: &WideSysmod, sysmod: &Sysmod) -> bool
    ensures { result ≡ forbids left.now sysmod.now }
{
    left.vers.iter().any(|ver| forbids_in(ver, sysmod))
}

// Whether NPRE of the `++VER` names the id.
fn excludes_in(ver: &Ver, id: &[u8]) -> bool
    ensures { result ≡ is_in ver.now.npre id.now }
{
    ver.npre.iter().any(|excluded| id == excluded.as_bytes())
}

// Whether NPRE of the SYSMOD names the one that is left out.
fn excludes(sysmod: &Sysmod, left: &WideSysmod) -> bool
    ensures { result ≡ excludes sysmod.now left.now }
{
    vers_of(sysmod)
        .iter()
        .any(|ver| excludes_in(ver, left.id.as_slice()))
}

// Whether NPRE or DELETE of one of them names the other one.
fn are_in_conflict(left: &WideSysmod, sysmod: &Sysmod) -> bool
    ensures { result ≡ (forbids left.now sysmod.now || excludes sysmod.now left.now) }
{
    forbids(left, sysmod) || excludes(sysmod, left)
}

// The first of the SYSMODs that are left out which forbids this one, or is forbidden by it, or `None` if none does.
fn first_in_conflict<'a, 'f>(
    left: &'a [&'f WideSysmod],
    sysmod: &Sysmod,
) -> Option<&'a &'f WideSysmod>
    ensures { IfNone result (All (λ l. (forbids l.now sysmod.now || excludes sysmod.now l.now) ≡ false) left.now) }
{
    left.iter().find(|other| are_in_conflict(*other, sysmod))
}

// Whether a SYSMOD that is left out changes the element.
fn is_used(users: &BTreeMap<u64, ElementUser>, change: &ElemChange) -> bool
    ensures { result ≡ is_some (get nat_cmp users.now (key_in change.now.elem_type change.now.name)) }
{
    users.get(&key_of(change)).is_some()
}

// The first of the changes whose element is changed by a SYSMOD that is left out too, or `None` if there is none.
fn first_used<'a>(
    users: &BTreeMap<u64, ElementUser>,
    changes: &'a [ElemChange],
) -> Option<&'a ElemChange>
    ensures { IfNone result (All (λ c. is_some (get nat_cmp users.now (key_in c.elem_type c.name)) ≡ false)
        changes.now) }
{
    for change in changes {
        if is_used(users, change) {
            return Some(change);
        }
    }
    None
}

/// What is asked of each carried SYSMOD.
#[derive(Clone, Copy)]
struct Doubts<'a, 'f> {
    /// The SYSMODs that are left out.
    left: &'a [&'f WideSysmod],
    /// Which of them change an element.
    users: &'a BTreeMap<u64, ElementUser>,
    /// The same, for what is told of it.
    shared: &'a SharedElements<'f>,
    /// The elements that a function takes over by VERSION.
    taken_over: &'a SharedElements<'f>,
}

// Why it is not sure that the SYSMOD can be installed, besides elements that it shares with SYSMODs that are left out,
// or `None` if there is no such reason.
fn reason_without_shared(
    alloc: Global,
    doubts: &Doubts<'_, '_>,
    sysmod: &Sysmod,
) -> Result<Option<Vec<u8>>, AllocError>
    ensures { IfOk result (λ found. IfNone found (All (λ l. (forbids l.now sysmod.now || excludes sysmod.now l.now)
        ≡ false) doubts.now.left.now)) }
{
    let Some(other) = first_in_conflict(doubts.left, sysmod) else {
        return doubts.taken_over.text_of_any(alloc, changes_of(sysmod));
    };
    Ok(Some(conflict_text(alloc, *other, sysmod)?))
}

// Why it is not sure that the SYSMOD can be installed, or `None` if no SYSMOD that is left out has to do with it.
fn reason_for(
    alloc: Global,
    doubts: &Doubts<'_, '_>,
    sysmod: &Sysmod,
) -> Result<Option<Vec<u8>>, AllocError>
    requires { All (λ l. IsKnown doubts.now.users.now l.now) doubts.now.left.now }
    ensures { IfOk result (λ found. IfNone found (All (λ l. ¬ Meets l.now sysmod.now) doubts.now.left.now)) }
{
    let Some(change) = first_used(doubts.users, changes_of(sysmod)) else {
        return reason_without_shared(alloc, doubts, sysmod);
    };
    Ok(Some(doubts.shared.text(alloc, change)?))
}

// Adds the SYSMOD, if it is one of which it is not sure that it can be installed.
fn push_sysmod_if_unsure(
    alloc: Global,
    doubts: &Doubts<'_, '_>,
    sysmod: &Sysmod,
    unsure: &mut Vec<Unsure>,
) -> Result<(), AllocError>
    requires { All (λ l. IsKnown doubts.now.users.now l.now) doubts.now.left.now }
    ensures named { OnOk result (All (λ l. Meets l.now sysmod.now → IsAmong unsure.new.items sysmod.now.id)
        doubts.now.left.now) }
    ensures kept { OnOk result (KeepsNamed unsure.old.items unsure.new.items) }
{
    let Some(reason) = reason_for(alloc, doubts, sysmod)? else {
        return Ok(());
    };
    unsure.push(Unsure {
        id: id_of(sysmod),
        reason,
    })?;
    Ok(())
}

// Adds the SYSMOD of the item, if it is one of which it is not sure that it can be installed.
fn push_if_unsure(
    alloc: Global,
    doubts: &Doubts<'_, '_>,
    item: &Item,
    unsure: &mut Vec<Unsure>,
) -> Result<(), AllocError>
    requires { All (λ l. IsKnown doubts.now.users.now l.now) doubts.now.left.now }
    ensures named { OnOk result (IsNamed (map (λ l. l.now) doubts.now.left.now) unsure.new.items item.now) }
    ensures kept { OnOk result (KeepsNamed unsure.old.items unsure.new.items) }
{
    match item {
        Item::Sysmod(sysmod) => push_sysmod_if_unsure(alloc, doubts, sysmod, unsure),
        Item::Assign(_) => Ok(()),
    }
}

// Those of the items of which it is not sure that they can be installed.
fn unsure_among(
    alloc: Global,
    doubts: &Doubts<'_, '_>,
    items: &[Item],
) -> Result<Vec<Unsure>, AllocError>
    requires { All (λ l. IsKnown doubts.now.users.now l.now) doubts.now.left.now }
    ensures { IfOk result (λ unsure. All (IsNamed (map (λ l. l.now) doubts.now.left.now) unsure.items) items.now) }
{
    let mut unsure = Vec::new(alloc);
    for item in items {
        push_if_unsure(alloc, doubts, item, &mut unsure)?;
    }
    Ok(unsure)
}

/// The carried SYSMODs of which it is not sure that they can be installed, with the first reason for each: one that is
/// left out changes an element of theirs, or forbids them, or is forbidden by them. If stand-ins are asked for, also
/// those that change an element which a function takes over by VERSION.
pub(crate) fn unsure_sysmods(
    alloc: Global,
    options: &Options,
    files: &[WideFile],
    items: &[Item],
) -> Result<Vec<Unsure>, AllocError>
    ensures { IfOk result (λ unsure. AreUnsure (run_of files.now) items.now unsure.items) }
{
    let ids = carried_ids(alloc, items)?;
    let gathered = left_out_of_files(alloc, &ids, files)?;
    let left = gathered.as_slice();
    let users = users_of_all(alloc, left)?;
    let shared = SharedElements::of_left_out(alloc, left)?;
    let taken_over = SharedElements::taken_over(alloc, options, files)?;
    let doubts = Doubts {
        left,
        users: &users,
        shared: &shared,
        taken_over: &taken_over,
    };
    unsure_among(alloc, &doubts, items)
}
