//! Of which SYSMODs that it supersedes a SYSMOD may lack something. What lacks nothing of another SYSMOD lacks nothing
//! of all those of which this one lacks nothing. So each SYSMOD is compared first with the last one that it supersedes,
//! and not at all with those that need no comparison. Where each PTF supersedes all before it, it is compared with one.
ghost use Rattle.std.specs.Prelude.{◌≡◌, ◌++◌, filter, not, All, IsTrue, IfOk, OnOk};
ghost use Rattle.terms.specs.Lookups.{changes_of, has_change, is_in};
ghost use Rattle.sysmods.specs.Choices.{choice};
ghost use Rattle.sysmods.specs.Seen.{AddsAll};
ghost use Rattle.stream.specs.Kept.{Keeps, AreSuspects, AreKept, AreKeptOf, VerHas, AreKnown};
ghost use Rattle.stream.specs.Ordering.{is_open};

use crate::order::is_open;
use crate::requisites::{have_one_fmid, requires_or_supersedes};
use fields::{Id, IdList};
use indexmap::IndexSet;
use std::alloc::{AllocError, Global};
use std::collections::BTreeMap;
use sysmods::{GlobalZone, VerChoice};
use sysmods_values::Ver;

/// For each SYSMOD that was compared, those that it supersedes and of which it may lack something.
#[derive(Drop)]
pub(crate) struct Suspects<'a, 'b> {
    pub(crate) vers: &'a VerChoice<'b>,
    lists: BTreeMap<Id, IdList>,
}

// Whether the `++VER` names each PRE of the other one in PRE or SUP.
fn has_pres_of(ver: &Ver, other: &Ver) -> bool
    ensures { IsTrue result → All (λ z. IsTrue (is_in (ver.now.pre ++ ver.now.sup) z)) other.now.pre }
{
    other.pre.iter().all(|id| requires_or_supersedes(ver, *id))
}

// Whether the `++VER` supersedes the id.
fn supersedes(ver: &Ver, id: Id) -> bool
    ensures { result ≡ is_in ver.now.sup id }
{
    ver.supersedes(id)
}

// Whether the `++VER` names each SUP of the other one in SUP.
fn has_sups_of(ver: &Ver, other: &Ver) -> bool
    ensures { IsTrue result → All (λ z. IsTrue (is_in ver.now.sup z)) other.now.sup }
{
    other.sup.iter().all(|id| supersedes(ver, *id))
}

// Whether the `++VER` has the requisites of the other one.
fn has_requisites_of(ver: &Ver, other: &Ver) -> bool
    ensures { IsTrue result → VerHas ver.now other.now }
{
    if !have_one_fmid(ver, other) {
        return false;
    }
    if !has_pres_of(ver, other) {
        return false;
    }
    has_sups_of(ver, other)
}

// Whether x changes each element that y changes.
fn changes_all_of(global: &GlobalZone, x: Id, y: Id) -> bool
    ensures { IsTrue result
        → All (λ h. IsTrue (has_change global.now x h.elem_type h.name)) (changes_of global.now y) }
{
    global.changes_of(y).iter().all(|change| global.has_change(x, change.elem_type, change.name))
}

// Inserts the ids that the set lacks.
fn insert_all(ids: &[Id], kept: &mut IndexSet<Id>) -> Result<(), AllocError>
    ensures { OnOk result (AddsAll kept.old.keys ids.now kept.new.keys) }
{
    for id in ids {
        kept.insert(*id)?;
    }
    Ok(())
}

// Those ids of the stream that are not kept.
fn not_kept(
    alloc: Global,
    vers: &VerChoice<'_>,
    ids: &[Id],
    kept: &IndexSet<Id>,
) -> Result<Vec<Id>, AllocError>
    ensures { IfOk result (λ left. left.items ≡ filter (is_open (choice vers.now) kept.now.keys) ids.now) }
{
    ids.iter()
        .filter(|id| is_open(vers, kept, **id))
        .copied()
        .collect(alloc)
}

// Whether the id is in the list.
fn is_in(list: &IdList, id: Id) -> bool
    ensures { result ≡ is_in list.now id }
{
    list.contains(id)
}

// Those of the ids that the list lacks.
fn outside(alloc: Global, ids: &[Id], list: &IdList) -> Result<Vec<Id>, AllocError>
    ensures { IfOk result (λ left. left.items ≡ filter (λ z. not (is_in list.now z)) ids.now) }
{
    ids.iter()
        .filter(|id| !is_in(list, **id))
        .copied()
        .collect(alloc)
}

// These ids, those that have the last places first.
fn newest_first(alloc: Global, placed: &IndexSet<Id>, ids: &[Id]) -> Result<Vec<Id>, AllocError> {
    let mut places = Vec::new(alloc);
    for id in ids {
        if let Some(place) = placed.get_index_of(id) {
            places.push((place, *id))?;
        }
    }
    places.sort_unstable();
    places.iter().rev().map(|place| place.1).collect(alloc)
}

impl<'a, 'b> Suspects<'a, 'b> {
    // No SYSMOD was compared.
    fn new(alloc: Global, vers: &'a VerChoice<'b>) -> Self
        ensures known { AreKnown result }
        ensures vers { result.vers.now ≡ vers.now }
    {
        let lists = BTreeMap::new(alloc);
        Suspects { vers, lists }
    }

    /// Of these SYSMODs, which x supersedes, it may lack something. It lacks nothing of the others that it supersedes.
    pub(crate) fn of(&self, x: Id) -> &[Id]
        requires { AreKnown self.now }
        ensures { AreSuspects self.now.vers.now.global.now (choice self.now.vers.now) x result.now }
    {
        match self.lists.get(&x) {
            Some(list) => list.as_slice(),
            None => self.vers.sup(x),
        }
    }

    // Whether x lacks nothing of y.
    fn keeps(&self, x: Id, y: Id) -> bool
        ensures { IsTrue result → Keeps self.now.vers.now.global.now (choice self.now.vers.now) x y }
    {
        let Some(other) = self.vers.ver(y) else {
            return true;
        };
        let Some(ver) = self.vers.ver(x) else {
            return false;
        };
        if !has_requisites_of(ver, other) {
            return false;
        }
        changes_all_of(self.vers.global(), x, y)
    }

    // What y supersedes and lacks nothing of, as far as y was compared.
    fn kept_of(&self, alloc: Global, y: Id) -> Result<Vec<Id>, AllocError>
        requires { AreKnown self.now }
        ensures { IfOk result (λ zs. AreKeptOf self.now.vers.now.global.now (choice self.now.vers.now) y zs.items) }
    {
        let Some(suspects) = self.lists.get(&y) else {
            return Ok(Vec::new(alloc));
        };
        outside(alloc, self.vers.sup(y), suspects)
    }

    // Adds y, and what y lacks nothing of, if x lacks nothing of y.
    fn add_kept(
        &self,
        alloc: Global,
        x: Id,
        y: Id,
        kept: &mut IndexSet<Id>,
    ) -> Result<(), AllocError>
        requires { AreKnown self.now }
        ensures { OnOk result (AreKept self.now.vers.now.global.now (choice self.now.vers.now) x kept.old.keys
            → AreKept self.now.vers.now.global.now (choice self.now.vers.now) x kept.new.keys) }
    {
        if !self.keeps(x, y) {
            return Ok(());
        }
        let more = self.kept_of(alloc, y)?;
        kept.insert(y)?;
        insert_all(more.as_slice(), kept)?;
        Ok(())
    }

    // SYSMODs of which x lacks nothing. It is compared with these ids in turn, and not with what is found before.
    fn kept_by(&self, alloc: Global, x: Id, ids: &[Id]) -> Result<IndexSet<Id>, AllocError>
        requires { AreKnown self.now }
        ensures { IfOk result
            (λ kept. AreKept self.now.vers.now.global.now (choice self.now.vers.now) x kept.keys) }
    {
        let mut kept = IndexSet::new(alloc);
        for id in ids {
            if kept.contains(id) {
                continue;
            }
            self.add_kept(alloc, x, *id, &mut kept)?;
        }
        Ok(kept)
    }

    // Compares x with these ids, which it may supersede, in turn.
    fn compare(&mut self, alloc: Global, x: Id, ids: &[Id]) -> Result<(), AllocError>
        requires { AreKnown self.old }
        ensures known { OnOk result (AreKnown self.new) }
        ensures vers { self.new.vers.now ≡ self.old.vers.now }
    {
        let kept = self.kept_by(alloc, x, ids)?;
        let left = not_kept(alloc, self.vers, self.vers.sup(x), &kept)?;
        self.lists.insert(x, IdList::from_vec(left))?;
        Ok(())
    }
}

/// Compares each of these SYSMODs with those that it supersedes.
pub(crate) fn all_suspects<'a, 'b>(
    alloc: Global,
    vers: &'a VerChoice<'b>,
    placed: &IndexSet<Id>,
) -> Result<Suspects<'a, 'b>, AllocError>
    ensures known { IfOk result AreKnown }
    ensures vers { IfOk result (λ suspects. suspects.vers.now ≡ vers.now) }
{
    let mut suspects = Suspects::new(alloc, vers);
    for id in placed.as_slice() {
        let newest = newest_first(alloc, placed, vers.sup(*id))?;
        suspects.compare(alloc, *id, newest.as_slice())?;
    }
    Ok(suspects)
}
