//! Which `++VER` of a SYSMOD counts.
ghost use Rattle.std.specs.Prelude.{◌≡◌, ◌↔◌, ◌-◌, ◌++◌, List, ℕ, Contains, IsTrue, IfOk, OnOk, filter};
ghost use Rattle.std.specs.Prelude.{option_copied, slice_get};
ghost use Rattle.std.specs.Str.{bytes_eq};
ghost use Rattle.terms.specs.Choice.{fmid_of, sup_of, npre_of, del_of, vers_of};
ghost use Rattle.terms.specs.Lookups.{is_in, meets};
ghost use Rattle.terms.specs.Over.{IsOver, Supersedes, chain, names, owner};
ghost use Rattle.sysmods.specs.Choices.{has_ver, picked, number_in, choice};

use crate::chain::Chain;
use crate::global_zone::GlobalZone;
use crate::search::{IdGraph, leads_to, reachable_ids};
use fields::{Id, IdList, Srel, VerNumber};
use sorted::{Keyed, Table};
use std::alloc::{AllocError, Global};
use sysmods_values::Ver;

/// The number of an id's `++VER` among those for an SREL, counted from 1.
#[derive(Clone, Copy, Debug)]
pub struct Pick {
    pub id: Id,
    pub number: VerNumber,
}

impl Keyed for Pick {
    type Key = Id;

    ghost key_of = { λ pick. pick.id };

    fn key(&self) -> Id {
        self.id
    }
}

/// Which `++VER` of each id counts for a zone, among those for the zone's SREL: the one by which the SYSMOD was
/// installed, otherwise the first one that fits the zone, and otherwise the first one.
#[derive(Drop)]
pub struct VerChoice<'a> {
    global: &'a GlobalZone,
    srel: Srel,
    // The numbers by which applied SYSMODs were installed.
    kept: Table<Pick>,
    // The numbers of the first `++VER`s that fit.
    fitting: Table<Pick>,
}

impl<'a> VerChoice<'a> {
    /// The choice of the `++VER`s for one SREL by these numbers. The kept ones take precedence.
    pub fn new(global: &'a GlobalZone, srel: Srel, kept: Table<Pick>, fitting: Table<Pick>) -> Self
        ensures global { result.global.now ≡ global.now }
        ensures srel { result.srel ≡ srel }
        ensures kept { result.kept ≡ kept }
        ensures fitting { result.fitting ≡ fitting }
    {
        VerChoice {
            global,
            srel,
            kept,
            fitting,
        }
    }

    /// The global zone of the SYSMODs.
    pub fn global(&self) -> &'a GlobalZone
        ensures { result.now ≡ self.now.global.now }
    {
        self.global
    }

    /// Whether a SYSMOD of this id is received with a `++VER` for the SREL.
    pub fn has_ver(&self, id: Id) -> bool
        ensures { result ≡ has_ver self.now.global.now self.now.srel id }
    {
        has_ver(self.global, self.srel, id)
    }

    /// The number of the `++VER` that counts.
    pub fn number(&self, id: Id) -> VerNumber
        ensures { result ≡ number_in self.now id }
    {
        match picked_number(&self.kept, id) {
            Some(number) => number,
            None => picked_number(&self.fitting, id).unwrap_or(VerNumber::FIRST),
        }
    }

    /// The `++VER` that counts, if one does.
    pub fn ver(&self, id: Id) -> Option<&'a Ver>
        ensures { option_copied result ≡ choice self.now id }
    {
        numbered_ver(self.global, self.srel, id, self.number(id))
    }

    /// Whether the `++VER` of x that counts names z in PRE, SUP or FMID.
    pub(crate) fn names(&self, x: Id, z: Id) -> bool
        ensures { result ≡ is_in (names (choice self.now) x) z }
    {
        match self.ver(x) {
            Some(ver) => ver.names(z),
            None => false,
        }
    }

    /// Appends the ids that the `++VER` of the id that counts names in PRE, SUP and FMID.
    pub(crate) fn append_named(&self, id: Id, found: &mut Vec<Id>) -> Result<(), AllocError>
        ensures { OnOk result (found.new.items ≡ found.old.items ++ names (choice self.now) id) }
    {
        match self.ver(id) {
            Some(ver) => ver.append_named(found),
            None => Ok(()),
        }
    }

    /// The FMID of the `++VER` that counts.
    pub fn fmid(&self, id: Id) -> Option<Id>
        ensures { result ≡ fmid_of (choice self.now) id }
    {
        self.ver(id)?.fmid
    }

    /// The SUP of the `++VER` that counts.
    pub fn sup(&self, id: Id) -> &'a [Id]
        ensures { result.now ≡ sup_of (choice self.now) id }
    {
        match self.ver(id) {
            Some(ver) => ver.sup.as_slice(),
            None => &[],
        }
    }

    /// The NPRE of the `++VER` that counts.
    pub fn npre(&self, id: Id) -> &'a [Id]
        ensures { result.now ≡ npre_of (choice self.now) id }
    {
        match self.ver(id) {
            Some(ver) => ver.npre.as_slice(),
            None => &[],
        }
    }

    /// The DELETE of the `++VER` that counts.
    pub fn del(&self, id: Id) -> &'a [Id]
        ensures { result.now ≡ del_of (choice self.now) id }
    {
        match self.ver(id) {
            Some(ver) => ver.del.as_slice(),
            None => &[],
        }
    }

    /// The function that owns the elements of the SYSMOD: a function owns its own, otherwise the FMID of the `++VER`
    /// that counts does. Without an FMID it is the id itself.
    pub fn owner(&self, id: Id) -> Id
        ensures { result ≡ owner self.now.global.now (choice self.now) id }
    {
        if self.global.is_function(id) {
            return id;
        }
        self.fmid(id).unwrap_or(id)
    }

    /// The id itself, its FMID, the FMID of that one, and so on.
    pub fn chain(&self, id: Id) -> Chain<'_, 'a>
        ensures { result ≡ chain self.now.global.now (choice self.now) id }
    {
        Chain::new(self, id)
    }

    /// Whether the chain of the id contains one of these ids. If `ids` is empty, the call does not walk the chain.
    pub fn chain_contains_any(&self, id: Id, ids: &[Id]) -> bool
        ensures { result ≡ meets (chain self.now.global.now (choice self.now) id) ids.now }
    {
        if ids.is_empty() {
            return false;
        }
        self.chain(id).any(|x| is_in(ids, x))
    }

    /// Whether x is over z: PRE, SUP and FMID lead from x to z.
    pub fn over(&self, alloc: Global, x: Id, z: Id) -> Result<bool, AllocError>
        ensures { IfOk result (λ over. IsTrue over ↔ IsOver (choice self.now) x z) }
    {
        leads_to(alloc, &AllNames { choice: self }, x, z)
    }

    /// The ids that x supersedes, directly or through others.
    pub fn sup_all(&self, alloc: Global, x: Id) -> Result<IdList, AllocError>
        ensures { IfOk result (λ ids. (z : List ℕ) → Contains ids z ↔ Supersedes (choice self.now) x z) }
    {
        reachable_ids(alloc, &Superseded { choice: self }, x)
    }
}

// Whether the id is one of these.
fn is_in(ids: &[Id], id: Id) -> bool
    ensures { result ≡ is_in ids.now id }
{
    ids.contains(&id)
}

// The number that these picks have for the id.
fn picked_number(picks: &Table<Pick>, id: Id) -> Option<VerNumber>
    ensures { result ≡ picked picks.now id }
{
    let pick = picks.get(id)?;
    Some(pick.number)
}

/// Whether a SYSMOD of this id is received with a `++VER` for the SREL.
pub fn has_ver(global: &GlobalZone, srel: Srel, id: Id) -> bool
    ensures { result ≡ has_ver global.now srel id }
{
    numbered_ver(global, srel, id, VerNumber::FIRST).is_some()
}

/// The `++VER` of this number among those of the SYSMOD for the SREL.
pub fn numbered_ver(global: &GlobalZone, srel: Srel, id: Id, number: VerNumber) -> Option<&Ver>
    ensures { option_copied result ≡ slice_get (vers_of global.now srel id) (number - 1) }
{
    let sysmod = global.get(id)?;
    nth_for_srel(sysmod.vers.as_slice(), srel, number.get() - 1)
}

// The `++VER` at this place among those for the SREL, counted from 0.
fn nth_for_srel<'a>(vers: &'a [Ver], srel: Srel, place: usize) -> Option<&'a Ver>
    ensures { option_copied result ≡ slice_get (filter (λ v. bytes_eq v.srel srel) vers.now) place }
{
    vers.iter().filter(|ver| ver.srel == srel).nth(place)
}

// What the `++VER` that counts names in PRE, SUP and FMID.
#[derive(Clone, Copy)]
struct AllNames<'a, 'b> {
    choice: &'a VerChoice<'b>,
}

impl IdGraph for AllNames<'_, '_> {
    ghost use Rattle.terms.specs.Over.{names};
    ghost use Rattle.sysmods.specs.Choices.{choice};

    ghost named = { λ n. names (choice n.choice.now) };

    fn append_named(&self, id: Id, found: &mut Vec<Id>) -> Result<(), AllocError> {
        self.choice.append_named(id, found)
    }
}

// What the `++VER` that counts names in SUP.
#[derive(Clone, Copy)]
struct Superseded<'a, 'b> {
    choice: &'a VerChoice<'b>,
}

impl IdGraph for Superseded<'_, '_> {
    ghost use Rattle.terms.specs.Choice.{sup_of};
    ghost use Rattle.sysmods.specs.Choices.{choice};

    ghost named = { λ n. sup_of (choice n.choice.now) };

    fn append_named(&self, id: Id, found: &mut Vec<Id>) -> Result<(), AllocError> {
        found.extend_from_slice(self.choice.sup(id))
    }
}
