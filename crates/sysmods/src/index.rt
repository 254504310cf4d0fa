//! For each id, the ids of the SYSMODs that name it.
ghost use Rattle.std.specs.Prelude.{IsTrue, map, IfOk, OnOk};
ghost use Rattle.terms.specs.Lookups.{at_most_one, is_in};
ghost use Rattle.sysmods.specs.Index.{has, HasAll, Grows, IsIndexed, KeepsOthers, mentions};
ghost use Rattle.sysmods.specs.Index.{members, KeepsMembers, KeepsMembersBut};

use fields::Id;
use std::alloc::{AllocError, Global};
use std::collections::{BTreeMap, BTreeSet};
use sysmods_values::{IfReq, Sysmod, Ver};

/// The entry of an id. Most ids are named by one SYSMOD, and its id needs no set on the heap.
#[derive(Drop)]
pub(crate) enum IndexEntry {
    One(Id),
    More(BTreeSet<Id>),
}

// The set of these two ids.
fn set_of_two(alloc: Global, first: Id, second: Id) -> Result<BTreeSet<Id>, AllocError>
    ensures first { IfOk result (λ set. IsTrue (is_in set.keys first)) }
    ensures second { IfOk result (λ set. IsTrue (is_in set.keys second)) }
{
    let mut set = BTreeSet::new(alloc);
    set.insert(first)?;
    set.insert(second)?;
    Ok(set)
}

impl IndexEntry {
    // Adds the namer. The second one turns a single id into a set.
    fn insert(&mut self, alloc: Global, namer: Id) -> Result<(), AllocError>
        ensures has { OnOk result (IsTrue (is_in (members self.new) namer)) }
        ensures grows { KeepsMembers self.old self.new }
    {
        let first = match self {
            IndexEntry::One(first) => *first,
            IndexEntry::More(set) => {
                set.insert(namer)?;
                return Ok(());
            }
        };
        if first == namer {
            return Ok(());
        }
        let set = set_of_two(alloc, first, namer)?;
        *self = IndexEntry::More(set);
        Ok(())
    }

    // Removes the namer from a set. A single id stays: an entry may contain ids that do not belong to it.
    fn remove(&mut self, namer: Id)
        ensures { KeepsMembersBut namer self.old self.new }
    {
        if let IndexEntry::More(set) = self {
            set.remove(&namer);
        }
    }
}

/// For each id, the ids of the SYSMODs that name it. An entry may also contain others, so a user of the index tests
/// each of them.
#[derive(Drop)]
pub(crate) struct Index {
    pub(crate) sets: BTreeMap<Id, IndexEntry>,
    alloc: Global,
}

impl Index {
    /// An index without entries.
    pub(crate) fn new(alloc: Global) -> Index {
        Index {
            sets: BTreeMap::new(alloc),
            alloc,
        }
    }

    // Adds the namer to the entry of an id that it names.
    fn insert(&mut self, named: Id, namer: Id) -> Result<(), AllocError>
        ensures has { OnOk result (IsTrue (has self.new.sets named namer)) }
        ensures grows { Grows self.old.sets self.new.sets }
    {
        if let Some(namers) = self.sets.get_mut(&named) {
            namers.insert(self.alloc, namer)?;
            return Ok(());
        }
        self.sets.insert(named, IndexEntry::One(namer))?;
        Ok(())
    }

    // Adds the namer to the entry of each of these ids.
    fn insert_all(&mut self, named: &[Id], namer: Id) -> Result<(), AllocError>
        ensures has { OnOk result (HasAll self.new.sets namer (is_in named.now)) }
        ensures grows { Grows self.old.sets self.new.sets }
    {
        for id in named {
            self.insert(*id, namer)?;
        }
        Ok(())
    }

    // Adds the namer to the entry of the function of each `++IF`.
    fn insert_functions(&mut self, conditions: &[IfReq], namer: Id) -> Result<(), AllocError>
        ensures has { OnOk result (HasAll self.new.sets namer (is_in (map (λ i. i.function) conditions.now))) }
        ensures grows { Grows self.old.sets self.new.sets }
    {
        for condition in conditions {
            self.insert(condition.function, namer)?;
        }
        Ok(())
    }

    // Adds the namer to the entry of its FMID, if it has one.
    fn insert_fmid(&mut self, fmid: Option<Id>, namer: Id) -> Result<(), AllocError>
        ensures has { OnOk result (HasAll self.new.sets namer (is_in (at_most_one fmid))) }
        ensures grows { Grows self.old.sets self.new.sets }
    {
        match fmid {
            Some(id) => self.insert(id, namer),
            None => Ok(()),
        }
    }

    // Adds the namer to the entry of each id that its `++VER` names.
    fn insert_ver(&mut self, ver: &Ver, namer: Id) -> Result<(), AllocError>
        ensures has { OnOk result (HasAll self.new.sets namer (mentions ver.now)) }
        ensures grows { Grows self.old.sets self.new.sets }
    {
        self.insert_all(ver.pre.as_slice(), namer)?;
        self.insert_all(ver.sup.as_slice(), namer)?;
        self.insert_all(ver.del.as_slice(), namer)?;
        self.insert_functions(ver.ifs.as_slice(), namer)?;
        self.insert_fmid(ver.fmid, namer)?;
        Ok(())
    }

    /// Adds the SYSMOD to the entry of each id that it names. If memory runs out, it may have been added to some of
    /// them.
    pub(crate) fn insert_sysmod(&mut self, sysmod: &Sysmod) -> Result<(), AllocError>
        ensures has { OnOk result (IsIndexed self.new.sets sysmod.now) }
        ensures grows { Grows self.old.sets self.new.sets }
    {
        for ver in sysmod.vers.iter() {
            self.insert_ver(ver, sysmod.id)?;
        }
        Ok(())
    }

    // Removes the namer from the entry of this id.
    fn remove(&mut self, named: Id, namer: Id)
        ensures { KeepsOthers namer self.old.sets self.new.sets }
    {
        if let Some(namers) = self.sets.get_mut(&named) {
            namers.remove(namer);
        }
    }

    // Removes the namer from the entry of each of these ids.
    fn remove_all(&mut self, named: &[Id], namer: Id)
        ensures { KeepsOthers namer self.old.sets self.new.sets }
    {
        for id in named {
            self.remove(*id, namer);
        }
    }

    // Removes the namer from the entry of the function of each `++IF`.
    fn remove_functions(&mut self, conditions: &[IfReq], namer: Id)
        ensures { KeepsOthers namer self.old.sets self.new.sets }
    {
        for condition in conditions {
            self.remove(condition.function, namer);
        }
    }

    // Removes the namer from the entry of each id that its `++VER` names.
    fn remove_ver(&mut self, ver: &Ver, namer: Id)
        ensures { KeepsOthers namer self.old.sets self.new.sets }
    {
        self.remove_all(ver.pre.as_slice(), namer);
        self.remove_all(ver.sup.as_slice(), namer);
        self.remove_all(ver.del.as_slice(), namer);
        self.remove_functions(ver.ifs.as_slice(), namer);
        if let Some(fmid) = ver.fmid {
            self.remove(fmid, namer);
        }
    }

    /// Removes the SYSMOD from the entry of each id that it names.
    pub(crate) fn remove_sysmod(&mut self, sysmod: &Sysmod)
        ensures { KeepsOthers sysmod.now.id self.old.sets self.new.sets }
    {
        for ver in sysmod.vers.iter() {
            self.remove_ver(ver, sysmod.id);
        }
    }
}
