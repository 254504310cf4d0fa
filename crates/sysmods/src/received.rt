//! The received SYSMODs.
ghost use Rattle.std.specs.Prelude.{◌≡◌, ◌++◌, false, [], ◌∷◌, length, None, Some, not, map, filter, is_some};
ghost use Rattle.std.specs.Prelude.{option_copied, IfOk, OnOk, OnErr, if◌then◌else◌};
ghost use Rattle.std.specs.List.{list_any};
ghost use Rattle.std.specs.Option.{option_map_or};
ghost use Rattle.std.specs.Ordering.{nat_cmp};
ghost use Rattle.std.specs.Cmp.Lexicographic.{slice_cmp};
ghost use Rattle.std.specs.Str.{bytes_eq};
ghost use Rattle.std.specs.BTreeSet.{IsOrdered};
ghost use Rattle.std.specs.Map.Iter.{ShowsInOrder, deref};
ghost use Rattle.terms.specs.Lookups.{is_in};
ghost use Rattle.terms.specs.Rising.{Rises, with_item};
ghost use Rattle.terms.specs.Global.{named, named_functions, names_for, with_source};
ghost use Rattle.sysmods.specs.Held.{found, zone_of};
ghost use Rattle.sysmods.specs.Namers.{namers_for, names_as_function, function_namers};
ghost use Rattle.sysmods.specs.Ways.{names_so};

use crate::index::{Index, IndexEntry};
use crate::ways::Way;
use fields::{Attest, Id, Source, Srel};
use std::alloc::{AllocError, Global};
use std::collections::btree_map::Values;
use std::collections::{BTreeMap, BTreeSet};
use std::marker::Model;
use sysmods_values::Sysmod;

/// The received SYSMODs. A contract sees their list, which rises by id.
#[derive(Drop)]
pub struct Received {
    by_id: BTreeMap<Id, Sysmod>,
    index: Index,
}

impl Model for Received {
    ghost use Rattle.std.specs.Prelude.{List};
    ghost use Rattle.std.specs.Map.{values_of};
    ghost use Rattle.terms.specs.Types as terms;
    ghost use Rattle.sysmods.specs.Held.{IsHeld};

    ghost Value = { List terms.Sysmod };

    ghost view = { λ a. values_of a.by_id.entries };

    ghost invariant = { λ a. IsHeld a.by_id.entries a.index.sets };
}

impl Received {
    /// No SYSMODs.
    pub fn new(alloc: Global) -> Received
        ensures { result ≡ [] }
    {
        Received {
            by_id: BTreeMap::new(alloc),
            index: Index::new(alloc),
        }
    }

    /// How many SYSMODs there are.
    pub fn len(&self) -> usize
        ensures { result ≡ length self.now }
    {
        self.by_id.len()
    }

    /// The SYSMOD of this id.
    pub fn get(&self, id: Id) -> Option<&Sysmod>
        ensures { option_copied result ≡ found self.now id }
    {
        self.by_id.get(&id)
    }

    /// Whether a SYSMOD of this id is received.
    pub fn contains(&self, id: Id) -> bool
        ensures { result ≡ is_some (found self.now id) }
    {
        self.by_id.contains_key(&id)
    }

    /// The SYSMODs in order.
    pub fn iter(&self) -> Values<'_, Id, Sysmod>
        ensures rest { result ≡ self.now }
        ensures runs { ShowsInOrder (deref {X = Sysmod}) }
    {
        self.by_id.values()
    }

    /// Inserts the SYSMOD and returns `None`. If one of its id is received already, nothing changes and the call
    /// returns the new one.
    pub fn insert(&mut self, sysmod: Sysmod) -> Result<Option<Sysmod>, AllocError>
        ensures back { IfOk result (λ back. back ≡ (if is_some (found self.old sysmod.id) then Some sysmod else None)) }
        ensures ok { OnOk result (self.new ≡ (if is_some (found self.old sysmod.id) then self.old else with_item
            (slice_cmp nat_cmp) (λ s. s.id) self.old sysmod)) }
        ensures err { OnErr result (self.new ≡ self.old) }
        ensures rising { Rises (slice_cmp nat_cmp) (λ s. s.id) self.old }
    {
        let id = sysmod.id;
        if self.by_id.contains_key(&id) {
            return Ok(Some(sysmod));
        }
        sysmod.attest();
        self.index.insert_sysmod(&sysmod)?;
        self.by_id.insert(id, sysmod)?;
        Ok(None)
    }

    /// Removes the SYSMOD of this id and returns it.
    pub fn remove(&mut self, id: Id) -> Option<Sysmod>
        ensures was { result ≡ found self.old id }
        ensures after { self.new ≡ filter (λ s. not (bytes_eq s.id id)) self.old }
    {
        match self.by_id.remove(&id) {
            Some(sysmod) => {
                self.index.remove_sysmod(&sysmod);
                Some(sysmod)
            }
            None => None,
        }
    }

    /// Adds the source to the SYSMOD of this id. If no such SYSMOD is received, nothing changes.
    pub fn insert_source(&mut self, id: Id, source: Source) -> Result<(), AllocError>
        ensures ok { OnOk result (self.new ≡ map (λ s. if bytes_eq s.id id then with_source source s else s) self.old) }
        ensures err { OnErr result (self.new ≡ self.old) }
    {
        let Some(sysmod) = self.by_id.get_mut(&id) else {
            return Ok(());
        };
        sysmod.insert_source(source)?;
        sysmod.attest();
        Ok(())
    }

    // Whether the SYSMOD `namer` is received and names the id in this way.
    fn names_in_way(&self, namer: Id, way: Way, id: Id) -> bool
        ensures { result ≡ option_map_or (names_so way id) (found self.now namer) false }
    {
        match self.get(namer) {
            Some(sysmod) => way.is_used_by(sysmod, id),
            None => false,
        }
    }

    // Whether one of these SYSMODs is received and names the id in this way.
    fn any_names_in_way(&self, namers: &BTreeSet<Id>, way: Way, id: Id) -> bool
        ensures { result ≡ list_any (λ y. option_map_or (names_so way id) (found self.now y) false) namers.now.keys }
    {
        namers
            .iter()
            .any(|namer| self.names_in_way(*namer, way, id))
    }

    // Whether a received SYSMOD names the id in this way. It looks only at SYSMODs that name the id in some way.
    fn is_named_in_way(&self, way: Way, id: Id) -> bool
        ensures { result ≡ list_any (names_so way id) self.now }
    {
        match self.index.sets.get(&id) {
            Some(IndexEntry::One(namer)) => self.names_in_way(*namer, way, id),
            Some(IndexEntry::More(namers)) => self.any_names_in_way(namers, way, id),
            None => false,
        }
    }

    /// Whether a received SYSMOD names the id in PRE, SUP or FMID of one of its `++VER`s. It looks only at SYSMODs that
    /// name the id in some way.
    pub fn is_named(&self, id: Id) -> bool
        ensures { result ≡ list_any (λ s. list_any (λ v. is_in (named v) id) s.vers) self.now }
    {
        self.is_named_in_way(Way::Named, id)
    }

    // Whether the SYSMOD `namer` is received and names the id in PRE, SUP or FMID of a `++VER` for the SREL.
    fn names_for(&self, namer: Id, srel: Srel, id: Id) -> bool
        ensures { result ≡ is_in (names_for (zone_of self.now) srel namer) id }
    {
        match self.get(namer) {
            Some(sysmod) => sysmod.names_for(srel, id),
            None => false,
        }
    }

    // Appends the candidate, if its SYSMOD names the id in PRE, SUP or FMID of a `++VER` for the SREL.
    fn append_if_namer(
        &self,
        candidate: Id,
        srel: Srel,
        id: Id,
        found: &mut Vec<Id>,
    ) -> Result<(), AllocError>
        ensures { OnOk result (found.new.items ≡ found.old.items
            ++ filter (λ y. is_in (names_for (zone_of self.now) srel y) id) (candidate ∷ [])) }
    {
        if self.names_for(candidate, srel, id) {
            found.push(candidate)?;
        }
        Ok(())
    }

    // Appends the candidates whose SYSMODs name the id in PRE, SUP or FMID of a `++VER` for the SREL.
    fn append_namers_among(
        &self,
        candidates: &BTreeSet<Id>,
        srel: Srel,
        id: Id,
        found: &mut Vec<Id>,
    ) -> Result<(), AllocError>
        ensures ok { OnOk result (found.new.items ≡ found.old.items
            ++ filter (λ y. is_in (names_for (zone_of self.now) srel y) id) candidates.now.keys) }
        ensures ordered { IsOrdered (slice_cmp nat_cmp) candidates.now }
    {
        for candidate in candidates.iter() {
            self.append_if_namer(*candidate, srel, id, found)?;
        }
        Ok(())
    }

    /// Appends the ids of the received SYSMODs that name the id in PRE, SUP or FMID of a `++VER` for the SREL. It looks
    /// only at SYSMODs that name the id in some way.
    pub fn append_namers(&self, srel: Srel, id: Id, found: &mut Vec<Id>) -> Result<(), AllocError>
        ensures { OnOk result (found.new.items ≡ found.old.items ++ namers_for self.now srel id) }
    {
        match self.index.sets.get(&id) {
            Some(IndexEntry::One(namer)) => self.append_if_namer(*namer, srel, id, found),
            Some(IndexEntry::More(namers)) => self.append_namers_among(namers, srel, id, found),
            None => Ok(()),
        }
    }

    // Appends the candidate, if its SYSMOD names the id as a function.
    fn append_if_function_namer(
        &self,
        candidate: Id,
        id: Id,
        found: &mut Vec<Id>,
    ) -> Result<(), AllocError>
        ensures { OnOk result (found.new.items ≡ found.old.items
            ++ filter (names_as_function self.now id) (candidate ∷ [])) }
    {
        if self.names_in_way(candidate, Way::AsFunction, id) {
            found.push(candidate)?;
        }
        Ok(())
    }

    // Appends the candidates whose SYSMODs name the id as a function.
    fn append_function_namers_among(
        &self,
        candidates: &BTreeSet<Id>,
        id: Id,
        found: &mut Vec<Id>,
    ) -> Result<(), AllocError>
        ensures ok { OnOk result (found.new.items ≡ found.old.items
            ++ filter (names_as_function self.now id) candidates.now.keys) }
        ensures ordered { IsOrdered (slice_cmp nat_cmp) candidates.now }
    {
        for candidate in candidates.iter() {
            self.append_if_function_namer(*candidate, id, found)?;
        }
        Ok(())
    }

    /// Appends the ids of the received SYSMODs that name the id as a function: in DELETE, in FMID or in an `++IF`. It
    /// looks only at SYSMODs that name the id in some way.
    pub fn append_function_namers(&self, id: Id, found: &mut Vec<Id>) -> Result<(), AllocError>
        ensures { OnOk result (found.new.items ≡ found.old.items ++ function_namers self.now id) }
    {
        match self.index.sets.get(&id) {
            Some(IndexEntry::One(namer)) => self.append_if_function_namer(*namer, id, found),
            Some(IndexEntry::More(namers)) => self.append_function_namers_among(namers, id, found),
            None => Ok(()),
        }
    }

    /// Whether the SUP of a received SYSMOD names the id.
    pub fn is_superseded(&self, id: Id) -> bool
        ensures { result ≡ list_any (λ s. list_any (λ v. is_in v.sup id) s.vers) self.now }
    {
        self.is_named_in_way(Way::Superseded, id)
    }

    /// Whether a received SYSMOD names the id as a function: in DELETE, in FMID or in an `++IF`.
    pub fn is_named_as_function(&self, id: Id) -> bool
        ensures { result ≡ list_any (λ s. list_any (λ v. is_in (named_functions v) id) s.vers) self.now }
    {
        self.is_named_in_way(Way::AsFunction, id)
    }
}
