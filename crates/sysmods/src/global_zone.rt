//! The received SYSMODs and the holds.
ghost use Rattle.std.specs.Prelude.{◌≡◌, ◌↔◌, ◌<◌, ◌^◌, ◌++◌, [], length, None, Ok, Err, IsTrue, IsOk, IfOk, IfErr};
ghost use Rattle.std.specs.Prelude.{OnOk};
ghost use Rattle.std.specs.Prelude.{OnErr, option_copied, if◌then◌else◌};
ghost use Rattle.std.specs.Map.Iter.{ShowsInOrder, deref};
ghost use Rattle.std.specs.Option.{option_map_or};
ghost use Rattle.terms.specs.declared.kinds.HoldKind.TheVariants.{System};
ghost use Rattle.terms.specs.Types.{Id as AnId};
ghost use Rattle.terms.specs.Lookups.{sysmod_of, changes_of, change_of, has_change, is_received, is_function, holds_of};
ghost use Rattle.terms.specs.Changes.{has_replacement};
ghost use Rattle.terms.specs.Global.{IsGlobal, hold_of, is_replacing, hold as with_hold, release as released};
ghost use Rattle.terms.specs.Global.{Receives, assign as assigned, without_sysmod};
ghost use Rattle.terms.specs.Types.{a_global};
ghost use Rattle.sysmods.specs.Namers.{namers_for, function_namers};
ghost use Rattle.sysmods.specs.Faults.{a_release, release_fault};
ghost use Rattle.sysmods.specs.Refused.{IsRefused};
ghost use Rattle.sysmods.specs.Parts.{IsMadeOf};

use crate::holds::{Holds, Placed, ReleaseError};
use crate::iter::Iter;
use crate::parts::{build_received, have_owners_if_internal};
use crate::receive::{check_receivable, insert_with_holds};
use crate::received::Received;
use crate::refused::Refused;
use fields::{Attest, Id, Name, Reason, Source, Srel};
use std::alloc::{AllocError, Global};
use std::collections::btree_map::Values;
use std::marker::Model;
use sysmods_values::{ElemChange, Hold, Sysmod, Ver};
use terms::{ElemType, HoldKind, Kind};
use thiserror::Error;

/// Why a SYSMOD is not rejected. This does not say whether a zone has it applied.
#[derive(Clone, Copy, Debug, PartialEq, Eq, Error)]
pub enum RejectError {
    #[error("Rj2: the SYSMOD is not received")]
    NotReceived,
}

/// The global zone: all that was received. SYSMODs rise by id, and holds by id, kind and reason.
#[derive(Drop)]
pub struct GlobalZone {
    sysmods: Received,
    holds: Holds,
}

impl Model for GlobalZone {
    ghost use Rattle.terms.specs.Types.{Global as AGlobal};

    ghost Value = { AGlobal };

    ghost use Rattle.terms.specs.Types.{a_global};
    ghost use Rattle.terms.specs.Global.{IsGlobal};

    ghost view = { λ g. a_global g.sysmods g.holds };

    ghost invariant = { λ g. IsGlobal (a_global g.sysmods g.holds) };
}

impl Attest for GlobalZone {
    ghost use Rattle.terms.specs.Global.{IsGlobal};

    ghost form = { IsGlobal };

    fn attest(&self) {
        // Reading any field is enough: the checker then has the invariant of the whole zone.
        let _ = &self.sysmods;
    }
}

impl GlobalZone {
    /// A global zone that has received nothing.
    pub fn new(alloc: Global) -> Self
        ensures sysmods { result.sysmods ≡ [] }
        ensures holds { result.holds ≡ [] }
    {
        GlobalZone {
            sysmods: Received::new(alloc),
            holds: Holds::new(alloc),
        }
    }

    /// The global zone of just these SYSMODs and holds, or `None` if there is none.
    pub fn from_parts(
        alloc: Global,
        sysmods: Vec<Sysmod>,
        holds: Vec<Hold>,
    ) -> Result<Option<Self>, AllocError>
        ensures { IfOk result (IsMadeOf (a_global sysmods.items holds.items)) }
    {
        let Some(sysmods) = build_received(alloc, sysmods)? else {
            return Ok(None);
        };
        if !have_owners_if_internal(&sysmods, holds.as_slice()) {
            return Ok(None);
        }
        let Some(holds) = Holds::from_vec(alloc, holds)? else {
            return Ok(None);
        };
        Ok(Some(GlobalZone { sysmods, holds }))
    }

    /// How many SYSMODs are received.
    pub fn len(&self) -> usize
        ensures { result ≡ length self.now.sysmods }
    {
        self.sysmods.len()
    }

    /// Whether no SYSMOD is received.
    pub fn is_empty(&self) -> bool
        ensures { IsTrue result ↔ (self.now.sysmods ≡ []) }
    {
        self.sysmods.len() == 0
    }

    /// The received SYSMODs, in order.
    pub fn sysmods(&self) -> Values<'_, Id, Sysmod>
        ensures rest { result ≡ self.now.sysmods }
        ensures form { IsGlobal self.now }
        ensures runs { ShowsInOrder (deref {X = Sysmod}) }
    {
        self.sysmods.iter()
    }

    /// The holds, in order.
    pub fn holds(&self) -> Iter<'_>
        ensures rest { result ≡ self.now.holds }
        ensures fits { length result < 2 ^ 63 }
    {
        self.holds.iter()
    }

    /// The received SYSMOD of this id.
    pub fn get(&self, id: Id) -> Option<&Sysmod>
        ensures { option_copied result ≡ sysmod_of self.now id }
    {
        self.sysmods.get(id)
    }

    /// Whether a SYSMOD of this id is received.
    pub fn is_received(&self, id: Id) -> bool
        ensures { result ≡ is_received self.now id }
    {
        self.sysmods.get(id).is_some()
    }

    /// Appends the ids of the received SYSMODs that name the id in PRE, SUP or FMID of a `++VER` for the SREL. It looks
    /// only at SYSMODs that name the id in some way.
    pub fn append_namers(&self, srel: Srel, id: Id, found: &mut Vec<Id>) -> Result<(), AllocError>
        ensures { OnOk result (found.new.items ≡ found.old.items ++ namers_for self.now.sysmods srel id) }
    {
        self.sysmods.append_namers(srel, id, found)
    }

    /// Appends the ids of the received SYSMODs that name the id as a function: in DELETE, in FMID or in an `++IF`. It
    /// looks only at SYSMODs that name the id in some way.
    pub fn append_function_namers(&self, id: Id, found: &mut Vec<Id>) -> Result<(), AllocError>
        ensures { OnOk result (found.new.items ≡ found.old.items ++ function_namers self.now.sysmods id) }
    {
        self.sysmods.append_function_namers(id, found)
    }

    /// The `++VER`s of the SYSMOD for all SRELs, or none if it is not received.
    pub fn vers_of(&self, id: Id) -> &[Ver]
        ensures { result.now ≡ option_map_or (λ s. s.vers) (sysmod_of self.now id) [] }
    {
        match self.get(id) {
            Some(sysmod) => sysmod.vers.as_slice(),
            None => &[],
        }
    }

    /// The element statements of the SYSMOD, or none if it is not received.
    pub fn changes_of(&self, id: Id) -> &[ElemChange]
        ensures { result.now ≡ changes_of self.now id }
    {
        match self.get(id) {
            Some(sysmod) => sysmod.changes.as_slice(),
            None => &[],
        }
    }

    /// The SYSMOD's statement about the element of this type and name, if it is received and has one.
    pub fn change_of(&self, id: Id, elem_type: ElemType, name: Name) -> Option<&ElemChange>
        ensures { option_copied result ≡ change_of self.now id elem_type name }
    {
        self.changes_of(id)
            .iter()
            .find(|change| change.is_about(elem_type, name))
    }

    /// Whether the SYSMOD is received and changes the element.
    pub fn has_change(&self, id: Id, elem_type: ElemType, name: Name) -> bool
        ensures { result ≡ has_change self.now id elem_type name }
    {
        self.change_of(id, elem_type, name).is_some()
    }

    /// Whether the SYSMOD is received and replaces the element.
    pub fn has_replacement(&self, id: Id, elem_type: ElemType, name: Name) -> bool
        ensures { result ≡ has_replacement self.now id elem_type name }
    {
        match self.change_of(id, elem_type, name) {
            Some(change) => change.is_replacement(),
            None => false,
        }
    }

    /// Whether a function of this id is received.
    pub fn is_function(&self, id: Id) -> bool
        ensures { result ≡ is_function self.now id }
    {
        match self.get(id) {
            Some(sysmod) => sysmod.kind == Kind::Function,
            None => false,
        }
    }

    /// The hold of this key.
    pub fn hold_of(&self, id: Id, kind: HoldKind, reason: Reason) -> Option<&Hold>
        ensures { option_copied result ≡ hold_of self.now id kind reason }
    {
        self.holds.get(id, kind, reason)
    }

    /// The holds of a kind on an id, which need not be received.
    pub fn holds_of(&self, kind: HoldKind, id: Id) -> Iter<'_>
        ensures rest { result ≡ holds_of self.now kind id }
        ensures fits { length result < 2 ^ 63 }
    {
        self.holds.holds_on(id, kind)
    }

    /// Receives the SYSMOD with its holds. Returns the first fault for which RECEIVE refuses it, or `Memory`, and then
    /// changes nothing.
    pub fn receive(&mut self, alloc: Global, sysmod: Sysmod) -> Result<(), Refused>
        ensures ok { OnOk result (Receives self.old sysmod (Ok self.new)) }
        ensures refused { IfErr result (IsRefused self.old sysmod) }
        ensures err { OnErr result (self.new ≡ self.old) }
    {
        check_receivable(alloc, &self.sysmods, &sysmod)?;
        sysmod.attest();
        insert_with_holds(alloc, &mut self.sysmods, &mut self.holds, sysmod)?;
        Ok(())
    }

    /// Puts the hold instead of one of the same key. If that one was internal, the new one is internal too.
    pub fn hold(&mut self, hold: Hold) -> Result<Placed, AllocError>
        requires { IsTrue hold.internal → (hold.kind ≡ System) × IsTrue (is_received self.old hold.id) }
        ensures placed { IfOk result
            (λ placed. placed ≡ (if is_replacing self.old hold then Placed.Replaced else Placed.New)) }
        ensures ok { OnOk result (self.new ≡ with_hold self.old hold) }
        ensures err { OnErr result (self.new ≡ self.old) }
    {
        self.holds.put(hold)
    }

    /// Removes the hold of this key, unless it is internal. Returns `NoHold` if no hold has the key, and `Internal` if
    /// the hold is internal. After an error nothing has changed.
    pub fn release(&mut self, id: Id, kind: HoldKind, reason: Reason) -> Result<(), ReleaseError>
        ensures ok { OnOk result
            ((fmid : AnId) → released self.old (a_release id kind reason fmid) ≡ Ok self.new) }
        ensures refused { IfErr result
            (λ e. (fmid : AnId)
            → released self.old (a_release id kind reason fmid) ≡ Err (release_fault e)) }
        ensures err { OnErr result (self.new ≡ self.old) }
    {
        self.holds.release(id, kind, reason)
    }

    /// Gives the SYSMOD of this id the source, and returns whether it is received. If it is not, nothing changes.
    pub fn assign(&mut self, source: Source, id: Id) -> Result<bool, AllocError>
        ensures received { IfOk result (λ received. received ≡ is_received self.old id) }
        ensures ok { OnOk result (self.new ≡ assigned self.old source id) }
        ensures err { OnErr result (self.new ≡ self.old) }
    {
        let received = self.is_received(id);
        self.sysmods.insert_source(id, source)?;
        Ok(received)
    }

    /// Removes the SYSMOD of this id, with the holds on it that are internal. Returns `NotReceived`, and changes
    /// nothing, if no such SYSMOD is received.
    pub fn reject(&mut self, id: Id) -> Result<(), RejectError>
        ensures received { IsOk result ↔ IsTrue (is_received self.old id) }
        ensures ok { OnOk result (self.new ≡ without_sysmod self.old id) }
        ensures err { OnErr result (self.new ≡ self.old) }
    {
        if !self.is_received(id) {
            return Err(RejectError::NotReceived);
        }
        drop(self.sysmods.remove(id));
        self.holds.drop_internal(id);
        Ok(())
    }
}
