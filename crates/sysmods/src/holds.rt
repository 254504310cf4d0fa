//! The map of holds.
ghost use Rattle.std.specs.Prelude.{◌≡◌, ◌↔◌, ◌<◌, ◌^◌, [], List, length, filter, not, is_some, Some, None, Err};
ghost use Rattle.std.specs.Prelude.{IsTrue, IsSome, IsSomeAnd, IfOk, IfSome, OnOk, OnErr, option_copied, if◌then◌else◌};
ghost use Rattle.terms.specs.Global.{has_key, hold_cmp, marked};
ghost use Rattle.terms.specs.Rising.{Rises};
ghost use Rattle.terms.specs.Types as terms;
ghost use Rattle.sysmods.specs.Lists.{held, with_hold, with_holds, is_on, is_internal_on};
ghost use Rattle.sysmods.specs.Keys.{IsByKey};
ghost use Rattle.sysmods.specs.Internal.{IsNextInternal};
ghost use Rattle.sysmods.specs.Undone.{Undoes, is_restoring};

use crate::iter::Iter;
use crate::key::{HoldKey, HoldPlace};
use crate::undo::{Undo, put_each, take_back_all};
use fields::{Id, Reason};
use sorted::are_rising;
use std::alloc::{AllocError, Global};
use std::collections::BTreeMap;
use std::marker::Model;
use sysmods_values::Hold;
use terms::HoldKind;
use thiserror::Error;

/// Whether a hold is new or has replaced one.
#[derive(Clone, Copy, Debug, PartialEq, Eq)]
pub enum Placed {
    New,
    Replaced,
}

/// Why a hold is not released.
#[derive(Clone, Copy, Debug, PartialEq, Eq, Error)]
pub enum ReleaseError {
    #[error("Rl1: there is no such hold")]
    NoHold,
    #[error("Rl2: the hold is internal")]
    Internal,
}

/// Holds by id, kind and reason, at most one for each key. A contract sees them as their list in that order.
#[derive(Drop)]
pub struct Holds {
    map: BTreeMap<HoldKey, Hold>,
}

impl Model for Holds {
    ghost use Rattle.std.specs.Prelude.{List};
    ghost use Rattle.terms.specs.Types as terms;

    ghost Value = { List terms.Hold };

    ghost use Rattle.std.specs.Map.{values_of};
    ghost use Rattle.sysmods.specs.Keys.{IsByKey};

    ghost view = { λ a. values_of a.map.entries };

    ghost invariant = { λ a. IsByKey a.map.entries };
}

impl Holds {
    /// No holds.
    pub fn new(alloc: Global) -> Self
        ensures { result ≡ [] }
    {
        Holds {
            map: BTreeMap::new(alloc),
        }
    }

    /// These holds, if they rise by id, kind and reason, no key twice.
    pub fn from_vec(alloc: Global, holds: Vec<Hold>) -> Result<Option<Self>, AllocError>
        ensures some { IfOk result (λ made. IfSome made (λ all. all ≡ holds.items)) }
        ensures none { IfOk result (λ made. IsSome made ↔ Rises hold_cmp (λ h. h) holds.items) }
    {
        if !are_rising(holds.as_slice()) {
            return Ok(None);
        }
        let mut made = Holds::new(alloc);
        made.put_all(alloc, holds)?;
        Ok(Some(made))
    }

    /// How many holds there are.
    pub fn len(&self) -> usize
        ensures { result ≡ length self.now }
    {
        self.map.len()
    }

    /// Whether there is no hold.
    pub fn is_empty(&self) -> bool
        ensures { IsTrue result ↔ (self.now ≡ []) }
    {
        self.map.is_empty()
    }

    /// The hold of this key.
    pub fn get(&self, id: Id, kind: HoldKind, reason: Reason) -> Option<&Hold>
        ensures { option_copied result ≡ held self.now id kind reason }
    {
        self.map.get(&HoldKey::new(id, kind, reason))
    }

    /// All holds, in order.
    pub fn iter(&self) -> Iter<'_>
        ensures rest { result ≡ self.now }
        ensures fits { length result < 2 ^ 63 }
    {
        Iter::new(self.map.range(..))
    }

    /// The holds of a kind on an id, in order.
    pub fn holds_on(&self, id: Id, kind: HoldKind) -> Iter<'_>
        ensures rest { result ≡ filter (is_on id kind) self.now }
        ensures fits { length result < 2 ^ 63 }
    {
        let first = HoldKey {
            id,
            kind,
            place: HoldPlace::First,
        };
        let last = HoldKey {
            id,
            kind,
            place: HoldPlace::Last,
        };
        Iter::new(self.map.range(first..last))
    }

    /// Puts the hold instead of one of the same key. If that one was internal, the new one is internal too.
    pub fn put(&mut self, hold: Hold) -> Result<Placed, AllocError>
        ensures placed { IfOk result
            (λ placed. placed ≡ (if is_some (held self.old hold.id hold.kind hold.reason) then Placed.Replaced else
            Placed.New)) }
        ensures ok { OnOk result (self.new ≡ with_hold self.old hold) }
        ensures err { OnErr result (self.new ≡ self.old) }
    {
        match self.put_with_undo(hold)? {
            Undo::Remove(_) => Ok(Placed::New),
            Undo::Restore(_) => Ok(Placed::Replaced),
        }
    }

    /// Puts one hold after another, as `put` does. If memory runs out, it puts none.
    pub fn put_all(&mut self, alloc: Global, holds: Vec<Hold>) -> Result<(), AllocError>
        ensures ok { OnOk result (self.new ≡ with_holds self.old holds.items) }
        ensures err { OnErr result (self.new ≡ self.old) }
    {
        let mut log = Vec::new(alloc);
        match put_each(self, holds, &mut log) {
            Ok(()) => Ok(()),
            Err(error) => {
                take_back_all(self, log);
                Err(error)
            }
        }
    }

    /// Removes the hold of this key, unless it is internal. Returns `NoHold` if no hold has the key, and `Internal` if
    /// the hold is internal. After an error nothing has changed.
    pub fn release(&mut self, id: Id, kind: HoldKind, reason: Reason) -> Result<(), ReleaseError>
        ensures no_hold { (result ≡ Err ReleaseError.NoHold) ↔ (held self.old id kind reason ≡ None) }
        ensures internal { (result ≡ Err ReleaseError.Internal)
            ↔ IsSomeAnd (held self.old id kind reason) (λ h. IsTrue h.internal) }
        ensures ok { OnOk result (self.new ≡ filter (λ h. not (has_key id kind reason h)) self.old) }
        ensures err { OnErr result (self.new ≡ self.old) }
    {
        match self.get(id, kind, reason) {
            None => Err(ReleaseError::NoHold),
            Some(hold) if hold.internal => Err(ReleaseError::Internal),
            Some(_) => {
                drop(self.map.remove(&HoldKey::new(id, kind, reason)));
                Ok(())
            }
        }
    }

    /// Removes the internal holds on an id.
    pub fn drop_internal(&mut self, id: Id)
        ensures { self.new ≡ filter (λ h. not (is_internal_on id h)) self.old }
    {
        // ERROR is the lowest kind, so this is before all holds on the id.
        let mut from = HoldKey {
            id,
            kind: HoldKind::Error,
            place: HoldPlace::First,
        };
        while let Some(key) = next_internal(&self.map, from) {
            drop(self.map.remove(&key));
            from = key;
        }
    }

    /// Puts the hold as `put` does, and returns what undoes the change.
    pub(crate) fn put_with_undo(&mut self, hold: Hold) -> Result<Undo, AllocError>
        ensures undo { IfOk result (λ undo. is_restoring undo ≡ is_some (held self.old hold.id hold.kind hold.reason)) }
        ensures back { IfOk result (Undoes self.old self.new) }
        ensures ok { OnOk result (self.new ≡ with_hold self.old hold) }
        ensures err { OnErr result (self.new ≡ self.old) }
    {
        let key = HoldKey::of_hold(&hold);
        let hold = with_internal_mark(hold, self.map.get(&key));
        let Some(old) = self.map.insert(key, hold)? else {
            return Ok(Undo::Remove(key));
        };
        Ok(Undo::Restore(old))
    }

    /// Undoes the last change. This takes no memory, because a replaced hold comes back under a key that is present.
    pub(crate) fn take_back(&mut self, undo: Undo)
        ensures { (old : List terms.Hold) → Undoes old self.old undo → self.new ≡ old }
    {
        match undo {
            Undo::Remove(key) => drop(self.map.remove(&key)),
            Undo::Restore(hold) => drop(self.map.insert(HoldKey::of_hold(&hold), hold)),
        }
    }
}

// The key of the first internal hold on the id of this key, from this key on.
fn next_internal(map: &BTreeMap<HoldKey, Hold>, from: HoldKey) -> Option<HoldKey>
    requires { IsByKey map.now.entries }
    ensures { IsNextInternal map.now.entries from result }
{
    // USER is the highest kind, so this is after all holds on the id.
    let end = HoldKey {
        id: from.id,
        kind: HoldKind::User,
        place: HoldPlace::Last,
    };
    for (key, hold) in map.range(from..end) {
        if hold.internal {
            return Some(*key);
        }
    }
    None
}

// The hold, marked as internal also if the hold that it replaces is internal.
fn with_internal_mark(mut hold: Hold, replaced: Option<&Hold>) -> Hold
    ensures { result ≡ marked (option_copied replaced.entry) hold }
{
    if let Some(replaced) = replaced {
        hold.internal = hold.internal || replaced.internal;
    }
    hold
}
