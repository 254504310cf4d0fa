//! A SYSMOD grows by the statements after its header.
ghost use Rattle.std.specs.Prelude.{◌≡◌, ◌≤◌, ◌<◌, ◌&&◌, ◌==◌, ◌++◌, [], ◌∷◌, length, take, drop, position};
ghost use Rattle.std.specs.Prelude.{IsTrue, IfOk, IfErr, OnOk, OnErr};
ghost use Rattle.std.specs.List.{list_any};
ghost use Rattle.std.specs.Str.{bytes_eq};
ghost use Rattle.std.specs.Ordering.{nat_cmp};
ghost use Rattle.std.specs.Cmp.Lexicographic.{slice_cmp};
ghost use Rattle.terms.specs.Types.{Change as AnyChange, type_number};
ghost use Rattle.terms.specs.declared.kinds.HoldKind.TheVariants.{System};
ghost use Rattle.terms.specs.Rising.{Rises, Splits, StandsAt, with_item};
ghost use Rattle.terms.specs.Lookups.{is_before};
ghost use Rattle.terms.specs.Global.{change_cmp};
ghost use Rattle.terms.specs.Ptfin.{begun, place_of, with_ver_at, with_if_at};

use crate::{ElemChange, Hold, IfReq, Sysmod, Ver};
use fields::{Id, Name, SourceList, Srel};
use std::alloc::{AllocError, Global};
use terms::{ElemType, Kind};

impl Sysmod {
    /// The SYSMOD of a header, without further statements.
    pub fn new(alloc: Global, kind: Kind, id: Id) -> Sysmod
        ensures { result ≡ (begun kind id).sysmod }
    {
        Sysmod {
            id,
            kind,
            sources: SourceList::new(alloc),
            vers: Vec::new(alloc),
            changes: Vec::new(alloc),
            holds: Vec::new(alloc),
        }
    }

    /// Whether it changes the element.
    pub fn has_change(&self, elem_type: ElemType, name: Name) -> bool
        ensures { result ≡ list_any (λ c. (type_number c.elem_type == type_number elem_type) && bytes_eq c.name name)
            self.now.changes }
    {
        self.changes
            .iter()
            .any(|change| change.is_about(elem_type, name))
    }

    /// Puts the `++VER` after those of its release and of earlier releases, and returns its place.
    pub fn insert_ver(&mut self, ver: Ver) -> Result<usize, AllocError>
        ensures ok { IfOk result (λ n. (n ≡ place_of ver self.old.vers)
            × (self.new ≡ record self.old { vers = with_ver_at n ver self.old.vers })) }
    {
        let place = ver_place(&self.vers, &ver);
        self.vers.insert(place, ver)?;
        Ok(place)
    }

    /// Puts the `++IF` after those of the `++VER` at this place. If no `++VER` is there, nothing changes.
    pub fn push_if(&mut self, place: usize, condition: IfReq) -> Result<(), AllocError>
        ensures ok { IfOk result (λ u. self.new
            ≡ record self.old { vers = with_if_at condition self.old.vers place }) }
    {
        if let Some(ver) = self.vers.get_mut(place) {
            ver.push_if(condition)?;
        }
        Ok(())
    }

    /// Puts the hold after the others.
    pub fn push_hold(&mut self, hold: Hold) -> Result<(), AllocError>
        requires { IsTrue hold.internal × (hold.kind ≡ System) × (hold.id ≡ self.old.id) }
        ensures ok { OnOk result (self.new ≡ record self.old { holds = self.old.holds ++ hold ∷ [] }) }
        ensures err { OnErr result (self.new ≡ self.old) }
    {
        self.holds.push(hold)?;
        Ok(())
    }

    /// Puts the element statement at its place, instead of one for the same element.
    pub fn insert_change(&mut self, change: ElemChange) -> Result<(), AllocError>
        ensures ok { OnOk result (self.new ≡ record self.old {
          changes = with_item change_cmp
              (λ c. c) self.old.changes change;
        }) }
        ensures err { OnErr result (self.new ≡ self.old) }
    {
        match change_place(&self.changes, &change) {
            Ok(place) => self.changes[place] = change,
            Err(place) => self.changes.insert(place, change)?,
        }
        Ok(())
    }
}

// The place of the first `++VER` for a later release.
fn first_later_place(vers: &[Ver], srel: Srel) -> Option<usize>
    ensures { result ≡ position (λ v. is_before srel v.srel) vers.now }
{
    vers.iter().position(|ver| srel < ver.srel)
}

// The place after the `++VER`s of its release and of earlier releases.
fn ver_place(vers: &[Ver], ver: &Ver) -> usize
    ensures { result ≡ place_of ver.now vers.now }
{
    match first_later_place(vers, ver.srel) {
        Some(place) => place,
        None => vers.len(),
    }
}

// The place of the statement for the same element, or as the error the place at which to insert this one.
fn change_place(changes: &[ElemChange], change: &ElemChange) -> Result<usize, usize>
    requires { Rises change_cmp (λ c. c) changes.now }
    ensures found { IfOk result
        (λ i. (i < length changes.now) × ((x : AnyChange) × StandsAt change_cmp (λ c. c) change.now changes.now i x)) }
    ensures missing { IfErr result
        (λ i. (i ≤ length changes.now) × Splits change_cmp (λ c. c) change.now (take i changes.now)
        (drop i changes.now)) }
{
    changes.binary_search_by(|other| other.cmp_element(change))
}
