//! What a zone records about a SYSMOD and about an element.
ghost use Rattle.std.specs.Prelude.{◌≡◌};
ghost use Rattle.terms.specs.Types.{an_applied};
ghost use Rattle.terms.specs.Lookups.{has_content, waives_applied};
ghost use Rattle.zones_maps.specs.Delta.{number_of};

use fields::{Attest, Id, IdList, Name, VerNumber, YyDdd};
use sorted::{Keyed, TryClone};
use std::alloc::{AllocError, Global};
use std::marker::Model;
use terms::ElemType;
use text80::Line;

/// When a zone applied a SYSMOD, and by which of its `++VER`s for the zone's SREL, counted from 1.
#[derive(Clone, Copy, Debug, PartialEq, Eq)]
pub struct Applied {
    pub date: YyDdd,
    pub number: VerNumber,
}

impl Model for Applied {
    ghost use Rattle.terms.specs.Types as terms;

    ghost Value = { terms.Applied };

    ghost view = { λ a. terms.an_applied a.date a.number };

    ghost inverse = { λ a. record { date = a.date; number = a.number } };
}

impl Applied {
    /// Applied on this date, by the first `++VER` for the zone's SREL.
    pub fn on(date: YyDdd) -> Applied
        ensures { result ≡ an_applied date 1 }
    {
        Applied {
            date,
            number: VerNumber::FIRST,
        }
    }
}

/// A SYSMOD entry: whether it is applied, which applied SYSMODs supersede it, which function deleted
/// it, and which of its requisites were bypassed.
#[derive(Drop)]
pub struct Entry {
    pub id: Id,
    pub applied: Option<Applied>,
    pub supby: IdList,
    pub delby: Option<Id>,
    pub waived: IdList,
}

impl Model for Entry {
    ghost use Rattle.terms.specs.Types.{Entry as SysmodEntry};

    ghost Value = { SysmodEntry };

    ghost view = { λ e. record {
      id = e.id;
      applied = e.applied;
      supby = e.supby;
      delby = e.delby;
      waived = e.waived;
    } };
}

impl Entry {
    /// Whether the SYSMOD is applied, superseded or deleted. A zone has no entries of other SYSMODs.
    pub fn has_content(&self) -> bool
        ensures { result ≡ has_content self.now }
    {
        self.applied.is_some() || !self.supby.is_empty() || self.delby.is_some()
    }

    /// The number of the `++VER` by which the SYSMOD is installed, or 1 if it is not applied.
    pub fn number(&self) -> VerNumber
        ensures { result ≡ number_of self.now }
    {
        match self.applied {
            Some(applied) => applied.number,
            None => VerNumber::FIRST,
        }
    }

    /// Whether the SYSMOD is applied, or none of its requisites were bypassed. In a zone this holds of each entry.
    pub fn waives_only_if_applied(&self) -> bool
        ensures { result ≡ waives_applied self.now }
    {
        self.applied.is_some() || self.waived.is_empty()
    }
}

impl Attest for Entry {
    ghost use Rattle.terms.specs.Lookups.{IsRising};

    ghost form = { λ e. IsRising e.supby × IsRising e.waived };

    fn attest(&self) {
        self.supby.attest();
        self.waived.attest();
    }
}

impl Keyed for Entry {
    type Key = Id;

    ghost key_of = { λ e. e.id };

    fn key(&self) -> Id {
        self.id
    }
}

impl TryClone for Entry {
    fn try_clone(&self, alloc: Global) -> Result<Self, AllocError> {
        Ok(Entry {
            id: self.id,
            applied: self.applied,
            supby: self.supby.try_clone(alloc)?,
            delby: self.delby,
            waived: self.waived.try_clone(alloc)?,
        })
    }
}

/// An element entry: the function that owns it, the SYSMOD that last replaced it, those that updated
/// it since, its libraries and its records, which are numbered in MAC and SRC elements.
#[derive(Drop)]
pub struct Element {
    pub elem_type: ElemType,
    pub name: Name,
    pub fmid: Id,
    pub rmid: Id,
    pub umids: IdList,
    pub distlib: Name,
    pub syslib: Name,
    pub text: Vec<Line>,
}

impl Model for Element {
    ghost use Rattle.terms.specs.Types.{Element as ElementEntry};
    ghost use Rattle.terms.specs.Texts.{HasForm};

    ghost Value = { ElementEntry };

    ghost view = { λ e. record {
      elem_type = e.elem_type;
      name = e.name;
      fmid = e.fmid;
      rmid = e.rmid;
      umids = e.umids;
      distlib = e.distlib;
      syslib = e.syslib;
      text = e.text.items;
    } };

    ghost invariant = { λ e. HasForm e.elem_type e.text.items };
}

impl Keyed for Element {
    type Key = (ElemType, Name);

    ghost key_of = { λ e. (e.elem_type, e.name) };

    fn key(&self) -> (ElemType, Name) {
        (self.elem_type, self.name)
    }
}

impl TryClone for Element {
    fn try_clone(&self, alloc: Global) -> Result<Self, AllocError> {
        Ok(Element {
            elem_type: self.elem_type,
            name: self.name,
            fmid: self.fmid,
            rmid: self.rmid,
            umids: self.umids.try_clone(alloc)?,
            distlib: self.distlib,
            syslib: self.syslib,
            text: Vec::from_slice(alloc, self.text.as_slice())?,
        })
    }
}
