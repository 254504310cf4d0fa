//! The facts about an id.

use fields::{Id, IdList, Name};
use std::marker::Model;
use sysmods_values::Hold;
use terms::{ElemType, Kind, NeedKind, ZoneKind};
use zones::Entry;

/// The state of an id in a zone. `Received` means none of the states before it.
#[derive(Clone, Copy, Debug, PartialEq, Eq)]
pub enum Standing {
    /// In a distribution zone it is accepted.
    Applied(ZoneKind),
    Superseded,
    Deleted,
    Received,
    Missing,
}

/// A requisite: the SYSMOD `by` asks for the id. The function is that of an `++IF`, if one states it.
#[derive(Clone, Copy)]
pub struct Requisite {
    pub kind: NeedKind,
    pub by: Id,
    pub function: Option<Id>,
    pub id: Id,
}

impl Model for Requisite {
    ghost use Rattle.report.specs.Facts as terms;

    ghost Value = { terms.Requisite };

    ghost view = { λ r. terms.a_requisite r.kind r.by r.function r.id };

    ghost inverse = { λ r. record { kind = r.kind; by = r.by; function = r.function; id = r.id } };
}

/// How a requisite is resolved.
#[derive(Drop)]
pub enum Resolution {
    /// These supply it.
    Supplied(Vec<Id>),
    Waived,
    /// The id that asks for it would serve it.
    ByItself,
    /// These received SYSMODs would serve it.
    Open(IdList),
}

/// How a SYSMOD is related to one that made an element.
#[derive(Clone, Copy, Debug, PartialEq, Eq)]
pub enum Relation {
    Itself,
    Over,
    NotOver,
}

/// The RMID or a UMID of an element, and how the SYSMOD in question is related to it.
#[derive(Clone, Copy)]
pub struct Maker {
    pub id: Id,
    pub relation: Relation,
}

/// What the zone has of an element. It is `owned` if its owner is that of the SYSMOD in question.
#[derive(Drop)]
pub struct ElementLevel {
    pub fmid: Id,
    pub owned: bool,
    pub rmid: Maker,
    pub umids: Vec<Maker>,
}

/// A `++VER` for the zone's SREL, by its number.
#[derive(Clone, Copy)]
pub struct NumberedVer {
    pub number: usize,
    pub fmid: Option<Id>,
    pub fits: bool,
    pub counts: bool,
}

/// An element that is replaced, or else updated.
#[derive(Drop)]
pub struct ChangedElement {
    pub elem_type: ElemType,
    pub name: Name,
    pub replaces: bool,
    /// Whether its FMID is a candidate that replaces it.
    pub brought: bool,
    /// What the zone has of it, if anything.
    pub found: Option<ElementLevel>,
}

/// A fact of an id.
#[derive(Drop)]
pub enum Fact<'a> {
    /// The type is that of a received SYSMOD.
    Standing {
        id: Id,
        kind: Option<Kind>,
        standing: Standing,
    },
    /// A received SYSMOD that supersedes it, if it is `Missing`.
    Superseder(Id),
    Entry {
        kind: ZoneKind,
        entry: &'a Entry,
    },
    Ver(NumberedVer),
    Requisite {
        requisite: Requisite,
        resolution: Resolution,
    },
    /// A hold, and for an ERROR hold how its reason is resolved.
    Hold {
        hold: &'a Hold,
        resolution: Option<Resolution>,
    },
    Element(ChangedElement),
    /// An id of its DELETE, which may be one of its own chain.
    Delete {
        id: Id,
        own: bool,
    },
    /// What its DELETE takes out.
    Takes(Id),
    /// An id of its NPRE.
    Npre {
        id: Id,
        applied: bool,
    },
    /// An applied function whose NPRE has it.
    Forbidden(Id),
    /// An applied SYSMOD that needs what it supplies.
    Needed(Id),
}
