//! How a command changes a zone.
ghost use Rattle.std.specs.Prelude.{◌≡◌, IfOk, map};
ghost use Rattle.zones_maps.specs.Delta.{IsChanged, KnowsStood, entry_stood, element_stood};

use crate::edits::ZoneEdits;
use crate::entries::{Element, Entry};
use crate::zone::Zone;
use fields::{Attest, Id, Name, VerNumber};
use sorted::{Edit, Keyed};
use std::alloc::{AllocError, Global};
use std::marker::Model;
use terms::ElemType;

/// Edits of a zone, with what the zone had at the key of each. So the store can write them without the zone.
#[derive(Drop)]
pub struct ZoneDelta {
    edits: ZoneEdits,
    numbers_before: Vec<Option<VerNumber>>,
    elements_existed: Vec<bool>,
}

impl Model for ZoneDelta {
    ghost use Rattle.zones_maps.specs.Delta.{ZoneDelta as AZoneDelta};

    ghost Value = { AZoneDelta };

    ghost view = { λ d. record {
      edits = d.edits;
      numbers_before = d.numbers_before.items;
      elements_existed = d.elements_existed.items;
    } };
}

impl Attest for ZoneDelta {
    ghost use Rattle.zones_maps.specs.Delta.{IsDelta};

    ghost form = { IsDelta };

    fn attest(&self) {
        self.edits.attest();
    }
}

impl ZoneDelta {
    /// These edits, with what the zone has at the key of each. It looks up each key in the zone once.
    pub fn from_edits(alloc: Global, edits: ZoneEdits, zone: &Zone) -> Result<ZoneDelta, AllocError>
        ensures { IfOk result (λ d. (d.edits ≡ edits) × KnowsStood zone.now d) }
    {
        let numbers_before = numbers_before(alloc, edits.entries(), zone)?;
        let elements_existed = elements_existed(alloc, edits.elements(), zone)?;
        Ok(ZoneDelta {
            edits,
            numbers_before,
            elements_existed,
        })
    }

    /// The edits of entries, rising by id.
    pub fn entries(&self) -> &[Edit<Entry, Id>]
        ensures { result.now ≡ self.now.edits.entries }
    {
        self.edits.entries()
    }

    /// The edits of elements, rising by type and name.
    pub fn elements(&self) -> &[Edit<Element, (ElemType, Name)>]
        ensures { result.now ≡ self.now.edits.elements }
    {
        self.edits.elements()
    }

    /// For each edit of an entry, the number of the `++VER` by which the old entry was installed, if there was one.
    pub fn numbers_before(&self) -> &[Option<VerNumber>]
        ensures { result.now ≡ self.now.numbers_before }
    {
        self.numbers_before.as_slice()
    }

    /// For each edit of an element, whether the zone had the element before.
    pub fn elements_existed(&self) -> &[bool]
        ensures { result.now ≡ self.now.elements_existed }
    {
        self.elements_existed.as_slice()
    }

    /// The zone as this delta changes it, beside the old one. It goes over both once, in order, and copies what stays
    /// and what the delta puts. To change a zone in place, use `Zone::prepare` and `Zone::edit`.
    pub fn apply(&self, alloc: Global, zone: &Zone) -> Result<Zone, AllocError>
        ensures { IfOk result (λ new. IsChanged self.now zone.now new) }
    {
        zone.with_edits(alloc, &self.edits)
    }

    /// The edits, without what the zone had before.
    pub(crate) fn edits(&self) -> &ZoneEdits
        ensures { result.now ≡ self.now.edits }
    {
        &self.edits
    }
}

// For each edit, the number of the `++VER` of the entry that the zone has at its key, if it has one.
fn numbers_before(
    alloc: Global,
    edits: &[Edit<Entry, Id>],
    zone: &Zone,
) -> Result<Vec<Option<VerNumber>>, AllocError>
    ensures { IfOk result (λ numbers. numbers.items ≡ map (entry_stood zone.now) edits.now) }
{
    edits
        .iter()
        .map(|edit| number_before(edit, zone))
        .collect(alloc)
}

// The number of the `++VER` of the entry that the zone has at the key of this edit, if it has one.
fn number_before(edit: &Edit<Entry, Id>, zone: &Zone) -> Option<VerNumber>
    ensures { result ≡ entry_stood zone.now edit.now }
{
    Some(zone.entry(edit.key())?.number())
}

// For each edit, whether the zone has an element at its key.
fn elements_existed(
    alloc: Global,
    edits: &[Edit<Element, (ElemType, Name)>],
    zone: &Zone,
) -> Result<Vec<bool>, AllocError>
    ensures { IfOk result (λ existed. existed.items ≡ map (element_stood zone.now) edits.now) }
{
    edits
        .iter()
        .map(|edit| element_existed(edit, zone))
        .collect(alloc)
}

// Whether the zone has an element at the key of this edit.
fn element_existed(edit: &Edit<Element, (ElemType, Name)>, zone: &Zone) -> bool
    ensures { result ≡ element_stood zone.now edit.now }
{
    let (elem_type, name) = edit.key();
    zone.element(elem_type, name).is_some()
}
