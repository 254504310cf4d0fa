//! A zone: a map from ids to entries, and one from types and names to elements.
ghost use Rattle.std.specs.Prelude.{◌≡◌, ◌↔◌, [], All, IsTrue, IsSome, IfSome, IfOk, is_some, option_copied, filter};
ghost use Rattle.zones_maps.specs.Changed.{HasRoom, IsReady, delta_of};
ghost use Rattle.zones_maps.specs.Delta.{IsEdited};
ghost use Rattle.terms.specs.Types.{a_zone, is_target};
ghost use Rattle.terms.specs.Lookups.{IsRising, IsZone, entry_of, element_of, applied_of, is_applied, is_supplied};
ghost use Rattle.terms.specs.Lookups.{delby_of, has_content, waives_applied};

use crate::delta::ZoneDelta;
use crate::edits::ZoneEdits;
use crate::entries::{Applied, Element, Entry};
use fields::{Attest, Id, Name, Srel, ZoneName};
use sorted::{Prepared, Table};
use std::alloc::{AllocError, Global};
use std::marker::Model;
use terms::{ElemType, ZoneKind};

/// A target zone, with its related distribution zone, or a distribution zone.
#[derive(Drop)]
pub struct Zone {
    kind: ZoneKind,
    srel: Srel,
    related: Option<ZoneName>,
    entries: Table<Entry>,
    elements: Table<Element>,
}

impl Model for Zone {
    ghost use Rattle.terms.specs.Types.{Zone as AZone, a_zone};
    ghost use Rattle.terms.specs.Lookups.{IsZone};

    ghost Value = { AZone };

    ghost view = { λ z. a_zone z.kind z.srel z.related z.entries z.elements };

    ghost invariant = { λ z. IsZone (a_zone z.kind z.srel z.related z.entries z.elements) };
}

/// A change of a zone that can be made without memory.
#[derive(Drop)]
pub struct PreparedZone {
    entries: Prepared<Entry>,
    elements: Prepared<Element>,
}

impl Model for PreparedZone {
    ghost use Rattle.zones_maps.specs.Changed.{PreparedDelta, delta_of};
    ghost use Rattle.zones_maps.specs.Delta.{AreEdits};

    ghost Value = { PreparedDelta };

    ghost view = { λ p. record { entries = p.entries; elements = p.elements } };

    ghost invariant = { λ p. AreEdits (delta_of (record { entries = p.entries; elements = p.elements })) };
}

impl Attest for Zone {
    ghost use Rattle.terms.specs.Lookups.{IsZone};

    ghost form = { IsZone };

    fn attest(&self) {
        // Reading any field is enough: the checker then has the invariant of the whole zone.
        let _ = &self.kind;
    }
}

impl Zone {
    /// An empty zone. Only a target zone names a related zone.
    pub fn new(alloc: Global, kind: ZoneKind, srel: Srel, related: Option<ZoneName>) -> Self
        requires { is_some related ≡ is_target kind }
        ensures { result ≡ a_zone kind srel related [] [] }
    {
        Zone {
            kind,
            srel,
            related,
            entries: Table::new(alloc),
            elements: Table::new(alloc),
        }
    }

    /// The zone of these entries and elements. Returns `None` if an entry may not be in a zone, or if a target zone has
    /// no related zone or a distribution zone has one.
    pub fn from_tables(
        kind: ZoneKind,
        srel: Srel,
        related: Option<ZoneName>,
        entries: Table<Entry>,
        elements: Table<Element>,
    ) -> Option<Self>
        ensures form { IsSome result
            ↔ (All (λ e. IsTrue (has_content e)) entries × All (λ e. IsTrue (waives_applied e)) entries
            × (is_some related ≡ is_target kind)) }
        ensures same { IfSome result (λ zone. zone ≡ a_zone kind srel related entries elements) }
    {
        if related.is_some() != (kind == ZoneKind::Target) || !may_be_in_zone(entries.as_slice()) {
            return None;
        }
        // The call adds the fact that the elements rise, which the new zone's invariant needs.
        let _ = elements.as_slice();
        Some(Zone {
            kind,
            srel,
            related,
            entries,
            elements,
        })
    }

    /// Whether it is a target or a distribution zone.
    pub fn kind(&self) -> ZoneKind
        ensures { result ≡ self.now.kind }
    {
        self.kind
    }

    /// Its SREL.
    pub fn srel(&self) -> Srel
        ensures { result ≡ self.now.srel }
    {
        self.srel
    }

    /// The name of the distribution zone to which a target zone is related.
    pub fn related(&self) -> Option<ZoneName>
        ensures { result ≡ self.now.related }
    {
        self.related
    }

    /// States that the lists of each entry rise, for a caller's proof. It goes over the entries and changes nothing.
    pub fn attest_lists(&self)
        ensures lists { All (λ e. IsRising e.supby × IsRising e.waived) self.now.entries }
        ensures form { IsZone self.now }
    {
        for entry in self.entries() {
            entry.attest();
        }
    }

    /// Its entries, rising by id.
    pub fn entries(&self) -> &[Entry]
        ensures same { result.now ≡ self.now.entries }
        ensures form { IsZone self.now }
    {
        self.entries.as_slice()
    }

    /// Its elements, rising by type and name.
    pub fn elements(&self) -> &[Element]
        ensures { result.now ≡ self.now.elements }
    {
        self.elements.as_slice()
    }

    /// The entry of this id.
    pub fn entry(&self, id: Id) -> Option<&Entry>
        ensures found { option_copied result ≡ entry_of self.now id }
        ensures form { IsZone self.now }
    {
        self.entries.get(id)
    }

    /// The element of this type and name.
    pub fn element(&self, elem_type: ElemType, name: Name) -> Option<&Element>
        ensures found { option_copied result ≡ element_of self.now elem_type name }
        ensures form { IsZone self.now }
    {
        self.elements.get((elem_type, name))
    }

    /// When the id was applied, and by which `++VER`.
    pub fn applied(&self, id: Id) -> Option<Applied>
        ensures { result ≡ applied_of self.now id }
    {
        self.entry(id)?.applied
    }

    /// Whether the id is applied, or in a distribution zone accepted. Only an applied id supplies an FMID.
    pub fn is_applied(&self, id: Id) -> bool
        ensures same { result ≡ is_applied self.now id }
        ensures form { IsZone self.now }
    {
        match self.entry(id) {
            Some(entry) => entry.applied.is_some(),
            None => false,
        }
    }

    /// Whether the id is applied or superseded.
    pub fn supplies(&self, id: Id) -> bool
        ensures { result ≡ is_supplied self.now id }
    {
        match self.entry(id) {
            Some(entry) => entry.applied.is_some() || !entry.supby.is_empty(),
            None => false,
        }
    }

    /// Whether an applied function deleted the SYSMOD.
    pub fn is_deleted(&self, id: Id) -> bool
        ensures { result ≡ is_some (delby_of self.now id) }
    {
        match self.entry(id) {
            Some(entry) => entry.delby.is_some(),
            None => false,
        }
    }

    /// The ids among these that are applied, in the same order.
    pub fn applied_among(&self, alloc: Global, ids: &[Id]) -> Result<Vec<Id>, AllocError>
        ensures { IfOk result (λ found. found.items ≡ filter (is_applied self.now) ids.now) }
    {
        ids.iter()
            .filter(|id| self.is_applied(**id))
            .copied()
            .collect(alloc)
    }

    /// A new zone as the edits leave it. This one stays as it is.
    pub(crate) fn with_edits(&self, alloc: Global, edits: &ZoneEdits) -> Result<Zone, AllocError>
        ensures { IfOk result (IsEdited edits.now self.now) }
    {
        Ok(Zone {
            kind: self.kind,
            srel: self.srel,
            related: self.related,
            entries: self.entries.edited(alloc, edits.entry_edits())?,
            elements: self.elements.edited(alloc, edits.element_edits())?,
        })
    }

    /// Takes the memory for this change of the zone, so that `edit` needs none. It copies only what the delta puts.
    pub fn prepare(&self, alloc: Global, delta: &ZoneDelta) -> Result<PreparedZone, AllocError>
        ensures { IfOk result (IsReady self.now delta.now.edits) }
    {
        let edits = delta.edits();
        Ok(PreparedZone {
            entries: self.entries.prepare(alloc, edits.entry_edits())?,
            elements: self.elements.prepare(alloc, edits.element_edits())?,
        })
    }

    /// Changes the zone: puts and removes what the delta says, in time proportional to the size of both.
    pub fn edit(&mut self, prepared: PreparedZone)
        requires { HasRoom self.old prepared }
        ensures { IsEdited (delta_of prepared) self.old self.new }
    {
        let PreparedZone { entries, elements } = prepared;
        self.entries.edit(entries);
        self.elements.edit(elements);
    }
}

// Whether these entries keep the rules of a zone.
fn may_be_in_zone(entries: &[Entry]) -> bool
    ensures { IsTrue result
        ↔ (All (λ e. IsTrue (has_content e)) entries.now
        × All (λ e. IsTrue (waives_applied e)) entries.now) }
{
    entries.iter().all(|entry| entry.has_content())
        && entries.iter().all(|entry| entry.waives_only_if_applied())
}
