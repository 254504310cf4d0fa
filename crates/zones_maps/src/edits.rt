//! Edits of a zone.
ghost use Rattle.std.specs.Prelude.{◌≡◌, [], IsTrue, OnOk, OnErr};
ghost use Rattle.std.specs.Ordering.{nat_cmp};
ghost use Rattle.std.specs.Cmp.Lexicographic.{slice_cmp};
ghost use Rattle.sorted.specs.declared.edits.Edit.TheVariants.{Put, Remove};
ghost use Rattle.terms.specs.Lookups.{element_cmp, element_key, has_content, waives_applied};
ghost use Rattle.terms.specs.Rising.{with_item};
ghost use Rattle.zones_maps.specs.Delta.{AreEdits};
ghost use Rattle.sorted.specs.Edits.{edit_key};

use crate::entries::{Element, Entry};
use fields::{Attest, Id, Name};
use sorted::{Edit, Table};
use std::alloc::{AllocError, Global};
use std::marker::Model;
use terms::ElemType;

/// Which entries and elements are put and which are removed: at most one edit for each key.
#[derive(Drop)]
pub struct ZoneEdits {
    entries: Table<Edit<Entry, Id>>,
    elements: Table<Edit<Element, (ElemType, Name)>>,
}

impl Model for ZoneEdits {
    ghost use Rattle.zones_maps.specs.Delta.{ZoneEdits as SomeZoneEdits, AreEdits};

    ghost Value = { SomeZoneEdits };

    ghost view = { λ d. record { entries = d.entries; elements = d.elements } };

    ghost invariant = { λ d. AreEdits (record { entries = d.entries; elements = d.elements }) };
}

impl Attest for ZoneEdits {
    ghost use Rattle.zones_maps.specs.Delta.{AreEdits};

    ghost form = { AreEdits };

    fn attest(&self) {
        // Reading any field is enough: the checker then has the invariant of all edits.
        let _ = &self.entries;
    }
}

impl ZoneEdits {
    /// No edits.
    pub fn new(alloc: Global) -> Self
        ensures entries { result.entries ≡ [] }
        ensures elements { result.elements ≡ [] }
    {
        ZoneEdits {
            entries: Table::new(alloc),
            elements: Table::new(alloc),
        }
    }

    /// The edits of entries, rising by id.
    pub fn entries(&self) -> &[Edit<Entry, Id>]
        ensures { result.now ≡ self.now.entries }
    {
        self.entries.as_slice()
    }

    /// The edits of elements, rising by type and name.
    pub fn elements(&self) -> &[Edit<Element, (ElemType, Name)>]
        ensures { result.now ≡ self.now.elements }
    {
        self.elements.as_slice()
    }

    /// The edits of entries as a table, which `Table::edited` and `Table::prepare` take. The call also gives a proof
    /// the form of all edits.
    pub(crate) fn entry_edits(&self) -> &Table<Edit<Entry, Id>>
        ensures same { result.now ≡ self.now.entries }
        ensures form { AreEdits self.now }
    {
        &self.entries
    }

    /// The edits of elements as a table.
    pub(crate) fn element_edits(&self) -> &Table<Edit<Element, (ElemType, Name)>>
        ensures { result.now ≡ self.now.elements }
    {
        &self.elements
    }

    /// Puts an entry instead of the one of its id. The call is fastest if the ids of successive calls rise.
    pub fn put_entry(&mut self, entry: Entry) -> Result<(), AllocError>
        requires held { IsTrue (has_content entry) }
        requires waived { IsTrue (waives_applied entry) }
        ensures ok { OnOk result
            (self.new ≡ record self.old {
              entries = with_item (slice_cmp nat_cmp) (edit_key (λ e. e.id)) self.old.entries (Put entry);
            }) }
        ensures err { OnErr result (self.new ≡ self.old) }
    {
        self.entries.put(Edit::Put(entry))?;
        Ok(())
    }

    /// Removes the entry of this id.
    pub fn remove_entry(&mut self, id: Id) -> Result<(), AllocError>
        ensures ok { OnOk result
            (self.new ≡ record self.old {
              entries = with_item (slice_cmp nat_cmp) (edit_key (λ e. e.id)) self.old.entries (Remove id);
            }) }
        ensures err { OnErr result (self.new ≡ self.old) }
    {
        self.entries.put(Edit::Remove(id))?;
        Ok(())
    }

    /// Puts an element instead of the one of its type and name.
    pub fn put_element(&mut self, element: Element) -> Result<(), AllocError>
        ensures ok { OnOk result
            (self.new ≡ record self.old {
              elements = with_item element_cmp (edit_key element_key) self.old.elements (Put element);
            }) }
        ensures err { OnErr result (self.new ≡ self.old) }
    {
        self.elements.put(Edit::Put(element))?;
        Ok(())
    }

    /// Removes the element of this type and name.
    pub fn remove_element(&mut self, elem_type: ElemType, name: Name) -> Result<(), AllocError>
        ensures ok { OnOk result
            (self.new ≡ record self.old {
              elements = with_item element_cmp (edit_key element_key) self.old.elements (Remove (elem_type, name));
            }) }
        ensures err { OnErr result (self.new ≡ self.old) }
    {
        self.elements.put(Edit::Remove((elem_type, name)))?;
        Ok(())
    }
}
