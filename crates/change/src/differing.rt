//! Edits of a zone, which are added only if they change something.
ghost use Rattle.std.specs.Prelude.{◌≡◌, [], IsTrue, OnOk};
ghost use Rattle.terms.specs.Lookups.{element_cmp, element_key, has_content, waives_applied};
ghost use Rattle.terms.specs.Rising.{Rises};
ghost use Rattle.sorted.specs.Edits.{edit_key};
ghost use Rattle.sorted.specs.declared.edits.Edit.TheVariants.{Put, Remove};
ghost use Rattle.zones_maps.specs.Differing.{AddsEntryEdit, AddsElementEdit, HasEditedElements};

use fields::{Id, Name};
use sorted::Edit;
use std::alloc::AllocError;
use terms::ElemType;
use zones::{Element, Entry, Zone, ZoneEdits, are_same_entries, is_same_as_existing};

/// Puts an element, or removes the element of a type and a name.
pub(crate) type ElementEdit = Edit<Element, (ElemType, Name)>;

/// Puts the entry, unless the zone already has the same one.
pub(crate) fn put_differing_entry(
    zone: &Zone,
    entry: Entry,
    zone_edits: &mut ZoneEdits,
) -> Result<(), AllocError>
    requires held { IsTrue (has_content entry) }
    requires waived { IsTrue (waives_applied entry) }
    ensures { OnOk result (AddsEntryEdit zone.now (Put entry) zone_edits.old zone_edits.new) }
{
    if let Some(old) = zone.entry(entry.id)
        && are_same_entries(old, &entry)
    {
        return Ok(());
    }
    zone_edits.put_entry(entry)
}

/// Removes the entry, if the zone has it.
pub(crate) fn remove_existing_entry(
    zone: &Zone,
    id: Id,
    zone_edits: &mut ZoneEdits,
) -> Result<(), AllocError>
    ensures { OnOk result (AddsEntryEdit zone.now (Remove id) zone_edits.old zone_edits.new) }
{
    if zone.entry(id).is_none() {
        return Ok(());
    }
    zone_edits.remove_entry(id)
}

/// Adds those of these edits of elements that change something.
pub(crate) fn add_differing_edits(
    zone: &Zone,
    edits: Vec<ElementEdit>,
    zone_edits: &mut ZoneEdits,
) -> Result<(), AllocError>
    requires empty { zone_edits.old.elements ≡ [] }
    requires rising { Rises element_cmp (edit_key element_key) edits.items }
    ensures { OnOk result (HasEditedElements zone.now edits.items zone_edits.old zone_edits.new) }
{
    for edit in edits {
        add_differing_edit(zone, edit, zone_edits)?;
    }
    Ok(())
}

// Puts the element, unless the zone already has the same one, or removes it, if the zone has it.
fn add_differing_edit(
    zone: &Zone,
    edit: ElementEdit,
    zone_edits: &mut ZoneEdits,
) -> Result<(), AllocError>
    ensures { OnOk result (AddsElementEdit zone.now edit zone_edits.old zone_edits.new) }
{
    match edit {
        Edit::Put(element) => {
            if is_same_as_existing(&element, zone.element(element.elem_type, element.name)) {
                return Ok(());
            }
            zone_edits.put_element(element)
        }
        Edit::Remove((elem_type, name)) => {
            if zone.element(elem_type, name).is_none() {
                return Ok(());
            }
            zone_edits.remove_element(elem_type, name)
        }
    }
}
