//! What kept SYSMODs put into a zone.
ghost use Rattle.std.specs.Prelude.{◌≡◌, ◌≢◌, ◌↔◌, ◌⊎◌, AllPairs, Any, Contains, IsSome, IsTrue, IfOk, OnOk};
ghost use Rattle.terms.specs.declared.kinds.ElemType.{ElemType as AType};
ghost use Rattle.terms.specs.Changes.{has_replacement};
ghost use Rattle.terms.specs.Deleted.{deletions, zone_less};
ghost use Rattle.terms.specs.Lookups.{element_of, has_change};
ghost use Rattle.terms.specs.Types.{Text, Id as AnId, Zone as AZone};
ghost use Rattle.sysmods.specs.Choices.{choice};
ghost use Rattle.terms.specs.Over.{IsOver};
ghost use Rattle.terms.specs.Tests.{ShareElement};
ghost use Rattle.zones_maps.specs.Delta.{IsChanged, IsEdited, KnowsStood};
ghost use Rattle.terms.specs.Install.{HasInstalled, TakesEffect};
ghost use Rattle.change.specs.Elements.{HasBases};
ghost use Rattle.zones_maps.specs.Differing.{EachChanges};
ghost use Rattle.change.specs.Plans.{IsPlan, installation_of};
ghost use Rattle.change.specs.Puts.{AreElementEdits, with_elements, less_elements};

use crate::changed_elements::elements_after;
use crate::deleting::Deleting;
use crate::differing::{ElementEdit, add_differing_edits};
use crate::entries::put_entries;
use crate::plan::{Plan, make_plan};
use fields::{Attest, Id, IdList, YyDdd};
use sorted::{Edit, Table};
use std::alloc::{AllocError, Global};
use sysmods::Overs;
use zones::{Element, Zone, ZoneDelta, ZoneEdits, ZoneLess, deletions};

/// What is installed into which zone, by the `++VER`s that count and with the pairs of ids that are known to be over
/// each other. `bypassed` has SYSMODs with one of their bypassed requisites, in any order. What it says about other
/// SYSMODs does not matter.
#[derive(Drop)]
pub struct Installing<'a, 'b> {
    pub overs: Overs<'a, 'b>,
    pub zone: &'a Zone,
    pub kept: &'a IdList,
    pub bypassed: &'a [(Id, Id)],
    pub date: YyDdd,
}

/// What an install changes, and the kept SYSMODs that take effect. The other ones become SUPERSEDED.
#[derive(Drop)]
pub struct Installed {
    pub delta: ZoneDelta,
    pub effective: IdList,
}

/// What the kept SYSMODs put into the zone and take out of it on this date. Any SYSMODs may be kept, if of any two that
/// change one element one is over the other, and if each element that they update exists or one of them replaces it.
pub fn install(alloc: Global, installing: Installing<'_, '_>) -> Result<Installed, AllocError>
    requires order { (x y : AnId) → Contains installing.kept.now x → Contains installing.kept.now y → x ≢ y
        → ShareElement installing.overs.global.now x y
        → IsOver (choice installing.overs) x y ⊎ IsOver (choice installing.overs) y x }
    requires base { HasBases (installation_of installing) }
    ensures installs { IfOk result (λ i. (new : AZone) → IsChanged i.delta installing.entry.zone.now new →
        HasInstalled (installation_of installing.entry) new) }
    ensures differs { IfOk result (λ i. EachChanges installing.entry.zone.now i.delta.edits) }
    ensures knows { IfOk result (λ i. KnowsStood installing.entry.zone.now i.delta) }
    ensures effective { IfOk result (λ i. (x : AnId) → Contains i.effective x
        ↔ TakesEffect (installation_of installing.entry) x) }
{
    let zone = installing.zone;
    let dels = deletions(alloc, installing.overs.vers(), installing.kept.as_slice())?;
    let dels = dels.as_slice();
    let plan = make_plan(alloc, &installing, dels)?;
    let zone_edits = edits_of(alloc, installing, dels, &plan)?;
    Ok(Installed {
        delta: ZoneDelta::from_edits(alloc, zone_edits, zone)?,
        effective: plan.effective,
    })
}

// The edits of the zone: those of entries by the plan, and those of elements by the deletions and by what the SYSMODs
// that take effect change.
fn edits_of(
    alloc: Global,
    installing: Installing<'_, '_>,
    dels: &[Id],
    plan: &Plan,
) -> Result<ZoneEdits, AllocError>
    requires dels { dels.now ≡ deletions (choice installing.overs) installing.kept.now }
    requires plan { IsPlan (installation_of installing) dels.now plan.now }
    requires order { (x y : AnId) → Contains installing.kept.now x → Contains installing.kept.now y → x ≢ y
        → ShareElement installing.overs.global.now x y
        → IsOver (choice installing.overs) x y ⊎ IsOver (choice installing.overs) y x }
    requires base { HasBases (installation_of installing) }
    ensures installs { IfOk result (λ edits. (new : AZone) → IsEdited edits installing.entry.zone.now new →
        HasInstalled (installation_of installing.entry) new) }
    ensures differs { IfOk result (EachChanges installing.entry.zone.now) }
{
    let zone = installing.zone;
    zone.attest_lists();
    let vers = installing.overs.vers();
    vers.global().attest();
    let kept = installing.kept.as_slice();
    let deleting = Deleting {
        left: ZoneLess { vers, dels, zone },
        kept,
    };
    let mut zone_edits = ZoneEdits::new(alloc);
    put_entries(alloc, &deleting, plan, &mut zone_edits)?;
    let mut overs = installing.overs;
    let effective = plan.effective.as_slice();
    let edits = element_edits(alloc, &deleting, &mut overs, effective)?;
    add_differing_edits(zone, edits.into_vec(), &mut zone_edits)?;
    Ok(zone_edits)
}

// The edits of elements, whether or not they change something: what is deleted goes, and what these SYSMODs change is
// put as it is once all of them have taken effect.
fn element_edits(
    alloc: Global,
    deleting: &Deleting,
    overs: &mut Overs<'_, '_>,
    effective: &[Id],
) -> Result<Table<ElementEdit>, AllocError>
    requires order { AllPairs (λ x y. ShareElement overs.old.global.now x y
        → IsOver (choice overs.old) x y ⊎ IsOver (choice overs.old) y x) effective.now }
    requires some { (type : AType) (name : Text)
        → Any (λ x. IsTrue (has_change overs.old.global.now x type name)) effective.now
        → IsSome (element_of
        (zone_less overs.old.global.now (choice overs.old) deleting.now.left.dels.now deleting.now.left.zone.now)
        type name)
        ⊎ Any (λ x. IsTrue (has_replacement overs.old.global.now x type name)) effective.now }
    ensures { IfOk result (AreElementEdits deleting.now overs.old effective.now) }
{
    let mut edits = Table::new(alloc);
    remove_deleted_elements(deleting, &mut edits)?;
    let elements = elements_after(
        alloc,
        overs,
        deleting.left.zone,
        deleting.left.dels,
        effective,
    )?;
    put_elements(elements, &mut edits)?;
    Ok(edits)
}

// Adds a removal of each element whose owner is deleted: the owner's chain contains one of the deletions. Usually
// nothing is deleted.
fn remove_deleted_elements(
    deleting: &Deleting,
    edits: &mut Table<ElementEdit>,
) -> Result<(), AllocError>
    ensures { OnOk result (edits.new ≡ less_elements deleting.now edits.old deleting.now.left.zone.now.elements) }
{
    if deleting.left.dels.is_empty() {
        return Ok(());
    }
    for element in deleting.left.zone.elements() {
        if deleting.left.deletes(element.fmid) {
            edits.put(Edit::Remove((element.elem_type, element.name)))?;
        }
    }
    Ok(())
}

// Adds an edit that puts each of these elements. It replaces a removal of the same element.
fn put_elements(elements: Vec<Element>, edits: &mut Table<ElementEdit>) -> Result<(), AllocError>
    ensures { OnOk result (edits.new ≡ with_elements edits.old elements.items) }
{
    for element in elements {
        edits.put(Edit::Put(element))?;
    }
    Ok(())
}
