//! The elements that an id changes, as the zone has them.
ghost use Rattle.std.specs.Prelude.{option_map, IfOk};
ghost use Rattle.terms.specs.Beside.{Beside};
ghost use Rattle.terms.specs.Lookups.{changes_of, element_of};
ghost use Rattle.sysmods.specs.Choices.{choice};
ghost use Rattle.zones.specs.Scopes.{global_of};
ghost use Rattle.report.specs.Facts.{IsRelation, IsElementLevel, HasElementLevel, IsElementFact};
ghost use Rattle.why_facts.specs.Asking.{setting_in, view_in};
ghost use Rattle.report.specs.FactViews.{relation_view, level_view, fact_view};
ghost use Rattle.why_facts.specs.Makers.{IsMaker};

use crate::asking::Asking;
use fields::Id;
use report::{ChangedElement, ElementLevel, Fact, Maker, Relation};
use std::alloc::{AllocError, Global};
use sysmods::VerChoice;
use sysmods_values::ElemChange;
use zones::Element;

// How the SYSMOD `id` is related to the SYSMOD `other`.
fn relation_to(
    alloc: Global,
    vers: &VerChoice<'_>,
    id: Id,
    other: Id,
) -> Result<Relation, AllocError>
    ensures { IfOk result (λ relation. IsRelation (choice vers.now) id other (relation_view relation)) }
{
    if id == other {
        return Ok(Relation::Itself);
    }
    if vers.over(alloc, id, other)? {
        return Ok(Relation::Over);
    }
    Ok(Relation::NotOver)
}

// The SYSMOD `other`, which made an element, and how the SYSMOD `id` is related to it.
fn maker(alloc: Global, vers: &VerChoice<'_>, id: Id, other: Id) -> Result<Maker, AllocError>
    ensures { IfOk result (λ m. IsMaker (choice vers.now) id other m) }
{
    Ok(Maker {
        id: other,
        relation: relation_to(alloc, vers, id, other)?,
    })
}

// What the zone has of an element: its owner, its RMID and its UMIDs, and how the id is related to each of them.
fn element_in_zone(
    alloc: Global,
    asking: &Asking<'_, '_>,
    element: &Element,
) -> Result<ElementLevel, AllocError>
    ensures { IfOk result (λ f. IsElementLevel (setting_in asking.now) asking.now.id element.now (level_view f)) }
{
    let vers = asking.scope.vers;
    let id = asking.id;
    let rmid = maker(alloc, vers, id, element.rmid)?;
    let mut umids = Vec::new(alloc);
    for umid in element.umids.as_slice() {
        umids.push(maker(alloc, vers, id, *umid)?)?;
    }
    Ok(ElementLevel {
        fmid: element.fmid,
        owned: element.fmid == vers.owner(id),
        rmid,
        umids,
    })
}

// What the zone has of the element that this statement changes, if it has the element.
fn element_of_change(
    alloc: Global,
    asking: &Asking<'_, '_>,
    change: &ElemChange,
) -> Result<Option<ElementLevel>, AllocError>
    ensures { IfOk result (λ f. HasElementLevel (setting_in asking.now) asking.now.id
        (element_of (view_in asking.now) change.now.elem_type change.now.name) (option_map level_view f)) }
{
    match asking.element(change.elem_type, change.name) {
        Some(element) => Ok(Some(element_in_zone(alloc, asking, element)?)),
        None => Ok(None),
    }
}

/// The elements that the id changes, as its view of the zone has them.
pub(crate) fn element_facts(
    alloc: Global,
    asking: &Asking<'_, '_>,
) -> Result<Vec<Fact<'static>>, AllocError>
    ensures { IfOk result (λ facts. Beside (λ n h fact. IsElementFact (setting_in asking.now) asking.now.id h
        (fact_view fact)) (changes_of (global_of asking.now.scope) asking.now.id) facts.items) }
{
    let mut facts = Vec::new(alloc);
    for change in asking.scope.global().changes_of(asking.id) {
        let found = element_of_change(alloc, asking, change)?;
        facts.push(Fact::Element(ChangedElement {
            elem_type: change.elem_type,
            name: change.name,
            replaces: change.is_replacement(),
            brought: asking.is_brought(change.elem_type, change.name),
            found,
        }))?;
    }
    Ok(facts)
}
