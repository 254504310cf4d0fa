//! The first rule of a closed zone that a zone breaks.
ghost use Rattle.std.specs.Prelude.{◌≡◌, ◌↔◌, [], All, None, IfOk, IfSome};
ghost use Rattle.terms.specs.Choice.{counting};
ghost use Rattle.terms.specs.Closed.{IsClosedZone};
ghost use Rattle.terms.specs.Texts.{HasForm};
ghost use Rattle.sysmods.specs.Choices.{choice};
ghost use Rattle.smpe_verify.specs.FirstBreach.{first_of, entry_breach, element_breach, first_breach};
ghost use Rattle.smpe_verify.specs.Breaks.{Breaks};

use crate::breach::Breach;
use crate::element_rules::element_fault;
use crate::entry_rules::entry_fault;
use fields::IdList;
use std::alloc::{AllocError, Global};
use sysmods::{GlobalZone, VerChoice};
use zones::{Element, Zone, counting_vers};

/// The first breach of the zone: entries rising by id, then elements by type and name, and for each the rules in the
/// order of the definition. `None` if and only if the zone is closed.
pub fn first_breach(
    alloc: Global,
    global: &GlobalZone,
    zone: &Zone,
) -> Result<Option<Breach>, AllocError>
    ensures first { IfOk result
        (λ breach. breach ≡ first_breach global.now (counting global.now zone.now []) zone.now) }
    ensures none { IfOk result
        (λ breach. (breach ≡ None) ↔ IsClosedZone global.now (counting global.now zone.now []) zone.now) }
    ensures some { IfOk result
        (λ breach. IfSome breach (Breaks global.now (counting global.now zone.now []) zone.now)) }
{
    // The clauses `none` and `some` need this: in a closed zone the text of each element has the form of its type. All
    // zones have such texts, so the code has no rule for that.
    attest_texts(zone);
    find_breach(alloc, global, zone)
}

// Chooses the `++VER`s that count in the zone without any candidates, and finds the first breach by them, or `None`.
fn find_breach(
    alloc: Global,
    global: &GlobalZone,
    zone: &Zone,
) -> Result<Option<Breach>, AllocError>
    ensures { IfOk result
        (λ breach. breach ≡ first_breach global.now (counting global.now zone.now []) zone.now) }
{
    let no_candidates = IdList::new(alloc);
    let vers = counting_vers(alloc, global, zone, &no_candidates)?;
    find_breach_by_vers(alloc, &vers, zone)
}

// Finds the first breach, if these are the `++VER`s that count: the first of an entry, or else the first of an
// element, or else `None`.
fn find_breach_by_vers(
    alloc: Global,
    vers: &VerChoice<'_>,
    zone: &Zone,
) -> Result<Option<Breach>, AllocError>
    ensures { IfOk result
        (λ breach. breach ≡ first_breach vers.now.global.now (choice vers.now) zone.now) }
{
    if let Some(breach) = first_entry_breach(alloc, vers, zone)? {
        return Ok(Some(breach));
    }
    Ok(first_element_breach(vers, zone))
}

// The breach of the first entry that breaks a rule; `None` if no entry does.
fn first_entry_breach(
    alloc: Global,
    vers: &VerChoice<'_>,
    zone: &Zone,
) -> Result<Option<Breach>, AllocError>
    ensures { IfOk result (λ breach. breach
        ≡ first_of (entry_breach vers.now.global.now (choice vers.now) zone.now) zone.now.entries) }
{
    for entry in zone.entries() {
        let broken_rule = entry_fault(alloc, vers, zone, entry)?;
        if let Some(fault) = broken_rule {
            return Ok(Some(Breach::OfEntry(entry.id, fault)));
        }
    }
    Ok(None)
}

// The breach of the first element that breaks a rule; `None` if no element does.
fn first_element_breach(vers: &VerChoice<'_>, zone: &Zone) -> Option<Breach>
    ensures { result
        ≡ first_of (element_breach vers.now.global.now (choice vers.now) zone.now) zone.now.elements }
{
    for element in zone.elements() {
        if let Some(fault) = element_fault(vers, zone, element) {
            return Some(Breach::OfElement(element.elem_type, element.name, fault));
        }
    }
    None
}

// Proves that the text of each element has the form of its type. The code only looks at the elements.
fn attest_texts(zone: &Zone)
    ensures { All (λ e. HasForm e.elem_type e.text) zone.now.elements }
{
    for element in zone.elements() {
        attest_text(element);
    }
}

// Proves that the text of the element has the form of its type. The type `Element` promises that to code that reads a
// field, so this reads the text and does nothing with it.
fn attest_text(element: &Element)
    ensures { HasForm element.now.elem_type element.now.text }
{
    let _ = &element.text;
}
