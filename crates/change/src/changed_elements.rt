//! The elements that SYSMODs change.
ghost use Rattle.std.specs.Prelude.{◌⊎◌, AllPairs, Any, IsTrue, IsSome, IfOk};
ghost use Rattle.terms.specs.declared.kinds.ElemType.{ElemType as AType};
ghost use Rattle.terms.specs.Changes.{has_replacement};
ghost use Rattle.sysmods.specs.Choices.{choice};
ghost use Rattle.terms.specs.Deleted.{zone_less};
ghost use Rattle.terms.specs.Install.{Installation};
ghost use Rattle.terms.specs.Lookups.{element_of, has_change};
ghost use Rattle.terms.specs.Over.{IsOver};
ghost use Rattle.terms.specs.Tests.{ShareElement};
ghost use Rattle.terms.specs.Types.{Text};
ghost use Rattle.change.specs.Elements.{AreElementsAfter, IsInstallOf};

use crate::folding::element_after;
use crate::ordering::sort_by_over;
use fields::Id;
use std::alloc::{AllocError, Global};
use sysmods::Overs;
use zones::{Element, Zone, ZoneLess, changers_by_element};

/// The elements that these SYSMODs change, rising by type and name, as they are once all of the SYSMODs have taken
/// effect on the zone less the deletions. Of any two that change one element one is over the other, and what they
/// update exists.
pub(crate) fn elements_after(
    alloc: Global,
    overs: &mut Overs<'_, '_>,
    zone: &Zone,
    deletions: &[Id],
    effective: &[Id],
) -> Result<Vec<Element>, AllocError>
    requires order { AllPairs (λ x y. ShareElement overs.old.global.now x y
        → IsOver (choice overs.old) x y ⊎ IsOver (choice overs.old) y x) effective.now }
    requires some { (type : AType) (name : Text)
        → Any (λ x. IsTrue (has_change overs.old.global.now x type name)) effective.now
        → IsSome
        (element_of (zone_less overs.old.global.now (choice overs.old) deletions.now zone.now) type name)
        ⊎ Any (λ x. IsTrue (has_replacement overs.old.global.now x type name)) effective.now }
    ensures { IfOk result (λ es. (i : Installation)
        → IsInstallOf i overs.old.global.now (choice overs.old) zone.now deletions.now effective.now
        → AreElementsAfter i es.items) }
{
    let vers = overs.vers();
    let left = ZoneLess {
        vers,
        dels: deletions,
        zone,
    };
    let by_element = changers_by_element(alloc, vers.global(), effective)?;
    let mut elements = Vec::new(alloc);
    for (key, changers) in &by_element {
        let base = left.element(key.0, key.1);
        let ordered = sort_by_over(alloc, overs, changers)?;
        let changed = element_after(alloc, vers, base, key.0, key.1, &ordered)?;
        elements.push(changed)?;
    }
    Ok(elements)
}
