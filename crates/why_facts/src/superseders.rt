//! The received SYSMODs that supersede a missing id.
ghost use Rattle.std.specs.Prelude.{◌≡◌, map, IfOk, List};
ghost use Rattle.terms.specs.Types.{Id as AnId};
ghost use Rattle.zones.specs.Scopes.{global_of};
ghost use Rattle.report.specs.Facts.{standing, is_missing, SupersederFact, AreSuperseders};
ghost use Rattle.why_facts.specs.Asking.{setting_in};
ghost use Rattle.report.specs.FactViews.{fact_view};

use crate::answers::installable_suppliers;
use crate::asking::Asking;
use crate::standing::standing;
use fields::IdList;
use report::{Fact, Standing};
use std::alloc::{AllocError, Global};
use terms::NeedKind;

// Whether the id in question is neither received nor in the zone.
fn is_missing(asking: &Asking<'_, '_>) -> bool
    ensures { result ≡ is_missing (standing (global_of asking.now.scope) asking.now.scope.zone.now asking.now.id) }
{
    let scope = &asking.scope;
    matches!(
        standing(scope.global(), scope.zone, asking.id),
        Standing::Missing
    )
}

// If the id in question is missing, the received SYSMODs that may be installed and supersede it.
fn superseders_of_missing(alloc: Global, asking: &Asking<'_, '_>) -> Result<IdList, AllocError>
    ensures { IfOk result (λ ids. AreSuperseders (setting_in asking.now) asking.now.id ids) }
{
    if !is_missing(asking) {
        return Ok(IdList::new(alloc));
    }
    // (an id that is not received does not serve itself, so those that serve a PRE of it supersede it)
    installable_suppliers(alloc, asking, NeedKind::Pre, asking.id)
}

/// If the id in question is missing, the received SYSMODs that may be installed and supersede it.
pub(crate) fn superseder_facts(
    alloc: Global,
    asking: &Asking<'_, '_>,
) -> Result<Vec<Fact<'static>>, AllocError>
    ensures { IfOk result (λ facts. (ids : List AnId) × AreSuperseders (setting_in asking.now) asking.now.id ids
        × (map fact_view facts.items ≡ map SupersederFact ids)) }
{
    let ids = superseders_of_missing(alloc, asking)?;
    let mut facts = Vec::new(alloc);
    for id in ids.as_slice() {
        facts.push(Fact::Superseder(*id))?;
    }
    Ok(facts)
}
