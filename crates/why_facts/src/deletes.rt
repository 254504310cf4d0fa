//! What an id deletes.
ghost use Rattle.std.specs.Prelude.{◌≡◌, [], filter, map, IfOk};
ghost use Rattle.terms.specs.Lookups.{is_in};
ghost use Rattle.terms.specs.Over.{chain};
ghost use Rattle.sysmods.specs.Choices.{choice};
ghost use Rattle.zones.specs.Gone.{is_gone};
ghost use Rattle.report.specs.Facts.{delete_facts};
ghost use Rattle.why_facts.specs.Asking.{setting_in};
ghost use Rattle.report.specs.FactViews.{fact_view};

use crate::asking::Asking;
use fields::Id;
use report::Fact;
use std::alloc::{AllocError, Global};
use sysmods::VerChoice;
use zones::{TakesOut, ZoneLess};

// Whether the chain of FMIDs from the SYSMOD `id` contains `other`.
fn chain_contains(vers: &VerChoice<'_>, id: Id, other: Id) -> bool
    ensures { result ≡ is_in (chain vers.now.global.now (choice vers.now) id) other }
{
    vers.chain_contains_any(id, &[other])
}

// The SYSMODs among these that the deletions of `less` take out of the zone.
fn deleted_among(alloc: Global, less: &ZoneLess<'_, '_>, ids: &[Id]) -> Result<Vec<Id>, AllocError>
    ensures { IfOk result (λ taken. taken.items ≡ filter (is_gone less.now) ids.now) }
{
    // Most SYSMODs delete nothing, so they need no loop over all applied ids.
    if less.dels.is_empty() {
        return Ok(Vec::new(alloc));
    }
    ids.iter()
        .filter(|id| less.takes_out(**id))
        .copied()
        .collect(alloc)
}

/// The ids that the DELETE of the SYSMOD names, and the applied SYSMODs that this DELETE takes out.
pub(crate) fn delete_facts(
    alloc: Global,
    asking: &Asking<'_, '_>,
) -> Result<Vec<Fact<'static>>, AllocError>
    ensures { IfOk result (λ facts. map fact_view facts.items ≡ delete_facts (setting_in asking.now) asking.now.id) }
{
    let scope = &asking.scope;
    let dels = scope.vers.del(asking.id);
    let less = ZoneLess {
        vers: scope.vers,
        dels,
        zone: scope.zone,
    };
    let taken = deleted_among(alloc, &less, asking.applied)?;
    let mut facts = Vec::new(alloc);
    for del in dels {
        facts.push(Fact::Delete {
            id: *del,
            own: chain_contains(scope.vers, asking.id, *del),
        })?;
    }
    for id in taken.as_slice() {
        facts.push(Fact::Takes(*id))?;
    }
    Ok(facts)
}
