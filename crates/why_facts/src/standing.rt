//! The state of an id, and its entry.
ghost use Rattle.std.specs.Prelude.{◌≡◌, not, option_map, IfOk, map};
ghost use Rattle.terms.specs.Lookups.{is_nil, sysmod_of, supby_of};
ghost use Rattle.report.specs.Facts.{standing, standing_facts};
ghost use Rattle.report.specs.FactViews.{standing_view, fact_view};

use fields::Id;
use report::{Fact, Standing};
use std::alloc::{AllocError, Global};
use sysmods::GlobalZone;
use terms::Kind;
use zones::Zone;

// Whether the entry of the id names SYSMODs that supersede it.
fn is_superseded(zone: &Zone, id: Id) -> bool
    ensures { result ≡ not (is_nil (supby_of zone.now id)) }
{
    zone.entry(id).is_some_and(|entry| !entry.supby.is_empty())
}

/// The state of the id in the zone. For an id with no state there, it says whether the id is received.
pub(crate) fn standing(global: &GlobalZone, zone: &Zone, id: Id) -> Standing
    ensures { standing_view result ≡ standing global.now zone.now id }
{
    if zone.is_applied(id) {
        return Standing::Applied(zone.kind());
    }
    if is_superseded(zone, id) {
        return Standing::Superseded;
    }
    if zone.is_deleted(id) {
        return Standing::Deleted;
    }
    if global.is_received(id) {
        return Standing::Received;
    }
    Standing::Missing
}

// The type of the SYSMOD, if it is received.
fn kind_of(global: &GlobalZone, id: Id) -> Option<Kind>
    ensures { result ≡ option_map (λ s. s.kind) (sysmod_of global.now id) }
{
    let sysmod = global.get(id)?;
    Some(sysmod.kind)
}

/// The state of the id, and its entry if there is one.
pub(crate) fn standing_facts<'a>(
    alloc: Global,
    global: &GlobalZone,
    zone: &'a Zone,
    id: Id,
) -> Result<Vec<Fact<'a>>, AllocError>
    ensures { IfOk result (λ facts. map fact_view facts.items ≡ standing_facts global.now zone.now id) }
{
    let mut facts = Vec::new(alloc);
    facts.push(Fact::Standing {
        id,
        kind: kind_of(global, id),
        standing: standing(global, zone, id),
    })?;
    if let Some(entry) = zone.entry(id) {
        facts.push(Fact::Entry {
            kind: zone.kind(),
            entry,
        })?;
    }
    Ok(facts)
}
