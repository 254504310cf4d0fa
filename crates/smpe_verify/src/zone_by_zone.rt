//! The zones of a store, one after the other.
ghost use Rattle.std.specs.Prelude.{◌≡◌, ◌+◌, Option, IfOk, OnOk};
ghost use Rattle.sqlite.specs.Held.{state};
ghost use Rattle.sqlite.specs.State.{HasCleanDisk};
ghost use Rattle.terms.specs.Types.{Zone as AZone};
ghost use Rattle.store.specs.Loads.{Loads};
ghost use Rattle.store.specs.Whole.{ShowsZone};
ghost use Rattle.store_migration.specs.Migrated.{HasRowids};
ghost use Rattle.store_schema.specs.Known.{HasOwnTables};
ghost use Rattle.smpe_verify.specs.Verified.{verification, begun, breach_at, counted, IsCounted, StandsIfClosed};

use crate::breach::Breach;
use crate::closed::first_breach;
use crate::verification::{Counts, Verification};
use fields::ZoneName;
use sqlite::Alter;
use std::alloc::{AllocError, Global};
use store::{Store, StoreError, ZoneHead};
use sysmods::GlobalZone;
use zones::Zone;

/// Loads the global zone and then each zone by its name, rising, until one is not closed. One zone is in memory at a
/// time, and nothing changes. If all are closed, all rows were read, and the tables stand for a state. Returns `Memory`
/// if memory runs out, or a count does not fit, `Fault` if the database fails, and `NoState` if the rows of the global
/// zone, or of a zone up to the first that is not closed, stand for no state.
pub fn verify<S: Alter>(alloc: Global, store: &mut Store<S>) -> Result<Verification, StoreError>
    ensures loads { Loads S.Store store.old store.new (λ i found. found ≡ verification i) result }
    ensures stands { HasCleanDisk (state S.Store store.new) → HasOwnTables (state S.Store store.old).now
        → HasRowids (state S.Store store.old).now → IfOk result (StandsIfClosed S.Store store.old) }
{
    let global = store.load_global()?;
    let heads = store.zone_heads()?;
    let mut counts = initial_counts(&global, heads.as_slice());
    for head in heads.as_slice() {
        let zone_breach = verify_zone(alloc, store, &global, head.name, &mut counts)?;
        if let Some(breach) = zone_breach {
            return Ok(Verification::Broken(head.name, breach));
        }
    }
    Ok(Verification::Closed(counts))
}

// The counts before any zone is loaded: those of received SYSMODs and of zones are final, and no entry or element is
// counted yet.
fn initial_counts(global: &GlobalZone, heads: &[ZoneHead]) -> Counts
    ensures { result ≡ begun global.now heads.now }
{
    Counts {
        sysmods: global.len(),
        zones: heads.len(),
        entries: 0,
        elements: 0,
    }
}

// Loads the zone of this name, adds it to the counts, and finds its first breach. `None` if the zone is closed, or if
// no zone has the name. The errors are those of `verify`.
fn verify_zone<S: Alter>(
    alloc: Global,
    store: &mut Store<S>,
    global: &GlobalZone,
    name: ZoneName,
    counts: &mut Counts,
) -> Result<Option<Breach>, StoreError>
    ensures loads { Loads S.Store store.old store.new (λ i breach. (breach ≡ breach_at i global.now name)
        × (counts.new ≡ counted i counts.old name)) result }
    ensures rows { HasCleanDisk (state S.Store store.new) → OnOk result ((zone : Option AZone)
        × ShowsZone S.Store store.old name zone) }
{
    let named_zone = store.load_zone(name)?;
    let Some(zone) = named_zone else {
        return Ok(None);
    };
    count_zone(&zone, counts)?;
    Ok(first_breach(alloc, global, &zone)?)
}

// Adds the zone's entries and elements to the counts. Returns an error if a count does not fit.
fn count_zone(zone: &Zone, counts: &mut Counts) -> Result<(), AllocError>
    ensures { OnOk result (IsCounted zone.now counts.old counts.new) }
{
    counts.entries = checked_sum(counts.entries, zone.entries().len())?;
    counts.elements = checked_sum(counts.elements, zone.elements().len())?;
    Ok(())
}

// The sum, or an error if it does not fit.
fn checked_sum(a: usize, b: usize) -> Result<usize, AllocError>
    ensures { IfOk result (λ sum. sum ≡ a + b) }
{
    a.checked_add(b).ok_or(AllocError)
}
