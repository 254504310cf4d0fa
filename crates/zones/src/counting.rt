//! Which `++VER`s count.
ghost use Rattle.std.specs.Prelude.{◌≡◌, ◌+◌, ◌++◌, [], ◌∷◌, IfOk, OnOk, filter, map, position, unwrap_or};
ghost use Rattle.std.specs.Str.{bytes_eq};
ghost use Rattle.terms.specs.Rising.{Rises};
ghost use Rattle.terms.specs.Lookups.{IsZone, is_in, is_applied};
ghost use Rattle.terms.specs.Choice.{fits, place, counting};
ghost use Rattle.sysmods.specs.Choices.{number_in, choice};
ghost use Rattle.zones.specs.Picks.{kept_pick, fitting_pick, is_further};

use fields::{Attest, IdList, VerNumber};
use sorted::{Keyed, Table};
use std::alloc::{AllocError, Global};
use sysmods::{GlobalZone, Pick, VerChoice};
use sysmods_values::{Sysmod, Ver};
use zones_maps::{Entry, Zone};

/// The `++VER`s that count in the zone for a command with these candidates. It goes once over the entries and once over
/// the received SYSMODs.
pub fn counting_vers<'a>(
    alloc: Global,
    global: &'a GlobalZone,
    zone: &Zone,
    candidates: &IdList,
) -> Result<VerChoice<'a>, AllocError>
    ensures global { IfOk result (λ vers. vers.global.now ≡ global.now) }
    ensures srel { IfOk result (λ vers. vers.srel ≡ zone.now.srel) }
    ensures counting { IfOk result (λ vers. choice vers ≡ counting global.now zone.now candidates.now) }
    ensures numbers { IfOk result (λ vers. number_in vers ≡ (λ x. place global.now zone.now candidates.now x + 1)) }
{
    global.attest();
    let kept = table_of(kept_picks(alloc, zone)?);
    let fitting = table_of(fitting_picks(alloc, global, zone, candidates)?);
    Ok(VerChoice::new(global, zone.srel(), kept, fitting))
}

// The table of these items, which already rise by their keys.
fn table_of<T: Keyed + Drop>(items: Vec<T>) -> Table<T>
    requires { Rises T.Key.cmp T.key_of items.items }
    ensures { result ≡ items.items }
{
    Table::from_vec(items).unwrap()
}

/// Whether the `++VER` fits the zone: it has no FMID, or one that is applied in the zone or a candidate.
pub fn fits(zone: &Zone, candidates: &IdList, ver: &Ver) -> bool
    ensures { result ≡ fits zone.now (is_in candidates.now) ver.now }
{
    match ver.fmid {
        Some(fmid) => zone.is_applied(fmid) || candidates.contains(fmid),
        None => true,
    }
}

// Adds the pick, unless its number is 1, because a SYSMOD without a pick has the number 1.
fn push_if_not_first(pick: Pick, picks: &mut Vec<Pick>) -> Result<(), AllocError>
    ensures { OnOk result (picks.new.items ≡ picks.old.items ++ filter is_further (pick ∷ [])) }
{
    if pick.number.get() > 1 {
        picks.push(pick)?;
    }
    Ok(())
}

// The pick of the entry's SYSMOD: the number of the `++VER` that installed it, or 1 if it is not applied.
fn kept_pick(entry: &Entry) -> Pick
    ensures { result ≡ kept_pick entry.now }
{
    Pick {
        id: entry.id,
        number: entry.number(),
    }
}

// The picks of the applied SYSMODs whose number is not 1.
fn kept_picks(alloc: Global, zone: &Zone) -> Result<Vec<Pick>, AllocError>
    ensures form { IsZone zone.now }
    ensures picks { IfOk result (λ picks. picks.items ≡ filter is_further (map kept_pick zone.now.entries)) }
{
    let mut picks = Vec::new(alloc);
    for entry in zone.entries() {
        push_if_not_first(kept_pick(entry), &mut picks)?;
    }
    Ok(picks)
}

// The place of the first `++VER` that fits, among those for the zone's SREL.
fn first_fitting(zone: &Zone, candidates: &IdList, vers: &[Ver]) -> Option<usize>
    ensures { result ≡ position (fits zone.now (is_in candidates.now))
        (filter (λ v. bytes_eq v.srel zone.now.srel) vers.now) }
{
    let srel = zone.srel();
    vers.iter()
        .filter(|ver| ver.srel == srel)
        .position(|ver| fits(zone, candidates, ver))
}

// The number of the first `++VER` that fits, or 1 if none fits. A single `++VER` has the number 1 in either case.
fn fitting_number(zone: &Zone, candidates: &IdList, vers: &[Ver]) -> VerNumber
    ensures { result ≡ unwrap_or (position (fits zone.now (is_in candidates.now))
        (filter (λ v. bytes_eq v.srel zone.now.srel) vers.now)) 0 + 1 }
{
    if vers.len() < 2 {
        return VerNumber::FIRST;
    }
    match first_fitting(zone, candidates, vers) {
        Some(place) => VerNumber::at_place(place),
        None => VerNumber::FIRST,
    }
}

// The pick of a received SYSMOD. It has the number 1 if the SYSMOD is applied, because `kept_pick` says its number.
fn fitting_pick(zone: &Zone, candidates: &IdList, sysmod: &Sysmod) -> Pick
    ensures { result ≡ fitting_pick zone.now candidates.now sysmod.now }
{
    let number = if zone.is_applied(sysmod.id) {
        VerNumber::FIRST
    } else {
        fitting_number(zone, candidates, sysmod.vers.as_slice())
    };
    Pick {
        id: sysmod.id,
        number,
    }
}

// The picks of the received SYSMODs that are not applied, as far as their number is not 1.
fn fitting_picks(
    alloc: Global,
    global: &GlobalZone,
    zone: &Zone,
    candidates: &IdList,
) -> Result<Vec<Pick>, AllocError>
    ensures { IfOk result
        (λ picks. picks.items ≡ filter is_further (map (fitting_pick zone.now candidates.now) global.now.sysmods)) }
{
    let mut picks = Vec::new(alloc);
    for sysmod in global.sysmods() {
        push_if_not_first(fitting_pick(zone, candidates, sysmod), &mut picks)?;
    }
    Ok(picks)
}
