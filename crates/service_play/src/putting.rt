//! Installs and restores of ids that are kept whatever a command would decide.
ghost use Rattle.std.specs.Prelude.{◌≡◌};
ghost use Rattle.std.specs.List.{list_all};
ghost use Rattle.terms.specs.Lookups.{changes_of, is_nil};

use crate::printed::{append_delta, append_ids};
use crate::shop::{Shop, TARGET};
use change::{Installed, Installing, install, restore};
use fields::{Id, IdList, YyDdd};
use std::alloc::{AllocError, Global};
use std::test::Fail;
use sysmods::{GlobalZone, Overs, VerChoice};
use zones::{Zone, counting_vers};

/// Prints what an install of these ids would change in the target zone, and the zone that it would leave. They must
/// change no element.
pub(crate) fn preview_install(
    alloc: Global,
    shop: &Shop,
    cards: &str,
    printed: &mut Vec<u8>,
) -> Result<(), Fail> {
    let kept = read_ids(alloc, cards)?;
    let vers = counting_vers(alloc, &shop.global, &shop.target, &kept)?;
    let Installed { delta, effective } = installed(alloc, &vers, &shop.target, &kept)?;
    append_ids(b"EFFECTIVE", effective.as_slice(), printed)?;
    append_delta(alloc, TARGET, &shop.target, &delta, printed)
}

// What an install of these ids changes in the zone on 2024-05-19.
fn installed(
    alloc: Global,
    vers: &VerChoice<'_>,
    zone: &Zone,
    kept: &IdList,
) -> Result<Installed, Fail> {
    if !change_no_elements(vers.global(), kept.as_slice()) {
        return Err(Fail::from("an id that changes an element"));
    }
    let installing = Installing {
        overs: Overs::new(alloc, vers),
        zone,
        kept,
        bypassed: &[],
        date: YyDdd::new(2024, 140),
    };
    Ok(install(alloc, installing)?)
}

// Whether none of these SYSMODs changes an element.
fn change_no_elements(global: &GlobalZone, ids: &[Id]) -> bool
    ensures { result ≡ list_all (λ x. is_nil (changes_of global.now x)) ids.now }
{
    ids.iter().all(|id| changes_no_element(global, *id))
}

// Whether the SYSMOD changes no element. A SYSMOD that is not received changes none.
fn changes_no_element(global: &GlobalZone, id: Id) -> bool
    ensures { result ≡ is_nil (changes_of global.now id) }
{
    match global.get(id) {
        Some(sysmod) => sysmod.changes.is_empty(),
        None => true,
    }
}

/// Prints what a restore of these ids would change in the target zone, and the zone that it would leave.
pub(crate) fn preview_restore(
    alloc: Global,
    shop: &Shop,
    cards: &str,
    printed: &mut Vec<u8>,
) -> Result<(), Fail> {
    let kept = read_ids(alloc, cards)?;
    let delta = restore(alloc, &shop.global, &shop.target, &shop.distribution, &kept)?;
    append_delta(alloc, TARGET, &shop.target, &delta, printed)
}

/// The ids of these cards.
pub(crate) fn read_ids(alloc: Global, cards: &str) -> Result<IdList, Fail> {
    let mut ids = IdList::new(alloc);
    for word in cards.split_whitespace() {
        ids.insert(Id::read(word.as_bytes()).ok_or("no id")?)?;
    }
    Ok(ids)
}
