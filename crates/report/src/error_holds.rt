//! The ERROR holds that a zone leaves open.
ghost use Rattle.std.specs.Prelude.{◌≡◌, ◌++◌, IfOk, OnOk, filter};
ghost use Rattle.std.specs.List.{flat_map};
ghost use Rattle.machine.specs.Errsysmods.{is_current};
ghost use Rattle.report.specs.ErrorHolds.{open_of, open_on};

use fields::Id;
use std::alloc::{AllocError, Global};
use sysmods::GlobalZone;
use sysmods_values::Hold;
use terms::HoldKind;
use zones::{Entry, Zone};

/// An ERROR hold on an applied SYSMOD, by its reason.
#[derive(Clone, Copy)]
pub(crate) struct OpenErrorHold {
    pub(crate) id: Id,
    pub(crate) reason: Id,
}

// Appends the hold if it is an ERROR hold whose reason the zone does not supply. The caller has only ERROR holds; the
// clause is about any hold, so the kind is tested too.
fn append_if_open_error_hold(
    zone: &Zone,
    id: Id,
    hold: &Hold,
    found: &mut Vec<OpenErrorHold>,
) -> Result<(), AllocError>
    ensures { OnOk result (found.new.items ≡ found.old.items ++ open_of zone.now id hold.now) }
{
    if hold.kind == HoldKind::Error {
        if let Some(reason) = hold.reason.as_id() {
            if !zone.supplies(reason) {
                found.push(OpenErrorHold { id, reason })?;
            }
        }
    }
    Ok(())
}

// Appends those ERROR holds on the SYSMOD whose reason the zone does not supply.
#[tactic(auto, using(crate::proofs::OpenHolds::open_holds))]
fn append_open_error_holds(
    global: &GlobalZone,
    zone: &Zone,
    id: Id,
    found: &mut Vec<OpenErrorHold>,
) -> Result<(), AllocError>
    ensures { OnOk result (found.new.items ≡ found.old.items ++ open_on global.now zone.now id) }
{
    for hold in global.holds_of(HoldKind::Error, id) {
        append_if_open_error_hold(zone, id, hold, found)?;
    }
    Ok(())
}

// Whether the entry's SYSMOD is applied and not superseded.
fn is_current(entry: &Entry) -> bool
    ensures { result ≡ is_current entry.now }
{
    entry.applied.is_some() && entry.supby.is_empty()
}

/// The ERROR holds that the zone leaves open on SYSMODs that are applied and not superseded, in the order of the
/// entries and then of the reasons.
pub(crate) fn open_error_holds(
    alloc: Global,
    global: &GlobalZone,
    zone: &Zone,
) -> Result<Vec<OpenErrorHold>, AllocError>
    ensures { IfOk result (λ found. found.items
        ≡ flat_map (λ e. open_on global.now zone.now e.id) (filter is_current zone.now.entries)) }
{
    let mut found = Vec::new(alloc);
    for entry in zone.entries() {
        if is_current(entry) {
            append_open_error_holds(global, zone, entry.id, &mut found)?;
        }
    }
    Ok(found)
}
