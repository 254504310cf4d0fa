//! What a command would decide: its candidates, their tests and needs, and which of them are kept.
ghost use Rattle.judge_system.specs.Judged.{HasParts};

use crate::printed::{
    append_bypassed, append_candidates, append_failed_tests, append_failures, append_ids,
    append_needs,
};
use crate::shop::Shop;
use cntl::{Command, Install};
use fields::RestoreList;
use judge::{Judged, install_system};
use judge_system::Decided;
use select::candidates;
use solve::{Solver, Sweep, Worklist};
use std::alloc::{AllocError, Global};
use sysmods::GlobalZone;
use undo::{restore_candidates, restore_system};
use zones::Zone;

/// Prints what is decided about an APPLY or RESTORE in the target zone, or an ACCEPT in the distribution zone.
pub(crate) fn judge(
    alloc: Global,
    shop: &Shop,
    command: &Command,
    printed: &mut Vec<u8>,
) -> Result<(), AllocError> {
    let (global, target, distribution) = (&shop.global, &shop.target, &shop.distribution);
    match command {
        Command::Apply(install) => judge_install(alloc, global, target, None, install, printed),
        Command::Accept(install) => {
            judge_install(alloc, global, distribution, Some(target), install, printed)
        }
        Command::Restore { list, .. } => {
            judge_restore(alloc, global, target, distribution, list, printed)
        }
        _ => Ok(()),
    }
}

// Prints the candidates of an install into the zone, and what is decided about them.
fn judge_install(
    alloc: Global,
    global: &GlobalZone,
    zone: &Zone,
    related: Option<&Zone>,
    install: &Install,
    printed: &mut Vec<u8>,
) -> Result<(), AllocError> {
    let candidates = candidates(alloc, global, zone, &install.selection)?;
    append_candidates(&candidates, printed)?;
    let judged = install_system(alloc, global, zone, related, &candidates, &install.bypass)?;
    append_judged(alloc, &judged, printed)
}

// Prints the candidates of a RESTORE from the zone, and what is decided about them.
fn judge_restore(
    alloc: Global,
    global: &GlobalZone,
    zone: &Zone,
    accepted: &Zone,
    list: &RestoreList,
    printed: &mut Vec<u8>,
) -> Result<(), AllocError> {
    let candidates = restore_candidates(alloc, global, zone, accepted, list)?;
    append_candidates(&candidates, printed)?;
    let judged = restore_system(alloc, global, zone, accepted, &candidates)?;
    append_judged(alloc, &judged, printed)
}

// Prints what was judged, which candidates are kept, and why the others are not.
fn append_judged(
    alloc: Global,
    judged: &Judged<'_>,
    printed: &mut Vec<u8>,
) -> Result<(), AllocError>
    requires { HasParts judged.now }
{
    append_failed_tests(judged, printed)?;
    append_needs(judged.needs.as_slice(), printed)?;
    append_bypassed(judged.bypassed.as_slice(), printed)?;
    let Decided { kept, failed } = decided(alloc, judged)?;
    append_ids(b"KEPT", kept.as_slice(), printed)?;
    append_failures(failed.as_slice(), printed)?;
    append_sweep_difference(alloc, judged, printed)
}

// Which candidates are kept, and why the others fail.
fn decided(alloc: Global, judged: &Judged<'_>) -> Result<Decided, AllocError>
    requires { HasParts judged.now }
{
    let kept = Worklist.greatest(alloc, &judged.system)?;
    judged.decided(alloc, &kept)
}

// Appends a line if `Sweep` keeps other candidates than `Worklist`.
fn append_sweep_difference(
    alloc: Global,
    judged: &Judged<'_>,
    printed: &mut Vec<u8>,
) -> Result<(), AllocError> {
    let kept = Worklist.greatest(alloc, &judged.system)?;
    let swept = Sweep.greatest(alloc, &judged.system)?;
    if kept.flags() != swept.flags() {
        printed.extend_from_slice(b"SWEEP DIFFERS\n")?;
    }
    Ok(())
}
