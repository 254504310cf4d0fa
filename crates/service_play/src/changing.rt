//! APPLY, ACCEPT and RESTORE: their reports, and the zones that they leave.

use crate::printed::{append_delta, append_report};
use crate::shop::{DISTRIBUTION, Shop, TARGET};
use cntl::{Command, Install};
use fields::YyDdd;
use report::ReportLine;
use smpe_service::{InstallChange, Restored, apply, restore};
use std::alloc::{AllocError, Global};
use std::test::Fail;
use terms::CommandWord;
use zones::ZoneDelta;

/// What a command changes, and the lines of its report.
#[derive(Drop)]
struct ZoneChange {
    word: CommandWord,
    delta: ZoneDelta,
    lines: Vec<ReportLine>,
}

/// Performs the command: changes its zone, and prints its report.
pub(crate) fn change(
    alloc: Global,
    shop: &mut Shop,
    command: &Command,
    printed: &mut Vec<u8>,
) -> Result<(), Fail> {
    let ZoneChange { word, delta, lines } = changed(alloc, shop, command)?;
    append_report(word, lines, printed)?;
    if changes_distribution(word) {
        shop.distribution = delta.apply(alloc, &shop.distribution)?;
    } else {
        shop.target = delta.apply(alloc, &shop.target)?;
    }
    Ok(())
}

// Whether the command changes the distribution zone, and not the target zone as the others do.
fn changes_distribution(word: CommandWord) -> bool {
    matches!(word, CommandWord::Accept)
}

/// Prints what the command would change, and the zone that it would leave. It changes no zone.
pub(crate) fn preview(
    alloc: Global,
    shop: &Shop,
    command: &Command,
    printed: &mut Vec<u8>,
) -> Result<(), Fail> {
    let ZoneChange { word, delta, .. } = changed(alloc, shop, command)?;
    let (name, zone) = if changes_distribution(word) {
        (DISTRIBUTION, &shop.distribution)
    } else {
        (TARGET, &shop.target)
    };
    append_delta(alloc, name, zone, &delta, printed)
}

// What the command would change, and its report. The zones stay as they are.
fn changed(alloc: Global, shop: &Shop, command: &Command) -> Result<ZoneChange, Fail> {
    match command {
        Command::Apply(install) => {
            let InstallChange { delta, lines } = applied(alloc, shop, install)?;
            Ok(ZoneChange {
                word: CommandWord::Apply,
                delta,
                lines,
            })
        }
        Command::Accept(install) => {
            let InstallChange { delta, lines } = accepted(alloc, shop, install)?;
            Ok(ZoneChange {
                word: CommandWord::Accept,
                delta,
                lines,
            })
        }
        Command::Restore { list, .. } => {
            let (target, distribution) = (&shop.target, &shop.distribution);
            let Restored { delta, lines } = restore(
                alloc,
                &shop.global,
                target,
                distribution,
                list,
            )?;
            Ok(ZoneChange {
                word: CommandWord::Restore,
                delta,
                lines,
            })
        }
        _ => Err(Fail::from("no command that changes a zone")),
    }
}

// What an APPLY into the target zone changes on 2024-05-17.
fn applied(alloc: Global, shop: &Shop, install: &Install) -> Result<InstallChange, AllocError> {
    let (selection, bypass) = (&install.selection, &install.bypass);
    let date = YyDdd::new(2024, 138);
    apply(
        alloc,
        &shop.global,
        &shop.target,
        None,
        selection,
        bypass,
        date,
    )
}

// What an ACCEPT into the distribution zone changes on 2024-05-18.
fn accepted(alloc: Global, shop: &Shop, install: &Install) -> Result<InstallChange, AllocError> {
    let (selection, bypass) = (&install.selection, &install.bypass);
    let (target, distribution) = (&shop.target, &shop.distribution);
    let date = YyDdd::new(2024, 139);
    apply(
        alloc,
        &shop.global,
        distribution,
        Some(target),
        selection,
        bypass,
        date,
    )
}
