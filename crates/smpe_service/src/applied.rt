//! The zone's change and the lines of an APPLY or ACCEPT.
ghost use Rattle.std.specs.Prelude.{IfOk, map, option_copied};
ghost use Rattle.terms.specs.Types.{Zone as AZone};
ghost use Rattle.terms.specs.Forms.{IsDottedDate};
ghost use Rattle.zones_maps.specs.Delta.{IsChanged, KnowsStood};
ghost use Rattle.machine.specs.Installing.{InstallsSelected};
ghost use Rattle.report.specs.Views.{line_view};

use crate::lines::install_lines;
use crate::solving::decide;
use change::{Installed, install_judged};
use fields::{Bypass, Selection, YyDdd};
use judge::install_system;
use report::ReportLine;
use select::candidates;
use std::alloc::{AllocError, Global};
use sysmods::GlobalZone;
use zones::{Zone, ZoneDelta};

/// What an APPLY or ACCEPT changes, and its lines by id.
#[derive(Drop)]
pub struct InstallChange {
    pub delta: ZoneDelta,
    pub lines: Vec<ReportLine>,
}

/// Installs what is selected into the zone, except for what BYPASS covers: APPLY in a target zone, ACCEPT in a
/// distribution zone, which also looks at the related target zone. The caller decides whether the command only checks.
pub fn apply(
    alloc: Global,
    global: &GlobalZone,
    zone: &Zone,
    related: Option<&Zone>,
    selection: &Selection,
    bypass: &Bypass,
    date: YyDdd,
) -> Result<InstallChange, AllocError>
    ensures installs { IfOk result (λ a. (new : AZone) → IsChanged a.delta zone.now new →
        InstallsSelected global.now zone.now (option_copied related.entry) selection.now bypass.now date new
        (map line_view a.lines.items)) }
    ensures knows { IfOk result (λ a. KnowsStood zone.now a.delta) }
    ensures dated { IsDottedDate date }
{
    // (for the clause `dated`: the length of a date, which its type promises)
    prove!(date.as_bytes().len() == 6);
    let candidates = candidates(alloc, global, zone, selection)?;
    let judged = install_system(alloc, global, zone, related, &candidates, bypass)?;
    let decided = decide(alloc, &judged)?;
    let Installed { delta, effective } = install_judged(alloc, judged, zone, &decided.kept, date)?;
    let left_out = candidates.left_out.as_slice();
    let lines = install_lines(alloc, global, zone.kind(), &effective, decided, left_out)?;
    Ok(InstallChange { delta, lines })
}
