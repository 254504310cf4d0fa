//! The outcome of REPORT ERRSYSMODS.
ghost use Rattle.std.specs.Prelude.{IfOk};
ghost use Rattle.report.specs.ErrsysmodLines.{AreLinesOf, IsReportOf};

use crate::error_holds::{OpenErrorHold, open_error_holds};
use crate::outcome::{Header, Outcome, ReportLine};
use crate::superseders::resolvers;
use fields::{Attest, IdList, Reason, ZoneName};
use std::alloc::{AllocError, Global};
use sysmods::GlobalZone;
use terms::CommandWord;
use zones::{Zone, counting_vers};

// An ERRSYSMOD line for each open hold, with the SYSMODs that resolve its reason. If there are no holds, it does not
// choose the `++VER`s that count.
fn errsysmod_lines(
    alloc: Global,
    global: &GlobalZone,
    zone: &Zone,
    errors: &[OpenErrorHold],
) -> Result<Vec<ReportLine>, AllocError>
    ensures { IfOk result (λ lines. AreLinesOf global.now zone.now errors.now lines.items) }
{
    if errors.is_empty() {
        return Ok(Vec::new(alloc));
    }
    let no_candidates = IdList::new(alloc);
    let vers = counting_vers(alloc, global, zone, &no_candidates)?;
    let mut lines = Vec::new(alloc);
    for error in errors {
        let ids = resolvers(alloc, &vers, zone.srel(), error.reason)?;
        lines.push(ReportLine::Errsysmod {
            id: error.id,
            // (every id has the form of a reason)
            reason: Reason::read(error.reason.as_bytes()).unwrap(),
            resolvers: Vec::from_slice(alloc, ids.as_slice())?,
        })?;
    }
    Ok(lines)
}

/// Finds what REPORT ERRSYSMODS prints of the zone. `zone_name` is its name, for the headline.
pub fn errsysmods(
    alloc: Global,
    zone_name: ZoneName,
    global: &GlobalZone,
    zone: &Zone,
) -> Result<Outcome<'static>, AllocError>
    ensures { IfOk result (IsReportOf zone_name global.now zone.now) }
{
    // (for the clause: the global zone has its form, so no SYSMOD supersedes itself in a loop)
    global.attest();
    let errors = open_error_holds(alloc, global, zone)?;
    let lines = errsysmod_lines(alloc, global, zone, &errors)?;
    Ok(Outcome::Ran {
        header: Header {
            word: CommandWord::Report,
            boundary: Some(zone_name),
            check: false,
        },
        lines,
    })
}
