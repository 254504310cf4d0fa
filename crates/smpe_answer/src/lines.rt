//! The lines of an APPLY or ACCEPT of a package.
ghost use Rattle.std.specs.Prelude.{IfOk, map, option_copied};
ghost use Rattle.report.specs.Views.{line_view};
ghost use Rattle.smpe_answer.specs.Asked.{AreLinesOf};

use crate::selection::package_selection;
use fields::{Attest, Bypass, Source, YyDdd};
use report::ReportLine;
use smpe_service::{InstallChange, apply};
use std::alloc::{AllocError, Global};
use sysmods::GlobalZone;
use zones::Zone;

// The year of the install. Any date will do, because no line contains it.
const ANY_YEAR: u16 = 2000;

// The day of the install in that year.
const ANY_DAY: u16 = 1;

/// The lines of an APPLY or ACCEPT of the SYSMODs that have the source, without BYPASS.
pub(crate) fn package_lines(
    alloc: Global,
    global: &GlobalZone,
    zone: &Zone,
    related: Option<&Zone>,
    source: Source,
) -> Result<Vec<ReportLine>, AllocError>
    ensures { IfOk result (λ lines. AreLinesOf global.now zone.now (option_copied related.entry) source
        (map line_view lines.items)) }
{
    let selection = package_selection(alloc, source)?;
    let bypass = Bypass::none(alloc);
    let date = YyDdd::new(ANY_YEAR, ANY_DAY);
    let InstallChange { delta, lines } = apply(
        alloc, global, zone, related, &selection, &bypass, date,
    )?;
    // (the contract needs this: the edits of the delta have the form of edits, so they turn this zone into a new one)
    delta.attest();
    zone.attest();
    Ok(lines)
}
