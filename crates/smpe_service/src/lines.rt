//! The lines of an APPLY or ACCEPT.
ghost use Rattle.std.specs.Prelude.{◌≡◌, map, IfOk};
ghost use Rattle.machine.specs.Outcome.{StatusLine};
ghost use Rattle.machine.specs.Receiving.{place_of};
ghost use Rattle.report.specs.Views.{line_view, status_view};
ghost use Rattle.judge_system.specs.Views.{why_failed};
ghost use Rattle.smpe_service.specs.Statuses.{all_statuses, id_and_status, status_line, IsById, AreById};

use crate::statuses::install_statuses;
use fields::{Id, IdList};
use judge_system::Decided;
use report::{ReportLine, Status, place_of};
use std::alloc::{AllocError, Global};
use sysmods::GlobalZone;
use terms::{NotChosen, ZoneKind};

// The statuses in the order of their ids.
fn sorted_by_id(mut statuses: Vec<(Id, Status)>) -> Vec<(Id, Status)>
    ensures { IsById (map id_and_status statuses.items) (map id_and_status result.items) }
{
    statuses.sort_unstable_by_key(|status| status.0);
    statuses
}

// The line of an id with this status, and with its place in the global zone.
fn status_line(global: &GlobalZone, id: Id, status: Status) -> ReportLine
    ensures { line_view result ≡ StatusLine id (place_of global.now id) (status_view status) }
{
    ReportLine::Status {
        id,
        place: place_of(global, id),
        status,
    }
}

// A line for each of these statuses, in the order of the list.
fn status_lines(
    alloc: Global,
    global: &GlobalZone,
    statuses: Vec<(Id, Status)>,
) -> Result<Vec<ReportLine>, AllocError>
    ensures { IfOk result (λ lines. map line_view lines.items ≡ map (status_line global.now)
        (map id_and_status statuses.items)) }
{
    let mut lines = Vec::new(alloc);
    for (id, status) in statuses {
        lines.push(status_line(global, id, status))?;
    }
    Ok(lines)
}

// A line for each of these statuses, by id.
fn lines_by_id(
    alloc: Global,
    global: &GlobalZone,
    statuses: Vec<(Id, Status)>,
) -> Result<Vec<ReportLine>, AllocError>
    ensures { IfOk result (λ lines. AreById global.now (map id_and_status statuses.items) (map line_view lines.items)) }
{
    status_lines(alloc, global, sorted_by_id(statuses))
}

/// The lines of all ids that have a status, by id: the kept ones, which are installed in a zone of this kind or
/// superseded, those that failed, and those that were left out.
pub(crate) fn install_lines(
    alloc: Global,
    global: &GlobalZone,
    kind: ZoneKind,
    effective: &IdList,
    decided: Decided,
    left_out: &[(Id, NotChosen)],
) -> Result<Vec<ReportLine>, AllocError>
    ensures { IfOk result (λ lines. AreById global.now
        (all_statuses kind effective.now decided.kept (map why_failed decided.failed.items) left_out.now)
        (map line_view lines.items)) }
{
    let Decided { kept, failed } = decided;
    let statuses = install_statuses(alloc, kind, effective, kept.as_slice(), failed, left_out)?;
    lines_by_id(alloc, global, statuses)
}
