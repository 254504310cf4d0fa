//! Whether the command does what it is to do.
ghost use Rattle.std.specs.Prelude.{◌≡◌, ◌++◌, map, OnOk, IfOk};
ghost use Rattle.std.specs.List.{list_all};
ghost use Rattle.terms.specs.Lookups.{is_in};
ghost use Rattle.report.specs.Views.{line_view, status_view};
ghost use Rattle.smpe_mend.specs.Runs.{is_on, on_id, on_ids, are_on};

use fields::{Id, IdList};
use report::{ReportLine, Status};
use std::alloc::{AllocError, Global};

/// Whether the status is that of an id that is installed, superseded by what is, or so already.
pub(crate) fn is_on(status: &Status) -> bool
    ensures { result ≡ is_on (status_view status.now) }
{
    matches!(
        status,
        Status::Already | Status::Applied | Status::Accepted | Status::Superseded
    )
}

// Appends the id of the line, if it is on.
fn push_on_id(line: &ReportLine, found: &mut Vec<Id>) -> Result<(), AllocError>
    ensures { OnOk result (found.new.items ≡ found.old.items ++ on_id (line_view line.now)) }
{
    match line {
        ReportLine::Status { id, status, .. } => {
            if is_on(status) {
                found.push(*id)?;
            }
            Ok(())
        }
        ReportLine::Nothing | ReportLine::Errsysmod { .. } => Ok(()),
    }
}

/// The ids that the lines tell to be on, in the order of the lines.
pub(crate) fn on_ids(alloc: Global, lines: &[ReportLine]) -> Result<Vec<Id>, AllocError>
    ensures { IfOk result (λ ids. ids.items ≡ on_ids (map line_view lines.now)) }
{
    let mut found = Vec::new(alloc);
    for line in lines {
        push_on_id(line, &mut found)?;
    }
    Ok(found)
}

// Whether all of these ids are in the list.
fn are_all_in(ids: &IdList, list: &IdList) -> bool
    ensures { result ≡ list_all (is_in list.now) ids.now }
{
    ids.iter().all(|id| list.contains(*id))
}

/// Whether the lines tell that all of these ids are on.
pub(crate) fn are_on(alloc: Global, ids: &IdList, lines: &[ReportLine]) -> Result<bool, AllocError>
    ensures { IfOk result (λ on. on ≡ are_on ids.now (map line_view lines.now)) }
{
    let on = IdList::from_vec(on_ids(alloc, lines)?);
    Ok(are_all_in(ids, &on))
}
