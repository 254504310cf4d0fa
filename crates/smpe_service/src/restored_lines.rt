//! The lines of a RESTORE.
ghost use Rattle.std.specs.Prelude.{◌≡◌, map, find, IfOk, option_copied};
ghost use Rattle.std.specs.Ordering.{nat_cmp};
ghost use Rattle.std.specs.Cmp.Lexicographic.{slice_cmp};
ghost use Rattle.std.specs.Str.{bytes_eq};
ghost use Rattle.terms.specs.Rising.{Rises};
ghost use Rattle.judge_system.specs.Views.{failure_view};
ghost use Rattle.report.specs.Views.{line_view, status_view};
ghost use Rattle.smpe_service.specs.Lines.{status_in, line_in};

use fields::{Id, IdList};
use judge_system::Failure;
use report::{ReportLine, Status, place_of};
use std::alloc::{AllocError, Global};
use sysmods::GlobalZone;

/// A line for each of these ids, in their order: restored if the id is kept, failed with the reasons, or otherwise not
/// applied.
pub(crate) fn restore_lines(
    alloc: Global,
    global: &GlobalZone,
    ids: &[Id],
    kept: &IdList,
    failed: &[(Id, Failure)],
) -> Result<Vec<ReportLine>, AllocError>
    requires { Rises (slice_cmp nat_cmp) (λ f. f.0) failed.now }
    ensures { IfOk result (λ lines. map line_view lines.items
        ≡ map (line_in global.now kept.now failed.now) ids.now) }
{
    let mut lines = Vec::new(alloc);
    for id in ids {
        lines.push(restore_line(alloc, global, *id, kept, failed)?)?;
    }
    Ok(lines)
}

// The line of one id.
fn restore_line(
    alloc: Global,
    global: &GlobalZone,
    id: Id,
    kept: &IdList,
    failed: &[(Id, Failure)],
) -> Result<ReportLine, AllocError>
    requires { Rises (slice_cmp nat_cmp) (λ f. f.0) failed.now }
    ensures { IfOk result (λ line. line_view line ≡ line_in global.now kept.now failed.now id) }
{
    let status = restore_status(alloc, id, kept, failed)?;
    Ok(ReportLine::Status {
        id,
        place: place_of(global, id),
        status,
    })
}

// The status of one id: restored, failed, or not applied.
fn restore_status(
    alloc: Global,
    id: Id,
    kept: &IdList,
    failed: &[(Id, Failure)],
) -> Result<Status, AllocError>
    requires { Rises (slice_cmp nat_cmp) (λ f. f.0) failed.now }
    ensures { IfOk result (λ status. status_view status ≡ status_in kept.now failed.now id) }
{
    if kept.contains(id) {
        return Ok(Status::Restored);
    }
    match find_failed(failed, id) {
        Some(found) => Ok(Status::Failed(copy_failure(alloc, &found.1)?)),
        None => Ok(Status::NotApplied),
    }
}

// The id with its failure, in a list that rises by the ids.
fn find_failed(failed: &[(Id, Failure)], id: Id) -> Option<&(Id, Failure)>
    requires { Rises (slice_cmp nat_cmp) (λ f. f.0) failed.now }
    ensures { option_copied result ≡ find (λ f. bytes_eq f.0 id) failed.now }
{
    match failed.binary_search_by_key(&id, |failed| failed.0) {
        Ok(place) => Some(&failed[place]),
        Err(_) => None,
    }
}

// A copy of the failure, which the report line owns.
fn copy_failure(alloc: Global, failure: &Failure) -> Result<Failure, AllocError>
    ensures { IfOk result (λ copy. failure_view copy ≡ failure_view failure.now) }
{
    Ok(Failure {
        tests: failure.tests,
        needs: Vec::from_slice(alloc, failure.needs.as_slice())?,
        causers: Vec::from_slice(alloc, failure.causers.as_slice())?,
    })
}
