//! The ids of the lines of an APPLY or ACCEPT.
ghost use Rattle.std.specs.Prelude.{◌≡◌, ◌++◌, map, IfOk, OnOk};
ghost use Rattle.report.specs.Views.{status_view, line_view};
ghost use Rattle.smpe_summary.specs.Asked.{meets, id_where, ids_where};

use fields::Id;
use report::{ReportLine, Status};
use std::alloc::{AllocError, Global};

/// What the status of a line may be: that of a SYSMOD that is installed, of one that fails, or of any that the command
/// took up.
#[derive(Clone, Copy)]
pub(crate) enum Condition {
    GoesOn,
    Fails,
    IsCandidate,
}

// Whether the status is one of these.
fn meets(condition: Condition, status: &Status) -> bool
    ensures { result ≡ meets condition (status_view status.now) }
{
    match condition {
        Condition::GoesOn => matches!(status, Status::Applied | Status::Accepted),
        Condition::Fails => matches!(status, Status::Failed(_)),
        Condition::IsCandidate => matches!(
            status,
            Status::Applied | Status::Accepted | Status::Superseded | Status::Failed(_)
        ),
    }
}

// Appends the id of the line, if its status is one of these.
fn push_id_where(
    condition: Condition,
    line: &ReportLine,
    found: &mut Vec<Id>,
) -> Result<(), AllocError>
    ensures { OnOk result (found.new.items ≡ found.old.items ++ id_where (meets condition) (line_view line.now)) }
{
    match line {
        ReportLine::Status { id, status, .. } => {
            if meets(condition, status) {
                found.push(*id)?;
            }
            Ok(())
        }
        ReportLine::Nothing | ReportLine::Errsysmod { .. } => Ok(()),
    }
}

/// The ids of the lines whose status is one of these.
pub(crate) fn ids_where(
    alloc: Global,
    condition: Condition,
    lines: &[ReportLine],
) -> Result<Vec<Id>, AllocError>
    ensures { IfOk result (λ ids. ids.items ≡ ids_where (meets condition) (map line_view lines.now)) }
{
    let mut found = Vec::new(alloc);
    for line in lines {
        push_id_where(condition, line, &mut found)?;
    }
    Ok(found)
}
