//! The status of each id in an APPLY or ACCEPT.
ghost use Rattle.std.specs.Prelude.{◌≡◌, ◌++◌, map, IfOk, OnOk};
ghost use Rattle.machine.specs.Installing.{installed_status, not_chosen_status};
ghost use Rattle.report.specs.Views.{status_view};
ghost use Rattle.judge_system.specs.Views.{why_failed};
ghost use Rattle.smpe_service.specs.Statuses.{id_and_status, kept_status, kept_statuses, failed_statuses};
ghost use Rattle.smpe_service.specs.Statuses.{left_out_statuses, all_statuses};

use fields::{Id, IdList};
use judge_system::Failure;
use report::Status;
use std::alloc::{AllocError, Global};
use terms::{NotChosen, ZoneKind};

// The status of a SYSMOD that takes effect in a zone of this kind.
fn installed_status(kind: ZoneKind) -> Status
    ensures { status_view result ≡ installed_status kind }
{
    match kind {
        ZoneKind::Target => Status::Applied,
        ZoneKind::Distribution => Status::Accepted,
    }
}

// The status of a kept id: installed if it takes effect, otherwise superseded.
fn kept_status(kind: ZoneKind, effective: &IdList, id: Id) -> Status
    ensures { status_view result ≡ kept_status kind effective.now id }
{
    if effective.contains(id) {
        installed_status(kind)
    } else {
        Status::Superseded
    }
}

// The status of an id that the command names and that is not one of its candidates.
fn left_out_status(why: NotChosen) -> Status
    ensures { status_view result ≡ not_chosen_status why }
{
    match why {
        NotChosen::Already => Status::Already,
        NotChosen::Deleted => Status::Deleted,
        NotChosen::Missing => Status::Missing,
        NotChosen::NoVer => Status::NoVer,
        NotChosen::NotApplied => Status::NotApplied,
    }
}

// Adds the statuses of the kept ids.
fn push_kept_statuses(
    statuses: &mut Vec<(Id, Status)>,
    kind: ZoneKind,
    effective: &IdList,
    kept: &[Id],
) -> Result<(), AllocError>
    ensures { OnOk result (map id_and_status statuses.new.items ≡ map id_and_status statuses.old.items
        ++ kept_statuses kind effective.now kept.now) }
{
    for id in kept {
        statuses.push((*id, kept_status(kind, effective, *id)))?;
    }
    Ok(())
}

// Adds the statuses of the candidates that failed, with the reasons.
fn push_failed_statuses(
    statuses: &mut Vec<(Id, Status)>,
    failed: Vec<(Id, Failure)>,
) -> Result<(), AllocError>
    ensures { OnOk result (map id_and_status statuses.new.items ≡ map id_and_status statuses.old.items
        ++ failed_statuses (map why_failed failed.items)) }
{
    for (id, failure) in failed {
        statuses.push((id, Status::Failed(failure)))?;
    }
    Ok(())
}

// Adds the statuses of the ids that the command names and that are not among its candidates.
fn push_left_out_statuses(
    statuses: &mut Vec<(Id, Status)>,
    left_out: &[(Id, NotChosen)],
) -> Result<(), AllocError>
    ensures { OnOk result (map id_and_status statuses.new.items ≡ map id_and_status statuses.old.items
        ++ left_out_statuses left_out.now) }
{
    for (id, why) in left_out {
        statuses.push((*id, left_out_status(*why)))?;
    }
    Ok(())
}

/// The statuses of all ids that have one: the kept ones, which are installed in a zone of this kind or superseded,
/// those that failed, and those that were left out.
pub(crate) fn install_statuses(
    alloc: Global,
    kind: ZoneKind,
    effective: &IdList,
    kept: &[Id],
    failed: Vec<(Id, Failure)>,
    left_out: &[(Id, NotChosen)],
) -> Result<Vec<(Id, Status)>, AllocError>
    ensures { IfOk result (λ statuses. map id_and_status statuses.items
        ≡ all_statuses kind effective.now kept.now (map why_failed failed.items) left_out.now) }
{
    let mut statuses = Vec::new(alloc);
    push_kept_statuses(&mut statuses, kind, effective, kept)?;
    push_failed_statuses(&mut statuses, failed)?;
    push_left_out_statuses(&mut statuses, left_out)?;
    Ok(statuses)
}
