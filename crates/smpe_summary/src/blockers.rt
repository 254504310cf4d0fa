//! The causers of the SYSMODs of the package that would fail.
ghost use Rattle.std.specs.Prelude.{◌≡◌, ◌++◌, ◌&&◌, IfOk, OnOk};
ghost use Rattle.terms.specs.Lookups.{is_in};
ghost use Rattle.std.specs.Ordering.{nat_cmp};
ghost use Rattle.std.specs.Cmp.Lexicographic.{slice_cmp};
ghost use Rattle.terms.specs.Types.{Id as AnId};
ghost use Rattle.sorted.specs.MultiMap.{listed};
ghost use Rattle.judge_system.specs.Views.{failure_view};
ghost use Rattle.report.specs.Views.{line_view};
ghost use Rattle.smpe_summary.specs.Groups.{failed_group, is_plain_failure};
ghost use Rattle.smpe_summary.specs.Blocked.{blocked_by, blocked_in, blocked};

use crate::asked::Asked;
use crate::members::failed_group;
use crate::values::Group;
use fields::Id;
use judge_system::Failure;
use report::{ReportLine, Status};
use sorted::multi_map::{MultiMap, add_to_all, listed};
use std::alloc::{AllocError, Global};
use std::collections::BTreeMap;

// Whether the SYSMOD that fails is in the group of those that would fail.
fn is_plain_failure(asked: &Asked<'_>, supers: &MultiMap<Id, Id>, id: Id, failure: &Failure) -> bool
    ensures { result ≡ is_plain_failure (failed_group asked.now.global (listed (slice_cmp nat_cmp) supers.now id)
        (failure_view failure.now)) }
{
    matches!(
        failed_group(asked.global, listed(supers, id), failure),
        Group::Failed
    )
}

// Whether the SYSMOD that fails is of the package and in the group of those that would fail.
fn is_counted(asked: &Asked<'_>, supers: &MultiMap<Id, Id>, id: Id, failure: &Failure) -> bool
    ensures { result ≡ (is_in asked.now.members id && is_plain_failure
        (failed_group asked.now.global (listed (slice_cmp nat_cmp) supers.now id) (failure_view failure.now))) }
{
    asked.package.contains(id) && is_plain_failure(asked, supers, id, failure)
}

// If the SYSMOD is of the package and would fail, lists it under each of its causers.
fn add_failed(
    alloc: Global,
    asked: &Asked<'_>,
    supers: &MultiMap<Id, Id>,
    id: Id,
    failure: &Failure,
    blocks: &mut MultiMap<Id, Id>,
) -> Result<(), AllocError>
    ensures { OnOk result ((y : AnId) → listed (slice_cmp nat_cmp) blocks.new y ≡ listed (slice_cmp nat_cmp) blocks.old y
        ++ blocked_by asked.now (listed (slice_cmp nat_cmp) supers.now) y id (failure_view failure.now)) }
{
    if !is_counted(asked, supers, id, failure) {
        return Ok(());
    }
    add_to_all(alloc, blocks, failure.causers.as_slice(), id)
}

// If the SYSMOD of the line is of the package and would fail, lists it under each of its causers.
fn add_blocked(
    alloc: Global,
    asked: &Asked<'_>,
    supers: &MultiMap<Id, Id>,
    line: &ReportLine,
    blocks: &mut MultiMap<Id, Id>,
) -> Result<(), AllocError>
    ensures { OnOk result ((y : AnId) → listed (slice_cmp nat_cmp) blocks.new y ≡ listed (slice_cmp nat_cmp) blocks.old y
        ++ blocked_in asked.now (listed (slice_cmp nat_cmp) supers.now) y (line_view line.now)) }
{
    match line {
        ReportLine::Status { id, status, .. } => match status {
            Status::Failed(failure) => add_failed(alloc, asked, supers, *id, failure, blocks),
            _ => Ok(()),
        },
        ReportLine::Nothing | ReportLine::Errsysmod { .. } => Ok(()),
    }
}

/// For each causer the SYSMODs of the package that would fail and have it.
pub(crate) fn blocked(
    alloc: Global,
    asked: &Asked<'_>,
    supers: &MultiMap<Id, Id>,
) -> Result<MultiMap<Id, Id>, AllocError>
    ensures { IfOk result (λ blocks. (y : AnId) → listed (slice_cmp nat_cmp) blocks y
        ≡ blocked asked.now (listed (slice_cmp nat_cmp) supers.now) y) }
{
    let mut blocks = BTreeMap::new(alloc);
    for line in asked.lines {
        add_blocked(alloc, asked, supers, line, &mut blocks)?;
    }
    Ok(blocks)
}
