//! Why causers fail themselves.
ghost use Rattle.std.specs.Prelude.{◌≡◌, ◌++◌, not, find, option_copied, map, IfOk, OnOk};
ghost use Rattle.std.specs.List.{flat_map};
ghost use Rattle.std.specs.Ordering.{nat_cmp};
ghost use Rattle.std.specs.Cmp.Lexicographic.{slice_cmp};
ghost use Rattle.sorted.specs.MultiMap.{listed};
ghost use Rattle.terms.specs.Lookups.{is_nil, holds_of};
ghost use Rattle.judge_system.specs.Views.{need_view, failure_view};
ghost use Rattle.report.specs.Views.{line_view};
ghost use Rattle.smpe_summary.specs.Causes.{hold_why, test_why, is_unreceived, needs_why, why_of};
ghost use Rattle.smpe_summary.specs.Causes.{cause_by, cause_in};
ghost use Rattle.smpe_summary.specs.Told.{AreRanked};
ghost use Rattle.smpe_summary.specs.Views.{reason_view, cause_view};

use crate::values::{Cause, CauseReason};
use fields::Id;
use judge_system::{Failure, OpenNeed};
use report::{ReportLine, Status};
use sorted::multi_map::{MultiMap, listed};
use std::alloc::{AllocError, Global};
use std::cmp::Reverse;
use sysmods::GlobalZone;
use terms::{HoldKind, Test};

// The first hold of this kind on the SYSMOD, or the test if there is none.
fn hold_reason(
    global: &GlobalZone,
    id: Id,
    kind: HoldKind,
    test: Test,
) -> Result<CauseReason, AllocError>
    ensures { IfOk result (λ why. reason_view why ≡ hold_why test (holds_of global.now kind id)) }
{
    match global.holds_of(kind, id).next() {
        Some(hold) => Ok(CauseReason::Hold {
            kind: hold.kind,
            reason: hold.reason,
            comment: hold.comment.clone()?,
        }),
        None => Ok(CauseReason::Test(test)),
    }
}

// Why the SYSMOD fails this test.
fn test_reason(global: &GlobalZone, id: Id, test: Test) -> Result<CauseReason, AllocError>
    ensures { IfOk result (λ why. reason_view why ≡ test_why global.now id test) }
{
    match test {
        Test::HeldBySystem => hold_reason(global, id, HoldKind::System, test),
        Test::HeldByUser => hold_reason(global, id, HoldKind::User, test),
        _ => Ok(CauseReason::Test(test)),
    }
}

// Whether the id of the need is not received.
fn is_unreceived(global: &GlobalZone, need: &OpenNeed) -> bool
    ensures { result ≡ is_unreceived global.now (need_view need.now) }
{
    !global.is_received(need.id)
}

// The first open need whose id is not received.
fn first_unreceived<'f>(global: &GlobalZone, needs: &'f [OpenNeed]) -> Option<&'f OpenNeed>
    ensures { option_copied result ≡ find (λ n. is_unreceived global.now (need_view n)) needs.now }
{
    needs.iter().find(|need| is_unreceived(global, need))
}

// Why the SYSMOD with these open needs fails, if it passes all tests.
fn needs_reason(global: &GlobalZone, needs: &[OpenNeed]) -> CauseReason
    ensures { reason_view result ≡ needs_why global.now (map need_view needs.now) }
{
    match first_unreceived(global, needs) {
        Some(need) => CauseReason::Need {
            kind: need.kind,
            id: need.id,
        },
        None => CauseReason::Unknown,
    }
}

// Why the SYSMOD fails by itself.
fn reason_of(global: &GlobalZone, id: Id, failure: &Failure) -> Result<CauseReason, AllocError>
    ensures { IfOk result (λ why. reason_view why ≡ why_of global.now id (failure_view failure.now)) }
{
    match failure.tests.iter().next() {
        Some(test) => test_reason(global, id, test),
        None => Ok(needs_reason(global, failure.needs.as_slice())),
    }
}

/// Whether SYSMODs of the package fail because of this one.
pub(crate) fn is_causer(blocks: &MultiMap<Id, Id>, id: Id) -> bool
    ensures { result ≡ not (is_nil (listed (slice_cmp nat_cmp) blocks.now id)) }
{
    !listed(blocks, id).is_empty()
}

// Appends the cause that the SYSMOD is, if others fail because of it.
fn push_cause_by(
    global: &GlobalZone,
    blocks: &MultiMap<Id, Id>,
    id: Id,
    failure: &Failure,
    causes: &mut Vec<Cause>,
) -> Result<(), AllocError>
    ensures { OnOk result (map cause_view causes.new.items ≡ map cause_view causes.old.items
        ++ cause_by global.now (listed (slice_cmp nat_cmp) blocks.now) id (failure_view failure.now)) }
{
    if !is_causer(blocks, id) {
        return Ok(());
    }
    let fails = listed(blocks, id).len();
    let why = reason_of(global, id, failure)?;
    causes.push(Cause { id, fails, why })?;
    Ok(())
}

// Appends the cause that the SYSMOD of the line is, if it fails, and others because of it.
fn push_cause(
    global: &GlobalZone,
    blocks: &MultiMap<Id, Id>,
    line: &ReportLine,
    causes: &mut Vec<Cause>,
) -> Result<(), AllocError>
    ensures { OnOk result (map cause_view causes.new.items ≡ map cause_view causes.old.items
        ++ cause_in global.now (listed (slice_cmp nat_cmp) blocks.now) (line_view line.now)) }
{
    match line {
        ReportLine::Status { id, status, .. } => match status {
            Status::Failed(failure) => push_cause_by(global, blocks, *id, failure, causes),
            _ => Ok(()),
        },
        ReportLine::Nothing | ReportLine::Errsysmod { .. } => Ok(()),
    }
}

// The causes, in the order of their lines.
fn causes_by_line(
    alloc: Global,
    global: &GlobalZone,
    blocks: &MultiMap<Id, Id>,
    lines: &[ReportLine],
) -> Result<Vec<Cause>, AllocError>
    ensures { IfOk result (λ causes. map cause_view causes.items
        ≡ flat_map (cause_in global.now (listed (slice_cmp nat_cmp) blocks.now)) (map line_view lines.now)) }
{
    let mut causes = Vec::new(alloc);
    for line in lines {
        push_cause(global, blocks, line, &mut causes)?;
    }
    Ok(causes)
}

/// The causes, the worst first.
pub(crate) fn causes_of(
    alloc: Global,
    global: &GlobalZone,
    blocks: &MultiMap<Id, Id>,
    lines: &[ReportLine],
) -> Result<Vec<Cause>, AllocError>
    ensures { IfOk result (λ causes. AreRanked global.now (listed (slice_cmp nat_cmp) blocks.now)
        (map line_view lines.now) causes.items) }
{
    let mut causes = causes_by_line(alloc, global, blocks, lines)?;
    causes.sort_unstable_by_key(|cause| (Reverse(cause.fails), cause.id));
    Ok(causes)
}
