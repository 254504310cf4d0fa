//! The group of each SYSMOD of the package.
ghost use Rattle.std.specs.Prelude.{◌≡◌, ◌++◌, ◌&&◌, ◌∷◌, [], not, find, option_copied, map, filter, IfOk, OnOk};
ghost use Rattle.std.specs.Ordering.{nat_cmp};
ghost use Rattle.std.specs.Cmp.Lexicographic.{slice_cmp};
ghost use Rattle.sorted.specs.MultiMap.{listed};
ghost use Rattle.terms.specs.Lookups.{is_in, at_most_one};
ghost use Rattle.judge_system.specs.Views.{need_view, failure_view};
ghost use Rattle.report.specs.Views.{status_view, line_view};
ghost use Rattle.smpe_summary.specs.Groups.{is_fmid, lacks_function, by_function, failed_group, sure_group, status_group};
ghost use Rattle.smpe_summary.specs.Groups.{a_member, known_member, zone_group, line_member, other_member};
ghost use Rattle.smpe_summary.specs.Groups.{members_of};

use crate::asked::Asked;
use crate::values::{Group, Member};
use fields::{Id, IdList};
use judge_system::{Failure, OpenNeed};
use report::{ReportLine, Status};
use sorted::multi_map::{MultiMap, listed};
use std::alloc::{AllocError, Global};
use sysmods::GlobalZone;
use terms::NeedKind;

// Whether the need is for an FMID.
fn is_fmid(kind: NeedKind) -> bool
    ensures { result ≡ is_fmid kind }
{
    matches!(kind, NeedKind::Fmid)
}

// Whether the need is for a function that is not received.
fn lacks_function(global: &GlobalZone, need: &OpenNeed) -> bool
    ensures { result ≡ lacks_function global.now (need_view need.now) }
{
    is_fmid(need.kind) && !global.is_received(need.id)
}

// The first need for a function that is not received.
fn lacked_function<'f>(global: &GlobalZone, needs: &'f [OpenNeed]) -> Option<&'f OpenNeed>
    ensures { option_copied result ≡ find (λ n. lacks_function global.now (need_view n)) needs.now }
{
    needs.iter().find(|need| lacks_function(global, need))
}

// The group of one that fails and that none that goes on supersedes.
fn group_by_function(global: &GlobalZone, failure: &Failure) -> Group
    ensures { result ≡ by_function (find (lacks_function global.now) (failure_view failure.now).needs) }
{
    match lacked_function(global, failure.needs.as_slice()) {
        Some(need) => Group::NoFunction(need.id),
        None => Group::Failed,
    }
}

/// The group of one that fails, with those that go on and supersede it.
pub(crate) fn failed_group(global: &GlobalZone, supers: &[Id], failure: &Failure) -> Group
    ensures { result ≡ failed_group global.now supers.now (failure_view failure.now) }
{
    match supers.first() {
        Some(by) => Group::SupersededBy(*by),
        None => group_by_function(global, failure),
    }
}

// The group, unless it is not sure that all that belongs to the id was received.
fn sure_group(unsure: &IdList, id: Id, group: Group) -> Group
    ensures { result ≡ sure_group unsure.now id group }
{
    if unsure.contains(id) {
        return Group::NotDecided;
    }
    group
}

// The group by the status of the line, if the command took it up.
fn status_group(
    asked: &Asked<'_>,
    supers: &MultiMap<Id, Id>,
    id: Id,
    status: &Status,
) -> Option<Group>
    ensures { result ≡ status_group asked.now (listed (slice_cmp nat_cmp) supers.now) id (status_view status.now) }
{
    match status {
        Status::Applied => Some(sure_group(asked.unsure, id, Group::Applied)),
        Status::Accepted => Some(sure_group(asked.unsure, id, Group::Applied)),
        Status::Superseded => Some(sure_group(asked.unsure, id, Group::Superseded)),
        Status::Failed(failure) => { Some(failed_group(asked.global, listed(supers, id), failure)) }
        _ => None,
    }
}

// Appends the member, if it has a group.
fn push_if_grouped(
    id: Id,
    group: Option<Group>,
    members: &mut Vec<Member>,
) -> Result<(), AllocError>
    ensures { OnOk result (members.new.items ≡ members.old.items ++ map (a_member id) (at_most_one group)) }
{
    if let Some(group) = group {
        members.push(Member { id, group })?;
    }
    Ok(())
}

// Appends the member with this status, if it is of the package and the command took it up.
fn push_known_member(
    asked: &Asked<'_>,
    supers: &MultiMap<Id, Id>,
    id: Id,
    status: &Status,
    members: &mut Vec<Member>,
) -> Result<(), AllocError>
    ensures { OnOk result (members.new.items ≡ members.old.items
        ++ known_member asked.now (listed (slice_cmp nat_cmp) supers.now) id (status_view status.now)) }
{
    if !asked.package.contains(id) {
        return Ok(());
    }
    push_if_grouped(id, status_group(asked, supers, id, status), members)
}

// Appends the member of the line, if it is of the package and the command took it up.
fn push_line_member(
    asked: &Asked<'_>,
    supers: &MultiMap<Id, Id>,
    line: &ReportLine,
    members: &mut Vec<Member>,
) -> Result<(), AllocError>
    ensures { OnOk result (members.new.items ≡ members.old.items
        ++ line_member asked.now (listed (slice_cmp nat_cmp) supers.now) (line_view line.now)) }
{
    match line {
        ReportLine::Status { id, status, .. } => {
            push_known_member(asked, supers, *id, status, members)
        }
        ReportLine::Nothing | ReportLine::Errsysmod { .. } => Ok(()),
    }
}

// The group by the zones, of one that the command did not take up.
fn zone_group(asked: &Asked<'_>, id: Id) -> Group
    ensures { result ≡ zone_group asked.now id }
{
    if asked.zone.supplies(id) {
        Group::AlreadyOn
    } else if asked.zone.is_deleted(id) {
        Group::Deleted
    } else if asked.global.is_received(id) {
        Group::NoVer
    } else {
        Group::NotReceived
    }
}

// Appends the SYSMOD of the package, if it is not among the candidates.
fn push_other_member(
    asked: &Asked<'_>,
    candidates: &IdList,
    id: Id,
    members: &mut Vec<Member>,
) -> Result<(), AllocError>
    ensures { OnOk result (members.new.items
        ≡ members.old.items ++ other_member asked.now candidates.now id) }
{
    if candidates.contains(id) {
        return Ok(());
    }
    let group = zone_group(asked, id);
    members.push(Member { id, group })?;
    Ok(())
}

/// The SYSMODs of the package with their groups: those that have a line, and then the others.
pub(crate) fn members_of(
    alloc: Global,
    asked: &Asked<'_>,
    supers: &MultiMap<Id, Id>,
    candidates: &IdList,
) -> Result<Vec<Member>, AllocError>
    ensures { IfOk result (λ members. members.items
        ≡ members_of asked.now (listed (slice_cmp nat_cmp) supers.now) candidates.now) }
{
    let mut members = Vec::new(alloc);
    for line in asked.lines {
        push_line_member(asked, supers, line, &mut members)?;
    }
    for id in asked.package.as_slice() {
        push_other_member(asked, candidates, *id, &mut members)?;
    }
    Ok(members)
}
