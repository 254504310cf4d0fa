//! The summary of a package.
ghost use Rattle.std.specs.Prelude.{◌≡◌, not, filter, map, IfOk};
ghost use Rattle.report.specs.Views.{line_view};
ghost use Rattle.std.specs.Ordering.{nat_cmp};
ghost use Rattle.std.specs.Cmp.Lexicographic.{slice_cmp};
ghost use Rattle.sorted.specs.MultiMap.{listed};
ghost use Rattle.terms.specs.Lookups.{is_nil, is_in};
ghost use Rattle.terms.specs.Choice.{counting};
ghost use Rattle.sysmods.specs.Choices.{choice};
ghost use Rattle.smpe_summary.specs.Asked.{is_failed, is_candidate, ids_where, going_on};
ghost use Rattle.smpe_summary.specs.Sets.{IsSetOf};
ghost use Rattle.smpe_summary.specs.Blocked.{blocked};
ghost use Rattle.smpe_summary.specs.Told.{AreRanked, IsTodo};
ghost use Rattle.smpe_summary.specs.Summary.{IsSummary};
ghost use Rattle.smpe_summary.specs.Todo.{taken_off};
ghost use Rattle.smpe_summary.specs.Views.{taken_view};

use crate::asked::Asked;
use crate::blockers::blocked;
use crate::causes::causes_of;
use crate::lines::{Condition, ids_where};
use crate::members::members_of;
use crate::superseding::superseders;
use crate::taken::{applied_ids, taken_off};
use crate::todo::todo_of;
use crate::values::{Cause, Member, Summary, TakenOff, ToDo};
use fields::{Id, IdList};
use report::ReportLine;
use sorted::multi_map::MultiMap;
use std::alloc::{AllocError, Global};
use sysmods::VerChoice;
use zones::counting_vers;

// The causes of failures, and what is to be done.
#[derive(Drop)]
struct Found {
    causes: Vec<Cause>,
    todo: Vec<ToDo>,
}

// The causes of failures, and what is to be done.
fn causes_and_todo(
    alloc: Global,
    asked: &Asked<'_>,
    supers: &MultiMap<Id, Id>,
    members: &[Member],
) -> Result<Found, AllocError>
    ensures causes { IfOk result (λ found. AreRanked asked.now.global
        (blocked asked.now (listed (slice_cmp nat_cmp) supers.now)) asked.now.lines found.causes.items) }
    ensures todo { IfOk result (λ found. IsTodo asked.now.global
        (blocked asked.now (listed (slice_cmp nat_cmp) supers.now)) asked.now.lines members.now found.todo.items) }
{
    let blocks = blocked(alloc, asked, supers)?;
    let causes = causes_of(alloc, asked.global, &blocks, asked.lines)?;
    let todo = todo_of(alloc, asked.global, &blocks, asked.lines, members)?;
    Ok(Found { causes, todo })
}

// The ids that are not of the package.
fn others_among(alloc: Global, known: &IdList, ids: &[Id]) -> Result<Vec<Id>, AllocError>
    ensures { IfOk result (λ found. found.items ≡ filter (λ x. not (is_in known.now x)) ids.now) }
{
    ids.iter()
        .filter(|id| !known.contains(**id))
        .copied()
        .collect(alloc)
}

// Whether a line says FAILED.
fn has_failures(alloc: Global, lines: &[ReportLine]) -> Result<bool, AllocError>
    ensures { IfOk result (λ found. found ≡ not (is_nil (ids_where is_failed (map line_view lines.now)))) }
{
    Ok(!ids_where(alloc, Condition::Fails, lines)?.is_empty())
}

// What the DELETEs of those that go on take off.
fn taken_off_by(
    alloc: Global,
    asked: &Asked<'_>,
    vers: &VerChoice<'_>,
    going: &[Id],
) -> Result<Vec<TakenOff>, AllocError>
    ensures { IfOk result (λ found. map taken_view found.items
        ≡ taken_off vers.now.global.now (choice vers.now) asked.now.zone going.now) }
{
    let applied = applied_ids(alloc, asked.zone)?;
    taken_off(alloc, vers, asked.zone, applied.as_slice(), going)
}

// The summary by the `++VER`s that count, the candidates and those that go on.
fn summary_over(
    alloc: Global,
    asked: &Asked<'_>,
    candidates: &IdList,
    vers: &VerChoice<'_>,
    going: &[Id],
) -> Result<Summary, AllocError>
    requires candidates { IsSetOf candidates.now (ids_where is_candidate asked.now.lines) }
    requires choice { choice vers.now ≡ counting asked.now.global asked.now.zone candidates.now }
    requires global { vers.now.global.now ≡ asked.now.global }
    requires going { going.now ≡ going_on asked.now }
    ensures { IfOk result (IsSummary asked.now) }
{
    let supers = superseders(alloc, vers, going)?;
    let members = members_of(alloc, asked, &supers, candidates)?;
    let Found { causes, todo } = causes_and_todo(alloc, asked, &supers, members.as_slice())?;
    let also = others_among(alloc, asked.package, going)?;
    Ok(Summary {
        kind: asked.zone.kind(),
        members,
        also,
        causes,
        todo,
        taken_off: taken_off_by(alloc, asked, vers, going)?,
        holds_read: asked.holds_read,
        has_failures: has_failures(alloc, asked.lines)?,
    })
}

/// The summary of what the lines say of the package.
pub fn summary_of(alloc: Global, asked: &Asked<'_>) -> Result<Summary, AllocError>
    ensures { IfOk result (IsSummary asked.now) }
{
    let candidates = ids_where(alloc, Condition::IsCandidate, asked.lines)?;
    let candidates = IdList::from_vec(candidates);
    let vers = counting_vers(alloc, asked.global, asked.zone, &candidates)?;
    let going = ids_where(alloc, Condition::GoesOn, asked.lines)?;
    summary_over(alloc, asked, &candidates, &vers, going.as_slice())
}
