//! What is to be done.
ghost use Rattle.std.specs.Prelude.{◌≡◌, ◌++◌, map, IfOk, OnOk};
ghost use Rattle.std.specs.List.{flat_map};
ghost use Rattle.std.specs.Ordering.{nat_cmp};
ghost use Rattle.std.specs.Cmp.Lexicographic.{slice_cmp};
ghost use Rattle.terms.specs.Lookups.{holds_of};
ghost use Rattle.terms.specs.declared.kinds.HoldKind.TheVariants.{System, User};
ghost use Rattle.sorted.specs.MultiMap.{listed};
ghost use Rattle.judge_system.specs.Views.{need_view, failure_view};
ghost use Rattle.report.specs.Views.{line_view};
ghost use Rattle.smpe_summary.specs.declared.values.ToDo.TheVariants.{Order};
ghost use Rattle.smpe_summary.specs.Todo.{is_orderable, is_error_hold, order_of, wants_by, wants_in, wanted, act, ask};
ghost use Rattle.smpe_summary.specs.Todo.{wait_of, acts_of, acts_by, acts_in};
ghost use Rattle.smpe_summary.specs.Groups.{functions_of};
ghost use Rattle.smpe_summary.specs.Told.{IsTodo};

use crate::causes::is_causer;
use crate::group_lines::functions_of;
use crate::values::{Member, ToDo};
use fields::{Id, IdList};
use judge_system::{Failure, OpenNeed};
use report::{ReportLine, Status};
use sorted::multi_map::MultiMap;
use std::alloc::{AllocError, Global};
use sysmods::GlobalZone;
use terms::{HoldKind, NeedKind};

// Whether a SYSMOD that is received would serve needs of this kind.
fn is_orderable(kind: NeedKind) -> bool
    ensures { result ≡ is_orderable kind }
{
    matches!(
        kind,
        NeedKind::Fmid | NeedKind::Pre | NeedKind::Req | NeedKind::Ifreq
    )
}

/// Whether the need is for the reason of an ERROR hold.
pub(crate) fn is_error_hold(kind: NeedKind) -> bool
    ensures { result ≡ is_error_hold kind }
{
    matches!(kind, NeedKind::HoldError)
}

// Appends the id of the open need, if it is to be ordered.
fn push_order(global: &GlobalZone, need: &OpenNeed, found: &mut Vec<Id>) -> Result<(), AllocError>
    ensures { OnOk result (found.new.items ≡ found.old.items ++ order_of global.now (need_view need.now)) }
{
    if is_orderable(need.kind) && !global.is_received(need.id) {
        found.push(need.id)?;
    }
    Ok(())
}

// Appends what is to be ordered for these needs.
fn push_orders(
    global: &GlobalZone,
    needs: &[OpenNeed],
    found: &mut Vec<Id>,
) -> Result<(), AllocError>
    ensures { OnOk result (found.new.items
        ≡ found.old.items ++ flat_map (order_of global.now) (map need_view needs.now)) }
{
    for need in needs {
        push_order(global, need, found)?;
    }
    Ok(())
}

// Appends what is to be ordered for the SYSMOD, if others fail because of it.
fn push_orders_by(
    global: &GlobalZone,
    blocks: &MultiMap<Id, Id>,
    id: Id,
    failure: &Failure,
    found: &mut Vec<Id>,
) -> Result<(), AllocError>
    ensures { OnOk result (found.new.items ≡ found.old.items
        ++ wants_by global.now (listed (slice_cmp nat_cmp) blocks.now) id (failure_view failure.now)) }
{
    if !is_causer(blocks, id) {
        return Ok(());
    }
    push_orders(global, failure.needs.as_slice(), found)
}

// Appends what is to be ordered for the SYSMOD of the line, if it fails, and others because of it.
fn push_line_orders(
    global: &GlobalZone,
    blocks: &MultiMap<Id, Id>,
    line: &ReportLine,
    found: &mut Vec<Id>,
) -> Result<(), AllocError>
    ensures { OnOk result (found.new.items ≡ found.old.items
        ++ wants_in global.now (listed (slice_cmp nat_cmp) blocks.now) (line_view line.now)) }
{
    match line {
        ReportLine::Status { id, status, .. } => match status {
            Status::Failed(failure) => push_orders_by(global, blocks, *id, failure, found),
            _ => Ok(()),
        },
        ReportLine::Nothing | ReportLine::Errsysmod { .. } => Ok(()),
    }
}

// Appends what is to be ordered for the causers, more than once if several need it.
fn push_wanted(
    global: &GlobalZone,
    blocks: &MultiMap<Id, Id>,
    lines: &[ReportLine],
    found: &mut Vec<Id>,
) -> Result<(), AllocError>
    ensures { OnOk result (found.new.items ≡ found.old.items
        ++ wanted global.now (listed (slice_cmp nat_cmp) blocks.now) (map line_view lines.now)) }
{
    for line in lines {
        push_line_orders(global, blocks, line, found)?;
    }
    Ok(())
}

// What is to be ordered, more than once if several need it: the functions that these SYSMODs lack, and what the causers
// need.
fn all_wanted(
    alloc: Global,
    global: &GlobalZone,
    blocks: &MultiMap<Id, Id>,
    lines: &[ReportLine],
    members: &[Member],
) -> Result<Vec<Id>, AllocError>
    ensures { IfOk result (λ found. found.items ≡ functions_of members.now
        ++ wanted global.now (listed (slice_cmp nat_cmp) blocks.now) (map line_view lines.now)) }
{
    let mut found = functions_of(alloc, members)?;
    push_wanted(global, blocks, lines, &mut found)?;
    Ok(found)
}

// Appends the SYSTEM holds on the id.
fn push_acts(global: &GlobalZone, id: Id, todo: &mut Vec<ToDo>) -> Result<(), AllocError>
    ensures { OnOk result (todo.new.items ≡ todo.old.items ++ map (act id) (holds_of global.now System id)) }
{
    for hold in global.holds_of(HoldKind::System, id) {
        todo.push(ToDo::Act {
            id,
            reason: hold.reason,
        })?;
    }
    Ok(())
}

// Appends the USER holds on the id.
fn push_asks(global: &GlobalZone, id: Id, todo: &mut Vec<ToDo>) -> Result<(), AllocError>
    ensures { OnOk result (todo.new.items ≡ todo.old.items ++ map (ask id) (holds_of global.now User id)) }
{
    for hold in global.holds_of(HoldKind::User, id) {
        todo.push(ToDo::Ask {
            id,
            reason: hold.reason,
        })?;
    }
    Ok(())
}

// Appends the open need of the id, if it is for the reason of an ERROR hold.
fn push_wait(id: Id, need: &OpenNeed, todo: &mut Vec<ToDo>) -> Result<(), AllocError>
    ensures { OnOk result (todo.new.items ≡ todo.old.items ++ wait_of id (need_view need.now)) }
{
    if is_error_hold(need.kind) {
        todo.push(ToDo::Wait {
            id,
            reason: need.id,
        })?;
    }
    Ok(())
}

// Appends the reasons of the ERROR holds among the open needs of the id.
fn push_waits(id: Id, needs: &[OpenNeed], todo: &mut Vec<ToDo>) -> Result<(), AllocError>
    ensures { OnOk result (todo.new.items ≡ todo.old.items ++ flat_map (wait_of id) (map need_view needs.now)) }
{
    for need in needs {
        push_wait(id, need, todo)?;
    }
    Ok(())
}

// Appends the holds of a causer with this failure.
fn push_holds(
    global: &GlobalZone,
    id: Id,
    failure: &Failure,
    todo: &mut Vec<ToDo>,
) -> Result<(), AllocError>
    ensures { OnOk result (todo.new.items ≡ todo.old.items ++ acts_of global.now id (failure_view failure.now)) }
{
    push_acts(global, id, todo)?;
    push_asks(global, id, todo)?;
    push_waits(id, failure.needs.as_slice(), todo)
}

// Appends the holds of the SYSMOD, if others fail because of it.
fn push_holds_by(
    global: &GlobalZone,
    blocks: &MultiMap<Id, Id>,
    id: Id,
    failure: &Failure,
    todo: &mut Vec<ToDo>,
) -> Result<(), AllocError>
    ensures { OnOk result (todo.new.items ≡ todo.old.items
        ++ acts_by global.now (listed (slice_cmp nat_cmp) blocks.now) id (failure_view failure.now)) }
{
    if !is_causer(blocks, id) {
        return Ok(());
    }
    push_holds(global, id, failure, todo)
}

// Appends the holds of the SYSMOD of the line, if it fails, and others because of it.
fn push_line_holds(
    global: &GlobalZone,
    blocks: &MultiMap<Id, Id>,
    line: &ReportLine,
    todo: &mut Vec<ToDo>,
) -> Result<(), AllocError>
    ensures { OnOk result (todo.new.items ≡ todo.old.items
        ++ acts_in global.now (listed (slice_cmp nat_cmp) blocks.now) (line_view line.now)) }
{
    match line {
        ReportLine::Status { id, status, .. } => match status {
            Status::Failed(failure) => push_holds_by(global, blocks, *id, failure, todo),
            _ => Ok(()),
        },
        ReportLine::Nothing | ReportLine::Errsysmod { .. } => Ok(()),
    }
}

// Appends the holds of the causers.
fn push_all_holds(
    global: &GlobalZone,
    blocks: &MultiMap<Id, Id>,
    lines: &[ReportLine],
    todo: &mut Vec<ToDo>,
) -> Result<(), AllocError>
    ensures { OnOk result (todo.new.items ≡ todo.old.items
        ++ flat_map (acts_in global.now (listed (slice_cmp nat_cmp) blocks.now)) (map line_view lines.now)) }
{
    for line in lines {
        push_line_holds(global, blocks, line, todo)?;
    }
    Ok(())
}

// These ids as orders.
fn order_all(alloc: Global, ids: &IdList) -> Result<Vec<ToDo>, AllocError>
    ensures { IfOk result (λ todo. todo.items ≡ map Order ids.now) }
{
    ids.iter().map(|id| ToDo::Order(*id)).collect(alloc)
}

/// What is to be done: first what is to be ordered, for these SYSMODs or for the causers, and then the holds of the
/// causers.
pub(crate) fn todo_of(
    alloc: Global,
    global: &GlobalZone,
    blocks: &MultiMap<Id, Id>,
    lines: &[ReportLine],
    members: &[Member],
) -> Result<Vec<ToDo>, AllocError>
    ensures { IfOk result (λ todo. IsTodo global.now (listed (slice_cmp nat_cmp) blocks.now) (map line_view lines.now)
        members.now todo.items) }
{
    let orders = IdList::from_vec(all_wanted(alloc, global, blocks, lines, members)?);
    let mut todo = order_all(alloc, &orders)?;
    push_all_holds(global, blocks, lines, &mut todo)?;
    Ok(todo)
}
