//! A summary as a value.
ghost use Rattle.std.specs.Prelude.{◌≡◌, filter, map, IfOk};
ghost use Rattle.smpe_summary.specs.Views.{cause_view, taken_view};
ghost use Rattle.serde_json.specs.View.{view};
ghost use Rattle.smpe_json.specs.Documents.{group_name, group_names, member_value, is_named};
ghost use Rattle.smpe_json.specs.Documents.{group_value, cause_value, taken_value, summary_value, about_reason};
ghost use Rattle.smpe_json.specs.Documents.{step_value};

use crate::texts::{id_str, reason_str, shown};
use crate::values::id_values;
use fields::Id;
use serde_json::{Value, json};
use smpe_summary::{Cause, Group, Member, Summary, TakenOff, ToDo, append_cause_text};
use std::alloc::{AllocError, Global};

/// The names of the groups, in the order of a document.
const GROUP_NAMES: [&str; 10] = [
    "applied",
    "superseded",
    "superseded_by",
    "failed",
    "not_decided",
    "no_function",
    "already_on",
    "deleted",
    "not_received",
    "no_ver",
];

// The name of a group.
fn group_name(group: &Group) -> &'static str
    ensures { result.now ≡ group_name group.now }
{
    match group {
        Group::Applied => "applied",
        Group::Superseded => "superseded",
        Group::SupersededBy(_) => "superseded_by",
        Group::Failed => "failed",
        Group::NotDecided => "not_decided",
        Group::NoFunction(_) => "no_function",
        Group::AlreadyOn => "already_on",
        Group::Deleted => "deleted",
        Group::NotReceived => "not_received",
        Group::NoVer => "no_ver",
    }
}

// A SYSMOD of the package as it stands in its group: its id, beside the one that supersedes it or its function.
fn member_value(alloc: Global, member: &Member) -> Result<Value, AllocError>
    ensures { IfOk result (λ value. view value ≡ member_value member.now) }
{
    let id = id_str(&member.id);
    match &member.group {
        Group::SupersededBy(by) => json!(in alloc; {"id": id, "by": id_str(by)}),
        Group::NoFunction(function) => json!(in alloc; {"id": id, "function": id_str(function)}),
        _ => Value::try_from_str(alloc, id),
    }
}

// The members of a group as a list.
fn values_in_group(alloc: Global, members: &[Member], name: &str) -> Result<Vec<Value>, AllocError>
    ensures { IfOk result (λ values. map view values.items
        ≡ map member_value (filter (is_named name.now) members.now)) }
{
    let mut values = Vec::new(alloc);
    for member in members {
        if group_name(&member.group) != name {
            continue;
        }
        values.push(member_value(alloc, member)?)?;
    }
    Ok(values)
}

// A group as an object.
fn group_value(alloc: Global, members: &[Member], name: &str) -> Result<Value, AllocError>
    ensures { IfOk result (λ value. view value ≡ group_value members.now name.now) }
{
    let ids = values_in_group(alloc, members, name)?;
    json!(in alloc; {"group": name, "ids": ids})
}

// The groups of these names as a list.
fn values_of_groups(
    alloc: Global,
    members: &[Member],
    names: &[&str],
) -> Result<Vec<Value>, AllocError>
    ensures { IfOk result (λ values. map view values.items
        ≡ map (group_value members.now) (map (λ name. name.now) names.now)) }
{
    let mut values = Vec::new(alloc);
    for name in names {
        values.push(group_value(alloc, members, *name)?)?;
    }
    Ok(values)
}

// All groups as a list.
fn group_values(alloc: Global, members: &[Member]) -> Result<Vec<Value>, AllocError>
    ensures { IfOk result (λ values. map view values.items ≡ map (group_value members.now) group_names) }
{
    values_of_groups(alloc, members, &GROUP_NAMES)
}

// A causer as an object: how many fail because of it, and why it fails.
fn cause_value(alloc: Global, cause: &Cause) -> Result<Value, AllocError>
    ensures { IfOk result (λ value. view value ≡ cause_value (cause_view cause.now)) }
{
    let mut text = Vec::new(alloc);
    append_cause_text(&cause.why, &mut text)?;
    let text = shown(alloc, text.as_slice())?;
    json!(in alloc; {"id": id_str(&cause.id), "fails": cause.fails, "text": &text})
}

// Causers as a list.
fn cause_values(alloc: Global, causes: &[Cause]) -> Result<Vec<Value>, AllocError>
    ensures { IfOk result (λ values. map view values.items ≡ map cause_value (map cause_view causes.now)) }
{
    let mut values = Vec::new(alloc);
    for cause in causes {
        values.push(cause_value(alloc, cause)?)?;
    }
    Ok(values)
}

// What a DELETE takes off as an object.
fn taken_value(alloc: Global, taken: &TakenOff) -> Result<Value, AllocError>
    ensures { IfOk result (λ value. view value ≡ taken_value (taken_view taken.now)) }
{
    let ids = id_values(alloc, taken.ids.as_slice())?;
    let usermods = id_values(alloc, taken.usermods.as_slice())?;
    json!(in alloc; {"by": id_str(&taken.by), "ids": ids, "usermods": usermods})
}

// What each DELETE takes off as a list.
fn taken_values(alloc: Global, taken_off: &[TakenOff]) -> Result<Vec<Value>, AllocError>
    ensures { IfOk result (λ values. map view values.items ≡ map taken_value (map taken_view taken_off.now)) }
{
    let mut values = Vec::new(alloc);
    for taken in taken_off {
        values.push(taken_value(alloc, taken)?)?;
    }
    Ok(values)
}

/// A summary as an object, without what is to be done.
pub(crate) fn summary_value(alloc: Global, summary: &Summary) -> Result<Value, AllocError>
    ensures { IfOk result (λ value. view value ≡ summary_value summary.now) }
{
    let groups = group_values(alloc, summary.members.as_slice())?;
    let also = id_values(alloc, summary.also.as_slice())?;
    let causes = cause_values(alloc, summary.causes.as_slice())?;
    let taken_off = taken_values(alloc, summary.taken_off.as_slice())?;
    json!(in alloc; {"groups": groups, "also": also, "causes": causes, "taken_off": taken_off})
}

// What is to be done about a hold as an object.
fn about_reason(alloc: Global, action: &str, id: &Id, reason: &str) -> Result<Value, AllocError>
    ensures { IfOk result (λ value. view value ≡ about_reason action.now id.now reason.now) }
{
    json!(in alloc; {"action": action, "id": id_str(id), "reason": reason})
}

// What is to be done as an object.
fn step_value(alloc: Global, step: &ToDo) -> Result<Value, AllocError>
    ensures { IfOk result (λ value. view value ≡ step_value step.now) }
{
    match step {
        ToDo::Order(id) => json!(in alloc; {"action": "order", "id": id_str(id)}),
        ToDo::Act { id, reason } => about_reason(alloc, "act", id, reason_str(reason)),
        ToDo::Ask { id, reason } => about_reason(alloc, "ask", id, reason_str(reason)),
        ToDo::Wait { id, reason } => about_reason(alloc, "wait", id, id_str(reason)),
    }
}

/// What is to be done as a list.
pub(crate) fn step_values(alloc: Global, steps: &[ToDo]) -> Result<Vec<Value>, AllocError>
    ensures { IfOk result (λ values. map view values.items ≡ map step_value steps.now) }
{
    let mut values = Vec::new(alloc);
    for step in steps {
        values.push(step_value(alloc, step)?)?;
    }
    Ok(values)
}
