//! What is to be done about the holds of a kind.
ghost use Rattle.std.specs.Prelude.{◌≡◌, filter, map, IfOk};
ghost use Rattle.std.specs.List.{dedup};
ghost use Rattle.std.specs.Str.{bytes_eq};
ghost use Rattle.smpe_summary.specs.Text.{is_about, steps_about, subject, is_of, held_ids, lines_about, most_causes};

use crate::values::ToDo;
use fields::Id;
use std::alloc::{AllocError, Global};
use terms::HoldKind;

/// For how many SYSMODs the holds of a kind are told.
pub(crate) const MOST_HELD: usize = 4;

// How many lines there are at most about holds of a kind: those of the SYSMODs, and how many more there are.
const MOST_HELD_LINES: usize = MOST_HELD + 1;

// How many causes are told at most.
const MOST_CAUSES: usize = 20;

// How many lines there are at most about causes and holds, besides how many more causes there are.
const MOST_LINES: usize = 24;

// Whether this is to be done about a hold of the kind.
fn is_about(kind: HoldKind, step: &ToDo) -> bool
    ensures { result ≡ is_about kind step.now }
{
    match step {
        ToDo::Order(_) => false,
        ToDo::Act { .. } => matches!(kind, HoldKind::System),
        ToDo::Ask { .. } => matches!(kind, HoldKind::User),
        ToDo::Wait { .. } => matches!(kind, HoldKind::Error),
    }
}

/// What is to be done about the holds of the kind.
pub(crate) fn steps_about(
    alloc: Global,
    kind: HoldKind,
    todo: &[ToDo],
) -> Result<Vec<ToDo>, AllocError>
    ensures { IfOk result (λ steps. steps.items ≡ steps_about kind todo.now) }
{
    todo.iter()
        .filter(|step| is_about(kind, step))
        .copied()
        .collect(alloc)
}

// The SYSMOD to which something is to be done.
fn subject(step: &ToDo) -> Id
    ensures { result ≡ subject step.now }
{
    match step {
        ToDo::Order(id) => *id,
        ToDo::Act { id, .. } => *id,
        ToDo::Ask { id, .. } => *id,
        ToDo::Wait { id, .. } => *id,
    }
}

// Whether this is to be done to the SYSMOD.
fn is_of(id: Id, step: &ToDo) -> bool
    ensures { result ≡ is_of id step.now }
{
    subject(step) == id
}

/// What is to be done to the SYSMOD.
pub(crate) fn steps_of(alloc: Global, id: Id, steps: &[ToDo]) -> Result<Vec<ToDo>, AllocError>
    ensures { IfOk result (λ own. own.items ≡ filter (is_of id) steps.now) }
{
    steps
        .iter()
        .filter(|step| is_of(id, step))
        .copied()
        .collect(alloc)
}

// The SYSMOD of each step.
fn subjects(alloc: Global, steps: &[ToDo]) -> Result<Vec<Id>, AllocError>
    ensures { IfOk result (λ ids. ids.items ≡ map subject steps.now) }
{
    steps.iter().map(|step| subject(step)).collect(alloc)
}

// These ids, but for each that is the one before it.
fn without_repeats(mut ids: Vec<Id>) -> Vec<Id>
    ensures { result.items ≡ dedup bytes_eq ids.items }
{
    ids.dedup();
    ids
}

/// The SYSMODs with these holds, each once.
pub(crate) fn held_ids(alloc: Global, steps: &[ToDo]) -> Result<Vec<Id>, AllocError>
    ensures { IfOk result (λ ids. ids.items ≡ held_ids steps.now) }
{
    Ok(without_repeats(subjects(alloc, steps)?))
}

// How many lines tell of the holds of a kind.
fn lines_about(alloc: Global, kind: HoldKind, todo: &[ToDo]) -> Result<usize, AllocError>
    ensures { IfOk result (λ lines. lines ≡ lines_about todo.now kind) }
{
    let steps = steps_about(alloc, kind, todo)?;
    let ids = held_ids(alloc, steps.as_slice())?;
    Ok(ids.len().min(MOST_HELD_LINES))
}

/// How many causes are told, so that they and the holds fit on a screen.
pub(crate) fn most_causes(alloc: Global, todo: &[ToDo]) -> Result<usize, AllocError>
    ensures { IfOk result (λ most. most ≡ most_causes todo.now) }
{
    let acts = lines_about(alloc, HoldKind::System, todo)?;
    let asks = lines_about(alloc, HoldKind::User, todo)?;
    let waits = lines_about(alloc, HoldKind::Error, todo)?;
    let left = MOST_LINES
        .saturating_sub(acts)
        .saturating_sub(asks)
        .saturating_sub(waits);
    Ok(left.min(MOST_CAUSES))
}
