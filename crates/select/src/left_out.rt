//! Why ids that SELECT and GROUP name are not candidates.
ghost use Rattle.std.specs.Prelude.{◌≡◌, ◌↔◌, ◌++◌, ◌||◌, not, Some, Contains, IfOk, OnOk, map};
ghost use Rattle.std.specs.List.{filter_map};
ghost use Rattle.std.specs.Option.{option_to_list};
ghost use Rattle.terms.specs.declared.not_chosen.NotChosen.{NotChosen as Reason};
ghost use Rattle.terms.specs.Types.{Id as AnId};
ghost use Rattle.terms.specs.Lookups.{IsRising, is_in};
ghost use Rattle.select.specs.Scopes.{is_open_in, named_ids};
ghost use Rattle.select.specs.Reasons.{reason_in, with_reason};

use crate::scope::Selecting;
use crate::start::{is_named, named_ids};
use fields::{Id, IdList};
use std::alloc::{AllocError, Global};
use terms::NotChosen;

// Whether the id gets no reason: SELECT and GROUP do not name it, EXCLUDE does, or it is open.
fn needs_no_reason(scope: &Selecting, id: Id) -> bool
    ensures { result ≡ (not (is_in (named_ids scope.now.selection) id) || is_in scope.now.selection.exclude id
        || is_open_in scope.now id) }
{
    let selection = scope.selection;
    !is_named(selection, id) || selection.exclude.contains(id) || scope.is_open(id)
}

// The first reason why a named id is not a candidate.
#[tactic(auto, unfolding(terms::specs::Candidates::not_chosen))]
fn reason_not_chosen(scope: &Selecting, id: Id) -> Option<NotChosen>
    ensures { result ≡ reason_in scope.now id }
{
    if needs_no_reason(scope, id) {
        None
    } else if scope.zone.supplies(id) {
        Some(NotChosen::Already)
    } else if scope.zone.is_deleted(id) {
        Some(NotChosen::Deleted)
    } else if !scope.global.is_received(id) {
        Some(NotChosen::Missing)
    } else {
        Some(NotChosen::NoVer)
    }
}

// Adds the id with its reason, if it has one.
fn push_with_reason(
    scope: &Selecting,
    id: Id,
    found: &mut Vec<(Id, NotChosen)>,
) -> Result<(), AllocError>
    ensures { OnOk result (found.new.items ≡ found.old.items ++ option_to_list (with_reason scope.now id)) }
{
    if let Some(why) = reason_not_chosen(scope, id) {
        found.push((id, why))?;
    }
    Ok(())
}

// The ids that have a reason, each with its reason.
fn ids_with_reasons(
    alloc: Global,
    scope: &Selecting,
    ids: &[Id],
) -> Result<Vec<(Id, NotChosen)>, AllocError>
    ensures { IfOk result (λ found. found.items ≡ filter_map (with_reason scope.now) ids.now) }
{
    let mut found = Vec::new(alloc);
    for id in ids {
        push_with_reason(scope, *id, &mut found)?;
    }
    Ok(found)
}

/// The ids of SELECT and GROUP that are neither excluded nor open, rising, each with the reason.
pub(crate) fn left_out_with_reasons(
    alloc: Global,
    scope: &Selecting,
) -> Result<Vec<(Id, NotChosen)>, AllocError>
    ensures rising { IfOk result (λ found. IsRising (map (λ f. f.0) found.items)) }
    ensures members { IfOk result (λ found. (x : AnId) (why : Reason)
        → Contains {X = AnId × Reason} found.items (x, why) ↔ (reason_in scope.now x ≡ Some why)) }
{
    let named = IdList::from_vec(named_ids(alloc, scope.selection)?);
    ids_with_reasons(alloc, scope, named.as_slice())
}
