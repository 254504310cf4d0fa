//! The tests of RESTORE.
ghost use Rattle.std.specs.Prelude.{◌≡◌, not, map, IfOk};
ghost use Rattle.std.specs.List.{list_any};
ghost use Rattle.terms.specs.Restore.{are_alike, is_alike, may_return};
ghost use Rattle.undo.specs.Scopes.{restoring_of};
ghost use Rattle.undo.specs.RestoreTests.{is_behind, failed_tests};

use crate::scope::RestoreScope;
use fields::Id;
use judge_system::TestSet;
use std::alloc::{AllocError, Global};
use sysmods_values::ElemChange;
use zones::{Element, Zone};

// Whether both zones have applied the SYSMOD, and by the `++VER` of the same number.
fn is_alike(zone: &Zone, other: &Zone, id: Id) -> bool
    ensures { result ≡ is_alike zone.now other.now id }
{
    let Some(applied) = zone.applied(id) else {
        return false;
    };
    match other.applied(id) {
        Some(other_applied) => applied.number == other_applied.number,
        None => false,
    }
}

// Whether one of the SYSMODs is not applied in both zones by the `++VER` of the same number.
fn any_unlike(zone: &Zone, other: &Zone, ids: &[Id]) -> bool
    ensures { result ≡ list_any (λ y. not (is_alike zone.now other.now y)) ids.now }
{
    ids.iter().any(|id| !is_alike(zone, other, *id))
}

// Whether both zones have applied the RMID and each UMID of the element, each by the `++VER` of the same number.
fn are_alike(zone: &Zone, other: &Zone, element: &Element) -> bool
    ensures { result ≡ are_alike zone.now other.now element.now }
{
    is_alike(zone, other, element.rmid) && !any_unlike(zone, other, element.umids.as_slice())
}

// Whether the element of the distribution zone may come back to the target zone: the target zone has applied its FMID,
// and it has applied its RMID and UMIDs by the same `++VER`s as the distribution zone.
#[tactic(auto, using(crate::proofs::Testing::returns_by))]
fn may_return(scope: &RestoreScope<'_, '_>, element: &Element) -> bool
    ensures { result ≡ may_return (restoring_of scope.now) element.now }
{
    scope.zone.is_applied(element.fmid) && are_alike(scope.zone, scope.accepted, element)
}

// Whether the distribution zone has the element of the statement at a level that may not come back to the target zone.
fn is_at_other_level(scope: &RestoreScope<'_, '_>, change: &ElemChange) -> bool
    ensures { result ≡ is_behind (restoring_of scope.now) change.now }
{
    match scope.accepted.element(change.elem_type, change.name) {
        Some(element) => !may_return(scope, element),
        None => false,
    }
}

// Whether the distribution zone has an element of one of these statements at a level that may not come back.
fn any_at_other_level(scope: &RestoreScope<'_, '_>, changes: &[ElemChange]) -> bool
    ensures { result ≡ list_any (is_behind (restoring_of scope.now)) changes.now }
{
    changes
        .iter()
        .any(|change| is_at_other_level(scope, change))
}

/// The tests that a candidate fails.
pub(crate) fn failed_tests(scope: &RestoreScope<'_, '_>, id: Id) -> TestSet
    ensures { result ≡ failed_tests (restoring_of scope.now) id }
{
    TestSet {
        already_accepted: scope.accepted.supplies(id),
        has_delete: !scope.vers.del(id).is_empty(),
        other_level: any_at_other_level(scope, scope.vers.global().changes_of(id)),
        ..TestSet::none()
    }
}

/// The tests that each candidate fails.
pub(crate) fn all_failed_tests(
    alloc: Global,
    scope: &RestoreScope<'_, '_>,
    ids: &[Id],
) -> Result<Vec<TestSet>, AllocError>
    ensures { IfOk result (λ rows. rows.items ≡ map (failed_tests (restoring_of scope.now)) ids.now) }
{
    ids.iter().map(|id| failed_tests(scope, *id)).collect(alloc)
}
