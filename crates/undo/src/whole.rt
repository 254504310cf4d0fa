//! Whether a RESTORE takes off all its candidates.
ghost use Rattle.std.specs.Prelude.{◌≡◌, List, All, IsTrue, IfOk};
ghost use Rattle.std.specs.List.{list_all};
ghost use Rattle.terms.specs.Types.{Id as AnId};
ghost use Rattle.terms.specs.Lookups.{is_applied, is_in, is_nil};
ghost use Rattle.terms.specs.Restore.{restore_candidates};
ghost use Rattle.judge_system.specs.TestSets.{tests_of};
ghost use Rattle.undo.specs.RestoreTests.{failed_tests};
ghost use Rattle.undo.specs.Scopes.{restoring_of, restoring_from};
ghost use Rattle.undo.specs.Whole.{HasDependents, GoesWhole};

use crate::dependences::dependence_pairs;
use crate::element_changers::is_changed_outside;
use crate::scope::{RestoreScope, applied_ids};
use crate::tests::failed_tests;
use fields::{Id, IdList};
use std::alloc::{AllocError, Global};
use sysmods::GlobalZone;
use zones::{Candidates, Zone, counting_vers};

// Whether all candidates pass the tests.
fn all_pass(scope: &RestoreScope<'_, '_>, ids: &[Id]) -> bool
    ensures { result ≡ list_all (λ x. is_nil (tests_of (failed_tests (restoring_of scope.now) x))) ids.now }
{
    ids.iter().all(|id| failed_tests(scope, *id).is_empty())
}

// Whether the second id of each pair is in the list.
fn contains_seconds(list: &IdList, pairs: &[(Id, Id)]) -> bool
    ensures { result ≡ list_all (λ p. is_in list.now p.1) pairs.now }
{
    pairs.iter().all(|pair| list.contains(pair.1))
}

// Whether all applied SYSMODs that depend on candidates are candidates.
fn has_dependents(
    alloc: Global,
    scope: &RestoreScope<'_, '_>,
    ids: &IdList,
) -> Result<bool, AllocError>
    requires { All (λ x. IsTrue (is_applied scope.now.zone.now x)) ids.now }
    ensures { IfOk result (λ has. IsTrue has → HasDependents (restoring_of scope.now) ids.now) }
{
    let pairs = dependence_pairs(alloc, scope, ids)?;
    Ok(contains_seconds(ids, pairs.as_slice()))
}

// Whether the candidates pass the tests and need no other SYSMODs.
fn is_whole(alloc: Global, scope: &RestoreScope<'_, '_>, ids: &IdList) -> Result<bool, AllocError>
    requires { All (λ x. IsTrue (is_applied scope.now.zone.now x)) ids.now }
    ensures { IfOk result (λ whole. IsTrue whole → (list : List AnId)
        → ids.now ≡ restore_candidates (restoring_of scope.now) list
        → GoesWhole (restoring_of scope.now) list ids.now) }
{
    if !all_pass(scope, ids.as_slice()) {
        return Ok(false);
    }
    if is_changed_outside(alloc, scope, ids)? {
        return Ok(false);
    }
    has_dependents(alloc, scope, ids)
}

/// Whether a RESTORE of this target zone from its distribution zone takes off all its candidates, because they pass the
/// tests and need no other SYSMODs. It looks at each element once, so it makes no pair of two that change one element.
/// The candidates may be those of any list.
pub fn takes_all(
    alloc: Global,
    global: &GlobalZone,
    zone: &Zone,
    accepted: &Zone,
    candidates: &Candidates,
) -> Result<bool, AllocError>
    requires { All (λ x. IsTrue (is_applied zone.now x)) candidates.now.ids }
    ensures { IfOk result (λ all. IsTrue all → (list : List AnId)
        → candidates.now.ids ≡ restore_candidates (restoring_from global.now zone.now accepted.now) list
        → GoesWhole (restoring_from global.now zone.now accepted.now) list candidates.now.ids) }
{
    let none = IdList::new(alloc);
    let vers = counting_vers(alloc, global, zone, &none)?;
    let applied = applied_ids(alloc, zone)?;
    let scope = RestoreScope {
        vers: &vers,
        zone,
        accepted,
        applied: applied.as_slice(),
    };
    is_whole(alloc, &scope, &candidates.ids)
}
