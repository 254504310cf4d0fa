//! The failed tests of each candidate.
ghost use Rattle.std.specs.Prelude.{◌≡◌, filter, IfOk};
ghost use Rattle.terms.specs.Beside.{Beside};
ghost use Rattle.terms.specs.Failures.{all_tests};
ghost use Rattle.judge_system.specs.TestSets.{tests_of};
ghost use Rattle.judge_faults.specs.Rows.{fails_test, row_of};

use crate::own::OwnFaults;
use indexmap::IndexSet;
use judge_system::{TestSet, item_at};
use std::alloc::{AllocError, Global};

// The tests that a candidate fails, given what it fails by itself and whether it clashes with another one.
fn failed_test_set(own: OwnFaults, clashes: bool) -> TestSet
    ensures { tests_of result ≡ filter (fails_test own clashes) all_tests }
{
    TestSet {
        held_by_system: own.held_by_system,
        held_by_user: own.held_by_user,
        forbidden_by_npre: own.forbidden_by_npre,
        owned_by_another: own.owned_by_another,
        regression: own.regression,
        nothing_to_update: own.nothing_to_update,
        not_in_target: own.not_in_target,
        chain_deleted: own.chain_deleted,
        in_clash: clashes,
        several_fit: own.several_fit,
        ..TestSet::none()
    }
}

/// The tests that each candidate fails, given which candidates clash.
pub(crate) fn all_failed_tests(
    alloc: Global,
    faults: &[OwnFaults],
    clashing: &IndexSet<usize>,
) -> Result<Vec<TestSet>, AllocError>
    ensures { IfOk result (λ sets. Beside (λ n own tests. tests_of tests ≡ row_of clashing.now.keys n own) faults.now
        sets.items) }
{
    let mut sets = Vec::new(alloc);
    for i in 0..faults.len() {
        let clashes = clashing.contains(&i);
        let tests = failed_test_set(item_at(faults, i), clashes);
        sets.push(tests)?;
    }
    Ok(sets)
}
