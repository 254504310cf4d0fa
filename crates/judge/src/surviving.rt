//! The survivors: candidates that fail at most the test that looks only at survivors.
ghost use Rattle.std.specs.Prelude.{◌≡◌, ◌↔◌, length, map, Contains, IfOk};
ghost use Rattle.std.specs.List.{list_all};
ghost use Rattle.terms.specs.Types.{Id as AnId};
ghost use Rattle.terms.specs.Lookups.{IsRising};
ghost use Rattle.judge_system.specs.TestSets.{tests_of};
ghost use Rattle.judge.specs.Surviving.{is_clash, SurvivesIn};

use fields::{Id, IdList};
use judge_system::{TestSet, item_at};
use std::alloc::{AllocError, Global};
use terms::Test;

// Whether it is the test for clashes with other candidates. Only survivors fail it.
fn is_clash(test: Test) -> bool
    ensures { result ≡ is_clash test }
{
    matches!(test, Test::InClash)
}

// Whether a candidate that fails these tests survives: it fails at most the test for clashes.
fn survives_with(tests: TestSet) -> bool
    ensures { result ≡ list_all is_clash (tests_of tests) }
{
    tests.iter().all(is_clash)
}

/// The survivors among the candidates. `tests` has the tests that each candidate fails, in the order of the candidates.
pub(crate) fn survivors(
    alloc: Global,
    ids: &IdList,
    tests: &[TestSet],
) -> Result<IdList, AllocError>
    requires { length tests.now ≡ length ids.now }
    ensures rising { IfOk result (λ survivors. IsRising survivors) }
    ensures members { IfOk result (λ survivors. (x : AnId) → Contains survivors x
        ↔ SurvivesIn ids.now (map tests_of tests.now) (length ids.now) x) }
{
    let mut found = Vec::new(alloc);
    for i in 0..ids.len() {
        if !survives_with(item_at(tests, i)) {
            continue;
        }
        let id = ids.as_slice()[i];
        found.push(id)?;
    }
    Ok(IdList::from_vec(found))
}
