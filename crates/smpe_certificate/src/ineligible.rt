//! The candidates that are not eligible.
ghost use Rattle.std.specs.Prelude.{◌≡◌, [], Contains, IfOk, IfSome, IfNone, length};
ghost use Rattle.judge_system.specs.TestSets.{tests_of};
ghost use Rattle.smpe_certificate.specs.ByNumber.{AreIneligible};

use crate::facts::IneligibleFact;
use fields::Id;
use judge_system::{TestSet, item_at};
use std::alloc::{AllocError, Global};
use terms::Test;

// The first test of the set.
fn first_test(tests: TestSet) -> Option<Test>
    ensures some { IfSome result (λ test. Contains (tests_of tests) test) }
    ensures none { IfNone result (tests_of tests ≡ []) }
{
    tests.iter().next()
}

/// Each candidate that fails a test, with the first one. `tests` has the tests that each candidate fails.
pub(crate) fn ineligible_facts(
    alloc: Global,
    ids: &[Id],
    tests: &[TestSet],
) -> Result<Vec<IneligibleFact>, AllocError>
    requires { length tests.now ≡ length ids.now }
    ensures { IfOk result (λ facts. AreIneligible ids.now tests.now (length ids.now) facts.items) }
{
    let mut facts = Vec::new(alloc);
    for i in 0..ids.len() {
        let Some(test) = first_test(item_at(tests, i)) else {
            continue;
        };
        facts.push(IneligibleFact { id: ids[i], test })?;
    }
    Ok(facts)
}
