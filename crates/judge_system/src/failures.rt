//! Why each candidate that is not kept has failed.
ghost use Rattle.std.specs.Prelude.{◌<◌, IfOk, length};
ghost use Rattle.judge_system.specs.Views.{failure_view};
ghost use Rattle.judge_system.specs.Findings.{AreFindings, IsFailureAt, AreFailures};

use crate::failure::Failure;
use crate::kept::ids_at;
use crate::needs::sorted_open_needs;
use crate::test_set::TestSet;
use fields::{Id, IdList};
use std::alloc::{AllocError, Global};
use terms::NeedKind;

/// What is known about each candidate, by its place: the tests that it fails, its open needs, and its causers.
#[derive(Clone, Copy)]
pub(crate) struct Findings<'a> {
    pub(crate) tests: &'a [TestSet],
    pub(crate) unserved: &'a [Vec<(NeedKind, Id)>],
    pub(crate) causers: &'a [Vec<u32>],
}

// Why the candidate at the place failed.
fn failure_at(
    alloc: Global,
    ids: &[Id],
    findings: &Findings<'_>,
    place: usize,
) -> Result<Failure, AllocError>
    requires findings { AreFindings (length ids.now) findings.now }
    requires within { place < length ids.now }
    ensures { IfOk result (λ f. IsFailureAt ids.now findings.now place (failure_view f)) }
{
    let unserved = findings.unserved[place].as_slice();
    let causer_places = findings.causers[place].as_slice();
    let needs = sorted_open_needs(alloc, unserved)?;
    let causers = ids_at(alloc, ids, causer_places)?;
    Ok(Failure {
        tests: findings.tests[place],
        needs,
        causers,
    })
}

/// The candidates that are not kept, each with its failure, in their order.
pub(crate) fn failures(
    alloc: Global,
    ids: &[Id],
    kept: &IdList,
    findings: &Findings<'_>,
) -> Result<Vec<(Id, Failure)>, AllocError>
    requires { AreFindings (length ids.now) findings.now }
    ensures { IfOk result (λ failed. AreFailures ids.now kept.now findings.now (length ids.now) failed.items) }
{
    let mut failed = Vec::new(alloc);
    for i in 0..ids.len() {
        let id = ids[i];
        if kept.contains(id) {
            continue;
        }
        let failure = failure_at(alloc, ids, findings, i)?;
        failed.push((id, failure))?;
    }
    Ok(failed)
}
