//! What the lines of a report say about its candidates.
ghost use Rattle.std.specs.Prelude.{◌≡◌, ◌++◌, map, IfOk, OnOk};
ghost use Rattle.std.specs.List.{list_any, list_all};
ghost use Rattle.terms.specs.Lookups.{is_in};
ghost use Rattle.judge_system.specs.TestSets.{tests_of};
ghost use Rattle.report.specs.Views.{status_view, line_view};
ghost use Rattle.why_verdict.specs.Conflicts.{by_delete, by_clash, by_others, is_chain_deleted, is_in_clash};
ghost use Rattle.why_verdict.specs.Conflicts.{passes_alone, meets, id_where, ids_where, others, deleters, clashing};

use fields::Id;
use judge_system::TestSet;
use report::{ReportLine, Status};
use std::alloc::{AllocError, Global};
use terms::Test;

/// Whether this is the test that fails if a DELETE names an id of the chain.
pub(crate) fn is_delete_test(test: Test) -> bool
    ensures { result ≡ by_delete test }
{
    matches!(test, Test::ChainDeleted)
}

/// Whether this is the test that fails if the SYSMOD clashes with other candidates.
pub(crate) fn is_clash_test(test: Test) -> bool
    ensures { result ≡ by_clash test }
{
    matches!(test, Test::InClash)
}

// Whether the result of the test depends on other candidates: on their DELETEs, or on clashes with them.
fn depends_on_others(test: Test) -> bool
    ensures { result ≡ by_others test }
{
    is_delete_test(test) || is_clash_test(test)
}

// Whether the tests include the one that fails if a DELETE names an id of the chain.
fn has_delete_test(tests: TestSet) -> bool
    ensures { result ≡ list_any by_delete (tests_of tests) }
{
    tests.chain_deleted
}

// Whether the tests include the one that fails if the SYSMOD clashes with other candidates.
fn has_clash_test(tests: TestSet) -> bool
    ensures { result ≡ list_any by_clash (tests_of tests) }
{
    tests.in_clash
}

// Whether the result of each of these tests depends on other candidates.
fn all_depend_on_others(tests: TestSet) -> bool
    ensures { result ≡ list_all by_others (tests_of tests) }
{
    tests.iter().all(|test| depends_on_others(test))
}

// Whether the candidate fails because a DELETE names an id of its chain.
fn is_chain_deleted(status: &Status) -> bool
    ensures { result ≡ is_chain_deleted (status_view status.now) }
{
    match status {
        Status::Failed(failure) => has_delete_test(failure.tests),
        _ => false,
    }
}

// Whether the candidate fails because it clashes with others.
fn is_in_clash(status: &Status) -> bool
    ensures { result ≡ is_in_clash (status_view status.now) }
{
    match status {
        Status::Failed(failure) => has_clash_test(failure.tests),
        _ => false,
    }
}

// Whether the candidate passes all tests that do not depend on others.
fn passes_alone(status: &Status) -> bool
    ensures { result ≡ passes_alone (status_view status.now) }
{
    match status {
        Status::Applied | Status::Accepted | Status::Superseded => true,
        Status::Failed(failure) => all_depend_on_others(failure.tests),
        _ => false,
    }
}

/// A condition on the status of a candidate.
#[derive(Clone, Copy)]
pub(crate) enum Condition {
    ChainDeleted,
    InClash,
    PassesAlone,
}

// Whether the status meets the condition.
fn meets(condition: Condition, status: &Status) -> bool
    ensures { result ≡ meets condition (status_view status.now) }
{
    match condition {
        Condition::ChainDeleted => is_chain_deleted(status),
        Condition::InClash => is_in_clash(status),
        Condition::PassesAlone => passes_alone(status),
    }
}

// Adds the id of the line, if its status meets the condition.
fn push_id_where(
    condition: Condition,
    line: &ReportLine,
    found: &mut Vec<Id>,
) -> Result<(), AllocError>
    ensures { OnOk result (found.new.items ≡ found.old.items ++ id_where (meets condition) (line_view line.now)) }
{
    match line {
        ReportLine::Status { id, status, .. } => {
            if meets(condition, status) {
                found.push(*id)?;
            }
            Ok(())
        }
        ReportLine::Nothing | ReportLine::Errsysmod { .. } => Ok(()),
    }
}

// The ids of the lines whose statuses meet the condition.
fn ids_where(
    alloc: Global,
    condition: Condition,
    lines: &[ReportLine],
) -> Result<Vec<Id>, AllocError>
    ensures { IfOk result (λ ids. ids.items ≡ ids_where (meets condition) (map line_view lines.now)) }
{
    let mut found = Vec::new(alloc);
    for line in lines {
        push_id_where(condition, line, &mut found)?;
    }
    Ok(found)
}

// These ids without `id`.
fn without_id(alloc: Global, id: Id, ids: &[Id]) -> Result<Vec<Id>, AllocError>
    ensures { IfOk result (λ found. found.items ≡ others id ids.now) }
{
    ids.iter()
        .filter(|other| id != **other)
        .copied()
        .collect(alloc)
}

// Whether the id is one of these.
fn is_among(ids: &[Id], id: Id) -> bool
    ensures { result ≡ is_in ids.now id }
{
    ids.contains(&id)
}

/// If the id fails J8 (a DELETE takes out its chain), the other candidates whose DELETEs decide that: those that pass
/// every test that does not depend on other candidates.
pub(crate) fn deleters(alloc: Global, lines: &[ReportLine], id: Id) -> Result<Vec<Id>, AllocError>
    ensures { IfOk result (λ ids. ids.items ≡ deleters (map line_view lines.now) id) }
{
    let deleted = ids_where(alloc, Condition::ChainDeleted, lines)?;
    if is_among(deleted.as_slice(), id) {
        let passing = ids_where(alloc, Condition::PassesAlone, lines)?;
        return without_id(alloc, id, passing.as_slice());
    }
    Ok(Vec::new(alloc))
}

/// If the id fails J9 (it clashes with another candidate), the other candidates that fail J9 too.
pub(crate) fn clashing_ids(
    alloc: Global,
    lines: &[ReportLine],
    id: Id,
) -> Result<Vec<Id>, AllocError>
    ensures { IfOk result (λ ids. ids.items ≡ clashing (map line_view lines.now) id) }
{
    let clashing = ids_where(alloc, Condition::InClash, lines)?;
    if is_among(clashing.as_slice(), id) {
        return without_id(alloc, id, clashing.as_slice());
    }
    Ok(Vec::new(alloc))
}
