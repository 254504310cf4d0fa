//! What APPLY or ACCEPT would make of an id, in words.
ghost use Rattle.std.specs.Prelude.{◌≡◌, ◌++◌, ◌∷◌, ◌&&◌, [], Some, map, option_map, OnOk};
ghost use Rattle.std.specs.List.{flat_map};
ghost use Rattle.std.specs.Str.{bytes_eq};
ghost use Rattle.terms.specs.Spelling.{need_text};
ghost use Rattle.judge_system.specs.TestSets.{tests_of};
ghost use Rattle.judge_system.specs.Views.{need_view, failure_view};
ghost use Rattle.report.specs.Views.{status_view, line_view};
ghost use Rattle.report.specs.Facts.{Supplied, Open};
ghost use Rattle.report.specs.FactViews.{resolution_view, fact_view};
ghost use Rattle.why_verdict.specs.Verdict.{answered, first_answer, supply_words, need_line, need_told, causer_told};
ghost use Rattle.why_verdict.specs.Verdict.{test_told, failure_told, verdict_word, why_told, status_told};
ghost use Rattle.why_verdict.specs.Verdict.{verdict_told, verdict_text};
ghost use Rattle.why_verdict.specs.VerdictFacts.{basis_of};

use crate::besides::append_suppliers_and_bypassed;
use crate::indent::INDENT;
use crate::reasons::append_failed_test;
use crate::verdict_facts::VerdictFacts;
use fields::Id;
use fields::spelling::need_text;
use judge_system::{Failure, OpenNeed, TestSet};
use report::{Fact, LineWord, ReportLine, Resolution, Status, append_words, status_word};
use std::alloc::AllocError;
use terms::NeedKind;

// What the line of a need says if no fact says why the need is open.
const UNSUPPLIED: &[u8] = b"nothing supplies it";

// Whether the need is of this kind and for this id. The kinds are compared by their words, as in the contract, because
// no two kinds have the same word.
fn matches_need(need: &OpenNeed, kind: NeedKind, id: &[u8]) -> bool
    ensures { result ≡ (bytes_eq (need_text need.now.kind) (need_text kind) && bytes_eq need.now.id id.now) }
{
    need_text(need.kind) == need_text(kind) && need.id.as_bytes() == id
}

// How the need is resolved, if this fact is about it.
fn matching_resolution<'f>(need: &OpenNeed, fact: &'f Fact<'_>) -> Option<&'f Resolution>
    ensures { option_map (λ a. resolution_view a.now) result ≡ answered need.now.kind need.now.id (fact_view fact.now) }
{
    match fact {
        Fact::Requisite {
            requisite,
            resolution,
        } if matches_need(need, requisite.kind, requisite.id.as_bytes()) => Some(resolution),
        Fact::Hold { hold, resolution }
            if matches_need(need, NeedKind::HoldError, hold.reason.as_bytes()) => {
            resolution.as_ref()
        }
        _ => None,
    }
}

// How the need is resolved, by the first fact that is about it.
fn first_resolution<'f>(need: &OpenNeed, facts: &'f [Fact<'_>]) -> Option<&'f Resolution>
    ensures { option_map (λ a. resolution_view a.now) result
        ≡ first_answer need.now.kind need.now.id (map fact_view facts.now) }
{
    for fact in facts {
        if let Some(resolution) = matching_resolution(need, fact) {
            return Some(resolution);
        }
    }
    None
}

// Appends the line of a need with the received SYSMODs that would supply it, or says that there are none.
fn append_open_need<'a>(
    need: &'a OpenNeed,
    ids: &'a [Id],
    text: &mut Vec<u8>,
) -> Result<(), AllocError>
    ensures { OnOk result (text.new.items
        ≡ text.old.items ++ need_line (need_view need.now) (supply_words (Some (Open ids.now)))) }
{
    if ids.is_empty() {
        return append_need_line(need, b"no SYSMOD that supplies it can be installed", text);
    }
    let need_word = LineWord::Text(b"NEED");
    let kind = LineWord::Text(need_text(need.kind));
    let id = LineWord::WithColon(need.id.as_bytes());
    let ids = LineWord::Ids(ids);
    let would = LineWord::Text(b"would supply it");
    let words = [need_word, kind, id, ids, would];
    append_words(INDENT, &words, text)
}

// Appends the line of a need with the SYSMODs that supply it until another candidate deletes them.
fn append_deleted_need<'a>(
    need: &'a OpenNeed,
    ids: &'a [Id],
    text: &mut Vec<u8>,
) -> Result<(), AllocError>
    ensures { OnOk result (text.new.items
        ≡ text.old.items ++ need_line (need_view need.now) (supply_words (Some (Supplied ids.now)))) }
{
    let need_word = LineWord::Text(b"NEED");
    let kind = LineWord::Text(need_text(need.kind));
    let id = LineWord::WithColon(need.id.as_bytes());
    let takes_out = LineWord::Text(b"another candidate's DELETE takes out");
    let ids = LineWord::Ids(ids);
    let words = [need_word, kind, id, takes_out, ids];
    append_words(INDENT, &words, text)
}

// Appends the line of a need, with the reason why it is open.
fn append_need_line<'a>(
    need: &'a OpenNeed,
    why: &'a [u8],
    text: &mut Vec<u8>,
) -> Result<(), AllocError>
    ensures { OnOk result (text.new.items ≡ text.old.items ++ need_line (need_view need.now) (why.now ∷ [])) }
{
    let need_word = LineWord::Text(b"NEED");
    let kind = LineWord::Text(need_text(need.kind));
    let id = LineWord::WithColon(need.id.as_bytes());
    let why = LineWord::Text(why);
    let words = [need_word, kind, id, why];
    append_words(INDENT, &words, text)
}

// Appends the line of an open need, with how it could be resolved if that is known.
fn append_need_resolution<'a>(
    need: &'a OpenNeed,
    resolution: Option<&'a Resolution>,
    text: &mut Vec<u8>,
) -> Result<(), AllocError>
    ensures { OnOk result (text.new.items ≡ text.old.items
        ++ need_line (need_view need.now) (supply_words (option_map (λ a. resolution_view a.now) resolution.entry))) }
{
    let Some(resolution) = resolution else {
        return append_need_line(need, UNSUPPLIED, text);
    };
    match resolution {
        Resolution::Supplied(ids) => append_deleted_need(need, ids.as_slice(), text),
        Resolution::Waived => append_need_line(need, UNSUPPLIED, text),
        Resolution::ByItself => append_need_line(need, b"it supplies this itself", text),
        Resolution::Open(ids) => append_open_need(need, ids.as_slice(), text),
    }
}

// Appends the line of an open need, with how the first of these facts about it says that it could be resolved.
fn append_need<'a>(
    facts: &'a [Fact<'_>],
    need: &'a OpenNeed,
    text: &mut Vec<u8>,
) -> Result<(), AllocError>
    ensures { OnOk result (text.new.items
        ≡ text.old.items ++ need_told (map fact_view facts.now) (need_view need.now)) }
{
    append_need_resolution(need, first_resolution(need, facts), text)
}

// Appends the line of a causer, unless it is the id itself.
fn append_causer(id: Id, causer: &Id, text: &mut Vec<u8>) -> Result<(), AllocError>
    ensures { OnOk result (text.new.items ≡ text.old.items ++ causer_told id causer.now) }
{
    if id == *causer {
        return Ok(());
    }
    let word = LineWord::Text(b"CAUSER");
    let causer = LineWord::Text(causer.as_bytes());
    append_words(INDENT, &[word, causer], text)
}

// Appends the lines of the failed tests.
fn append_tests(
    verdict_facts: &VerdictFacts<'_, '_>,
    tests: TestSet,
    text: &mut Vec<u8>,
) -> Result<(), AllocError>
    ensures { OnOk result (text.new.items
        ≡ text.old.items ++ flat_map (test_told (basis_of verdict_facts.now)) (tests_of tests)) }
{
    for test in tests.iter() {
        append_failed_test(verdict_facts, test, text)?;
    }
    Ok(())
}

// Appends the lines of the open needs, with how these facts say that they could be resolved.
fn append_needs<'a>(
    facts: &'a [Fact<'_>],
    needs: &'a [OpenNeed],
    text: &mut Vec<u8>,
) -> Result<(), AllocError>
    ensures { OnOk result (text.new.items
        ≡ text.old.items ++ flat_map (need_told (map fact_view facts.now)) (map need_view needs.now)) }
{
    for need in needs {
        append_need(facts, need, text)?;
    }
    Ok(())
}

// Appends the lines of the causers other than the id itself.
fn append_causers(id: Id, causers: &[Id], text: &mut Vec<u8>) -> Result<(), AllocError>
    ensures { OnOk result (text.new.items ≡ text.old.items ++ flat_map (causer_told id) causers.now) }
{
    for causer in causers {
        append_causer(id, causer, text)?;
    }
    Ok(())
}

// Appends why the id would fail: its failed tests, its open needs and its causers.
fn append_failure(
    id: Id,
    verdict_facts: &VerdictFacts<'_, '_>,
    failure: &Failure,
    text: &mut Vec<u8>,
) -> Result<(), AllocError>
    ensures { OnOk result (text.new.items
        ≡ text.old.items ++ failure_told id (basis_of verdict_facts.now) (failure_view failure.now)) }
{
    append_tests(verdict_facts, failure.tests, text)?;
    append_needs(verdict_facts.facts, failure.needs.as_slice(), text)?;
    append_causers(id, failure.causers.as_slice(), text)
}

/// The words for what would become of a candidate. For an id that is no candidate, the word of its line.
pub(crate) fn verdict_word(status: &Status) -> &'static [u8]
    ensures { result.now ≡ verdict_word (status_view status.now) }
{
    match status {
        Status::Applied => b"WOULD BE APPLIED",
        Status::Accepted => b"WOULD BE ACCEPTED",
        Status::Superseded => b"WOULD BE SUPERSEDED",
        Status::Failed(_) => b"WOULD FAIL",
        _ => status_word(status),
    }
}

// Appends why the id would fail, if its status is FAILED.
fn append_failure_if_any(
    id: Id,
    verdict_facts: &VerdictFacts<'_, '_>,
    status: &Status,
    text: &mut Vec<u8>,
) -> Result<(), AllocError>
    ensures { OnOk result (text.new.items
        ≡ text.old.items ++ why_told id (basis_of verdict_facts.now) (status_view status.now)) }
{
    match status {
        Status::Failed(failure) => append_failure(id, verdict_facts, failure, text),
        _ => Ok(()),
    }
}

// Appends what would become of the id, why it would fail, and what other candidates and BYPASS do for it.
fn append_status(
    id: Id,
    verdict_facts: &VerdictFacts<'_, '_>,
    status: &Status,
    text: &mut Vec<u8>,
) -> Result<(), AllocError>
    ensures { OnOk result (text.new.items
        ≡ text.old.items ++ status_told id (basis_of verdict_facts.now) (status_view status.now)) }
{
    // The line begins with two blanks: the one of its prefix and the one before its first word.
    append_words(b" ", &[LineWord::Text(verdict_word(status))], text)?;
    append_failure_if_any(id, verdict_facts, status, text)?;
    append_suppliers_and_bypassed(verdict_facts, status, text)
}

// Appends what the line says about the id, if it is the id's line.
fn append_line_verdict(
    id: Id,
    verdict_facts: &VerdictFacts<'_, '_>,
    line: &ReportLine,
    text: &mut Vec<u8>,
) -> Result<(), AllocError>
    ensures { OnOk result (text.new.items
        ≡ text.old.items ++ verdict_told id (basis_of verdict_facts.now) (line_view line.now)) }
{
    match line {
        ReportLine::Status {
            id: line_id,
            status,
            ..
        } => {
            if id == *line_id {
                append_status(id, verdict_facts, status, text)
            } else {
                Ok(())
            }
        }
        ReportLine::Nothing | ReportLine::Errsysmod { .. } => Ok(()),
    }
}

// Appends what these lines say about the id.
fn append_lines_verdict(
    id: Id,
    verdict_facts: &VerdictFacts<'_, '_>,
    lines: &[ReportLine],
    text: &mut Vec<u8>,
) -> Result<(), AllocError>
    ensures { OnOk result (text.new.items
        ≡ text.old.items ++ flat_map (verdict_told id (basis_of verdict_facts.now)) (map line_view lines.now)) }
{
    for line in lines {
        append_line_verdict(id, verdict_facts, line, text)?;
    }
    Ok(())
}

/// Appends what the lines of an APPLY or ACCEPT say about the id, in words that name its facts, the other candidates
/// and what BYPASS covers.
pub fn append_verdict(
    id: Id,
    verdict_facts: &VerdictFacts<'_, '_>,
    text: &mut Vec<u8>,
) -> Result<(), AllocError>
    ensures { OnOk result (text.new.items ≡ text.old.items ++ verdict_text id (basis_of verdict_facts.now)) }
{
    append_lines_verdict(id, verdict_facts, verdict_facts.lines, text)
}
