//! The lines of a failed test, by the facts on which it rests.
ghost use Rattle.std.specs.Prelude.{◌≡◌, ◌++◌, map, OnOk};
ghost use Rattle.std.specs.List.{flat_map};
ghost use Rattle.terms.specs.CommandForms.{no_bypass};
ghost use Rattle.report.specs.Facts.{is_over, DeleteFact, NpreFact, ForbiddenFact};
ghost use Rattle.report.specs.FactViews.{relation_view, maker_view, level_view, ver_view, element_view, fact_view};
ghost use Rattle.why_verdict.specs.Verdict.{by_hold, by_npre, by_owner, by_makers, by_update, by_target, by_vers};
ghost use Rattle.why_verdict.specs.Verdict.{hold_reason, element_reason, maker_reason, owner_reason};
ghost use Rattle.why_verdict.specs.Verdict.{makers_reason, there_reason, missing_reason, reason, test_told};
ghost use Rattle.why_verdict.specs.VerdictFacts.{basis_of};

use crate::conflict_reasons::append_conflicts;
use crate::indent::INDENT;
use crate::statuses::is_delete_test;
use crate::verdict_facts::VerdictFacts;
use fields::spelling::{hold_text, test_text, type_text};
use fields::{Bypass, Id};
use report::{
    ChangedElement, ElementLevel, Fact, LineWord, Maker, NumberedVer, Relation, append_words,
    id_or_dash,
};
use std::alloc::AllocError;
use sysmods_values::Hold;
use terms::{HoldKind, Test};
use zones::is_bypassed_hold;

// Whether this is the test that fails because of holds of this kind.
fn is_hold_test(test: Test, kind: HoldKind) -> bool
    ensures { result ≡ by_hold test kind }
{
    match test {
        Test::HeldBySystem => matches!(kind, HoldKind::System),
        Test::HeldByUser => matches!(kind, HoldKind::User),
        _ => false,
    }
}

// Whether this is the test that fails if NPRE forbids the id.
fn is_npre_test(test: Test) -> bool
    ensures { result ≡ by_npre test }
{
    matches!(test, Test::ForbiddenByNpre)
}

// Whether this is the test that fails if an element belongs to another function.
fn is_owner_test(test: Test) -> bool
    ensures { result ≡ by_owner test }
{
    matches!(test, Test::OwnedByAnother)
}

// Whether this is the test that fails if the id is not over the SYSMODs that made an element.
fn is_regression_test(test: Test) -> bool
    ensures { result ≡ by_makers test }
{
    matches!(test, Test::Regression)
}

// Whether this is the test that fails if there is no element to update.
fn is_update_test(test: Test) -> bool
    ensures { result ≡ by_update test }
{
    matches!(test, Test::NothingToUpdate)
}

// Whether this is the test that fails if no related target zone has applied the id.
fn is_target_test(test: Test) -> bool
    ensures { result ≡ by_target test }
{
    matches!(test, Test::NotInTarget)
}

// Whether this is the test that fails if several `++VER`s fit.
fn is_several_fit_test(test: Test) -> bool
    ensures { result ≡ by_vers test }
{
    matches!(test, Test::SeveralFit)
}

// Whether the id is over the SYSMOD that made the element.
fn is_over(relation: Relation) -> bool
    ensures { result ≡ is_over (relation_view relation) }
{
    matches!(relation, Relation::Over)
}

// Appends the line of the hold, if the test failed because of it: BYPASS does not cover the hold.
fn append_hold_reason(
    bypass: &Bypass,
    test: Test,
    hold: &Hold,
    text: &mut Vec<u8>,
) -> Result<(), AllocError>
    ensures { OnOk result (text.new.items ≡ text.old.items ++ hold_reason bypass.now test hold.now) }
{
    let is_reason = is_hold_test(test, hold.kind) && !is_bypassed_hold(bypass, hold);
    if !is_reason {
        return Ok(());
    }
    let code = LineWord::Text(test_text(test));
    let kind = LineWord::Text(hold_text(hold.kind));
    let hold_word = LineWord::Text(b"hold");
    let reason = LineWord::Text(hold.reason.as_bytes());
    let words = [code, kind, hold_word, reason];
    append_words(INDENT, &words, text)
}

// Appends the line of a SYSMOD that made the element, unless the id is over that SYSMOD. The word is `RMID` or `UMID`.
fn append_maker_reason<'a>(
    test: Test,
    element: &'a ChangedElement,
    word: &'a [u8],
    maker: &'a Maker,
    text: &mut Vec<u8>,
) -> Result<(), AllocError>
    ensures { OnOk result (text.new.items
        ≡ text.old.items ++ maker_reason test element.now.elem_type element.now.name word.now (maker_view maker.now)) }
{
    if is_over(maker.relation) {
        return Ok(());
    }
    let code = LineWord::Text(test_text(test));
    let elem_type = LineWord::Text(type_text(element.elem_type));
    let name = LineWord::WithColon(element.name.as_bytes());
    let word = LineWord::Text(word);
    let id = LineWord::Text(maker.id.as_bytes());
    let not_over = LineWord::Text(b"is not required or superseded by it");
    let words = [code, elem_type, name, word, id, not_over];
    append_words(INDENT, &words, text)
}

// Appends a line for each SYSMOD that made the element and that the id is not over.
fn append_makers_reason<'a>(
    test: Test,
    element: &'a ChangedElement,
    found: &'a ElementLevel,
    text: &mut Vec<u8>,
) -> Result<(), AllocError>
    ensures { OnOk result (text.new.items
        ≡ text.old.items ++ makers_reason test element.now.elem_type element.now.name (level_view found.now)) }
{
    append_maker_reason(test, element, b"RMID", &found.rmid, text)?;
    for umid in found.umids.as_slice() {
        append_maker_reason(test, element, b"UMID", umid, text)?;
    }
    Ok(())
}

// Appends the owner of the element, unless that is the function to which the elements of the id belong.
fn append_owner_reason<'a>(
    test: Test,
    element: &'a ChangedElement,
    found: &'a ElementLevel,
    text: &mut Vec<u8>,
) -> Result<(), AllocError>
    ensures { OnOk result (text.new.items
        ≡ text.old.items ++ owner_reason test element.now.elem_type element.now.name (level_view found.now)) }
{
    if found.owned {
        return Ok(());
    }
    let code = LineWord::Text(test_text(test));
    let elem_type = LineWord::Text(type_text(element.elem_type));
    let name = LineWord::WithColon(element.name.as_bytes());
    let belongs = LineWord::Text(b"it belongs to");
    let owner = LineWord::Text(found.fmid.as_bytes());
    let words = [code, elem_type, name, belongs, owner];
    append_words(INDENT, &words, text)
}

// Appends the lines of an element that the zone has, if the test failed because of its owner or of its RMID and UMIDs.
fn append_existing_element_reason<'a>(
    test: Test,
    element: &'a ChangedElement,
    found: &'a ElementLevel,
    text: &mut Vec<u8>,
) -> Result<(), AllocError>
    ensures { OnOk result (text.new.items
        ≡ text.old.items ++ there_reason test element.now.elem_type element.now.name (level_view found.now)) }
{
    if is_owner_test(test) {
        return append_owner_reason(test, element, found, text);
    }
    if is_regression_test(test) {
        return append_makers_reason(test, element, found, text);
    }
    Ok(())
}

// Appends that the zone does not have the element to update, if the test failed because of that: no candidate that is
// the FMID of the id brings the element.
fn append_missing_element_reason(
    test: Test,
    element: &ChangedElement,
    text: &mut Vec<u8>,
) -> Result<(), AllocError>
    ensures { OnOk result (text.new.items
        ≡ text.old.items
        ++ missing_reason test element.now.elem_type element.now.name element.now.replaces element.now.brought) }
{
    let is_reason = is_update_test(test) && !element.replaces && !element.brought;
    if !is_reason {
        return Ok(());
    }
    let code = LineWord::Text(test_text(test));
    let elem_type = LineWord::Text(type_text(element.elem_type));
    let name = LineWord::WithColon(element.name.as_bytes());
    let none = LineWord::Text(b"there is none to update");
    let words = [code, elem_type, name, none];
    append_words(INDENT, &words, text)
}

// Appends the lines of an element that the id changes, if the test failed because of that element.
fn append_element_reason(
    test: Test,
    element: &ChangedElement,
    text: &mut Vec<u8>,
) -> Result<(), AllocError>
    ensures { OnOk result (text.new.items ≡ text.old.items ++ reason no_bypass test (element_view element.now)) }
{
    match &element.found {
        Some(found) => append_existing_element_reason(test, element, found, text),
        None => append_missing_element_reason(test, element, text),
    }
}

// Appends the line of a `++VER` that fits, if the test failed because of that.
fn append_ver_reason(test: Test, ver: &NumberedVer, text: &mut Vec<u8>) -> Result<(), AllocError>
    ensures { OnOk result (text.new.items ≡ text.old.items ++ reason no_bypass test (ver_view ver.now)) }
{
    let is_reason = is_several_fit_test(test) && ver.fits;
    if !is_reason {
        return Ok(());
    }
    let code = LineWord::Text(test_text(test));
    let ver_word = LineWord::Text(b"VER");
    let number = LineWord::Number(ver.number);
    let fmid_word = LineWord::Text(b"FMID");
    let fmid = LineWord::Text(id_or_dash(&ver.fmid));
    let fits = LineWord::Text(b"fits");
    let words = [code, ver_word, number, fmid_word, fmid, fits];
    append_words(INDENT, &words, text)
}

// Appends the line of an id in DELETE that is in the id's own chain, if the test failed because of that.
fn append_delete_reason(
    test: Test,
    id: &Id,
    own: bool,
    text: &mut Vec<u8>,
) -> Result<(), AllocError>
    ensures { OnOk result (text.new.items ≡ text.old.items ++ reason no_bypass test (DeleteFact id.now own)) }
{
    let is_reason = is_delete_test(test) && own;
    if !is_reason {
        return Ok(());
    }
    let code = LineWord::Text(test_text(test));
    let delete = LineWord::Text(b"DELETE");
    let id = LineWord::Text(id.as_bytes());
    let chain = LineWord::Text(b"is in its own chain");
    let words = [code, delete, id, chain];
    append_words(INDENT, &words, text)
}

// Appends the line of an applied SYSMOD that NPRE names, if the test failed because of that.
fn append_npre_reason(
    test: Test,
    id: &Id,
    applied: bool,
    text: &mut Vec<u8>,
) -> Result<(), AllocError>
    ensures { OnOk result (text.new.items ≡ text.old.items ++ reason no_bypass test (NpreFact id.now applied)) }
{
    let is_reason = is_npre_test(test) && applied;
    if !is_reason {
        return Ok(());
    }
    let code = LineWord::Text(test_text(test));
    let npre = LineWord::Text(b"NPRE");
    let id = LineWord::Text(id.as_bytes());
    let applied_word = LineWord::Text(b"is applied");
    let words = [code, npre, id, applied_word];
    append_words(INDENT, &words, text)
}

// Appends the line of an applied function whose NPRE names the id, if the test failed because of that.
fn append_forbidden_reason(test: Test, id: &Id, text: &mut Vec<u8>) -> Result<(), AllocError>
    ensures { OnOk result (text.new.items ≡ text.old.items ++ reason no_bypass test (ForbiddenFact id.now)) }
{
    if !is_npre_test(test) {
        return Ok(());
    }
    let code = LineWord::Text(test_text(test));
    let id = LineWord::Text(id.as_bytes());
    let forbids = LineWord::Text(b"is applied and has it in NPRE");
    let words = [code, id, forbids];
    append_words(INDENT, &words, text)
}

// Appends the lines of the failed test that rest on this fact.
fn append_reason(
    bypass: &Bypass,
    test: Test,
    fact: &Fact<'_>,
    text: &mut Vec<u8>,
) -> Result<(), AllocError>
    ensures { OnOk result (text.new.items ≡ text.old.items ++ reason bypass.now test (fact_view fact.now)) }
{
    match fact {
        Fact::Ver(ver) => append_ver_reason(test, ver, text),
        Fact::Hold { hold, .. } => append_hold_reason(bypass, test, hold, text),
        Fact::Element(element) => append_element_reason(test, element, text),
        Fact::Delete { id, own } => append_delete_reason(test, id, *own, text),
        Fact::Npre { id, applied } => append_npre_reason(test, id, *applied, text),
        Fact::Forbidden(id) => append_forbidden_reason(test, id, text),
        Fact::Standing { .. }
        | Fact::Superseder(_)
        | Fact::Entry { .. }
        | Fact::Requisite { .. }
        | Fact::Takes(_)
        | Fact::Needed(_) => Ok(()),
    }
}

// Appends the lines of the failed test that rest on these facts.
fn append_reasons(
    bypass: &Bypass,
    test: Test,
    facts: &[Fact<'_>],
    text: &mut Vec<u8>,
) -> Result<(), AllocError>
    ensures { OnOk result (text.new.items
        ≡ text.old.items ++ flat_map (reason bypass.now test) (map fact_view facts.now)) }
{
    for fact in facts {
        append_reason(bypass, test, fact, text)?;
    }
    Ok(())
}

/// Appends the lines of a test that an id has failed: a line for each fact or conflict because of which it failed.
pub(crate) fn append_failed_test(
    verdict_facts: &VerdictFacts<'_, '_>,
    test: Test,
    text: &mut Vec<u8>,
) -> Result<(), AllocError>
    ensures { OnOk result (text.new.items ≡ text.old.items ++ test_told (basis_of verdict_facts.now) test) }
{
    if is_target_test(test) {
        let code = LineWord::Text(test_text(test));
        let none = LineWord::Text(b"no related target zone has applied it");
        let words = [code, none];
        return append_words(INDENT, &words, text);
    }
    append_reasons(verdict_facts.bypass, test, verdict_facts.facts, text)?;
    append_conflicts(test, verdict_facts.conflicts, text)
}
