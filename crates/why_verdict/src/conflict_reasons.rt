//! The lines of a failed test, by the conflicts with other candidates on which it rests.
ghost use Rattle.std.specs.Prelude.{◌≡◌, ◌++◌, ◌∷◌, [], OnOk};
ghost use Rattle.std.specs.List.{flat_map};
ghost use Rattle.why_verdict.specs.Verdict.{element_reason, apart_text, conflict_reason};
ghost use Rattle.why_verdict.specs.declared.conflict.Conflict.TheVariants.{Deletes, Forbids, ForbiddenBy, Shares};

use crate::conflict::{Apart, Conflict, SharedElement};
use crate::indent::INDENT;
use crate::statuses::{is_clash_test, is_delete_test};
use fields::Id;
use fields::spelling::{test_text, type_text};
use report::{LineWord, append_words};
use std::alloc::AllocError;
use terms::Test;

// Appends that the candidate `by` has an id of the chain in DELETE, if the test failed because of that.
fn append_deletes<'a>(
    test: Test,
    by: &'a Id,
    id: &'a Id,
    text: &mut Vec<u8>,
) -> Result<(), AllocError>
    ensures { OnOk result (text.new.items ≡ text.old.items ++ conflict_reason test (Deletes by.now id.now)) }
{
    if !is_delete_test(test) {
        return Ok(());
    }
    let code = LineWord::Text(test_text(test));
    let delete = LineWord::Text(b"DELETE");
    let id = LineWord::Text(id.as_bytes());
    let of = LineWord::Text(b"of");
    let by = LineWord::Text(by.as_bytes());
    let chain = LineWord::Text(b"is in its chain");
    let words = [code, delete, id, of, by, chain];
    append_words(INDENT, &words, text)
}

// Appends that NPRE names another candidate, if the test failed because of that.
fn append_forbids(test: Test, id: &Id, text: &mut Vec<u8>) -> Result<(), AllocError>
    ensures { OnOk result (text.new.items ≡ text.old.items ++ conflict_reason test (Forbids id.now)) }
{
    if !is_clash_test(test) {
        return Ok(());
    }
    let code = LineWord::Text(test_text(test));
    let npre = LineWord::Text(b"NPRE");
    let id = LineWord::Text(id.as_bytes());
    let selected = LineWord::Text(b"is selected too");
    let words = [code, npre, id, selected];
    append_words(INDENT, &words, text)
}

// Appends that another candidate names the id in NPRE, if the test failed because of that.
fn append_forbidden_by(test: Test, id: &Id, text: &mut Vec<u8>) -> Result<(), AllocError>
    ensures { OnOk result (text.new.items ≡ text.old.items ++ conflict_reason test (ForbiddenBy id.now)) }
{
    if !is_clash_test(test) {
        return Ok(());
    }
    let code = LineWord::Text(test_text(test));
    let id = LineWord::Text(id.as_bytes());
    let forbids = LineWord::Text(b"is selected too and has it in NPRE");
    let words = [code, id, forbids];
    append_words(INDENT, &words, text)
}

// The words for why two candidates may not change one element.
fn apart_text(apart: Apart) -> &'static [u8]
    ensures { result.now ≡ apart_text apart }
{
    match apart {
        Apart::OtherOwner => b"changes it for another function",
        Apart::Unordered => b"changes it too, and neither requires or supersedes the other",
    }
}

// Appends that another candidate changes an element of the SYSMOD too, if the test failed because of that.
fn append_shares(test: Test, shared: &SharedElement, text: &mut Vec<u8>) -> Result<(), AllocError>
    ensures { OnOk result (text.new.items ≡ text.old.items ++ conflict_reason test (Shares shared.now)) }
{
    if !is_clash_test(test) {
        return Ok(());
    }
    let code = LineWord::Text(test_text(test));
    let elem_type = LineWord::Text(type_text(shared.elem_type));
    let name = LineWord::WithColon(shared.name.as_bytes());
    let with = LineWord::Text(shared.with.as_bytes());
    let why = LineWord::Text(apart_text(shared.apart));
    let words = [code, elem_type, name, with, why];
    append_words(INDENT, &words, text)
}

// Appends the line of this conflict, if the test failed because of it.
fn append_conflict(test: Test, conflict: &Conflict, text: &mut Vec<u8>) -> Result<(), AllocError>
    ensures { OnOk result (text.new.items ≡ text.old.items ++ conflict_reason test conflict.now) }
{
    match conflict {
        Conflict::Deletes { by, id } => append_deletes(test, by, id, text),
        Conflict::Forbids(id) => append_forbids(test, id, text),
        Conflict::ForbiddenBy(id) => append_forbidden_by(test, id, text),
        Conflict::Shares(shared) => append_shares(test, shared, text),
    }
}

/// Appends a line for each of these conflicts because of which the test failed.
pub(crate) fn append_conflicts(
    test: Test,
    conflicts: &[Conflict],
    text: &mut Vec<u8>,
) -> Result<(), AllocError>
    ensures { OnOk result (text.new.items ≡ text.old.items ++ flat_map (conflict_reason test) conflicts.now) }
{
    for conflict in conflicts {
        append_conflict(test, conflict, text)?;
    }
    Ok(())
}
