//! What calls return, as text.

use fields::spelling::{need_text, test_text, type_text};
use fields::{Id, ZoneName};
use judge::Judged;
use judge_system::{Failure, OpenNeed, RequisiteOf};
use report::{Header, Out, Outcome, ReportLine, errsysmods, write_report};
use sorted::Edit;
use std::alloc::{AllocError, Global};
use std::test::Fail;
use sysmods::GlobalZone;
use terms::{CommandWord, NotChosen};
use zones::{Candidates, Zone, ZoneDelta};

/// Appends a line of these words.
pub(crate) fn append_line(words: &[&[u8]], text: &mut Vec<u8>) -> Result<(), AllocError> {
    for word in words {
        text.extend_from_slice(word)?;
        text.push(b' ')?;
    }
    let _blank = text.pop();
    text.push(b'\n')?;
    Ok(())
}

/// Appends a line for each of these ids, with the word before it.
pub(crate) fn append_ids(word: &[u8], ids: &[Id], text: &mut Vec<u8>) -> Result<(), AllocError> {
    for id in ids {
        append_line(&[word, id.as_bytes()], text)?;
    }
    Ok(())
}

/// Appends a line for each requisite that BYPASS covers: the candidate that has it, and the requisite.
pub(crate) fn append_bypassed(pairs: &[(Id, Id)], text: &mut Vec<u8>) -> Result<(), AllocError> {
    for (of, id) in pairs {
        append_line(&[b"BYPASSED", of.as_bytes(), id.as_bytes()], text)?;
    }
    Ok(())
}

/// Appends a line for each of these needs.
pub(crate) fn append_needs(needs: &[RequisiteOf], text: &mut Vec<u8>) -> Result<(), AllocError> {
    for need in needs {
        let RequisiteOf { of, kind, id } = *need;
        append_line(
            &[b"NEED", of.as_bytes(), need_text(kind), id.as_bytes()],
            text,
        )?;
    }
    Ok(())
}

/// Appends a line for each test that a candidate fails, in the order of the candidates' numbers.
pub(crate) fn append_failed_tests(
    judged: &Judged<'_>,
    text: &mut Vec<u8>,
) -> Result<(), AllocError> {
    for (id, tests) in judged.ids.iter().zip(judged.tests.iter()) {
        let id = *id;
        for test in tests.iter() {
            append_line(&[b"FAILS", id.as_bytes(), test_text(test)], text)?;
        }
    }
    Ok(())
}

// Appends the tests that a candidate fails, what it needs in vain, and who causes it.
fn append_failure(failure: &Failure, text: &mut Vec<u8>) -> Result<(), AllocError> {
    for test in failure.tests.iter() {
        append_line(&[b"  TEST", test_text(test)], text)?;
    }
    for need in failure.needs.as_slice() {
        let OpenNeed { kind, id } = *need;
        append_line(&[b"  NEED", need_text(kind), id.as_bytes()], text)?;
    }
    append_ids(b"  CAUSER", failure.causers.as_slice(), text)
}

/// Appends a line for each of these candidates, followed by its failure.
pub(crate) fn append_failures(
    failed: &[(Id, Failure)],
    text: &mut Vec<u8>,
) -> Result<(), AllocError> {
    for (id, failure) in failed {
        append_line(&[b"FAILED", id.as_bytes()], text)?;
        append_failure(failure, text)?;
    }
    Ok(())
}

// The word for the reason why an id is no candidate.
fn not_chosen_text(why: NotChosen) -> &'static [u8] {
    match why {
        NotChosen::Already => b"ALREADY",
        NotChosen::Deleted => b"DELETED",
        NotChosen::Missing => b"MISSING",
        NotChosen::NoVer => b"NOVER",
        NotChosen::NotApplied => b"NOTAPPLIED",
    }
}

/// Appends a line for each candidate, and for each id that is left out.
pub(crate) fn append_candidates(
    candidates: &Candidates,
    text: &mut Vec<u8>,
) -> Result<(), AllocError> {
    append_ids(b"CANDIDATE", candidates.ids.as_slice(), text)?;
    for left in candidates.left_out.as_slice() {
        let (id, why) = *left;
        append_line(&[b"LEFT", id.as_bytes(), not_chosen_text(why)], text)?;
    }
    Ok(())
}

// The word for what an edit does at its key.
fn edit_text<T, K>(edit: &Edit<T, K>, existed: bool) -> &'static [u8] {
    match edit {
        Edit::Put(_) if existed => b"CHANGED",
        Edit::Put(_) => b"NEW",
        Edit::Remove(_) => b"REMOVED",
    }
}

// Appends a line for each edit of an entry.
fn append_entry_edits(delta: &ZoneDelta, text: &mut Vec<u8>) -> Result<(), AllocError> {
    for (edit, old_number) in delta.entries().iter().zip(delta.numbers_before().iter()) {
        let id = match edit {
            Edit::Put(entry) => entry.id,
            Edit::Remove(id) => *id,
        };
        let what = edit_text(edit, old_number.is_some());
        append_line(&[b"ENTRY", id.as_bytes(), what], text)?;
    }
    Ok(())
}

// Appends a line for each edit of an element.
fn append_element_edits(delta: &ZoneDelta, text: &mut Vec<u8>) -> Result<(), AllocError> {
    for (edit, existed) in delta.elements().iter().zip(delta.elements_existed().iter()) {
        let (elem_type, name) = match edit {
            Edit::Put(element) => (element.elem_type, element.name),
            Edit::Remove(key) => *key,
        };
        let what = edit_text(edit, *existed);
        append_line(
            &[b"ELEM", type_text(elem_type), name.as_bytes(), what],
            text,
        )?;
    }
    Ok(())
}

/// Appends a line for each edit, and what LIST prints of the zone that they make of this one.
pub(crate) fn append_delta(
    alloc: Global,
    name: &[u8],
    zone: &Zone,
    delta: &ZoneDelta,
    text: &mut Vec<u8>,
) -> Result<(), Fail> {
    append_entry_edits(delta, text)?;
    append_element_edits(delta, text)?;
    append_zone(name, &delta.apply(alloc, zone)?, text)
}

/// Appends the report of a command with these lines, without a boundary.
pub(crate) fn append_report(
    word: CommandWord,
    lines: Vec<ReportLine>,
    text: &mut Vec<u8>,
) -> Result<(), Fail> {
    let header = Header {
        word,
        boundary: None,
        check: false,
    };
    append_outcome(&Outcome::Ran { header, lines }, text)
}

// Appends the text of an outcome.
fn append_outcome(outcome: &Outcome<'_>, text: &mut Vec<u8>) -> Result<(), Fail> {
    let _return_code = write_report(outcome, &mut Out::new(text))?;
    Ok(())
}

/// Appends a zone as LIST prints it.
pub(crate) fn append_zone(name: &[u8], zone: &Zone, text: &mut Vec<u8>) -> Result<(), Fail> {
    let header = Header {
        word: CommandWord::List,
        boundary: Some(zone_name(name)?),
        check: false,
    };
    let outcome = Outcome::Listed {
        header,
        zone,
        text: false,
    };
    append_outcome(&outcome, text)
}

/// Appends what REPORT ERRSYSMODS says of a zone.
pub(crate) fn append_errsysmods(
    alloc: Global,
    name: &[u8],
    global: &GlobalZone,
    zone: &Zone,
    text: &mut Vec<u8>,
) -> Result<(), Fail> {
    let outcome = errsysmods(alloc, zone_name(name)?, global, zone)?;
    append_outcome(&outcome, text)
}

fn zone_name(name: &[u8]) -> Result<ZoneName, Fail> {
    Ok(ZoneName::read(name).ok_or("no name of a zone")?)
}
