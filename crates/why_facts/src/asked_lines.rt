//! The lines of what an id asks for, and of the holds on it.
ghost use Rattle.std.specs.Prelude.{◌≡◌, ◌++◌, option_map, OnOk};
ghost use Rattle.std.specs.String.{string_bytes};
ghost use Rattle.report.specs.Facts.{RequisiteFact, HoldFact};
ghost use Rattle.why_facts.specs.FactText.{id_lines, answer_lines, comment_line, fact_text};
ghost use Rattle.report.specs.FactViews.{resolution_view};

use crate::fact_words::resolution_word;
use crate::indent::INDENT;
use fields::Id;
use fields::spelling::{hold_text, need_text};
use report::{
    HOLD_WIDTH, LineWord, Requisite, Resolution, append_words, class_or_dash, date_or_dash,
};
use std::alloc::AllocError;
use sysmods_values::Hold;

// Appends a line for each of the ids, with the word and the id, or one line with `-` if there are none.
fn append_id_lines(word: &[u8], ids: &[Id], text: &mut Vec<u8>) -> Result<(), AllocError>
    ensures { OnOk result (text.new.items ≡ text.old.items ++ id_lines word.now ids.now) }
{
    if ids.is_empty() {
        return append_words(INDENT, &[LineWord::Text(word), LineWord::Text(b"-")], text);
    }
    for id in ids {
        let words = [LineWord::Text(word), LineWord::Text(id.as_bytes())];
        append_words(INDENT, &words, text)?;
    }
    Ok(())
}

// Appends a line for each SYSMOD that supplies the requisite or, if the requisite is open, would supply it.
fn append_supplying_ids(resolution: &Resolution, text: &mut Vec<u8>) -> Result<(), AllocError>
    ensures { OnOk result (text.new.items ≡ text.old.items ++ answer_lines (resolution_view resolution.now)) }
{
    match resolution {
        Resolution::Supplied(ids) => append_id_lines(b"SUPPLIER", ids.as_slice(), text),
        Resolution::Waived => Ok(()),
        Resolution::ByItself => Ok(()),
        Resolution::Open(ids) => append_id_lines(b"CANDIDATE", ids.as_slice(), text),
    }
}

/// Appends the lines of a requisite: its kind and id, how it is resolved, and by which SYSMODs.
pub(crate) fn append_requisite(
    requisite: &Requisite,
    resolution: &Resolution,
    text: &mut Vec<u8>,
) -> Result<(), AllocError>
    ensures { OnOk result (text.new.items
        ≡ text.old.items ++ fact_text (RequisiteFact requisite.now (resolution_view resolution.now))) }
{
    let kind = LineWord::Text(need_text(requisite.kind));
    let id = LineWord::Text(requisite.id.as_bytes());
    let by = LineWord::Text(requisite.by.as_bytes());
    let resolved = LineWord::Text(resolution_word(resolution));
    // The line begins with two blanks: the one of its prefix and the one before its first word.
    match &requisite.function {
        Some(function) => {
            let function = LineWord::Text(function.as_bytes());
            let (fmid_word, by_word) = (LineWord::Text(b"FMID"), LineWord::Text(b"BY"));
            let words = [kind, id, fmid_word, function, by_word, by, resolved];
            append_words(b" ", &words, text)?;
            append_supplying_ids(resolution, text)
        }
        None => {
            append_words(b" ", &[kind, id, resolved], text)?;
            append_supplying_ids(resolution, text)
        }
    }
}

// Appends the line of a hold's comment, if it has one.
fn append_comment(comment: &Option<String>, text: &mut Vec<u8>) -> Result<(), AllocError>
    ensures { OnOk result (text.new.items
        ≡ text.old.items ++ comment_line (option_map string_bytes comment.now)) }
{
    match comment {
        Some(comment) => {
            let words = [
                LineWord::Text(b"COMMENT"),
                LineWord::Text(comment.as_bytes()),
            ];
            append_words(INDENT, &words, text)
        }
        None => Ok(()),
    }
}

/// Appends the lines of a hold, and for an ERROR hold how its reason ID is resolved.
pub(crate) fn append_hold(
    hold: &Hold,
    resolution: &Option<Resolution>,
    text: &mut Vec<u8>,
) -> Result<(), AllocError>
    ensures { OnOk result (text.new.items
        ≡ text.old.items ++ fact_text (HoldFact hold.now (option_map resolution_view resolution.now))) }
{
    let kind = LineWord::Left(HOLD_WIDTH, hold_text(hold.kind));
    let reason = LineWord::Text(hold.reason.as_bytes());
    let mark = LineWord::If(hold.internal, b"INTERNAL", b"EXTERNAL");
    let (class_word, date_word) = (LineWord::Text(b"CLASS"), LineWord::Text(b"DATE"));
    let class = LineWord::Text(class_or_dash(&hold.class));
    let date = LineWord::Text(date_or_dash(&hold.date));
    match resolution {
        Some(resolution) => {
            let resolved = LineWord::Text(resolution_word(resolution));
            let words = [
                kind, reason, mark, class_word, class, date_word, date, resolved,
            ];
            append_words(b"  HOLD", &words, text)?;
            append_comment(&hold.comment, text)?;
            append_supplying_ids(resolution, text)
        }
        None => {
            let words = [kind, reason, mark, class_word, class, date_word, date];
            append_words(b"  HOLD", &words, text)?;
            append_comment(&hold.comment, text)
        }
    }
}
