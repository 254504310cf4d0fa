//! COMMENT of a hold. Some shops draw a box around its text: rows of asterisks above and below, and an asterisk at
//! either end of each line, as in `**** * SEE APAR * * UA00001 * ****`. The asterisks are left out here.

use intake_cards::{RemarkReason, Remarks, Subject, is_printable_byte, lay_out_comment};
use std::alloc::{AllocError, Global};

/// The most characters that a COMMENT may have.
const MOST_CHARACTERS: usize = 200;

// The character as a COMMENT may have it: a bracket for a parenthesis, and `?` for a character that no record may have.
fn allowed_character(byte: u8) -> u8 {
    match byte {
        b'(' => b'[',
        b')' => b']',
        _ if is_printable_byte(byte) => byte,
        _ => b'?',
    }
}

// The text. If it is longer than `MOST_CHARACTERS`, the rest of it is cut off, with the blanks before the cut.
fn cut_at_limit(text: &[u8]) -> &[u8] {
    match text.split_at_checked(MOST_CHARACTERS) {
        Some((front, _)) => front.trim_ascii_end(),
        None => text,
    }
}

// Whether the word is an edge of a box: an asterisk, or a row of them.
fn is_box_edge(word: &[u8]) -> bool {
    !word.is_empty() && word.iter().all(|byte| *byte == b'*')
}

// The text without the edges of boxes, and without blanks at its beginning.
fn without_box_edges(alloc: Global, text: &[u8]) -> Result<Vec<u8>, AllocError> {
    let mut kept = Vec::with_capacity(alloc, text.len())?;
    for word in text.split(|byte| *byte == b' ') {
        if is_box_edge(word) {
            continue;
        }
        if !kept.is_empty() {
            kept.push(b' ')?;
        }
        kept.extend_from_slice(word)?;
    }
    Ok(kept)
}

/// The text of a COMMENT as it is carried, with a remark on how it differs. Returns `None` if no COMMENT is stated. If
/// nothing is left of its text, returns `None` with a remark.
pub(crate) fn read_comment(
    alloc: Global,
    remarks: &mut Remarks,
    subject: &Subject<'_>,
    stated: &Option<Vec<u8>>,
) -> Result<Option<String>, AllocError> {
    let Some(stated) = stated else {
        return Ok(None);
    };
    let text = stated.as_slice();
    let mut replaced = Vec::with_capacity(alloc, text.len())?;
    for byte in &without_box_edges(alloc, text)? {
        replaced.push(allowed_character(*byte))?;
    }
    let layout = lay_out_comment(alloc, replaced.as_slice())?;
    let comment = cut_at_limit(layout.as_slice());
    if comment.is_empty() {
        remarks.tell_dropped(alloc, subject, b"COMMENT", RemarkReason::BadValue, text)?;
        return Ok(None);
    }
    if let Some(reason) = comment_difference(text, layout.as_slice()) {
        remarks.tell_carried(alloc, subject, b"COMMENT", reason, text)?;
    }
    Ok(Some(String::from_utf8_lossy(alloc, comment)?))
}

// The most important way in which the COMMENT, as it is laid out, differs from the stated one, or `None` if it is the
// same.
fn comment_difference(stated: &[u8], layout: &[u8]) -> Option<RemarkReason> {
    if layout.len() > MOST_CHARACTERS {
        return Some(RemarkReason::CutComment);
    }
    if stated.split(|byte| *byte == b' ').any(is_box_edge) {
        return Some(RemarkReason::Box);
    }
    if stated.iter().any(|byte| matches!(*byte, b'(' | b')')) {
        return Some(RemarkReason::Brackets);
    }
    if !stated.iter().all(|byte| is_printable_byte(*byte)) {
        return Some(RemarkReason::Unprintable);
    }
    if layout != stated {
        return Some(RemarkReason::Blanks);
    }
    None
}
