//! Remarks on what was read otherwise than it is written, and on statements that were not read.

use intake_cards::{RemarkReason, Remarks, Subject};
use intake_read::{Note, NoteReason, SwallowedStatement};
use std::alloc::{AllocError, Global};

/// Remarks on what was read otherwise than it is written. Lower case is told where it occurs first, with how often it
/// occurs, and columns 73 to 80 with the text that they hold.
pub(crate) fn tell_notes(
    alloc: Global,
    remarks: &mut Remarks,
    notes: &[Note],
) -> Result<(), AllocError> {
    for note in notes {
        let subject = Subject {
            place: note.place,
            word: b"",
            id: b"",
        };
        match note.reason {
            NoteReason::LowerCase => {
                let count = note.count;
                let count_text = format!(in alloc; "{count} in all")?;
                let text = count_text.as_bytes();
                remarks.tell_carried(alloc, &subject, b"", RemarkReason::LowerCase, text)?;
            }
            NoteReason::TextInNumbers => {
                let text = note.tail.trim_ascii();
                remarks.tell_dropped(alloc, &subject, b"", RemarkReason::TextInNumbers, text)?;
            }
        }
    }
    Ok(())
}

/// Remarks that each statement inside a comment is left out, with the card on which the comment opens.
pub(crate) fn tell_swallowed_statements(
    alloc: Global,
    remarks: &mut Remarks,
    swallowed: &[SwallowedStatement],
) -> Result<(), AllocError> {
    for statement in swallowed {
        let subject = Subject {
            place: statement.place,
            word: statement.word.as_slice(),
            id: statement.name.as_slice(),
        };
        let card = statement.comment.card;
        let opens = format!(in alloc; "which opens at {card}")?;
        let reason = RemarkReason::StatementInComment;
        remarks.tell_left_out(alloc, &subject, b"", reason, opens.as_bytes())?;
    }
    Ok(())
}
