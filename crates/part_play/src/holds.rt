//! Hold files, as text.

use crate::row_text::RowText;
use fields::spelling::{hold_text, statement_code_text};
use fields::{Id, Reason};
use mcs::{HoldItem, McsError, read_hold};
use std::alloc::Global;
use sysmods_values::Hold;
use terms::HoldKind;

// Appends the key of a hold or of a release, and its FMID.
fn print_hold_key(out: &mut RowText, id: Id, kind: HoldKind, reason: Reason, fmid: Id) {
    out.print_words(&[id.as_bytes(), hold_text(kind)]);
    out.print_words(&[reason.as_bytes(), fmid.as_bytes()]);
}

/// Appends the hold.
pub(crate) fn print_hold(out: &mut RowText, hold: &Hold) {
    print_hold_key(out, hold.id, hold.kind, hold.reason, hold.fmid);
    if let Some(class) = hold.class {
        out.print_words(&[class.as_bytes()]);
    }
    if let Some(date) = hold.date {
        out.print_words(&[date.as_bytes()]);
    }
    if let Some(comment) = &hold.comment {
        out.print_words(&[comment.as_bytes()]);
    }
    out.print_if(hold.internal, b" internal");
}

fn print_items(out: &mut RowText, items: &[HoldItem]) {
    for item in items {
        match item {
            HoldItem::Hold(hold) => {
                out.print(b"HOLD");
                print_hold(out, hold);
            }
            HoldItem::Release(release) => {
                out.print(b"RELEASE");
                print_hold_key(out, release.id, release.kind, release.reason, release.fmid);
            }
        }
        out.print(b";");
    }
}

/// Appends the record and the code of a fault.
pub(crate) fn print_error(out: &mut RowText, error: McsError) {
    match error {
        McsError::Memory => out.print(b"memory"),
        McsError::Fault { number, code } => {
            out.print_number(number);
            out.print_words(&[statement_code_text(code)]);
        }
    }
}

/// The items of the hold file, or the record and the code of its fault.
pub(crate) fn hold_file_text(alloc: Global, bytes: &[u8]) -> RowText {
    let mut out = RowText::new();
    match read_hold(alloc, bytes) {
        Ok(items) => print_items(&mut out, items.as_slice()),
        Err(error) => print_error(&mut out, error),
    }
    out
}
