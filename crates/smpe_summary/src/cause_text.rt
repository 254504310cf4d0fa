//! The text of a cause.
ghost use Rattle.std.specs.Prelude.{◌≡◌, ◌++◌, option_map, OnOk};
ghost use Rattle.std.specs.String.{string_bytes};
ghost use Rattle.smpe_summary.specs.Text.{comment_text, hold_words, error_words, open_words, need_words, test_words};
ghost use Rattle.smpe_summary.specs.Causes.{TestWhy, UnknownWhy};
ghost use Rattle.smpe_summary.specs.Text.{cause_text, cause_line};
ghost use Rattle.smpe_summary.specs.Views.{reason_view, cause_view};

use crate::pieces::{Piece, append_pieces};
use crate::todo::is_error_hold;
use crate::values::{Cause, CauseReason};
use fields::spelling::{hold_text, need_text, test_text};
use fields::{Id, Reason};
use std::alloc::AllocError;
use terms::{HoldKind, NeedKind, Test};

// Appends the comment of a hold, if it has one.
fn append_comment(comment: &Option<String>, text: &mut Vec<u8>) -> Result<(), AllocError>
    ensures { OnOk result (text.new.items ≡ text.old.items ++ comment_text (option_map string_bytes comment.now)) }
{
    match comment {
        Some(comment) => {
            let comment = Piece::Text(comment.as_bytes());
            append_pieces(&[Piece::Text(b": "), comment], text)
        }
        None => Ok(()),
    }
}

// Appends the hold: its kind, its reason and its comment.
fn append_hold<'a>(
    kind: HoldKind,
    reason: &'a Reason,
    comment: &Option<String>,
    text: &mut Vec<u8>,
) -> Result<(), AllocError>
    ensures { OnOk result (text.new.items
        ≡ text.old.items ++ hold_words kind reason.now (option_map string_bytes comment.now)) }
{
    let pieces = [
        Piece::Text(hold_text(kind)),
        Piece::Text(b" hold "),
        Piece::Text(reason.as_bytes()),
    ];
    append_pieces(&pieces, text)?;
    append_comment(comment, text)
}

// Appends the reason of an ERROR hold.
fn append_error<'a>(id: &'a Id, text: &mut Vec<u8>) -> Result<(), AllocError>
    ensures { OnOk result (text.new.items ≡ text.old.items ++ error_words id.now) }
{
    let id_bytes = id.as_bytes();
    let start = Piece::Text(b"ERROR hold ");
    let end = Piece::Text(b": nothing that resolves it goes on");
    append_pieces(&[start, Piece::Text(id_bytes), end], text)
}

// Appends the open need for an id that is not received.
fn append_open<'a>(kind: NeedKind, id: &'a Id, text: &mut Vec<u8>) -> Result<(), AllocError>
    ensures { OnOk result (text.new.items ≡ text.old.items ++ open_words kind id.now) }
{
    let kind = Piece::Text(need_text(kind));
    let id = Piece::Text(id.as_bytes());
    append_pieces(
        &[
            kind,
            Piece::Text(b" "),
            id,
            Piece::Text(b" is not received"),
        ],
        text,
    )
}

// Appends the open need.
fn append_need<'a>(kind: NeedKind, id: &'a Id, text: &mut Vec<u8>) -> Result<(), AllocError>
    ensures { OnOk result (text.new.items ≡ text.old.items ++ need_words kind id.now) }
{
    if is_error_hold(kind) {
        return append_error(id, text);
    }
    append_open(kind, id, text)
}

// What a failed test says.
fn test_words(test: Test) -> &'static [u8]
    ensures { result.now ≡ test_words test }
{
    match test {
        Test::HeldBySystem => b"SYSTEM hold",
        Test::HeldByUser => b"USER hold",
        Test::ForbiddenByNpre => b"its NPRE or that of an applied function forbids it",
        Test::OwnedByAnother => b"one of its elements belongs to another function",
        Test::Regression => b"it would regress an element",
        Test::NothingToUpdate => b"an element that it updates is not there",
        Test::NotInTarget => b"it is not applied in the target zone",
        Test::ChainDeleted => b"the DELETE of another SYSMOD takes off its function",
        Test::InClash => b"it clashes with another SYSMOD",
        Test::AlreadyAccepted => b"it is accepted",
        Test::HasDelete => b"it deletes a function",
        Test::OtherLevel => b"the distribution zone has another level of an element",
        Test::SeveralFit => b"several of its ++VERs fit",
    }
}

// Appends the failed test.
fn append_test(test: Test, text: &mut Vec<u8>) -> Result<(), AllocError>
    ensures { OnOk result (text.new.items ≡ text.old.items ++ cause_text (TestWhy test)) }
{
    let pieces = [
        Piece::Text(test_words(test)),
        Piece::Text(b" ("),
        Piece::Text(test_text(test)),
        Piece::Text(b")"),
    ];
    append_pieces(&pieces, text)
}

// Appends that what is needed does not go on.
fn append_unknown(text: &mut Vec<u8>) -> Result<(), AllocError>
    ensures { OnOk result (text.new.items ≡ text.old.items ++ cause_text UnknownWhy) }
{
    text.extend_from_slice(b"what it needs does not go on")
}

/// Appends why a causer fails, in a few words without a newline: the hold with its comment, the open need, or the test
/// with its code.
pub fn append_cause_text(why: &CauseReason, text: &mut Vec<u8>) -> Result<(), AllocError>
    ensures { OnOk result (text.new.items ≡ text.old.items ++ cause_text (reason_view why.now)) }
{
    match why {
        CauseReason::Hold {
            kind,
            reason,
            comment,
        } => append_hold(*kind, reason, comment, text),
        CauseReason::Need { kind, id } => append_need(*kind, id, text),
        CauseReason::Test(test) => append_test(*test, text),
        CauseReason::Unknown => append_unknown(text),
    }
}

/// Appends the line of a cause.
pub(crate) fn append_cause(cause: &Cause, text: &mut Vec<u8>) -> Result<(), AllocError>
    ensures { OnOk result (text.new.items ≡ text.old.items ++ cause_line (cause_view cause.now)) }
{
    let pieces = [
        Piece::Text(b"  "),
        Piece::Number(cause.fails),
        Piece::Text(b"  "),
        Piece::Text(cause.id.as_bytes()),
        Piece::Text(b": "),
    ];
    append_pieces(&pieces, text)?;
    append_cause_text(&cause.why, text)?;
    append_pieces(&[Piece::Text(b"\n")], text)
}
