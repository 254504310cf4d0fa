//! The text of a summary.
ghost use Rattle.std.specs.Prelude.{◌≡◌, ◌++◌, map, OnOk};
ghost use Rattle.std.specs.List.{flat_map};
ghost use Rattle.smpe_summary.specs.Text.{causes_text, usermods_text, taken_line, taken_text, besides};
ghost use Rattle.smpe_summary.specs.Text.{cause_line, middle, summary_text};
ghost use Rattle.smpe_summary.specs.Views.{cause_view, taken_view};

use crate::cause_text::append_cause;
use crate::first_line::append_first_line;
use crate::group_lines::{append_group_lines, append_ids_line};
use crate::pieces::{Piece, append_more_line, append_pieces, first_of};
use crate::steps::most_causes;
use crate::todo_text::append_todo;
use crate::values::{Cause, Summary, TakenOff};
use fields::Id;
use std::alloc::{AllocError, Global};

// How many SYSMODs that take others off are told.
const MOST_TAKEN: usize = 2;

// Appends the lines of these causes.
fn append_cause_lines(causes: &[Cause], text: &mut Vec<u8>) -> Result<(), AllocError>
    ensures { OnOk result (text.new.items ≡ text.old.items ++ flat_map cause_line (map cause_view causes.now)) }
{
    for cause in causes {
        append_cause(cause, text)?;
    }
    Ok(())
}

// Appends the first causes, at most so many, and how many more there are.
fn append_causes(most: usize, causes: &[Cause], text: &mut Vec<u8>) -> Result<(), AllocError>
    ensures { OnOk result (text.new.items ≡ text.old.items ++ causes_text most (map cause_view causes.now)) }
{
    append_cause_lines(first_of(causes, most), text)?;
    append_more_line(most, causes.len(), b"causes", text)
}

// Appends the USERMODs that are taken off, if there are any.
fn append_usermods(ids: &[Id], text: &mut Vec<u8>) -> Result<(), AllocError>
    ensures { OnOk result (text.new.items ≡ text.old.items ++ usermods_text ids.now) }
{
    if ids.is_empty() {
        return Ok(());
    }
    append_pieces(&[Piece::Text(b"; USERMODs: "), Piece::Ids(ids)], text)
}

// Appends what one SYSMOD takes off.
fn append_taken(taken: &TakenOff, text: &mut Vec<u8>) -> Result<(), AllocError>
    ensures { OnOk result (text.new.items ≡ text.old.items ++ taken_line (taken_view taken.now)) }
{
    let pieces = [
        Piece::Text(b"  "),
        Piece::Text(taken.by.as_bytes()),
        Piece::Text(b" takes off "),
        Piece::Ids(taken.ids.as_slice()),
    ];
    append_pieces(&pieces, text)?;
    append_usermods(taken.usermods.as_slice(), text)?;
    append_pieces(&[Piece::Text(b"\n")], text)
}

// Appends the lines of what these take off.
fn append_taken_lines(taken_off: &[TakenOff], text: &mut Vec<u8>) -> Result<(), AllocError>
    ensures { OnOk result (text.new.items ≡ text.old.items ++ flat_map taken_line (map taken_view taken_off.now)) }
{
    for taken in taken_off {
        append_taken(taken, text)?;
    }
    Ok(())
}

// Appends what the first take off, and how many more there are.
fn append_taken_off(taken_off: &[TakenOff], text: &mut Vec<u8>) -> Result<(), AllocError>
    ensures { OnOk result (text.new.items ≡ text.old.items ++ taken_text (map taken_view taken_off.now)) }
{
    append_taken_lines(first_of(taken_off, MOST_TAKEN), text)?;
    append_more_line(MOST_TAKEN, taken_off.len(), b"that take SYSMODs off", text)
}

// Appends what goes on and what goes off besides the package.
fn append_besides(summary: &Summary, text: &mut Vec<u8>) -> Result<(), AllocError>
    ensures { OnOk result (text.new.items ≡ text.old.items ++ besides summary.now) }
{
    append_ids_line(
        b"of earlier service go on too",
        summary.also.as_slice(),
        text,
    )?;
    append_taken_off(summary.taken_off.as_slice(), text)
}

// Appends the lines of groups, of causes, and of what goes on and off besides.
fn append_middle(alloc: Global, summary: &Summary, text: &mut Vec<u8>) -> Result<(), AllocError>
    ensures { OnOk result (text.new.items ≡ text.old.items ++ middle summary.now) }
{
    let most = most_causes(alloc, summary.todo.as_slice())?;
    append_group_lines(alloc, summary.members.as_slice(), text)?;
    append_causes(most, summary.causes.as_slice(), text)?;
    append_besides(summary, text)
}

/// Appends the summary as at most 40 lines: how many SYSMODs there are in each group, the groups, the causes, what goes
/// on and off besides, and what is to be done.
pub fn append_summary(
    alloc: Global,
    summary: &Summary,
    text: &mut Vec<u8>,
) -> Result<(), AllocError>
    ensures { OnOk result (text.new.items ≡ text.old.items ++ summary_text summary.now) }
{
    append_first_line(alloc, summary, text)?;
    append_middle(alloc, summary, text)?;
    append_todo(alloc, summary.kind, summary.todo.as_slice(), text)
}
