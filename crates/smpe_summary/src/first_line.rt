//! The first line of a summary.
ghost use Rattle.std.specs.Prelude.{◌≡◌, ◌++◌, length, IfOk, OnOk};
ghost use Rattle.smpe_summary.specs.Text.{group_number, would_text, ids_in, part, failed_parts, open_parts};
ghost use Rattle.smpe_summary.specs.Text.{other_parts, ordered, orders_of, acts_part, before_orders, orders_part, todo_parts};
ghost use Rattle.smpe_summary.specs.Text.{line_start, parts, read_words, empty_line, full_line, first_line};
ghost use Rattle.terms.specs.Lookups.{is_nil};

use crate::pieces::{Piece, append_pieces};
use crate::steps::steps_about;
use crate::values::{Group, Member, Summary, ToDo};
use fields::Id;
use std::alloc::{AllocError, Global};
use terms::{HoldKind, ZoneKind};

/// The place of the group in the text.
pub(crate) fn group_number(group: Group) -> usize
    ensures { result ≡ group_number group }
{
    match group {
        Group::Applied => 0,
        Group::Superseded => 1,
        Group::SupersededBy(_) => 2,
        Group::Failed => 3,
        Group::NotDecided => 4,
        Group::NoFunction(_) => 5,
        Group::AlreadyOn => 6,
        Group::Deleted => 7,
        Group::NotReceived => 8,
        Group::NoVer => 9,
    }
}

/// The ids of the group with this place.
pub(crate) fn ids_in(
    alloc: Global,
    members: &[Member],
    number: usize,
) -> Result<Vec<Id>, AllocError>
    ensures { IfOk result (λ ids. ids.items ≡ ids_in members.now number) }
{
    members
        .iter()
        .filter(|member| group_number(member.group) == number)
        .map(|member| member.id)
        .collect(alloc)
}

// Appends how many members the group has, if it has any.
fn append_part(
    alloc: Global,
    members: &[Member],
    number: usize,
    words: &[u8],
    text: &mut Vec<u8>,
) -> Result<(), AllocError>
    ensures { OnOk result (text.new.items ≡ text.old.items ++ part members.now number words.now) }
{
    let ids = ids_in(alloc, members, number)?;
    if ids.is_empty() {
        return Ok(());
    }
    let count = Piece::Number(ids.len());
    let pieces = [
        Piece::Text(b", "),
        count,
        Piece::Text(b" "),
        Piece::Text(words),
    ];
    append_pieces(&pieces, text)
}

// Appends the groups of those that do not go on themselves.
fn append_failed_parts(
    alloc: Global,
    members: &[Member],
    text: &mut Vec<u8>,
) -> Result<(), AllocError>
    ensures { OnOk result (text.new.items ≡ text.old.items ++ failed_parts members.now) }
{
    append_part(alloc, members, 3, b"would fail", text)?;
    append_part(alloc, members, 1, b"would be superseded", text)?;
    append_part(alloc, members, 2, b"superseded by others that go on", text)
}

// Appends the groups of those of which not all is known or received.
fn append_open_parts(
    alloc: Global,
    members: &[Member],
    text: &mut Vec<u8>,
) -> Result<(), AllocError>
    ensures { OnOk result (text.new.items ≡ text.old.items ++ open_parts members.now) }
{
    append_part(alloc, members, 4, b"not decided", text)?;
    append_part(alloc, members, 5, b"without their function", text)
}

// Appends the groups of those that the command did not take up.
fn append_other_parts(
    alloc: Global,
    members: &[Member],
    text: &mut Vec<u8>,
) -> Result<(), AllocError>
    ensures { OnOk result (text.new.items ≡ text.old.items ++ other_parts members.now) }
{
    append_part(alloc, members, 6, b"on already", text)?;
    append_part(alloc, members, 7, b"deleted", text)?;
    append_part(alloc, members, 8, b"not received", text)?;
    append_part(alloc, members, 9, b"without a ++VER for the SREL", text)
}

// Appends the id, if it is to be ordered.
fn push_ordered(item: &ToDo, ids: &mut Vec<Id>) -> Result<(), AllocError>
    ensures { OnOk result (ids.new.items ≡ ids.old.items ++ ordered item.now) }
{
    if let ToDo::Order(id) = item {
        ids.push(*id)?;
    }
    Ok(())
}

/// The ids that are to be ordered.
pub(crate) fn orders_of(alloc: Global, todo: &[ToDo]) -> Result<Vec<Id>, AllocError>
    ensures { IfOk result (λ ids. ids.items ≡ orders_of todo.now) }
{
    let mut ids = Vec::new(alloc);
    for item in todo {
        push_ordered(item, &mut ids)?;
    }
    Ok(ids)
}

// Appends how many holds there are to act on.
fn append_acts(acts: usize, text: &mut Vec<u8>) -> Result<(), AllocError>
    ensures { OnOk result (text.new.items ≡ text.old.items ++ acts_part acts) }
{
    if acts == 0 {
        return Ok(());
    }
    let counted = Piece::Counted(acts, b"hold");
    append_pieces(
        &[Piece::Text(b"; "), counted, Piece::Text(b" to act on")],
        text,
    )
}

// What stands before the number of orders.
fn before_orders(acts: usize) -> &'static [u8]
    ensures { result.now ≡ before_orders acts }
{
    if acts == 0 { b"; " } else { b", " }
}

// Appends how many SYSMODs there are to order.
fn append_orders(acts: usize, orders: usize, text: &mut Vec<u8>) -> Result<(), AllocError>
    ensures { OnOk result (text.new.items ≡ text.old.items ++ orders_part acts orders) }
{
    if orders == 0 {
        return Ok(());
    }
    let before = Piece::Text(before_orders(acts));
    let counted = Piece::Counted(orders, b"SYSMOD");
    append_pieces(&[before, counted, Piece::Text(b" to order")], text)
}

// Appends how much there is to be done.
fn append_todo_parts(alloc: Global, todo: &[ToDo], text: &mut Vec<u8>) -> Result<(), AllocError>
    ensures { OnOk result (text.new.items ≡ text.old.items ++ todo_parts todo.now) }
{
    let acts = steps_about(alloc, HoldKind::System, todo)?.len();
    let orders = orders_of(alloc, todo)?.len();
    append_acts(acts, text)?;
    append_orders(acts, orders, text)
}

// What would become of a SYSMOD that goes on.
fn would_text(kind: ZoneKind) -> &'static [u8]
    ensures { result.now ≡ would_text kind }
{
    match kind {
        ZoneKind::Target => b"would be applied",
        ZoneKind::Distribution => b"would be accepted",
    }
}

// Appends how many SYSMODs there are, and how many go on.
fn append_start(alloc: Global, summary: &Summary, text: &mut Vec<u8>) -> Result<(), AllocError>
    ensures { OnOk result (text.new.items ≡ text.old.items ++ line_start summary.now) }
{
    let members = summary.members.as_slice();
    let applied = ids_in(alloc, members, 0)?.len();
    let pieces = [
        Piece::Counted(members.len(), b"SYSMOD"),
        Piece::Text(b": "),
        Piece::Number(applied),
        Piece::Text(b" "),
        Piece::Text(would_text(summary.kind)),
    ];
    append_pieces(&pieces, text)
}

// Appends how many members the other groups have.
fn append_parts(alloc: Global, members: &[Member], text: &mut Vec<u8>) -> Result<(), AllocError>
    ensures { OnOk result (text.new.items ≡ text.old.items ++ parts members.now) }
{
    append_failed_parts(alloc, members, text)?;
    append_open_parts(alloc, members, text)?;
    append_other_parts(alloc, members, text)
}

// Appends the line of files with SYSMODs.
fn append_full_line(alloc: Global, summary: &Summary, text: &mut Vec<u8>) -> Result<(), AllocError>
    ensures { OnOk result (text.new.items ≡ text.old.items ++ full_line summary.now) }
{
    append_start(alloc, summary, text)?;
    append_parts(alloc, summary.members.as_slice(), text)?;
    append_todo_parts(alloc, summary.todo.as_slice(), text)?;
    text.extend_from_slice(b"\n")
}

// What is said of so many holds.
fn read_words(holds: usize) -> &'static [u8]
    ensures { result.now ≡ read_words holds }
{
    if holds == 1 {
        b" was read\n"
    } else {
        b" were read\n"
    }
}

// Appends the line of files without a SYSMOD, and with so many holds.
fn append_empty_line(holds: usize, text: &mut Vec<u8>) -> Result<(), AllocError>
    ensures { OnOk result (text.new.items ≡ text.old.items ++ empty_line holds) }
{
    let pieces = [
        Piece::Text(b"no SYSMOD to check in these files: "),
        Piece::Counted(holds, b"hold"),
        Piece::Text(read_words(holds)),
    ];
    append_pieces(&pieces, text)
}

// Whether there is no SYSMOD.
fn are_none(members: &[Member]) -> bool
    ensures { result ≡ is_nil members.now }
{
    members.is_empty()
}

/// Appends the first line: how many SYSMODs the groups have, and how much there is to be done, or that there is no
/// SYSMOD.
pub(crate) fn append_first_line(
    alloc: Global,
    summary: &Summary,
    text: &mut Vec<u8>,
) -> Result<(), AllocError>
    ensures { OnOk result (text.new.items ≡ text.old.items ++ first_line summary.now) }
{
    if are_none(summary.members.as_slice()) {
        return append_empty_line(summary.holds_read, text);
    }
    append_full_line(alloc, summary, text)
}
