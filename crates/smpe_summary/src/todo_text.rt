//! The text of what is to be done.
ghost use Rattle.std.specs.Prelude.{◌≡◌, ◌++◌, codes, IfOk, OnOk};
ghost use Rattle.std.specs.List.{flat_map};
ghost use Rattle.terms.specs.Lookups.{is_nil};
ghost use Rattle.smpe_summary.specs.Text.{act_command, ask_command, bypass_line, wait_line, hold_line, reason_of};
ghost use Rattle.smpe_summary.specs.Text.{reasons_text, sysmod_line, held_words, lines_text, kind_text, holds_text};
ghost use Rattle.smpe_summary.specs.Text.{order_line, all_text, todo_text};

use crate::first_line::orders_of;
use crate::pieces::{Piece, append_more_line, append_pieces, first_of};
use crate::steps::{MOST_HELD, held_ids, steps_about, steps_of};
use crate::values::ToDo;
use fields::Id;
use std::alloc::{AllocError, Global};
use terms::{HoldKind, ZoneKind};

// The command that would take up a SYSMOD whose SYSTEM hold was acted on.
fn act_command(kind: ZoneKind) -> &'static [u8]
    ensures { result.now ≡ act_command kind }
{
    match kind {
        ZoneKind::Target => b", then APPLY .. BYPASS(HOLDSYSTEM(",
        ZoneKind::Distribution => b", then ACCEPT .. BYPASS(HOLDSYSTEM(",
    }
}

// The command that would take up a SYSMOD whose USER hold may be passed over.
fn ask_command(kind: ZoneKind) -> &'static [u8]
    ensures { result.now ≡ ask_command kind }
{
    match kind {
        ZoneKind::Target => b", then APPLY .. BYPASS(HOLDUSER(",
        ZoneKind::Distribution => b", then ACCEPT .. BYPASS(HOLDUSER(",
    }
}

// Appends the line of holds that BYPASS covers.
fn append_bypass<'a>(
    verb: &'static [u8],
    command: &'static [u8],
    id: &'a Id,
    reasons: &'a [u8],
    text: &mut Vec<u8>,
) -> Result<(), AllocError>
    ensures { OnOk result (text.new.items
        ≡ text.old.items ++ bypass_line verb.now command.now id.now reasons.now) }
{
    let id_bytes = id.as_bytes();
    let pieces = [
        Piece::Text(verb),
        Piece::Text(id_bytes),
        Piece::Text(b" "),
        Piece::Text(reasons),
        Piece::Text(command),
        Piece::Text(reasons),
        Piece::Text(b"))\n"),
    ];
    append_pieces(&pieces, text)
}

// Appends the line of ERROR holds.
fn append_wait<'a>(id: &'a Id, reasons: &'a [u8], text: &mut Vec<u8>) -> Result<(), AllocError>
    ensures { OnOk result (text.new.items ≡ text.old.items ++ wait_line id.now reasons.now) }
{
    let id_bytes = id.as_bytes();
    let pieces = [
        Piece::Text(b"  wait     "),
        Piece::Text(id_bytes),
        Piece::Text(b" ERROR "),
        Piece::Text(reasons),
        Piece::Text(b", until a SYSMOD that resolves it is received\n"),
    ];
    append_pieces(&pieces, text)
}

// Appends the line of the SYSMOD, which has holds of this kind for these reasons.
fn append_hold_line(
    zone: ZoneKind,
    kind: HoldKind,
    id: &Id,
    reasons: &[u8],
    text: &mut Vec<u8>,
) -> Result<(), AllocError>
    ensures { OnOk result (text.new.items ≡ text.old.items ++ hold_line zone kind id.now reasons.now) }
{
    match kind {
        HoldKind::System => append_bypass(b"  act on   ", act_command(zone), id, reasons, text),
        HoldKind::User => append_bypass(b"  ask      ", ask_command(zone), id, reasons, text),
        HoldKind::Error => append_wait(id, reasons, text),
    }
}

// Appends the reason of the hold.
fn append_reason(step: &ToDo, text: &mut Vec<u8>) -> Result<(), AllocError>
    ensures { OnOk result (text.new.items ≡ text.old.items ++ reason_of step.now) }
{
    match step {
        ToDo::Order(_) => Ok(()),
        ToDo::Act { reason, .. } => text.extend_from_slice(reason.as_bytes()),
        ToDo::Ask { reason, .. } => text.extend_from_slice(reason.as_bytes()),
        ToDo::Wait { reason, .. } => text.extend_from_slice(reason.as_bytes()),
    }
}

// Appends a comma and the reason of the hold.
fn append_next_reason(step: &ToDo, text: &mut Vec<u8>) -> Result<(), AllocError>
    ensures { OnOk result (text.new.items ≡ text.old.items ++ (codes "," ++ reason_of step.now)) }
{
    text.extend_from_slice(b",")?;
    append_reason(step, text)
}

// The reasons of these holds, with a comma between them.
fn reasons_text(alloc: Global, steps: &[ToDo]) -> Result<Vec<u8>, AllocError>
    ensures { IfOk result (λ text. text.items ≡ reasons_text steps.now) }
{
    let mut text = Vec::new(alloc);
    let Some((first, rest)) = steps.split_first() else {
        return Ok(text);
    };
    append_reason(first, &mut text)?;
    for step in rest {
        append_next_reason(step, &mut text)?;
    }
    Ok(text)
}

// Appends the line of the SYSMOD, with the reasons of all its holds among these, which are of one kind.
fn append_sysmod(
    alloc: Global,
    zone: ZoneKind,
    kind: HoldKind,
    steps: &[ToDo],
    id: &Id,
    text: &mut Vec<u8>,
) -> Result<(), AllocError>
    ensures { OnOk result (text.new.items ≡ text.old.items ++ sysmod_line zone kind steps.now id.now) }
{
    let own = steps_of(alloc, *id, steps)?;
    let reasons = reasons_text(alloc, own.as_slice())?;
    append_hold_line(zone, kind, id, reasons.as_slice(), text)
}

// Appends the lines of these SYSMODs.
fn append_sysmods(
    alloc: Global,
    zone: ZoneKind,
    kind: HoldKind,
    steps: &[ToDo],
    ids: &[Id],
    text: &mut Vec<u8>,
) -> Result<(), AllocError>
    ensures { OnOk result (text.new.items
        ≡ text.old.items ++ flat_map (sysmod_line zone kind steps.now) ids.now) }
{
    for id in ids {
        append_sysmod(alloc, zone, kind, steps, id, text)?;
    }
    Ok(())
}

// What the SYSMODs have that are not told.
fn held_words(kind: HoldKind) -> &'static [u8]
    ensures { result.now ≡ held_words kind }
{
    match kind {
        HoldKind::System => b"with SYSTEM holds",
        HoldKind::User => b"with USER holds",
        HoldKind::Error => b"with ERROR holds",
    }
}

// Appends the lines of the first of these SYSMODs, and how many more there are.
fn append_lines(
    alloc: Global,
    zone: ZoneKind,
    kind: HoldKind,
    steps: &[ToDo],
    ids: &[Id],
    text: &mut Vec<u8>,
) -> Result<(), AllocError>
    ensures { OnOk result (text.new.items ≡ text.old.items ++ lines_text zone kind steps.now ids.now) }
{
    append_sysmods(alloc, zone, kind, steps, first_of(ids, MOST_HELD), text)?;
    append_more_line(MOST_HELD, ids.len(), held_words(kind), text)
}

// Appends the lines of the holds of this kind.
fn append_kind(
    alloc: Global,
    zone: ZoneKind,
    todo: &[ToDo],
    kind: HoldKind,
    text: &mut Vec<u8>,
) -> Result<(), AllocError>
    ensures { OnOk result (text.new.items ≡ text.old.items ++ kind_text zone todo.now kind) }
{
    let steps = steps_about(alloc, kind, todo)?;
    let ids = held_ids(alloc, steps.as_slice())?;
    append_lines(alloc, zone, kind, steps.as_slice(), ids.as_slice(), text)
}

// Appends the lines of the holds.
fn append_holds(
    alloc: Global,
    zone: ZoneKind,
    todo: &[ToDo],
    text: &mut Vec<u8>,
) -> Result<(), AllocError>
    ensures { OnOk result (text.new.items ≡ text.old.items ++ holds_text zone todo.now) }
{
    append_kind(alloc, zone, todo, HoldKind::System, text)?;
    append_kind(alloc, zone, todo, HoldKind::User, text)?;
    append_kind(alloc, zone, todo, HoldKind::Error, text)
}

// Appends the line of the orders, if there are any.
fn append_order(ids: &[Id], text: &mut Vec<u8>) -> Result<(), AllocError>
    ensures { OnOk result (text.new.items ≡ text.old.items ++ order_line ids.now) }
{
    if ids.is_empty() {
        return Ok(());
    }
    let ids = Piece::Ids(ids);
    append_pieces(
        &[Piece::Text(b"  order    "), ids, Piece::Text(b"\n")],
        text,
    )
}

// Appends the orders and the holds below their headline.
fn append_all(
    alloc: Global,
    zone: ZoneKind,
    orders: &[Id],
    todo: &[ToDo],
    text: &mut Vec<u8>,
) -> Result<(), AllocError>
    ensures { OnOk result (text.new.items ≡ text.old.items ++ all_text zone orders.now todo.now) }
{
    text.extend_from_slice(b"To do\n")?;
    append_order(orders, text)?;
    append_holds(alloc, zone, todo, text)
}

// Whether there is nothing to be done.
fn is_nothing(todo: &[ToDo]) -> bool
    ensures { result ≡ is_nil todo.now }
{
    todo.is_empty()
}

/// Appends what is to be done, if there is anything: what is to be ordered, and the holds of each kind.
pub(crate) fn append_todo(
    alloc: Global,
    zone: ZoneKind,
    todo: &[ToDo],
    text: &mut Vec<u8>,
) -> Result<(), AllocError>
    ensures { OnOk result (text.new.items ≡ text.old.items ++ todo_text zone todo.now) }
{
    if is_nothing(todo) {
        return Ok(());
    }
    let orders = orders_of(alloc, todo)?;
    append_all(alloc, zone, orders.as_slice(), todo, text)
}
