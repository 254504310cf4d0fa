//! `++ASSIGN`: received SYSMODs gain a source.
ghost use Rattle.std.specs.Prelude.{◌≡◌, ◌++◌, All, IfOk, IfSome, OnOk, if◌then◌else◌};
ghost use Rattle.terms.specs.Forms.{IsSource};
ghost use Rattle.terms.specs.Lookups.{sysmod_of};
ghost use Rattle.machine.specs.Outcome.{Assigned, Unknown};
ghost use Rattle.machine.specs.Receiving.{AssignsId};
ghost use Rattle.machine.specs.Runs.{Runs};
ghost use Rattle.report.specs.Views.{status_view};
ghost use Rattle.smpe_global.specs.Edits.{head_of, source_edits};
ghost use Rattle.smpe_global.specs.Taken.{IsTaken};

use crate::attested::attest_sources;
use crate::global_change::GlobalChange;
use fields::{Attest, Id, Source};
use mcs::Assign;
use report::{ReportLine, Status, place_of};
use std::alloc::{AllocError, Global};
use sysmods::{GlobalEdit, GlobalZone};
use sysmods_values::Sysmod;

// The SYSMOD with its sources, but without its statements: these have rows of their own, which the edit leaves alone.
fn sysmod_head(alloc: Global, sysmod: &Sysmod) -> Result<Sysmod, AllocError>
    ensures { IfOk result (λ head. head ≡ head_of sysmod.now) }
{
    Ok(Sysmod {
        id: sysmod.id,
        kind: sysmod.kind,
        sources: sysmod.sources.try_clone(alloc)?,
        vers: Vec::new(alloc),
        changes: Vec::new(alloc),
        holds: Vec::new(alloc),
    })
}

// Appends the edit that writes the sources of a received SYSMOD. It appends nothing for an id that is not received.
fn push_source_edit(
    alloc: Global,
    global: &GlobalZone,
    id: Id,
    edits: &mut Vec<GlobalEdit>,
) -> Result<(), AllocError>
    ensures edits { OnOk result (edits.new.items ≡ edits.old.items ++ source_edits (sysmod_of global.now id)) }
    ensures form { OnOk result (IfSome (sysmod_of global.now id) (λ s. All IsSource s.sources)) }
{
    if let Some(sysmod) = global.get(id) {
        attest_sources(sysmod);
        edits.push(GlobalEdit::ReplaceSources(sysmod_head(alloc, sysmod)?))?;
    }
    Ok(())
}

// The status of an id in an `++ASSIGN`: given the source, or unknown if it is not received.
fn assign_status(source: Source, received: bool) -> Status
    ensures { status_view result ≡ (if received then Assigned source else Unknown) }
{
    if received {
        Status::Assigned(source)
    } else {
        Status::Unknown
    }
}

// Gives the source to a received SYSMOD, and adds the line of the id and the edit.
fn assign_id(
    alloc: Global,
    global: &mut GlobalZone,
    source: Source,
    id: Id,
    change: &mut GlobalChange,
) -> Result<(), AllocError>
    ensures { OnOk result (IsTaken (AssignsId source global.old id) global.old global.new change.old change.new) }
{
    // (for the clause: the global zone has its form, so the edits lead to what it becomes)
    global.attest();
    let place = place_of(global, id);
    let received = global.assign(source, id)?;
    push_source_edit(alloc, global, id, &mut change.edits)?;
    change.lines.push(ReportLine::Status {
        id,
        place,
        status: assign_status(source, received),
    })?;
    Ok(())
}

// Gives the source to these ids, in their order.
fn assign_ids(
    alloc: Global,
    global: &mut GlobalZone,
    source: Source,
    ids: &[Id],
    change: &mut GlobalChange,
) -> Result<(), AllocError>
    ensures { OnOk result (IsTaken (Runs (AssignsId source) global.old ids.now) global.old global.new change.old
        change.new) }
{
    for id in ids {
        assign_id(alloc, global, source, *id, change)?;
    }
    Ok(())
}

/// Gives the source of an `++ASSIGN` to its ids, in their order.
pub(crate) fn receive_assign(
    alloc: Global,
    global: &mut GlobalZone,
    assign: Assign,
    change: &mut GlobalChange,
) -> Result<(), AllocError>
    ensures { OnOk result (IsTaken (Runs (AssignsId assign.source) global.old assign.to) global.old global.new
        change.old change.new) }
{
    let Assign { source, to } = assign;
    assign_ids(alloc, global, source, to.as_slice(), change)
}
