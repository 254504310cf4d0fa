//! The items of a PTFIN.
ghost use Rattle.std.specs.Prelude.{◌≡◌, All, Some, IfOk, IfSome, OnOk, map, option_map};
ghost use Rattle.terms.specs.Types.{Global as AGlobal, ASysmod};
ghost use Rattle.terms.specs.Forms.{IsSource};
ghost use Rattle.terms.specs.HoldStatements.{HasShortComment};
ghost use Rattle.machine.specs.Runs.{Runs};
ghost use Rattle.machine.specs.Receiving.{TakesItem, sourced, receive_status};
ghost use Rattle.mcs.specs.Files.{item_of, items};
ghost use Rattle.report.specs.Views.{line_view, status_view};
ghost use Rattle.sysmods.specs.Edits.{StatesThose, EachFits, after_edits, IsOfReceive, HasWrittenForm};
ghost use Rattle.smpe_global.specs.Edits.{answer_of};
ghost use Rattle.smpe_global.specs.Items.{IsOfPtfin};
ghost use Rattle.smpe_global.specs.Taken.{IsTaken};

use crate::assign::receive_assign;
use crate::attested::attest_sources;
use crate::edits::sysmod_edits;
use crate::global_change::GlobalChange;
use crate::last_edits::last_edits;
use fields::Source;
use mcs::Item;
use report::{Place, ReportLine, Status};
use std::alloc::{AllocError, Global};
use sysmods::{GlobalZone, Refused};
use sysmods_values::Sysmod;
use terms::IdRefusal;

// The SYSMOD with one more source, if the command adds one.
fn with_source(mut sysmod: Sysmod, source: &Option<Source>) -> Result<Sysmod, AllocError>
    ensures { IfOk result (λ found. found ≡ sourced source.now sysmod) }
{
    if let Some(source) = source {
        sysmod.insert_source(*source)?;
    }
    Ok(sysmod)
}

// The status of a SYSMOD, received or refused. A refusal because memory ran out is no status, but an error.
fn receive_status(answer: Result<(), Refused>) -> Result<Status, AllocError>
    ensures { IfOk result (λ status. (new : AGlobal)
        → option_map receive_status (answer_of new answer) ≡ Some (status_view status)) }
{
    match answer {
        Ok(()) => Ok(Status::Received),
        Err(Refused::AlreadyReceived) => Ok(Status::Already),
        Err(Refused::MakesLoop) => Ok(Status::Refused(IdRefusal::MakesLoop)),
        Err(Refused::WrongRole) => Ok(Status::Refused(IdRefusal::WrongRole)),
        Err(Refused::NoRoom) => Ok(Status::Refused(IdRefusal::NoRoom)),
        Err(Refused::Memory) => Err(AllocError),
    }
}

// Receives a SYSMOD, with the source that the command adds, and adds its line. Adds its edits unless it is refused.
fn receive_sysmod(
    alloc: Global,
    global: &mut GlobalZone,
    sysmod: Sysmod,
    source: &Option<Source>,
    change: &mut GlobalChange,
) -> Result<(), AllocError>
    requires { All HasShortComment sysmod.holds }
    ensures { OnOk result (IsTaken (TakesItem source.now global.old (ASysmod sysmod)) global.old global.new change.old
        change.new) }
{
    let sysmod = with_source(sysmod, source)?;
    attest_sources(&sysmod);
    let id = sysmod.id;
    let kind = sysmod.kind;
    let mut edits = sysmod_edits(alloc, &sysmod)?;
    let answer = global.receive(alloc, sysmod);
    change.lines.push(ReportLine::Status {
        id,
        place: Place::Kind(kind),
        status: receive_status(answer)?,
    })?;
    match answer {
        Ok(()) => change.edits.append(&mut edits),
        Err(_) => Ok(()),
    }
}

// Receives the SYSMOD of an item, or gives its source to the ids of an `++ASSIGN`.
fn receive_item(
    alloc: Global,
    global: &mut GlobalZone,
    item: Item,
    source: &Option<Source>,
    change: &mut GlobalChange,
) -> Result<(), AllocError>
    requires { IsOfPtfin (item_of item) }
    ensures { OnOk result (IsTaken (TakesItem source.now global.old (item_of item)) global.old global.new change.old
        change.new) }
{
    match item {
        Item::Sysmod(sysmod) => receive_sysmod(alloc, global, sysmod, source, change),
        Item::Assign(assign) => receive_assign(alloc, global, assign, change),
    }
}

// Receives the items of a PTFIN, in their order.
fn receive_items(
    alloc: Global,
    global: &mut GlobalZone,
    ptfin_items: Vec<Item>,
    source: &Option<Source>,
    change: &mut GlobalChange,
) -> Result<(), AllocError>
    requires { All IsOfPtfin (items ptfin_items.items) }
    ensures { OnOk result (IsTaken (Runs (TakesItem source.now) global.old (items ptfin_items.items)) global.old
        global.new change.old change.new) }
{
    for item in ptfin_items {
        receive_item(alloc, global, item, source, change)?;
    }
    Ok(())
}

/// Receives the items of a PTFIN, in their order, and adds the source to each SYSMOD that is received. After an error
/// the global zone may have some of them.
pub fn receive_ptfin(
    alloc: Global,
    global: &mut GlobalZone,
    ptfin_items: Vec<Item>,
    source: Option<Source>,
) -> Result<GlobalChange, AllocError>
    requires { All IsOfPtfin (items ptfin_items.items) }
    ensures runs { IfOk result (λ t. Runs (TakesItem source) global.old (items ptfin_items.items) global.new
        (map line_view t.lines.items)) }
    ensures receives { IfOk result (λ t. All IsOfReceive t.edits.items) }
    ensures written { IfOk result (λ t. All HasWrittenForm t.edits.items) }
    ensures fits { IfOk result (λ t. (stated : AGlobal) → StatesThose stated global.new
        → EachFits stated t.edits.items global.old) }
    ensures edits { IfOk result (λ t. (stated : AGlobal) → StatesThose stated global.new
        → after_edits stated t.edits.items global.old ≡ global.new) }
    ensures form { IfSome source IsSource }
{
    // (for the clause `form`: a source is not empty, which its type promises)
    prove!(match &source {
        Some(source) => !source.as_bytes().is_empty(),
        None => true,
    });
    let mut change = GlobalChange::new(alloc);
    receive_items(alloc, global, ptfin_items, &source, &mut change)?;
    let GlobalChange { edits, lines } = change;
    let edits = last_edits(alloc, edits)?;
    Ok(GlobalChange { edits, lines })
}
