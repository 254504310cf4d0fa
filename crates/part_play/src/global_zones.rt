//! A global zone: holds, sources, REJECT, the SYSMODs that name an id, and which SYSMOD is over which.

use crate::row_text::RowText;
use crate::values::read_id;
use fields::{Id, Reason, Source, Srel};
use mcs::{Item, read_ptfin};
use sorted::Table;
use std::alloc::{AllocError, Global};
use std::test::Fail;
use sysmods::{GlobalZone, Overs, Placed, RejectError, ReleaseError, VerChoice};
use sysmods_values::Hold;
use terms::HoldKind;

/// What each of the actions returns in the global zone that has received the file. Commas separate the actions.
pub(crate) fn read_global(alloc: Global, file: &[u8], actions: &str) -> Result<RowText, Fail> {
    let mut global = zone_that_received(alloc, file)?;
    let mut out = RowText::new();
    for action in actions.split(',') {
        let (word, ids) = action.split_once(' ').ok_or("an action has an id")?;
        out.print(b" ");
        perform_action(alloc, &mut global, word, ids, &mut out)?;
    }
    Ok(out)
}

// The global zone that has received the SYSMODs of the file. Each `++ASSIGN` is ignored.
fn zone_that_received(alloc: Global, file: &[u8]) -> Result<GlobalZone, Fail> {
    let mut global = GlobalZone::new(alloc);
    for item in read_ptfin(alloc, file)? {
        if let Item::Sysmod(sysmod) = item {
            global.receive(alloc, sysmod)?;
        }
    }
    Ok(global)
}

// Performs an action and appends what became of it, or answers a question.
fn perform_action(
    alloc: Global,
    global: &mut GlobalZone,
    word: &str,
    ids: &str,
    out: &mut RowText,
) -> Result<(), Fail> {
    match word.as_bytes() {
        b"HOLD" => out.print(add_test_hold(global, read_id(ids)?)?),
        b"RELEASE" => out.print(remove_test_hold(global, read_id(ids)?)?),
        b"ASSIGN" => out.print(assign_test_source(global, read_id(ids)?)?),
        b"REJECT" => out.print(reject_sysmod(global, read_id(ids)?)),
        _ => return answer_question(alloc, global, word, ids, out),
    }
    Ok(())
}

// The reason ID of the holds that HOLD adds and RELEASE removes.
fn test_reason() -> Result<Reason, &'static str> {
    Reason::read(b"WAIT").ok_or("no reason")
}

// Puts an external hold on the SYSMOD.
fn add_test_hold(global: &mut GlobalZone, id: Id) -> Result<&'static [u8], Fail> {
    let hold = Hold {
        id,
        kind: HoldKind::User,
        reason: test_reason()?,
        fmid: id,
        class: None,
        date: None,
        comment: None,
        internal: false,
    };
    Ok(match global.hold(hold)? {
        Placed::New => b"new",
        Placed::Replaced => b"replaced",
    })
}

fn remove_test_hold(global: &mut GlobalZone, id: Id) -> Result<&'static [u8], &'static str> {
    Ok(match global.release(id, HoldKind::User, test_reason()?) {
        Ok(()) => b"released",
        Err(ReleaseError::NoHold) => b"no hold",
        Err(ReleaseError::Internal) => b"internal",
    })
}

fn assign_test_source(global: &mut GlobalZone, id: Id) -> Result<&'static [u8], Fail> {
    let source = Source::read(b"SRC1").ok_or("no source")?;
    Ok(if global.assign(source, id)? {
        b"assigned"
    } else {
        b"unknown"
    })
}

fn reject_sysmod(global: &mut GlobalZone, id: Id) -> &'static [u8] {
    match global.reject(id) {
        Ok(()) => b"rejected",
        Err(RejectError::NotReceived) => b"not received",
    }
}

// Appends how many SYSMODs or sources there are, which SYSMODs name an id, or which SYSMOD is over which.
fn answer_question(
    alloc: Global,
    global: &GlobalZone,
    word: &str,
    ids: &str,
    out: &mut RowText,
) -> Result<(), Fail> {
    let srel = Srel::read(b"Z038").ok_or("no SREL")?;
    let mut found = Vec::new(alloc);
    match word.as_bytes() {
        b"SIZE" => out.print_number(global.len()),
        b"SOURCES" => {
            let sysmod = global.get(read_id(ids)?).ok_or("no SYSMOD")?;
            out.print_number(sysmod.sources.len());
        }
        b"NAMERS" => global.append_namers(srel, read_id(ids)?, &mut found)?,
        b"SERVICE" => global.append_function_namers(read_id(ids)?, &mut found)?,
        b"OVER" => return print_over(alloc, global, srel, ids, out),
        b"SUPERSEDED" => return print_superseded(alloc, global, srel, ids, out),
        _ => return Err(Fail::from("no action has this name")),
    }
    out.print_ids(found.as_slice());
    Ok(())
}

// Appends all ids that the SYSMOD supersedes.
fn print_superseded(
    alloc: Global,
    global: &GlobalZone,
    srel: Srel,
    id: &str,
    out: &mut RowText,
) -> Result<(), Fail> {
    let vers = VerChoice::new(global, srel, Table::new(alloc), Table::new(alloc));
    let superseded = vers.sup_all(alloc, read_id(id)?)?;
    out.print_ids(superseded.as_slice());
    Ok(())
}

// Whether the SYSMOD `above` is over `below`: as `VerChoice` says, as `Overs` computes it, and as `Overs` remembers it.
fn over_answers(
    alloc: Global,
    vers: &VerChoice<'_>,
    above: Id,
    below: Id,
) -> Result<[bool; 3], AllocError> {
    let mut overs = Overs::new(alloc, vers);
    let computed = overs.over(alloc, above, below)?;
    let remembered = overs.over(alloc, above, below)?;
    Ok([vers.over(alloc, above, below)?, computed, remembered])
}

// Appends a letter for each answer to the question whether the first SYSMOD is over the second one.
fn print_over(
    alloc: Global,
    global: &GlobalZone,
    srel: Srel,
    ids: &str,
    out: &mut RowText,
) -> Result<(), Fail> {
    let (above, below) = ids.split_once(' ').ok_or("two ids")?;
    let vers = VerChoice::new(global, srel, Table::new(alloc), Table::new(alloc));
    for answer in over_answers(alloc, &vers, read_id(above)?, read_id(below)?)? {
        out.print_flag(answer);
    }
    Ok(())
}
