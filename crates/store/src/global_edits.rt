//! Edits of the global zone, written in an open transaction. SYSMODs that come wait for others, so that one statement
//! puts rows of several. Each call returns an error if the database refuses a row, if the disk fails or if memory runs
//! out.

ghost use Rattle.std.specs.Prelude.{◌≡◌, false, List, [], OnOk};
ghost use Rattle.terms.specs.Global.{with_sysmod};
ghost use Rattle.terms.specs.Lookups.{is_received};
ghost use Rattle.terms.specs.Types.{Sysmod as ASysmod};
ghost use Rattle.store_rows.specs.Calls.{RunsInside};
ghost use Rattle.store_rows.specs.Inside.{Continues};
ghost use Rattle.store_sysmods.specs.Calls.{insert_sysmods_calls};
ghost use Rattle.store_sysmods.specs.Sysmods.{AreWaitingRows, ChangesGlobal, sourced};
ghost use Rattle.store.specs.Calls.{edits_calls, with_edit, with_room, with_waiting};
ghost use Rattle.store.specs.Waiting.{Waits};
ghost use Rattle.sysmods.specs.Edits.{EachFits, Fits, after_edit, after_edits};

use fields::Source;
use sqlite::{Alter, Error, Transaction};
use std::alloc::Global;
use store_sysmods::{
    SysmodRows, insert_sysmods, remove_hold, remove_sysmod, replace_sources, upsert_hold,
};
use sysmods::{GlobalEdit, GlobalZone};
use sysmods_values::Sysmod;

/// How many SYSMODs wait at most, so that their rows take little memory.
const MOST_WAITING: usize = 256;

// Writes the SYSMODs that wait. Afterwards none waits.
fn write_waiting<S: Alter>(
    alloc: Global,
    tx: &mut Transaction<'_, S>,
    waiting: &mut SysmodRows,
) -> Result<(), Error>
    ensures continues { Continues S.Store tx.old tx.new }
    ensures goes { (ss : List ASysmod) → AreWaitingRows waiting.old ss → Waits S.Store ss (insert_sysmods_calls ss, [])
        (λ g. Unit {0}) (λ g. g) tx.old.conn.now tx.new.conn.now waiting.new result }
{
    insert_sysmods(alloc, tx, waiting)?;
    *waiting = SysmodRows::new(alloc);
    Ok(())
}

// Writes the SYSMODs that wait if there are so many that no other may wait with them.
fn make_room<S: Alter>(
    alloc: Global,
    tx: &mut Transaction<'_, S>,
    waiting: &mut SysmodRows,
) -> Result<(), Error>
    ensures continues { Continues S.Store tx.old tx.new }
    ensures goes { (ss : List ASysmod) → AreWaitingRows waiting.old ss → Waits S.Store ss (with_room ([], ss))
        (λ g. Unit {0}) (λ g. g) tx.old.conn.now tx.new.conn.now waiting.new result }
{
    if waiting.len() != MOST_WAITING {
        return Ok(());
    }
    write_waiting(alloc, tx, waiting)
}

// Lets the SYSMOD with these sources wait with the others, which it writes first if there are too many.
fn add_waiting<S: Alter>(
    alloc: Global,
    tx: &mut Transaction<'_, S>,
    waiting: &mut SysmodRows,
    sysmod: &Sysmod,
    sources: &[Source],
) -> Result<(), Error>
    ensures continues { Continues S.Store tx.old tx.new }
    ensures goes { (ss : List ASysmod) → AreWaitingRows waiting.old ss
        → Waits S.Store ss (with_waiting ([], ss) (sourced sysmod.now sources.now))
        (λ g. is_received g sysmod.now.id ≡ false) (λ g. with_sysmod g (sourced sysmod.now sources.now))
        tx.old.conn.now tx.new.conn.now waiting.new result }
{
    make_room(alloc, tx, waiting)?;
    waiting.push(alloc, sysmod, sources)?;
    Ok(())
}

// Makes the edit. A SYSMOD that is received waits; one of which `stated` has no statements is not written at all. Edits
// that replace a SYSMOD's sources or remove a SYSMOD first write those that wait. Edits of holds do not.
fn write_edit<S: Alter>(
    alloc: Global,
    tx: &mut Transaction<'_, S>,
    stated: &GlobalZone,
    waiting: &mut SysmodRows,
    edit: &GlobalEdit,
) -> Result<(), Error>
    ensures continues { Continues S.Store tx.old tx.new }
    ensures goes { (ss : List ASysmod) → AreWaitingRows waiting.old ss
        → Waits S.Store ss (with_edit stated.now ([], ss) edit.now) (λ g. Fits g edit.now)
        (λ g. after_edit stated.now g edit.now) tx.old.conn.now tx.new.conn.now waiting.new result }
{
    match edit {
        GlobalEdit::PutHold(hold) => upsert_hold(tx, hold),
        GlobalEdit::RemoveHold(id, kind, reason) => remove_hold(tx, *id, *kind, *reason),
        GlobalEdit::InsertSysmod(id, sources) => match stated.get(*id) {
            Some(sysmod) => add_waiting(alloc, tx, waiting, sysmod, sources.as_slice()),
            None => Ok(()),
        },
        GlobalEdit::ReplaceSources(sysmod) => {
            write_waiting(alloc, tx, waiting)?;
            replace_sources(alloc, tx, sysmod)
        }
        GlobalEdit::RemoveSysmod(id) => {
            write_waiting(alloc, tx, waiting)?;
            remove_sysmod(tx, *id)
        }
    }
}

/// Makes the edits of the global zone, in their order. `stated` has the statements of the SYSMODs that are received.
pub(crate) fn write_edits<S: Alter>(
    alloc: Global,
    tx: &mut Transaction<'_, S>,
    stated: &GlobalZone,
    edits: &[GlobalEdit],
) -> Result<(), Error>
    ensures continues { Continues S.Store tx.old tx.new }
    ensures calls { RunsInside S.Store (edits_calls stated.now edits.now) tx.old.conn.now tx.new.conn.now result }
    ensures ok { OnOk result (ChangesGlobal S.Store tx.old.conn.now tx.new.conn.now (EachFits stated.now edits.now)
        (after_edits stated.now edits.now)) }
{
    let mut waiting = SysmodRows::new(alloc);
    for edit in edits {
        write_edit(alloc, tx, stated, &mut waiting, edit)?;
    }
    insert_sysmods(alloc, tx, &waiting)
}
