//! SYSMODs, whose rows are in a table of their own and in those that refer to it.

ghost use Rattle.std.specs.Prelude.{◌≡◌, List, [], ◌∷◌, ◌++◌, length, OnOk};
ghost use Rattle.terms.specs.Types.{Sysmod as ASysmod};
ghost use Rattle.store_rows.specs.Calls.{RunsInside};
ghost use Rattle.store_rows.specs.Inside.{Continues, Turns};
ghost use Rattle.store_rows.specs.Rows.{HasContents};
ghost use Rattle.store_schema.specs.Tables.{store_schema};
ghost use Rattle.store_sysmods.specs.Calls.{insert_sysmods_calls, remove_sysmod_calls, replace_sources_calls};
ghost use Rattle.store_sysmods.specs.Sysmods.{AddsSysmods, AreWaitingRows, ReplacesSources, RemovesSysmod, sourced};
ghost use Rattle.store_sysmods.specs.Sysmods.{with_source_rows, with_sysmods_rows, without_sysmod_rows};

use crate::elem::ElemsOf;
use crate::ifreq::FirstIfs;
use crate::item_rows::append_all_rows;
use crate::moreif::FurtherIfs;
use crate::morever::FurtherVers;
use crate::source::SourcesOf;
use crate::ver::FirstVers;
use crate::{elem, head, ifreq, moreif, morever, source, ver};
use fields::{Id, Source};
use sqlite::{Alter, Error, Transaction};
use sqlite_value::row::Row as Cells;
use std::alloc::{AllocError, Global};
use store_rows::insert_rows;
use sysmods_values::Sysmod;

/// The rows of SYSMODs that wait to be written, table after table, so that one statement puts those of several SYSMODs.
#[derive(Drop)]
pub struct SysmodRows {
    sysmods: Vec<Cells>,
    sources: Vec<Cells>,
    vers: Vec<Cells>,
    ifreqs: Vec<Cells>,
    elems: Vec<Cells>,
    morevers: Vec<Cells>,
    moreifs: Vec<Cells>,
}

impl SysmodRows {
    /// No rows.
    pub fn new(alloc: Global) -> SysmodRows
        ensures { AreWaitingRows result [] }
    {
        SysmodRows {
            sysmods: Vec::new(alloc),
            sources: Vec::new(alloc),
            vers: Vec::new(alloc),
            ifreqs: Vec::new(alloc),
            elems: Vec::new(alloc),
            morevers: Vec::new(alloc),
            moreifs: Vec::new(alloc),
        }
    }

    /// How many SYSMODs have rows that wait here.
    pub fn len(&self) -> usize
        ensures { (ss : List ASysmod) → AreWaitingRows self.now ss → result ≡ length ss }
    {
        self.sysmods.len()
    }

    /// Adds the rows of the SYSMOD, with these sources instead of its own, of its `++VER`s with their `++IF`s, and of
    /// its element statements. Its holds have a table of their own.
    pub fn push(
        &mut self,
        alloc: Global,
        sysmod: &Sysmod,
        sources: &[Source],
    ) -> Result<(), AllocError>
        ensures { OnOk result ((ss : List ASysmod) → AreWaitingRows self.old ss
            → AreWaitingRows self.new (ss ++ sourced sysmod.now sources.now ∷ [])) }
    {
        let id = sysmod.id;
        let vers = sysmod.vers.as_slice();
        self.sysmods.push(head::make_head_row(alloc, sysmod)?)?;
        append_all_rows(&mut self.sources, &SourcesOf { alloc, id }, sources)?;
        append_all_rows(&mut self.vers, &FirstVers { alloc, id }, vers)?;
        append_all_rows(&mut self.ifreqs, &FirstIfs { alloc, id }, vers)?;
        append_all_rows(
            &mut self.elems,
            &ElemsOf { alloc, id },
            sysmod.changes.as_slice(),
        )?;
        append_all_rows(&mut self.morevers, &FurtherVers { alloc, id }, vers)?;
        append_all_rows(&mut self.moreifs, &FurtherIfs { alloc, id }, vers)
    }
}

/// Adds the rows of SYSMODs that are not received. Returns an error if the disk fails, if memory runs out, or if the
/// database refuses a row: one of a SYSMOD whose id is received, or one of two with the same key.
pub fn insert_sysmods<S: Alter>(
    alloc: Global,
    tx: &mut Transaction<'_, S>,
    rows: &SysmodRows,
) -> Result<(), Error>
    ensures continues { Continues S.Store tx.old tx.new }
    ensures calls { (ss : List ASysmod) → AreWaitingRows rows.now ss
        → RunsInside S.Store (insert_sysmods_calls ss) tx.old.conn.now tx.new.conn.now result }
    ensures ok { OnOk result ((ss : List ASysmod) → AreWaitingRows rows.now ss
        → Turns S.Store tx.old.conn.now tx.new.conn.now (HasContents store_schema) (with_sysmods_rows ss)) }
    ensures stands { OnOk result ((ss : List ASysmod) → AreWaitingRows rows.now ss
        → AddsSysmods S.Store tx.old.conn.now tx.new.conn.now ss) }
{
    let sysmods = rows.sysmods.as_slice();
    let sources = rows.sources.as_slice();
    let vers = rows.vers.as_slice();
    let ifreqs = rows.ifreqs.as_slice();
    let elems = rows.elems.as_slice();
    let morevers = rows.morevers.as_slice();
    let moreifs = rows.moreifs.as_slice();
    insert_rows(alloc, tx, head::INSERT_MANY, head::INSERT, sysmods)?;
    insert_rows(alloc, tx, source::INSERT_MANY, source::INSERT, sources)?;
    insert_rows(alloc, tx, ver::INSERT_MANY, ver::INSERT, vers)?;
    insert_rows(alloc, tx, ifreq::INSERT_MANY, ifreq::INSERT, ifreqs)?;
    insert_rows(alloc, tx, elem::INSERT_MANY, elem::INSERT, elems)?;
    insert_rows(alloc, tx, morever::INSERT_MANY, morever::INSERT, morevers)?;
    insert_rows(alloc, tx, moreif::INSERT_MANY, moreif::INSERT, moreifs)
}

/// Puts the rows of the SYSMOD's sources in place of those that exist. If the SYSMOD is not received and has a source,
/// the database refuses the first one; of two equal sources it refuses the second. Any other error means that the disk
/// failed or that memory ran out.
pub fn replace_sources<S: Alter>(
    alloc: Global,
    tx: &mut Transaction<'_, S>,
    sysmod: &Sysmod,
) -> Result<(), Error>
    ensures continues { Continues S.Store tx.old tx.new }
    ensures calls { RunsInside S.Store (replace_sources_calls sysmod.now) tx.old.conn.now tx.new.conn.now result }
    ensures ok { OnOk result (Turns S.Store tx.old.conn.now tx.new.conn.now (HasContents store_schema)
        (with_source_rows sysmod.now)) }
    ensures stands { OnOk result (ReplacesSources S.Store tx.old.conn.now tx.new.conn.now sysmod.now) }
{
    let id = sysmod.id;
    let mut rows = Vec::new(alloc);
    append_all_rows(
        &mut rows,
        &SourcesOf { alloc, id },
        sysmod.sources.as_slice(),
    )?;
    source::remove_rows(tx, id)?;
    insert_rows(
        alloc,
        tx,
        source::INSERT_MANY,
        source::INSERT,
        rows.as_slice(),
    )
}

/// Removes the SYSMOD of the id, if there is one, with all its rows. The holds on it stay. Returns an error if the disk
/// fails or memory runs out.
pub fn remove_sysmod<S: Alter>(tx: &mut Transaction<'_, S>, id: Id) -> Result<(), Error>
    ensures continues { Continues S.Store tx.old tx.new }
    ensures calls { RunsInside S.Store (remove_sysmod_calls id) tx.old.conn.now tx.new.conn.now result }
    ensures ok { OnOk result (Turns S.Store tx.old.conn.now tx.new.conn.now (HasContents store_schema)
        (without_sysmod_rows id)) }
    ensures stands { OnOk result (RemovesSysmod S.Store tx.old.conn.now tx.new.conn.now id) }
{
    ver::remove_rows(tx, id)?;
    ifreq::remove_rows(tx, id)?;
    elem::remove_rows(tx, id)?;
    source::remove_rows(tx, id)?;
    morever::remove_rows(tx, id)?;
    moreif::remove_rows(tx, id)?;
    head::remove_row(tx, id)
}
