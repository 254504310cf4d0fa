//! The table of SYSMODs, each without its statements. Under schema 1 its rows have the sources too.

ghost use Rattle.std.specs.Prelude.{◌≡◌, ◌≢◌, ◌≤◌, ◌↔◌, ℕ, List, [], ◌∷◌, length, IsTrue, IfOk, IsErrOf, OnOk};
ghost use Rattle.sqlite.specs.Held.{state};
ghost use Rattle.sqlite.specs.Order.{Row as SqlRow};
ghost use Rattle.sqlite.specs.State.{HasCleanDisk};
ghost use Rattle.store_rows.specs.Calls.{RunsInside};
ghost use Rattle.store_rows.specs.Inside.{Continues};
ghost use Rattle.store_rows.specs.Rows.{Contents, HasContents, HaveNone, as_bound, in_table, without};
ghost use Rattle.store_schema.specs.Forms.{AreSorted};
ghost use Rattle.store_schema.specs.Rows.{joined, sysmod_row};
ghost use Rattle.store_schema.specs.Tables.{sysmod as sysmod_table, store_schema};
ghost use Rattle.terms.specs.Forms.{IsSource};
ghost use Rattle.store_sysmods.specs.declared.head.HeadRow.{HeadRow as AHeadRow};
ghost use Rattle.store_sysmods.specs.declared.head.BareHead.{BareHead as ABareHead};
ghost use Rattle.store_sysmods.specs.Heads.{delete_sysmod, AreShort};
ghost use Rattle.store_sysmods.specs.Sysmods.{sysmod_key, sysmod_children};

use crate::listed::WholeTable;
use fields::spelling::kind_text;
use fields::{Id, Source, SourceList};
use sorted::Keyed;
use sqlite::{Alter, Error, Row, Transaction};
use sqlite_value::row::Row as Cells;
use sqlite_value::value::ValueRef;
use std::alloc::{AllocError, Global};
use store_rows::{FromRow, ReadError, remove_parent, row_of_values};
use store_schema::{Columns, Query, sysmod_columns};
use sysmods_values::Sysmod;
use terms::Kind;

const SELECT: &str = sysmod_columns!(select_text "ORDER BY id");

pub(crate) const INSERT: &str = sysmod_columns!(insert_text);

// For sixteen rows, as many as one statement adds.
pub(crate) const INSERT_MANY: &str = sysmod_columns!(insert_many_text);

const DELETE: &str = "DELETE FROM sysmod WHERE id = ?1";

// How many characters the name of a source has at most under schema 1.
const LONGEST_SOURCE: usize = 8;

// ---- as it is read

/// A SYSMOD without its statements.
#[derive(Drop)]
pub struct HeadRow {
    pub id: Id,
    pub kind: Kind,
    pub sources: SourceList,
}

impl Keyed for HeadRow {
    type Key = Id;

    ghost key_of = { λ head. head.id };

    fn key(&self) -> Id {
        self.id
    }
}

// Whether the name of a source is one that schema 1 allows.
fn is_short(name: Source) -> bool
    ensures { IsTrue result ↔ (length name ≤ 8) }
{
    name.as_bytes().len() <= LONGEST_SOURCE
}

// Whether each name of a source is one that schema 1 allows.
fn are_short(names: &[Source]) -> bool
    ensures { IsTrue result ↔ AreShort names.now }
{
    names.iter().all(|name| is_short(*name))
}

// The sources in the next column, as schema 1 has them. Returns `BadRow` if a name is longer than this
// schema allows.
fn read_short_sources(alloc: Global, columns: &mut Columns<'_>) -> Result<SourceList, ReadError>
    ensures read { IfOk result (λ names. (columns.old ≡ joined names ∷ columns.new) × AreSorted IsSource names
        × AreShort names) }
    ensures none { IsErrOf result ReadError.BadRow → (names : List (List ℕ)) (rest : SqlRow)
        → AreSorted IsSource names → AreShort names → columns.old ≢ joined names ∷ rest }
    ensures fault { IsErrOf result ReadError.Fault → ⊥ }
{
    let names = columns.sources(alloc)?;
    if !are_short(names.as_slice()) {
        return Err(ReadError::BadRow);
    }
    Ok(names)
}

/// Reads SYSMODs with their sources, as schema 1 has them.
pub struct Heads;

impl FromRow for Heads {
    ghost use Rattle.store_sysmods.specs.Heads.{row_of_head, HasShortForms};

    type Item = HeadRow;

    ghost row_of = { row_of_head };

    ghost has_form = { HasShortForms };

    fn read(alloc: Global, row: &Row) -> Result<HeadRow, ReadError>
        ensures read { IfOk result (λ item. (row.now ≡ row_of_head item) × HasShortForms item) }
        ensures none { IsErrOf result ReadError.BadRow → (item : AHeadRow) → HasShortForms item
            → row.now ≢ row_of_head item }
        ensures fault { IsErrOf result ReadError.Fault → ⊥ }
    {
        let mut columns = Columns::new(row);
        let id = columns.id()?;
        let kind = columns.kind()?;
        let sources = read_short_sources(alloc, &mut columns)?;
        columns.expect_end()?;
        Ok(HeadRow { id, kind, sources })
    }
}

impl Query for Heads {
    ghost use Rattle.std.specs.Prelude.{⊤};
    ghost use Rattle.store_schema.specs.Tables.{sysmod};

    type Rows = Heads;

    ghost table = { sysmod };

    ghost at = { 1 };

    ghost width = { 0 };

    ghost knows = { λ r. ⊤ };

    fn select_sql() -> &'static str {
        SELECT
    }
}

impl WholeTable for Heads {
    ghost use Rattle.std.specs.Prelude.{refl};

    type Key = Id;

    ghost key_of = { λ row. row.id };

    fn key(item: &HeadRow) -> Id {
        item.id
    }

    ghost whole = { refl };
}

/// A SYSMOD without its statements and its sources.
#[derive(Drop)]
pub struct BareHead {
    pub id: Id,
    pub kind: Kind,
}

/// Reads SYSMODs without their sources.
pub struct BareHeads;

impl FromRow for BareHeads {
    ghost use Rattle.store_sysmods.specs.Heads.{row_of_bare, HasBareForms};

    type Item = BareHead;

    ghost row_of = { row_of_bare };

    ghost has_form = { HasBareForms };

    fn read(_alloc: Global, row: &Row) -> Result<BareHead, ReadError>
        ensures read { IfOk result (λ item. (row.now ≡ row_of_bare item) × HasBareForms item) }
        ensures none { IsErrOf result ReadError.BadRow → (item : ABareHead) → HasBareForms item
            → row.now ≢ row_of_bare item }
        ensures fault { IsErrOf result ReadError.Fault → ⊥ }
    {
        let mut columns = Columns::new(row);
        let id = columns.id()?;
        let kind = columns.kind()?;
        if !columns.text()?.is_empty() {
            return Err(ReadError::BadRow);
        }
        columns.expect_end()?;
        Ok(BareHead { id, kind })
    }
}

impl Query for BareHeads {
    ghost use Rattle.std.specs.Prelude.{⊤};
    ghost use Rattle.store_schema.specs.Tables.{sysmod};

    type Rows = BareHeads;

    ghost table = { sysmod };

    ghost at = { 1 };

    ghost width = { 0 };

    ghost knows = { λ r. ⊤ };

    fn select_sql() -> &'static str {
        SELECT
    }
}

impl WholeTable for BareHeads {
    ghost use Rattle.std.specs.Prelude.{refl};

    type Key = Id;

    ghost key_of = { λ row. row.id };

    fn key(item: &BareHead) -> Id {
        item.id
    }

    ghost whole = { refl };
}

// ---- as it is written

/// The SYSMOD's row in this table. Its column of sources stays empty: they have a table of their own.
pub(crate) fn make_head_row(alloc: Global, sysmod: &Sysmod) -> Result<Cells, AllocError>
    ensures { IfOk result (λ row. as_bound row ≡ sysmod_row sysmod.now) }
{
    let id = ValueRef::Text(sysmod.id.as_bytes());
    let kind = ValueRef::Text(kind_text(sysmod.kind));
    let sources = ValueRef::Text(b"");
    row_of_values(alloc, &[id, kind, sources])
}

/// Removes the SYSMOD's row from this table. The tables that refer to it must have no row of the SYSMOD left.
pub(crate) fn remove_row<S: Alter>(tx: &mut Transaction<'_, S>, id: Id) -> Result<(), Error>
    ensures continues { Continues S.Store tx.old tx.new }
    ensures calls { RunsInside S.Store ((delete_sysmod, sysmod_key id) ∷ []) tx.old.conn.now tx.new.conn.now result }
    ensures ok { OnOk result (HasCleanDisk (state S.Store tx.new.conn.now) → (contents : Contents)
        → HaveNone sysmod_children (sysmod_key id) contents
        → HasContents store_schema contents (state S.Store tx.old.conn.now).now
        → HasContents store_schema (in_table sysmod_table (without (sysmod_key id)) contents)
        (state S.Store tx.new.conn.now).now) }
{
    let key = [ValueRef::Text(id.as_bytes())];
    remove_parent(tx, DELETE, &key)
}
