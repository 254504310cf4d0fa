//! The table of the `++IF`s of the `++VER`s that are the first of their SREL.

ghost use Rattle.std.specs.Prelude.{◌≡◌, ◌≢◌, ◌<◌, ◌^◌, [], ◌∷◌, IfOk, IsErrOf};
ghost use Rattle.std.specs.List.{join_with_byte};
ghost use Rattle.store_rows.specs.Rows.{as_bound, in_table, without};
ghost use Rattle.store_schema.specs.Rows.{ifreq_row};
ghost use Rattle.store_schema.specs.Tables.{ifreq as ifreq_table};
ghost use Rattle.store_sysmods.specs.declared.ifreq.IfRow.{IfRow as AIfRow};
ghost use Rattle.store_sysmods.specs.Ifs.{delete_ifreqs};
ghost use Rattle.store_sysmods.specs.Steps.{RunsCalls};
ghost use Rattle.store_sysmods.specs.Sysmods.{sysmod_key};

use crate::cells::read_requisites;
use crate::item_rows::{ItemRows, append_all_rows};
use crate::listed::WholeTable;
use crate::numbers::number_after;
use fields::{Id, Srel};
use sqlite::{Alter, Error, Row, Transaction};
use sqlite_value::row::Row as Cells;
use sqlite_value::value::ValueRef;
use std::alloc::{AllocError, Global};
use store_rows::{FromRow, ReadError, remove, row_of_values};
use store_schema::{Columns, Query, ifreq_columns, joined_ids};
use sysmods_values::{IfReq, Ver};

const SELECT: &str = ifreq_columns!(select_text "ORDER BY id, srel, n");

pub(crate) const INSERT: &str = ifreq_columns!(insert_text);

// For sixteen rows, as many as one statement adds.
pub(crate) const INSERT_MANY: &str = ifreq_columns!(insert_many_text);

const DELETE: &str = "DELETE FROM ifreq WHERE id = ?1";

// ---- as it is read

/// An `++IF` and its number in a `++VER` of the SYSMOD, the one at this place among those for this SREL.
#[derive(Drop)]
pub struct IfRow {
    pub id: Id,
    pub srel: Srel,
    pub place: u64,
    pub number: u64,
    pub ifreq: IfReq,
}

/// Reads the `++IF`s of first `++VER`s.
pub struct Ifs;

impl FromRow for Ifs {
    ghost use Rattle.store_sysmods.specs.Ifs.{row_of_if, HasFirstIfForms};

    type Item = IfRow;

    ghost row_of = { row_of_if };

    ghost has_form = { HasFirstIfForms };

    fn read(alloc: Global, row: &Row) -> Result<IfRow, ReadError>
        ensures read { IfOk result (λ item. (row.now ≡ row_of_if item) × HasFirstIfForms item) }
        ensures none { IsErrOf result ReadError.BadRow → (item : AIfRow) → HasFirstIfForms item
            → row.now ≢ row_of_if item }
        ensures fault { IsErrOf result ReadError.Fault → ⊥ }
    {
        let mut columns = Columns::new(row);
        let id = columns.id()?;
        let srel = columns.srel()?;
        let number = columns.number()?;
        let function = columns.id()?;
        let req = read_requisites(alloc, &mut columns, id)?;
        columns.expect_end()?;
        let ifreq = IfReq { function, req };
        Ok(IfRow {
            id,
            srel,
            place: 1,
            number,
            ifreq,
        })
    }
}

impl Query for Ifs {
    ghost use Rattle.std.specs.Prelude.{⊤};
    ghost use Rattle.store_schema.specs.Tables.{ifreq};

    type Rows = Ifs;

    ghost table = { ifreq };

    ghost at = { 3 };

    ghost width = { 0 };

    ghost knows = { λ r. ⊤ };

    fn select_sql() -> &'static str {
        SELECT
    }
}

impl WholeTable for Ifs {
    ghost use Rattle.std.specs.Prelude.{refl};

    type Key = (Id, (Srel, (u64, u64)));

    ghost key_of = { λ row. (row.id, (row.srel, (row.place, row.number))) };

    fn key(item: &IfRow) -> (Id, (Srel, (u64, u64))) {
        (item.id, (item.srel, (item.place, item.number)))
    }

    ghost whole = { refl };
}

// ---- as it is written

// The row of an `++IF` of the `++VER` that `ifs` names, with this text of its requisites.
fn make_if_row<'a>(
    ifs: &'a IfsOfFirstVer,
    number: usize,
    ifreq: &'a IfReq,
    req: &'a [u8],
) -> Result<Cells, AllocError>
    requires number { number < 2 ^ 63 }
    requires req { req.now ≡ join_with_byte 44 ifreq.now.req }
    ensures { IfOk result (λ row. as_bound row ≡ ifreq_row ifs.now.id ifs.now.srel (number, ifreq.now)) }
{
    let id = ValueRef::Text(ifs.id.as_bytes());
    let srel = ValueRef::Text(ifs.srel.as_bytes());
    let number = ValueRef::Int(number as i64);
    let function = ValueRef::Text(ifreq.function.as_bytes());
    let req = ValueRef::Text(req);
    row_of_values(ifs.alloc, &[id, srel, number, function, req])
}

/// The rows of the `++IF`s of the first `++VER` for the SREL. Their numbers count from 1.
#[derive(Drop)]
struct IfsOfFirstVer {
    alloc: Global,
    id: Id,
    srel: Srel,
}

impl ItemRows for IfsOfFirstVer {
    ghost use Rattle.store_schema.specs.Rows.{ifreq_row};
    ghost use Rattle.store_sysmods.specs.Behind.{of_counted};

    type Item = IfReq;

    ghost of_item = { λ of. of_counted (ifreq_row of.id of.srel) };

    fn append_rows(
        &self,
        rows: &mut Vec<Cells>,
        front: &[IfReq],
        ifreq: &IfReq,
    ) -> Result<(), AllocError> {
        let req = joined_ids(self.alloc, ifreq.req.as_slice())?;
        rows.push(make_if_row(self, front.len() + 1, ifreq, req.as_slice())?)?;
        Ok(())
    }
}

/// The rows of the `++IF`s of the SYSMOD's first `++VER`s.
#[derive(Drop)]
pub(crate) struct FirstIfs {
    pub alloc: Global,
    pub id: Id,
}

impl ItemRows for FirstIfs {
    ghost use Rattle.store_sysmods.specs.Behind.{of_numbered};
    ghost use Rattle.store_sysmods.specs.Ifs.{first_ifs};

    type Item = Ver;

    ghost of_item = { λ of. of_numbered (first_ifs of.id) };

    fn append_rows(
        &self,
        rows: &mut Vec<Cells>,
        front: &[Ver],
        ver: &Ver,
    ) -> Result<(), AllocError> {
        if number_after(front, ver) != 1 {
            return Ok(());
        }
        let ifs = IfsOfFirstVer {
            alloc: self.alloc,
            id: self.id,
            srel: ver.srel,
        };
        append_all_rows(rows, &ifs, ver.ifs.as_slice())
    }
}

/// Removes the rows of the `++IF`s of the SYSMOD's first `++VER`s.
pub(crate) fn remove_rows<S: Alter>(tx: &mut Transaction<'_, S>, id: Id) -> Result<(), Error>
    ensures { RunsCalls S.Store ((delete_ifreqs, sysmod_key id) ∷ [])
        (in_table ifreq_table (without (sysmod_key id))) tx.old tx.new result }
{
    let key = [ValueRef::Text(id.as_bytes())];
    remove(tx, DELETE, &key)
}
