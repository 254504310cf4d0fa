//! The table of the `++IF`s of a SYSMOD's further `++VER`s of one SREL.

ghost use Rattle.std.specs.Prelude.{◌≡◌, ◌≢◌, ◌<◌, ◌^◌, [], ◌∷◌, IfOk, IsErrOf};
ghost use Rattle.std.specs.List.{join_with_byte};
ghost use Rattle.store_rows.specs.Rows.{as_bound, in_table, without};
ghost use Rattle.store_schema.specs.Rows.{moreif_row};
ghost use Rattle.store_schema.specs.Tables.{moreif as moreif_table};
ghost use Rattle.store_sysmods.specs.declared.ifreq.IfRow.{IfRow as AIfRow};
ghost use Rattle.store_sysmods.specs.MoreIfs.{delete_moreifs};
ghost use Rattle.store_sysmods.specs.Steps.{RunsCalls};
ghost use Rattle.store_sysmods.specs.Sysmods.{sysmod_key};

use crate::cells::{read_further_number, read_requisites};
use crate::ifreq::IfRow;
use crate::item_rows::{ItemRows, append_all_rows};
use crate::numbers::number_after;
use fields::{Id, Srel};
use sqlite::{Alter, Error, Row, Transaction};
use sqlite_value::row::Row as Cells;
use sqlite_value::value::ValueRef;
use std::alloc::{AllocError, Global};
use store_rows::{FromRow, ReadError, remove, row_of_values};
use store_schema::{Columns, Query, joined_ids, moreif_columns};
use sysmods_values::{IfReq, Ver};

const SELECT: &str = moreif_columns!(select_text "ORDER BY id, srel, v, n");

pub(crate) const INSERT: &str = moreif_columns!(insert_text);

// For sixteen rows, as many as one statement adds.
pub(crate) const INSERT_MANY: &str = moreif_columns!(insert_many_text);

const DELETE: &str = "DELETE FROM moreif WHERE id = ?1";

// ---- as it is read

/// Reads the `++IF`s of further `++VER`s.
pub struct MoreIfs;

impl FromRow for MoreIfs {
    ghost use Rattle.store_sysmods.specs.MoreIfs.{row_of_more_if, HasFurtherIfForms};

    type Item = IfRow;

    ghost row_of = { row_of_more_if };

    ghost has_form = { HasFurtherIfForms };

    fn read(alloc: Global, row: &Row) -> Result<IfRow, ReadError>
        ensures read { IfOk result (λ item. (row.now ≡ row_of_more_if item) × HasFurtherIfForms item) }
        ensures none { IsErrOf result ReadError.BadRow → (item : AIfRow) → HasFurtherIfForms item
            → row.now ≢ row_of_more_if item }
        ensures fault { IsErrOf result ReadError.Fault → ⊥ }
    {
        let mut columns = Columns::new(row);
        let id = columns.id()?;
        let srel = columns.srel()?;
        let place = read_further_number(&mut columns)?;
        let number = columns.number()?;
        let function = columns.id()?;
        let req = read_requisites(alloc, &mut columns, id)?;
        columns.expect_end()?;
        let ifreq = IfReq { function, req };
        Ok(IfRow {
            id,
            srel,
            place,
            number,
            ifreq,
        })
    }
}

impl Query for MoreIfs {
    ghost use Rattle.std.specs.Prelude.{◌≡◌};
    ghost use Rattle.store_schema.specs.declared.schema.Schema.TheVariants.{Third};
    ghost use Rattle.store_schema.specs.Tables.{moreif};

    type Rows = MoreIfs;

    ghost table = { moreif };

    ghost at = { 11 };

    ghost width = { 0 };

    ghost knows = { λ r. r ≡ Third };

    fn select_sql() -> &'static str {
        SELECT
    }
}

// ---- as it is written

// The row of an `++IF` of the `++VER` at the place that `ifs` names, with this text of its requisites.
fn make_further_if_row<'a>(
    ifs: &'a IfsOfFurtherVer,
    number: usize,
    ifreq: &'a IfReq,
    req: &'a [u8],
) -> Result<Cells, AllocError>
    requires number { number < 2 ^ 63 }
    requires req { req.now ≡ join_with_byte 44 ifreq.now.req }
    ensures { IfOk result (λ row. as_bound row ≡ moreif_row ifs.now.id ifs.now.srel ifs.now.place (number, ifreq.now)) }
{
    let id = ValueRef::Text(ifs.id.as_bytes());
    let srel = ValueRef::Text(ifs.srel.as_bytes());
    let place = ValueRef::Int(ifs.place as i64);
    let number = ValueRef::Int(number as i64);
    let function = ValueRef::Text(ifreq.function.as_bytes());
    let req = ValueRef::Text(req);
    row_of_values(ifs.alloc, &[id, srel, place, number, function, req])
}

/// The rows of the `++IF`s of the `++VER` at this place among those for the SREL. Their numbers count from 1.
#[derive(Drop)]
struct IfsOfFurtherVer {
    alloc: Global,
    id: Id,
    srel: Srel,
    place: usize,
    ghost small: { place < 2 ^ 63 },
}

impl ItemRows for IfsOfFurtherVer {
    ghost use Rattle.store_schema.specs.Rows.{moreif_row};
    ghost use Rattle.store_sysmods.specs.Behind.{of_counted};

    type Item = IfReq;

    ghost of_item = { λ of. of_counted (moreif_row of.id of.srel of.place) };

    fn append_rows(
        &self,
        rows: &mut Vec<Cells>,
        front: &[IfReq],
        ifreq: &IfReq,
    ) -> Result<(), AllocError> {
        let req = joined_ids(self.alloc, ifreq.req.as_slice())?;
        rows.push(make_further_if_row(self, front.len() + 1, ifreq, req.as_slice())?)?;
        Ok(())
    }
}

/// The rows of the `++IF`s of the SYSMOD's further `++VER`s.
#[derive(Drop)]
pub(crate) struct FurtherIfs {
    pub alloc: Global,
    pub id: Id,
}

impl ItemRows for FurtherIfs {
    ghost use Rattle.store_sysmods.specs.Behind.{of_numbered};
    ghost use Rattle.store_sysmods.specs.MoreIfs.{further_ifs};

    type Item = Ver;

    ghost of_item = { λ of. of_numbered (further_ifs of.id) };

    fn append_rows(
        &self,
        rows: &mut Vec<Cells>,
        front: &[Ver],
        ver: &Ver,
    ) -> Result<(), AllocError> {
        let place = number_after(front, ver);
        if place == 1 {
            return Ok(());
        }
        let ifs = IfsOfFurtherVer {
            alloc: self.alloc,
            id: self.id,
            srel: ver.srel,
            place,
        };
        append_all_rows(rows, &ifs, ver.ifs.as_slice())
    }
}

/// Removes the rows of the `++IF`s of the SYSMOD's further `++VER`s.
pub(crate) fn remove_rows<S: Alter>(tx: &mut Transaction<'_, S>, id: Id) -> Result<(), Error>
    ensures { RunsCalls S.Store ((delete_moreifs, sysmod_key id) ∷ [])
        (in_table moreif_table (without (sysmod_key id))) tx.old tx.new result }
{
    let key = [ValueRef::Text(id.as_bytes())];
    remove(tx, DELETE, &key)
}
