//! The table of a SYSMOD's further `++VER`s of one SREL. They have neither NPRE nor DELETE.

ghost use Rattle.std.specs.Prelude.{◌≡◌, ◌≢◌, ◌<◌, ◌^◌, [], ◌∷◌, IfOk, IsErrOf};
ghost use Rattle.store_rows.specs.Rows.{as_bound, in_table, without};
ghost use Rattle.store_schema.specs.Rows.{morever_row};
ghost use Rattle.store_schema.specs.Tables.{morever as morever_table};
ghost use Rattle.store_sysmods.specs.declared.ver.VerRow.{VerRow as AVerRow};
ghost use Rattle.store_sysmods.specs.MoreVers.{delete_morevers};
ghost use Rattle.store_sysmods.specs.Steps.{RunsCalls};
ghost use Rattle.store_sysmods.specs.Sysmods.{sysmod_key};
ghost use Rattle.store_sysmods.specs.Vers.{AreVerTexts};

use crate::cells::{read_further_number, read_other_id, read_other_ids};
use crate::item_rows::ItemRows;
use crate::numbers::number_after;
use crate::ver::{VerRow, VerTexts, join_ver_lists};
use fields::{Id, IdList};
use sqlite::{Alter, Error, Row, Transaction};
use sqlite_value::row::Row as Cells;
use sqlite_value::value::ValueRef;
use std::alloc::{AllocError, Global};
use store_rows::{FromRow, ReadError, remove, row_of_values};
use store_schema::{Columns, Query, morever_columns, text_or_null};
use sysmods_values::Ver;

const SELECT: &str = morever_columns!(select_text "ORDER BY id, srel, n");

pub(crate) const INSERT: &str = morever_columns!(insert_text);

// For sixteen rows, as many as one statement adds.
pub(crate) const INSERT_MANY: &str = morever_columns!(insert_many_text);

const DELETE: &str = "DELETE FROM morever WHERE id = ?1";

// ---- as it is read

/// Reads further `++VER`s for one SREL, which have neither NPRE nor DELETE.
pub struct MoreVers;

impl FromRow for MoreVers {
    ghost use Rattle.store_sysmods.specs.MoreVers.{row_of_more_ver, HasFurtherForms};

    type Item = VerRow;

    ghost row_of = { row_of_more_ver };

    ghost has_form = { HasFurtherForms };

    fn read(alloc: Global, row: &Row) -> Result<VerRow, ReadError>
        ensures read { IfOk result (λ item. (row.now ≡ row_of_more_ver item) × HasFurtherForms item) }
        ensures none { IsErrOf result ReadError.BadRow → (item : AVerRow) → HasFurtherForms item
            → row.now ≢ row_of_more_ver item }
        ensures fault { IsErrOf result ReadError.Fault → ⊥ }
    {
        let mut columns = Columns::new(row);
        let id = columns.id()?;
        let srel = columns.srel()?;
        let number = read_further_number(&mut columns)?;
        let fmid = read_other_id(&mut columns, id)?;
        let pre = read_other_ids(alloc, &mut columns, id)?;
        let req = read_other_ids(alloc, &mut columns, id)?;
        let sup = read_other_ids(alloc, &mut columns, id)?;
        columns.expect_end()?;
        let npre = IdList::new(alloc);
        let del = IdList::new(alloc);
        let ifs = Vec::new(alloc);
        let ver = Ver {
            srel,
            fmid,
            pre,
            req,
            sup,
            npre,
            del,
            ifs,
        };
        Ok(VerRow { id, number, ver })
    }
}

impl Query for MoreVers {
    ghost use Rattle.std.specs.Prelude.{◌≡◌};
    ghost use Rattle.store_schema.specs.declared.schema.Schema.TheVariants.{Third};
    ghost use Rattle.store_schema.specs.Tables.{morever};

    type Rows = MoreVers;

    ghost table = { morever };

    ghost at = { 10 };

    ghost width = { 0 };

    ghost knows = { λ r. r ≡ Third };

    fn select_sql() -> &'static str {
        SELECT
    }
}

// ---- as it is written

// The row of the `++VER` of this number, with these texts of its lists. It has no NPRE and no DELETE.
fn make_further_ver_row<'a>(
    alloc: Global,
    id: &'a Id,
    number: usize,
    ver: &'a Ver,
    lists: &'a VerTexts,
) -> Result<Cells, AllocError>
    requires number { number < 2 ^ 63 }
    requires lists { AreVerTexts lists.now ver.now }
    ensures { IfOk result (λ row. as_bound row ≡ morever_row id.now (number, ver.now)) }
{
    let id = ValueRef::Text(id.as_bytes());
    let srel = ValueRef::Text(ver.srel.as_bytes());
    let number = ValueRef::Int(number as i64);
    let fmid = text_or_null(&ver.fmid);
    let pre = ValueRef::Text(lists.pre.as_slice());
    let req = ValueRef::Text(lists.req.as_slice());
    let sup = ValueRef::Text(lists.sup.as_slice());
    row_of_values(alloc, &[id, srel, number, fmid, pre, req, sup])
}

/// The rows of the SYSMOD's further `++VER`s, without those of their `++IF`s.
#[derive(Drop)]
pub(crate) struct FurtherVers {
    pub alloc: Global,
    pub id: Id,
}

impl ItemRows for FurtherVers {
    ghost use Rattle.store_sysmods.specs.Behind.{of_numbered};
    ghost use Rattle.store_sysmods.specs.MoreVers.{further_row};

    type Item = Ver;

    ghost of_item = { λ of. of_numbered (further_row of.id) };

    fn append_rows(
        &self,
        rows: &mut Vec<Cells>,
        front: &[Ver],
        ver: &Ver,
    ) -> Result<(), AllocError> {
        let number = number_after(front, ver);
        if number == 1 {
            return Ok(());
        }
        let lists = join_ver_lists(self.alloc, ver)?;
        rows.push(make_further_ver_row(self.alloc, &self.id, number, ver, &lists)?)?;
        Ok(())
    }
}

/// Removes the rows of the SYSMOD's further `++VER`s.
pub(crate) fn remove_rows<S: Alter>(tx: &mut Transaction<'_, S>, id: Id) -> Result<(), Error>
    ensures { RunsCalls S.Store ((delete_morevers, sysmod_key id) ∷ [])
        (in_table morever_table (without (sysmod_key id))) tx.old tx.new result }
{
    let key = [ValueRef::Text(id.as_bytes())];
    remove(tx, DELETE, &key)
}
