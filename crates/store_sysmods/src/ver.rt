//! The table of `++VER`s: here a SYSMOD has one for each SREL, the first.

ghost use Rattle.std.specs.Prelude.{◌≡◌, ◌≢◌, [], ◌∷◌, IfOk, IsErrOf};
ghost use Rattle.store_rows.specs.Rows.{as_bound, in_table, without};
ghost use Rattle.store_schema.specs.Rows.{ver_row};
ghost use Rattle.store_schema.specs.Tables.{ver as ver_table};
ghost use Rattle.store_sysmods.specs.declared.ver.VerRow.{VerRow as AVerRow};
ghost use Rattle.store_sysmods.specs.Steps.{RunsCalls};
ghost use Rattle.store_sysmods.specs.Sysmods.{sysmod_key};
ghost use Rattle.store_sysmods.specs.Vers.{delete_vers, AreVerTexts};

use crate::cells::{read_other_id, read_other_ids};
use crate::item_rows::ItemRows;
use crate::listed::WholeTable;
use crate::numbers::number_after;
use fields::{Id, Srel};
use sqlite::{Alter, Error, Row, Transaction};
use sqlite_value::row::Row as Cells;
use sqlite_value::value::ValueRef;
use std::alloc::{AllocError, Global};
use store_rows::{FromRow, ReadError, remove, row_of_values};
use store_schema::{Columns, Query, joined_ids, text_or_null, ver_columns};
use sysmods_values::Ver;

const SELECT: &str = ver_columns!(select_text "ORDER BY id, srel");

pub(crate) const INSERT: &str = ver_columns!(insert_text);

// For sixteen rows, as many as one statement adds.
pub(crate) const INSERT_MANY: &str = ver_columns!(insert_many_text);

const DELETE: &str = "DELETE FROM ver WHERE id = ?1";

// ---- as it is read

/// A `++VER` of the SYSMOD without its `++IF`s, and its number among those for its SREL.
#[derive(Drop)]
pub struct VerRow {
    pub id: Id,
    pub number: u64,
    pub ver: Ver,
}

/// Reads the first `++VER`s.
pub struct Vers;

impl FromRow for Vers {
    ghost use Rattle.store_sysmods.specs.Vers.{row_of_ver, HasFirstForms};

    type Item = VerRow;

    ghost row_of = { row_of_ver };

    ghost has_form = { HasFirstForms };

    fn read(alloc: Global, row: &Row) -> Result<VerRow, ReadError>
        ensures read { IfOk result (λ item. (row.now ≡ row_of_ver item) × HasFirstForms item) }
        ensures none { IsErrOf result ReadError.BadRow → (item : AVerRow) → HasFirstForms item
            → row.now ≢ row_of_ver item }
        ensures fault { IsErrOf result ReadError.Fault → ⊥ }
    {
        let mut columns = Columns::new(row);
        let id = columns.id()?;
        let srel = columns.srel()?;
        let fmid = read_other_id(&mut columns, id)?;
        let pre = read_other_ids(alloc, &mut columns, id)?;
        let req = read_other_ids(alloc, &mut columns, id)?;
        let sup = read_other_ids(alloc, &mut columns, id)?;
        let npre = read_other_ids(alloc, &mut columns, id)?;
        let del = read_other_ids(alloc, &mut columns, id)?;
        columns.expect_end()?;
        let ifs = Vec::new(alloc);
        let ver = Ver {
            srel,
            fmid,
            pre,
            req,
            sup,
            npre,
            del,
            ifs,
        };
        Ok(VerRow { id, number: 1, ver })
    }
}

impl Query for Vers {
    ghost use Rattle.std.specs.Prelude.{⊤};
    ghost use Rattle.store_schema.specs.Tables.{ver};

    type Rows = Vers;

    ghost table = { ver };

    ghost at = { 2 };

    ghost width = { 0 };

    ghost knows = { λ r. ⊤ };

    fn select_sql() -> &'static str {
        SELECT
    }
}

impl WholeTable for Vers {
    ghost use Rattle.std.specs.Prelude.{refl};

    type Key = (Id, (Srel, u64));

    ghost key_of = { λ row. (row.id, (row.ver.srel, row.number)) };

    fn key(item: &VerRow) -> (Id, (Srel, u64)) {
        (item.id, (item.ver.srel, item.number))
    }

    ghost whole = { refl };
}

// ---- as it is written

/// The ids of each list of a `++VER`, joined by commas.
#[derive(Drop)]
pub(crate) struct VerTexts {
    pub pre: Vec<u8>,
    pub req: Vec<u8>,
    pub sup: Vec<u8>,
    pub npre: Vec<u8>,
    pub del: Vec<u8>,
}

/// The texts of the lists of this `++VER`.
pub(crate) fn join_ver_lists(alloc: Global, ver: &Ver) -> Result<VerTexts, AllocError>
    ensures { IfOk result (λ lists. AreVerTexts lists ver.now) }
{
    Ok(VerTexts {
        pre: joined_ids(alloc, ver.pre.as_slice())?,
        req: joined_ids(alloc, ver.req.as_slice())?,
        sup: joined_ids(alloc, ver.sup.as_slice())?,
        npre: joined_ids(alloc, ver.npre.as_slice())?,
        del: joined_ids(alloc, ver.del.as_slice())?,
    })
}

// The `++VER`'s row, with these texts of its lists.
fn make_ver_row(alloc: Global, id: &Id, ver: &Ver, lists: &VerTexts) -> Result<Cells, AllocError>
    requires { AreVerTexts lists.now ver.now }
    ensures { IfOk result (λ row. as_bound row ≡ ver_row id.now ver.now) }
{
    let id = ValueRef::Text(id.as_bytes());
    let srel = ValueRef::Text(ver.srel.as_bytes());
    let fmid = text_or_null(&ver.fmid);
    let pre = ValueRef::Text(lists.pre.as_slice());
    let req = ValueRef::Text(lists.req.as_slice());
    let sup = ValueRef::Text(lists.sup.as_slice());
    let npre = ValueRef::Text(lists.npre.as_slice());
    let del = ValueRef::Text(lists.del.as_slice());
    row_of_values(alloc, &[id, srel, fmid, pre, req, sup, npre, del])
}

/// The rows of the SYSMOD's first `++VER`s, without those of their `++IF`s.
#[derive(Drop)]
pub(crate) struct FirstVers {
    pub alloc: Global,
    pub id: Id,
}

impl ItemRows for FirstVers {
    ghost use Rattle.store_sysmods.specs.Behind.{of_numbered};
    ghost use Rattle.store_sysmods.specs.Vers.{first_row};

    type Item = Ver;

    ghost of_item = { λ of. of_numbered (first_row of.id) };

    fn append_rows(
        &self,
        rows: &mut Vec<Cells>,
        front: &[Ver],
        ver: &Ver,
    ) -> Result<(), AllocError> {
        if number_after(front, ver) != 1 {
            return Ok(());
        }
        let lists = join_ver_lists(self.alloc, ver)?;
        rows.push(make_ver_row(self.alloc, &self.id, ver, &lists)?)?;
        Ok(())
    }
}

/// Removes the rows of the SYSMOD's first `++VER`s.
pub(crate) fn remove_rows<S: Alter>(tx: &mut Transaction<'_, S>, id: Id) -> Result<(), Error>
    ensures { RunsCalls S.Store ((delete_vers, sysmod_key id) ∷ [])
        (in_table ver_table (without (sysmod_key id))) tx.old tx.new result }
{
    let key = [ValueRef::Text(id.as_bytes())];
    remove(tx, DELETE, &key)
}
