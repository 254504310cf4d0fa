//! The table of sources.

ghost use Rattle.std.specs.Prelude.{◌≡◌, ◌≢◌, [], ◌∷◌, IfOk, IsErrOf};
ghost use Rattle.store_rows.specs.Rows.{as_bound, in_table, with_row, without};
ghost use Rattle.store_schema.specs.Rows.{source_row};
ghost use Rattle.store_schema.specs.Tables.{source as source_table};
ghost use Rattle.store_sysmods.specs.declared.source.SourceRow.{SourceRow as ASourceRow};
ghost use Rattle.store_sysmods.specs.Sources.{insert_source as into_source, delete_sources};
ghost use Rattle.store_sysmods.specs.Steps.{RunsCalls};
ghost use Rattle.store_sysmods.specs.Sysmods.{sysmod_key};

use crate::item_rows::ItemRows;
use crate::listed::WholeTable;
use fields::{Id, Source};
use sqlite::{Alter, Error, Row, Transaction};
use sqlite_value::row::Row as Cells;
use sqlite_value::value::ValueRef;
use std::alloc::{AllocError, Global};
use store_rows::{FromRow, ReadError, insert, remove, row_of_values};
use store_schema::{Columns, Query, source_columns};

const SELECT: &str = source_columns!(select_text "ORDER BY id, name");

pub(crate) const INSERT: &str = source_columns!(insert_text);

// For sixteen rows, as many as one statement adds.
pub(crate) const INSERT_MANY: &str = source_columns!(insert_many_text);

const DELETE: &str = "DELETE FROM source WHERE id = ?1";

// ---- as it is read

/// A source of the SYSMOD.
#[derive(Drop)]
pub struct SourceRow {
    pub id: Id,
    pub name: Source,
}

/// Reads sources.
pub struct Sources;

impl FromRow for Sources {
    ghost use Rattle.store_sysmods.specs.Sources.{row_of_source, HasSourceForms};

    type Item = SourceRow;

    ghost row_of = { row_of_source };

    ghost has_form = { HasSourceForms };

    fn read(_alloc: Global, row: &Row) -> Result<SourceRow, ReadError>
        ensures read { IfOk result (λ item. (row.now ≡ row_of_source item) × HasSourceForms item) }
        ensures none { IsErrOf result ReadError.BadRow → (item : ASourceRow) → HasSourceForms item
            → row.now ≢ row_of_source item }
        ensures fault { IsErrOf result ReadError.Fault → ⊥ }
    {
        let mut columns = Columns::new(row);
        let id = columns.id()?;
        let name = columns.source()?;
        columns.expect_end()?;
        Ok(SourceRow { id, name })
    }
}

impl Query for Sources {
    ghost use Rattle.std.specs.Prelude.{◌≢◌};
    ghost use Rattle.store_schema.specs.declared.schema.Schema.TheVariants.{First};
    ghost use Rattle.store_schema.specs.Tables.{source};

    type Rows = Sources;

    ghost table = { source };

    ghost at = { 9 };

    ghost width = { 0 };

    ghost knows = { λ r. r ≢ First };

    fn select_sql() -> &'static str {
        SELECT
    }
}

impl WholeTable for Sources {
    ghost use Rattle.std.specs.Prelude.{refl};

    type Key = (Id, Source);

    ghost key_of = { λ row. (row.id, row.name) };

    fn key(item: &SourceRow) -> (Id, Source) {
        (item.id, item.name)
    }

    ghost whole = { refl };
}

// ---- as it is written

/// Adds the row of a source. Returns an error if the SYSMOD is not received or has the source already, if the disk
/// fails or if memory runs out.
pub fn insert_source<'a, S: Alter>(
    tx: &mut Transaction<'_, S>,
    id: &'a Id,
    source: &'a Source,
) -> Result<(), Error>
    ensures { RunsCalls S.Store ((into_source, source_row id.now source.now) ∷ [])
        (in_table source_table (with_row (source_row id.now source.now))) tx.old tx.new result }
{
    let id = ValueRef::Text(id.as_bytes());
    let name = ValueRef::Text(source.as_bytes());
    insert(tx, INSERT, &[id, name])
}

// The row of a source.
fn make_source_row<'a>(alloc: Global, id: &'a Id, source: &'a Source) -> Result<Cells, AllocError>
    ensures { IfOk result (λ row. as_bound row ≡ source_row id.now source.now) }
{
    let id = ValueRef::Text(id.as_bytes());
    let name = ValueRef::Text(source.as_bytes());
    row_of_values(alloc, &[id, name])
}

/// The rows of the SYSMOD's sources.
#[derive(Drop)]
pub(crate) struct SourcesOf {
    pub alloc: Global,
    pub id: Id,
}

impl ItemRows for SourcesOf {
    ghost use Rattle.store_schema.specs.Rows.{source_row};
    ghost use Rattle.store_sysmods.specs.Behind.{of_each};

    type Item = Source;

    ghost of_item = { λ of. of_each (source_row of.id) };

    fn append_rows(
        &self,
        rows: &mut Vec<Cells>,
        _front: &[Source],
        source: &Source,
    ) -> Result<(), AllocError> {
        rows.push(make_source_row(self.alloc, &self.id, source)?)?;
        Ok(())
    }
}

/// Removes the rows of the SYSMOD's sources.
pub(crate) fn remove_rows<S: Alter>(tx: &mut Transaction<'_, S>, id: Id) -> Result<(), Error>
    ensures { RunsCalls S.Store ((delete_sources, sysmod_key id) ∷ [])
        (in_table source_table (without (sysmod_key id))) tx.old tx.new result }
{
    let key = [ValueRef::Text(id.as_bytes())];
    remove(tx, DELETE, &key)
}
