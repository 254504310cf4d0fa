//! The table of element statements.

ghost use Rattle.std.specs.Prelude.{◌≡◌, ◌≢◌, ℕ, List, [], ◌∷◌, IfOk, IsErrOf};
ghost use Rattle.std.specs.List.{concat};
ghost use Rattle.sqlite.specs.Order.{Row as SqlRow};
ghost use Rattle.sqlite.specs.Values.{or_null};
ghost use Rattle.sqlite.specs.declared.types.Value.TheVariants.{Int, Text};
ghost use Rattle.sqlite_value.specs.Value.{owned};
ghost use Rattle.sysmods_values.specs.Views.{action_of};
ghost use Rattle.terms.specs.declared.kinds.Kind.TheVariants.{Ptf};
ghost use Rattle.terms.specs.Texts.{IsUpdate};
ghost use Rattle.terms.specs.Types.{Action as ActionTerm};
ghost use Rattle.store_rows.specs.Rows.{as_bound, in_table, without};
ghost use Rattle.store_schema.specs.Forms.{AreRecords, IsTextOf, TakesUpdates, HasActionForms};
ghost use Rattle.store_schema.specs.Rows.{records, action_cells, elem_row, flag};
ghost use Rattle.store_schema.specs.Tables.{elem as elem_table};
ghost use Rattle.store_sysmods.specs.declared.elem.ElemRow.{ElemRow as AElemRow};
ghost use Rattle.store_sysmods.specs.Elems.{delete_elems, is_update, distlib_of, syslib_of};
ghost use Rattle.store_sysmods.specs.Elems.{lines_of as lines_in};
ghost use Rattle.store_sysmods.specs.Steps.{RunsCalls};
ghost use Rattle.store_sysmods.specs.Sysmods.{sysmod_key};

use crate::item_rows::ItemRows;
use crate::listed::WholeTable;
use fields::spelling::type_text;
use fields::{Id, Name};
use sqlite::{Alter, Error, Row, Transaction};
use sqlite_value::row::Row as Cells;
use sqlite_value::value::ValueRef;
use std::alloc::{AllocError, Global};
use store_rows::{FromRow, ReadError, remove, row_of_values};
use store_schema::{Columns, Query, elem_columns};
use sysmods_values::{Action, ElemChange};
use terms::ElemType;
use text80::{Line, TextError, Update, bytes_of};

const SELECT: &str = elem_columns!(select_text "ORDER BY id, type, name");

pub(crate) const INSERT: &str = elem_columns!(insert_text);

// For sixteen rows, as many as one statement adds.
pub(crate) const INSERT_MANY: &str = elem_columns!(insert_many_text);

const DELETE: &str = "DELETE FROM elem WHERE id = ?1";

// ---- as it is read

/// An element statement of the SYSMOD.
#[derive(Drop)]
pub struct ElemRow {
    pub id: Id,
    pub change: ElemChange,
}

// The records of a replacement in the next column. Returns `BadRow` if there is none.
fn read_replacement_lines(
    alloc: Global,
    columns: &mut Columns<'_>,
    elem_type: ElemType,
) -> Result<Vec<Line>, ReadError>
    ensures read { IfOk result (λ text. (columns.old ≡ records text.items ∷ columns.new)
        × IsTextOf elem_type text.items × (text.items ≢ [])) }
    ensures none { IsErrOf result ReadError.BadRow → (text : List (List ℕ)) (rest : SqlRow) → IsTextOf elem_type text
        → text ≢ [] → columns.old ≢ records text ∷ rest }
    ensures fault { IsErrOf result ReadError.Fault → ⊥ }
{
    let text = columns.element_text(alloc, elem_type)?;
    if text.is_empty() {
        return Err(ReadError::BadRow);
    }
    Ok(text)
}

// The update that these records are of the element of this name. Returns `BadRow` if they are none.
fn parse_update(alloc: Global, records: Vec<Line>, name: &[u8]) -> Result<Update, ReadError>
    ensures some { IfOk result (λ update. (update ≡ records.items) × IsUpdate name.now records.items) }
    ensures none { IsErrOf result ReadError.BadRow → ¬ IsUpdate name.now records.items }
    ensures fault { IsErrOf result ReadError.Fault → ⊥ }
{
    match Update::read(alloc, records, name) {
        Ok(update) => Ok(update),
        Err(TextError::Memory) => Err(ReadError::Memory),
        Err(TextError::Fault(_)) => Err(ReadError::BadRow),
    }
}

// The update of the element of this type and name in the next column. Returns `BadRow` if elements of this type have no
// updates, or if the records are no update of the element.
fn read_update(
    alloc: Global,
    columns: &mut Columns<'_>,
    elem_type: ElemType,
    name: Name,
) -> Result<Update, ReadError>
    ensures read { IfOk result (λ update. (columns.old ≡ records update ∷ columns.new) × TakesUpdates elem_type
        × AreRecords update × IsUpdate name update) }
    ensures none { IsErrOf result ReadError.BadRow → (text : List (List ℕ)) (rest : SqlRow) → TakesUpdates elem_type
        → AreRecords text → IsUpdate name text → columns.old ≢ records text ∷ rest }
    ensures fault { IsErrOf result ReadError.Fault → ⊥ }
{
    if !elem_type.is_numbered() {
        return Err(ReadError::BadRow);
    }
    let lines = columns.records(alloc)?;
    parse_update(alloc, lines, name.as_bytes())
}

// What the statement does to the element of this type and name, which all columns that are left say.
fn read_action(
    alloc: Global,
    columns: &mut Columns<'_>,
    elem_type: ElemType,
    name: Name,
) -> Result<Action, ReadError>
    ensures read { IfOk result (λ action. (columns.old ≡ action_cells (action_of action))
        × HasActionForms Ptf elem_type name (action_of action)) }
    ensures none { IsErrOf result ReadError.BadRow → (action : ActionTerm) → HasActionForms Ptf elem_type name action
        → columns.old ≢ action_cells action }
    ensures fault { IsErrOf result ReadError.Fault → ⊥ }
{
    let updates = columns.flag()?;
    let distlib = columns.optional()?;
    let syslib = columns.optional()?;
    match (updates, distlib, syslib) {
        (false, Some(distlib), Some(syslib)) => {
            let lines = read_replacement_lines(alloc, columns, elem_type)?;
            columns.expect_end()?;
            Ok(Action::Replaces {
                distlib,
                syslib,
                lines,
            })
        }
        (true, None, None) => {
            let update = read_update(alloc, columns, elem_type, name)?;
            columns.expect_end()?;
            Ok(Action::Updates { update })
        }
        _ => Err(ReadError::BadRow),
    }
}

/// Reads element statements.
pub struct Elems;

impl FromRow for Elems {
    ghost use Rattle.store_sysmods.specs.Elems.{row_of_elem, HasElemRowForms};

    type Item = ElemRow;

    ghost row_of = { row_of_elem };

    ghost has_form = { HasElemRowForms };

    fn read(alloc: Global, row: &Row) -> Result<ElemRow, ReadError>
        ensures read { IfOk result (λ item. (row.now ≡ row_of_elem item) × HasElemRowForms item) }
        ensures none { IsErrOf result ReadError.BadRow → (item : AElemRow) → HasElemRowForms item
            → row.now ≢ row_of_elem item }
        ensures fault { IsErrOf result ReadError.Fault → ⊥ }
    {
        let mut columns = Columns::new(row);
        let id = columns.id()?;
        let elem_type = columns.elem_type()?;
        let name = columns.name()?;
        let action = read_action(alloc, &mut columns, elem_type, name)?;
        let change = ElemChange {
            elem_type,
            name,
            action,
        };
        Ok(ElemRow { id, change })
    }
}

impl Query for Elems {
    ghost use Rattle.std.specs.Prelude.{⊤};
    ghost use Rattle.store_schema.specs.Tables.{elem};

    type Rows = Elems;

    ghost table = { elem };

    ghost at = { 5 };

    ghost width = { 0 };

    ghost knows = { λ r. ⊤ };

    fn select_sql() -> &'static str {
        SELECT
    }
}

impl WholeTable for Elems {
    ghost use Rattle.std.specs.Prelude.{refl};

    type Key = (Id, (ElemType, Name));

    ghost key_of = { λ row. (row.id, (row.change.elem_type, row.change.name)) };

    fn key(item: &ElemRow) -> (Id, (ElemType, Name)) {
        (item.id, (item.change.elem_type, item.change.name))
    }

    ghost whole = { refl };
}

// ---- as it is written

// The records of the replacement or update.
fn action_lines(action: &Action) -> &[Line]
    ensures { result.now ≡ lines_in (action_of action.now) }
{
    match action {
        Action::Replaces { lines, .. } => lines.as_slice(),
        Action::Updates { update } => update.records(),
    }
}

// 1 for an update, and 0 for a replacement.
fn update_value(action: &Action) -> ValueRef<'static>
    ensures { owned result ≡ flag (is_update (action_of action.now)) }
{
    match action {
        Action::Replaces { .. } => ValueRef::Int(0),
        Action::Updates { .. } => ValueRef::Int(1),
    }
}

// The distribution library of a replacement, or NULL for an update.
fn distlib_value(action: &Action) -> ValueRef<'_>
    ensures { owned result ≡ or_null Text (distlib_of (action_of action.now)) }
{
    match action {
        Action::Replaces { distlib, .. } => ValueRef::Text(distlib.as_bytes()),
        Action::Updates { .. } => ValueRef::Null,
    }
}

// The target library of a replacement, or NULL for an update.
fn syslib_value(action: &Action) -> ValueRef<'_>
    ensures { owned result ≡ or_null Text (syslib_of (action_of action.now)) }
{
    match action {
        Action::Replaces { syslib, .. } => ValueRef::Text(syslib.as_bytes()),
        Action::Updates { .. } => ValueRef::Null,
    }
}

// The element statement's row, with these bytes of its records.
fn make_element_row<'a>(
    alloc: Global,
    id: &'a Id,
    change: &'a ElemChange,
    text: &'a [u8],
) -> Result<Cells, AllocError>
    requires { text.now ≡ concat (lines_in change.now.action) }
    ensures { IfOk result (λ row. as_bound row ≡ elem_row id.now change.now) }
{
    let id = ValueRef::Text(id.as_bytes());
    let elem_type = ValueRef::Text(type_text(change.elem_type));
    let name = ValueRef::Text(change.name.as_bytes());
    let update = update_value(&change.action);
    let distlib = distlib_value(&change.action);
    let syslib = syslib_value(&change.action);
    let text = ValueRef::Blob(text);
    row_of_values(alloc, &[id, elem_type, name, update, distlib, syslib, text])
}

/// The rows of the SYSMOD's element statements.
#[derive(Drop)]
pub(crate) struct ElemsOf {
    pub alloc: Global,
    pub id: Id,
}

impl ItemRows for ElemsOf {
    ghost use Rattle.store_schema.specs.Rows.{elem_row};
    ghost use Rattle.store_sysmods.specs.Behind.{of_each};

    type Item = ElemChange;

    ghost of_item = { λ of. of_each (elem_row of.id) };

    fn append_rows(
        &self,
        rows: &mut Vec<Cells>,
        _front: &[ElemChange],
        change: &ElemChange,
    ) -> Result<(), AllocError> {
        let text = bytes_of(self.alloc, action_lines(&change.action))?;
        rows.push(make_element_row(self.alloc, &self.id, change, text.as_slice())?)?;
        Ok(())
    }
}

/// Removes the rows of the SYSMOD's element statements.
pub(crate) fn remove_rows<S: Alter>(tx: &mut Transaction<'_, S>, id: Id) -> Result<(), Error>
    ensures { RunsCalls S.Store ((delete_elems, sysmod_key id) ∷ [])
        (in_table elem_table (without (sysmod_key id))) tx.old tx.new result }
{
    let key = [ValueRef::Text(id.as_bytes())];
    remove(tx, DELETE, &key)
}
