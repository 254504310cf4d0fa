//! The table of holds: external ones and those of SYSMODs.

ghost use Rattle.std.specs.Prelude.{◌≡◌, ◌≢◌, ◌∷◌, ℕ, List, Option, map, option_map, IfOk, IfSome};
ghost use Rattle.std.specs.Prelude.{IsErrOf, IsPermutation, OnOk};
ghost use Rattle.std.specs.List.{AllByRecursion};
ghost use Rattle.std.specs.String.{string_bytes};
ghost use Rattle.sqlite.specs.declared.types.Value.TheVariants.{Text};
ghost use Rattle.sqlite.specs.Held.{state};
ghost use Rattle.sqlite.specs.Order.{Row as SqlRow};
ghost use Rattle.sqlite.specs.State.{HasCleanDisk};
ghost use Rattle.sqlite.specs.Values.{or_null};
ghost use Rattle.sqlite_value.specs.Value.{owned};
ghost use Rattle.store_rows.specs.Calls.{RunsInside};
ghost use Rattle.store_rows.specs.Inside.{Continues, Turns};
ghost use Rattle.store_rows.specs.Reads.{OnlyReads};
ghost use Rattle.store_rows.specs.Rows.{Contents, HasContents, in_table, without, with_put};
ghost use Rattle.store_schema.specs.declared.schema.Schema.{Schema};
ghost use Rattle.store_schema.specs.Earlier.{schema_under, StandsUnder};
ghost use Rattle.store_schema.specs.Forms.{IsComment, HasHoldForms};
ghost use Rattle.store_schema.specs.Inventory.{Inventory};
ghost use Rattle.store_schema.specs.Rows.{hold_row, flag as flag_of};
ghost use Rattle.store_schema.specs.Tables.{hold as hold_table, store_schema};
ghost use Rattle.terms.specs.Forms.{IsReason};
ghost use Rattle.terms.specs.Types as terms;
ghost use Rattle.store_sysmods.specs.Holds.{hold_key, key_row, upsert_hold_calls, remove_hold_calls};

use crate::hold_comment::is_comment;
use crate::listed::{WholeTable, load_sorted};
use fields::spelling::hold_text;
use fields::{Id, Reason};
use sqlite::{Alter, Connection, Error, Row, Transaction};
use sqlite_value::value::ValueRef;
use std::alloc::Global;
use store_rows::{FromRow, ReadError, remove, upsert};
use store_schema::{Columns, Query, hold_columns, text_or_null};
use sysmods_values::Hold;
use terms::HoldKind;

const SELECT: &str = hold_columns!(select_text "ORDER BY id, kind, reason");

const UPSERT: &str = hold_columns!(upsert_text);

const DELETE: &str = "DELETE FROM hold WHERE id = ?1 AND kind = ?2 AND reason = ?3";

// ---- as it is read

// The reason ID in the next column. Returns `BadRow` if holds of this kind cannot have it.
fn read_reason(columns: &mut Columns<'_>, kind: HoldKind) -> Result<Reason, ReadError>
    ensures read { IfOk result (λ reason. (columns.old ≡ Text reason ∷ columns.new) × IsReason kind reason) }
    ensures none { IsErrOf result ReadError.BadRow → (reason : List ℕ) (rest : SqlRow) → IsReason kind reason
        → columns.old ≢ Text reason ∷ rest }
    ensures fault { IsErrOf result ReadError.Fault → ⊥ }
{
    let reason = Reason::read(columns.text()?).ok_or(ReadError::BadRow)?;
    if !reason.suits(kind) {
        return Err(ReadError::BadRow);
    }
    Ok(reason)
}

// The comment in the next column, or none if the column is NULL. Returns `BadRow` if the text is no comment.
fn read_comment(alloc: Global, columns: &mut Columns<'_>) -> Result<Option<String>, ReadError>
    ensures read { IfOk result (λ comment. (columns.old ≡ or_null Text (option_map string_bytes comment) ∷ columns.new)
        × IfSome (option_map string_bytes comment) IsComment) }
    ensures none { IsErrOf result ReadError.BadRow → (comment : Option (List ℕ)) (rest : SqlRow)
        → IfSome comment IsComment → columns.old ≢ or_null Text comment ∷ rest }
    ensures fault { IsErrOf result ReadError.Fault → ⊥ }
{
    let Some(bytes) = columns.optional_text()? else {
        return Ok(None);
    };
    if !is_comment(bytes) {
        return Err(ReadError::BadRow);
    }
    match std::str::from_utf8(bytes) {
        Ok(comment) => Ok(Some(String::from_str(alloc, comment)?)),
        Err(_) => Err(ReadError::BadRow),
    }
}

/// Reads holds.
struct HoldReader;

impl FromRow for HoldReader {
    ghost use Rattle.store_schema.specs.Rows.{hold_row};
    ghost use Rattle.store_schema.specs.Forms.{HasHoldForms};

    type Item = Hold;

    ghost row_of = { hold_row };

    ghost has_form = { HasHoldForms };

    fn read(alloc: Global, row: &Row) -> Result<Hold, ReadError>
        ensures read { IfOk result (λ hold. (row.now ≡ hold_row hold) × HasHoldForms hold) }
        ensures none { IsErrOf result ReadError.BadRow → (hold : terms.Hold) → HasHoldForms hold
            → row.now ≢ hold_row hold }
        ensures fault { IsErrOf result ReadError.Fault → ⊥ }
    {
        let mut columns = Columns::new(row);
        let id = columns.id()?;
        let kind = columns.hold_kind()?;
        let reason = read_reason(&mut columns, kind)?;
        let fmid = columns.id()?;
        let class = columns.optional()?;
        let date = columns.optional()?;
        let comment = read_comment(alloc, &mut columns)?;
        let internal = columns.flag()?;
        columns.expect_end()?;
        Ok(Hold {
            id,
            kind,
            reason,
            fmid,
            class,
            date,
            comment,
            internal,
        })
    }
}

impl Query for HoldReader {
    ghost use Rattle.std.specs.Prelude.{⊤};
    ghost use Rattle.store_schema.specs.Tables.{hold};

    type Rows = HoldReader;

    ghost table = { hold };

    ghost at = { 4 };

    ghost width = { 0 };

    ghost knows = { λ r. ⊤ };

    fn select_sql() -> &'static str {
        SELECT
    }
}

impl WholeTable for HoldReader {
    ghost use Rattle.std.specs.Prelude.{refl};

    type Key = (Id, (HoldKind, Reason));

    ghost key_of = { λ hold. (hold.id, (hold.kind, hold.reason)) };

    fn key(hold: &Hold) -> (Id, (HoldKind, Reason)) {
        (hold.id, (hold.kind, hold.reason))
    }

    ghost whole = { refl };
}

/// All holds, by id, kind and reason. Returns `BadRow` if a row is not a hold, `Memory` if memory runs out, and `Fault`
/// if the disk fails or the tables are others.
pub fn load_holds<S: Alter>(alloc: Global, conn: &mut Connection<S>) -> Result<Vec<Hold>, ReadError>
    ensures rows { HasCleanDisk (state S.Store conn.new) → (r : Schema) (contents : Contents)
        → HasContents (schema_under r) contents (state S.Store conn.old).now
        → IfOk result (λ holds. IsPermutation (map hold_row holds.items) (contents hold_table.tree)) }
    ensures found { HasCleanDisk (state S.Store conn.new) → (r : Schema) (i : Inventory)
        → StandsUnder r i (state S.Store conn.old).now → IfOk result (λ holds. holds.items ≡ i.global.holds) }
    ensures forms { IfOk result (λ holds. AllByRecursion HasHoldForms holds.items) }
    ensures no_rows { HasCleanDisk (state S.Store conn.new) → IsErrOf result ReadError.BadRow → (r : Schema)
        → (contents : Contents) → HasContents (schema_under r) contents (state S.Store conn.old).now
        → (holds : List terms.Hold) → AllByRecursion HasHoldForms holds
        → ¬ IsPermutation (map hold_row holds) (contents hold_table.tree) }
    ensures none { HasCleanDisk (state S.Store conn.new) → IsErrOf result ReadError.BadRow → (r : Schema)
        → (i : Inventory) → ¬ StandsUnder r i (state S.Store conn.old).now }
    ensures reads { (r : Schema) → OnlyReads S.Store (schema_under r) ReadError.BadRow ReadError.Fault conn.old
        conn.new result }
{
    load_sorted::<S, HoldReader>(alloc, conn)
}

// ---- as it is written

// The comment, or NULL if there is none.
fn comment_value(comment: &Option<String>) -> ValueRef<'_>
    ensures { owned result ≡ or_null Text (option_map string_bytes comment.now) }
{
    match comment {
        Some(comment) => ValueRef::Text(comment.as_bytes()),
        None => ValueRef::Null,
    }
}

// 1 for yes, and 0 for no.
fn flag_value(flag: bool) -> ValueRef<'static>
    ensures { owned result ≡ flag_of flag }
{
    if flag {
        return ValueRef::Int(1);
    }
    ValueRef::Int(0)
}

/// Removes the hold of this id, kind and reason ID, if there is one. Returns an error if the disk fails or memory runs
/// out.
pub fn remove_hold<S: Alter>(
    tx: &mut Transaction<'_, S>,
    id: Id,
    kind: HoldKind,
    reason: Reason,
) -> Result<(), Error>
    ensures continues { Continues S.Store tx.old tx.new }
    ensures calls { RunsInside S.Store (remove_hold_calls id kind reason) tx.old.conn.now tx.new.conn.now result }
    ensures ok { OnOk result (Turns S.Store tx.old.conn.now tx.new.conn.now (HasContents store_schema)
        (in_table hold_table (without (key_row id kind reason)))) }
{
    let key = [
        ValueRef::Text(id.as_bytes()),
        ValueRef::Text(hold_text(kind)),
        ValueRef::Text(reason.as_bytes()),
    ];
    remove(tx, DELETE, &key)
}

/// Puts the hold, in place of the one of its id, kind and reason ID if there is one. Returns an error if the disk fails
/// or memory runs out.
pub fn upsert_hold<S: Alter>(tx: &mut Transaction<'_, S>, hold: &Hold) -> Result<(), Error>
    ensures continues { Continues S.Store tx.old tx.new }
    ensures calls { RunsInside S.Store (upsert_hold_calls hold.now) tx.old.conn.now tx.new.conn.now result }
    ensures ok { OnOk result (Turns S.Store tx.old.conn.now tx.new.conn.now (HasContents store_schema)
        (with_put hold_table (hold_key hold.now) (hold_row hold.now))) }
{
    let id = ValueRef::Text(hold.id.as_bytes());
    let kind = ValueRef::Text(hold_text(hold.kind));
    let reason = ValueRef::Text(hold.reason.as_bytes());
    let fmid = ValueRef::Text(hold.fmid.as_bytes());
    let class = text_or_null(&hold.class);
    let date = text_or_null(&hold.date);
    let comment = comment_value(&hold.comment);
    let internal = flag_value(hold.internal);
    upsert(
        tx,
        UPSERT,
        &[id, kind, reason, fmid, class, date, comment, internal],
    )
}
