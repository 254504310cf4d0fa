//! The schema that the tables of a database have, earlier ones included.

ghost use Rattle.std.specs.Prelude.{◌≡◌, false, IfOk, IfSome, IfNone, IsErrOf};
ghost use Rattle.sqlite.specs.Held.{state};
ghost use Rattle.sqlite.specs.State.{HasCleanDisk, IsUnchanged, KeepsCommit, Survives};
ghost use Rattle.store_schema.specs.Create.{IsBlank};
ghost use Rattle.store_schema.specs.Known.{HasUnknownNumber, HasNoSchema, HasTablesUnder};
ghost use Rattle.store_schema.specs.Looks.{LeavesAll, KeepsLast, SurvivesAs};
ghost use Rattle.store_schema.specs.declared.schema.Schema.{Schema as SchemaOf};

use crate::error::StoreError;
use crate::numbers::{check_number, refuse_other_numbers};
use crate::schema::Schema;
use crate::tables::{is_blank, schema_of_tables};
use sqlite::{Alter, Connection};
use std::alloc::Global;

// The schema that has just these tables and its number in `meta`. Returns `NoState` if there is none.
fn schema_by_tables<S: Alter>(alloc: Global, conn: &mut Connection<S>) -> Result<Schema, StoreError>
    ensures known { HasCleanDisk (state S.Store conn.new) → IfOk result
        (λ schema. HasTablesUnder schema (state S.Store conn.old).now) }
    ensures none { HasCleanDisk (state S.Store conn.new) → IsErrOf result StoreError.NoState
        → (schema : SchemaOf) → ¬ HasTablesUnder schema (state S.Store conn.old).now }
    ensures which { IsErrOf result StoreError.OtherSchema → ⊥ }
    ensures same { LeavesAll S.Store conn.old conn.new result }
    ensures kept { KeepsLast S.Store conn.old conn.new }
    ensures crash { SurvivesAs S.Store conn.old conn.new }
    ensures mode { conn.old.in_transaction ≡ false → conn.new.in_transaction ≡ false }
{
    let Some(schema) = schema_of_tables(alloc, conn.schema())? else {
        return Err(StoreError::NoState);
    };
    check_number(conn, schema)?;
    Ok(schema)
}

// The schema of the tables. Returns `OtherSchema` if `meta` gives a number that no schema has, and `NoState` if the
// tables otherwise are those of no schema.
fn recognize_schema<S: Alter>(alloc: Global, conn: &mut Connection<S>) -> Result<Schema, StoreError>
    ensures known { HasCleanDisk (state S.Store conn.new) → IfOk result
        (λ schema. HasTablesUnder schema (state S.Store conn.old).now) }
    ensures other { HasCleanDisk (state S.Store conn.new) → IsErrOf result StoreError.OtherSchema
        → HasUnknownNumber (state S.Store conn.old) }
    ensures none { HasCleanDisk (state S.Store conn.new) → IsErrOf result StoreError.NoState
        → ¬ IsBlank (state S.Store conn.old).now → HasNoSchema (state S.Store conn.old) }
    ensures same { LeavesAll S.Store conn.old conn.new result }
    ensures kept { KeepsLast S.Store conn.old conn.new }
    ensures crash { SurvivesAs S.Store conn.old conn.new }
    ensures mode { conn.old.in_transaction ≡ false → conn.new.in_transaction ≡ false }
{
    refuse_other_numbers(conn, &[1, 2, 3])?;
    schema_by_tables(alloc, conn)
}

/// The schema of the tables, or none if there are no tables and views. It changes nothing. Returns `OtherSchema` if
/// `meta` gives a number that no schema has, `NoState` if the tables otherwise are those of no schema, `Fault` if the
/// database fails or has tables but no `meta` with its columns, and `Memory` if memory runs out.
pub fn find_schema<S: Alter>(
    alloc: Global,
    conn: &mut Connection<S>,
) -> Result<Option<Schema>, StoreError>
    requires { conn.old.in_transaction ≡ false }
    ensures blank { IfOk result (λ found. IfNone found
        (IsBlank (state S.Store conn.old).now × (conn.new ≡ conn.old))) }
    ensures known { HasCleanDisk (state S.Store conn.new) → IfOk result (λ found. IfSome found
        (λ schema. HasTablesUnder schema (state S.Store conn.old).now)) }
    ensures other { HasCleanDisk (state S.Store conn.new) → IsErrOf result StoreError.OtherSchema
        → HasUnknownNumber (state S.Store conn.old) }
    ensures none { HasCleanDisk (state S.Store conn.new) → IsErrOf result StoreError.NoState
        → HasNoSchema (state S.Store conn.old) }
    ensures same { HasCleanDisk (state S.Store conn.new) → IfOk result (λ found. IfSome found
        (λ _. IsUnchanged (state S.Store conn.old) (state S.Store conn.new))) }
    ensures kept { HasCleanDisk (state S.Store conn.new) → KeepsCommit (state S.Store conn.old)
        (state S.Store conn.new) }
    ensures crash { Survives (state S.Store conn.old) (state S.Store conn.new) (λ _. ⊥) }
    ensures mode { conn.new.in_transaction ≡ false }
{
    if is_blank(conn.schema()) {
        return Ok(None);
    }
    let schema = recognize_schema(alloc, conn)?;
    Ok(Some(schema))
}
