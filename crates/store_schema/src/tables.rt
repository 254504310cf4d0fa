//! The tables, created in one transaction, and the schema that those of a database have.

ghost use Rattle.std.specs.Prelude.{◌≡◌, ◌≢◌, ◌↔◌, ◌∷◌, [], false, IsTrue, OnOk, OnErr, IfOk, IfSome, IfNone};
ghost use Rattle.sqlite.specs.Held.{state};
ghost use Rattle.sqlite.specs.State.{HasCleanDisk, Survives};
ghost use Rattle.store_schema.specs.Create.{IsBlank, HasTables};
ghost use Rattle.store_schema.specs.Inventory.{empty_inventory};
ghost use Rattle.store_schema.specs.Known.{HasRun};
ghost use Rattle.store_schema.specs.Stands.{StandsFor};
ghost use Rattle.store_rows.specs.Inside.{Continues, Leads, IsMade, HoldsOpen};
ghost use Rattle.store_schema.specs.Tables.{meta, global_tables, first_tables, schema_of};
ghost use Rattle.store_schema.specs.Earlier.{tables_under, schema_under};
ghost use Rattle.store_schema.specs.declared.schema.Schema.{Schema as SchemaOf};

use crate::creating::{add_second_tables, add_tables, create_first_tables, run_statement};
use crate::same::same_schema;
use crate::schema::Schema;
use sqlite::{Alter, Connection, Error, Transaction};
use sqlite_schema::schema::Schema as SqliteSchema;
use std::alloc::Global;

// Creates the tables of the store, and writes the number of their schema.
fn create_all_tables<S: Alter>(tx: &mut Transaction<'_, S>) -> Result<(), Error>
    ensures continues { Continues S.Store tx.old tx.new }
    ensures ok { OnOk result (Leads S.Store tx.old.conn.now tx.new.conn.now IsBlank (StandsFor empty_inventory)) }
{
    create_first_tables(tx)?;
    add_tables(tx, Schema::First)?;
    run_statement(tx, "INSERT INTO meta (k, v) VALUES ('schema', 3)")
}

// Creates the tables of a schema, without its number.
fn create_tables_of<S: Alter>(tx: &mut Transaction<'_, S>, schema: Schema) -> Result<(), Error>
    ensures continues { Continues S.Store tx.old tx.new }
    ensures ok { OnOk result (Leads S.Store tx.old.conn.now tx.new.conn.now IsBlank
        (HasTables (tables_under schema))) }
{
    create_first_tables(tx)?;
    match schema {
        Schema::First => Ok(()),
        Schema::Second => add_second_tables(tx),
        Schema::Third => add_tables(tx, Schema::First),
    }
}

/// Creates the tables of the store, with the number of their schema, in a database that has none.
pub(crate) fn create_store<S: Alter>(conn: &mut Connection<S>) -> Result<(), Error>
    requires { conn.old.in_transaction ≡ false }
    ensures made { HasCleanDisk (state S.Store conn.new) → OnOk result
        (IsBlank (state S.Store conn.old).now → StandsFor empty_inventory (state S.Store conn.new).now
        × HoldsOpen StandsFor (state S.Store conn.new) empty_inventory) }
    ensures unchanged { HasCleanDisk (state S.Store conn.new) → IsTrue (state S.Store conn.new).is_open
        → OnErr result ((state S.Store conn.new).committed ≡ (state S.Store conn.old).committed) }
    ensures is_open { HasCleanDisk (state S.Store conn.new) → OnOk result (IsTrue (state S.Store conn.new).is_open) }
    ensures was_open { HasCleanDisk (state S.Store conn.new) → IsTrue (state S.Store conn.new).is_open
        → IsTrue (state S.Store conn.old).is_open }
    ensures crash { Survives (state S.Store conn.old) (state S.Store conn.new)
        (IsMade S.Store conn.old IsBlank (StandsFor empty_inventory)) }
    ensures mode { conn.new.in_transaction ≡ false }
{
    let mut tx = conn.transaction();
    create_all_tables(&mut tx)?;
    tx.commit()
}

/// Whether the database is empty.
pub(crate) fn is_blank(held: &SqliteSchema) -> bool
    ensures { IsTrue result ↔ (held.now ≡ schema_of []) }
{
    held.tables.is_empty() && held.indexes.is_empty() && held.views.is_empty()
}

// Creates the tables of a schema, without its number, in a database that has none.
fn create_schema<S: Alter>(conn: &mut Connection<S>, schema: Schema) -> Result<(), Error>
    requires { conn.old.in_transaction ≡ false }
    ensures made { HasCleanDisk (state S.Store conn.new) → OnOk result
        (IsBlank (state S.Store conn.old).now → HasTables (tables_under schema) (state S.Store conn.new).now) }
{
    let mut tx = conn.transaction();
    create_tables_of(&mut tx, schema)?;
    tx.commit()
}

/// Whether the tables are those of the schema. It compares them with those that the schema creates in memory.
pub(crate) fn are_tables_of(
    alloc: Global,
    held: &SqliteSchema,
    schema: Schema,
) -> Result<bool, Error>
    ensures { IfOk result (λ is. IsTrue is ↔ (held.now ≡ schema_under schema)) }
{
    let mut conn = Connection::open_in_memory(alloc)?;
    create_schema(&mut conn, schema)?;
    Ok(same_schema(held, conn.schema()))
}

/// The schema of the tables, or none if no schema has just these tables.
pub(crate) fn schema_of_tables(alloc: Global, held: &SqliteSchema) -> Result<Option<Schema>, Error>
    ensures some { IfOk result (λ found. IfSome found (λ schema. held.now ≡ schema_under schema)) }
    ensures none { IfOk result (λ found. IfNone found ((schema : SchemaOf) → held.now ≢ schema_under schema)) }
{
    if are_tables_of(alloc, held, Schema::First)? {
        return Ok(Some(Schema::First));
    }
    if are_tables_of(alloc, held, Schema::Second)? {
        return Ok(Some(Schema::Second));
    }
    if are_tables_of(alloc, held, Schema::Third)? {
        return Ok(Some(Schema::Third));
    }
    Ok(None)
}
