//! The statements that create the tables, each in an open transaction.

ghost use Rattle.std.specs.Prelude.{◌∷◌, [], OnOk};
ghost use Rattle.sqlite.specs.Held.{state};
ghost use Rattle.sqlite.specs.State.{HasCleanDisk};
ghost use Rattle.store_rows.specs.Inside.{Continues, Leads};
ghost use Rattle.store_rows.specs.Rows.{Contents, HasContents};
ghost use Rattle.store_schema.specs.Create.{IsBlank, HasTables, with_new};
ghost use Rattle.store_schema.specs.Earlier.{schema_under, missing_tables};
ghost use Rattle.store_schema.specs.Known.{HasRun};
ghost use Rattle.store_schema.specs.Tables.{meta, global_tables, first_tables, second_tables, source, morever, moreif};
ghost use Rattle.store_schema.specs.Tables.{chosen, schema_of, store_schema};

use crate::schema::Schema;
use crate::{
    chosen_columns, elem_columns, entry_columns, hold_columns, ifreq_columns, meta_columns,
    moreif_columns, morever_columns, source_columns, sysmod_columns, ver_columns, zelem_columns,
    zone_columns,
};
use sqlite::{Alter, Error, Transaction};

const CREATE_META: &str = meta_columns!(create_text);

const CREATE_SYSMOD: &str = sysmod_columns!(create_text);

const CREATE_VER: &str = ver_columns!(create_text);

const CREATE_IFREQ: &str = ifreq_columns!(create_text);

const CREATE_HOLD: &str = hold_columns!(create_text);

const CREATE_ELEM: &str = elem_columns!(create_text);

const CREATE_ZONE: &str = zone_columns!(create_text);

const CREATE_ENTRY: &str = entry_columns!(create_text);

const CREATE_ZELEM: &str = zelem_columns!(create_text);

const CREATE_SOURCE: &str = source_columns!(create_text);

const CREATE_MOREVER: &str = morever_columns!(create_text);

const CREATE_MOREIF: &str = moreif_columns!(create_text);

const CREATE_CHOSEN: &str = chosen_columns!(create_text);

/// Runs a statement that has no parameters and shows no rows.
pub(crate) fn run_statement<S: Alter>(tx: &mut Transaction<'_, S>, sql: &str) -> Result<(), Error>
    ensures continues { Continues S.Store tx.old tx.new }
    ensures ran { HasCleanDisk (state S.Store tx.new.conn.now)
        → OnOk result (HasRun sql.now (state S.Store tx.old.conn.now) (state S.Store tx.new.conn.now)) }
{
    tx.execute(sql, &[])?;
    Ok(())
}

// Creates the tables of SYSMODs with their `++VER`s, `++IF`s and elements, and holds.
fn create_global_tables<S: Alter>(tx: &mut Transaction<'_, S>) -> Result<(), Error>
    ensures continues { Continues S.Store tx.old tx.new }
    ensures ok { OnOk result (Leads S.Store tx.old.conn.now tx.new.conn.now (HasTables (meta ∷ []))
        (HasTables (meta ∷ global_tables))) }
{
    run_statement(tx, CREATE_SYSMOD)?;
    run_statement(tx, CREATE_VER)?;
    run_statement(tx, CREATE_IFREQ)?;
    run_statement(tx, CREATE_HOLD)?;
    run_statement(tx, CREATE_ELEM)
}

// Creates the tables of zones with their entries.
fn create_zone_tables<S: Alter>(tx: &mut Transaction<'_, S>) -> Result<(), Error>
    ensures continues { Continues S.Store tx.old tx.new }
    ensures ok { OnOk result (Leads S.Store tx.old.conn.now tx.new.conn.now (HasTables (meta ∷ global_tables))
        (HasTables first_tables)) }
{
    run_statement(tx, CREATE_ZONE)?;
    run_statement(tx, CREATE_ENTRY)?;
    run_statement(tx, CREATE_ZELEM)
}

/// Creates the tables that every schema has.
pub(crate) fn create_first_tables<S: Alter>(tx: &mut Transaction<'_, S>) -> Result<(), Error>
    ensures continues { Continues S.Store tx.old tx.new }
    ensures ok { OnOk result (Leads S.Store tx.old.conn.now tx.new.conn.now IsBlank (HasTables first_tables)) }
{
    run_statement(tx, CREATE_META)?;
    create_global_tables(tx)?;
    create_zone_tables(tx)
}

/// Creates the table that the second schema adds to the first one: the sources of SYSMODs.
pub(crate) fn add_second_tables<S: Alter>(tx: &mut Transaction<'_, S>) -> Result<(), Error>
    ensures continues { Continues S.Store tx.old tx.new }
    ensures ok { OnOk result ((contents : Contents) → Leads S.Store tx.old.conn.now tx.new.conn.now
        (HasContents (schema_of first_tables) contents)
        (HasContents (schema_of second_tables) (with_new (source ∷ []) contents))) }
{
    run_statement(tx, CREATE_SOURCE)
}

// Creates the tables that the third schema adds to the second one: further `++VER`s of one SREL with their `++IF`s, and
// which of them installed an entry.
fn add_third_tables<S: Alter>(tx: &mut Transaction<'_, S>) -> Result<(), Error>
    ensures continues { Continues S.Store tx.old tx.new }
    ensures ok { OnOk result ((contents : Contents) → Leads S.Store tx.old.conn.now tx.new.conn.now
        (HasContents (schema_of second_tables) contents)
        (HasContents store_schema (with_new (morever ∷ moreif ∷ chosen ∷ []) contents))) }
{
    run_statement(tx, CREATE_MOREVER)?;
    run_statement(tx, CREATE_MOREIF)?;
    run_statement(tx, CREATE_CHOSEN)
}

/// Creates the tables of the store that the schema lacks, in an open transaction. The rows of the others stay. Returns
/// an error if the database refuses a table, as one that exists already, if the disk fails or if memory runs out.
pub fn add_tables<S: Alter>(tx: &mut Transaction<'_, S>, schema: Schema) -> Result<(), Error>
    ensures continues { Continues S.Store tx.old tx.new }
    ensures ok { OnOk result ((contents : Contents) → Leads S.Store tx.old.conn.now tx.new.conn.now
        (HasContents (schema_under schema) contents)
        (HasContents store_schema (with_new (missing_tables schema) contents))) }
{
    match schema {
        Schema::First => {
            add_second_tables(tx)?;
            add_third_tables(tx)
        }
        Schema::Second => add_third_tables(tx),
        Schema::Third => Ok(()),
    }
}
