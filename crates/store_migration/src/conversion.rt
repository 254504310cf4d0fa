//! The conversion of the tables of an earlier schema, in one transaction.

ghost use Rattle.std.specs.Prelude.{◌≡◌, false, IsTrue, OnOk, OnErr};
ghost use Rattle.sqlite.specs.Held.{state};
ghost use Rattle.sqlite.specs.State.{HasCleanDisk, Survives};
ghost use Rattle.store_rows.specs.Inside.{Continues};
ghost use Rattle.store_migration.specs.TakenOver.{Takes, IsTaken};

use crate::head::Head;
use crate::number::write_number;
use crate::sources::move_sources;
use sqlite::{Alter, Connection, Error, Transaction};
use store_schema::{Schema, add_tables};

// Adds the tables that the schema lacks, moves the sources of these SYSMODs, and writes the store's number, all in an
// open transaction. Returns the same errors as `convert_and_commit`.
fn convert_tables<S: Alter>(
    tx: &mut Transaction<'_, S>,
    schema: Schema,
    heads: &[Head],
) -> Result<(), Error>
    ensures continues { Continues S.Store tx.old tx.new }
    ensures ok { HasCleanDisk (state S.Store tx.new.conn.now) → OnOk result
        (Takes schema heads.now (state S.Store tx.old.conn.now).now (state S.Store tx.new.conn.now).now) }
{
    add_tables(tx, schema)?;
    move_sources(tx, heads)?;
    write_number(tx)
}

/// Makes the tables of the schema the store's, and moves the sources of these SYSMODs to their table: under schema 1
/// those of all, and under a later schema none. Returns an error if the database refuses a table or a row, if the disk
/// fails or if memory runs out.
pub fn convert_and_commit<S: Alter>(
    conn: &mut Connection<S>,
    schema: Schema,
    heads: &[Head],
) -> Result<(), Error>
    requires { conn.old.in_transaction ≡ false }
    ensures made { HasCleanDisk (state S.Store conn.new) → OnOk result
        (Takes schema heads.now (state S.Store conn.old).now (state S.Store conn.new).committed) }
    ensures unchanged { HasCleanDisk (state S.Store conn.new) → IsTrue (state S.Store conn.new).is_open
        → OnErr result ((state S.Store conn.new).committed ≡ (state S.Store conn.old).committed) }
    ensures is_open { HasCleanDisk (state S.Store conn.new) → OnOk result (IsTrue (state S.Store conn.new).is_open) }
    ensures was_open { HasCleanDisk (state S.Store conn.new) → IsTrue (state S.Store conn.new).is_open
        → IsTrue (state S.Store conn.old).is_open }
    ensures crash { Survives (state S.Store conn.old) (state S.Store conn.new)
        (IsTaken schema heads.now (state S.Store conn.old).now) }
    ensures mode { conn.new.in_transaction ≡ false }
{
    let mut tx = conn.transaction();
    convert_tables(&mut tx, schema, heads)?;
    tx.commit()
}
