//! The migration of the tables of an earlier schema.

ghost use Rattle.std.specs.Prelude.{◌≡◌, false, IfOk, IfErr};
ghost use Rattle.sqlite.specs.Held.{state};
ghost use Rattle.sqlite.specs.State.{IsLive};
ghost use Rattle.store_migration.specs.Migrated.{Migrated, Unmigrated, Migrates};

use crate::check::check_all;
use crate::conversion::convert_and_commit;
use sqlite::{Alter, Connection};
use std::alloc::Global;
use store::{Store, map_read_error};
use store_schema::{Schema, StoreError, find_schema, set_up};

// Establishes for the proofs that an open connection shows a database. The call does nothing.
fn attest<S: Alter>(conn: &Connection<S>)
    ensures { IsLive (state S.Store conn.now) }
{
    let _ = conn.schema();
}

// Reads all rows, and then makes the tables those of the store. Creates them if there are none. Returns the same errors
// as `migrate`.
fn migrate_tables<S: Alter>(alloc: Global, conn: &mut Connection<S>) -> Result<(), StoreError>
    requires { conn.old.in_transaction ≡ false }
    ensures { Migrates S.Store conn.old conn.new result }
{
    // Outside a transaction, the connection shows what it last committed.
    prove!(conn.is_autocommit());
    attest(conn);
    let Some(schema) = find_schema(alloc, conn)? else {
        return set_up(alloc, conn);
    };
    let heads = map_read_error(check_all(alloc, conn, schema))?;
    match schema {
        Schema::Third => Ok(()),
        _ => {
            convert_and_commit(conn, schema, heads.as_slice())?;
            Ok(())
        }
    }
}

/// Migrates the tables of an earlier schema to the store's, in one transaction, and creates them in a database that has
/// none. Before that it reads all rows, those of one zone at a time, so that bad ones stay as they are. Like
/// `Store::open` it returns the connection with its error: `OtherSchema` if `meta` gives a number that no schema has,
/// `NoState` if the tables otherwise are those of no schema, or the rows stand for no state, `Fault` if the database
/// fails or has tables but no `meta` with its columns, and `Memory` if memory runs out.
pub fn migrate<S: Alter>(
    alloc: Global,
    mut conn: Connection<S>,
) -> Result<Store<S>, (Connection<S>, StoreError)>
    requires { conn.in_transaction ≡ false }
    ensures ok { IfOk result (Migrated S.Store conn) }
    ensures err { IfErr result (λ e. Unmigrated S.Store conn e.0 e.1) }
{
    // Outside a transaction, the connection shows what it last committed.
    prove!(conn.is_autocommit());
    match migrate_tables(alloc, &mut conn) {
        Ok(()) => Ok(Store::over(alloc, conn)),
        Err(error) => Err((conn, error)),
    }
}
