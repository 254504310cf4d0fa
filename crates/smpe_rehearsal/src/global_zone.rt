//! The global zone of the system of a rehearsal.
ghost use Rattle.std.specs.Prelude.{◌≡◌, false};
ghost use Rattle.smpe_rehearsal.specs.Prepared.{HasGlobal, LoadsFrom, LoadsGlobal};

use crate::memory_files::connect_in_memory;
use crate::values::{DatabaseBytes, System};
use sqlite::{Alter, Connection};
use sqlite_disk::{Disk, Memory};
use std::alloc::Global;
use store::{Store, StoreError};
use sysmods::GlobalZone;

/// The global zone of the system. Returns the error of the store that a copy of a database cannot be or be read as.
pub(crate) fn global_of(alloc: Global, system: &System) -> Result<GlobalZone, StoreError>
    ensures { HasGlobal ⟦<Memory as Disk>⟧ system.now result }
{
    match system {
        System::Empty(_) => Ok(GlobalZone::new(alloc)),
        System::Copied { bytes, .. } => load_global_of_copy(alloc, bytes),
    }
}

// The global zone of a copy in memory of files with these bytes.
fn load_global_of_copy(alloc: Global, bytes: &DatabaseBytes) -> Result<GlobalZone, StoreError>
    ensures { LoadsGlobal ⟦<Memory as Disk>⟧ bytes.now.db.items bytes.now.log.items result }
{
    let conn = connect_in_memory(alloc, bytes.db.as_slice(), bytes.log.as_slice())?;
    load_global_of_connection(alloc, conn)
}

// Opens the store of the connection, loads its global zone, and drops the connection.
fn load_global_of_connection<S: Alter + Drop>(
    alloc: Global,
    conn: Connection<S>,
) -> Result<GlobalZone, StoreError>
    requires { conn.in_transaction ≡ false }
    ensures { LoadsFrom S.Store conn result }
{
    match Store::open(alloc, conn) {
        Ok(mut store) => {
            let global = store.load_global();
            drop(store.close());
            global
        }
        Err((conn, error)) => {
            drop(conn);
            Err(error)
        }
    }
}
