//! Connections to databases in memory and to files on disks in memory, and stores over them.

ghost use Rattle.std.specs.Prelude.{IsTrue};

use sqlite::{Alter, Connection, FileStore, Files, MemStore, Options};
use sqlite_disk::{Disk, Memory};
use std::alloc::Global;
use std::test::Fail;
use store::Store;

/// A connection to the database in the files.
pub fn open_files<D: Disk + Drop>(
    alloc: Global,
    files: Files<D>,
) -> Result<Connection<FileStore<D>>, Fail>
    requires log { IsTrue (D.Disk.is_usable files.log) }
    requires db { IsTrue (D.Disk.is_usable files.db) }
{
    match Connection::open_files(alloc, files, Options::new(1)) {
        Ok(conn) => Ok(conn),
        Err((error, _left)) => Err(Fail::from(error)),
    }
}

/// A connection to new files.
pub fn open_new_files(alloc: Global) -> Result<Connection<FileStore<Memory>>, Fail> {
    let log = Memory::new(alloc);
    let db = Memory::new(alloc);
    open_files(alloc, Files { log, db })
}

/// A connection to a new database in memory.
pub fn open_in_memory(alloc: Global) -> Result<Connection<MemStore>, Fail> {
    Ok(Connection::open_in_memory(alloc)?)
}

/// Closes the files and opens them again.
pub(crate) fn reopen_files(
    alloc: Global,
    conn: Connection<FileStore<Memory>>,
) -> Result<Connection<FileStore<Memory>>, Fail> {
    match conn.close_files() {
        Ok(files) => open_files(alloc, files),
        Err((error, _store)) => Err(Fail::from(error)),
    }
}

/// A store over the connection. A failure begins with this name.
pub fn open_store<S: Alter + Drop>(
    alloc: Global,
    conn: Connection<S>,
    name: &str,
) -> Result<Store<S>, Fail> {
    if !conn.is_autocommit() {
        return Err(Fail::new(format_args!("{name}: a transaction is under way")));
    }
    match Store::open(alloc, conn) {
        Ok(store) => Ok(store),
        Err((_conn, error)) => Err(Fail::new(format_args!("{name}: {error:?}"))),
    }
}
