//! A database over files in memory.
ghost use Rattle.std.specs.Prelude.{◌≡◌, false, IsTrue, IfOk, IfErr};
ghost use Rattle.sqlite.specs.Opening.{is_open_error};
ghost use Rattle.sqlite.specs.declared.error.Error.{Error};
ghost use Rattle.sqlite_disk.specs.Memory.{memory_bytes, memory_is_usable};
ghost use Rattle.store_schema.specs.Known.{told};
ghost use Rattle.smpe_rehearsal.specs.Copied.{IsCopy};

use sqlite::{Connection, Error, ErrorCode, FileStore, Files, Options};
use sqlite_disk::{Disk, Memory};
use std::alloc::Global;
use store::StoreError;

// The seed that `sqlite` takes for each connection: any other would do.
const SEED: u64 = 1;

/// Connects to a copy in memory of a database whose file and log have these bytes. What is written stays in memory. An
/// error of the database library becomes one of the store.
pub(crate) fn connect_in_memory(
    alloc: Global,
    db: &[u8],
    log: &[u8],
) -> Result<Connection<FileStore<Memory>>, StoreError>
    ensures ok { IfOk result (IsCopy db.now log.now) }
    ensures mode { IfOk result (λ conn. conn.in_transaction ≡ false) }
    ensures err { IfErr result (λ why. (error : Error) × IsTrue (is_open_error error) × (why ≡ told error)) }
{
    Ok(open_files(alloc, memory_file(alloc, db)?, memory_file(alloc, log)?)?)
}

// Opens a connection over these two files. The error says why they are not a database.
fn open_files(
    alloc: Global,
    db: Memory,
    log: Memory,
) -> Result<Connection<FileStore<Memory>>, Error>
    requires db { IsTrue (memory_is_usable db) }
    requires log { IsTrue (memory_is_usable log) }
    ensures ok { IfOk result (IsCopy (memory_bytes db) (memory_bytes log)) }
    ensures err { IfErr result (λ why. IsTrue (is_open_error why)) }
{
    match Connection::open_files(alloc, Files { log, db }, Options::new(SEED)) {
        Ok(conn) => Ok(conn),
        Err((error, _)) => Err(error),
    }
}

// A file in memory that has these bytes. Returns `OutOfMemory` if memory runs out.
fn memory_file(alloc: Global, bytes: &[u8]) -> Result<Memory, Error>
    ensures bytes { IfOk result (λ file. memory_bytes file ≡ bytes.now) }
    ensures usable { IfOk result (λ file. IsTrue (memory_is_usable file)) }
    ensures err { IfErr result (λ why. IsTrue (is_open_error why)) }
{
    let mut file = Memory::new(alloc);
    match file.write_at(0, bytes) {
        Ok(()) => Ok(file),
        Err(_) => Err(Error::SqliteFailure(ErrorCode::OutOfMemory)),
    }
}
