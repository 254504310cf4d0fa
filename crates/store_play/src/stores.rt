//! Stores over the known rows, in memory and over files, and commits to them.

ghost use Rattle.std.specs.Prelude.{IsTrue, IfOk};
ghost use Rattle.sqlite_disk.specs.Memory.{memory_is_usable};

use crate::rows::{SOURCES, fill_without_sources, run_all};
use fields::ZoneName;
use sqlite::{Alter, Connection, Error, FileStore, Files, MemStore, Options};
use sqlite_disk::Memory;
use std::alloc::Global;
use std::test::Fail;
use store::{Change, Store};
use sysmods::{GlobalEdit, GlobalZone};
use zones_maps::{Zone, ZoneDelta, ZoneEdits};

/// The seed of the log's random numbers. In memory any will do.
const SEED: u64 = 1;

/// The zone of this name, which must exist.
pub fn load_zone<S: Alter>(store: &mut Store<S>, name: ZoneName) -> Result<Zone, Fail> {
    Ok(store.load_zone(name)?.ok_or("no such zone")?)
}

/// Commits these edits of the zone of this name, which is loaded first.
pub fn commit_zone<S: Alter>(
    alloc: Global,
    store: &mut Store<S>,
    name: ZoneName,
    edits: ZoneEdits,
) -> Result<(), Fail> {
    let zone = load_zone(store, name)?;
    let delta = ZoneDelta::from_edits(alloc, edits, &zone)?;
    Ok(store.commit(&Change::Zone(name, delta))?)
}

/// Commits edits of the global zone that insert no SYSMOD, so that no statements are needed.
pub fn commit_edits<S: Alter>(
    alloc: Global,
    store: &mut Store<S>,
    edits: Vec<GlobalEdit>,
) -> Result<(), Fail> {
    let stated = GlobalZone::new(alloc);
    Ok(store.commit(&Change::Global(&stated, edits))?)
}

/// Opens the store over the connection.
pub fn open_store<S: Alter + Drop>(alloc: Global, conn: Connection<S>) -> Result<Store<S>, Fail> {
    if !conn.is_autocommit() {
        return Err(Fail::from("a transaction is under way"));
    }
    match Store::open(alloc, conn) {
        Ok(store) => Ok(store),
        Err((_, error)) => Err(Fail::from(error)),
    }
}

// Creates the tables in a database that has none, and fills them with the known rows.
fn fill_known_rows<S: Alter + Drop>(
    alloc: Global,
    conn: Connection<S>,
) -> Result<Connection<S>, Fail> {
    let mut conn = open_store(alloc, conn)?.close();
    fill_without_sources(alloc, &mut conn)?;
    run_all(&mut conn, SOURCES)?;
    Ok(conn)
}

/// A connection to a new database in memory.
pub fn open_in_memory(alloc: Global) -> Result<Connection<MemStore>, Fail> {
    Ok(Connection::open_in_memory(alloc)?)
}

/// A connection to a database in memory with the known rows, and those that these statements insert.
pub fn open_known_rows(alloc: Global, statements: &[&str]) -> Result<Connection<MemStore>, Fail> {
    let mut conn = fill_known_rows(alloc, open_in_memory(alloc)?)?;
    run_all(&mut conn, statements)?;
    Ok(conn)
}

/// The text as the name of a zone, which it must be.
pub fn zone_name(text: &[u8]) -> Result<ZoneName, Fail> {
    Ok(ZoneName::read(text).ok_or("no name of a zone")?)
}

// A connection to a database in these files.
fn open_files(
    alloc: Global,
    log: Memory,
    db: Memory,
) -> Result<Connection<FileStore<Memory>>, Error>
    requires { IsTrue (memory_is_usable log) × IsTrue (memory_is_usable db) }
{
    match Connection::open_files(alloc, Files { log, db }, Options::new(SEED)) {
        Ok(conn) => Ok(conn),
        Err((error, _)) => Err(error),
    }
}

/// A connection to a new database in files.
pub fn open_new_files(alloc: Global) -> Result<Connection<FileStore<Memory>>, Error> {
    open_files(alloc, Memory::new(alloc), Memory::new(alloc))
}

/// The files of the connection, once it is closed.
pub fn close(conn: Connection<FileStore<Memory>>) -> Result<Files<Memory>, Error>
    ensures { IfOk result (λ files. IsTrue (memory_is_usable files.log) × IsTrue (memory_is_usable files.db)) }
{
    match conn.close_files() {
        Ok(files) => Ok(files),
        Err(failed) => Err(failed.0),
    }
}

/// Closes the connection, and opens another one to its files.
pub fn reopen(
    alloc: Global,
    conn: Connection<FileStore<Memory>>,
) -> Result<Connection<FileStore<Memory>>, Error> {
    let closed = close(conn)?;
    open_files(alloc, closed.log, closed.db)
}
