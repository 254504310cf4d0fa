//! Databases of earlier schemas: migrated whole, or left as they are.

ghost use Rattle.std.specs.Prelude.{IsTrue};

use sqlite::{Alter, Connection, Files, Options};
use sqlite_disk::{Crash, Disk, Fuse};
use std::alloc::Global;
use std::test::Fail;
use store_migration::migrate;
use store_play::{
    SOURCES, all_lines, close, compare, fill_without_sources, first_difference, open_in_memory,
    open_known_rows, open_new_files, reopen, run_all, shared_lines,
};
use store_schema::StoreError;

/// The tables of schema 1, as programs before release 1.0.0 created them.
const FIRST: &str =
    "CREATE TABLE meta (k TEXT NOT NULL, v INTEGER NOT NULL, PRIMARY KEY (k)) STRICT; CREATE TABLE sysmod (id TEXT \
    NOT NULL, kind TEXT NOT NULL, sources TEXT NOT NULL, PRIMARY KEY (id)) STRICT; CREATE TABLE ver (id TEXT NOT \
    NULL, srel TEXT NOT NULL, fmid TEXT, pre TEXT NOT NULL, req TEXT NOT NULL, sup TEXT NOT NULL, npre TEXT NOT NULL, \
    del TEXT NOT NULL, PRIMARY KEY (id, srel), FOREIGN KEY (id) REFERENCES sysmod (id) ON DELETE CASCADE) STRICT; \
    CREATE TABLE ifreq (id TEXT NOT NULL, srel TEXT NOT NULL, n INTEGER NOT NULL, fmid TEXT NOT NULL, req TEXT NOT \
    NULL, PRIMARY KEY (id, srel, n), FOREIGN KEY (id) REFERENCES sysmod (id) ON DELETE CASCADE) STRICT; CREATE TABLE \
    hold (id TEXT NOT NULL, kind TEXT NOT NULL, reason TEXT NOT NULL, fmid TEXT NOT NULL, class TEXT, date TEXT, \
    comment TEXT, internal INTEGER NOT NULL, PRIMARY KEY (id, kind, reason)) STRICT; CREATE TABLE elem (id TEXT NOT \
    NULL, type TEXT NOT NULL, name TEXT NOT NULL, upd INTEGER NOT NULL, distlib TEXT, syslib TEXT, text BLOB NOT \
    NULL, PRIMARY KEY (id, type, name), FOREIGN KEY (id) REFERENCES sysmod (id) ON DELETE CASCADE) STRICT; CREATE \
    TABLE zone (name TEXT NOT NULL, kind TEXT NOT NULL, srel TEXT NOT NULL, related TEXT, PRIMARY KEY (name)) STRICT; \
    CREATE TABLE entry (zone TEXT NOT NULL, id TEXT NOT NULL, date TEXT, supby TEXT NOT NULL, delby TEXT, waived TEXT \
    NOT NULL, PRIMARY KEY (zone, id), FOREIGN KEY (zone) REFERENCES zone (name)) STRICT; CREATE TABLE zelem (zone \
    TEXT NOT NULL, type TEXT NOT NULL, name TEXT NOT NULL, fmid TEXT NOT NULL, rmid TEXT NOT NULL, umid TEXT NOT \
    NULL, distlib TEXT NOT NULL, syslib TEXT NOT NULL, text BLOB NOT NULL, PRIMARY KEY (zone, type, name), FOREIGN \
    KEY (zone) REFERENCES zone (name)) STRICT; INSERT INTO meta (k, v) VALUES ('schema', 1)";

/// What schema 2 has in addition.
const SECOND: &str =
    "CREATE TABLE source (id TEXT NOT NULL, name TEXT NOT NULL, PRIMARY KEY (id, name), \
    FOREIGN KEY (id) REFERENCES sysmod (id) ON DELETE CASCADE) STRICT; \
    UPDATE meta SET v = 2";

/// The sources under schema 1, joined in a column.
const JOINED: &[&str] = &[
    "UPDATE sysmod SET sources = 'PUT2401,SMCREC01' WHERE id = 'HAA1200'",
    "UPDATE sysmod SET sources = 'PUT2401' WHERE id = 'UAA0001'",
];

// The known rows under an earlier schema: after these statements, with these sources.
fn earlier<S: Alter + Drop>(
    alloc: Global,
    mut conn: Connection<S>,
    tables: &[&str],
    sources: &[&str],
) -> Result<Connection<S>, Fail> {
    for sql in tables {
        conn.execute_batch(sql)?;
    }
    fill_without_sources(alloc, &mut conn)?;
    run_all(&mut conn, sources)?;
    Ok(conn)
}

// The known rows under schema 1.
fn first<S: Alter + Drop>(alloc: Global, conn: Connection<S>) -> Result<Connection<S>, Fail> {
    earlier(alloc, conn, &[FIRST], JOINED)
}

// The connection after a migration, and how it ended.
fn migrated<S: Alter + Drop>(
    alloc: Global,
    conn: Connection<S>,
) -> Result<(Connection<S>, Option<StoreError>), Fail> {
    if !conn.is_autocommit() {
        return Err(Fail::from("a transaction is under way"));
    }
    match migrate(alloc, conn) {
        Ok(store) => Ok((store.close(), None)),
        Err((conn, error)) => Ok((conn, Some(error))),
    }
}

// All rows after a migration that must succeed.
fn rows_taken<S: Alter + Drop>(alloc: Global, conn: Connection<S>) -> Result<String, Fail> {
    let (mut conn, fault) = migrated(alloc, conn)?;
    match fault {
        None => all_lines(alloc, &mut conn),
        Some(error) => Err(Fail::from(error)),
    }
}

// All rows that the store itself writes.
fn own_rows(alloc: Global) -> Result<String, Fail> {
    let mut conn = open_known_rows(alloc, &[])?;
    all_lines(alloc, &mut conn)
}

// All rows after a migration are the store's own.
fn check_taken<S: Alter + Drop>(
    alloc: Global,
    name: &str,
    conn: Connection<S>,
) -> Result<(), Fail> {
    let rows = rows_taken(alloc, conn)?;
    compare(name, rows.as_str(), own_rows(alloc)?.as_str())
}

#[test]
fn earlier_rows_become_the_stores_own(rt: HostRuntime) -> Result<(), Fail> {
    let alloc = rt.alloc();
    check_taken(alloc, "schema 1", first(alloc, open_in_memory(alloc)?)?)?;
    let second = earlier(alloc, open_in_memory(alloc)?, &[FIRST, SECOND], SOURCES)?;
    check_taken(alloc, "schema 2", second)?;
    check_taken(alloc, "schema 3", open_known_rows(alloc, &[])?)
}

#[test]
fn a_blank_database_gets_tables(rt: HostRuntime) -> Result<(), Fail> {
    let rows = rows_taken(rt.alloc(), open_in_memory(rt.alloc())?)?;
    compare("a blank database", rows.as_str(), "schema/3\n")
}

#[test]
fn files_are_closed_and_opened_between(rt: HostRuntime) -> Result<(), Fail> {
    let alloc = rt.alloc();
    let earlier = reopen(alloc, first(alloc, open_new_files(alloc)?)?)?;
    let (conn, fault) = migrated(alloc, earlier)?;
    assert_eq!(rt; fault, None);
    check_taken(alloc, "migrated twice", reopen(alloc, conn)?)
}

/// Edits of a database of schema 1 after which its rows stand for no state, in whichever zone they are.
const BAD: &[&str] = &[
    "UPDATE sysmod SET sources = 'PUT240123' WHERE id = 'UAA0001'",
    "UPDATE sysmod SET sources = 'PUT2402,PUT2401' WHERE id = 'UAA0001'",
    "UPDATE sysmod SET sources = 'PUT2401,' WHERE id = 'UAA0001'",
    "UPDATE sysmod SET kind = 'ptf' WHERE id = 'UAA0001'",
    "UPDATE ver SET pre = 'LLL0001' WHERE id = 'UAA0001' AND srel = 'Z038'",
    "DELETE FROM ver WHERE id = 'AAA0003'",
    "UPDATE ifreq SET n = 3 WHERE n = 2",
    "UPDATE elem SET type = 'mac' WHERE id = 'HAA1100' AND type = 'MAC'",
    "UPDATE hold SET date = '24000' WHERE kind = 'ERROR'",
    "UPDATE zone SET kind = 'dlib' WHERE name = 'TGT1'",
    "UPDATE zone SET related = 'DLB3' WHERE name = 'TGT2'",
    "UPDATE entry SET date = '' WHERE zone = 'DLB1'",
    "UPDATE entry SET waived = 'UAA0001' WHERE zone = 'TGT1' AND id = 'HAA1000'",
    "UPDATE zelem SET fmid = '' WHERE zone = 'DLB1'",
    "UPDATE zelem SET umid = 'UAA0002,UAA0001' WHERE zone = 'TGT1' AND name = 'MAC2'",
    "INSERT INTO meta (k, v) VALUES ('other', 1)",
    "CREATE TABLE other (k TEXT)",
];

/// Edits after which the number is no schema's.
const UNKNOWN: &[&str] = &["UPDATE meta SET v = 0", "UPDATE meta SET v = 4"];

// The answer for the database of schema 1 with this edit, and whether its rows stay.
fn told_of(alloc: Global, sql: &str) -> Result<(Option<StoreError>, bool), Fail> {
    let mut conn = first(alloc, open_in_memory(alloc)?)?;
    conn.execute_batch(sql)?;
    let before = shared_lines(alloc, &mut conn)?;
    let (mut conn, fault) = migrated(alloc, conn)?;
    let after = shared_lines(alloc, &mut conn)?;
    Ok((fault, before.as_str() == after.as_str()))
}

// The database gives this answer with each of these edits, and its rows stay.
fn check_told(alloc: Global, edits: &[&str], wanted: StoreError) -> Result<(), Fail> {
    for sql in edits {
        let (told, is_same) = told_of(alloc, sql)?;
        if told != Some(wanted) || !is_same {
            return Err(Fail::new(format_args!(
                "{sql}: got {told:?} and {is_same}, wanted {wanted:?} and the same rows"
            )));
        }
    }
    Ok(())
}

#[test]
fn other_databases_stay_as_they_are(rt: HostRuntime) -> Result<(), Fail> {
    check_told(rt.alloc(), BAD, StoreError::NoState)?;
    check_told(rt.alloc(), UNKNOWN, StoreError::OtherSchema)
}

// Migrates over these files, and returns them as they are, with whether it succeeded.
fn migrated_on<D: Disk + Drop>(alloc: Global, files: Files<D>) -> Result<(Files<D>, bool), Fail>
    requires log { IsTrue (D.Disk.is_usable files.log) }
    requires db { IsTrue (D.Disk.is_usable files.db) }
{
    match Connection::open_files(alloc, files, Options::new(1)) {
        Ok(conn) => {
            let (conn, fault) = migrated(alloc, conn)?;
            Ok((conn.into_store().close(), fault.is_none()))
        }
        Err((_error, left)) => Ok((left.into_files(), false)),
    }
}

// The disks come back. A second migration finds all rows, and so does anyone to whom the first one reported success.
fn rows_behind<D: Crash + Drop>(alloc: Global, mut files: Files<D>) -> Result<String, Fail> {
    files.log.crash();
    files.db.crash();
    match Connection::open_files(alloc, files, Options::new(1)) {
        Ok(conn) => rows_taken(alloc, conn),
        Err((error, _left)) => Err(Fail::from(error)),
    }
}

// The rows after a migration over disks that fail at the next of so many calls, and whether it succeeded.
fn over_fused(alloc: Global, in_log: u64, in_db: u64) -> Result<(String, bool), Fail> {
    let Files { log, db } = close(first(alloc, open_new_files(alloc)?)?)?;
    let log = Fuse::new(log, in_log);
    let db = Fuse::new(db, in_db);
    let (files, went_well) = migrated_on(alloc, Files { log, db })?;
    Ok((rows_behind(alloc, files)?, went_well))
}

// Whether a migration with so many calls or steps succeeded. The rows after it must be these.
fn went_well(count: u64, behind: (String, bool), wanted: &str) -> Result<bool, Fail> {
    let (rows, went_well) = behind;
    if rows.as_str() == wanted {
        return Ok(went_well);
    }
    let (got, wanted) = first_difference(rows.as_str(), wanted);
    Err(Fail::new(format_args!("{count} calls or steps: got {got:?}, wanted {wanted:?}")))
}

#[test]
fn no_row_is_lost_where_a_disk_fails(rt: HostRuntime) -> Result<(), Fail> {
    let wanted = own_rows(rt.alloc())?;
    for calls in 0..10_000u64 {
        let with_log = over_fused(rt.alloc(), calls, u64::MAX)?;
        let is_log_well = went_well(calls, with_log, wanted.as_str())?;
        let with_db = over_fused(rt.alloc(), u64::MAX, calls)?;
        let is_db_well = went_well(calls, with_db, wanted.as_str())?;
        if is_log_well && is_db_well {
            return Ok(());
        }
    }
    Err(Fail::from("the migration does not end with ten thousand calls of a disk"))
}

// The rows once a migration with so many steps for each query has ended, and another without a limit, and whether the
// first one succeeded.
fn with_limit(alloc: Global, steps: u64) -> Result<(String, bool), Fail> {
    let mut conn = first(alloc, open_in_memory(alloc)?)?;
    conn.set_step_limit(Some(steps));
    let (mut conn, fault) = migrated(alloc, conn)?;
    conn.set_step_limit(None);
    Ok((rows_taken(alloc, conn)?, fault.is_none()))
}

#[test]
fn no_row_is_lost_where_steps_run_out(rt: HostRuntime) -> Result<(), Fail> {
    let wanted = own_rows(rt.alloc())?;
    let mut steps = 1_u64;
    for _ in 0..40 {
        if went_well(steps, with_limit(rt.alloc(), steps)?, wanted.as_str())? {
            return Ok(());
        }
        steps = steps.saturating_mul(2);
    }
    Err(Fail::from("the migration does not end"))
}
