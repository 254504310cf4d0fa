//! Disks that fail at some call and come back: what was reported is stored, and no command is stored in part.

ghost use Rattle.std.specs.Prelude.{IsTrue};

use crate::checked::{Ended, check_zones_left, open_and_run};
use smpe::reopen;
use smpe_play::{installed_files, open_files};
use sqlite::{Connection, FileStore, Files, Options};
use sqlite_disk::{Crash, Disk, Fuse};
use std::alloc::Global;
use std::test::Fail;

/// The file whose disk fails.
#[derive(Clone, Copy)]
enum Fused {
    Log,
    Database,
}

// Runs the job over files whose disks may fail, and opens the files again once the disks are back.
fn run_and_reopen<D: Crash + Drop>(
    alloc: Global,
    files: Files<D>,
    report: &mut Vec<u8>,
) -> Result<(Connection<FileStore<D>>, Ended), Fail>
    requires log { IsTrue (D.Disk.is_usable files.log) }
    requires db { IsTrue (D.Disk.is_usable files.db) }
{
    match Connection::open_files(alloc, files, Options::new(1)) {
        Ok(conn) => {
            let (conn, how) = open_and_run(alloc, conn, report)?;
            match reopen(alloc, conn, Options::new(1)) {
                Ok(store) => Ok((store.close(), how)),
                Err((_files, error)) => Err(Fail::from(error)),
            }
        }
        Err((_error, left)) => {
            let mut files = left.into_files();
            files.log.crash();
            files.db.crash();
            Ok((open_files(alloc, files)?, Ended::Stopped))
        }
    }
}

// Runs the job over files whose disks may fail, and checks what is stored once they are back. Returns how the job
// ended.
fn check_over_files<D: Crash + Drop>(alloc: Global, files: Files<D>) -> Result<Ended, Fail>
    requires log { IsTrue (D.Disk.is_usable files.log) }
    requires db { IsTrue (D.Disk.is_usable files.db) }
{
    let mut report = Vec::new(alloc);
    let (conn, how) = run_and_reopen(alloc, files, &mut report)?;
    check_zones_left(alloc, conn, report.as_slice(), how)?;
    Ok(how)
}

// Runs and checks the job over the connection's files, with one of their disks failing after so many calls.
fn check_with_fuse<D: Crash + Drop>(
    alloc: Global,
    conn: Connection<FileStore<D>>,
    fused: Fused,
    calls: u64,
) -> Result<Ended, Fail> {
    let (in_log, in_db) = match fused {
        Fused::Log => (calls, u64::MAX),
        Fused::Database => (u64::MAX, calls),
    };
    match conn.close_files() {
        Ok(Files { log, db }) => {
            let log = Fuse::new(log, in_log);
            let db = Fuse::new(db, in_db);
            check_over_files(alloc, Files { log, db })
        }
        Err((error, _store)) => Err(Fail::from(error)),
    }
}

// Runs and checks the job with a disk that fails at its first call, at its second and so on, until the job ends without
// a failure. Each run is over new disks on which the function is installed.
fn check_each_call(alloc: Global, fused: Fused) -> Result<(), Fail> {
    for calls in 0..10_000u64 {
        if check_with_fuse(alloc, installed_files(alloc)?, fused, calls)? == Ended::Well {
            return Ok(());
        }
    }
    Err(Fail::from("the job does not end with ten thousand calls of a disk"))
}

#[test]
fn a_failing_log_leaves_no_command_in_part(rt: HostRuntime) -> Result<(), Fail> {
    check_each_call(rt.alloc(), Fused::Log)
}

#[test]
fn a_failing_database_leaves_no_command_in_part(rt: HostRuntime) -> Result<(), Fail> {
    check_each_call(rt.alloc(), Fused::Database)
}
