//! Jobs over the database of a name, and what is asked about it. The database is closed afterwards, even if it is
//! refused.
ghost use Rattle.std.specs.Prelude.{IfOk, IfErr};
ghost use Rattle.std.specs.String.{string_bytes};
ghost use Rattle.smpe_jobs.specs.Ending.{job_of};
ghost use Rattle.smpe_command.specs.Database.{FailsToOpen, FoundOver, JobOver, MigratesOver, NamesOver};
ghost use Rattle.smpe_command.specs.Database.{Opens, VerifiedOver};

use crate::host::Host;
use fields::ZoneName;
use report::Sink;
use smpe::{Answer, DatabaseFile, Job, JobError, run_jobs};
use smpe_verify::{Verification, verify};
use smpe_why::{LoadedZones, load_zones};
use std::alloc::Global;
use std::slice;
use store::{Store, StoreError};
use store_migration::migrate;

/// Runs the job over the database, and returns how it ended. The errors are those of `run_jobs`, or why the database
/// was not opened.
pub(crate) fn run_job_in_database<H: Host, O: Sink>(
    alloc: Global,
    host: &mut H,
    db: &DatabaseFile,
    job: &Job<'_>,
    out: &mut O,
) -> Result<Answer, JobError>
    ensures { JobOver H.Host H.Disk.Store O.Sink host.old (string_bytes db.now.name) (job_of job.now) out.old result
        host.new out.new }
{
    let mut store = open_store(alloc, host, db)?;
    let answers = run_jobs(alloc, &mut store, slice::from_ref(job), out);
    host.close(&mut Some(store.close()));
    // (one job has one answer)
    Ok(answers?[0])
}

/// Loads the global zone, the zone of this name, and the target zone at which an ACCEPT there also looks. It changes
/// nothing, except that a database that is missing or blank gets its tables. Returns an error if the database cannot be
/// opened or read.
pub(crate) fn load_zones_of_database<H: Host>(
    alloc: Global,
    host: &mut H,
    db: &DatabaseFile,
    name: ZoneName,
) -> Result<LoadedZones, StoreError>
    ensures { FoundOver H.Host H.Disk.Store host.old (string_bytes db.now.name) name result host.new }
{
    let mut store = open_store(alloc, host, db)?;
    let zones = load_zones(&mut store, name);
    host.close(&mut Some(store.close()));
    zones
}

/// Loads the names of all zones. What it changes, and its errors, are as with `load_zones_of_database`.
pub(crate) fn load_zone_names<H: Host>(
    alloc: Global,
    host: &mut H,
    db: &DatabaseFile,
) -> Result<Vec<ZoneName>, StoreError>
    ensures { NamesOver H.Host H.Disk.Store host.old (string_bytes db.now.name) result host.new }
{
    let mut store = open_store(alloc, host, db)?;
    let names = store.zone_names();
    host.close(&mut Some(store.close()));
    names
}

/// Loads one zone after the other until one is not closed. What it changes, and its errors, are as with
/// `load_zones_of_database`.
pub(crate) fn verify_database<H: Host>(
    alloc: Global,
    host: &mut H,
    db: &DatabaseFile,
) -> Result<Verification, StoreError>
    ensures { VerifiedOver H.Host H.Disk.Store host.old (string_bytes db.now.name) result host.new }
{
    let mut store = open_store(alloc, host, db)?;
    let verification = verify(alloc, &mut store);
    host.close(&mut Some(store.close()));
    verification
}

/// Migrates the tables of a database to the store's schema, and closes it, also after an error.
pub(crate) fn migrate_database<H: Host>(
    alloc: Global,
    host: &mut H,
    db: &DatabaseFile,
) -> Result<(), StoreError>
    ensures { MigratesOver H.Host H.Disk.Store host.old (string_bytes db.now.name) result host.new }
{
    let conn = host.open(db)?;
    match migrate(alloc, conn) {
        Ok(store) => {
            host.close(&mut Some(store.close()));
            Ok(())
        }
        Err((conn, error)) => {
            host.close(&mut Some(conn));
            Err(error)
        }
    }
}

// Opens the database, or creates it, and the store over it. A database that the store refuses is closed.
fn open_store<H: Host>(
    alloc: Global,
    host: &mut H,
    db: &DatabaseFile,
) -> Result<Store<H::Disk>, StoreError>
    ensures ok { IfOk result (λ store. Opens H.Host H.Disk.Store host.old (string_bytes db.now.name) store host.new) }
    ensures err { IfErr result (λ why. FailsToOpen H.Host H.Disk.Store host.old (string_bytes db.now.name) why
        host.new) }
{
    let conn = host.open(db)?;
    match Store::open(alloc, conn) {
        Ok(store) => Ok(store),
        Err((conn, error)) => {
            host.close(&mut Some(conn));
            Err(error)
        }
    }
}
