//! A package is received in a system, and the zones are loaded that an install then looks at.
ghost use Rattle.std.specs.Prelude.{◌≡◌, map, false};
ghost use Rattle.sqlite.specs.Held.{Held};
ghost use Rattle.smpe_jobs.specs.Ending.{job_of};
ghost use Rattle.smpe_rehearsal.specs.Opened.{IsStoreOver};
ghost use Rattle.smpe_rehearsal.specs.Rehearsed.{Rehearses, RehearsesBytes, RehearsesNew, RehearsesOver};
ghost use Rattle.smpe_rehearsal.specs.Rehearsed.{RehearsedOver, new_jobs, receive_job};
ghost use Rattle.smpe_rehearsal.specs.ServiceSet.{receive_records};

use crate::memory_files::connect_in_memory;
use crate::no_report::NoReport;
use crate::service_set::greatest_status;
use crate::values::{DatabaseBytes, Prepared, Rehearsal, System};
use fields::{Srel, ZoneName};
use smpe::{Job, JobError, run_jobs};
use smpe_why::{LoadedZones, load_zones};
use sqlite::{Alter, Connection};
use sqlite_disk::{Disk, Memory};
use std::alloc::Global;
use store::Store;
use terms::ZoneKind;

/// A system after RECEIVE of a package.
#[derive(Drop)]
pub struct Rehearsed {
    pub zones: LoadedZones,
    /// The status with which it was received.
    pub status: u8,
}

/// Receives the package in the system, and loads the zones. The report of RECEIVE goes nowhere.
pub fn rehearse_package(
    alloc: Global,
    system: &System,
    prepared: &Prepared,
) -> Result<Rehearsed, JobError>
    requires { prepared.now.jobs.receive.items ≡ receive_records }
    ensures { Rehearses ⟦<Memory as Disk>⟧ system.now prepared.now result }
{
    match system {
        System::Empty(srel) => receive_in_empty_system(alloc, *srel, &prepared.jobs),
        System::Copied { bytes, zone } => receive_over_bytes(alloc, bytes, *zone, &prepared.jobs),
    }
}

// Defines the zones, receives the package in an empty system, and loads the zones.
fn receive_in_empty_system(
    alloc: Global,
    srel: Srel,
    rehearsal: &Rehearsal,
) -> Result<Rehearsed, JobError>
    requires { rehearsal.now.receive.items ≡ receive_records }
    ensures { RehearsesNew (new_jobs srel rehearsal.now.date
        (record { ptfin = rehearsal.now.files.ptfin.items; holds = rehearsal.now.files.hold.items })) result }
{
    let distribution = ZoneName::read(b"DLIB").unwrap();
    let target = ZoneName::read(b"TGT").unwrap();
    let date = rehearsal.date;
    let cntl = rehearsal.receive.as_slice();
    let ptfin = rehearsal.files.ptfin.as_slice();
    let hold = rehearsal.files.hold.as_slice();
    let jobs = [
        Job::Zone {
            name: distribution,
            kind: ZoneKind::Distribution,
            srel,
            related: None,
        },
        Job::Zone {
            name: target,
            kind: ZoneKind::Target,
            srel,
            related: Some(distribution),
        },
        Job::Run {
            date,
            cntl,
            ptfin,
            hold,
        },
    ];
    let conn = Connection::open_in_memory(alloc)?;
    rehearse_connection(alloc, conn, &jobs, target)
}

// Receives the package in a copy of files with these bytes, and loads the zones.
fn receive_over_bytes(
    alloc: Global,
    bytes: &DatabaseBytes,
    zone: ZoneName,
    rehearsal: &Rehearsal,
) -> Result<Rehearsed, JobError>
    requires { rehearsal.now.receive.items ≡ receive_records }
    ensures { RehearsesBytes ⟦<Memory as Disk>⟧ bytes.now.db.items bytes.now.log.items zone (receive_job
        rehearsal.now.date
        (record { ptfin = rehearsal.now.files.ptfin.items; holds = rehearsal.now.files.hold.items })) result }
{
    let jobs = [Job::Run {
        date: rehearsal.date,
        cntl: rehearsal.receive.as_slice(),
        ptfin: rehearsal.files.ptfin.as_slice(),
        hold: rehearsal.files.hold.as_slice(),
    }];
    let conn = connect_in_memory(alloc, bytes.db.as_slice(), bytes.log.as_slice())?;
    rehearse_connection(alloc, conn, &jobs, zone)
}

// Opens the store of the connection, runs the jobs over it, loads the zones, and drops the connection.
fn rehearse_connection<S: Alter + Drop>(
    alloc: Global,
    conn: Connection<S>,
    jobs: &[Job<'_>],
    zone: ZoneName,
) -> Result<Rehearsed, JobError>
    requires { conn.in_transaction ≡ false }
    ensures { RehearsesOver S.Store zone (map job_of jobs.now) conn result }
{
    match Store::open(alloc, conn) {
        Ok(mut store) => {
            let rehearsed = run_and_load(alloc, &mut store, jobs, zone);
            drop(store.close());
            rehearsed
        }
        Err((conn, error)) => {
            drop(conn);
            Err(JobError::from(error))
        }
    }
}

// Runs the jobs over the store, and loads the zones.
fn run_and_load<S: Alter>(
    alloc: Global,
    store: &mut Store<S>,
    jobs: &[Job<'_>],
    zone: ZoneName,
) -> Result<Rehearsed, JobError>
    ensures { (conn : Held S) → IsStoreOver S.Store conn store.old
        → RehearsedOver S.Store zone (map job_of jobs.now) conn store.old result }
{
    let mut report = NoReport;
    let answers = run_jobs(alloc, store, jobs, &mut report)?;
    let status = greatest_status(answers.as_slice());
    let zones = load_zones(store, zone)?;
    Ok(Rehearsed { zones, status })
}
