//! What a service set would do in a copy of a database, which is kept in memory and gone afterwards.
ghost use Rattle.std.specs.Prelude.{◌≡◌, map, false};
ghost use Rattle.smpe_jobs.specs.Ending.{job_of};
ghost use Rattle.smpe_rehearsal.specs.Copied.{AsksIfAny, TriedOver, TriesBytes, TriesOver, copy_jobs};
ghost use Rattle.smpe_rehearsal.specs.Opened.{IsStoreOver};
ghost use Rattle.smpe_rehearsal.specs.ServiceSet.{receive_records};
ghost use Rattle.sqlite.specs.Held.{Held};

use crate::memory_files::connect_in_memory;
use crate::questions::answer_and_write;
use crate::service_set::greatest_status;
use crate::values::{DatabaseBytes, Rehearsal};
use fields::{Bypass, Id, ZoneName};
use report::Sink;
use smpe::{Job, JobError, run_jobs};
use smpe_why::{Question, load_zones};
use sqlite::{Alter, Connection};
use sqlite_disk::{Disk, Memory};
use std::alloc::Global;
use store::Store;

/// Runs the jobs of the rehearsal in a copy of files with these bytes, and then asks about the ids.
pub fn run_over_bytes<O: Sink>(
    alloc: Global,
    bytes: &DatabaseBytes,
    zone: ZoneName,
    ids: &[Id],
    rehearsal: &Rehearsal,
    out: &mut O,
) -> Result<u8, JobError>
    requires { rehearsal.now.receive.items ≡ receive_records }
    ensures { TriesBytes ⟦<Memory as Disk>⟧ O.Sink zone ids.now bytes.now.db.items
        bytes.now.log.items (copy_jobs rehearsal.now.date rehearsal.now.files.cntl.items
        (record { ptfin = rehearsal.now.files.ptfin.items; holds = rehearsal.now.files.hold.items })) out.old result
        out.new }
{
    let date = rehearsal.date;
    let receive = rehearsal.receive.as_slice();
    let cntl = rehearsal.files.cntl.as_slice();
    let ptfin = rehearsal.files.ptfin.as_slice();
    let hold = rehearsal.files.hold.as_slice();
    let jobs = [
        Job::Run {
            date,
            cntl: receive,
            ptfin,
            hold,
        },
        Job::Run {
            date,
            cntl,
            ptfin,
            hold,
        },
    ];
    rehearse_over_bytes(alloc, bytes, &jobs, zone, ids, out)
}

// Runs the jobs over files in memory that have these bytes, and asks about the ids.
fn rehearse_over_bytes<O: Sink>(
    alloc: Global,
    bytes: &DatabaseBytes,
    jobs: &[Job<'_>],
    zone: ZoneName,
    ids: &[Id],
    out: &mut O,
) -> Result<u8, JobError>
    ensures { TriesBytes ⟦<Memory as Disk>⟧ O.Sink zone ids.now bytes.now.db.items bytes.now.log.items
        (map job_of jobs.now) out.old result out.new }
{
    let conn = connect_in_memory(alloc, bytes.db.as_slice(), bytes.log.as_slice())?;
    rehearse_over_connection(alloc, conn, jobs, zone, ids, out)
}

// Opens the store of the connection, runs the jobs over it, asks about the ids, and drops the connection.
fn rehearse_over_connection<S: Alter + Drop, O: Sink>(
    alloc: Global,
    conn: Connection<S>,
    jobs: &[Job<'_>],
    zone: ZoneName,
    ids: &[Id],
    out: &mut O,
) -> Result<u8, JobError>
    requires { conn.in_transaction ≡ false }
    ensures { TriesOver S.Store O.Sink zone ids.now (map job_of jobs.now) conn out.old result out.new }
{
    match Store::open(alloc, conn) {
        Ok(mut store) => {
            let status = run_and_ask(alloc, &mut store, jobs, zone, ids, out);
            drop(store.close());
            status
        }
        Err((conn, error)) => {
            drop(conn);
            Err(JobError::from(error))
        }
    }
}

// Runs the jobs over the store, and asks about the ids.
fn run_and_ask<S: Alter, O: Sink>(
    alloc: Global,
    store: &mut Store<S>,
    jobs: &[Job<'_>],
    zone: ZoneName,
    ids: &[Id],
    out: &mut O,
) -> Result<u8, JobError>
    ensures { (conn : Held S) → IsStoreOver S.Store conn store.old
        → TriedOver S.Store O.Sink zone ids.now (map job_of jobs.now) conn store.old out.old result out.new }
{
    let answers = run_jobs(alloc, store, jobs, out)?;
    let status = greatest_status(answers.as_slice());
    let answer_status = ask_about_ids(alloc, store, zone, ids, out)?;
    Ok(status.max(answer_status))
}

// Asks about each id by itself, without BYPASS, writes one answer for all, and returns its status. If there are no ids,
// this asks nothing and returns 0.
fn ask_about_ids<S: Alter, O: Sink>(
    alloc: Global,
    store: &mut Store<S>,
    zone: ZoneName,
    ids: &[Id],
    out: &mut O,
) -> Result<u8, JobError>
    ensures { AsksIfAny S.Store O.Sink zone ids.now store.old out.old result out.new }
{
    if ids.is_empty() {
        return Ok(0);
    }
    let zones = load_zones(store, zone)?;
    let bypass = Bypass::none(alloc);
    let question = Question {
        ids,
        together: false,
        groupextend: false,
        bypass: &bypass,
    };
    answer_and_write(alloc, &zones, &question, out)
}
