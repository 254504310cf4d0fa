//! What a service set would do in an empty system, which is kept in memory and gone after the jobs.
ghost use Rattle.std.specs.Prelude.{◌≡◌, map, false};
ghost use Rattle.smpe_jobs.specs.Ending.{answer_of, job_of};
ghost use Rattle.smpe_rehearsal.specs.ServiceSet.{JobsInMemory, JobsOverNew, TriesSet, greatest, receive_records};
ghost use Rattle.smpe_rehearsal.specs.ServiceSet.{set_jobs};

use crate::dates::any_date;
use crate::values::{JobFiles, Rehearsal};
use fields::{Srel, ZoneName};
use report::Sink;
use smpe::{Answer, CommandJob, Job, JobError, run_jobs, status_of, two_commands};
use sqlite::{Alter, Connection};
use std::alloc::Global;
use store::Store;
use terms::ZoneKind;

/// Rehearses the set in an empty system with its commands, or with those that apply all of it. Returns how each of the
/// jobs ended.
pub fn rehearse_in_empty_system<O: Sink>(
    alloc: Global,
    srel: Srel,
    commands: &Option<CommandJob>,
    mut files: JobFiles,
    out: &mut O,
) -> Result<Vec<Answer>, JobError>
    ensures { TriesSet O.Sink out.old srel commands.now files.cntl.items (record {
      ptfin = files.ptfin.items;
      holds = files.hold.items;
    }) (λ v. map answer_of v.items) result out.new }
{
    let receive = two_commands(alloc, b"SET BDY(GLOBAL).", b"RECEIVE.")?;
    match commands {
        Some(commands) => {
            let rehearsal = Rehearsal {
                date: commands.date,
                receive,
                files,
            };
            run_in_empty_system(alloc, srel, &rehearsal, out)
        }
        None => {
            let apply = b"APPLY FUNCTIONS PTFS GROUPEXTEND CHECK.";
            let cntl = two_commands(alloc, b"SET BDY(TGT).", apply)?;
            files.cntl = cntl;
            let rehearsal = Rehearsal {
                date: any_date(),
                receive,
                files,
            };
            run_in_empty_system(alloc, srel, &rehearsal, out)
        }
    }
}

/// Defines the zones and runs the jobs of the rehearsal in an empty system.
pub(crate) fn run_in_empty_system<O: Sink>(
    alloc: Global,
    srel: Srel,
    rehearsal: &Rehearsal,
    out: &mut O,
) -> Result<Vec<Answer>, JobError>
    requires { rehearsal.now.receive.items ≡ receive_records }
    ensures { JobsInMemory O.Sink (set_jobs srel rehearsal.now.date rehearsal.now.files.cntl.items
        (record { ptfin = rehearsal.now.files.ptfin.items; holds = rehearsal.now.files.hold.items })) out.old
        (λ v. map answer_of v.items) result out.new }
{
    let date = rehearsal.date;
    let receive = rehearsal.receive.as_slice();
    let cntl = rehearsal.files.cntl.as_slice();
    let ptfin = rehearsal.files.ptfin.as_slice();
    let hold = rehearsal.files.hold.as_slice();
    let distribution = ZoneName::read(b"DLIB").unwrap();
    let target = ZoneName::read(b"TGT").unwrap();
    let jobs = [
        Job::Zone {
            name: distribution,
            kind: ZoneKind::Distribution,
            srel,
            related: None,
        },
        Job::Zone {
            name: target,
            kind: ZoneKind::Target,
            srel,
            related: Some(distribution),
        },
        Job::Run {
            date,
            cntl: receive,
            ptfin,
            hold,
        },
        Job::Run {
            date,
            cntl,
            ptfin,
            hold,
        },
    ];
    let conn = Connection::open_in_memory(alloc)?;
    run_jobs_in_new_database(alloc, conn, &jobs, out)
}

// Opens a store over the connection to a new database, runs the jobs over it, and drops the connection.
fn run_jobs_in_new_database<S: Alter + Drop, O: Sink>(
    alloc: Global,
    conn: Connection<S>,
    jobs: &[Job<'_>],
    out: &mut O,
) -> Result<Vec<Answer>, JobError>
    requires { conn.in_transaction ≡ false }
    ensures { JobsOverNew S.Store conn O.Sink (map job_of jobs.now) out.old (λ v. map answer_of v.items) result
        out.new }
{
    match Store::open(alloc, conn) {
        Ok(mut store) => {
            let answers = run_jobs(alloc, &mut store, jobs, out);
            drop(store.close());
            answers
        }
        Err((conn, error)) => {
            drop(conn);
            Err(JobError::from(error))
        }
    }
}

/// The greatest status of these answers, or 0 if there are none.
pub fn greatest_status(answers: &[Answer]) -> u8
    ensures { result ≡ greatest (map answer_of answers.now) }
{
    let mut status: u8 = 0;
    for answer in answers {
        status = status.max(status_of(answer));
    }
    status
}
