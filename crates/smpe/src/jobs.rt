//! A list of jobs.
ghost use Rattle.std.specs.Prelude.{◌≡◌, ℕ, List, Option, false, map, length, IfOk};
ghost use Rattle.sqlite.specs.Held.{state};
ghost use Rattle.sqlite.specs.State.{HasCleanDisk};
ghost use Rattle.machine.specs.State.{State};
ghost use Rattle.machine.specs.Machine.{NewZone};
ghost use Rattle.smpe_jobs.specs.ZoneDefinitions.{definition};
ghost use Rattle.store.specs.Kept.{Keeps};
ghost use Rattle.smpe.specs.Going.{GoesJob, GoesJobs};
ghost use Rattle.store.specs.CallEnds.{Follows};
ghost use Rattle.smpe_jobs.specs.Ending.{EndsJob, EndsJobs, KeepsClosed, TellsOfSink, is_write, job_of, answer_of};

use crate::job::run_job;
use fields::{Srel, ZoneName};
use report::Sink;
use smpe_jobs::{Answer, Job, JobError, ZoneError, define_zone};
use sqlite::Alter;
use std::alloc::Global;
use store::Store;
use terms::ZoneKind;

// Defines a zone, and returns how that ended. A refusal is an answer too. Returns `Memory` if memory runs out, and
// `Store` if the database fails.
fn answer_definition<S: Alter>(
    store: &mut Store<S>,
    name: ZoneName,
    kind: ZoneKind,
    srel: Srel,
    related: Option<ZoneName>,
) -> Result<Answer, JobError>
    ensures follows { Follows S.Store store.old store.new }
    ensures ends { HasCleanDisk (state S.Store store.new) → (s : State) → Keeps S.Store store.old s
        → (taken : Option (List ℕ))
        → EndsJob S.Store store.old store.new s (NewZone (definition name kind srel related)) taken taken answer_of
        result }
    ensures goes { (taken : Option (List ℕ)) → GoesJob S.Store store.old store.new
        (NewZone (definition name kind srel related)) taken taken answer_of result }
    ensures closed { KeepsClosed S.Store store.old store.new }
    ensures fault { is_write result ≡ false }
{
    match define_zone(store, name, kind, srel, related) {
        Ok(()) => Ok(Answer::Defined),
        Err(ZoneError::Refused(fault)) => Ok(Answer::Refused(fault)),
        Err(ZoneError::Store(error)) => Err(JobError::from(error)),
        Err(ZoneError::Memory) => Err(JobError::Memory),
    }
}

// Runs one job of the list, and returns its answer. The errors are those of `run_jobs`.
fn answer_job<S: Alter, W: Sink>(
    alloc: Global,
    store: &mut Store<S>,
    job: &Job<'_>,
    w: &mut W,
) -> Result<Answer, JobError>
    ensures follows { Follows S.Store store.old store.new }
    ensures ends { HasCleanDisk (state S.Store store.new) → (s : State) → Keeps S.Store store.old s
        → EndsJob S.Store store.old store.new s (job_of job.now) (W.taken w.old) (W.taken w.new) answer_of result }
    ensures goes { GoesJob S.Store store.old store.new (job_of job.now) (W.taken w.old) (W.taken w.new) answer_of
        result }
    ensures closed { KeepsClosed S.Store store.old store.new }
    ensures fault { TellsOfSink (W.has_failed w.old) (W.has_failed w.new) result }
{
    match *job {
        Job::Run {
            date,
            cntl,
            ptfin,
            hold,
        } => {
            let code = run_job(alloc, store, date, cntl, ptfin, hold, w)?;
            Ok(Answer::Code(code))
        }
        Job::Zone {
            name,
            kind,
            srel,
            related,
        } => answer_definition(store, name, kind, srel, related),
    }
}

/// Runs the jobs one after the other, and returns the answer of each. A refused definition does not end the list. An
/// error ends it: `Memory` if memory runs out, `Write` if the report cannot be written, and `Store` with `Fault` if the
/// database fails, or with `NoState` if the rows stand for no state.
pub fn run_jobs<S: Alter, W: Sink>(
    alloc: Global,
    store: &mut Store<S>,
    jobs: &[Job<'_>],
    w: &mut W,
) -> Result<Vec<Answer>, JobError>
    ensures follows { Follows S.Store store.old store.new }
    ensures ends { HasCleanDisk (state S.Store store.new) → (s : State) → Keeps S.Store store.old s
        → EndsJobs S.Store store.old store.new s (map job_of jobs.now) (W.taken w.old) (W.taken w.new)
        (λ v. map answer_of v.items) result }
    ensures goes { GoesJobs S.Store store.old store.new (map job_of jobs.now) (W.taken w.old) (W.taken w.new)
        (λ v. map answer_of v.items) result }
    ensures closed { KeepsClosed S.Store store.old store.new }
    ensures fault { TellsOfSink (W.has_failed w.old) (W.has_failed w.new) result }
    ensures count { IfOk result (λ answers. length answers.items ≡ length jobs.now) }
{
    let mut answers = Vec::with_capacity(alloc, jobs.len())?;
    for job in jobs {
        let answer = answer_job(alloc, store, job, w)?;
        // (the list was made with room for all answers)
        answers.push(answer).unwrap();
    }
    Ok(answers)
}
