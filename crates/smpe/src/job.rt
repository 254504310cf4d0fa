//! One job.
ghost use Rattle.std.specs.Prelude.{◌∷◌, [], map};
ghost use Rattle.sqlite.specs.Held.{state};
ghost use Rattle.sqlite.specs.State.{HasCleanDisk};
ghost use Rattle.machine.specs.State.{State};
ghost use Rattle.machine.specs.Machine.{RunFiles, Code, Perform};
ghost use Rattle.cntl.specs.Views.{command_of};
ghost use Rattle.smpe_session.specs.Sessions.{IsSessionOf};
ghost use Rattle.store.specs.Kept.{Keeps};
ghost use Rattle.store.specs.CallEnds.{Follows};
ghost use Rattle.smpe_jobs.specs.Ending.{EndsJob, KeepsClosed, TellsOfSink};
ghost use Rattle.smpe.specs.Commands.{EndsCommands};
ghost use Rattle.smpe.specs.Going.{GoesCommands, GoesJob};

use crate::command::perform;
use cntl::{CntlError, Command, read_cntl};
use fields::{Attest, YyDdd};
use report::{Outcome, Sink, write_report};
use smpe_jobs::JobError;
use smpe_session::{Files, Performed, Session};
use sqlite::Alter;
use std::alloc::Global;
use store::Store;

// The date and the files of a job, which each of its commands is given.
#[derive(Drop)]
struct JobInput<'a> {
    date: YyDdd,
    files: Files<'a>,
}

// Performs a command, writes its report once it is committed, and returns its return code. The errors are those of
// `run_job`.
fn run_command<S: Alter, W: Sink>(
    alloc: Global,
    session: &mut Session,
    store: &mut Store<S>,
    input: &JobInput<'_>,
    command: &Command,
    w: &mut W,
) -> Result<u8, JobError>
    ensures follows { Follows S.Store store.old store.new }
    ensures ends { HasCleanDisk (state S.Store store.new) → (s : State) → IsSessionOf s session.old
        → Keeps S.Store store.old s
        → EndsCommands S.Store store.old store.new s session.new input.now.date input.now.files
        (command_of command.now ∷ []) (W.taken w.old) (W.taken w.new) result }
    ensures goes { GoesCommands S.Store (store.old, session.old.boundary) (store.new, session.new.boundary)
        (Perform input.now.date input.now.files (command_of command.now) ∷ []) (W.taken w.old) (W.taken w.new) result }
    ensures fault { TellsOfSink (W.has_failed w.old) (W.has_failed w.new) result }
{
    let performed = perform(alloc, session, store, input.date, &input.files, command)?;
    match performed {
        Performed::Told(outcome) => Ok(write_report(&outcome, w)?),
        Performed::Lists { text } => Ok(write_report(&session.list(text), w)?),
    }
}

// Performs commands one after the other, and returns the highest return code. The first error ends it.
fn run_commands<S: Alter, W: Sink>(
    alloc: Global,
    session: &mut Session,
    store: &mut Store<S>,
    input: &JobInput<'_>,
    commands: &[Command],
    w: &mut W,
) -> Result<u8, JobError>
    ensures follows { Follows S.Store store.old store.new }
    ensures ends { HasCleanDisk (state S.Store store.new) → (s : State) → IsSessionOf s session.old
        → Keeps S.Store store.old s
        → EndsCommands S.Store store.old store.new s session.new input.now.date input.now.files
        (map command_of commands.now) (W.taken w.old) (W.taken w.new) result }
    ensures goes { GoesCommands S.Store (store.old, session.old.boundary) (store.new, session.new.boundary)
        (map (Perform input.now.date input.now.files) (map command_of commands.now)) (W.taken w.old) (W.taken w.new)
        result }
    ensures fault { TellsOfSink (W.has_failed w.old) (W.has_failed w.new) result }
{
    let mut code: u8 = 0;
    for command in commands {
        let next = run_command(alloc, session, store, input, command, w)?;
        code = code.max(next);
    }
    Ok(code)
}

/// Performs the commands of a command file over a PTFIN and a hold file, each committed first and reported after that,
/// and returns the highest return code. It also reports a command file with a fault. Returns `Memory` if memory runs
/// out, `Write` if the report cannot be written, and `Store` with `Fault` if the database fails, or with `NoState` if
/// the rows stand for no state.
pub fn run_job<S: Alter, W: Sink>(
    alloc: Global,
    store: &mut Store<S>,
    date: YyDdd,
    cntl: &[u8],
    ptfin: &[u8],
    hold: &[u8],
    w: &mut W,
) -> Result<u8, JobError>
    ensures follows { Follows S.Store store.old store.new }
    ensures ends { HasCleanDisk (state S.Store store.new) → (s : State) → Keeps S.Store store.old s
        → EndsJob S.Store store.old store.new s (RunFiles date cntl.now (record {
          ptfin = ptfin.now;
          holds = hold.now;
        }))
        (W.taken w.old) (W.taken w.new) Code result }
    ensures goes { GoesJob S.Store store.old store.new (RunFiles date cntl.now
        (record { ptfin = ptfin.now; holds = hold.now })) (W.taken w.old) (W.taken w.new) Code result }
    ensures closed { KeepsClosed S.Store store.old store.new }
    ensures fault { TellsOfSink (W.has_failed w.old) (W.has_failed w.new) result }
{
    // (for the clause `closed`: the date has its form)
    date.attest();
    let commands = match read_cntl(alloc, cntl) {
        Ok(commands) => commands,
        Err(CntlError::Memory) => return Err(JobError::Memory),
        Err(CntlError::Fault { number, code }) => {
            return Ok(write_report(&Outcome::Control { number, code }, w)?);
        }
    };
    let mut session = Session::begin(alloc, store)?;
    let input = JobInput {
        date,
        files: Files { ptfin, holds: hold },
    };
    run_commands(alloc, &mut session, store, &input, &commands, w)
}
