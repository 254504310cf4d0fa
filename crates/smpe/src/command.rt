//! How a command is performed.
ghost use Rattle.std.specs.Prelude.{◌≡◌, IfOk, IsErrOf};
ghost use Rattle.cntl.specs.Views.{command_of};
ghost use Rattle.store.specs.Own.{IsOwnOf};
ghost use Rattle.smpe_session.specs.Sessions.{IsSessionOf, HasDone, LooksOnly, told};
ghost use Rattle.smpe_session.specs.Uses.{UsesStore};
ghost use Rattle.smpe_session.specs.Writing.{AnswersOf, AnswersRun};

use crate::install::install;
use crate::restore::restore;
use cntl::Command;
use fields::YyDdd;
use report::Outcome;
use smpe_session::{Files, Performed, Session};
use sqlite::Alter;
use std::alloc::Global;
use store::{Store, StoreError};
use terms::ZoneKind;

// The result of a command that has its outcome at once, as each command but LIST has, or the error.
fn wrap_outcome(outcome: Result<Outcome<'static>, StoreError>) -> Result<Performed, StoreError>
    ensures { result ≡ told outcome.entry }
{
    Ok(Performed::Told(outcome?))
}

/// Performs a command, commits it, and returns what to report: its outcome, which may be a refusal, or for a LIST that
/// the zone is to be listed. Returns `Memory` if memory runs out, `Fault` if the database fails, and `NoState` if it
/// loads a zone whose rows stand for none. After an error no command of the job may follow: the session's global zone
/// may be ahead of the tables.
pub fn perform<S: Alter>(
    alloc: Global,
    session: &mut Session,
    store: &mut Store<S>,
    date: YyDdd,
    files: &Files<'_>,
    command: &Command,
) -> Result<Performed, StoreError>
    ensures uses { UsesStore S.Store store.old store.new
        (λ own. IsOwnOf (command_of command.now) own × IfOk result (AnswersRun own))
        (λ s ended. IsSessionOf s session.old → HasDone S.Store store.old store.new s session.new date files.now
        (command_of command.now) ended) result }
    ensures header { IfOk result (AnswersOf (command_of command.now) session.old.boundary session.new.boundary) }
    ensures looks { LooksOnly (command_of command.now) → (store.new ≡ store.old)
        × ¬ IsErrOf result StoreError.Fault }
{
    match command {
        Command::Set(name) => wrap_outcome(session.set(alloc, store, *name)),
        Command::Receive(operands) => wrap_outcome(session.receive(alloc, store, files, operands)),
        Command::Reject(ids) => wrap_outcome(session.reject(alloc, store, ids)),
        Command::Apply(operands) => {
            wrap_outcome(install(alloc, session, store, date, ZoneKind::Target, operands))
        }
        Command::Accept(operands) => {
            wrap_outcome(install(
                alloc,
                session,
                store,
                date,
                ZoneKind::Distribution,
                operands,
            ))
        }
        Command::Restore { list, check } => wrap_outcome(restore(
            alloc, session, store, list, *check,
        )),
        Command::List { text } => Ok(Performed::Lists { text: *text }),
        Command::Report => Ok(Performed::Told(session.report(alloc)?)),
    }
}
