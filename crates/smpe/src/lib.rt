//! Jobs are run over a store. The headline is `run_jobs`: the bytes handed to the sink, the answers, and what the
//! tables stand for are the machine's, or after an error those of some first commands. Whatever a crash leaves includes
//! each command that was reported. Zones that were closed stay so, also after an error and a crash (`closed`). A fault
//! of the database has a cause in the call that returns it. No contract says when memory runs out. Whatever the tables
//! hold (`goes`), each command has loaded, or made one change of its own besides. If the answer is that they stand for
//! no state, nothing has changed since the last command that was reported. `smpe_jobs` says what jobs are and how they
//! end.
#![tactic(auto)]

mod command;
mod install;
mod job;
mod jobs;
mod restore;

pub use command::perform;
pub use job::run_job;
pub use jobs::run_jobs;
pub use smpe_invocation::{
    ArgFault, CheckAnswer, CheckForm, CheckedSystem, CommandJob, DatabaseFile, Invocation,
    LintForm, LintOptions, MendOptions, RunOptions, ServiceSet, SetFiles, SystemCopy, WhyOptions,
    ZoneDefinition, invocation,
};
pub use smpe_jobs::{
    Answer, FAULT_STATUS, Fault, Job, JobError, ZoneError, ZoneFault, commands_in_zone,
    define_zone, ends_closed, fault_line, listing_commands, next_open_finds, reopen, status_of,
    two_commands, write_migrated_line, zone_line,
};
pub use smpe_session::{BoundaryZone, Files, Performed, Session, ZoneChange};
