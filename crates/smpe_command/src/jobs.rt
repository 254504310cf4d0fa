//! The subcommands, except for `why` (in `questions`), `check` (in `checks`), `mend` (in `mending`) and `lint` (in
//! `lint`).
ghost use Rattle.std.specs.Prelude.{◌≡◌, Result};
ghost use Rattle.std.specs.String.{string_bytes};
ghost use Rattle.machine.specs.Machine.{RunFiles};
ghost use Rattle.smpe_jobs.specs.declared.error.JobError.{JobError};
ghost use Rattle.smpe_jobs.specs.declared.jobs.Answer.{Answer};
ghost use Rattle.smpe_jobs.specs.ZoneDefinitions.{definition};
ghost use Rattle.smpe_command.specs.Database.{JobOver};
ghost use Rattle.smpe_command.specs.Serving.{Serves, ServesList, ServesMigrate, ServesRun, ServesVerify, ServesZone};
ghost use Rattle.smpe_command.specs.Serving.{status_told};
ghost use Rattle.smpe_rehearsal.specs.Told.{job_told};

use crate::careful::check_commands_if_careful;
use crate::checks::serve_check;
use crate::database::{migrate_database, run_job_in_database, verify_database};
use crate::host::Host;
use crate::job_files::read_files;
use crate::lint::serve_lint;
use crate::mending::serve_mend;
use crate::questions::serve_why;
use fields::{YyDdd, ZoneName};
use report::{Sink, write_all};
use smpe::{
    DatabaseFile, Fault, Invocation, Job, JobError, listing_commands, status_of,
    write_migrated_line, zone_line,
};
use smpe_invocation::{RunOptions, ZoneDefinition};
use smpe_rehearsal::{JobFiles, any_date, status_or_fault};
use smpe_verify::describe_verification;
use sqlite_disk::{Disk, Memory};
use std::alloc::Global;

/// Does what the words ask for, and returns the status, or the first fault that stops it.
pub(crate) fn serve<'a, H: Host, O: Sink>(
    alloc: Global,
    host: &mut H,
    request: &'a Invocation,
    out: &mut O,
) -> Result<u8, Fault<'a>>
    ensures { Serves H.Host H.Disk.Store ⟦<Memory as Disk>⟧ O.Sink host.old request.entry.now out.old result host.new
        out.new }
{
    match request {
        Invocation::Zone { db, definition } => {
            status_or_fault(serve_zone(alloc, host, db, definition, out))
        }
        Invocation::Run { db, options } => serve_run(alloc, host, db, options, out),
        Invocation::List { db, zone } => status_or_fault(serve_list(alloc, host, db, *zone, out)),
        Invocation::Why { db, options } => serve_why(alloc, host, db, options, out),
        Invocation::Check {
            system,
            set,
            answer,
        } => serve_check(alloc, host, system, set, answer, out),
        Invocation::Mend { system, options } => serve_mend(alloc, host, system, options, out),
        Invocation::Lint { options } => serve_lint(alloc, host, options, out),
        Invocation::Migrate { db } => status_or_fault(serve_migrate(alloc, host, db, out)),
        Invocation::Verify { db } => status_or_fault(serve_verify(alloc, host, db, out)),
    }
}

// Defines a zone, writes how that ended, and returns the status.
fn serve_zone<H: Host, O: Sink>(
    alloc: Global,
    host: &mut H,
    db: &DatabaseFile,
    zone: &ZoneDefinition,
    out: &mut O,
) -> Result<u8, JobError>
    ensures { ServesZone H.Host H.Disk.Store O.Sink host.old (string_bytes db.now.name)
        out.old (definition zone.now.name zone.now.kind zone.now.srel zone.now.related) result
        host.new out.new }
{
    let name = zone.name;
    let job = Job::Zone {
        name,
        kind: zone.kind,
        srel: zone.srel,
        related: zone.related,
    };
    let answer = run_job_in_database(alloc, host, db, &job, out)?;
    Ok(zone_line(name, &answer, out)?)
}

// Runs the commands of a file, and returns the status. All files are read before the database is opened, also those of
// a careful job, whose commands are checked in between.
fn serve_run<'a, H: Host, O: Sink>(
    alloc: Global,
    host: &mut H,
    db: &DatabaseFile,
    options: &'a RunOptions,
    out: &mut O,
) -> Result<u8, Fault<'a>>
    ensures { ServesRun H.Host H.Disk.Store O.Sink host.old (string_bytes db.now.name)
        out.old options.entry.now result host.new out.new }
{
    let cntl = Some(options.cntl.as_str());
    let ptfin = options.ptfin.as_deref();
    let hold = options.hold.as_deref();
    let files = read_files(alloc, host, cntl, ptfin, hold)?;
    check_commands_if_careful(alloc, host, db, options, files.cntl.as_slice())?;
    status_or_fault(run_job_over_files(alloc, host, db, options.date, &files, out))
}

// Lists a zone, by a job of the commands SET and LIST, and returns the status.
fn serve_list<H: Host, O: Sink>(
    alloc: Global,
    host: &mut H,
    db: &DatabaseFile,
    zone: ZoneName,
    out: &mut O,
) -> Result<u8, JobError>
    ensures { ServesList H.Host H.Disk.Store O.Sink host.old (string_bytes db.now.name)
        out.old zone (job_told result) host.new out.new }
{
    let files = JobFiles {
        cntl: listing_commands(alloc, zone)?,
        ptfin: Vec::new(alloc),
        hold: Vec::new(alloc),
    };
    run_job_over_files(alloc, host, db, any_date(), &files, out)
}

// Runs a job over files that have been read, and returns its status.
fn run_job_over_files<H: Host, O: Sink>(
    alloc: Global,
    host: &mut H,
    db: &DatabaseFile,
    date: YyDdd,
    files: &JobFiles,
    out: &mut O,
) -> Result<u8, JobError>
    ensures { (answer : Result Answer JobError) × JobOver H.Host H.Disk.Store O.Sink host.old (string_bytes db.now.name)
        (RunFiles date
        files.now.cntl.items (record { ptfin = files.now.ptfin.items; holds = files.now.hold.items })) out.old answer
        host.new out.new × (job_told result ≡ status_told answer) }
{
    let job = Job::Run {
        date,
        cntl: files.cntl.as_slice(),
        ptfin: files.ptfin.as_slice(),
        hold: files.hold.as_slice(),
    };
    let answer = run_job_in_database(alloc, host, db, &job, out)?;
    Ok(status_of(&answer))
}

// Migrates the tables, writes the line that says so, and returns the status.
fn serve_migrate<H: Host, O: Sink>(
    alloc: Global,
    host: &mut H,
    db: &DatabaseFile,
    out: &mut O,
) -> Result<u8, JobError>
    ensures { ServesMigrate H.Host H.Disk.Store O.Sink host.old (string_bytes db.now.name)
        out.old result host.new out.new }
{
    migrate_database(alloc, host, db)?;
    Ok(write_migrated_line(out)?)
}

// Verifies that all zones are closed, writes the answer, and returns its status. The whole answer is made before any of
// it is written.
fn serve_verify<H: Host, O: Sink>(
    alloc: Global,
    host: &mut H,
    db: &DatabaseFile,
    out: &mut O,
) -> Result<u8, JobError>
    ensures { ServesVerify H.Host H.Disk.Store O.Sink host.old (string_bytes db.now.name) out.old result host.new
        out.new }
{
    let verification = verify_database(alloc, host, db)?;
    let answer = describe_verification(alloc, verification)?;
    write_all(answer.text.as_slice(), out)?;
    Ok(answer.status)
}
