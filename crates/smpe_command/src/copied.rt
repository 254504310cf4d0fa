//! What a service set would do in a copy of a database.
ghost use Rattle.std.specs.Prelude.{◌≡◌, IfOk, IfErr};
ghost use Rattle.std.specs.String.{string_bytes};
ghost use Rattle.sqlite.specs.declared.error.Error.{Error};
ghost use Rattle.store_schema.specs.Known.{told};
ghost use Rattle.smpe_rehearsal.specs.Copied.{copy_jobs};
ghost use Rattle.smpe_rehearsal.specs.ServiceSet.{receive_records};
ghost use Rattle.smpe_command.specs.Copied.{TriesCopied, TriesCopy};

use crate::host::Host;
use report::Sink;
use smpe::{CommandJob, DatabaseFile, JobError, commands_in_zone, two_commands};
use smpe_invocation::SystemCopy;
use smpe_rehearsal::{DatabaseBytes, JobFiles, Rehearsal, any_date, run_over_bytes};
use sqlite_disk::{Disk, Memory};
use std::alloc::Global;
use store::StoreError;

/// Rehearses the set in the copy with its commands, or with those that apply all of it to the zone, and then asks about
/// the ids. Returns the greatest status of the jobs and the answer.
pub(crate) fn rehearse_in_copy<H: Host, O: Sink>(
    alloc: Global,
    host: &mut H,
    copy: &SystemCopy,
    commands: &Option<CommandJob>,
    mut files: JobFiles,
    out: &mut O,
) -> Result<u8, JobError>
    ensures { TriesCopy H.Host ⟦<Memory as Disk>⟧ O.Sink host.old copy.now out.old commands.now files.cntl.items
        (record { ptfin = files.ptfin.items; holds = files.hold.items }) result host.new out.new }
{
    let receive = two_commands(alloc, b"SET BDY(GLOBAL).", b"RECEIVE.")?;
    match commands {
        Some(commands) => {
            let rehearsal = Rehearsal {
                date: commands.date,
                receive,
                files,
            };
            run_in_copy(alloc, host, copy, &rehearsal, out)
        }
        None => {
            let apply = b"APPLY FUNCTIONS PTFS GROUPEXTEND CHECK.";
            let cntl = commands_in_zone(alloc, copy.zone, apply)?;
            files.cntl = cntl;
            let rehearsal = Rehearsal {
                date: any_date(),
                receive,
                files,
            };
            run_in_copy(alloc, host, copy, &rehearsal, out)
        }
    }
}

// Runs the jobs of the rehearsal in the copy of the database, and then asks about the ids. This function and those
// below that run the jobs return the greatest status of the jobs and the answer.
fn run_in_copy<H: Host, O: Sink>(
    alloc: Global,
    host: &mut H,
    copy: &SystemCopy,
    rehearsal: &Rehearsal,
    out: &mut O,
) -> Result<u8, JobError>
    requires { rehearsal.now.receive.items ≡ receive_records }
    ensures { TriesCopied H.Host ⟦<Memory as Disk>⟧ O.Sink host.old copy.now out.old
        (copy_jobs rehearsal.now.date rehearsal.now.files.cntl.items
        (record { ptfin = rehearsal.now.files.ptfin.items; holds = rehearsal.now.files.hold.items })) result host.new
        out.new }
{
    let bytes = read_database_bytes(host, &copy.db)?;
    run_over_bytes(
        alloc,
        &bytes,
        copy.zone,
        copy.ids.as_slice(),
        rehearsal,
        out,
    )
}

/// Reads the bytes of the database's file and of its log. An error of the database library becomes one of the store.
pub(crate) fn read_database_bytes<H: Host>(
    host: &mut H,
    db: &DatabaseFile,
) -> Result<DatabaseBytes, StoreError>
    ensures ok { IfOk result (λ bytes. H.holds host.old (string_bytes db.now.name) bytes.db.items bytes.log.items
        host.new) }
    ensures err { IfErr result (λ why. (error : Error) × H.refuses host.old (string_bytes db.now.name) error host.new
        × (why ≡ told error)) }
{
    Ok(host.read_database(db)?)
}
