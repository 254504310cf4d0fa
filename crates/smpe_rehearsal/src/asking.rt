//! The question about a package: what APPLY would make of its SYSMODs, and of no others but those that GROUPEXTEND
//! brings in.
ghost use Rattle.std.specs.Prelude.{◌≡◌};
ghost use Rattle.smpe_rehearsal.specs.Asking.{Asks, TriesEmpty};
ghost use Rattle.smpe_rehearsal.specs.ServiceSet.{receive_records};

use crate::copied::run_over_bytes;
use crate::service_set::{greatest_status, run_in_empty_system};
use crate::values::{Prepared, Rehearsal, System};
use fields::{Id, Srel};
use report::Sink;
use smpe::JobError;
use sqlite_disk::{Disk, Memory};
use std::alloc::Global;

/// Runs the jobs of the rehearsal in the system, writes their report, and in a copy of a database asks about the ids
/// afterwards. Returns the greatest status of the jobs and of the answer.
pub fn ask_about_package<O: Sink>(
    alloc: Global,
    system: &System,
    prepared: &Prepared,
    ids: &[Id],
    out: &mut O,
) -> Result<u8, JobError>
    requires { prepared.now.jobs.receive.items ≡ receive_records }
    ensures { Asks ⟦<Memory as Disk>⟧ O.Sink out.old system.now prepared.now ids.now result out.new }
{
    match system {
        System::Empty(srel) => try_in_empty_system(alloc, *srel, &prepared.jobs, out),
        System::Copied { bytes, zone } => {
            run_over_bytes(alloc, bytes, *zone, ids, &prepared.jobs, out)
        }
    }
}

// Runs the jobs of the rehearsal in an empty system, and returns the greatest status.
fn try_in_empty_system<O: Sink>(
    alloc: Global,
    srel: Srel,
    rehearsal: &Rehearsal,
    out: &mut O,
) -> Result<u8, JobError>
    requires { rehearsal.now.receive.items ≡ receive_records }
    ensures { TriesEmpty O.Sink out.old srel rehearsal.now.files.cntl.items
        (record { ptfin = rehearsal.now.files.ptfin.items; holds = rehearsal.now.files.hold.items }) result out.new }
{
    let answers = run_in_empty_system(alloc, srel, rehearsal, out)?;
    Ok(greatest_status(answers.as_slice()))
}
