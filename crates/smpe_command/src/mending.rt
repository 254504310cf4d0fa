//! What has to be done so that given SYSMODs go on.
ghost use Rattle.std.specs.Prelude.{◌≡◌, Some, map, max};
ghost use Rattle.std.specs.String.{string_bytes};
ghost use Rattle.smpe_rehearsal.specs.ServiceSet.{receive_records};
ghost use Rattle.smpe_command.specs.Mending.{MendsCarried, MendsPackage, MendsSettled, ServesMend};

use crate::carry::{carry_files, write_remarks};
use crate::host::Host;
use crate::job_files::read_each;
use crate::packages::{settle, write_answer};
use crate::settled::Settled;
use fields::Id;
use report::Sink;
use smpe::{Fault, JobError};
use smpe_answer::{Answer, mend_answer};
use smpe_invocation::{CheckedSystem, MendOptions};
use smpe_package::Package;
use smpe_rehearsal::{rehearse_package, status_or_fault};
use sqlite_disk::{Disk, Memory};
use std::alloc::Global;

/// Tells what has to be done so that the ids go on, given the package of these files, and returns the status. All files
/// are read before anything is made or copied. The faults are those of `serve_package`, but for `CannotWrite`.
pub(crate) fn serve_mend<'a, H: Host, O: Sink>(
    alloc: Global,
    host: &mut H,
    system: &'a CheckedSystem,
    options: &'a MendOptions,
    out: &mut O,
) -> Result<u8, Fault<'a>>
    ensures { ServesMend H.Host ⟦<Memory as Disk>⟧ O.Sink host.old out.old system.entry.now options.entry.now.ids.items
        (map (λ name. Some (string_bytes name)) options.entry.now.files.items) result host.new out.new }
{
    let names = options.files.as_slice();
    let files = read_each(alloc, host, names)?;
    let carried = carry_files(alloc, names, files)?;
    mend_package(alloc, host, system, options.ids.as_slice(), carried, out)
}

// Writes the remarks on the package, and tells what has to be done.
fn mend_package<'a, H: Host, O: Sink>(
    alloc: Global,
    host: &mut H,
    system: &'a CheckedSystem,
    ids: &[Id],
    carried: Package,
    out: &mut O,
) -> Result<u8, Fault<'a>>
    ensures { MendsPackage H.Host ⟦<Memory as Disk>⟧ O.Sink system.entry.now ids.now host.old carried out.old result
        host.new out.new }
{
    let status = write_remarks(&carried, out)?;
    let mended = mend_carried(alloc, host, system, ids, carried, out)?;
    Ok(mended.max(status))
}

// Makes the jobs that rehearse the package, and tells what has to be done.
fn mend_carried<'a, H: Host, O: Sink>(
    alloc: Global,
    host: &mut H,
    system: &'a CheckedSystem,
    ids: &[Id],
    carried: Package,
    out: &mut O,
) -> Result<u8, Fault<'a>>
    ensures { MendsCarried H.Host ⟦<Memory as Disk>⟧ O.Sink system.entry.now ids.now host.old carried out.old result
        host.new out.new }
{
    let settled = settle(alloc, host, system, Vec::new(alloc), carried)?;
    status_or_fault(mend_settled(alloc, &settled, ids, out))
}

// Receives the package, and tells what has to be done. The status is at least that of RECEIVE.
fn mend_settled<O: Sink>(
    alloc: Global,
    settled: &Settled<'_>,
    ids: &[Id],
    out: &mut O,
) -> Result<u8, JobError>
    requires { settled.now.prepared.jobs.receive.items ≡ receive_records }
    ensures { MendsSettled ⟦<Memory as Disk>⟧ O.Sink settled.now ids.now out.old result out.new }
{
    let rehearsed = rehearse_package(alloc, &settled.system, &settled.prepared)?;
    let received = rehearsed.status;
    let answer = mend_answer(alloc, rehearsed.zones, ids)?;
    write_answer(&raised_answer(answer, received), out)
}

// The answer, with a status of at least this.
fn raised_answer(answer: Answer, least: u8) -> Answer
    ensures text { result.text.items ≡ answer.text.items }
    ensures status { result.status ≡ max answer.status least }
{
    let Answer { text, status } = answer;
    Answer {
        text,
        status: status.max(least),
    }
}
