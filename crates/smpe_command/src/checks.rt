//! A service set is checked, in an empty system or in a copy of a database.
ghost use Rattle.std.specs.Prelude.{map, option_map};
ghost use Rattle.std.specs.String.{string_bytes};
ghost use Rattle.smpe_command.specs.Copied.{ChecksIn};
ghost use Rattle.smpe_command.specs.Serving.{ServesCheck, ServesFiles, ServesRecords};

use crate::copied::rehearse_in_copy;
use crate::host::Host;
use crate::job_files::read_files;
use crate::packages::{PackageCheck, serve_package};
use crate::shop::serve_shop;
use report::Sink;
use smpe::{CommandJob, Fault, JobError};
use smpe_invocation::{CheckAnswer, CheckedSystem, ServiceSet, SetFiles};
use smpe_rehearsal::{JobFiles, greatest_status, rehearse_in_empty_system, status_or_fault};
use sqlite_disk::{Disk, Memory};
use std::alloc::Global;

/// Checks the set, and returns the status. Its files are read before anything is made or copied. Returns `CannotRead`
/// if one of them cannot be read, `Job` for a fault of the jobs or of the database, and for a shop's own files also
/// `NotCarried`, `NoSource` and `CannotWrite`.
pub(crate) fn serve_check<'a, H: Host, O: Sink>(
    alloc: Global,
    host: &mut H,
    system: &'a CheckedSystem,
    set: &'a ServiceSet,
    answer: &'a CheckAnswer,
    out: &mut O,
) -> Result<u8, Fault<'a>>
    ensures { ServesCheck H.Host ⟦<Memory as Disk>⟧ O.Sink host.old out.old system.entry.now set.entry.now
        answer.entry.now result host.new out.new }
{
    match &set.files {
        SetFiles::Records { ptfin, hold } => {
            serve_records(alloc, host, system, &set.commands, ptfin, hold, out)
        }
        SetFiles::AsTheyCome(names) => {
            let check = PackageCheck {
                system,
                answer,
                names: names.as_slice(),
            };
            serve_files(alloc, host, &check, &set.commands, out)
        }
    }
}

// Checks a shop's own files with the commands, or without commands answers for the package that they come to.
fn serve_files<'a, H: Host, O: Sink>(
    alloc: Global,
    host: &mut H,
    check: &PackageCheck<'a>,
    commands: &'a Option<CommandJob>,
    out: &mut O,
) -> Result<u8, Fault<'a>>
    ensures { ServesFiles H.Host ⟦<Memory as Disk>⟧ O.Sink host.old out.old check.now.system.now check.now.answer.now
        (map string_bytes check.now.names.now) commands.entry.now result host.new out.new }
{
    match commands {
        Some(_) => serve_shop(alloc, host, check.system, commands, check.names, out),
        None => serve_package(alloc, host, check, out),
    }
}

// Checks the set of these records.
fn serve_records<'a, H: Host, O: Sink>(
    alloc: Global,
    host: &mut H,
    system: &CheckedSystem,
    commands: &'a Option<CommandJob>,
    ptfin: &'a String,
    hold: &'a Option<String>,
    out: &mut O,
) -> Result<u8, Fault<'a>>
    ensures { ServesRecords H.Host ⟦<Memory as Disk>⟧ O.Sink host.old out.old system.now commands.entry.now
        (string_bytes ptfin.entry.now) (option_map string_bytes hold.entry.now) result host.new out.new }
{
    let cntl = commands.as_ref().map(|commands| commands.cntl.as_str());
    let files = read_files(alloc, host, cntl, Some(ptfin.as_str()), hold.as_deref())?;
    status_or_fault(check_in_system(alloc, host, system, commands, files, out))
}

// Rehearses the set in an empty system of its own, or in the copy of a database, and returns the status.
pub(crate) fn check_in_system<H: Host, O: Sink>(
    alloc: Global,
    host: &mut H,
    system: &CheckedSystem,
    commands: &Option<CommandJob>,
    files: JobFiles,
    out: &mut O,
) -> Result<u8, JobError>
    ensures { ChecksIn H.Host ⟦<Memory as Disk>⟧ O.Sink system.now host.old out.old commands.now files.cntl.items
        (record { ptfin = files.ptfin.items; holds = files.hold.items }) result host.new out.new }
{
    match system {
        CheckedSystem::Empty(srel) => {
            let answers = rehearse_in_empty_system(alloc, *srel, commands, files, out)?;
            Ok(greatest_status(answers.as_slice()))
        }
        CheckedSystem::Copied(copy) => rehearse_in_copy(alloc, host, copy, commands, files, out),
    }
}
