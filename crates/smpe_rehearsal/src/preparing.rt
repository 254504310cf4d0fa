//! The jobs that rehearse a package are made. The package gets a source that nothing else in the system has, so that
//! the question chooses just its SYSMODs.
ghost use Rattle.std.specs.Prelude.{◌≡◌, ◌≤◌, IfOk, length};
ghost use Rattle.smpe_rehearsal.specs.Prepared.{IsNotCarried, Prepares, PreparesBeside, package_commands, zone_of};
ghost use Rattle.smpe_rehearsal.specs.ServiceSet.{receive_records};
ghost use Rattle.smpe_package.specs.Package.{AreRecords, with_source};

use crate::dates::any_date;
use crate::global_zone::global_of;
use crate::values::{JobFiles, PackageItems, Prepared, Rehearsal, System};
use fields::{Source, ZoneName};
use smpe::{Fault, JobError, commands_in_zone, two_commands};
use smpe_package::{PackageFault, free_source, package_command, package_records, with_source};
use sqlite_disk::{Disk, Memory};
use std::alloc::{AllocError, Global};
use sysmods::GlobalZone;

/// The fault of a package that is not carried.
pub fn fault_of<'a>(fault: PackageFault) -> Fault<'a>
    ensures { IsNotCarried result }
{
    match fault {
        PackageFault::Memory => Fault::Job(JobError::Memory),
        PackageFault::NotCarried(lines) => Fault::NotCarried(lines),
    }
}

/// Makes the jobs that rehearse the package in the system. Returns `NotCarried` if RECEIVE would not read the records
/// as the items, `NoSource` if each source that is kept for checks is used, and `Job` if memory runs out or the
/// database cannot be read.
pub fn prepare_package<'a>(
    alloc: Global,
    system: &System,
    items: PackageItems,
) -> Result<Prepared, Fault<'a>>
    ensures prepares { Prepares ⟦<Memory as Disk>⟧ system.now items.items.items items.hold_items.items result }
    ensures receive { IfOk result (λ prepared. prepared.jobs.receive.items ≡ receive_records) }
{
    match global_of(alloc, system) {
        Ok(global) => prepare_beside(alloc, zone_of(system), global, items),
        Err(error) => Err(Fault::Job(JobError::from(error))),
    }
}

/// The zone in question.
pub fn zone_of(system: &System) -> ZoneName
    ensures { result ≡ zone_of system.now }
{
    match system {
        System::Empty(_) => ZoneName::read(b"TGT").unwrap(),
        System::Copied { zone, .. } => *zone,
    }
}

// Makes the jobs with a source that this global zone does not have.
fn prepare_beside<'a>(
    alloc: Global,
    zone: ZoneName,
    global: GlobalZone,
    items: PackageItems,
) -> Result<Prepared, Fault<'a>>
    ensures prepares { PreparesBeside global.sysmods zone items.items.items items.hold_items.items result }
    ensures receive { IfOk result (λ prepared. prepared.jobs.receive.items ≡ receive_records) }
{
    let source = free_source(items.items.as_slice(), &global);
    drop(global);
    let Some(source) = source else {
        return Err(Fault::NoSource);
    };
    match make_rehearsal(alloc, zone, source, items) {
        Ok(jobs) => Ok(Prepared { source, jobs }),
        Err(fault) => Err(fault_of(fault)),
    }
}

// The jobs that receive the package with this source and ask about it.
fn make_rehearsal(
    alloc: Global,
    zone: ZoneName,
    source: Source,
    items: PackageItems,
) -> Result<Rehearsal, PackageFault>
    requires { length source ≤ 15 }
    ensures receive { IfOk result (λ rehearsal. rehearsal.receive.items ≡ receive_records) }
    ensures cntl { IfOk result (λ rehearsal. rehearsal.files.cntl.items ≡ package_commands zone source) }
    ensures records { IfOk result (λ rehearsal. AreRecords (with_source source items.items.items) items.hold_items.items
        rehearsal.files.ptfin.items rehearsal.files.hold.items) }
{
    let receive = two_commands(alloc, b"SET BDY(GLOBAL).", b"RECEIVE.")?;
    let cntl = question_commands(alloc, zone, source)?;
    let all = with_source(alloc, items.items, source)?;
    let records = package_records(alloc, all.as_slice(), items.hold_items.as_slice())?;
    Ok(Rehearsal {
        date: any_date(),
        receive,
        files: JobFiles {
            cntl,
            ptfin: records.ptfin,
            hold: records.hold,
        },
    })
}

// The command file that asks about the package of this source.
fn question_commands(alloc: Global, zone: ZoneName, source: Source) -> Result<Vec<u8>, AllocError>
    requires { length source ≤ 15 }
    ensures { IfOk result (λ file. file.items ≡ package_commands zone source) }
{
    let command = package_command(alloc, source)?;
    commands_in_zone(alloc, zone, command.as_slice())
}
