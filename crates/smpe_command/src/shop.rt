//! A shop's own files are checked with commands: the package that they come to.
ghost use Rattle.std.specs.Prelude.{◌≡◌, Some, IfOk, IfErr, length, map};
ghost use Rattle.std.specs.String.{string_bytes};
ghost use Rattle.smpe_package.specs.Package.{AreRecords};
ghost use Rattle.smpe_rehearsal.specs.Prepared.{IsNotCarried};
ghost use Rattle.smpe_command.specs.Shop.{CarriesAndChecks, ChecksItems, ChecksPackage, ServesShop};

use crate::carry::{carry_files, write_remarks};
use crate::checks::check_in_system;
use crate::host::Host;
use crate::job_files::{read_each, read_file};
use report::Sink;
use smpe::{CommandJob, Fault};
use smpe_invocation::CheckedSystem;
use smpe_package::{Package, package_records};
use smpe_rehearsal::{JobFiles, PackageItems, fault_of, status_or_fault};
use sqlite_disk::{Disk, Memory};
use std::alloc::Global;

/// Checks the package of the files of these names with the commands, and returns the status. All files are read before
/// anything is made or copied. Returns `CannotRead` if one of them cannot be read, `NotCarried` if they cannot be
/// carried, and `Job` for a fault of the jobs, of the database or of memory.
pub(crate) fn serve_shop<'a, H: Host, O: Sink>(
    alloc: Global,
    host: &mut H,
    system: &CheckedSystem,
    commands: &'a Option<CommandJob>,
    names: &'a [String],
    out: &mut O,
) -> Result<u8, Fault<'a>>
    ensures { ServesShop H.Host ⟦<Memory as Disk>⟧ O.Sink host.old out.old system.now commands.entry.now
        (map (λ name. Some (string_bytes name)) names.entry.now) result host.new out.new }
{
    let cntl = commands.as_ref().map(|commands| commands.cntl.as_str());
    let cntl = read_file(alloc, host, cntl)?;
    let files = read_each(alloc, host, names)?;
    carry_and_check(alloc, host, system, commands, cntl, names, files, out)
}

// Makes a package of the files, and checks it.
fn carry_and_check<'a, H: Host, O: Sink>(
    alloc: Global,
    host: &mut H,
    system: &CheckedSystem,
    commands: &Option<CommandJob>,
    cntl: Vec<u8>,
    names: &[String],
    files: Vec<Vec<u8>>,
    out: &mut O,
) -> Result<u8, Fault<'a>>
    ensures { CarriesAndChecks H.Host ⟦<Memory as Disk>⟧ O.Sink system.now commands.now cntl.items host.old
        (length files.items) out.old result host.new out.new }
{
    let carried = carry_files(alloc, names, files)?;
    check_package(alloc, host, system, commands, cntl, carried, out)
}

// Writes the remarks on the package, and checks it.
fn check_package<'a, H: Host, O: Sink>(
    alloc: Global,
    host: &mut H,
    system: &CheckedSystem,
    commands: &Option<CommandJob>,
    cntl: Vec<u8>,
    carried: Package,
    out: &mut O,
) -> Result<u8, Fault<'a>>
    ensures { ChecksPackage H.Host ⟦<Memory as Disk>⟧ O.Sink system.now commands.now cntl.items host.old carried
        out.old result host.new out.new }
{
    let status = write_remarks(&carried, out)?;
    let items = PackageItems {
        items: carried.items,
        hold_items: carried.hold_items,
    };
    let checked = check_items(alloc, host, system, commands, cntl, items, out)?;
    Ok(checked.max(status))
}

// Checks the items, as records, with the commands.
fn check_items<'a, H: Host, O: Sink>(
    alloc: Global,
    host: &mut H,
    system: &CheckedSystem,
    commands: &Option<CommandJob>,
    cntl: Vec<u8>,
    items: PackageItems,
    out: &mut O,
) -> Result<u8, Fault<'a>>
    ensures { ChecksItems H.Host ⟦<Memory as Disk>⟧ O.Sink system.now commands.now cntl.items host.old out.old
        items.items.items items.hold_items.items result host.new out.new }
{
    let files = item_files(alloc, cntl, &items)?;
    status_or_fault(check_in_system(alloc, host, system, commands, files, out))
}

// The files of a job with these commands that receives these items. Returns `NotCarried` if the records are not read
// back as the items.
fn item_files<'a>(alloc: Global, cntl: Vec<u8>, items: &PackageItems) -> Result<JobFiles, Fault<'a>>
    ensures cntl { IfOk result (λ files. files.cntl ≡ cntl) }
    ensures records { IfOk result (λ files. AreRecords items.now.items.items items.now.hold_items.items
        files.ptfin.items files.hold.items) }
    ensures err { IfErr result IsNotCarried }
{
    match package_records(alloc, items.items.as_slice(), items.hold_items.as_slice()) {
        Ok(records) => Ok(JobFiles {
            cntl,
            ptfin: records.ptfin,
            hold: records.hold,
        }),
        Err(fault) => Err(fault_of(fault)),
    }
}
