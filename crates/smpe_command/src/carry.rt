//! A shop's own files become a package.
ghost use Rattle.std.specs.Prelude.{◌≡◌, IfOk, IfErr, length, map};
ghost use Rattle.smpe_package.specs.Package.{IsPackage};
ghost use Rattle.smpe_rehearsal.specs.Prepared.{IsNotCarried};
ghost use Rattle.smpe_rehearsal.specs.Told.{TellsText};

use crate::inputs::name_at;
use report::{Sink, write_all};
use smpe::{Fault, JobError};
use smpe_package::{GivenFile, Package, carry_package};
use smpe_rehearsal::fault_of;
use std::alloc::{AllocError, Global};

/// The package of files with these names and bytes. Afterwards their bytes are gone.
pub(crate) fn carry_files<'a>(
    alloc: Global,
    names: &[String],
    files: Vec<Vec<u8>>,
) -> Result<Package, Fault<'a>>
    ensures ok { IfOk result (IsPackage (length files.items)) }
    ensures err { IfErr result IsNotCarried }
{
    let Ok(given) = given_files(alloc, names, files.as_slice()) else {
        return Err(Fault::Job(JobError::Memory));
    };
    match carry_package(alloc, given.as_slice()) {
        Ok(package) => Ok(package),
        Err(fault) => Err(fault_of(fault)),
    }
}

/// The files with these names and bytes, by which they are carried.
pub(crate) fn given_files<'a>(
    alloc: Global,
    names: &'a [String],
    files: &'a [Vec<u8>],
) -> Result<Vec<GivenFile<'a>>, AllocError>
    ensures { IfOk result (λ given. map (λ file. file.bytes.now) given.items
        ≡ map (λ file. file.items) files.entry.now) }
{
    let mut given: Vec<GivenFile<'a>> = Vec::new(alloc);
    for file in files {
        let name = name_at(names, given.len());
        let bytes = file.as_slice();
        given.push(GivenFile { name, bytes })?;
    }
    Ok(given)
}

/// Writes the remarks on the package, and returns the status that they bring.
pub(crate) fn write_remarks<O: Sink>(carried: &Package, out: &mut O) -> Result<u8, JobError>
    ensures { TellsText O.Sink out.old out.new carried.now.remarks.items carried.now.status result }
{
    write_all(carried.remarks.as_slice(), out)?;
    Ok(carried.status)
}
