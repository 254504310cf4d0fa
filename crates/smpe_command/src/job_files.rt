//! The files of a job.
ghost use Rattle.std.specs.Prelude.{◌≡◌, ◌++◌, [], ◌∷◌, Some, IfOk, IfErr, Ok, Err, map, option_copied};
ghost use Rattle.std.specs.String.{string_bytes};
ghost use Rattle.smpe_jobs.specs.declared.error.JobError.TheVariants.{Memory};
ghost use Rattle.smpe_command.specs.Reading.{FailsToRead, Reads, ReadsAll};

use crate::host::Host;
use smpe::{Fault, JobError};
use smpe_rehearsal::JobFiles;
use std::alloc::Global;
use std::io::ErrorKind;

/// Reads the files of a job in this order. A file that the words do not name has no bytes. Returns `CannotRead` with
/// the name of the first that cannot be read, or `Job` with `Memory` if memory runs out.
pub(crate) fn read_files<'a, H: Host>(
    alloc: Global,
    host: &mut H,
    cntl: Option<&'a str>,
    ptfin: Option<&'a str>,
    hold: Option<&'a str>,
) -> Result<JobFiles, Fault<'a>>
    ensures ok { IfOk result (λ files. ReadsAll H.Host host.old (option_copied cntl.entry ∷ option_copied ptfin.entry
        ∷ option_copied hold.entry ∷ []) (Ok (files.cntl.items ∷ files.ptfin.items ∷ files.hold.items ∷ [])) host.new) }
    ensures err { IfErr result (λ fault. ReadsAll H.Host host.old (option_copied cntl.entry ∷ option_copied ptfin.entry
        ∷ option_copied hold.entry ∷ []) (Err fault) host.new) }
{
    let cntl = read_file(alloc, host, cntl)?;
    let ptfin = read_file(alloc, host, ptfin)?;
    let hold = read_file(alloc, host, hold)?;
    Ok(JobFiles { cntl, ptfin, hold })
}

/// Reads the files of these names in this order. Returns `CannotRead` with the name of the first that cannot be read,
/// or `Job` with `Memory` if memory runs out.
pub(crate) fn read_each<'a, H: Host>(
    alloc: Global,
    host: &mut H,
    names: &'a [String],
) -> Result<Vec<Vec<u8>>, Fault<'a>>
    ensures ok { IfOk result (λ files. ReadsAll H.Host host.old (map (λ name. Some (string_bytes name)) names.entry.now)
        (Ok (map (λ file. file.items) files.items)) host.new) }
    ensures err { IfErr result (λ fault. FailsToRead H.Host host.old (map (λ name. Some (string_bytes name))
        names.entry.now) fault host.new) }
{
    let mut files = Vec::new(alloc);
    for name in names {
        let file = read_file(alloc, host, Some(name.as_str()))?;
        push_file(&mut files, file)?;
    }
    Ok(files)
}

// Appends the file, or returns `Memory`.
fn push_file(files: &mut Vec<Vec<u8>>, file: Vec<u8>) -> Result<(), JobError>
    ensures ok { IfOk result (λ _. files.new.items ≡ files.old.items ++ file ∷ []) }
    ensures err { IfErr result (λ error. error ≡ Memory) }
{
    match files.push(file) {
        Ok(()) => Ok(()),
        Err(_) => Err(JobError::Memory),
    }
}

/// The bytes of the file, or none if the words name no file. The errors are those of `read_files`.
pub(crate) fn read_file<'a, H: Host>(
    alloc: Global,
    host: &mut H,
    name: Option<&'a str>,
) -> Result<Vec<u8>, Fault<'a>>
    ensures ok { IfOk result (λ bytes. Reads H.Host host.old (option_copied name.entry) (Ok bytes.items) host.new) }
    ensures err { IfErr result (λ fault. Reads H.Host host.old (option_copied name.entry) (Err fault) host.new) }
{
    let Some(name) = name else {
        return Ok(Vec::new(alloc));
    };
    match host.read(name) {
        Ok(bytes) => Ok(bytes),
        Err(error) => match error.kind() {
            ErrorKind::OutOfMemory => Err(Fault::Job(JobError::Memory)),
            _ => Err(Fault::CannotRead(name)),
        },
    }
}
