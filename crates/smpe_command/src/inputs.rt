//! The files from which a package and a system come, as a certificate names them.
ghost use Rattle.std.specs.Prelude.{◌≡◌, ◌+◌, ◌++◌, [], ◌∷◌, IfOk, IfErr, get_or, length, map};
ghost use Rattle.std.specs.String.{string_bytes};
ghost use Rattle.smpe_certificate.specs.Facts.{input_of};
ghost use Rattle.smpe_certificate.specs.Views.{digest_view};
ghost use Rattle.smpe_jobs.specs.declared.error.JobError.TheVariants.{Memory};
ghost use Rattle.smpe_invocation.specs.declared.asked.CheckedSystem.TheVariants.{Copied};
ghost use Rattle.smpe_command.specs.Packages.{database_inputs, inputs_of, log_inputs};

use smpe::JobError;
use smpe_answer::Digest;
use smpe_invocation::{CheckedSystem, SystemCopy};
use smpe_rehearsal::System;
use std::alloc::{AllocError, Global};

/// The digests of the files of these names with these bytes.
pub(crate) fn file_digests<'a>(
    alloc: Global,
    names: &'a [String],
    files: &[Vec<u8>],
) -> Result<Vec<Digest<'a>>, JobError>
    ensures ok { IfOk result (λ all. map digest_view all.items
        ≡ inputs_of (map string_bytes names.entry.now) (map (λ file. file.items) files.now)) }
    ensures err { IfErr result (λ error. error ≡ Memory) }
{
    let mut digests: Vec<Digest<'a>> = Vec::new(alloc);
    for file in files {
        let name = name_at(names, digests.len());
        digests = with_file(digests, name, file.as_slice())?;
    }
    Ok(digests)
}

/// The name at this place, or an empty one if there is none.
pub(crate) fn name_at(names: &[String], place: usize) -> &str
    ensures { result.now ≡ get_or (map string_bytes names.now) place [] }
{
    match names.get(place) {
        Some(name) => name.as_str(),
        None => "",
    }
}

/// The digests, and after them those of the file of the database and of its log, if the system is a copy of one.
pub(crate) fn with_database<'a>(
    checked: &'a CheckedSystem,
    system: &System,
    digests: Vec<Digest<'a>>,
) -> Result<Vec<Digest<'a>>, JobError>
    ensures ok { IfOk result (λ all. map digest_view all.items
        ≡ map digest_view digests.entry.items ++ database_inputs checked.entry.now system.now) }
    ensures err { IfErr result (λ error. error ≡ Memory) }
{
    match checked {
        CheckedSystem::Empty(_) => Ok(digests),
        CheckedSystem::Copied(copy) => with_copy(copy, system, digests),
    }
}

// The same for a copy of this database.
fn with_copy<'a>(
    copy: &'a SystemCopy,
    system: &System,
    digests: Vec<Digest<'a>>,
) -> Result<Vec<Digest<'a>>, JobError>
    ensures ok { IfOk result (λ all. map digest_view all.items
        ≡ map digest_view digests.entry.items ++ database_inputs (Copied copy.entry.now) system.now) }
    ensures err { IfErr result (λ error. error ≡ Memory) }
{
    match system {
        System::Empty(_) => Ok(digests),
        System::Copied { bytes, .. } => {
            let name = copy.db.name.as_str();
            let digests = with_file(digests, name, bytes.db.as_slice())?;
            Ok(with_log(digests, name, bytes.log.as_slice())?)
        }
    }
}

// The digests, and after them that of the log of the database of this name, if the log has bytes.
fn with_log<'a>(
    digests: Vec<Digest<'a>>,
    name: &'a str,
    log: &[u8],
) -> Result<Vec<Digest<'a>>, AllocError>
    ensures { IfOk result (λ all. map digest_view all.items
        ≡ map digest_view digests.entry.items ++ log_inputs name.entry.now log.now) }
{
    if log.is_empty() {
        return Ok(digests);
    }
    let mut all = digests;
    all.push(Digest::of_log(name, log))?;
    Ok(all)
}

// The digests, and after them that of the file of this name with these bytes.
fn with_file<'a>(
    digests: Vec<Digest<'a>>,
    name: &'a str,
    bytes: &[u8],
) -> Result<Vec<Digest<'a>>, AllocError>
    ensures all { IfOk result (λ all. map digest_view all.items
        ≡ map digest_view digests.entry.items ++ input_of name.entry.now bytes.now ∷ []) }
    ensures count { IfOk result (λ all. length all.items ≡ length digests.entry.items + 1) }
{
    let mut all = digests;
    all.push(Digest::of(name, bytes))?;
    Ok(all)
}
