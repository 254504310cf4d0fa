//! The service set that is checked, and the system in which that is done.
ghost use Rattle.std.specs.Prelude.{◌≡◌, Option, IfOk, IfErr, codes};
ghost use Rattle.terms.specs.Types.{Text};
ghost use Rattle.clap.specs.Words.{found_of, rows_of};
ghost use Rattle.smpe_invocation.specs.Answers.{Excludes};
ghost use Rattle.smpe_invocation.specs.Values.{HasCommands, HasCopy, HasMendedSystem, HasServiceSet, HasSetFiles};
ghost use Rattle.smpe_invocation.specs.Values.{HasSystem, IsEmptySystem, Lacks};
ghost use Rattle.smpe_invocation.specs.declared.asked.CheckedSystem.{CheckedSystem};
ghost use Rattle.smpe_invocation.specs.declared.asked.CommandJob.{CommandJob};
ghost use Rattle.smpe_invocation.specs.declared.asked.ServiceSet.{ServiceSet};
ghost use Rattle.smpe_invocation.specs.declared.asked.SetFiles.{SetFiles};
ghost use Rattle.smpe_invocation.specs.declared.asked.SystemCopy.{SystemCopy};

use crate::asked::{CheckedSystem, CommandJob, ServiceSet, SetFiles, SystemCopy};
use crate::fault::ArgFault;
use crate::option_values::{
    copy_optional_text, copy_required_text, lacks, read_database, read_files, read_job_date,
    read_optional_ids, read_srel, read_zone_name,
};
use clap::ArgMatches;
use fields::{Id, Srel};
use std::alloc::Global;

/// Reads the system in which to check: the copy of a database if `--db` is given, otherwise an empty system.
pub(crate) fn read_checked_system(
    alloc: Global,
    found: &ArgMatches<'_>,
) -> Result<CheckedSystem, ArgFault>
    ensures ok { IfOk result (HasSystem (rows_of (found_of found.now))) }
    ensures err { IfErr result (λ e. Excludes e ((system : CheckedSystem)
        × HasSystem (rows_of (found_of found.now)) system)) }
{
    if lacks(found, "db") {
        read_empty_system(found)
    } else {
        read_copied_system(alloc, found)
    }
}

/// Reads the system in which SYSMODs do not go on: the copy of a database if `--db` is given, otherwise an empty one.
pub(crate) fn read_mended_system(
    alloc: Global,
    found: &ArgMatches<'_>,
) -> Result<CheckedSystem, ArgFault>
    ensures ok { IfOk result (HasMendedSystem (rows_of (found_of found.now))) }
    ensures err { IfErr result (λ e. Excludes e ((system : CheckedSystem)
        × HasMendedSystem (rows_of (found_of found.now)) system)) }
{
    if lacks(found, "db") {
        let srel = read_empty_srel(found)?;
        Ok(CheckedSystem::Empty(srel))
    } else {
        let copy = read_system_copy(alloc, found, Vec::new(alloc))?;
        Ok(CheckedSystem::Copied(copy))
    }
}

// Reads an empty system. Returns `BadOperand` if there are ids to ask about.
fn read_empty_system(found: &ArgMatches<'_>) -> Result<CheckedSystem, ArgFault>
    requires { Lacks (codes "db") (rows_of (found_of found.now)) }
    ensures ok { IfOk result (HasSystem (rows_of (found_of found.now))) }
    ensures err { IfErr result (λ e. Excludes e ((system : CheckedSystem)
        × HasSystem (rows_of (found_of found.now)) system)) }
{
    if !lacks(found, "why") {
        return Err(ArgFault::BadOperand);
    }
    let srel = read_empty_srel(found)?;
    Ok(CheckedSystem::Empty(srel))
}

// Reads the copy of a database, and the ids to ask about.
fn read_copied_system(alloc: Global, found: &ArgMatches<'_>) -> Result<CheckedSystem, ArgFault>
    requires { ¬ (Lacks (codes "db") (rows_of (found_of found.now))) }
    ensures ok { IfOk result (HasSystem (rows_of (found_of found.now))) }
    ensures err { IfErr result (λ e. Excludes e ((system : CheckedSystem)
        × HasSystem (rows_of (found_of found.now)) system)) }
{
    let ids = read_optional_ids(alloc, found, "why")?;
    let copy = read_system_copy(alloc, found, ids)?;
    Ok(CheckedSystem::Copied(copy))
}

// Reads the SREL of an empty system. Returns `BadOperand` if an option of a copy is given.
fn read_empty_srel(found: &ArgMatches<'_>) -> Result<Srel, ArgFault>
    requires { Lacks (codes "db") (rows_of (found_of found.now)) }
    ensures ok { IfOk result (λ srel. IsEmptySystem (rows_of (found_of found.now)) srel) }
    ensures err { IfErr result (λ e. Excludes e ((srel : Text) × IsEmptySystem (rows_of (found_of found.now)) srel)) }
{
    if lacks(found, "wait") && lacks(found, "zone") {
        read_srel(found)
    } else {
        Err(ArgFault::BadOperand)
    }
}

// Reads the database to copy and the zone, and takes the ids as they are. Returns `BadOperand` if an SREL is given.
fn read_system_copy(
    alloc: Global,
    found: &ArgMatches<'_>,
    ids: Vec<Id>,
) -> Result<SystemCopy, ArgFault>
    ensures ok { IfOk result (HasCopy (rows_of (found_of found.now))) }
    ensures ids { IfOk result (λ copy. copy.ids.items ≡ ids.items) }
    ensures err { IfErr result (λ e. Excludes e ((copy : SystemCopy) × HasCopy (rows_of (found_of found.now)) copy)) }
{
    if !lacks(found, "srel") {
        return Err(ArgFault::BadOperand);
    }
    let zone = read_zone_name(found, "zone")?;
    let db = read_database(alloc, found)?;
    Ok(SystemCopy { db, zone, ids })
}

// Reads the file of commands and the date of their job, if `--cntl` is given. Without it, `--date` is not read.
fn read_command_job(alloc: Global, found: &ArgMatches<'_>) -> Result<Option<CommandJob>, ArgFault>
    ensures ok { IfOk result (HasCommands (rows_of (found_of found.now))) }
    ensures err { IfErr result (λ e. Excludes e ((commands : Option CommandJob)
        × HasCommands (rows_of (found_of found.now)) commands)) }
{
    if lacks(found, "cntl") {
        return Ok(None);
    }
    let date = read_job_date(found)?;
    let cntl = copy_required_text(alloc, found, "cntl")?;
    Ok(Some(CommandJob { cntl, date }))
}

// Reads the names of the service set's files: those of records if `--ptfin` is given, otherwise those that come as they
// are.
fn read_set_files(alloc: Global, found: &ArgMatches<'_>) -> Result<SetFiles, ArgFault>
    ensures ok { IfOk result (HasSetFiles (rows_of (found_of found.now))) }
    ensures err { IfErr result (λ e. Excludes e ((files : SetFiles)
        × HasSetFiles (rows_of (found_of found.now)) files)) }
{
    if lacks(found, "ptfin") {
        read_files_as_they_come(alloc, found)
    } else {
        read_record_files(alloc, found)
    }
}

// Reads the names of files that come as they are. Returns `BadOperand` if there are none, or if `--hold` is given.
fn read_files_as_they_come(alloc: Global, found: &ArgMatches<'_>) -> Result<SetFiles, ArgFault>
    requires { Lacks (codes "ptfin") (rows_of (found_of found.now)) }
    ensures ok { IfOk result (HasSetFiles (rows_of (found_of found.now))) }
    ensures err { IfErr result (λ e. Excludes e ((files : SetFiles)
        × HasSetFiles (rows_of (found_of found.now)) files)) }
{
    if !lacks(found, "hold") {
        return Err(ArgFault::BadOperand);
    }
    let files = read_files(alloc, found)?;
    Ok(SetFiles::AsTheyCome(files))
}

// Reads the names of the files of records. Returns `BadOperand` if files that come as they are are named too.
fn read_record_files(alloc: Global, found: &ArgMatches<'_>) -> Result<SetFiles, ArgFault>
    requires { ¬ (Lacks (codes "ptfin") (rows_of (found_of found.now))) }
    ensures ok { IfOk result (HasSetFiles (rows_of (found_of found.now))) }
    ensures err { IfErr result (λ e. Excludes e ((files : SetFiles)
        × HasSetFiles (rows_of (found_of found.now)) files)) }
{
    if !lacks(found, "file") {
        return Err(ArgFault::BadOperand);
    }
    let ptfin = copy_required_text(alloc, found, "ptfin")?;
    let hold = copy_optional_text(alloc, found, "hold")?;
    Ok(SetFiles::Records { ptfin, hold })
}

/// Reads the names of the service set's files, and the commands to check it with.
pub(crate) fn read_service_set(
    alloc: Global,
    found: &ArgMatches<'_>,
) -> Result<ServiceSet, ArgFault>
    ensures ok { IfOk result (HasServiceSet (rows_of (found_of found.now))) }
    ensures err { IfErr result (λ e. Excludes e ((set : ServiceSet)
        × HasServiceSet (rows_of (found_of found.now)) set)) }
{
    let commands = read_command_job(alloc, found)?;
    let files = read_set_files(alloc, found)?;
    Ok(ServiceSet { files, commands })
}
