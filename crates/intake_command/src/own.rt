//! The files of others, which the program never replaces or removes.
ghost use Rattle.std.specs.Prelude.{◌≡◌, false, IfOk, OnOk, OnErr, All, map, option_map};
ghost use Rattle.std.specs.List.{list_any};
ghost use Rattle.std.specs.Str.{bytes_eq};
ghost use Rattle.terms.specs.Lookups.{is_in};
ghost use Rattle.intake_command.specs.Acts.{Begins, Finds, IsQuiet};
ghost use Rattle.intake_command.specs.Done.{HasDone};
ghost use Rattle.intake_command.specs.Serving.{AreOwn, looks, looks_for};

use crate::files::{output_path, outputs_of, remarks_of, written_in};
use crate::surroundings::IntakeHost;
use intake_words::{IntakeFault, IntakeOptions};
use std::alloc::Global;

/// Asks the host whether each file that this run may write is the program's own: an earlier run wrote it, as its
/// remarks say, or it does not exist. Returns whether there are files of an earlier run; `NotOwn` if a file may be
/// another's, `CannotRead` if the host cannot find out, `Memory` if memory runs out.
pub(crate) fn check_own<H: IntakeHost>(
    alloc: Global,
    host: &mut H,
    asked: &IntakeOptions,
) -> Result<bool, IntakeFault>
    ensures ok { OnOk result (HasDone H.IntakeHost (AreOwn asked.now) host.old host.new) }
    ensures err { OnErr result (HasDone H.IntakeHost (All IsQuiet) host.old host.new) }
{
    let folder = asked.out.as_str();
    let remarks = output_path(alloc, folder, remarks_of(asked))?;
    let start = read_start(alloc, host, remarks.as_str())?;
    let written = written_in(&start);
    check_files(alloc, host, folder, written, outputs_of(asked))?;
    Ok(!written.is_empty())
}

// How the file of this path begins, or `None` if there is none. Returns `CannotRead` if the host cannot find out,
// `Memory` if memory runs out.
fn read_start<H: IntakeHost>(
    alloc: Global,
    host: &mut H,
    path: &str,
) -> Result<Option<Vec<u8>>, IntakeFault>
    ensures ok { IfOk result (λ start. H.does host.old (Begins path.now (option_map (λ bytes. bytes.items) start))
        host.new) }
    ensures err { OnErr result (HasDone H.IntakeHost (All IsQuiet) host.old host.new) }
{
    match host.read_start(path) {
        Ok(start) => Ok(start),
        Err(error) => Err(IntakeFault::of_unread_file(alloc, path, error.kind())),
    }
}

// Checks that each of the files is one of those that an earlier run wrote, or does not exist.
fn check_files<H: IntakeHost>(
    alloc: Global,
    host: &mut H,
    folder: &str,
    written: &[&str],
    names: &[&str],
) -> Result<(), IntakeFault>
    ensures ok { OnOk result (HasDone H.IntakeHost (λ acts. acts ≡ looks folder.now
        (map (λ name. name.now) written.now) (map (λ name. name.now) names.now)) host.old host.new) }
    ensures err { OnErr result (HasDone H.IntakeHost (All IsQuiet) host.old host.new) }
{
    for name in names {
        check_file(alloc, host, folder, written, *name)?;
    }
    Ok(())
}

// Checks that the file is one of those that an earlier run wrote, or does not exist.
fn check_file<H: IntakeHost>(
    alloc: Global,
    host: &mut H,
    folder: &str,
    written: &[&str],
    name: &str,
) -> Result<(), IntakeFault>
    ensures ok { OnOk result (HasDone H.IntakeHost (λ acts. acts ≡ looks_for folder.now
        (map (λ name. name.now) written.now) name.now) host.old host.new) }
    ensures err { OnErr result (HasDone H.IntakeHost (All IsQuiet) host.old host.new) }
{
    if is_written(written, name) {
        return Ok(());
    }
    let path = output_path(alloc, folder, name)?;
    check_absent(alloc, host, path.as_str())
}

// Whether the name is one of these.
fn is_written(written: &[&str], name: &str) -> bool
    ensures { result ≡ is_in (map (λ name. name.now) written.now) name.now }
{
    is_one_of(written, name)
}

// The same, in terms of the slices.
fn is_one_of(written: &[&str], name: &str) -> bool
    ensures { result ≡ list_any (λ one. bytes_eq name.now one.now) written.now }
{
    written.iter().any(|one| name == *one)
}

// Checks that nothing has this path. Returns `NotOwn` if something has it.
fn check_absent<H: IntakeHost>(alloc: Global, host: &mut H, path: &str) -> Result<(), IntakeFault>
    ensures ok { OnOk result (H.does host.old (Finds path.now false) host.new) }
    ensures err { OnErr result (HasDone H.IntakeHost (All IsQuiet) host.old host.new) }
{
    let is_present = match host.is_present(path) {
        Ok(is_present) => is_present,
        Err(error) => return Err(IntakeFault::of_unread_file(alloc, path, error.kind())),
    };
    if is_present {
        return Err(IntakeFault::of_file_not_own(alloc, path));
    }
    Ok(())
}
