//! Calls of the host, whose errors become faults of the run.
ghost use Rattle.std.specs.Prelude.{IfOk, OnOk, OnErr, All, map};
ghost use Rattle.std.specs.declared.io.Error.{Error};
ghost use Rattle.intake_command.specs.Acts.{Gives, IsQuiet, Drafts, Puts, Leaves, Prints, Speaks};
ghost use Rattle.intake_command.specs.Done.{HasDone};
ghost use Rattle.intake_command.specs.Files.{named};

use crate::files::NamedFile;
use crate::surroundings::IntakeHost;
use intake_words::IntakeFault;
use std::alloc::Global;
use std::io::ErrorKind;

/// The bytes of a file. Returns `CannotRead` if the host cannot read it, `Memory` if memory runs out.
pub(crate) fn read_input<H: IntakeHost>(
    alloc: Global,
    host: &mut H,
    name: &str,
) -> Result<Vec<u8>, IntakeFault>
    ensures ok { IfOk result (λ bytes. H.does host.old (Gives name.now bytes.items) host.new) }
    ensures err { OnErr result (HasDone H.IntakeHost (All IsQuiet) host.old host.new) }
{
    match host.read(name) {
        Ok(bytes) => Ok(bytes),
        Err(error) => Err(IntakeFault::of_unread_file(alloc, name, error.kind())),
    }
}

/// The bytes of a file, or `None` if there is none of this name. Returns `CannotRead` if the host cannot read it,
/// `Memory` if memory runs out.
pub(crate) fn read_if_present<H: IntakeHost>(
    alloc: Global,
    host: &mut H,
    name: &str,
) -> Result<Option<Vec<u8>>, IntakeFault>
    ensures { HasDone H.IntakeHost (All IsQuiet) host.old host.new }
{
    match host.read(name) {
        Ok(bytes) => Ok(Some(bytes)),
        Err(error) => none_if_absent(alloc, name, error.kind()),
    }
}

// `None` if the error says that there is no such file. Returns `CannotRead` for any other error, but `Memory` if memory
// runs out.
fn none_if_absent(
    alloc: Global,
    name: &str,
    kind: ErrorKind,
) -> Result<Option<Vec<u8>>, IntakeFault> {
    match kind {
        ErrorKind::NotFound => Ok(None),
        _ => Err(IntakeFault::of_unread_file(alloc, name, kind)),
    }
}

/// Appends the bytes to the draft of the file. Returns `CannotWrite` if that cannot be done.
pub(crate) fn append_to_draft<H: IntakeHost>(
    host: &mut H,
    folder: &str,
    name: &'static str,
    bytes: &[u8],
) -> Result<(), IntakeFault>
    ensures ok { OnOk result (H.does host.old (Drafts folder.now name.now bytes.now) host.new) }
    ensures err { OnErr result ((error : Error) × H.does host.old (Leaves folder.now error) host.new) }
{
    match host.append_to_draft(folder, name, bytes) {
        Ok(()) => Ok(()),
        Err(_) => Err(IntakeFault::CannotWrite),
    }
}

/// Puts the files into the folder, and removes the other ones. Returns `CannotWrite` if that cannot be done.
pub(crate) fn put_files<H: IntakeHost>(
    host: &mut H,
    folder: &str,
    files: &[NamedFile],
    removed: &[&'static str],
) -> Result<(), IntakeFault>
    ensures ok { OnOk result (H.does host.old (Puts folder.now (map named files.now) (map (λ name. name.now)
        removed.now)) host.new) }
    ensures err { OnErr result ((error : Error) × H.does host.old (Leaves folder.now error) host.new) }
{
    match host.keep(folder, files, removed) {
        Ok(()) => Ok(()),
        Err(_) => Err(IntakeFault::CannotWrite),
    }
}

/// Prints the summary. Returns `CannotPrint` if the host cannot print it.
pub(crate) fn print_summary<H: IntakeHost>(host: &mut H, text: &[u8]) -> Result<(), IntakeFault>
    ensures ok { OnOk result (H.does host.old (Prints text.now) host.new) }
    ensures err { OnErr result (H.does host.old Speaks host.new) }
{
    match host.print(text) {
        Ok(()) => Ok(()),
        Err(_) => Err(IntakeFault::CannotPrint),
    }
}
