//! The program, except its input and output.
ghost use Rattle.std.specs.Prelude.{◌≡◌, ◌⊎◌, IfOk, OnErr, All, map, option_map};
ghost use Rattle.std.specs.String.{string_bytes};
ghost use Rattle.intake_words.specs.Asking.{IsShownText};
ghost use Rattle.intake_command.specs.Acts.{IsQuiet, Speaks};
ghost use Rattle.intake_command.specs.Done.{HasDone};
ghost use Rattle.intake_command.specs.Serving.{Ends, EndsWords, EndsAsked, EndsChecked, EndsApart, Serves};
ghost use Rattle.intake_command.specs.Serving.{IsHarmless, folder_of};

use crate::apart::check_apart;
use crate::commands::serve_commands;
use crate::own::check_own;
use crate::service::serve_files;
use crate::surroundings::IntakeHost;
use intake_words::{IntakeFault, IntakeOptions, WordsFault, earlier_files_line, read_options};
use std::alloc::{AllocError, Global};

/// The status of a run that ends with a fault.
const FAULT_STATUS: u8 = 16;

/// Does what the words of the command line ask for. The first word is the program's name. Returns the status: 0, or 4
/// if something is left out that matters, or 12 if a command file has words that are not carried, or 16 if the run ends
/// with a fault. With 12 and 16 the folder has the files that it had.
pub fn command<H: IntakeHost>(
    alloc: Global,
    host: &mut H,
    words: &Result<Vec<Vec<u8>>, AllocError>,
) -> u8
    ensures { HasDone H.IntakeHost (Ends words.now result) host.old host.new }
{
    match words {
        Ok(words) => serve_words(alloc, host, words.as_slice()),
        Err(_) => tell_fault(alloc, host, "", &IntakeFault::Memory),
    }
}

// Reads the words, and then serves what they ask for: help, or files if they are in order. Returns the status.
fn serve_words<H: IntakeHost>(alloc: Global, host: &mut H, words: &[Vec<u8>]) -> u8
    ensures { HasDone H.IntakeHost (EndsWords (map (λ word. word.items) words.now) result) host.old host.new }
{
    match read_options(alloc, words) {
        Ok(asked) => serve_if_own(alloc, host, &asked),
        Err(WordsFault::Clap(error)) => show_clap_text(host, &error),
        Err(fault) => tell_fault(alloc, host, "", &IntakeFault::Words(fault)),
    }
}

// Makes the files if none of those that may be written is another's, and returns the status. Otherwise it reports that
// fault.
fn serve_if_own<H: IntakeHost>(alloc: Global, host: &mut H, asked: &IntakeOptions) -> u8
    ensures { HasDone H.IntakeHost (EndsAsked asked.now result) host.old host.new }
{
    match check_own(alloc, host, asked) {
        Ok(has_earlier) => serve_if_apart(alloc, host, asked, has_earlier),
        Err(fault) => tell_fault(alloc, host, asked.out.as_str(), &fault),
    }
}

// Makes the files if no input is an output, and returns the status. Otherwise it reports that fault. `has_earlier` says
// whether the folder has files of an earlier run.
fn serve_if_apart<H: IntakeHost>(
    alloc: Global,
    host: &mut H,
    asked: &IntakeOptions,
    has_earlier: bool,
) -> u8
    ensures { HasDone H.IntakeHost (EndsChecked asked.now result) host.old host.new }
{
    match check_apart(alloc, host, asked) {
        Ok(()) => serve_or_discard(alloc, host, asked, has_earlier),
        Err(fault) => tell_fault_beside(alloc, host, asked.out.as_str(), &fault, has_earlier),
    }
}

// Makes the files, and after a fault removes the drafts and reports the fault. Returns the status. No input is an
// output.
fn serve_or_discard<H: IntakeHost>(
    alloc: Global,
    host: &mut H,
    asked: &IntakeOptions,
    has_earlier: bool,
) -> u8
    ensures { HasDone H.IntakeHost (EndsApart asked.now result) host.old host.new }
{
    match serve(alloc, host, asked, has_earlier) {
        Ok(status) => status,
        Err(fault) => {
            host.discard_drafts(asked.out.as_str());
            tell_fault_beside(alloc, host, asked.out.as_str(), &fault, has_earlier)
        }
    }
}

// Makes the command file, if one is asked for, or else the files of SYSMODs and holds. Returns the status, or the fault
// that ends the run.
fn serve<H: IntakeHost>(
    alloc: Global,
    host: &mut H,
    asked: &IntakeOptions,
    has_earlier: bool,
) -> Result<u8, IntakeFault>
    ensures ok { IfOk result (λ status. HasDone H.IntakeHost
        (Serves asked.now (option_map string_bytes asked.now.cntl) status) host.old host.new) }
    ensures err { OnErr result (HasDone H.IntakeHost (All (IsHarmless (folder_of asked.now))) host.old host.new) }
{
    match &asked.cntl {
        Some(cntl) => serve_commands(alloc, host, asked, cntl.as_str(), has_earlier),
        None => serve_files(alloc, host, asked),
    }
}

// Shows what `clap` says, and returns the status: 0 for help and version, which are no faults.
fn show_clap_text<H: IntakeHost>(host: &mut H, error: &clap::Error) -> u8
    ensures status { ((result ≡ 0) × IsShownText error.now) ⊎ (result ≡ 16) }
    ensures says { H.does host.old Speaks host.new }
{
    let is_shown = host.show(error).is_ok();
    if is_shown && !error.use_stderr() {
        0
    } else {
        FAULT_STATUS
    }
}

// Writes the lines of the fault, and that the files in the folder are those of an earlier run, if there are any.
// Returns the status.
fn tell_fault_beside<H: IntakeHost>(
    alloc: Global,
    host: &mut H,
    folder: &str,
    fault: &IntakeFault,
    has_earlier: bool,
) -> u8
    ensures status { result ≡ 16 }
    ensures says { HasDone H.IntakeHost (All IsQuiet) host.old host.new }
{
    let status = tell_fault(alloc, host, folder, fault);
    tell_earlier_files(alloc, host, folder, has_earlier);
    status
}

/// Says that the files in the folder are those of an earlier run, if there are any.
pub(crate) fn tell_earlier_files<H: IntakeHost>(
    alloc: Global,
    host: &mut H,
    folder: &str,
    has_earlier: bool,
)
    ensures { HasDone H.IntakeHost (All IsQuiet) host.old host.new }
{
    if !has_earlier {
        return;
    }
    if let Ok(line) = earlier_files_line(alloc, folder) {
        host.tell(&line);
    }
}

// Writes the lines of the fault, and returns the status.
fn tell_fault<H: IntakeHost>(alloc: Global, host: &mut H, folder: &str, fault: &IntakeFault) -> u8
    ensures status { result ≡ 16 }
    ensures says { H.does host.old Speaks host.new }
{
    match fault.lines(alloc, folder) {
        Ok(lines) => host.tell(&lines),
        Err(_) => host.tell(b"smpe-intake: out of memory\n"),
    }
    FAULT_STATUS
}
