//! A run over a command file.
ghost use Rattle.std.specs.Prelude.{◌∷◌, [], List, IfOk, OnOk, OnErr, All, Some, map};
ghost use Rattle.std.specs.String.{string_bytes};
ghost use Rattle.terms.specs.Types as terms;
ghost use Rattle.terms.specs.Commands.{IsCommandFile};
ghost use Rattle.intake_holds.specs.Become.{Become};
ghost use Rattle.intake_asked.specs.Known.{IsKnownFile};
ghost use Rattle.intake_command.specs.Acts.{Gives, IsQuiet};
ghost use Rattle.intake_command.specs.Done.{HasDone};
ghost use Rattle.intake_command.specs.Outcome.{IsSaidIfCarried, HasBytesIfCarried};
ghost use Rattle.intake_command.specs.Serving.{Serves, IsKnown, IsKnownRead, IsHarmless, folder_of};
ghost use Rattle.intake_command.specs.Serving.{KeepsCommands};

use crate::files::command_line;
use crate::host_calls::{append_to_draft, print_summary, read_input};
use crate::keep::keep_commands;
use crate::program::tell_earlier_files;
use crate::surroundings::IntakeHost;
use intake_asked::{
    KnownFile, KnownList, KnownSysmods, gather_known, is_statement_file, known_of_statements,
    read_known, wide_commands,
};
use intake_carry::OutsideHolds;
use intake_cntl::{CommandFile, command_file};
use intake_service::read_file;
use intake_words::{
    CardOptions, InputFiles, IntakeFault, IntakeOptions, append_remark_lines, command_summary,
    refused_command_lines, refused_command_summary,
};
use std::alloc::{AllocError, Global};

/// The status of a run whose command file has words that are not carried.
const REFUSED_STATUS: u8 = 12;

/// What a run makes of a command file that is carried: its records, the remarks, and the summary.
#[derive(Drop)]
struct CommandsOutput {
    bytes: Vec<u8>,
    remarks: Vec<u8>,
    summary: Vec<u8>,
}

/// What a run tells about a command file that is refused: a line for each word that is not carried, and the summary.
#[derive(Drop)]
struct Refusal {
    lines: Vec<u8>,
    summary: Vec<u8>,
}

/// What becomes of a command file.
#[derive(Drop)]
enum CommandsOutcome {
    Carried(CommandsOutput),
    Refused(Refusal),
}

/// Puts the command file into the folder with its remarks, if all of it is carried, and prints the summary before.
/// Otherwise writes what is refused on standard error. Returns the status, or a fault if nothing was put there.
/// `has_earlier` says whether the folder has files of an earlier run.
pub(crate) fn serve_commands<H: IntakeHost>(
    alloc: Global,
    host: &mut H,
    asked: &IntakeOptions,
    name: &str,
    has_earlier: bool,
) -> Result<u8, IntakeFault>
    ensures ok { IfOk result (λ status. HasDone H.IntakeHost (Serves asked.now (Some name.now) status)
        host.old host.new) }
    ensures err { OnErr result (HasDone H.IntakeHost (All (IsHarmless (folder_of asked.now))) host.old host.new) }
{
    let bytes = read_input(alloc, host, name)?;
    let known = read_known_sysmods(alloc, host, &asked.known)?;
    match commands_outcome(alloc, asked, name, bytes, &known)? {
        CommandsOutcome::Carried(made) => {
            keep_commands_output(host, asked.out.as_str(), made)?;
            Ok(0)
        }
        CommandsOutcome::Refused(refusal) => {
            tell_refusal(alloc, host, asked.out.as_str(), &refusal, has_earlier)?;
            Ok(REFUSED_STATUS)
        }
    }
}

// Prints the summary of a command file that is refused, and writes what is refused on standard error. Returns
// `CannotPrint` if the summary cannot be printed.
fn tell_refusal<H: IntakeHost>(
    alloc: Global,
    host: &mut H,
    folder: &str,
    refusal: &Refusal,
    has_earlier: bool,
) -> Result<(), IntakeFault>
    ensures { HasDone H.IntakeHost (All IsQuiet) host.old host.new }
{
    print_summary(host, &refusal.summary)?;
    host.tell(&refusal.lines);
    tell_earlier_files(alloc, host, folder, has_earlier);
    Ok(())
}

// The SYSMODs that these files name. Returns `CannotRead` if the host cannot read one, `KnownLine` if a line of a list
// is not in form, a fault of its statements, or `Memory` if memory runs out.
fn read_known_sysmods<H: IntakeHost>(
    alloc: Global,
    host: &mut H,
    names: &[String],
) -> Result<KnownSysmods, IntakeFault>
    ensures ok { IfOk result (λ known. HasDone H.IntakeHost (IsKnown (map string_bytes names.now) known)
        host.old host.new) }
    ensures err { OnErr result (HasDone H.IntakeHost (All IsQuiet) host.old host.new) }
{
    let files = read_known_files(alloc, host, names)?;
    Ok(gather_known(alloc, files)?)
}

// The SYSMODs of each of these files.
fn read_known_files<H: IntakeHost>(
    alloc: Global,
    host: &mut H,
    names: &[String],
) -> Result<Vec<KnownFile>, IntakeFault>
    ensures ok { IfOk result (λ files. HasDone H.IntakeHost (Become IsKnownRead (map string_bytes names.now) files.items)
        host.old host.new) }
    ensures err { OnErr result (HasDone H.IntakeHost (All IsQuiet) host.old host.new) }
{
    let mut files = Vec::new(alloc);
    for name in names {
        let file = read_known_file(alloc, host, name.as_str())?;
        files.push(file)?;
    }
    Ok(files)
}

// The SYSMODs of the file of this name.
fn read_known_file<H: IntakeHost>(
    alloc: Global,
    host: &mut H,
    name: &str,
) -> Result<KnownFile, IntakeFault>
    ensures ok { IfOk result (λ file. HasDone H.IntakeHost (IsKnownRead name.now (file ∷ [])) host.old host.new) }
    ensures err { OnErr result (HasDone H.IntakeHost (All IsQuiet) host.old host.new) }
{
    let bytes = read_input(alloc, host, name)?;
    let file = known_file(alloc, name, &bytes)?;
    Ok(file)
}

// The SYSMODs that the bytes name: those of a PTFIN, if a statement begins in it, or else those of a list.
fn known_file(alloc: Global, name: &str, bytes: &[u8]) -> Result<KnownFile, IntakeFault>
    ensures { IfOk result (IsKnownFile bytes.now) }
{
    if is_statement_file(alloc, bytes)? {
        known_ptfin(alloc, name, bytes)
    } else {
        known_list(alloc, name, bytes)
    }
}

// The SYSMODs of a PTFIN. Returns `NoCards` if the bytes cannot be read as cards, `Statements` if the cards have no
// statements that can be read, `Memory` if memory runs out.
fn known_ptfin(alloc: Global, name: &str, bytes: &[u8]) -> Result<KnownFile, IntakeFault>
    ensures { IfOk result (IsKnownFile bytes.now) }
{
    let mut inputs = InputFiles::new(alloc);
    let mut held = OutsideHolds::new(alloc);
    let guessed = CardOptions {
        layout: None,
        code: None,
    };
    let file = read_file(alloc, &mut inputs, name, bytes, guessed, &mut held)?;
    Ok(known_of_statements(alloc, &file)?)
}

// The SYSMODs of a list. Returns `KnownLine` if a line is not in form, `Memory` if memory runs out.
fn known_list(alloc: Global, name: &str, bytes: &[u8]) -> Result<KnownFile, IntakeFault>
    ensures { IfOk result (IsKnownFile bytes.now) }
{
    match read_known(alloc, bytes)? {
        KnownList::Sysmods(sysmods) => Ok(KnownFile {
            sysmods,
            is_ptfin: false,
        }),
        KnownList::BadLine(line) => Err(IntakeFault::of_known_line(alloc, name, line)),
    }
}

// What becomes of the commands of these bytes. Returns `NoStatement` if there is no command, `NoCards` if the bytes
// cannot be read as cards, `Memory` if memory runs out.
fn commands_outcome(
    alloc: Global,
    asked: &IntakeOptions,
    name: &str,
    bytes: Vec<u8>,
    known: &KnownSysmods,
) -> Result<CommandsOutcome, IntakeFault>
    ensures { IfOk result (IsSaidIfCarried known.now) }
{
    let mut inputs = InputFiles::new(alloc);
    let cards = inputs.read_cards(alloc, name, &bytes, asked.cards)?;
    let wide = wide_commands(alloc, &cards)?;
    let file = command_file(alloc, &cards, &wide, known)?;
    if file.carried == 0 && file.not_carried == 0 {
        return Err(IntakeFault::NoStatement);
    }
    Ok(outcome_of_file(alloc, &mut inputs, file)?)
}

// The command file with its remarks and its summary, or what is refused of it.
fn outcome_of_file(
    alloc: Global,
    inputs: &mut InputFiles,
    file: CommandFile,
) -> Result<CommandsOutcome, AllocError>
    ensures { IfOk result (HasBytesIfCarried file.bytes) }
{
    let CommandFile {
        bytes,
        remarks: remark_list,
        carried,
        not_carried,
    } = file;
    let Some(bytes) = bytes else {
        return Ok(CommandsOutcome::Refused(Refusal {
            lines: refused_command_lines(alloc, inputs, &remark_list)?,
            summary: refused_command_summary(alloc, &remark_list)?,
        }));
    };
    let mut remarks = inputs.take_reading_lines(alloc);
    append_remark_lines(alloc, inputs, &remark_list, &mut remarks)?;
    let summary = command_summary(alloc, carried, not_carried, &remark_list)?;
    Ok(CommandsOutcome::Carried(CommandsOutput {
        bytes,
        remarks,
        summary,
    }))
}

// Drafts the first line of the remarks, prints the summary, and puts the command file and its remarks into the folder.
// Returns `CannotPrint` if the summary cannot be printed, `CannotWrite` if the folder does not take the files.
fn keep_commands_output<H: IntakeHost>(
    host: &mut H,
    folder: &str,
    made: CommandsOutput,
) -> Result<(), IntakeFault>
    ensures ok { (said : List terms.Command) → IsCommandFile made.bytes.items said
        → OnOk result (HasDone H.IntakeHost (KeepsCommands folder.now said) host.old host.new) }
    ensures err { OnErr result (HasDone H.IntakeHost (All (IsHarmless folder.now)) host.old host.new) }
{
    append_to_draft(host, folder, "cntl.remarks", command_line())?;
    print_summary(host, &made.summary)?;
    keep_commands(host, folder, made.bytes, made.remarks)?;
    Ok(())
}
