//! The input files of the user, which the program never overwrites.
ghost use Rattle.std.specs.Prelude.{◌≡◌, false, IfOk, OnOk, OnErr, All, map};
ghost use Rattle.std.specs.Prelude.{option_map, option_to_list};
ghost use Rattle.std.specs.List.{flat_map};
ghost use Rattle.std.specs.String.{string_bytes};
ghost use Rattle.intake_command.specs.Acts.{Compares, IsQuiet};
ghost use Rattle.intake_command.specs.Done.{HasDone};
ghost use Rattle.intake_command.specs.Files.{outputs_of};
ghost use Rattle.intake_command.specs.Serving.{are_apart, comparisons, folder_of, inputs, is_apart};

use crate::files::{output_path, outputs_of};
use crate::surroundings::IntakeHost;
use intake_words::{IntakeFault, IntakeOptions, text_views};
use std::alloc::{AllocError, Global};

/// Asks the host whether an input is a file that this run may write or remove. Returns `OutputIsInput` if one is,
/// `CannotRead` if the host cannot find out, `Memory` if memory runs out. The checks below return the same.
pub(crate) fn check_apart<H: IntakeHost>(
    alloc: Global,
    host: &mut H,
    asked: &IntakeOptions,
) -> Result<(), IntakeFault>
    ensures ok { OnOk result (HasDone H.IntakeHost (λ acts. acts
        ≡ comparisons (folder_of asked.now) (outputs_of asked.now) (inputs asked.now)) host.old host.new) }
    ensures err { OnErr result (HasDone H.IntakeHost (All IsQuiet) host.old host.new) }
{
    let inputs = input_names(alloc, asked)?;
    check_inputs(alloc, host, asked.out.as_str(), outputs_of(asked), &inputs)?;
    Ok(())
}

// The names of the files that are read, except those in the folder of `--relfile`.
fn input_names(alloc: Global, asked: &IntakeOptions) -> Result<Vec<&str>, AllocError>
    ensures { IfOk result (λ names. map (λ name. name.now) names.items ≡ inputs asked.now) }
{
    let mut names = text_views(alloc, &asked.files)?;
    let mut cntl = optional_name(alloc, &asked.cntl)?;
    let mut known = text_views(alloc, &asked.known)?;
    names.append(&mut cntl)?;
    names.append(&mut known)?;
    Ok(names)
}

// A list of the file's name alone, or an empty list if no file is named.
fn optional_name(alloc: Global, file: &Option<String>) -> Result<Vec<&str>, AllocError>
    ensures { IfOk result (λ names. map (λ name. name.now) names.items
        ≡ option_to_list (option_map string_bytes file.now)) }
{
    let mut names = Vec::new(alloc);
    if let Some(file) = file {
        names.push(file.as_str())?;
    }
    Ok(names)
}

// Checks that none of these inputs is an output in the folder.
fn check_inputs<H: IntakeHost>(
    alloc: Global,
    host: &mut H,
    folder: &str,
    outputs: &[&str],
    names: &[&str],
) -> Result<(), IntakeFault>
    ensures ok { OnOk result (HasDone H.IntakeHost (λ acts. acts
        ≡ flat_map (are_apart folder.now (map (λ name. name.now) outputs.now)) (map (λ name. name.now) names.now))
        host.old host.new) }
    ensures err { OnErr result (HasDone H.IntakeHost (All IsQuiet) host.old host.new) }
{
    for input in names {
        check_input(alloc, host, folder, outputs, *input)?;
    }
    Ok(())
}

// Checks that the input is none of the outputs in the folder.
fn check_input<H: IntakeHost>(
    alloc: Global,
    host: &mut H,
    folder: &str,
    outputs: &[&str],
    input: &str,
) -> Result<(), IntakeFault>
    ensures ok { OnOk result (HasDone H.IntakeHost
        (λ acts. acts ≡ are_apart folder.now (map (λ name. name.now) outputs.now) input.now) host.old host.new) }
    ensures err { OnErr result (HasDone H.IntakeHost (All IsQuiet) host.old host.new) }
{
    for output in outputs {
        check_output(alloc, host, folder, *output, input)?;
    }
    Ok(())
}

// Checks that the input is not the output.
fn check_output<H: IntakeHost>(
    alloc: Global,
    host: &mut H,
    folder: &str,
    output: &str,
    input: &str,
) -> Result<(), IntakeFault>
    ensures ok { OnOk result (HasDone H.IntakeHost (λ acts. acts ≡ is_apart folder.now input.now output.now)
        host.old host.new) }
    ensures err { OnErr result (HasDone H.IntakeHost (All IsQuiet) host.old host.new) }
{
    let path = output_path(alloc, folder, output)?;
    check_path(alloc, host, path.as_str(), input)
}

// Checks that the input is not the file of this path.
fn check_path<H: IntakeHost>(
    alloc: Global,
    host: &mut H,
    path: &str,
    input: &str,
) -> Result<(), IntakeFault>
    ensures ok { OnOk result (H.does host.old (Compares path.now input.now false) host.new) }
    ensures err { OnErr result (HasDone H.IntakeHost (All IsQuiet) host.old host.new) }
{
    let is_same = match host.is_same(path, input) {
        Ok(is_same) => is_same,
        Err(error) => return Err(IntakeFault::of_unread_file(alloc, path, error.kind())),
    };
    if is_same {
        return Err(IntakeFault::of_overwritten_input(alloc, input, path));
    }
    Ok(())
}
