//! The texts of elements in the files of `--relfile`.
ghost use Rattle.std.specs.Prelude.{All};
ghost use Rattle.intake_command.specs.Acts.{IsQuiet};
ghost use Rattle.intake_command.specs.Done.{HasDone};

use crate::host_calls::read_if_present;
use crate::surroundings::IntakeHost;
use intake_read::WideFile;
use intake_sysmod::RelfileMember;
use intake_words::{
    CardOptions, InputFiles, IntakeFault, IntakeOptions, RelfileElement, relfile_elements,
};
use std::alloc::Global;

/// A file of the folder of `--relfile`: the text of an element.
#[derive(Drop)]
struct MemberFile {
    path: String,
    bytes: Vec<u8>,
}

/// The texts of the elements with RELFILE that have a file in the folder. Layout and code of each file are guessed. An
/// element's file is DIR/SYSMOD/Fn/NAME, or, if there is none and only one SYSMOD has RELFILE(n), DIR/Fn/NAME.
pub(crate) fn relfile_members<H: IntakeHost>(
    alloc: Global,
    host: &mut H,
    inputs: &mut InputFiles,
    asked: &IntakeOptions,
    files: &[WideFile],
) -> Result<Vec<RelfileMember>, IntakeFault>
    ensures { HasDone H.IntakeHost (All IsQuiet) host.old host.new }
{
    let Some(folder) = &asked.relfile else {
        return Ok(Vec::new(alloc));
    };
    let elements = relfile_elements(alloc, files)?;
    read_members(alloc, host, inputs, folder.as_str(), &elements)
}

// The texts of the elements that have a file in the folder.
fn read_members<H: IntakeHost>(
    alloc: Global,
    host: &mut H,
    inputs: &mut InputFiles,
    folder: &str,
    elements: &[RelfileElement<'_>],
) -> Result<Vec<RelfileMember>, IntakeFault>
    ensures { HasDone H.IntakeHost (All IsQuiet) host.old host.new }
{
    let mut members = Vec::new(alloc);
    for element in elements {
        let file = member_file(alloc, host, folder, element)?;
        append_member(alloc, inputs, element, file, &mut members)?;
    }
    Ok(members)
}

// The file of the element: the one in the folder of its SYSMOD, or else the shared one if no other SYSMOD has a RELFILE
// of its number. Returns `None` if it has neither.
fn member_file<H: IntakeHost>(
    alloc: Global,
    host: &mut H,
    folder: &str,
    element: &RelfileElement<'_>,
) -> Result<Option<MemberFile>, IntakeFault>
    ensures { HasDone H.IntakeHost (All IsQuiet) host.old host.new }
{
    let own = element.own_path(alloc, folder)?;
    let shared = element.shared_path(alloc, folder)?;
    let file = read_member(alloc, host, own)?;
    if file.is_some() || !element.is_only_user {
        return Ok(file);
    }
    read_member(alloc, host, shared)
}

// The file of this path, or `None` if there is none. Returns `CannotRead` if the host cannot read it.
fn read_member<H: IntakeHost>(
    alloc: Global,
    host: &mut H,
    path: String,
) -> Result<Option<MemberFile>, IntakeFault>
    ensures { HasDone H.IntakeHost (All IsQuiet) host.old host.new }
{
    let Some(bytes) = read_if_present(alloc, host, path.as_str())? else {
        return Ok(None);
    };
    Ok(Some(MemberFile { path, bytes }))
}

// Appends the cards of the element's file, if there is one.
fn append_member(
    alloc: Global,
    inputs: &mut InputFiles,
    element: &RelfileElement<'_>,
    file: Option<MemberFile>,
    members: &mut Vec<RelfileMember>,
) -> Result<(), IntakeFault> {
    let Some(file) = file else {
        return Ok(());
    };
    let guessed = CardOptions {
        layout: None,
        code: None,
    };
    let cards = inputs.read_cards(alloc, file.path.as_str(), &file.bytes, guessed)?;
    members.push(RelfileMember {
        element: element.place,
        cards,
    })?;
    Ok(())
}
