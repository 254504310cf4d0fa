//! A run over files of SYSMODs and of holds.
ghost use Rattle.std.specs.Prelude.{◌≡◌, ◌∷◌, ◌++◌, [], ℕ, List, IfOk, OnOk, OnErr, All, map, is_some};
ghost use Rattle.std.specs.String.{string_bytes};
ghost use Rattle.mcs.specs.Files as ptfin;
ghost use Rattle.mcs.specs.HoldItems as hold;
ghost use Rattle.intake_read.specs.declared.items.WideFile.{WideFile};
ghost use Rattle.intake_sysmod.specs.Users.{run_of};
ghost use Rattle.intake_carry.specs.Unsure.{AreUnsure};
ghost use Rattle.intake_service.specs.Carrying.{CarriesFiles};
ghost use Rattle.intake_command.specs.Acts.{IsQuiet, Gives};
ghost use Rattle.intake_command.specs.Done.{HasDone};
ghost use Rattle.intake_command.specs.Serving.{AreRead, ServesFiles, KeepsService, DraftsRemarks, IsHarmless, folder_of};

use crate::files::service_line;
use crate::host_calls::{append_to_draft, print_summary, read_input};
use crate::keep::keep_service;
use crate::members::relfile_members;
use crate::surroundings::IntakeHost;
use intake_cards::RemarkList;
use intake_carry::Narrowed;
use intake_service::{Carried, StatedFiles};
use intake_sysmod::{Options, RelfileMember};
use intake_words::{
    InputFiles, IntakeFault, IntakeOptions, append_remark_line, service_summary, stand_ins_file,
};
use mcs::{HoldItem, Item};
use std::alloc::{AllocError, Global};

/// How many bytes of remarks go into the draft at a time.
const DRAFT_SIZE: usize = 65_536;

/// What is to be put into the folder, and the summary of the run.
#[derive(Drop)]
struct ServiceOutput {
    items: Vec<Item>,
    hold_items: Vec<HoldItem>,
    stand_ins: Option<Vec<u8>>,
    remarks: RemarkList,
    summary: Vec<u8>,
}

/// Puts what the files state into the folder, with the remarks, and prints the summary before. Returns the status, or a
/// fault if nothing was put there.
pub(crate) fn serve_files<H: IntakeHost>(
    alloc: Global,
    host: &mut H,
    asked: &IntakeOptions,
) -> Result<u8, IntakeFault>
    ensures ok { IfOk result (λ status. HasDone H.IntakeHost (ServesFiles asked.now status) host.old host.new) }
    ensures err { OnErr result (HasDone H.IntakeHost (All (IsHarmless (folder_of asked.now))) host.old host.new) }
{
    let mut inputs = InputFiles::new(alloc);
    let stated = read_files(alloc, host, &mut inputs, asked)?;
    let members = relfile_members(alloc, host, &mut inputs, asked, stated.files())?;
    let carried = carry_files(alloc, &inputs, asked, stated, members)?;
    let status = carried.status();
    let made = service_output(alloc, asked, carried)?;
    keep_files(alloc, host, asked, &mut inputs, made)?;
    Ok(status)
}

// What all files state.
fn read_files<H: IntakeHost>(
    alloc: Global,
    host: &mut H,
    inputs: &mut InputFiles,
    asked: &IntakeOptions,
) -> Result<StatedFiles, IntakeFault>
    ensures ok { IfOk result (λ stated. HasDone H.IntakeHost
        (AreRead (map string_bytes asked.now.files.items) stated) host.old host.new) }
    ensures err { OnErr result (HasDone H.IntakeHost (All IsQuiet) host.old host.new) }
{
    let mut stated = StatedFiles::new(alloc);
    for name in asked.files.iter() {
        stated = with_file(alloc, host, inputs, asked, name.as_str(), stated)?;
    }
    Ok(stated)
}

// Reads a file, and returns what it states after what the files before it state. Returns `CannotRead` if the host
// cannot read it, or a fault of its statements.
fn with_file<H: IntakeHost>(
    alloc: Global,
    host: &mut H,
    inputs: &mut InputFiles,
    asked: &IntakeOptions,
    name: &str,
    stated: StatedFiles,
) -> Result<StatedFiles, IntakeFault>
    ensures ok { IfOk result (λ all. (file : WideFile) × (bytes : List ℕ) × (all ≡ stated ++ file ∷ [])
        × H.does host.old (Gives name.now bytes) host.new) }
    ensures err { OnErr result (HasDone H.IntakeHost (All IsQuiet) host.old host.new) }
{
    let bytes = read_input(alloc, host, name)?;
    let all = stated.with_file(alloc, inputs, name, &bytes, asked.cards)?;
    Ok(all)
}

// What RECEIVE takes of the files, with these texts of elements. Returns the faults of `StatedFiles::carry`.
fn carry_files(
    alloc: Global,
    inputs: &InputFiles,
    asked: &IntakeOptions,
    stated: StatedFiles,
    members: Vec<RelfileMember>,
) -> Result<Carried, IntakeFault>
    ensures files { IfOk result (λ made. made.files.items ≡ stated) }
    ensures carries { IfOk result (λ made. CarriesFiles asked.now.decide stated made.narrowed.items.items
        made.narrowed.hold_items.items) }
    ensures unsure { IfOk result (λ made. AreUnsure (run_of stated) made.narrowed.items.items
        made.narrowed.unsure.items) }
{
    let options = Options {
        decide: asked.decide,
        syslibs: asked.syslibs.clone()?,
        members,
    };
    stated.carry(alloc, inputs, options)
}

// The output of what is carried, with the summary and the file of stand-ins made of it.
fn service_output(
    alloc: Global,
    asked: &IntakeOptions,
    carried: Carried,
) -> Result<ServiceOutput, AllocError>
    ensures items { IfOk result (λ made. made.items.items ≡ carried.narrowed.items.items) }
    ensures holds { IfOk result (λ made. made.hold_items.items ≡ carried.narrowed.hold_items.items) }
    ensures decided { IfOk result (λ made. is_some made.stand_ins ≡ asked.now.decide) }
{
    let narrowed = carried.narrowed;
    let summary = service_summary(alloc, asked, &narrowed)?;
    let stand_ins = stand_ins_if_asked(alloc, asked, &narrowed)?;
    Ok(ServiceOutput {
        items: narrowed.items,
        hold_items: narrowed.hold_items,
        stand_ins,
        remarks: narrowed.remarks,
        summary,
    })
}

// The file of stand-ins, or `None` if stand-ins are not asked for.
fn stand_ins_if_asked(
    alloc: Global,
    asked: &IntakeOptions,
    narrowed: &Narrowed,
) -> Result<Option<Vec<u8>>, AllocError>
    ensures { IfOk result (λ stand_ins. is_some stand_ins ≡ asked.now.decide) }
{
    if !asked.decide {
        return Ok(None);
    }
    Ok(Some(stand_ins_file(alloc, &narrowed.named)?))
}

// Drafts the remarks, prints the summary, and then puts all files into the folder. Returns `CannotPrint` if the summary
// cannot be printed, `NotReadBack` if the records of a file are not read back as its items, `CannotWrite` if the files
// cannot be written into the folder, `Memory` if memory runs out.
fn keep_files<H: IntakeHost>(
    alloc: Global,
    host: &mut H,
    asked: &IntakeOptions,
    inputs: &mut InputFiles,
    made: ServiceOutput,
) -> Result<(), IntakeFault>
    requires { is_some made.stand_ins ≡ asked.now.decide }
    ensures ok { OnOk result (HasDone H.IntakeHost (KeepsService (folder_of asked.now) asked.now.decide
        (ptfin.items made.items.items) (hold.items made.hold_items.items)) host.old host.new) }
    ensures err { OnErr result (HasDone H.IntakeHost (All (IsHarmless (folder_of asked.now))) host.old host.new) }
{
    let items = made.items;
    let hold_items = made.hold_items;
    let stand_ins = made.stand_ins;
    let summary = made.summary;
    let folder = asked.out.as_str();
    let reading_lines = inputs.take_reading_lines(alloc);
    append_to_draft(host, folder, "remarks", service_line(asked.decide))?;
    let lines = draft_remarks(alloc, host, folder, inputs, made.remarks, reading_lines)?;
    print_summary(host, &summary)?;
    keep_service(alloc, host, folder, &items, &hold_items, stand_ins, lines)?;
    Ok(())
}

// Appends a line for each remark to `lines`, and the lines to the draft whenever there are enough of them. Returns
// the lines that are not in the draft, or `CannotWrite` if the folder does not take the draft, `Memory` if memory runs
// out.
fn draft_remarks<H: IntakeHost>(
    alloc: Global,
    host: &mut H,
    folder: &str,
    inputs: &InputFiles,
    remarks: RemarkList,
    mut lines: Vec<u8>,
) -> Result<Vec<u8>, IntakeFault>
    ensures ok { OnOk result (HasDone H.IntakeHost (All (DraftsRemarks folder.now)) host.old host.new) }
    ensures err { OnErr result (HasDone H.IntakeHost (All (IsHarmless folder.now)) host.old host.new) }
{
    for place in 0..remarks.len() {
        let Some(remark) = remarks.get(place) else {
            continue;
        };
        append_remark_line(alloc, inputs, &remark, &mut lines)?;
        lines = draft_if_long(host, folder, lines)?;
    }
    Ok(lines)
}

// Appends the lines to the draft of the remarks if there are enough of them. Returns the lines that are not in it, or
// `CannotWrite` if the folder does not take the draft.
fn draft_if_long<H: IntakeHost>(
    host: &mut H,
    folder: &str,
    mut lines: Vec<u8>,
) -> Result<Vec<u8>, IntakeFault>
    ensures ok { OnOk result (HasDone H.IntakeHost (All (DraftsRemarks folder.now)) host.old host.new) }
    ensures err { OnErr result (HasDone H.IntakeHost (All (IsHarmless folder.now)) host.old host.new) }
{
    if lines.len() < DRAFT_SIZE {
        return Ok(lines);
    }
    append_to_draft(host, folder, "remarks", &lines)?;
    lines.clear();
    Ok(lines)
}
