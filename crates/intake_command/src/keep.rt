//! The files that are put into the folder, and are read back before.
ghost use Rattle.std.specs.Prelude.{OnOk, OnErr, List, is_some};
ghost use Rattle.terms.specs.Types as terms;
ghost use Rattle.terms.specs.Commands.{IsCommandFile};
ghost use Rattle.mcs.specs.Files.{items};
ghost use Rattle.mcs.specs.HoldItems as hold_files;
ghost use Rattle.intake_command.specs.Keeping.{IsServiceFiles, IsCommandFiles};
ghost use Rattle.intake_command.specs.Keeping.{KeepsFiles, KeepsNothing};

use crate::files::{command_files, service_files, service_removals};
use crate::host_calls::put_files;
use crate::surroundings::IntakeHost;
use intake_service::{hold_records, ptfin_records};
use intake_words::IntakeFault;
use mcs::{HoldItem, Item};
use std::alloc::Global;

/// Puts the items into `ptfin`, the holds and releases into `hold`, and the remarks into `remarks`, after those of its
/// draft. `stand_ins` are the bytes of `stand-ins`; without them that file of an earlier run is removed. Returns
/// `NotReadBack` if the records of a file are not read back as its items, `CannotWrite` if the folder does not take the
/// files, and `Memory` if memory runs out. Then the folder has the files that it had.
pub fn keep_service<H: IntakeHost>(
    alloc: Global,
    host: &mut H,
    folder: &str,
    meant: &[Item],
    held: &[HoldItem],
    stand_ins: Option<Vec<u8>>,
    remarks: Vec<u8>,
) -> Result<(), IntakeFault>
    ensures ok { OnOk result (KeepsFiles H.IntakeHost host.old folder.now
        (IsServiceFiles (items meant.now) (hold_files.items held.now) (is_some stand_ins)) host.new) }
    ensures err { OnErr result (KeepsNothing H.IntakeHost host.old folder.now host.new) }
{
    let ptfin = ptfin_records(alloc, meant)?;
    let hold = hold_records(alloc, held)?;
    let removed = service_removals(&stand_ins);
    let files = service_files(alloc, ptfin, hold, stand_ins, remarks)?;
    put_files(host, folder, &files, removed)
}

/// Puts the command file into `cntl`, and the remarks into `cntl.remarks`, after those of its draft. Returns
/// `CannotWrite` if the folder does not take the files; then it has the files that it had.
pub fn keep_commands<H: IntakeHost>(
    host: &mut H,
    folder: &str,
    cntl: Vec<u8>,
    remarks: Vec<u8>,
) -> Result<(), IntakeFault>
    ensures ok { (commands : List terms.Command) → IsCommandFile cntl.items commands
        → OnOk result (KeepsFiles H.IntakeHost host.old folder.now (IsCommandFiles commands) host.new) }
    ensures err { OnErr result (KeepsNothing H.IntakeHost host.old folder.now host.new) }
{
    let files = command_files(cntl, remarks);
    put_files(host, folder, &files, &[])
}
