//! What RECEIVE reads before anything changes: PTFIN and the hold file.
ghost use Rattle.std.specs.Prelude.{IfOk};
ghost use Rattle.mcs.specs.Files.{items};
ghost use Rattle.mcs.specs.HoldItems.{items as hold_items};
ghost use Rattle.smpe_session.specs.Received.{HasFound};

use crate::files::Files;
use fields::ReceiveOperands;
use mcs::{HoldItem, Item, McsError, read_hold, read_ptfin};
use report::Refusal;
use std::alloc::{AllocError, Global};

/// The items of the files that a RECEIVE reads.
#[derive(Drop)]
pub(crate) struct ReceiveItems {
    pub items: Vec<Item>,
    pub holds: Vec<HoldItem>,
}

/// Reads the items of both files. The refusal is for a fault of PTFIN, or for one of the hold file if PTFIN has none. A
/// file that RECEIVE does not read has no items.
pub(crate) fn read_files(
    alloc: Global,
    files: &Files<'_>,
    what: &ReceiveOperands,
) -> Result<Result<ReceiveItems, Refusal>, AllocError>
    ensures { IfOk result (HasFound files.now what.now (λ v. items v.items.items) (λ v. hold_items v.holds.items)) }
{
    let ptfin = if what.sysmods {
        read_ptfin(alloc, files.ptfin)
    } else {
        Ok(Vec::new(alloc))
    };
    let items = match ptfin {
        Ok(items) => items,
        Err(McsError::Fault { number, code }) => return Ok(Err(Refusal::BadPtfin { number, code })),
        Err(McsError::Memory) => return Err(AllocError),
    };
    let hold_file = if what.holddata {
        read_hold(alloc, files.holds)
    } else {
        Ok(Vec::new(alloc))
    };
    let holds = match hold_file {
        Ok(holds) => holds,
        Err(McsError::Fault { number, code }) => {
            return Ok(Err(Refusal::BadHoldFile { number, code }));
        }
        Err(McsError::Memory) => return Err(AllocError),
    };
    Ok(Ok(ReceiveItems { items, holds }))
}
