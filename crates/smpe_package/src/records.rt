//! The records of a package.
ghost use Rattle.std.specs.Prelude.{IfOk};
ghost use Rattle.smpe_package.specs.Package.{AreRecords};

use crate::fault::PackageFault;
use intake_service::{IntakeFault, hold_records, ptfin_records};
use mcs::{HoldItem, Item};
use std::alloc::Global;

/// The records that RECEIVE reads.
#[derive(Drop)]
pub struct PackageRecords {
    pub ptfin: Vec<u8>,
    pub hold: Vec<u8>,
}

/// The records of these items, and of these holds and releases. Returns `NotCarried` if the records are not read back
/// as these, and `Memory` if memory runs out.
pub fn package_records(
    alloc: Global,
    items: &[Item],
    hold_items: &[HoldItem],
) -> Result<PackageRecords, PackageFault>
    ensures { IfOk result (λ records. AreRecords items.now hold_items.now records.ptfin.items records.hold.items) }
{
    match made_records(alloc, items, hold_items) {
        Ok(records) => Ok(records),
        Err(fault) => Err(PackageFault::of_intake(alloc, &fault)),
    }
}

// The records, with the fault as it is met.
fn made_records(
    alloc: Global,
    items: &[Item],
    hold_items: &[HoldItem],
) -> Result<PackageRecords, IntakeFault>
    ensures { IfOk result (λ records. AreRecords items.now hold_items.now records.ptfin.items records.hold.items) }
{
    let ptfin = ptfin_records(alloc, items)?;
    let hold = hold_records(alloc, hold_items)?;
    Ok(PackageRecords { ptfin, hold })
}
