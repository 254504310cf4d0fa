//! Items as records, which are read back as RECEIVE reads them.
ghost use Rattle.std.specs.Prelude.{◌≡◌, ◌++◌, IfOk};
ghost use Rattle.terms.specs.Ptfin.{IsPtfin};
ghost use Rattle.terms.specs.HoldFile.{IsHoldFile};
ghost use Rattle.mcs.specs.Files.{items};
ghost use Rattle.mcs.specs.HoldItems as hold_files;

use crate::same::{are_same_hold_items, are_same_items};
use crate::statements::{hold_file, ptfin};
use intake_words::IntakeFault;
use mcs::{HoldItem, Item, McsError, read_hold, read_ptfin};
use std::alloc::Global;

/// How many items of a hold file are printed and read back at a time.
const ITEMS_AT_A_TIME: usize = 512;

/// The records of a PTFIN with these items, which are read back as these items. Returns `NotReadBack` if they are not,
/// `Memory` if memory runs out.
pub fn ptfin_records(alloc: Global, meant: &[Item]) -> Result<Vec<u8>, IntakeFault>
    ensures { IfOk result (λ bytes. IsPtfin bytes.items (items meant.now)) }
{
    let bytes = ptfin(alloc, meant)?;
    let read = match read_ptfin(alloc, &bytes) {
        Ok(read) => read,
        Err(McsError::Memory) => return Err(IntakeFault::Memory),
        Err(McsError::Fault { .. }) => return Err(IntakeFault::NotReadBack("ptfin")),
    };
    if !are_same_items(&read, meant) {
        return Err(IntakeFault::NotReadBack("ptfin"));
    }
    Ok(bytes)
}

/// The records of a hold file with these holds and releases, which are read back as these. They are printed and read
/// back a part at a time, so that only one part of them is in memory twice. Returns `NotReadBack` if they are read
/// otherwise, `Memory` if memory runs out.
pub fn hold_records(alloc: Global, meant: &[HoldItem]) -> Result<Vec<u8>, IntakeFault>
    ensures { IfOk result (λ bytes. IsHoldFile bytes.items (hold_files.items meant.now)) }
{
    let mut bytes = Vec::new(alloc);
    let mut rest = meant;
    for _ in 0..meant.len() / ITEMS_AT_A_TIME {
        let part = first_part(rest);
        let mut records = part_records(alloc, part.first)?;
        bytes.append(&mut records)?;
        rest = part.rest;
    }
    let mut records = part_records(alloc, rest)?;
    bytes.append(&mut records)?;
    Ok(bytes)
}

/// Some items, and those after them.
#[derive(Clone, Copy)]
struct HoldPart<'a> {
    first: &'a [HoldItem],
    rest: &'a [HoldItem],
}

// The first items, as many as are read back at a time, and the others.
fn first_part(items: &[HoldItem]) -> HoldPart<'_>
    ensures { result.first.now ++ result.rest.now ≡ items.now }
{
    match items.split_at_checked(ITEMS_AT_A_TIME) {
        Some((first, rest)) => HoldPart { first, rest },
        None => HoldPart {
            first: &[],
            rest: items,
        },
    }
}

// The records of a part of a hold file, which is a hold file too, read back as these holds and releases.
fn part_records(alloc: Global, meant: &[HoldItem]) -> Result<Vec<u8>, IntakeFault>
    ensures { IfOk result (λ bytes. IsHoldFile bytes.items (hold_files.items meant.now)) }
{
    let bytes = hold_file(alloc, meant)?;
    let read = match read_hold(alloc, &bytes) {
        Ok(read) => read,
        Err(McsError::Memory) => return Err(IntakeFault::Memory),
        Err(McsError::Fault { .. }) => return Err(IntakeFault::NotReadBack("hold")),
    };
    if !are_same_hold_items(&read, meant) {
        return Err(IntakeFault::NotReadBack("hold"));
    }
    Ok(bytes)
}
