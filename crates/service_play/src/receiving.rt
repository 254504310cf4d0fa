//! What a shop receives.

use crate::printed::append_line;
use mcs::{HoldItem, Item, read_hold, read_ptfin};
use scripts::card_file;
use std::alloc::Global;
use std::test::Fail;
use sysmods::GlobalZone;
use sysmods_values::Hold;

/// Receives the SYSMODs of these cards, and prints a line for each that is refused.
pub(crate) fn receive_sysmods(
    alloc: Global,
    global: &mut GlobalZone,
    cards: &str,
    printed: &mut Vec<u8>,
) -> Result<(), Fail> {
    let file = card_file(alloc, cards)?;
    for item in read_ptfin(alloc, file.as_slice())? {
        receive_item(alloc, global, item, printed)?;
    }
    Ok(())
}

// Receives a SYSMOD. If it is refused, appends a line that says why.
fn receive_item(
    alloc: Global,
    global: &mut GlobalZone,
    item: Item,
    printed: &mut Vec<u8>,
) -> Result<(), Fail> {
    let Item::Sysmod(sysmod) = item else {
        return Err(Fail::from("no SYSMOD"));
    };
    let id = sysmod.id;
    if let Err(refused) = global.receive(alloc, sysmod) {
        let why = format!(in alloc; "{refused}")?;
        append_line(&[id.as_bytes(), why.as_bytes()], printed)?;
    }
    Ok(())
}

/// Receives the holds of these cards. It ignores their releases.
pub(crate) fn receive_holds(
    alloc: Global,
    global: &mut GlobalZone,
    cards: &str,
) -> Result<(), Fail> {
    let file = card_file(alloc, cards)?;
    for item in read_hold(alloc, file.as_slice())? {
        if let HoldItem::Hold(hold) = item {
            add_hold(global, hold)?;
        }
    }
    Ok(())
}

// Adds a hold of a hold file: one that is not internal.
fn add_hold(global: &mut GlobalZone, hold: Hold) -> Result<(), Fail> {
    if hold.internal {
        return Err(Fail::from("an internal hold"));
    }
    let _placed = global.hold(hold)?;
    Ok(())
}
