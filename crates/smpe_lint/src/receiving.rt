//! The stream that the files carry, as RECEIVE takes it into an empty global zone.
ghost use Rattle.std.specs.Prelude.{◌≡◌, [], IfOk, OnOk};
ghost use Rattle.smpe_lint.specs.Linted.{TakesItem, ReceivesAll};

use fields::Id;
use mcs::{HoldItem, Item};
use std::alloc::{AllocError, Global};
use sysmods::{GlobalZone, Refused};

/// A SYSMOD that RECEIVE refuses, and why.
#[derive(Clone, Copy)]
pub(crate) struct RefusedSysmod {
    pub(crate) id: Id,
    pub(crate) why: Refused,
}

/// The global zone of the SYSMODs that RECEIVE takes, and those that it refuses.
#[derive(Drop)]
pub(crate) struct Received {
    pub(crate) global: GlobalZone,
    pub(crate) refused: Vec<RefusedSysmod>,
}

impl Received {
    // Receives the SYSMOD, or notes why RECEIVE refuses it. An assignment changes no rule, and is passed over.
    fn take(&mut self, alloc: Global, item: Item) -> Result<(), AllocError>
        ensures { OnOk result (TakesItem self.old.global self.old.refused.items item self.new.global
            self.new.refused.items) }
    {
        let sysmod = match item {
            Item::Sysmod(sysmod) => sysmod,
            Item::Assign(_) => return Ok(()),
        };
        let id = sysmod.id;
        match self.global.receive(alloc, sysmod) {
            Ok(()) => Ok(()),
            Err(Refused::Memory) => Err(AllocError),
            Err(why) => {
                self.refused.push(RefusedSysmod { id, why })?;
                Ok(())
            }
        }
    }
}

/// What RECEIVE makes of the items, one after the other, in an empty global zone.
pub(crate) fn receive_all(alloc: Global, items: Vec<Item>) -> Result<Received, AllocError>
    ensures { IfOk result (λ all. all.refused.items ≡ [] → ReceivesAll items.items all.global) }
{
    let global = GlobalZone::new(alloc);
    let refused = Vec::new(alloc);
    let mut received = Received { global, refused };
    for item in items {
        received.take(alloc, item)?;
    }
    Ok(received)
}

/// Takes the holds and releases, which change no SYSMOD.
pub(crate) fn take_holds(global: &mut GlobalZone, items: Vec<HoldItem>) -> Result<(), AllocError>
    ensures { OnOk result (global.new.sysmods ≡ global.old.sysmods) }
{
    for item in items {
        take_hold(global, item)?;
    }
    Ok(())
}

// Takes the hold, or the release. A release of a hold that does not exist does nothing.
fn take_hold(global: &mut GlobalZone, item: HoldItem) -> Result<(), AllocError>
    ensures { OnOk result (global.new.sysmods ≡ global.old.sysmods) }
{
    match item {
        HoldItem::Hold(hold) => {
            if hold.internal {
                return Ok(());
            }
            global.hold(hold)?;
            Ok(())
        }
        HoldItem::Release(release) => {
            drop(global.release(release.id, release.kind, release.reason));
            Ok(())
        }
    }
}
