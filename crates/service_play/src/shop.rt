//! A shop: a global zone with a target zone and its distribution zone.

use fields::{Srel, ZoneName};
use std::alloc::Global;
use std::test::Fail;
use sysmods::GlobalZone;
use terms::ZoneKind;
use zones::Zone;

/// The name of the target zone.
pub(crate) const TARGET: &[u8] = b"TGT1";

/// The name of its distribution zone.
pub(crate) const DISTRIBUTION: &[u8] = b"DLB1";

/// A global zone, a target zone and its distribution zone.
#[derive(Drop)]
pub(crate) struct Shop {
    pub(crate) global: GlobalZone,
    pub(crate) target: Zone,
    pub(crate) distribution: Zone,
}

impl Shop {
    /// A shop that has received nothing.
    pub(crate) fn new(alloc: Global) -> Result<Shop, Fail> {
        let srel = Srel::read(b"Z038").ok_or("no SREL")?;
        let related = ZoneName::read(DISTRIBUTION).ok_or("no name of a zone")?;
        Ok(Shop {
            global: GlobalZone::new(alloc),
            target: Zone::new(alloc, ZoneKind::Target, srel, Some(related)),
            distribution: Zone::new(alloc, ZoneKind::Distribution, srel, None),
        })
    }
}
