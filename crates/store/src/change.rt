//! What one commit changes.

use fields::{Srel, ZoneName};
use sysmods::{GlobalEdit, GlobalZone};
use terms::ZoneKind;
use zones_maps::ZoneDelta;

/// What one transaction changes.
#[derive(Drop)]
pub enum Change<'a> {
    /// A zone with no entries is added.
    NewZone(ZoneName, ZoneKind, Srel, Option<ZoneName>),
    /// Puts and removes entries and elements of the zone of this name. The delta knows what the zone has at their keys.
    Zone(ZoneName, ZoneDelta),
    /// Makes these edits of the global zone, in their order. This zone has the statements of the SYSMODs that are
    /// received.
    Global(&'a GlobalZone, Vec<GlobalEdit>),
}
