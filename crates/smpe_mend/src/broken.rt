//! What is to be mended.
use fields::IdList;
use zones::Zone;

/// The ids that a command is to install, the zone into which it installs, and the target zone at which an ACCEPT also
/// looks, if there is one.
#[derive(Drop)]
pub struct Broken<'a> {
    pub zone: &'a Zone,
    pub related: Option<&'a Zone>,
    pub ids: &'a IdList,
}
