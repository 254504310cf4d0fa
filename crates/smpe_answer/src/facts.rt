//! What is known of a package besides the zones.
use fields::{IdList, Source, ZoneName};
use std::marker::Model;

/// The name of the zone in question, the source of a package, the ids of its SYSMODs, those of them of which it is not
/// sure that they can be installed, its remarks, with the status that they bring, and how many holds were read beside
/// its SYSMODs.
#[derive(Drop)]
pub struct PackageFacts<'a> {
    pub zone: ZoneName,
    pub source: Source,
    pub ids: &'a IdList,
    pub unsure: &'a IdList,
    pub remarks: &'a [u8],
    pub status: u8,
    pub holds_read: usize,
}

impl<'a> Model for PackageFacts<'a> {
    ghost use Rattle.smpe_answer.specs.Asked as asked;

    ghost Value = { asked.PackageFacts };

    ghost view = { λ p. record {
      zone = p.zone;
      source = p.source;
      ids = p.ids.now;
      unsure = p.unsure.now;
      remarks = p.remarks.now;
      status = p.status;
      holds_read = p.holds_read;
    } };
}
