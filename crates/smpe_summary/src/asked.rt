//! What is asked about.
use fields::IdList;
use report::ReportLine;
use std::marker::Model;
use sysmods::GlobalZone;
use zones::Zone;

/// The zones after RECEIVE of a package, the lines of an APPLY or ACCEPT of it, the ids of its SYSMODs, those ids of
/// which it is not sure that all that belongs to them was received, and how many holds were read beside the SYSMODs.
#[derive(Drop)]
pub struct Asked<'a> {
    pub global: &'a GlobalZone,
    pub zone: &'a Zone,
    pub lines: &'a [ReportLine],
    pub package: &'a IdList,
    pub unsure: &'a IdList,
    pub holds_read: usize,
}

impl<'a> Model for Asked<'a> {
    ghost use Rattle.std.specs.Prelude.{map};
    ghost use Rattle.report.specs.Views.{line_view};
    ghost use Rattle.smpe_summary.specs.Asked as asked;

    ghost Value = { asked.Asked };

    ghost view = { λ a. record {
      global = a.global.now;
      zone = a.zone.now;
      lines = map line_view a.lines.now;
      members = a.package.now;
      unsure = a.unsure.now;
      holds_read = a.holds_read;
    } };
}
