//! Jobs, and their answers.

use crate::zone_error::ZoneFault;
use fields::{Srel, YyDdd, ZoneName};
use terms::ZoneKind;

/// A command file over a PTFIN and a hold file on a date, or a zone to define.
#[derive(Clone, Copy)]
pub enum Job<'a> {
    Run {
        date: YyDdd,
        cntl: &'a [u8],
        ptfin: &'a [u8],
        hold: &'a [u8],
    },
    Zone {
        name: ZoneName,
        kind: ZoneKind,
        srel: Srel,
        related: Option<ZoneName>,
    },
}

/// The return code of a job, or how the definition of a zone ended.
#[derive(Clone, Copy, Debug)]
pub enum Answer {
    Code(u8),
    Defined,
    Refused(ZoneFault),
}
