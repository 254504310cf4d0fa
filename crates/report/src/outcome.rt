//! What commands print, before it becomes text.

use fields::{Id, Reason, Source, ZoneName};
use judge_system::Failure;
use sysmods::GlobalZone;
use terms::{CommandCode, CommandWord, HoldKind, IdRefusal, Kind, StatementCode};
use zones::Zone;

/// The first line of a report. For SET the boundary is the zone that it names.
#[derive(Clone, Copy, Debug)]
pub struct Header {
    pub word: CommandWord,
    pub boundary: Option<ZoneName>,
    pub check: bool,
}

/// Why a command was refused.
#[derive(Clone, Copy, Debug)]
pub enum Refusal {
    /// `Cm1`: no SET precedes it.
    NoBoundary,
    /// `Cm2`: SET names an undefined zone.
    NoZone,
    /// `Cm3`: the boundary suits other commands.
    WrongKind,
    /// `Cm4`: a fault of PTFIN, at the record where the statement begins.
    BadPtfin { number: usize, code: StatementCode },
    /// `Cm5`: the same of the hold file.
    BadHoldFile { number: usize, code: StatementCode },
}

/// What follows the id in a status line.
#[derive(Clone, Copy, Debug)]
pub enum Place {
    Kind(Kind),
    Hold(HoldKind),
    NotReceived,
}

/// What became of an id.
#[derive(Drop)]
pub enum Status {
    Received,
    Already,
    Refused(IdRefusal),
    Assigned(Source),
    Unknown,
    Held(Reason),
    Replaced(Reason),
    Released(Reason),
    Rejected,
    Applied,
    Accepted,
    Superseded,
    Failed(Failure),
    Deleted,
    Missing,
    NoVer,
    Restored,
    NotApplied,
}

/// A line of a report, with the lines that belong to it.
#[derive(Drop)]
pub enum ReportLine {
    Status {
        id: Id,
        place: Place,
        status: Status,
    },
    /// RECEIVE, APPLY or ACCEPT had no status line.
    Nothing,
    /// An ERROR hold on an applied SYSMOD, with the ids that resolve it, rising.
    Errsysmod {
        id: Id,
        reason: Reason,
        resolvers: Vec<Id>,
    },
}

/// What a command prints, or the one line that a bad command file leaves of its job. LIST prints what its outcome
/// refers to.
#[derive(Drop)]
pub enum Outcome<'a> {
    Ran {
        header: Header,
        lines: Vec<ReportLine>,
    },
    ListedGlobal {
        header: Header,
        global: &'a GlobalZone,
    },
    Listed {
        header: Header,
        zone: &'a Zone,
        text: bool,
    },
    Refused {
        header: Header,
        refusal: Refusal,
    },
    Control {
        number: usize,
        code: CommandCode,
    },
}
