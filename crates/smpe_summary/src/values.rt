//! The parts of a summary.
use fields::{Id, Reason};
use terms::{HoldKind, NeedKind, Test, ZoneKind};

/// What would become of a SYSMOD of the package. In a distribution zone `Applied` means accepted.
#[derive(Clone, Copy)]
pub enum Group {
    Applied,
    Superseded,
    /// It fails, but one that goes on supersedes it, so nothing is missing.
    SupersededBy(Id),
    Failed,
    /// It would go on, but it is not sure that all that belongs to it was received.
    NotDecided,
    /// It fails: this function is not installed and not received.
    NoFunction(Id),
    /// It is applied or superseded already.
    AlreadyOn,
    /// A function that is on has deleted it.
    Deleted,
    NotReceived,
    /// It has no `++VER` for the SREL of the zone.
    NoVer,
}

/// A SYSMOD of the package.
#[derive(Clone, Copy)]
pub struct Member {
    pub id: Id,
    pub group: Group,
}

/// Why a SYSMOD fails by itself.
#[derive(Drop)]
pub enum CauseReason {
    Hold {
        kind: HoldKind,
        reason: Reason,
        comment: Option<String>,
    },
    /// An open need for an id that is not received.
    Need {
        kind: NeedKind,
        id: Id,
    },
    Test(Test),
    /// What it needs is received, and does not go on.
    Unknown,
}

/// A SYSMOD because of which so many of the package fail, and the first reason for which it fails itself.
#[derive(Drop)]
pub struct Cause {
    pub id: Id,
    pub fails: usize,
    pub why: CauseReason,
}

/// What has to be done so that fewer fail.
#[derive(Clone, Copy)]
pub enum ToDo {
    /// It is needed, and not received.
    Order(Id),
    /// The SYSTEM hold of this reason asks for an action. BYPASS covers it after that.
    Act { id: Id, reason: Reason },
    /// The USER hold of this reason was put by someone of the shop.
    Ask { id: Id, reason: Reason },
    /// Nothing that resolves the ERROR hold of this reason goes on.
    Wait { id: Id, reason: Id },
}

/// What the DELETE of a SYSMOD that goes on takes off, and the USERMODs among this.
#[derive(Drop)]
pub struct TakenOff {
    pub by: Id,
    pub ids: Vec<Id>,
    pub usermods: Vec<Id>,
}

/// What is told of a package.
#[derive(Drop)]
pub struct Summary {
    /// The kind of the zone, which says whether SYSMODs are applied or accepted.
    pub kind: ZoneKind,
    /// The SYSMODs of the package: first those that have a line, in the order of the lines, then the others by id.
    pub members: Vec<Member>,
    /// What GROUPEXTEND brings in from earlier service and goes on.
    pub also: Vec<Id>,
    /// The worst first, those with equal numbers by id.
    pub causes: Vec<Cause>,
    /// First what is to be ordered.
    pub todo: Vec<ToDo>,
    pub taken_off: Vec<TakenOff>,
    /// How many holds were read beside the SYSMODs.
    pub holds_read: usize,
    /// Whether any SYSMOD fails, of the package or not.
    pub has_failures: bool,
}
