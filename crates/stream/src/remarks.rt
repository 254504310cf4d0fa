//! What a builder of service should look at, although it breaks no rule of a clean stream.
use crate::circles::all_circles;
use crate::first_vers::is_in_stream;
use fields::{Id, IdList, Reason, Srel, VerNumber};
use indexmap::IndexSet;
use std::alloc::{AllocError, Global};
use sysmods::{GlobalZone, VerChoice, numbered_ver};
use sysmods_values::{Hold, Ver};
use terms::{HoldKind, NeedKind};

/// What breaks no rule, and may yet be a mistake.
#[derive(Drop)]
pub enum Remark {
    /// No SYSMOD has a `++VER` for the SREL.
    Empty,
    /// The SYSMOD has two or more `++VER`s for the SREL, of which only the first is looked at.
    SeveralVers {
        id: Id,
    },
    /// A requisite of the SYSMOD, by PRE, REQ or an `++IF`, is not in the stream, and no SYSMOD of the stream names it
    /// in SUP.
    Absent {
        id: Id,
        kind: NeedKind,
        requisite: Id,
    },
    /// A hold on the superseded SYSMOD is not on the one that names it in SUP. For an ERROR hold the second does not
    /// fix the error either: it is not the reason, and does not name the reason in SUP.
    HoldNotCarried {
        superseding: Id,
        superseded: Id,
        kind: HoldKind,
        reason: Reason,
    },
    /// Each of these SYSMODs requires each other one by PRE and REQ, directly or through others of them, and no SYSMOD
    /// of the stream supersedes one of them. So they go on only together.
    Together {
        ids: IdList,
    },
}

// The SYSMODs of the stream, and all ids that they name in SUP.
fn present_ids(
    alloc: Global,
    vers: &VerChoice<'_>,
    ids: &[Id],
) -> Result<IndexSet<Id>, AllocError> {
    let mut present = IndexSet::new(alloc);
    for id in ids {
        present.insert(*id)?;
        for superseded in vers.sup(*id) {
            present.insert(*superseded)?;
        }
    }
    Ok(present)
}

// Remarks on each of these requisites that is not present.
fn tell_absent(
    present: &IndexSet<Id>,
    id: Id,
    kind: NeedKind,
    requisites: &[Id],
    remarks: &mut Vec<Remark>,
) -> Result<(), AllocError> {
    for requisite in requisites {
        if !present.contains(requisite) {
            remarks.push(Remark::Absent {
                id,
                kind,
                requisite: *requisite,
            })?;
        }
    }
    Ok(())
}

// Remarks on each requisite of the `++VER` that is not present.
fn tell_absent_requisites(
    present: &IndexSet<Id>,
    id: Id,
    ver: &Ver,
    remarks: &mut Vec<Remark>,
) -> Result<(), AllocError> {
    tell_absent(present, id, NeedKind::Pre, ver.pre.as_slice(), remarks)?;
    tell_absent(present, id, NeedKind::Req, ver.req.as_slice(), remarks)?;
    for condition in ver.ifs.iter() {
        tell_absent(
            present,
            id,
            NeedKind::Ifreq,
            condition.req.as_slice(),
            remarks,
        )?;
    }
    Ok(())
}

// Whether the SYSMOD fixes what the hold is for: it is an ERROR hold, and the SYSMOD is the reason or names it in SUP.
fn fixes(id: Id, ver: &Ver, hold: &Hold) -> bool {
    match Id::read(hold.reason.as_bytes()) {
        Some(reason) => hold.kind == HoldKind::Error && (reason == id || ver.supersedes(reason)),
        None => false,
    }
}

// Remarks on each hold of the kind on the superseded SYSMOD that the other one does not carry.
fn tell_holds_of_kind(
    global: &GlobalZone,
    kind: HoldKind,
    superseding: Id,
    ver: &Ver,
    superseded: Id,
    remarks: &mut Vec<Remark>,
) -> Result<(), AllocError> {
    for hold in global.holds_of(kind, superseded) {
        let carried = global.hold_of(superseding, kind, hold.reason).is_some();
        if !carried && !fixes(superseding, ver, hold) {
            remarks.push(Remark::HoldNotCarried {
                superseding,
                superseded,
                kind,
                reason: hold.reason,
            })?;
        }
    }
    Ok(())
}

// Remarks on each hold on a SYSMOD of the stream that this one supersedes without carrying the hold.
fn tell_holds(
    vers: &VerChoice<'_>,
    id: Id,
    ver: &Ver,
    remarks: &mut Vec<Remark>,
) -> Result<(), AllocError> {
    let global = vers.global();
    for superseded in ver.sup.as_slice() {
        if is_in_stream(vers, *superseded) {
            tell_holds_of_kind(global, HoldKind::Error, id, ver, *superseded, remarks)?;
            tell_holds_of_kind(global, HoldKind::System, id, ver, *superseded, remarks)?;
            tell_holds_of_kind(global, HoldKind::User, id, ver, *superseded, remarks)?;
        }
    }
    Ok(())
}

// Remarks on the SYSMODs that go on only together.
fn tell_circles(
    alloc: Global,
    vers: &VerChoice<'_>,
    ids: &[Id],
    remarks: &mut Vec<Remark>,
) -> Result<(), AllocError> {
    for circle in all_circles(alloc, vers, ids)? {
        remarks.push(Remark::Together { ids: circle })?;
    }
    Ok(())
}

/// All remarks on the stream, whose SYSMODs these are.
pub(crate) fn all_remarks(
    alloc: Global,
    vers: &VerChoice<'_>,
    srel: Srel,
    ids: &[Id],
) -> Result<Vec<Remark>, AllocError> {
    let mut remarks = Vec::new(alloc);
    if ids.is_empty() {
        remarks.push(Remark::Empty)?;
    }
    let present = present_ids(alloc, vers, ids)?;
    for id in ids {
        if numbered_ver(vers.global(), srel, *id, VerNumber::at_place(1)).is_some() {
            remarks.push(Remark::SeveralVers { id: *id })?;
        }
        if let Some(ver) = vers.ver(*id) {
            tell_absent_requisites(&present, *id, ver, &mut remarks)?;
            tell_holds(vers, *id, ver, &mut remarks)?;
        }
    }
    tell_circles(alloc, vers, ids, &mut remarks)?;
    Ok(remarks)
}
