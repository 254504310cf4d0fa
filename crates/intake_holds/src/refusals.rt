//! Holds and releases that cannot be carried. If there is one, nothing is carried at all, so that no hold is lost.

use crate::holds::{HoldFault, hold_key, hold_subject, release_key, release_subject};
use intake_cards::{Deed, RemarkReason, Remarks, Subject};
use intake_read::{
    FaultyOperand, WideFile, WideHold, WideHoldKind, WideOther, WideRelease, fault_reason,
    missing_word,
};
use std::alloc::{AllocError, Global};

// Whether an operand of this name is part of the key of a hold. If it is stated twice, it is not known which counts.
fn is_key_operand(name: &[u8]) -> bool {
    WideHoldKind::read(name).is_some() || matches!(name, b"REASON" | b"FMID")
}

// The first faulty operand that is part of the key of a hold, or `None` if there is none.
fn faulty_key_operand(faulty: &[FaultyOperand]) -> Option<&FaultyOperand> {
    faulty
        .iter()
        .find(|entry| is_key_operand(entry.operand.name.as_slice()))
}

// Refuses a hold or a release, with a remark, if an operand of its key is faulty, or if its key has a fault. Returns
// whether it is refused.
fn refuse_if_faulty(
    alloc: Global,
    remarks: &mut Remarks,
    subject: &Subject<'_>,
    faulty: &[FaultyOperand],
    fault: Option<HoldFault>,
) -> Result<bool, AllocError> {
    if let Some(entry) = faulty_key_operand(faulty) {
        let operand = &entry.operand;
        let name = operand.name.as_slice();
        remarks.tell(
            alloc,
            subject,
            name,
            Deed::Refused,
            fault_reason(entry),
            operand.text(),
        )?;
        return Ok(true);
    }
    let Some(fault) = fault else {
        return Ok(false);
    };
    remarks.tell(
        alloc,
        subject,
        fault.operand(),
        Deed::Refused,
        fault.reason(),
        b"",
    )?;
    Ok(true)
}

/// Refuses the hold, with a remark, if it cannot be carried. Returns whether it is refused.
pub(crate) fn refuse_if_bad_hold(
    alloc: Global,
    remarks: &mut Remarks,
    stated: &WideHold,
) -> Result<bool, AllocError> {
    let subject = hold_subject(stated);
    let fault = hold_key(stated).err();
    refuse_if_faulty(alloc, remarks, &subject, stated.faulty.as_slice(), fault)
}

// Refuses the release, with a remark, if it cannot be carried. Returns whether it is refused.
fn refuse_if_bad_release(
    alloc: Global,
    remarks: &mut Remarks,
    stated: &WideRelease,
) -> Result<bool, AllocError> {
    let subject = release_subject(stated);
    let fault = release_key(stated).err();
    refuse_if_faulty(alloc, remarks, &subject, stated.faulty.as_slice(), fault)
}

// Refuses, with remarks, those of the holds that cannot be carried. Returns whether there are any.
fn refuse_bad_holds(
    alloc: Global,
    remarks: &mut Remarks,
    stated: &[WideHold],
) -> Result<bool, AllocError> {
    let mut any = false;
    for hold in stated {
        if refuse_if_bad_hold(alloc, remarks, hold)? {
            any = true;
        }
    }
    Ok(any)
}

// Whether the statement is a broken hold or release: one that is too faulty to be read. FIXCAT does not count.
fn is_broken_hold(other: &WideOther) -> bool {
    matches!(other.word.as_slice(), b"HOLD" | b"RELEASE") && !is_broken_fixcat(other)
}

// Whether a broken hold or release names FIXCAT, and no other kind.
fn is_broken_fixcat(other: &WideOther) -> bool {
    let mut has_fixcat = false;
    for operand in other.operands.iter() {
        match WideHoldKind::read(operand.name.as_slice()) {
            Some(WideHoldKind::Fixcat) => has_fixcat = true,
            Some(_) => return false,
            None => {}
        }
    }
    has_fixcat
}

// Refuses a broken hold or release, with a remark on what is wrong with its statement.
fn refuse_broken_hold(
    alloc: Global,
    remarks: &mut Remarks,
    other: &WideOther,
) -> Result<(), AllocError> {
    let subject = Subject {
        place: other.place,
        word: other.word.as_slice(),
        id: other.name.as_slice(),
    };
    let reason = RemarkReason::from(other.reason);
    remarks.tell(
        alloc,
        &subject,
        missing_word(other),
        Deed::Refused,
        reason,
        b"",
    )
}

// Refuses, with remarks, the broken holds and releases among the statements. Returns whether there are any.
fn refuse_broken_holds(
    alloc: Global,
    remarks: &mut Remarks,
    others: &[WideOther],
) -> Result<bool, AllocError> {
    let mut any = false;
    for other in others {
        if is_broken_hold(other) {
            refuse_broken_hold(alloc, remarks, other)?;
            any = true;
        }
    }
    Ok(any)
}

/// Refuses, with remarks, the releases of a file and the holds in its SYSMODs that cannot be carried: a part of the key
/// is missing or is stated twice, or the statement is broken. Returns whether there are any.
pub(crate) fn remark_bad_statements(
    alloc: Global,
    remarks: &mut Remarks,
    file: &WideFile,
) -> Result<bool, AllocError> {
    let mut any = false;
    for release in file.releases.iter() {
        if refuse_if_bad_release(alloc, remarks, release)? {
            any = true;
        }
    }
    if refuse_broken_holds(alloc, remarks, file.others.as_slice())? {
        any = true;
    }
    for sysmod in file.sysmods.iter() {
        let has_bad = refuse_bad_holds(alloc, remarks, sysmod.holds.as_slice())?;
        let has_broken = refuse_broken_holds(alloc, remarks, sysmod.others.as_slice())?;
        any = any || has_bad || has_broken;
    }
    Ok(any)
}
