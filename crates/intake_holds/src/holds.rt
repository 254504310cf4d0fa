//! `++HOLD` and `++RELEASE`.
ghost use Rattle.std.specs.Prelude.{◌≡◌, ◌↔◌, Some, IfOk, IfSome, IfNone, IsTrue};
ghost use Rattle.terms.specs.Forms.{IsClass, IsDate, IsReason};
ghost use Rattle.intake_read.specs.declared.items.WideHoldKind.TheVariants.{Fixcat};
ghost use Rattle.intake_read.specs.Stated.{text_in};
ghost use Rattle.intake_holds.specs.Holds.{wide_kind, IsFormed, IsKey, IsHoldKey, IsHold, IsInternal, IsRelease};

use crate::comment::read_comment;
use crate::errors::HoldError;
use fields::{Class, HoldDate, Id, Reason as HoldReason};
use intake_cards::{Deed, RemarkReason, Remarks, Subject};
use intake_read::{
    FaultyOperand, WideHold, WideHoldKind, WideOperand, WideRelease, tell_dropped_operands,
    tell_faulty_operands,
};
use mcs::Release;
use std::alloc::{AllocError, Global};
use sysmods_values::Hold;
use terms::HoldKind;

/// Why a hold or a release has no key: what is wrong with its id, kind, reason or FMID.
#[derive(Clone, Copy, Debug, PartialEq, Eq)]
pub(crate) enum HoldFault {
    BadId,
    NoKind,
    NoReason,
    BadReason,
    NoFmid,
    BadFmid,
}

impl HoldFault {
    /// The operand that is at fault, or an empty text for the id, which is not an operand.
    pub(crate) fn operand(self) -> &'static [u8] {
        match self {
            HoldFault::BadId => b"",
            HoldFault::NoKind => b"ERROR, SYSTEM or USER",
            HoldFault::NoReason | HoldFault::BadReason => b"REASON",
            HoldFault::NoFmid | HoldFault::BadFmid => b"FMID",
        }
    }

    /// What is wrong with the operand.
    pub(crate) fn reason(self) -> RemarkReason {
        match self {
            HoldFault::BadId | HoldFault::BadFmid => RemarkReason::BadId,
            HoldFault::NoKind | HoldFault::NoReason | HoldFault::NoFmid => RemarkReason::Missing,
            HoldFault::BadReason => RemarkReason::BadValue,
        }
    }
}

// The kind of the profile, or `None` for FIXCAT, which the profile lacks.
fn profile_kind(kind: WideHoldKind) -> Option<HoldKind>
    ensures some { IfSome result (λ found. kind ≡ wide_kind found) }
    ensures none { IfNone result (kind ≡ Fixcat) }
{
    match kind {
        WideHoldKind::Error => Some(HoldKind::Error),
        WideHoldKind::System => Some(HoldKind::System),
        WideHoldKind::User => Some(HoldKind::User),
        WideHoldKind::Fixcat => None,
    }
}

// The reason of a hold of the kind. Returns `NoReason` if none is stated, and `BadReason` if it does not have the form
// of a reason of that kind. The reason of an ERROR hold must be an id.
fn read_reason(kind: HoldKind, stated: &Option<Vec<u8>>) -> Result<HoldReason, HoldFault>
    ensures { IfOk result (λ reason. (text_in stated.now ≡ Some reason) × IsReason kind reason) }
{
    let Some(text) = stated else {
        return Err(HoldFault::NoReason);
    };
    let Some(reason) = HoldReason::read(text.as_slice()) else {
        return Err(HoldFault::BadReason);
    };
    if !reason.suits(kind) {
        return Err(HoldFault::BadReason);
    }
    Ok(reason)
}

// The FMID of a hold. Returns `NoFmid` if none is stated, and `BadFmid` if it does not have the form of an id.
fn read_fmid(stated: &Option<Vec<u8>>) -> Result<Id, HoldFault>
    ensures { IfOk result (λ fmid. text_in stated.now ≡ Some fmid) }
{
    let Some(text) = stated else {
        return Err(HoldFault::NoFmid);
    };
    match Id::read(text.as_slice()) {
        Some(fmid) => Ok(fmid),
        None => Err(HoldFault::BadFmid),
    }
}

// The key of a hold, which is its id, kind and reason, with the FMID. Returns `None` for FIXCAT. Returns the first
// fault, in the order of kind, id, reason and FMID.
fn read_key(
    id: &[u8],
    kind: Option<WideHoldKind>,
    reason: &Option<Vec<u8>>,
    fmid: &Option<Vec<u8>>,
) -> Result<Option<Release>, HoldFault>
    ensures some { IfOk result (λ found. IfSome found (λ key. IsKey id.now kind reason.now fmid.now key)) }
    ensures none { IfOk result (λ found. IfNone found (kind ≡ Some Fixcat)) }
{
    let Some(kind) = kind else {
        return Err(HoldFault::NoKind);
    };
    let Some(kind) = profile_kind(kind) else {
        return Ok(None);
    };
    let Some(id) = Id::read(id) else {
        return Err(HoldFault::BadId);
    };
    let reason = read_reason(kind, reason)?;
    let fmid = read_fmid(fmid)?;
    Ok(Some(Release {
        id,
        kind,
        reason,
        fmid,
    }))
}

/// The key of the hold with its FMID, or `None` for FIXCAT. Returns the first fault if they cannot be read.
pub(crate) fn hold_key(stated: &WideHold) -> Result<Option<Release>, HoldFault>
    ensures some { IfOk result (λ found. IfSome found (IsHoldKey stated.now)) }
    ensures none { IfOk result (λ found. IfNone found (stated.now.kind ≡ Some Fixcat)) }
{
    read_key(
        stated.id.as_slice(),
        stated.kind,
        &stated.reason,
        &stated.fmid,
    )
}

/// The key of the hold that the release ends, with its FMID, or `None` for FIXCAT. Returns the first fault if they
/// cannot be read.
pub(crate) fn release_key(stated: &WideRelease) -> Result<Option<Release>, HoldFault>
    ensures some { IfOk result (λ found. IfSome found (IsRelease stated.now)) }
    ensures none { IfOk result (λ found. IfNone found (stated.now.kind ≡ Some Fixcat)) }
{
    read_key(
        stated.id.as_slice(),
        stated.kind,
        &stated.reason,
        &stated.fmid,
    )
}

// The CLASS. Returns `None` if it is not stated, or, with a remark, if it does not have the form of a class.
fn read_class(
    alloc: Global,
    remarks: &mut Remarks,
    subject: &Subject<'_>,
    stated: &Option<Vec<u8>>,
) -> Result<Option<Class>, AllocError>
    ensures { IfOk result (λ class. IsFormed IsClass (text_in stated.now) class) }
{
    let Some(text) = stated else {
        return Ok(None);
    };
    let class = Class::read(text.as_slice());
    if class.is_none() {
        remarks.tell_dropped(
            alloc,
            subject,
            b"CLASS",
            RemarkReason::BadValue,
            text.as_slice(),
        )?;
    }
    Ok(class)
}

// The DATE. Returns `None` if it is not stated, or, with a remark, if it does not have the form of a date.
fn read_date(
    alloc: Global,
    remarks: &mut Remarks,
    subject: &Subject<'_>,
    stated: &Option<Vec<u8>>,
) -> Result<Option<HoldDate>, AllocError>
    ensures { IfOk result (λ date. IsFormed IsDate (text_in stated.now) date) }
{
    let Some(text) = stated else {
        return Ok(None);
    };
    let date = HoldDate::read(text.as_slice());
    if date.is_none() {
        remarks.tell_dropped(
            alloc,
            subject,
            b"DATE",
            RemarkReason::BadValue,
            text.as_slice(),
        )?;
    }
    Ok(date)
}

// The hold with this key and with the CLASS, DATE and COMMENT that are stated. Remarks say which of these differ.
fn hold_with_key(
    alloc: Global,
    remarks: &mut Remarks,
    subject: &Subject<'_>,
    stated: &WideHold,
    key: Release,
    internal: bool,
) -> Result<Hold, AllocError>
    requires { IsHoldKey stated.now key }
    ensures hold { IfOk result (IsHold stated.now) }
    ensures internal { IfOk result (λ hold. (hold.internal ≡ internal) × (hold.id ≡ key.id) × (hold.kind ≡ key.kind)) }
{
    let class = read_class(alloc, remarks, subject, &stated.class)?;
    let date = read_date(alloc, remarks, subject, &stated.date)?;
    let comment = read_comment(alloc, remarks, subject, &stated.comment)?;
    Ok(Hold {
        id: key.id,
        kind: key.kind,
        reason: key.reason,
        fmid: key.fmid,
        class,
        date,
        comment,
        internal,
    })
}

/// Whether the hold is internal if it is stated in the SYSMOD of this id: it is a SYSTEM hold on that SYSMOD.
pub fn is_internal_in(id: &[u8], stated: &WideHold) -> bool
    ensures { IsTrue result ↔ IsInternal (Some id.now) stated.now }
{
    stated.kind == Some(WideHoldKind::System) && id == stated.id.as_slice()
}

// Whether the hold is internal. `own` is the SYSMOD in which it is stated. Outside SYSMODs no hold is internal.
fn is_internal(own: Option<Id>, stated: &WideHold) -> bool
    ensures { IsTrue result ↔ IsInternal own stated.now }
{
    match own {
        Some(id) => is_internal_in(id.as_bytes(), stated),
        None => false,
    }
}

/// The hold, as what remarks are about.
pub fn hold_subject(stated: &WideHold) -> Subject<'_> {
    Subject {
        place: stated.place,
        word: b"HOLD",
        id: stated.id.as_slice(),
    }
}

/// The release, as what remarks are about.
pub(crate) fn release_subject(stated: &WideRelease) -> Subject<'_> {
    Subject {
        place: stated.place,
        word: b"RELEASE",
        id: stated.id.as_slice(),
    }
}

// Remarks that a hold or a release is left out because its kind is FIXCAT.
fn tell_fixcat_left_out(
    alloc: Global,
    remarks: &mut Remarks,
    subject: &Subject<'_>,
) -> Result<(), AllocError> {
    remarks.tell_left_out(alloc, subject, b"FIXCAT", RemarkReason::Fixcat, b"")
}

// Remarks on the operands that are dropped: those that change no decision, and those that are faulty.
fn tell_all_dropped_operands(
    alloc: Global,
    remarks: &mut Remarks,
    subject: &Subject<'_>,
    dropped: &[WideOperand],
    faulty: &[FaultyOperand],
) -> Result<(), AllocError> {
    tell_dropped_operands(alloc, remarks, subject, dropped)?;
    tell_faulty_operands(alloc, remarks, subject, faulty, Deed::Dropped)
}

/// The hold as it is carried, or `None` for FIXCAT. `own` is the SYSMOD in which it is stated: the hold is internal if
/// it is a SYSTEM hold on that SYSMOD. Remarks say what differs. Returns `BadHold` if its key cannot be read, and
/// `Memory` if memory runs out.
pub fn carry_hold(
    alloc: Global,
    remarks: &mut Remarks,
    stated: &WideHold,
    own: Option<Id>,
) -> Result<Option<Hold>, HoldError>
    ensures some { IfOk result (λ found. IfSome found (IsHold stated.now)) }
    ensures internal { IfOk result (λ found. IfSome found (λ hold. IsTrue hold.internal
        ↔ IsInternal own stated.now)) }
    ensures none { IfOk result (λ found. IfNone found (stated.now.kind ≡ Some Fixcat)) }
{
    let subject = hold_subject(stated);
    let Ok(key) = hold_key(stated) else {
        return Err(HoldError::BadHold);
    };
    let Some(key) = key else {
        tell_fixcat_left_out(alloc, remarks, &subject)?;
        return Ok(None);
    };
    tell_all_dropped_operands(
        alloc,
        remarks,
        &subject,
        stated.dropped.as_slice(),
        stated.faulty.as_slice(),
    )?;
    let internal = is_internal(own, stated);
    Ok(Some(hold_with_key(alloc, remarks, &subject, stated, key, internal)?))
}

/// The release as it is carried, or `None` for FIXCAT. Remarks say what differs. Returns `BadHold` if its key cannot be
/// read, and `Memory` if memory runs out.
pub(crate) fn carry_release(
    alloc: Global,
    remarks: &mut Remarks,
    stated: &WideRelease,
) -> Result<Option<Release>, HoldError>
    ensures some { IfOk result (λ found. IfSome found (IsRelease stated.now)) }
    ensures none { IfOk result (λ found. IfNone found (stated.now.kind ≡ Some Fixcat)) }
{
    let subject = release_subject(stated);
    let Ok(key) = release_key(stated) else {
        return Err(HoldError::BadHold);
    };
    if key.is_none() {
        tell_fixcat_left_out(alloc, remarks, &subject)?;
        return Ok(None);
    }
    tell_all_dropped_operands(
        alloc,
        remarks,
        &subject,
        stated.dropped.as_slice(),
        stated.faulty.as_slice(),
    )?;
    Ok(key)
}
