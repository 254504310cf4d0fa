//! `++VER`.
ghost use Rattle.std.specs.Prelude.{◌≡◌, IfOk, IfSome, IsPermutation};
ghost use Rattle.intake_sysmod.specs.NoLooser.{AreForSrels, AreVers, AreOperands};

use crate::ver_operands::{VerOperands, read_operands};
use fields::Srel;
use intake_cards::{RemarkReason, Remarks, Subject};
use intake_read::{WideSysmod, WideVer};
use std::alloc::{AllocError, Global};
use sysmods_values::{IfReq, Ver};
use terms::Kind;

/// The most `++VER`s that a SYSMOD may have.
const MOST_VERS: usize = 8;

// Copies of the `++IF`s, for one more `++VER`.
fn clone_ifs(alloc: Global, ifs: &[IfReq]) -> Result<Vec<IfReq>, AllocError>
    ensures { IfOk result (λ copies. copies.items ≡ ifs.now) }
{
    let mut copies = Vec::new(alloc);
    for condition in ifs {
        copies.push(IfReq {
            function: condition.function,
            req: condition.req.try_clone(alloc)?,
        })?;
    }
    Ok(copies)
}

// The `++VER` of these operands for one SREL.
fn ver_for_srel(alloc: Global, srel: Srel, operands: &VerOperands) -> Result<Ver, AllocError>
    ensures { IfOk result (λ ver. (ver.srel ≡ srel) × (ver.fmid ≡ operands.now.fmid)
        × (ver.pre ≡ operands.now.lists.pre) × (ver.req ≡ operands.now.lists.req)
        × (ver.sup ≡ operands.now.lists.sup) × (ver.npre ≡ operands.now.lists.npre)
        × (ver.del ≡ operands.now.lists.delete) × (ver.ifs ≡ operands.now.ifs.items)) }
{
    let lists = &operands.lists;
    Ok(Ver {
        srel,
        fmid: operands.fmid,
        pre: lists.pre.try_clone(alloc)?,
        req: lists.req.try_clone(alloc)?,
        sup: lists.sup.try_clone(alloc)?,
        npre: lists.npre.try_clone(alloc)?,
        del: lists.delete.try_clone(alloc)?,
        ifs: clone_ifs(alloc, operands.ifs.as_slice())?,
    })
}

// The `++VER`s for the SRELs of the statement. Returns `None`, with a remark, if one of these does not have the form of
// an SREL.
fn vers_for_srels(
    alloc: Global,
    remarks: &mut Remarks,
    subject: &Subject<'_>,
    stated: &WideVer,
    operands: &VerOperands,
) -> Result<Option<Vec<Ver>>, AllocError>
    requires { AreOperands stated.now operands.now }
    ensures { IfOk result (λ found. IfSome found (λ vers. AreForSrels stated.now vers.items)) }
{
    let mut vers = Vec::with_capacity(alloc, stated.srels.len())?;
    for srel in stated.srels.iter() {
        let Some(srel) = Srel::read(srel.as_slice()) else {
            remarks.tell_left_out(
                alloc,
                subject,
                b"SREL",
                RemarkReason::BadValue,
                srel.as_slice(),
            )?;
            return Ok(None);
        };
        vers.push(ver_for_srel(alloc, srel, operands)?)?;
    }
    Ok(Some(vers))
}

// The `++VER`s of one statement, one for each SREL. Returns `None`, with a remark, if it cannot be carried.
fn vers_of_statement(
    alloc: Global,
    remarks: &mut Remarks,
    sysmod: &WideSysmod,
    stated: &WideVer,
) -> Result<Option<Vec<Ver>>, AllocError>
    ensures { IfOk result (λ found. IfSome found (λ vers. AreForSrels stated.now vers.items)) }
{
    let subject = Subject {
        place: stated.place,
        word: b"VER",
        id: sysmod.id.as_slice(),
    };
    if stated.srels.is_empty() {
        remarks.tell_left_out(alloc, &subject, b"SREL", RemarkReason::Missing, b"")?;
        return Ok(None);
    }
    match read_operands(alloc, remarks, sysmod, stated)? {
        Some(operands) => vers_for_srels(alloc, remarks, &subject, stated, &operands),
        None => Ok(None),
    }
}

// The `++VER`s of all statements, in their order. Returns `None` if a statement cannot be carried, with a remark on
// each of these.
fn vers_of_statements(
    alloc: Global,
    remarks: &mut Remarks,
    sysmod: &WideSysmod,
) -> Result<Option<Vec<Ver>>, AllocError>
    ensures { IfOk result (λ found. IfSome found (λ vers. AreVers sysmod.now.vers.items vers.items)) }
{
    let mut vers = Vec::new(alloc);
    let mut has_all = true;
    for stated in sysmod.vers.iter() {
        let Some(mut more) = vers_of_statement(alloc, remarks, sysmod, stated)? else {
            has_all = false;
            continue;
        };
        vers.append(&mut more)?;
    }
    if has_all { Ok(Some(vers)) } else { Ok(None) }
}

// The `++VER`s, sorted by their SRELs. Those of the same SREL keep their order.
fn sort_by_srel(mut vers: Vec<Ver>) -> Result<Vec<Ver>, AllocError>
    ensures { IfOk result (λ sorted. IsPermutation vers.items sorted.items) }
{
    vers.sort_by_key(|ver| ver.srel)?;
    Ok(vers)
}

// Whether a SYSMOD of the kind may have both: their SRELs differ, or it is service and their FMIDs differ.
fn may_have_both(kind: Kind, first: &Ver, second: &Ver) -> bool {
    first.srel != second.srel || (kind != Kind::Function && first.fmid != second.fmid)
}

// The first `++VER` that a SYSMOD of the kind may not have beside an earlier one, or `None` if it may have all.
fn first_conflicting_ver(kind: Kind, vers: &[Ver]) -> Option<&Ver> {
    for (place, ver) in vers.iter().enumerate() {
        for earlier in &vers[..place] {
            if !may_have_both(kind, earlier, ver) {
                return Some(ver);
            }
        }
    }
    None
}

// Whether a `++VER` of the SYSMOD cannot be read. Such a statement has a remark of its own (`tell_other_statements`).
fn has_faulty_ver(sysmod: &WideSysmod) -> bool {
    sysmod
        .others
        .iter()
        .any(|other| other.word.as_slice() == b"VER".as_slice())
}

/// The `++VER`s of a SYSMOD, sorted by their SRELs. Returns `None`, with a remark, if one cannot be carried, if there
/// is none, if there are too many, or if the SYSMOD may not have two of them together.
pub(crate) fn read_vers(
    alloc: Global,
    remarks: &mut Remarks,
    subject: &Subject<'_>,
    sysmod: &WideSysmod,
) -> Result<Option<Vec<Ver>>, AllocError>
    ensures { IfOk result (λ found. IfSome found (λ vers. AreVers sysmod.now.vers.items vers.items)) }
{
    let Some(vers) = vers_of_statements(alloc, remarks, sysmod)? else {
        return Ok(None);
    };
    if vers.is_empty() {
        if !has_faulty_ver(sysmod) {
            remarks.tell_left_out(alloc, subject, b"VER", RemarkReason::Missing, b"")?;
        }
        return Ok(None);
    }
    if vers.len() > MOST_VERS {
        remarks.tell_left_out(alloc, subject, b"VER", RemarkReason::TooMany, b"")?;
        return Ok(None);
    }
    if let Some(ver) = first_conflicting_ver(sysmod.kind, vers.as_slice()) {
        remarks.tell_left_out(
            alloc,
            subject,
            b"VER",
            RemarkReason::Twice,
            ver.srel.as_bytes(),
        )?;
        return Ok(None);
    }
    Ok(Some(sort_by_srel(vers)?))
}
