//! The operands of `++VER`.
ghost use Rattle.std.specs.Prelude.{◌≡◌, IfOk, IfSome};
ghost use Rattle.intake_read.specs.Stated.{text_in};
ghost use Rattle.intake_sysmod.specs.NoLooser.{AreLists, AreOperands};

use crate::ids::{read_id_or_remark, read_ids_or_remark};
use crate::ifs::read_ifs;
use fields::{Id, IdList};
use intake_cards::{Deed, RemarkReason, Remarks, Subject};
use intake_elements::are_all_read;
use intake_read::{WideSysmod, WideVer, tell_faulty_operands};
use std::alloc::{AllocError, Global};
use sysmods_values::IfReq;
use terms::Kind;

/// The lists of a `++VER`.
#[derive(Drop)]
pub(crate) struct VerLists {
    pub pre: IdList,
    pub req: IdList,
    pub sup: IdList,
    pub npre: IdList,
    pub delete: IdList,
}

/// What a `++VER` says for each of its SRELs.
#[derive(Drop)]
pub(crate) struct VerOperands {
    pub fmid: Option<Id>,
    pub lists: VerLists,
    pub ifs: Vec<IfReq>,
}

// The lists PRE, REQ, SUP, NPRE and DELETE. Returns `None`, with a remark, if one cannot be carried.
fn read_lists(
    alloc: Global,
    remarks: &mut Remarks,
    subject: &Subject<'_>,
    stated: &WideVer,
) -> Result<Option<VerLists>, AllocError>
    ensures { IfOk result (λ found. IfSome found (AreLists stated.now)) }
{
    let Some(pre) = read_ids_or_remark(alloc, remarks, subject, b"PRE", stated.pre.as_slice())?
    else {
        return Ok(None);
    };
    let Some(req) = read_ids_or_remark(alloc, remarks, subject, b"REQ", stated.req.as_slice())?
    else {
        return Ok(None);
    };
    let Some(sup) = read_ids_or_remark(alloc, remarks, subject, b"SUP", stated.sup.as_slice())?
    else {
        return Ok(None);
    };
    let Some(npre) = read_ids_or_remark(alloc, remarks, subject, b"NPRE", stated.npre.as_slice())?
    else {
        return Ok(None);
    };
    let Some(delete) = read_ids_or_remark(
        alloc,
        remarks,
        subject,
        b"DELETE",
        stated.delete.as_slice(),
    )?
    else {
        return Ok(None);
    };
    Ok(Some(VerLists {
        pre,
        req,
        sup,
        npre,
        delete,
    }))
}

// The FMID, or `Some(None)` if none is stated. Returns `None`, with a remark, if it does not have the form of an id.
fn read_fmid(
    alloc: Global,
    remarks: &mut Remarks,
    subject: &Subject<'_>,
    stated: &Option<Vec<u8>>,
) -> Result<Option<Option<Id>>, AllocError>
    ensures { IfOk result (λ found. IfSome found (λ fmid. text_in stated.now ≡ fmid)) }
{
    match stated {
        None => Ok(Some(None)),
        Some(text) => match read_id_or_remark(alloc, remarks, subject, b"FMID", text.as_slice())? {
            Some(id) => Ok(Some(Some(id))),
            None => Ok(None),
        },
    }
}

/// The operands of a `++VER` of the SYSMOD. Returns `None`, with a remark, if one cannot be carried, or if the SYSMOD
/// may not have it or must not lack it.
pub(crate) fn read_operands(
    alloc: Global,
    remarks: &mut Remarks,
    sysmod: &WideSysmod,
    stated: &WideVer,
) -> Result<Option<VerOperands>, AllocError>
    ensures { IfOk result (λ found. IfSome found (AreOperands stated.now)) }
{
    let own_id = sysmod.id.as_slice();
    let subject = Subject {
        place: stated.place,
        word: b"VER",
        id: own_id,
    };
    let faulty = stated.faulty.as_slice();
    if !are_all_read(faulty) {
        tell_faulty_operands(alloc, remarks, &subject, faulty, Deed::LeftOut)?;
        return Ok(None);
    }
    if !stated.version.is_empty() {
        remarks.tell_dropped(alloc, &subject, b"VERSION", RemarkReason::Stricter, b"")?;
    }
    let Some(fmid) = read_fmid(alloc, remarks, &subject, &stated.fmid)? else {
        return Ok(None);
    };
    let Some(lists) = read_lists(alloc, remarks, &subject, stated)? else {
        return Ok(None);
    };
    if !may_have_operands(alloc, remarks, &subject, sysmod.kind, &fmid, &lists)? {
        return Ok(None);
    }
    let Some(ifs) = read_ifs(alloc, remarks, own_id, &subject, stated.ifs.as_slice())? else {
        return Ok(None);
    };
    Ok(Some(VerOperands { fmid, lists, ifs }))
}

// Whether a SYSMOD of the kind may have these operands. If not, a remark names the first that it may not have, or FMID
// if it is service without one.
fn may_have_operands(
    alloc: Global,
    remarks: &mut Remarks,
    subject: &Subject<'_>,
    kind: Kind,
    fmid: &Option<Id>,
    lists: &VerLists,
) -> Result<bool, AllocError> {
    let own_id = subject.id;
    if let Some(operand) = operand_with_own_id(own_id, fmid, lists) {
        remarks.tell_left_out(alloc, subject, operand, RemarkReason::NamesItself, own_id)?;
        return Ok(false);
    }
    if kind == Kind::Function {
        return Ok(true);
    }
    if fmid.is_none() {
        remarks.tell_left_out(alloc, subject, b"FMID", RemarkReason::Missing, b"")?;
        return Ok(false);
    }
    if !lists.npre.is_empty() {
        remarks.tell_left_out(alloc, subject, b"NPRE", RemarkReason::NotInService, b"")?;
        return Ok(false);
    }
    if !lists.delete.is_empty() {
        remarks.tell_left_out(alloc, subject, b"DELETE", RemarkReason::NotInService, b"")?;
        return Ok(false);
    }
    Ok(true)
}

// The name of the first operand that names the SYSMOD itself, or `None` if there is none.
fn operand_with_own_id(
    own_id: &[u8],
    fmid: &Option<Id>,
    lists: &VerLists,
) -> Option<&'static [u8]> {
    if let Some(fmid) = fmid {
        if fmid.as_bytes() == own_id {
            return Some(b"FMID");
        }
    }
    if has_id(&lists.pre, own_id) {
        return Some(b"PRE");
    }
    if has_id(&lists.req, own_id) {
        return Some(b"REQ");
    }
    if has_id(&lists.sup, own_id) {
        return Some(b"SUP");
    }
    if has_id(&lists.npre, own_id) {
        return Some(b"NPRE");
    }
    if has_id(&lists.delete, own_id) {
        return Some(b"DELETE");
    }
    None
}

// Whether the list has the id of this text.
fn has_id(ids: &IdList, text: &[u8]) -> bool {
    Id::read(text).is_some_and(|id| ids.contains(id))
}
