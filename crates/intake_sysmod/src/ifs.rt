//! `++IF`.
ghost use Rattle.std.specs.Prelude.{IfOk, IfSome};
ghost use Rattle.terms.specs.Beside.{Beside};
ghost use Rattle.intake_sysmod.specs.NoLooser.{IsIf};

use crate::ids::{read_id_or_remark, read_ids_or_remark};
use intake_cards::{Deed, RemarkReason, Remarks, Subject};
use intake_elements::are_all_read;
use intake_read::{WideIf, tell_faulty_operands};
use std::alloc::{AllocError, Global};
use sysmods_values::IfReq;

/// The most `++IF`s that a `++VER` may have.
const MOST_IFS: usize = 100;

// The `++IF` as it is carried. `own_id` is that of its SYSMOD. Returns `None`, with a remark, if it cannot be carried.
fn read_if(
    alloc: Global,
    remarks: &mut Remarks,
    own_id: &[u8],
    stated: &WideIf,
) -> Result<Option<IfReq>, AllocError>
    ensures { IfOk result (λ found. IfSome found (IsIf stated.now)) }
{
    let subject = Subject {
        place: stated.place,
        word: b"IF",
        id: own_id,
    };
    let faulty = stated.faulty.as_slice();
    if !are_all_read(faulty) {
        tell_faulty_operands(alloc, remarks, &subject, faulty, Deed::LeftOut)?;
        return Ok(None);
    }
    let Some(fmid) = &stated.fmid else {
        remarks.tell_left_out(alloc, &subject, b"FMID", RemarkReason::Missing, b"")?;
        return Ok(None);
    };
    let Some(function) = read_id_or_remark(alloc, remarks, &subject, b"FMID", fmid.as_slice())?
    else {
        return Ok(None);
    };
    let Some(req) = read_ids_or_remark(alloc, remarks, &subject, b"REQ", stated.req.as_slice())?
    else {
        return Ok(None);
    };
    if req.is_empty() {
        remarks.tell_left_out(alloc, &subject, b"REQ", RemarkReason::Missing, b"")?;
        return Ok(None);
    }
    if req.iter().any(|id| id.as_bytes() == own_id) {
        remarks.tell_left_out(alloc, &subject, b"REQ", RemarkReason::NamesItself, own_id)?;
        return Ok(None);
    }
    Ok(Some(IfReq { function, req }))
}

/// The `++IF`s of a `++VER`, which is the subject. `own_id` is that of its SYSMOD. Returns `None`, with a remark, if
/// one cannot be carried, or if there are too many.
pub(crate) fn read_ifs(
    alloc: Global,
    remarks: &mut Remarks,
    own_id: &[u8],
    subject: &Subject<'_>,
    stated: &[WideIf],
) -> Result<Option<Vec<IfReq>>, AllocError>
    ensures { IfOk result (λ found. IfSome found (λ ifs. Beside (λ _. IsIf) stated.now ifs.items)) }
{
    let mut ifs = Vec::with_capacity(alloc, stated.len())?;
    for statement in stated {
        let Some(condition) = read_if(alloc, remarks, own_id, statement)? else {
            return Ok(None);
        };
        ifs.push(condition)?;
    }
    if ifs.len() > MOST_IFS {
        remarks.tell_left_out(alloc, subject, b"IF", RemarkReason::TooMany, b"")?;
        return Ok(None);
    }
    Ok(Some(ifs))
}
