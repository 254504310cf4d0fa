//! Lists of ids.
ghost use Rattle.std.specs.Prelude.{◌≡◌, IfOk, IfSome};
ghost use Rattle.intake_read.specs.Stated.{texts, AreSame};

use fields::{Id, IdList};
use intake_cards::{RemarkReason, Remarks, Subject};
use std::alloc::{AllocError, Global};

/// The most ids that a list may have.
pub(crate) const MOST_IDS: usize = 1000;

// The texts as ids, or `None` if one does not have the form of an id.
fn read_ids(alloc: Global, stated: &[Vec<u8>]) -> Result<Option<Vec<Id>>, AllocError>
    ensures { IfOk result (λ found. IfSome found (λ ids. ids.items ≡ texts stated.now)) }
{
    let mut ids = Vec::with_capacity(alloc, stated.len())?;
    for text in stated {
        let Some(id) = Id::read(text.as_slice()) else {
            return Ok(None);
        };
        ids.push(id)?;
    }
    Ok(Some(ids))
}

// The texts as a list of ids, or `None` if one does not have the form of an id.
fn read_id_list(alloc: Global, stated: &[Vec<u8>]) -> Result<Option<IdList>, AllocError>
    ensures { IfOk result (λ found. IfSome found (λ ids. AreSame stated.now ids)) }
{
    match read_ids(alloc, stated)? {
        Some(ids) => Ok(Some(IdList::from_vec(ids))),
        None => Ok(None),
    }
}

// The first of the texts that does not have the form of an id, or an empty text if all have it.
fn first_bad_id(stated: &[Vec<u8>]) -> &[u8] {
    match stated
        .iter()
        .find(|text| Id::read(text.as_slice()).is_none())
    {
        Some(text) => text.as_slice(),
        None => b"",
    }
}

/// The ids of an operand. Returns `None`, with a remark, if one does not have the form of an id, or if there are more
/// than `MOST_IDS`. Another remark says that the operand names an id twice.
pub(crate) fn read_ids_or_remark(
    alloc: Global,
    remarks: &mut Remarks,
    subject: &Subject<'_>,
    operand: &[u8],
    stated: &[Vec<u8>],
) -> Result<Option<IdList>, AllocError>
    ensures { IfOk result (λ found. IfSome found (λ ids. AreSame stated.now ids)) }
{
    let Some(ids) = read_id_list(alloc, stated)? else {
        remarks.tell_left_out(
            alloc,
            subject,
            operand,
            RemarkReason::BadId,
            first_bad_id(stated),
        )?;
        return Ok(None);
    };
    if ids.len() > MOST_IDS {
        remarks.tell_left_out(alloc, subject, operand, RemarkReason::LongList, b"")?;
        return Ok(None);
    }
    if ids.len() != stated.len() {
        remarks.tell_carried(alloc, subject, operand, RemarkReason::Double, b"")?;
    }
    Ok(Some(ids))
}

/// The id of an operand. Returns `None`, with a remark, if it does not have the form of an id.
pub(crate) fn read_id_or_remark(
    alloc: Global,
    remarks: &mut Remarks,
    subject: &Subject<'_>,
    operand: &[u8],
    stated: &[u8],
) -> Result<Option<Id>, AllocError>
    ensures { IfOk result (λ found. IfSome found (λ id. id ≡ stated.now)) }
{
    let id = Id::read(stated);
    if id.is_none() {
        remarks.tell_left_out(alloc, subject, operand, RemarkReason::BadId, stated)?;
    }
    Ok(id)
}
