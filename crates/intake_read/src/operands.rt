//! The values of operands.
ghost use Rattle.std.specs.Prelude.{◌≡◌, IfOk, map};
ghost use Rattle.intake_read.specs.Stated.{members};

use crate::items::{FaultyOperand, OperandFault, WideOperand};
use std::alloc::{AllocError, Global};

/// The members of a list, which blanks and commas separate.
pub fn list_members(alloc: Global, list: &[u8]) -> Result<Vec<&[u8]>, AllocError>
    ensures { IfOk result (λ found. map (λ member. member.now) found.items ≡ members list.now) }
{
    list.split(|byte| *byte == b' ' || *byte == b',')
        .filter(|part| !part.is_empty())
        .collect(alloc)
}

/// The members of a list in upper case. Returns `None` if there are none, or if the list has inner parentheses.
pub(crate) fn upper_case_members(
    alloc: Global,
    list: &[u8],
) -> Result<Option<Vec<Vec<u8>>>, AllocError> {
    if list.iter().any(|byte| matches!(*byte, b'(' | b')')) {
        return Ok(None);
    }
    let mut members = Vec::new(alloc);
    for member in list_members(alloc, list)? {
        members.push(member.to_ascii_uppercase(alloc)?)?;
    }
    if members.is_empty() {
        return Ok(None);
    }
    Ok(Some(members))
}

// The only member of a list, in upper case. Returns `None` unless the list has exactly one member.
fn only_member(alloc: Global, list: &[u8]) -> Result<Option<Vec<u8>>, AllocError> {
    let Some(mut members) = upper_case_members(alloc, list)? else {
        return Ok(None);
    };
    if members.len() != 1 {
        return Ok(None);
    }
    Ok(members.pop())
}

/// Adds an operand that cannot be read as its name demands to the faulty ones.
pub(crate) fn keep_faulty(
    faulty: &mut Vec<FaultyOperand>,
    operand: WideOperand,
    reason: OperandFault,
) -> Result<(), AllocError> {
    faulty.push(FaultyOperand { operand, reason })?;
    Ok(())
}

/// Puts the members of the operand's list into the slot of its statement. The operand is faulty if the slot is filled,
/// or if it has no list.
pub(crate) fn fill_list(
    alloc: Global,
    slot: &mut Vec<Vec<u8>>,
    operand: WideOperand,
    faulty: &mut Vec<FaultyOperand>,
) -> Result<(), AllocError> {
    if !slot.is_empty() {
        return keep_faulty(faulty, operand, OperandFault::Repeated);
    }
    let members = match &operand.value {
        Some(value) => upper_case_members(alloc, value.as_slice())?,
        None => None,
    };
    match members {
        Some(members) => {
            *slot = members;
            Ok(())
        }
        None => keep_faulty(faulty, operand, OperandFault::BadValue),
    }
}

/// Puts the operand's only value into the slot of its statement. The operand is faulty if the slot is filled, or unless
/// it has exactly one value.
pub(crate) fn fill_value(
    alloc: Global,
    slot: &mut Option<Vec<u8>>,
    operand: WideOperand,
    faulty: &mut Vec<FaultyOperand>,
) -> Result<(), AllocError> {
    if slot.is_some() {
        return keep_faulty(faulty, operand, OperandFault::Repeated);
    }
    let member = match &operand.value {
        Some(value) => only_member(alloc, value.as_slice())?,
        None => None,
    };
    match member {
        Some(value) => {
            *slot = Some(value);
            Ok(())
        }
        None => keep_faulty(faulty, operand, OperandFault::BadValue),
    }
}

/// Puts the text in the operand's parentheses into the slot of its statement, unchanged. The operand is faulty if the
/// slot is filled, or if it has no parentheses.
pub(crate) fn fill_text(
    slot: &mut Option<Vec<u8>>,
    operand: WideOperand,
    faulty: &mut Vec<FaultyOperand>,
) -> Result<(), AllocError> {
    if slot.is_some() {
        return keep_faulty(faulty, operand, OperandFault::Repeated);
    }
    if operand.value.is_none() {
        return keep_faulty(faulty, operand, OperandFault::BadValue);
    }
    *slot = operand.value;
    Ok(())
}

/// Sets the flag of the operand's statement. The operand is faulty if the flag is set, or if it has parentheses.
pub(crate) fn fill_flag(
    slot: &mut bool,
    operand: WideOperand,
    faulty: &mut Vec<FaultyOperand>,
) -> Result<(), AllocError> {
    match bare_word_fault(*slot, &operand) {
        Some(fault) => keep_faulty(faulty, operand, fault),
        None => {
            *slot = true;
            Ok(())
        }
    }
}

/// What is wrong with an operand that may not have parentheses, or `None` if it is good. `is_filled` says whether an
/// earlier operand filled its slot.
pub(crate) fn bare_word_fault(is_filled: bool, operand: &WideOperand) -> Option<OperandFault> {
    if is_filled {
        Some(OperandFault::Repeated)
    } else if operand.value.is_some() {
        Some(OperandFault::BadValue)
    } else {
        None
    }
}
