//! The members of BYPASS.

use crate::carried::{CarriedMember, CarriedValue};
use crate::command_remarks::CommandRemarks;
use crate::lists::carry_list;
use crate::operand_context::OperandContext;
use crate::spelling::{OperandForm, spelling_of};
use intake_cards::RemarkReason;
use std::alloc::{AllocError, Global};

/// The members of BYPASS. Returns `None`, with remarks, if all of them are dropped, and with them the operand, or
/// refused.
pub(crate) fn carry_bypass(
    alloc: Global,
    remarks: &mut CommandRemarks,
    context: &OperandContext<'_>,
) -> Result<Option<CarriedValue>, AllocError> {
    let mut members: Vec<CarriedMember> = Vec::new(alloc);
    if context.wide.bypassed.is_empty() {
        context.refuse(remarks, context.operand.text(), RemarkReason::Missing)?;
    }
    for operand in &context.wide.bypassed {
        let member_context = OperandContext {
            operand,
            ..*context
        };
        let Some(member) = carry_bypass_member(alloc, remarks, &member_context)? else {
            continue;
        };
        if members.iter().any(|other| other.word == member.word) {
            member_context.refuse(remarks, b"", RemarkReason::Twice)?;
        } else {
            members.push(member)?;
        }
    }
    if members.is_empty() {
        return Ok(None);
    }
    Ok(Some(CarriedValue::BypassMembers(members)))
}

// The member of BYPASS as it is written. Returns `None`, with a remark, if it is dropped or cannot be carried.
fn carry_bypass_member(
    alloc: Global,
    remarks: &mut CommandRemarks,
    context: &OperandContext<'_>,
) -> Result<Option<CarriedMember>, AllocError> {
    let member = context.operand;
    let spelling = spelling_of(context.vocabulary.members, member.name.as_slice());
    let Some(spelling) = context.check_spelling(remarks, spelling)? else {
        return Ok(None);
    };
    if member.value.is_some() && spelling.form == OperandForm::Flag {
        context.refuse(remarks, member.text(), RemarkReason::BadValue)?;
        return Ok(None);
    }
    if member.value.is_none() && spelling.form == OperandForm::Classes {
        context.refuse(remarks, b"", RemarkReason::Missing)?;
    }
    let listed = match &member.value {
        Some(_) => Some(carry_list(alloc, remarks, context, spelling.form)?),
        None => None,
    };
    Ok(Some(CarriedMember {
        word: spelling.full,
        listed,
    }))
}
