//! What becomes of a command: each of its words is spelled out, dropped or named.

use crate::bypass::carry_bypass;
use crate::carried::{CarriedCommand, CarriedOperand, CarriedValue, has_word};
use crate::command_remarks::{CommandRemarks, RemarkWords};
use crate::group_extend::exclude_kinds;
use crate::lists::carry_list;
use crate::operand_context::{OperandContext, operand_contexts};
use crate::received::Received;
use crate::spelling::{OperandForm, vocabulary_of};
use intake_asked::{CommandEnd, KnownSysmods, WideCommand, changes_no_decision};
use intake_cards::{Deed, RemarkReason};
use std::alloc::{AllocError, Global};

/// The operands that choose SYSMODs without naming them. GROUP without a list cannot stand beside one.
const MASS_OPERANDS: &[&[u8]] = &[
    b"FUNCTIONS",
    b"PTFS",
    b"APARS",
    b"USERMODS",
    b"SOURCEID",
    b"FORFMID",
];

/// The command as it is written. Returns `None`, with a remark, if it is dropped, or if it is not a whole command of
/// the profile. A remark that refuses says which of its words cannot be carried. `received` is what the commands before
/// it receive.
pub(crate) fn carry_command(
    alloc: Global,
    remarks: &mut CommandRemarks,
    known: &KnownSysmods,
    received: Received,
    wide: &WideCommand,
) -> Result<Option<CarriedCommand>, AllocError> {
    let word = wide.head.name.as_slice();
    if wide.has_lower_case {
        remark_on_command(remarks, wide, Deed::Carried, RemarkReason::LowerCase)?;
    }
    if !ends_with_period(remarks, wide)? {
        return Ok(None);
    }
    if changes_no_decision(word) {
        remark_on_command(remarks, wide, Deed::Dropped, RemarkReason::NoDecision)?;
        return Ok(None);
    }
    let Some(vocabulary) = vocabulary_of(word) else {
        remark_on_command(remarks, wide, Deed::Refused, RemarkReason::NoCommand)?;
        return Ok(None);
    };
    if wide.head.value.is_some() {
        remark_on_command(remarks, wide, Deed::Refused, RemarkReason::BadValue)?;
    }
    if wide.shares_card {
        remark_on_command(remarks, wide, Deed::Carried, RemarkReason::OwnCard)?;
    }
    let contexts = operand_contexts(alloc, &vocabulary, known, received, wide)?;
    let operands = carry_operands(alloc, remarks, &contexts)?;
    Ok(Some(CarriedCommand {
        place: wide.place,
        word: vocabulary.word,
        operands,
    }))
}

// Whether the command ends with its period. If not, a remark refuses it and says why.
fn ends_with_period(remarks: &mut CommandRemarks, wide: &WideCommand) -> Result<bool, AllocError> {
    let reason = match wide.end {
        CommandEnd::Period => return Ok(true),
        CommandEnd::NoPeriod => RemarkReason::NoPeriod,
        CommandEnd::OpenParenthesis => RemarkReason::OpenParenthesis,
        CommandEnd::OpenComment(opens) => {
            let words = RemarkWords {
                command: wide.head.name.as_slice(),
                operand: b"",
                text: b"",
            };
            remarks.add(opens, words, Deed::Refused, RemarkReason::OpenComment)?;
            return Ok(false);
        }
    };
    remark_on_command(remarks, wide, Deed::Refused, reason)?;
    Ok(false)
}

// Remarks on the whole command.
fn remark_on_command(
    remarks: &mut CommandRemarks,
    wide: &WideCommand,
    deed: Deed,
    reason: RemarkReason,
) -> Result<(), AllocError> {
    let words = RemarkWords {
        command: wide.head.name.as_slice(),
        operand: b"",
        text: wide.head.text(),
    };
    remarks.add(wide.place, words, deed, reason)
}

// The operands that can be carried, with a remark on each of the others. GROUP without a list and GROUPEXTEND with one
// become operands of the profile.
fn carry_operands(
    alloc: Global,
    remarks: &mut CommandRemarks,
    contexts: &[OperandContext<'_>],
) -> Result<Vec<CarriedOperand>, AllocError> {
    let mut carried: Vec<CarriedOperand> = Vec::new(alloc);
    for context in contexts {
        let Some(operand) = carry_operand(alloc, remarks, context)? else {
            continue;
        };
        if has_word(&carried, operand.word) {
            context.refuse(remarks, b"", RemarkReason::Twice)?;
        } else {
            carried.push(operand)?;
        }
    }
    if let Some(group) = contexts
        .iter()
        .find(|context| context.has_form(OperandForm::Group))
    {
        if group.operand.value.is_none() {
            replace_select_by_group(remarks, group, &mut carried)?;
        }
    }
    let group_extend = contexts.iter().find(|context| {
        context.has_form(OperandForm::GroupExtend) && context.operand.value.is_some()
    });
    if let Some(group_extend) = group_extend {
        exclude_kinds(alloc, remarks, group_extend, &mut carried)?;
    }
    Ok(carried)
}

// The operand as it is written. Returns `None`, with a remark, if it is dropped or cannot be carried.
fn carry_operand(
    alloc: Global,
    remarks: &mut CommandRemarks,
    context: &OperandContext<'_>,
) -> Result<Option<CarriedOperand>, AllocError> {
    let Some(spelling) = context.check_spelling(remarks, context.spelling())? else {
        return Ok(None);
    };
    let Some(value) = carry_value(alloc, remarks, context, spelling.form)? else {
        return Ok(None);
    };
    Ok(Some(CarriedOperand {
        word: spelling.full,
        value,
    }))
}

// What follows the operand's word. Returns `None`, with remarks, if it cannot be carried, or if all members of a BYPASS
// are dropped.
fn carry_value(
    alloc: Global,
    remarks: &mut CommandRemarks,
    context: &OperandContext<'_>,
    form: OperandForm,
) -> Result<Option<CarriedValue>, AllocError> {
    let has_value = context.operand.value.is_some();
    match form {
        OperandForm::GroupExtend => Ok(Some(CarriedValue::Nothing)),
        OperandForm::Flag | OperandForm::Group if !has_value => Ok(Some(CarriedValue::Nothing)),
        OperandForm::Flag => {
            context.refuse(remarks, context.operand.text(), RemarkReason::NoOperand)?;
            Ok(None)
        }
        _ if !has_value => {
            context.refuse(remarks, b"", RemarkReason::Missing)?;
            Ok(None)
        }
        OperandForm::Bypass | OperandForm::ReceiveBypass => carry_bypass(alloc, remarks, context),
        form => Ok(Some(CarriedValue::List(carry_list(alloc, remarks, context, form)?))),
    }
}

// Replaces SELECT by GROUP with the same ids, as a GROUP without a list asks for. A remark refuses this GROUP if there
// is no SELECT, or if another operand chooses SYSMODs too.
fn replace_select_by_group(
    remarks: &mut CommandRemarks,
    group: &OperandContext<'_>,
    carried: &mut Vec<CarriedOperand>,
) -> Result<(), AllocError> {
    carried.retain(|operand| operand.word != b"GROUP".as_slice());
    let chooses_more = MASS_OPERANDS
        .iter()
        .any(|word| has_word(carried.as_slice(), *word));
    if chooses_more {
        return group.refuse(remarks, b"", RemarkReason::NoOperand);
    }
    for operand in carried.iter_mut() {
        if operand.word == b"SELECT".as_slice() {
            operand.word = b"GROUP";
            return group.remark(remarks, b"", Deed::Carried, RemarkReason::GroupOfSelect);
        }
    }
    group.refuse(remarks, b"", RemarkReason::NoOperand)
}
