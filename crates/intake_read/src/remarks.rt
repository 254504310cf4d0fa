//! Remarks on operands and statements that are dropped or faulty.
use crate::items::{FaultyOperand, OperandFault, OtherReason, WideOperand, WideOther};
use intake_cards::{Deed, RemarkReason, Remarks, Subject};
use std::alloc::{AllocError, Global};

/// Remarks, for each of the operands, that it is dropped because it changes no decision.
pub fn tell_dropped_operands(
    alloc: Global,
    remarks: &mut Remarks,
    subject: &Subject<'_>,
    operands: &[WideOperand],
) -> Result<(), AllocError> {
    for operand in operands {
        let name = operand.name.as_slice();
        remarks.tell_dropped(
            alloc,
            subject,
            name,
            RemarkReason::NoDecision,
            operand.text(),
        )?;
    }
    Ok(())
}

/// Why the operand cannot be read. An operand that has no value, although it must have one, lacks it.
pub fn fault_reason(faulty: &FaultyOperand) -> RemarkReason {
    if faulty.reason == OperandFault::BadValue && faulty.operand.text().is_empty() {
        RemarkReason::NoValue
    } else {
        RemarkReason::from(faulty.reason)
    }
}

/// Remarks what is done with each of the faulty operands, and why.
pub fn tell_faulty_operands(
    alloc: Global,
    remarks: &mut Remarks,
    subject: &Subject<'_>,
    faulty: &[FaultyOperand],
    deed: Deed,
) -> Result<(), AllocError> {
    for entry in faulty {
        let operand = &entry.operand;
        let reason = fault_reason(entry);
        remarks.tell(
            alloc,
            subject,
            operand.name.as_slice(),
            deed,
            reason,
            operand.text(),
        )?;
    }
    Ok(())
}

/// What the statement lacks, as remarks name it, or an empty text if it lacks nothing and has another fault.
pub fn missing_word(other: &WideOther) -> &'static [u8] {
    if other.reason != OtherReason::NoName {
        return b"";
    }
    match other.word.as_slice() {
        b"VER" => b"SREL",
        b"FUNCTION" | b"PTF" | b"APAR" | b"USERMOD" | b"HOLD" | b"RELEASE" => b"(ID)",
        _ => b"(NAME)",
    }
}

impl From<OperandFault> for RemarkReason {
    fn from(reason: OperandFault) -> RemarkReason {
        match reason {
            OperandFault::Unknown => RemarkReason::UnknownOperand,
            OperandFault::Repeated => RemarkReason::Twice,
            OperandFault::BadValue => RemarkReason::BadValue,
        }
    }
}

impl From<OtherReason> for RemarkReason {
    fn from(reason: OtherReason) -> RemarkReason {
        match reason {
            OtherReason::NoService => RemarkReason::NoService,
            OtherReason::LoadModules => RemarkReason::OutsideProfile,
            OtherReason::UnknownWord => RemarkReason::UnknownStatement,
            OtherReason::NoPeriod => RemarkReason::NoPeriod,
            OtherReason::LatePeriod => RemarkReason::LatePeriod,
            OtherReason::OpenParenthesis => RemarkReason::OpenParenthesis,
            OtherReason::StrayParenthesis => RemarkReason::StrayParenthesis,
            OtherReason::StrayCharacter => RemarkReason::StrayCharacter,
            OtherReason::TextAfterPeriod => RemarkReason::TextAfterPeriod,
            OtherReason::LongLine => RemarkReason::LongLine,
            OtherReason::NoName => RemarkReason::Missing,
            OtherReason::Misplaced => RemarkReason::OutOfPlace,
        }
    }
}
