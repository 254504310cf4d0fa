//! Faults of statements, and what RECEIVE refuses.
use crate::finding::{Finding, Rule};
use crate::inputs::{Inputs, shown};
use crate::receiving::RefusedSysmod;
use fields::spelling::{as_str, statement_code_text};
use intake_cards::{CardPlace, Deed, Remark, RemarkList, RemarkReason};
use intake_service::GivenFile;
use mcs::{McsError, StatementCode, read_hold, read_ptfin};
use std::alloc::{AllocError, Global};

/// The length of a record.
const RECORD: usize = 80;

/// The first fault that RECEIVE finds in a file.
#[derive(Clone, Copy)]
struct FirstFault {
    number: usize,
    code: StatementCode,
}

// Whether the file has records, and no lines.
fn has_records(bytes: &[u8]) -> bool {
    bytes.len() % RECORD == 0 && !bytes.contains(&b'\n')
}

// The first fault of the file, if it has records and is good neither as PTFIN nor as a hold file.
fn first_fault(alloc: Global, bytes: &[u8]) -> Result<Option<FirstFault>, AllocError> {
    if !has_records(bytes) {
        return Ok(None);
    }
    let fault = match read_ptfin(alloc, bytes) {
        Ok(_items) => return Ok(None),
        Err(McsError::Memory) => return Err(AllocError),
        Err(McsError::Fault { number, code }) => FirstFault { number, code },
    };
    match read_hold(alloc, bytes) {
        Ok(_items) => Ok(None),
        Err(McsError::Memory) => Err(AllocError),
        Err(McsError::Fault { .. }) => Ok(Some(fault)),
    }
}

// The card of a file that is given.
fn place_in(file: usize, number: usize) -> CardPlace {
    CardPlace {
        file: u32::try_from(file).unwrap_or(u32::MAX),
        card: u32::try_from(number).unwrap_or(u32::MAX),
    }
}

// Whether one of the findings is about this file.
fn has_fault_in(told: &[Finding], file: u32) -> bool {
    told.iter().any(|finding| finding.place.is_some_and(|place| place.file == file))
}

/// Appends what RECEIVE itself would answer to each file of records that it refuses: as a fault if one of the faults is
/// in that file, and otherwise as a remark.
pub(crate) fn append_first_faults(
    alloc: Global,
    files: &[GivenFile<'_>],
    faults: &[Finding],
    told: &mut Vec<Finding>,
) -> Result<(), AllocError> {
    for i in 0..files.len() {
        if let Some(fault) = first_fault(alloc, files[i].bytes)? {
            let place = place_in(i, fault.number);
            let code = as_str(statement_code_text(fault.code));
            let words = format!(in alloc; "RECEIVE refuses the file with {code}")?;
            let rule = if has_fault_in(faults, place.file) {
                Rule::Fault
            } else {
                Rule::Records
            };
            let mut finding = Finding::new(alloc, rule, words);
            finding.place = Some(place);
            told.push(finding)?;
        }
    }
    Ok(())
}

// Whether the remark is about a mistake: what it is about is left out or refused, or dropped although it is no operand
// or has no value of it.
fn is_fault(remark: &Remark<'_>) -> bool {
    match remark.deed {
        Deed::Carried => false,
        Deed::LeftOut => remark.reason != RemarkReason::Fixcat,
        Deed::Refused => true,
        Deed::Dropped => matches!(
            remark.reason,
            RemarkReason::UnknownOperand
                | RemarkReason::UnknownStatement
                | RemarkReason::Twice
                | RemarkReason::BadValue
                | RemarkReason::NoValue
                | RemarkReason::Missing
                | RemarkReason::StatementInComment
        ),
    }
}

// The remark as a finding.
fn fault_finding(alloc: Global, remark: &Remark<'_>) -> Result<Finding, AllocError> {
    let subject = shown(alloc, &remark.subject_text(alloc)?)?;
    let subject = subject.as_str();
    let deed = remark.deed.words();
    let reason = remark.reason.words();
    let text = shown(alloc, remark.text)?;
    let text = text.as_str();
    let words = if text.is_empty() {
        format!(in alloc; "{subject}: {deed}: {reason}")?
    } else {
        format!(in alloc; "{subject}: {deed}: {reason}: {text}")?
    };
    let mut finding = Finding::new(alloc, Rule::Fault, words);
    finding.place = Some(remark.place);
    Ok(finding)
}

/// A finding for each remark on a statement or an operand that is not as it has to be.
pub(crate) fn faults_of(alloc: Global, remarks: &RemarkList) -> Result<Vec<Finding>, AllocError> {
    let mut told = Vec::new(alloc);
    for i in 0..remarks.len() {
        if let Some(remark) = remarks.get(i) {
            if is_fault(&remark) {
                told.push(fault_finding(alloc, &remark)?)?;
            }
        }
    }
    Ok(told)
}

/// Appends a finding for each SYSMOD that RECEIVE refuses.
pub(crate) fn append_refused(
    alloc: Global,
    inputs: &Inputs,
    refused: &[RefusedSysmod],
    told: &mut Vec<Finding>,
) -> Result<(), AllocError> {
    for sysmod in refused {
        let id = sysmod.id;
        let why = sysmod.why;
        let words = format!(in alloc; "{id}: {why}")?;
        let mut finding = Finding::new(alloc, Rule::Receive, words);
        finding.sysmod = Some(id);
        finding.place = inputs.place_of(id);
        told.push(finding)?;
    }
    Ok(())
}
