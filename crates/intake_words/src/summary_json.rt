//! The summary of a run over files for programs: one object in JSON.

use crate::summary::{
    cause_of, cause_text, count_with_reason, is_of_left_out_sysmod, remark_counts,
};
use intake_cards::{RemarkList, RemarkReason, is_printable_byte};
use intake_carry::{Narrowed, Tally, Unsure};
use std::alloc::{AllocError, Global};

// Appends a text in quotation marks. A byte that is no printable ASCII becomes a question mark.
fn append_text(json: &mut Vec<u8>, text: &[u8]) -> Result<(), AllocError> {
    json.push(b'"')?;
    for byte in text {
        match *byte {
            b'"' | b'\\' => {
                json.push(b'\\')?;
                json.push(*byte)?;
            }
            other if is_printable_byte(other) => json.push(other)?,
            _ => json.push(b'?')?,
        }
    }
    json.push(b'"')?;
    Ok(())
}

// Appends the name of a member of an object, after a comma if it is not the first one.
fn append_name(json: &mut Vec<u8>, name: &str) -> Result<(), AllocError> {
    if !json.as_slice().ends_with(b"{") {
        json.push(b',')?;
    }
    append_text(json, name.as_bytes())?;
    json.push(b':')?;
    Ok(())
}

// Appends a member of an object that is a number.
fn append_number(
    alloc: Global,
    json: &mut Vec<u8>,
    name: &str,
    number: usize,
) -> Result<(), AllocError> {
    append_name(json, name)?;
    json.extend_from_slice(format!(in alloc; "{number}")?.as_bytes())
}

// Appends a member of an object that says how many statements were carried and left out.
fn append_tally(
    alloc: Global,
    json: &mut Vec<u8>,
    name: &str,
    tally: Tally,
) -> Result<(), AllocError> {
    append_name(json, name)?;
    json.push(b'{')?;
    append_number(alloc, json, "carried", tally.carried)?;
    append_number(alloc, json, "left_out", tally.left_out)?;
    json.push(b'}')?;
    Ok(())
}

// Begins an object of a list, after a comma if it is not the first one.
fn begin_object(json: &mut Vec<u8>) -> Result<(), AllocError> {
    if !json.as_slice().ends_with(b"[") {
        json.push(b',')?;
    }
    json.push(b'{')?;
    Ok(())
}

// Appends the SYSMODs that are left out, each with its cause.
fn append_left_out(
    alloc: Global,
    json: &mut Vec<u8>,
    remarks: &RemarkList,
) -> Result<(), AllocError> {
    append_name(json, "left_out")?;
    json.push(b'[')?;
    for place in 0..remarks.len() {
        let Some(remark) = remarks.get(place) else {
            continue;
        };
        if is_of_left_out_sysmod(&remark) {
            let cause = cause_of(remarks, place, remark);
            begin_object(json)?;
            append_name(json, "statement")?;
            append_text(json, remark.statement)?;
            append_name(json, "id")?;
            append_text(json, remark.id)?;
            append_name(json, "cause")?;
            append_text(json, &cause_text(alloc, &cause)?)?;
            json.push(b'}')?;
        }
    }
    json.push(b']')?;
    Ok(())
}

// Appends the SYSMODs of which it is not sure that they can be installed, each with the reason.
fn append_unsure(json: &mut Vec<u8>, unsure: &[Unsure]) -> Result<(), AllocError> {
    append_name(json, "unsure")?;
    json.push(b'[')?;
    for sysmod in unsure {
        begin_object(json)?;
        append_name(json, "id")?;
        append_text(json, sysmod.id.as_bytes())?;
        append_name(json, "reason")?;
        append_text(json, sysmod.reason.as_slice())?;
        json.push(b'}')?;
    }
    json.push(b']')?;
    Ok(())
}

// Appends how many remarks there are of each deed and reason.
fn append_remark_counts(
    alloc: Global,
    json: &mut Vec<u8>,
    remarks: &RemarkList,
) -> Result<(), AllocError> {
    append_name(json, "remarks")?;
    json.push(b'[')?;
    for entry in &remark_counts(alloc, remarks)? {
        begin_object(json)?;
        append_number(alloc, json, "count", entry.count)?;
        append_name(json, "deed")?;
        append_text(json, entry.deed.words().as_bytes())?;
        append_name(json, "reason")?;
        append_text(json, entry.reason.words().as_bytes())?;
        json.push(b'}')?;
    }
    json.push(b']')?;
    Ok(())
}

/// The summary as JSON: what is left out and why, what else matters, and how much there is of each.
pub(crate) fn json_summary(alloc: Global, narrowed: &Narrowed) -> Result<Vec<u8>, AllocError> {
    let remarks = &narrowed.remarks;
    let mut json = Vec::new(alloc);
    json.push(b'{')?;
    append_left_out(alloc, &mut json, remarks)?;
    append_unsure(&mut json, &narrowed.unsure)?;
    let held = count_with_reason(remarks, RemarkReason::HeldOutside);
    append_number(alloc, &mut json, "holds_outside", held)?;
    let swallowed = count_with_reason(remarks, RemarkReason::StatementInComment);
    append_number(alloc, &mut json, "in_comments", swallowed)?;
    append_number(alloc, &mut json, "forbids", narrowed.forbidding)?;
    append_number(alloc, &mut json, "stand_ins", narrowed.stand_ins)?;
    let passed_over = count_with_reason(remarks, RemarkReason::PassedOver);
    append_number(alloc, &mut json, "passed_over", passed_over)?;
    append_tally(alloc, &mut json, "sysmods", narrowed.sysmods)?;
    append_tally(alloc, &mut json, "holds", narrowed.holds)?;
    append_tally(alloc, &mut json, "releases", narrowed.releases)?;
    append_tally(alloc, &mut json, "assigns", narrowed.assigns)?;
    append_remark_counts(alloc, &mut json, remarks)?;
    json.extend_from_slice(b"}\n")?;
    Ok(json)
}
