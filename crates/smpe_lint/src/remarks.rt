//! Remarks on a stream in words.
use crate::finding::{Finding, Rule, id_text};
use crate::inputs::{Inputs, shown};
use fields::spelling::{as_str, hold_text};
use fields::{Id, Srel};
use std::alloc::{AllocError, Global};
use stream::{Findings, Remark};
use terms::NeedKind;

// The operand that states a requisite.
fn operand_of(kind: NeedKind) -> &'static str {
    match kind {
        NeedKind::Pre => "PRE",
        NeedKind::Req => "REQ",
        _ => "++IF REQ",
    }
}

// A finding about a SYSMOD, with its place.
fn about_one(alloc: Global, inputs: &Inputs, rule: Rule, id: Id, words: String) -> Finding {
    let mut finding = Finding::new(alloc, rule, words);
    finding.sysmod = Some(id);
    finding.place = inputs.place_of(id);
    finding
}

// The ids, with commas between them.
fn id_list(alloc: Global, ids: &[Id]) -> Result<String, AllocError> {
    let mut text = String::new(alloc);
    for id in ids {
        if !text.is_empty() {
            text.push_str(", ")?;
        }
        text.push_str(id_text(alloc, *id)?.as_str())?;
    }
    Ok(text)
}

// A remark on SYSMODs that go on only together. It names the places of the first two.
fn together_finding(alloc: Global, inputs: &Inputs, ids: &[Id]) -> Result<Finding, AllocError> {
    let list = id_list(alloc, ids)?;
    let list = list.as_str();
    let words = format!(in alloc;
        "{list}: PRE and REQ lead from each of them to the others, so they go on only together"
    )?;
    let mut finding = Finding::new(alloc, Rule::Together, words);
    finding.sysmod = ids.first().copied();
    finding.other = ids.get(1).copied();
    finding.place = finding.sysmod.and_then(|id| inputs.place_of(id));
    finding.other_place = finding.other.and_then(|id| inputs.place_of(id));
    Ok(finding)
}

// A remark as a finding.
fn remark_finding(
    alloc: Global,
    inputs: &Inputs,
    srel: Srel,
    remark: &Remark,
) -> Result<Finding, AllocError> {
    match remark {
        Remark::Empty => {
            let level = shown(alloc, srel.as_bytes())?;
            let words = format!(in alloc; "no SYSMOD has a ++VER for {level}")?;
            Ok(Finding::new(alloc, Rule::Empty, words))
        }
        Remark::SeveralVers { id } => {
            let level = shown(alloc, srel.as_bytes())?;
            let words = format!(in alloc;
                "{id} has several ++VERs for {level}: only the first is looked at"
            )?;
            Ok(about_one(alloc, inputs, Rule::Vers, *id, words))
        }
        Remark::Absent {
            id,
            kind,
            requisite,
        } => {
            let operand = operand_of(*kind);
            let words = format!(in alloc; "{id} {operand} {requisite}: it is not in the stream")?;
            let mut finding = about_one(alloc, inputs, Rule::Absent, *id, words);
            finding.operand = operand;
            finding.id = Some(*requisite);
            Ok(finding)
        }
        Remark::Together { ids } => together_finding(alloc, inputs, ids.as_slice()),
        Remark::HoldNotCarried {
            superseding,
            superseded,
            kind,
            reason,
        } => {
            let kind = as_str(hold_text(*kind));
            let reason = shown(alloc, reason.as_bytes())?;
            let words = format!(in alloc;
                "{superseding} SUP {superseded}: {kind} hold {reason} of {superseded} is not on {superseding}"
            )?;
            let mut finding = about_one(alloc, inputs, Rule::Hold, *superseding, words);
            finding.other = Some(*superseded);
            finding.other_place = inputs.place_of(*superseded);
            Ok(finding)
        }
    }
}

/// Appends a finding for each remark.
pub(crate) fn append_remarks(
    alloc: Global,
    inputs: &Inputs,
    srel: Srel,
    findings: &Findings,
    told: &mut Vec<Finding>,
) -> Result<(), AllocError> {
    for remark in findings.remarks.iter() {
        told.push(remark_finding(alloc, inputs, srel, remark)?)?;
    }
    Ok(())
}
