//! Broken rules in words.
use crate::finding::{Finding, Rule};
use crate::inputs::Inputs;
use fields::Id;
use std::alloc::{AllocError, Global};
use stream::{Findings, Lack, LostElement, LostRequisite, Unordered};

// A finding about two SYSMODs, with their places.
fn about_two(
    alloc: Global,
    inputs: &Inputs,
    rule: Rule,
    one: Id,
    other: Id,
    words: String,
) -> Finding {
    let mut finding = Finding::new(alloc, rule, words);
    finding.sysmod = Some(one);
    finding.other = Some(other);
    finding.place = inputs.place_of(one);
    finding.other_place = inputs.place_of(other);
    finding
}

// What is lacking, in words.
fn lack_words(alloc: Global, lost: &LostRequisite) -> Result<String, AllocError> {
    let x = lost.superseding;
    let y = lost.superseded;
    Ok(match lost.lack {
        Lack::Fmid => format!(in alloc; "{x} SUP {y}: the two have different FMIDs")?,
        Lack::Pre(z) => format!(in alloc;
            "{x} SUP {y}: PRE {z} of {y} is in neither PRE nor SUP of {x}"
        )?,
        Lack::Sup(z) => format!(in alloc; "{x} SUP {y}: SUP {z} of {y} is not in SUP of {x}")?,
    })
}

// A lost requisite.
fn requisite_finding(
    alloc: Global,
    inputs: &Inputs,
    lost: &LostRequisite,
) -> Result<Finding, AllocError> {
    let words = lack_words(alloc, lost)?;
    let (operand, id) = match lost.lack {
        Lack::Fmid => ("FMID", None),
        Lack::Pre(z) => ("PRE", Some(z)),
        Lack::Sup(z) => ("SUP", Some(z)),
    };
    let mut finding = about_two(
        alloc,
        inputs,
        Rule::Requisites,
        lost.superseding,
        lost.superseded,
        words,
    );
    finding.operand = operand;
    finding.id = id;
    Ok(finding)
}

// A lost element.
fn element_finding(
    alloc: Global,
    inputs: &Inputs,
    lost: &LostElement,
) -> Result<Finding, AllocError> {
    let x = lost.superseding;
    let y = lost.superseded;
    let element = inputs.element(alloc, lost.elem_type, lost.name)?;
    let elem_type = element.elem_type.as_str();
    let name = element.name.as_str();
    let words = format!(in alloc;
        "{x} SUP {y}: {elem_type} {name} of {y} is not changed, so its fix is lost"
    )?;
    let mut finding = about_two(alloc, inputs, Rule::Elements, x, y, words);
    finding.element_type = element.elem_type;
    finding.element_name = element.name;
    Ok(finding)
}

// An unordered pair.
fn unordered_finding(
    alloc: Global,
    inputs: &Inputs,
    pair: &Unordered,
) -> Result<Finding, AllocError> {
    let x = pair.one;
    let y = pair.other;
    let element = inputs.element(alloc, pair.elem_type, pair.name)?;
    let elem_type = element.elem_type.as_str();
    let name = element.name.as_str();
    let words = format!(in alloc;
        "{x}, {y}: both change {elem_type} {name}, and neither is over the other"
    )?;
    let mut finding = about_two(alloc, inputs, Rule::Unordered, x, y, words);
    finding.element_type = element.elem_type;
    finding.element_name = element.name;
    Ok(finding)
}

/// Appends a finding for each rule that is broken.
pub(crate) fn append_breaches(
    alloc: Global,
    inputs: &Inputs,
    findings: &Findings,
    told: &mut Vec<Finding>,
) -> Result<(), AllocError> {
    for lost in findings.requisites.iter() {
        told.push(requisite_finding(alloc, inputs, lost)?)?;
    }
    for lost in findings.elements.iter() {
        told.push(element_finding(alloc, inputs, lost)?)?;
    }
    for pair in findings.unordered.iter() {
        told.push(unordered_finding(alloc, inputs, pair)?)?;
    }
    Ok(())
}
