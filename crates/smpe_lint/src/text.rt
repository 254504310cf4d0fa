//! The answer for people.
use crate::finding::{Finding, Rule, Weight};
use crate::inputs::ShownFile;
use intake_cards::CardPlace;
use std::alloc::{AllocError, Global};

/// How many rules are broken, and how many findings of each weight there are.
#[derive(Clone, Copy)]
pub(crate) struct Counts {
    pub(crate) rules: usize,
    pub(crate) breaches: usize,
    pub(crate) faults: usize,
    pub(crate) remarks: usize,
}

// How many of the rules of a clean stream are broken.
fn broken_rules(findings: &[Finding]) -> usize {
    [Rule::Requisites, Rule::Elements, Rule::Unordered]
        .iter()
        .filter(|rule| findings.iter().any(|finding| finding.rule == **rule))
        .count()
}

/// How many rules are broken, and how many findings of each weight there are.
pub(crate) fn counts_of(findings: &[Finding]) -> Counts {
    let mut counts = Counts {
        rules: broken_rules(findings),
        breaches: 0,
        faults: 0,
        remarks: 0,
    };
    for finding in findings {
        match finding.rule.weight() {
            Weight::Breach => counts.breaches = counts.breaches.saturating_add(1),
            Weight::Fault => counts.faults = counts.faults.saturating_add(1),
            Weight::Remark => counts.remarks = counts.remarks.saturating_add(1),
        }
    }
    counts
}

// A number and a noun, whose plural ends in s.
fn counted(alloc: Global, count: usize, noun: &str) -> Result<String, AllocError> {
    Ok(if count == 1 {
        format!(in alloc; "1 {noun}")?
    } else {
        format!(in alloc; "{count} {noun}s")?
    })
}

// What the first line says of the stream.
fn verdict(counts: Counts, is_refused: bool) -> &'static str {
    if is_refused {
        "nothing could be read"
    } else if counts.breaches > 0 {
        "this stream is not clean"
    } else if counts.faults > 0 {
        "what could be read of this stream is clean"
    } else {
        "this stream is clean"
    }
}

// How many rules are broken and how many findings say so, or nothing.
fn broken_text(alloc: Global, counts: Counts) -> Result<String, AllocError> {
    if counts.breaches == 0 {
        return Ok(String::new(alloc));
    }
    let rules = counted(alloc, counts.rules, "rule")?;
    let rules = rules.as_str();
    let findings = counted(alloc, counts.breaches, "finding")?;
    let findings = findings.as_str();
    Ok(format!(in alloc; ", {rules} broken, {findings}")?)
}

// The first line.
fn first_line(alloc: Global, sysmods: usize, findings: &[Finding]) -> Result<String, AllocError> {
    let counts = counts_of(findings);
    let is_refused = findings.iter().any(|finding| finding.rule == Rule::Refused);
    let mut line = String::from_str(alloc, "LINT ")?;
    line.push_str(counted(alloc, sysmods, "SYSMOD")?.as_str())?;
    line.push_str(broken_text(alloc, counts)?.as_str())?;
    if counts.faults > 0 {
        line.push_str(", ")?;
        line.push_str(counted(alloc, counts.faults, "fault")?.as_str())?;
    }
    line.push_str(": ")?;
    line.push_str(verdict(counts, is_refused))?;
    line.push_str("\n")?;
    Ok(line)
}

// The file and the card.
fn place_text(alloc: Global, files: &[ShownFile], place: CardPlace) -> Result<String, AllocError> {
    let card = place.card;
    match files.get(place.file as usize) {
        Some(file) => {
            let name = file.name.as_str();
            let unit = file.unit;
            Ok(format!(in alloc; "{name}, {unit} {card}")?)
        }
        None => Ok(format!(in alloc; "record {card}")?),
    }
}

// Both places in parentheses, as far as they are known.
fn places_text(
    alloc: Global,
    files: &[ShownFile],
    finding: &Finding,
) -> Result<String, AllocError> {
    let mut text = String::new(alloc);
    let Some(place) = finding.place else {
        return Ok(text);
    };
    text.push_str(" (")?;
    text.push_str(place_text(alloc, files, place)?.as_str())?;
    if let Some(other) = finding.other_place {
        text.push_str("; ")?;
        text.push_str(place_text(alloc, files, other)?.as_str())?;
    }
    text.push_str(")")?;
    Ok(text)
}

/// The answer as lines: what the stream is, and then a line for each finding.
pub(crate) fn lines_of(
    alloc: Global,
    files: &[ShownFile],
    sysmods: usize,
    findings: &[Finding],
) -> Result<Vec<u8>, AllocError> {
    let mut text = first_line(alloc, sysmods, findings)?.into_bytes();
    for finding in findings {
        let rule = finding.rule.word();
        let words = finding.words.as_str();
        let places = places_text(alloc, files, finding)?;
        let places = places.as_str();
        text.extend_from_slice(format!(in alloc; "  {rule} {words}{places}\n")?.as_bytes())?;
    }
    Ok(text)
}
