//! The answer for programs: one object in JSON.
use crate::finding::{Finding, id_text};
use crate::inputs::ShownFile;
use crate::text::counts_of;
use fields::Id;
use intake_cards::CardPlace;
use serde_json::{Map, Value, put};
use std::alloc::{AllocError, Global};

/// The members of an object.
type Members = Map<String, Value>;

/// The names of the members of a place.
#[derive(Clone, Copy)]
struct PlaceNames {
    file: &'static str,
    unit: &'static str,
    number: &'static str,
}

/// Where the SYSMOD begins that a finding is about, and where the other one does.
const PLACE: PlaceNames = PlaceNames {
    file: "file",
    unit: "unit",
    number: "number",
};

const OTHER_PLACE: PlaceNames = PlaceNames {
    file: "other_file",
    unit: "other_unit",
    number: "other_number",
};

// Puts a text, or null if it is empty.
fn put_text(
    alloc: Global,
    members: &mut Members,
    name: &str,
    text: &str,
) -> Result<(), AllocError> {
    if text.is_empty() {
        return put(members, alloc, name, Value::Null);
    }
    let text = String::from_str(alloc, text)?;
    put(members, alloc, name, Value::String(text))
}

// Puts an id, or null.
fn put_id(
    alloc: Global,
    members: &mut Members,
    name: &str,
    id: Option<Id>,
) -> Result<(), AllocError> {
    match id {
        Some(id) => {
            let text = id_text(alloc, id)?;
            put(members, alloc, name, Value::String(text))
        }
        None => put(members, alloc, name, Value::Null),
    }
}

// Puts a number.
fn put_number(
    alloc: Global,
    members: &mut Members,
    name: &str,
    number: usize,
) -> Result<(), AllocError> {
    put(members, alloc, name, Value::from(number))
}

// Puts the file, the unit and the number of a place, or nulls.
fn put_place(
    alloc: Global,
    members: &mut Members,
    names: PlaceNames,
    files: &[ShownFile],
    place: Option<CardPlace>,
) -> Result<(), AllocError> {
    let Some(place) = place else {
        put(members, alloc, names.file, Value::Null)?;
        put(members, alloc, names.unit, Value::Null)?;
        return put(members, alloc, names.number, Value::Null);
    };
    if let Some(file) = files.get(place.file as usize) {
        put_text(alloc, members, names.file, file.name.as_str())?;
        put_text(alloc, members, names.unit, file.unit)?;
    }
    put(members, alloc, names.number, Value::from(place.card))
}

// Puts what the finding is about.
fn put_subject(alloc: Global, members: &mut Members, finding: &Finding) -> Result<(), AllocError> {
    put_text(alloc, members, "rule", finding.rule.word())?;
    put_id(alloc, members, "sysmod", finding.sysmod)?;
    put_id(alloc, members, "other", finding.other)?;
    put_text(alloc, members, "operand", finding.operand)?;
    put_id(alloc, members, "id", finding.id)
}

// Puts the element of the finding, and its words.
fn put_words(alloc: Global, members: &mut Members, finding: &Finding) -> Result<(), AllocError> {
    put_text(alloc, members, "type", finding.element_type.as_str())?;
    put_text(alloc, members, "name", finding.element_name.as_str())?;
    put_text(alloc, members, "words", finding.words.as_str())
}

// The finding as an object. What it is not about is null.
fn finding_value(
    alloc: Global,
    files: &[ShownFile],
    finding: &Finding,
) -> Result<Value, AllocError> {
    let mut members = Map::new(alloc);
    put_subject(alloc, &mut members, finding)?;
    put_words(alloc, &mut members, finding)?;
    put_place(alloc, &mut members, PLACE, files, finding.place)?;
    put_place(alloc, &mut members, OTHER_PLACE, files, finding.other_place)?;
    Ok(Value::Object(members))
}

// The findings as a list.
fn list_of(
    alloc: Global,
    files: &[ShownFile],
    findings: &[Finding],
) -> Result<Vec<Value>, AllocError> {
    let mut list = Vec::new(alloc);
    for finding in findings {
        list.push(finding_value(alloc, files, finding)?)?;
    }
    Ok(list)
}

// Puts the status, and how much there is of what.
fn put_counts(
    alloc: Global,
    members: &mut Members,
    sysmods: usize,
    status: u8,
    findings: &[Finding],
) -> Result<(), AllocError> {
    let counts = counts_of(findings);
    put(members, alloc, "status", Value::from(status))?;
    put_number(alloc, members, "sysmods", sysmods)?;
    put_number(alloc, members, "broken", counts.breaches)?;
    put_number(alloc, members, "rules", counts.rules)?;
    put_number(alloc, members, "faults", counts.faults)?;
    put_number(alloc, members, "remarks", counts.remarks)
}

/// The answer as one object on a line of its own.
pub(crate) fn object_of(
    alloc: Global,
    files: &[ShownFile],
    sysmods: usize,
    status: u8,
    findings: &[Finding],
) -> Result<Vec<u8>, AllocError> {
    let mut members = Map::new(alloc);
    put_counts(alloc, &mut members, sysmods, status, findings)?;
    let list = list_of(alloc, files, findings)?;
    put(&mut members, alloc, "findings", Value::Array(list))?;
    let mut text = Value::Object(members).to_string(alloc)?;
    text.push_str("\n")?;
    Ok(text.into_bytes())
}
