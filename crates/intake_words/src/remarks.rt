//! The remarks as lines.

use crate::fault::IntakeFault;
use crate::fault_line::append_line;
use crate::inputs::InputFiles;
use crate::shown::append_shown;
use intake_cards::{Deed, Remark, RemarkList};
use std::alloc::{AllocError, Global};

// The line of a remark, with its file and card. Its texts are shown as `append_shown` does.
fn remark_line(
    alloc: Global,
    inputs: &InputFiles,
    remark: &Remark<'_>,
) -> Result<Vec<u8>, AllocError> {
    let file = remark.place.file;
    let mut line = Vec::from_slice(alloc, inputs.name(file).as_bytes())?;
    append_shown(&mut line, &remark.line(alloc, "", inputs.unit(file))?)?;
    Ok(line)
}

/// Appends the line of a remark, with its file and card.
pub fn append_remark_line(
    alloc: Global,
    inputs: &InputFiles,
    remark: &Remark<'_>,
    lines: &mut Vec<u8>,
) -> Result<(), AllocError> {
    lines.extend_from_slice(remark_line(alloc, inputs, remark)?.trim_ascii_end())?;
    lines.push(b'\n')?;
    Ok(())
}

/// Appends a line for each remark.
pub fn append_remark_lines(
    alloc: Global,
    inputs: &InputFiles,
    remarks: &RemarkList,
    lines: &mut Vec<u8>,
) -> Result<(), AllocError> {
    for place in 0..remarks.len() {
        if let Some(remark) = remarks.get(place) {
            append_remark_line(alloc, inputs, &remark, lines)?;
        }
    }
    Ok(())
}

/// The fault of a run that writes nothing because something is refused. Each remark that refuses something is a line of
/// it. It is `Memory` if memory runs out.
pub fn refusal_fault(alloc: Global, inputs: &InputFiles, remarks: &RemarkList) -> IntakeFault {
    match refusal_lines(alloc, inputs, remarks) {
        Ok(lines) => IntakeFault::Statements(lines),
        Err(_) => IntakeFault::Memory,
    }
}

/// The lines that report what is refused of a command file.
pub fn refused_command_lines(
    alloc: Global,
    inputs: &InputFiles,
    remarks: &RemarkList,
) -> Result<Vec<u8>, AllocError> {
    let mut lines = Vec::new(alloc);
    for text in &refusal_lines(alloc, inputs, remarks)? {
        append_line(&mut lines, text)?;
    }
    if lines.is_empty() {
        append_line(
            &mut lines,
            b"what was made for cntl is not read as it was meant; nothing is written",
        )?;
    }
    Ok(lines)
}

// The lines of the remarks that refuse something.
fn refusal_lines(
    alloc: Global,
    inputs: &InputFiles,
    remarks: &RemarkList,
) -> Result<Vec<Vec<u8>>, AllocError> {
    let mut lines = Vec::new(alloc);
    for place in 0..remarks.len() {
        if let Some(remark) = remarks.get(place) {
            if remark.deed == Deed::Refused {
                lines.push(remark_line(alloc, inputs, &remark)?)?;
            }
        }
    }
    Ok(lines)
}
