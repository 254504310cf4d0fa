//! What is told of what was left out of a package.

use intake_service::{Carried, InputFiles};
use intake_words::append_remark_line;
use std::alloc::{AllocError, Global};

/// A line for each remark that matters, and one for each SYSMOD of which it is not sure that it can be installed.
pub(crate) fn remark_lines(
    alloc: Global,
    inputs: &InputFiles,
    carried: &Carried,
) -> Result<Vec<u8>, AllocError> {
    let mut lines = Vec::new(alloc);
    let remarks = &carried.narrowed.remarks;
    for place in 0..remarks.len() {
        if let Some(remark) = remarks.get(place) {
            if remark.matters() {
                append_remark_line(alloc, inputs, &remark, &mut lines)?;
            }
        }
    }
    for unsure in carried.narrowed.unsure.iter() {
        lines.extend_from_slice(b"UNSURE ")?;
        lines.extend_from_slice(unsure.id.as_bytes())?;
        lines.extend_from_slice(b": ")?;
        append_printable(&mut lines, unsure.reason.as_slice())?;
        lines.push(b'\n')?;
    }
    Ok(lines)
}

// Appends the text, with `?` for each byte that does not print.
fn append_printable(lines: &mut Vec<u8>, text: &[u8]) -> Result<(), AllocError> {
    for byte in text {
        let is_printable = *byte >= b' ' && *byte <= b'~';
        lines.push(if is_printable { *byte } else { b'?' })?;
    }
    Ok(())
}
