//! The file of stand-ins.

use crate::shown::append_shown;
use intake_cards::StandIn;
use std::alloc::{AllocError, Global};

/// A line for each stand-in: its name, and the type, name and library of the element that it is for.
pub fn stand_ins_file(alloc: Global, named: &[StandIn]) -> Result<Vec<u8>, AllocError> {
    let mut lines = Vec::new(alloc);
    for stand_in in named {
        lines.extend_from_slice(stand_in.stand_in.as_bytes())?;
        for word in [&stand_in.word, &stand_in.name, &stand_in.library] {
            lines.push(b' ')?;
            append_shown(&mut lines, word.as_slice())?;
        }
        lines.push(b'\n')?;
    }
    Ok(lines)
}
