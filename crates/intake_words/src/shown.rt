//! Texts as they are shown: in lines for a terminal, and in files that people read.

use intake_cards::is_printable_byte;
use std::alloc::{AllocError, Global};

/// Appends bytes of a shop's file, with a question mark for each one that is no printable character of ASCII, so that
/// none of them moves the cursor of a terminal.
pub(crate) fn append_shown(line: &mut Vec<u8>, bytes: &[u8]) -> Result<(), AllocError> {
    for byte in bytes {
        if is_printable_byte(*byte) {
            line.push(*byte)?;
        } else {
            line.push(b'?')?;
        }
    }
    Ok(())
}

/// The name of a file, with a question mark for each control character, as an end of line.
pub(crate) fn shown_name(alloc: Global, name: &str) -> Result<String, AllocError> {
    let mut shown = String::new(alloc);
    for character in name.chars() {
        if character.is_control() {
            shown.push('?')?;
        } else {
            shown.push(character)?;
        }
    }
    Ok(shown)
}
