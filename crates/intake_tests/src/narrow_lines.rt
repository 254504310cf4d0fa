//! What comes of a file, as lines: what is carried of it, read back, and what is told.

use intake_cards::{CardReader, RemarkList};
use intake_carry::{CarryError, Narrowed, OutsideHolds, narrow, read_statements};
use intake_read::WideFile;
use intake_service::{are_same_hold_items, are_same_items, hold_file, ptfin};
use intake_sysmod::Options;
use mcs::{read_hold, read_ptfin};
use std::alloc::{AllocError, Global};
use std::test::Fail;

// The statements of a file of these cards, as a list of only that file.
fn read_one_file(
    alloc: Global,
    text: &[u8],
    held: &mut OutsideHolds,
) -> Result<Vec<WideFile>, Fail> {
    let mut cards = CardReader::open(0, text, None, None)?;
    let mut notes = Vec::new(alloc);
    let file = read_statements(alloc, &mut cards, &mut notes, held)?;
    let mut files = Vec::new(alloc);
    files.push(file)?;
    Ok(files)
}

// Options without members, and without stand-ins.
fn plain_options(alloc: Global) -> Options {
    Options {
        decide: false,
        syslibs: Vec::new(alloc),
        members: Vec::new(alloc),
    }
}

/// Appends the cards as lines without the blanks at their ends.
pub(crate) fn append_cards(lines: &mut Vec<u8>, cards: &[u8]) -> Result<(), AllocError> {
    for card in cards.chunks(80) {
        let solid = card
            .iter()
            .rposition(|b| *b != b' ')
            .map_or(0, |last| last + 1);
        lines.extend_from_slice(&card[..solid])?;
        lines.push(b'\n')?;
    }
    Ok(())
}

// Appends the lines of the remarks.
fn append_remarks(
    alloc: Global,
    lines: &mut Vec<u8>,
    remarks: &RemarkList,
) -> Result<(), AllocError> {
    for place in 0..remarks.len() {
        let Some(remark) = remarks.get(place) else {
            continue;
        };
        let mark: &[u8] = if remark.matters() { b"! " } else { b"- " };
        lines.extend_from_slice(mark)?;
        let line = remark.line(alloc, "f", "line")?;
        lines.extend_from_slice(line.as_slice())?;
        lines.push(b'\n')?;
    }
    Ok(())
}

// What was carried, as lines of PTFIN, `==`, lines of the hold file, and a line for each remark, which begins with `!`
// if it matters. It is read back first.
fn carried_lines(alloc: Global, narrowed: &Narrowed) -> Result<Vec<u8>, Fail> {
    let items = narrowed.items.as_slice();
    let hold_items = narrowed.hold_items.as_slice();
    let cards = ptfin(alloc, items)?;
    let holds = hold_file(alloc, hold_items)?;
    let again = read_ptfin(alloc, cards.as_slice())?;
    let holds_again = read_hold(alloc, holds.as_slice())?;
    let mut lines = Vec::new(alloc);
    if !are_same_items(items, again.as_slice()) {
        lines.extend_from_slice(b"PTFIN differs\n")?;
    }
    if !are_same_hold_items(hold_items, holds_again.as_slice()) {
        lines.extend_from_slice(b"the hold file differs\n")?;
    }
    append_cards(&mut lines, cards.as_slice())?;
    lines.extend_from_slice(b"==\n")?;
    append_cards(&mut lines, holds.as_slice())?;
    append_remarks(alloc, &mut lines, &narrowed.remarks)?;
    Ok(lines)
}

// What comes of a file.
fn outcome(alloc: Global, text: &[u8]) -> Result<String, Fail> {
    let mut held = OutsideHolds::new(alloc);
    let files = read_one_file(alloc, text, &mut held)?;
    let lines = match narrow(alloc, files.as_slice(), held, plain_options(alloc)) {
        Ok(narrowed) => carried_lines(alloc, &narrowed)?,
        Err(CarryError::Refused(remarks)) => {
            let mut lines = Vec::new(alloc);
            lines.extend_from_slice(b"refused\n")?;
            append_remarks(alloc, &mut lines, &remarks)?;
            lines
        }
        Err(CarryError::Memory) => return Err("out of memory".into()),
    };
    Ok(String::from_utf8(lines)?)
}

// The first lines in which the texts differ. After the end of a text there is `None`.
fn first_difference<'a>(got: &'a str, wanted: &'a str) -> (Option<&'a str>, Option<&'a str>) {
    let mut wanted_lines = wanted.split('\n');
    for line in got.split('\n') {
        let other = wanted_lines.next();
        if other != Some(line) {
            return (Some(line), other);
        }
    }
    (None, wanted_lines.next())
}

/// Fails with this name and the first lines that differ, if the text that was got is not the wanted one.
pub(crate) fn compare(name: &str, got: &str, wanted: &str) -> Result<(), Fail> {
    if got == wanted {
        return Ok(());
    }
    let (got, wanted) = first_difference(got, wanted);
    Err(Fail::new(format_args!("{name}: got {got:?}, wanted {wanted:?}")))
}

/// Fails unless these lines come of the file.
pub(crate) fn check(alloc: Global, text: &[u8], wanted: &str) -> Result<(), Fail> {
    let got = outcome(alloc, text)?;
    compare("what comes of the file", got.as_str(), wanted)
}
