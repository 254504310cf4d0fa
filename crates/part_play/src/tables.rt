//! The steps of a script: tables, and files that are cut at each byte.

use crate::files::{read_cuts, read_file};
use crate::global_zones::read_global;
use crate::operands::operand_text;
use crate::row_text::RowText;
use crate::sysmod_values::read_sysmod;
use crate::systems::read_system;
use crate::texts::merged_text;
use crate::values::read_value;
use scripts::{Performs, ScriptStep, card_file};
use std::alloc::Global;
use std::test::Fail;

/// Plays tables. Each step begins anew.
#[derive(Drop)]
pub(crate) struct Tables;

impl Performs for Tables {
    fn begin(&mut self, _alloc: Global) -> Result<(), Fail> {
        Ok(())
    }

    fn perform(
        &mut self,
        alloc: Global,
        step: ScriptStep<'_>,
        printed: &mut Vec<u8>,
    ) -> Result<(), Fail> {
        let (kind, name) = step.head().split_once(' ').ok_or("a step has two words")?;
        let rows = join_continued_lines(alloc, step.cards())?;
        if kind == "CUT" {
            let file = card_lines_file(alloc, rows.as_str())?;
            return read_cuts(alloc, name, file.as_slice(), printed);
        }
        let front = join_continued_lines(alloc, step.part("AFTER"))?;
        let reader = RowReader {
            kind,
            name,
            front: front.as_str(),
        };
        for row in rows.as_str().lines() {
            reader.print_differences(alloc, row, printed)?;
        }
        Ok(())
    }
}

// The text, in which a backslash at the end of a line joins it to the next one.
fn join_continued_lines(alloc: Global, text: &str) -> Result<String, Fail> {
    Ok(text.replace(alloc, "\\\n", "")?)
}

// A card for each line of the text, in which a bar ends a line too.
fn card_lines_file(alloc: Global, cards: &str) -> Result<Vec<u8>, Fail> {
    let lines = cards.replace(alloc, '|', "\n")?;
    card_file(alloc, lines.as_str())
}

/// How the rows of a table are read.
#[derive(Clone, Copy)]
struct RowReader<'a> {
    /// What the rows are: `VALUES`, `SYSTEMS`, `FILES` or `BESIDE`.
    kind: &'a str,
    /// Which of the readers of that kind reads them.
    name: &'a str,
    /// The cards before those of each row, or the file beside which each row is read.
    front: &'a str,
}

impl RowReader<'_> {
    // Appends a line for each text of the row from which the reader reads something else than the row says.
    fn print_differences(
        self,
        alloc: Global,
        row: &str,
        printed: &mut Vec<u8>,
    ) -> Result<(), Fail> {
        let (texts, wanted) = row.split_once(" =>").ok_or("no arrow in a row")?;
        for text in texts.split(';') {
            let out = self.read(alloc, text)?;
            let got = out.text().trim();
            if got != wanted.trim() {
                let line = format!(in alloc; "{text} => {got}\n")?;
                printed.extend_from_slice(line.as_bytes())?;
            }
        }
        Ok(())
    }

    // What is read from a text of a row.
    fn read(self, alloc: Global, text: &str) -> Result<RowText, Fail> {
        let RowReader { kind, name, front } = self;
        match kind.as_bytes() {
            b"VALUES" => read_value(alloc, name, text),
            b"SYSTEMS" => read_system(alloc, name, text),
            b"FILES" => {
                let cards = format!(in alloc; "{front}{text}")?;
                let file = card_lines_file(alloc, cards.as_str())?;
                read_file(alloc, name, file.as_slice())
            }
            b"BESIDE" => {
                let file = card_lines_file(alloc, front)?;
                read_beside(alloc, name, file.as_slice(), text)
            }
            _ => Err(Fail::from("no kind of table has this name")),
        }
    }
}

// What is read from the text together with this file.
fn read_beside(alloc: Global, name: &str, file: &[u8], text: &str) -> Result<RowText, Fail> {
    match name.as_bytes() {
        b"OPERAND" => operand_text(alloc, file, text.as_bytes()),
        b"MERGE" => merged_text(alloc, file, card_lines_file(alloc, text)?.as_slice()),
        b"SYSMOD" => read_sysmod(alloc, file, text),
        b"GLOBAL" => read_global(alloc, file, text),
        _ => Err(Fail::from("no table has this name")),
    }
}
