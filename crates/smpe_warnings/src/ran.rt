//! The commands of a report, with what their lines say of ids.
use fields::{Id, IdList};
use std::alloc::{AllocError, Global};

/// How many lines of SYSMODs and holds are kept. Those of functions are kept beyond it.
const MOST_LINES: usize = 1_000;

/// How many functions are kept that a command found not to be applied.
const MOST_FUNCTIONS: usize = 5;

/// How many ids of installed and failed SYSMODs are kept before no further command keeps its own.
const MOST_IDS: usize = 1_000_000;

/// What a line says of an id: its type or kind, and the words after that.
#[derive(Drop)]
pub(crate) struct StatusLine {
    pub(crate) id: String,
    pub(crate) kind: String,
    pub(crate) status: String,
    pub(crate) code: String,
}

/// A command, as the report shows it.
#[derive(Drop)]
pub(crate) struct RanCommand {
    /// Which command of the file it is, counted from 0.
    pub(crate) place: usize,
    pub(crate) word: String,
    pub(crate) zone: String,
    pub(crate) is_check: bool,
    /// The code of its refusal, or no text.
    pub(crate) refusal: String,
    pub(crate) lines: Vec<StatusLine>,
    /// All SYSMODs that it has installed, or would have with CHECK.
    pub(crate) installed: IdList,
    /// All SYSMODs that failed.
    pub(crate) failed: IdList,
    /// The first functions for which it has `NEED FMID`.
    pub(crate) lacking: Vec<String>,
    /// Whether it found nothing to do.
    pub(crate) is_nothing: bool,
}

impl RanCommand {
    /// Whether the command is APPLY or ACCEPT.
    pub(crate) fn is_install(&self) -> bool {
        matches!(self.word.as_str(), "APPLY" | "ACCEPT")
    }

    /// Whether it has installed the SYSMOD of the line, or would have with CHECK.
    pub(crate) fn installs(&self, line: &StatusLine) -> bool {
        self.is_install() && matches!(line.status.as_str(), "APPLIED" | "ACCEPTED")
    }

    // Keeps the id of a SYSMOD by its status, and returns whether it does. The lines of a command rise by their ids.
    fn keep_id(&mut self, id: &str, status: &str) -> Result<bool, AllocError> {
        let Some(id) = Id::read(id.as_bytes()) else {
            return Ok(false);
        };
        match status {
            "APPLIED" | "ACCEPTED" => self.installed.push_last(id),
            "FAILED" => self.failed.push_last(id),
            _ => Ok(false),
        }
    }
}

/// The commands that have begun.
#[derive(Drop)]
pub(crate) struct RanCommands {
    alloc: Global,
    pub(crate) commands: Vec<RanCommand>,
    /// How many commands have begun, also those that are not kept.
    begun: usize,
    /// How many lines are kept.
    line_count: usize,
    /// How many ids of installed and failed SYSMODs are kept.
    id_count: usize,
    /// Whether the last command that has begun keeps such ids.
    has_ids: bool,
    /// Whether the last command that has begun is kept.
    is_kept: bool,
}

impl RanCommands {
    /// No commands.
    pub(crate) fn new(alloc: Global) -> RanCommands {
        RanCommands {
            alloc,
            commands: Vec::new(alloc),
            begun: 0,
            line_count: 0,
            id_count: 0,
            has_ids: false,
            is_kept: false,
        }
    }

    /// Follows the header of a command. SET and LIST are not kept.
    pub(crate) fn begin(
        &mut self,
        word: &str,
        zone: &str,
        is_check: bool,
    ) -> Result<(), AllocError> {
        let place = self.begun;
        self.begun = self.begun.saturating_add(1);
        self.is_kept = !matches!(word, "LIST" | "SET");
        self.has_ids = self.id_count < MOST_IDS;
        if self.is_kept {
            let word = String::from_str(self.alloc, word)?;
            let zone = String::from_str(self.alloc, zone)?;
            self.commands.push(RanCommand {
                place,
                word,
                zone,
                is_check,
                refusal: String::new(self.alloc),
                lines: Vec::new(self.alloc),
                installed: IdList::new(self.alloc),
                failed: IdList::new(self.alloc),
                lacking: Vec::new(self.alloc),
                is_nothing: false,
            })?;
        }
        Ok(())
    }

    /// Follows a line between the header and the return code of a command.
    pub(crate) fn follow(&mut self, line: &str) -> Result<(), AllocError> {
        if !self.is_kept {
            return Ok(());
        }
        let alloc = self.alloc;
        let mut words = line.split_ascii_whitespace();
        let (first, second) = (words.next().unwrap_or(""), words.next().unwrap_or(""));
        let (third, fourth) = (words.next().unwrap_or(""), words.next().unwrap_or(""));
        let has_room = self.line_count < MOST_LINES || second == "FUNCTION";
        let Some(command) = self.commands.last_mut() else {
            return Ok(());
        };
        if line.starts_with("REFUSED ") {
            command.refusal = String::from_str(alloc, second)?;
        } else if line == "NOTHING" {
            command.is_nothing = true;
        } else if line.starts_with("  NEED FMID ") {
            let function = String::from_str(alloc, third)?;
            if command.lacking.len() < MOST_FUNCTIONS
                && !command.lacking.as_slice().contains(&function)
            {
                command.lacking.push(function)?;
            }
        } else if !line.starts_with(" ") && !third.is_empty() {
            if self.has_ids && command.keep_id(first, third)? {
                self.id_count = self.id_count.saturating_add(1);
            }
            if has_room {
                self.line_count = self.line_count.saturating_add(1);
                command.lines.push(StatusLine {
                    id: String::from_str(alloc, first)?,
                    kind: String::from_str(alloc, second)?,
                    status: String::from_str(alloc, third)?,
                    code: String::from_str(alloc, fourth)?,
                })?;
            }
        }
        Ok(())
    }
}
