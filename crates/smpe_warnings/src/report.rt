//! What in a report needs an explanation.
use crate::asking::Database;
use crate::fault::WarningFault;
use crate::ran::RanCommands;
use crate::related::{RelatedZone, related_hint};
use crate::warnings::run_warnings;
use smpe_hints::{
    CommandLine, RecordForm, card_text, command_fault, find_set, has_whole_records, is_command,
    record_bytes, statement_fault,
};
use std::alloc::{AllocError, Global};

/// How many bytes of a line the watch looks at.
const MOST_LINE_BYTES: usize = 100;

/// What `check --json` prints for a zone that is not defined.
const NO_ZONE_DOCUMENT: &str = "{\"fault\":\"REFUSED Cm2\",\"status\":12}";

/// A file that was read.
#[derive(Drop)]
pub struct ReadFile {
    pub name: String,
    pub bytes: Vec<u8>,
}

/// Something in a report that needs an explanation.
#[derive(Drop)]
enum Notice {
    /// A card of the file of this option is at fault.
    Card {
        option: &'static str,
        record: usize,
        code: String,
    },
    /// A command ran in a zone, and was meant for another that is not defined.
    CommandElsewhere {
        command: String,
        zone: String,
        set_zone: String,
    },
    /// A SET names this zone, which is not defined.
    UndefinedZone(String),
    /// `why`, `check` or `mend` was asked about a zone that is not defined, or about the global zone.
    AskedZone,
    /// The related zone of a zone is at fault.
    Related,
}

/// Takes the bytes of a report, and notices what needs an explanation.
#[derive(Drop)]
pub struct ReportWatch {
    alloc: Global,
    /// The first bytes of the line that has not ended.
    line: Vec<u8>,
    /// The first line that has ended, or no text before that.
    first_line: Option<String>,
    /// The header of the last command, or no text before the first one.
    header: String,
    /// Whether that command has not ended.
    is_in_command: bool,
    /// How many commands have ended.
    ended_commands: usize,
    /// The zone of a SET that was refused, until the next command.
    refused_zone: Option<String>,
    notices: Vec<Notice>,
    ran: RanCommands,
    /// Whether memory ran out over a line.
    has_lost_line: bool,
}

impl ReportWatch {
    /// A watch that has seen nothing of the report.
    pub fn new(alloc: Global) -> ReportWatch {
        ReportWatch {
            alloc,
            line: Vec::new(alloc),
            first_line: None,
            header: String::new(alloc),
            is_in_command: false,
            ended_commands: 0,
            refused_zone: None,
            notices: Vec::new(alloc),
            ran: RanCommands::new(alloc),
            has_lost_line: false,
        }
    }

    /// Whether memory ran out over a line. Then no more lines are followed, and nothing should be said of the report.
    pub fn has_lost_line(&self) -> bool {
        self.has_lost_line
    }

    /// The first line, or no text until it has ended.
    pub fn first_line(&self) -> &str {
        self.first_line.as_ref().map_or("", |line| line.as_str())
    }

    /// How many commands have ended.
    pub fn ended_commands(&self) -> usize {
        self.ended_commands
    }

    /// The header of the last command, or no text before the first one.
    pub fn header(&self) -> &str {
        self.header.as_str()
    }

    /// Takes the next bytes of the report, and follows each line that they end, until memory runs out.
    pub fn feed(&mut self, piece: &[u8]) {
        if !self.has_lost_line {
            self.has_lost_line = self.take_bytes(piece).is_err();
        }
    }

    // Takes the next bytes of the report, and follows each line that they end.
    fn take_bytes(&mut self, piece: &[u8]) -> Result<(), AllocError> {
        for &byte in piece {
            if byte == b'\n' {
                self.end_line()?;
            } else if self.line.len() < MOST_LINE_BYTES {
                self.line.push(byte)?;
            }
        }
        Ok(())
    }

    // Follows the line that has ended, and keeps it if it is the first one.
    fn end_line(&mut self) -> Result<(), AllocError> {
        let line = String::from_utf8_lossy(self.alloc, self.line.as_slice())?;
        self.line.clear();
        self.follow_line(line.as_str())?;
        if self.first_line.is_none() {
            self.first_line = Some(line);
        }
        Ok(())
    }

    // Follows the beginning or the end of a command, and notices what the line says of a card or a refusal. `Cm4` and
    // `Cm5` are faults of the PTFIN and of the hold file, `Cm2` is a zone that is not defined, and `Zn2` a related zone
    // that does not fit. A SYSMOD may have the word of a command as its id, as RESTORE. In its line a type and a status
    // follow the id, but in a header a zone and at most CHECK follow the command.
    fn follow_line(&mut self, line: &str) -> Result<(), AllocError> {
        if self.is_in_command {
            self.ran.follow(line)?;
        }
        if line == NO_ZONE_DOCUMENT {
            return self.notice_refused_zone();
        }
        let mut words = line.split(' ');
        let first = words.next().unwrap_or("");
        let second = words.next().unwrap_or("");
        let third = words.next();
        match (first, second, third) {
            ("CONTROL", "RECORD", record) => {
                self.notice_card_fault("--cntl", record, words.next())
            }
            ("REFUSED", "Cm4", _) => {
                self.notice_card_fault("--ptfin", words.next(), words.next())
            }
            ("REFUSED", "Cm5", _) => self.notice_card_fault("--hold", words.next(), words.next()),
            ("REFUSED", "Cm2", _) => self.notice_refused_zone(),
            ("ZONE", "REFUSED", Some("Zn2")) => {
                self.notices.push(Notice::Related)?;
                Ok(())
            }
            ("RC", _, None) => {
                self.is_in_command = false;
                self.ended_commands = self.ended_commands.saturating_add(1);
                Ok(())
            }
            (command, zone, None | Some("CHECK")) if is_command(command) => {
                self.ran.begin(command, zone, third.is_some())?;
                self.begin_command(line, command, zone)
            }
            _ => Ok(()),
        }
    }

    // Notices a fault of a card, by the record and the code that the line has.
    fn notice_card_fault(
        &mut self,
        option: &'static str,
        record: Option<&str>,
        code: Option<&str>,
    ) -> Result<(), AllocError> {
        let (Some(record), Some(code)) = (record, code) else {
            return Ok(());
        };
        if let Ok(record) = record.parse() {
            let code = String::from_str(self.alloc, code)?;
            self.notices.push(Notice::Card {
                option,
                record,
                code,
            })?;
        }
        Ok(())
    }

    // Notices that a zone is not defined: within a command the one that the SET names, and otherwise that of `--zone`.
    fn notice_refused_zone(&mut self) -> Result<(), AllocError> {
        let notice = match self.header.as_str().strip_prefix("SET ") {
            Some(zone) if self.is_in_command => {
                self.refused_zone = Some(String::from_str(self.alloc, zone)?);
                Notice::UndefinedZone(String::from_str(self.alloc, zone)?)
            }
            _ => Notice::AskedZone,
        };
        self.notices.push(notice)?;
        Ok(())
    }

    // Follows the header of a command, and notices a command that runs in a zone after a SET that meant another was
    // refused. Without a boundary it runs nowhere.
    fn begin_command(&mut self, line: &str, command: &str, zone: &str) -> Result<(), AllocError> {
        self.header = String::from_str(self.alloc, line)?;
        self.is_in_command = true;
        let Some(set_zone) = self.refused_zone.take() else {
            return Ok(());
        };
        if command != "SET" && zone != "-" {
            let command = String::from_str(self.alloc, command)?;
            let zone = String::from_str(self.alloc, zone)?;
            self.notices.push(Notice::CommandElsewhere {
                command,
                zone,
                set_zone,
            })?;
        }
        Ok(())
    }

    /// What to say about the report, a line for each notice, and no line twice. The command line has these words, the
    /// job read these files, and `related` is what the database knows of the related zone.
    pub fn hints(
        &self,
        words: &[Vec<u8>],
        files: &[ReadFile],
        related: &RelatedZone,
    ) -> Result<Vec<String>, AllocError> {
        let mut lines = Vec::new(self.alloc);
        for notice in &self.notices {
            if let Some(line) = notice.hint(self.alloc, CommandLine { words }, files, related)? {
                if !lines.as_slice().contains(&line) {
                    lines.push(line)?;
                }
            }
        }
        Ok(lines)
    }

    /// What a run should be warned of, in the order of its commands. `tomorrow` is the day after this one, if a clock
    /// says which, and the database is that which the job has left.
    pub fn warnings<D: Database>(
        &self,
        words: &[Vec<u8>],
        files: &[ReadFile],
        tomorrow: Option<&str>,
        database: &mut D,
    ) -> Result<Vec<String>, WarningFault> {
        let line = CommandLine { words };
        match file_of_option(line, "--cntl", files) {
            Some(cntl) if line.subcommand() == Some("run") => {
                let cntl = cntl.bytes.as_slice();
                let ran = self.ran.commands.as_slice();
                run_warnings(self.alloc, line, cntl, ran, tomorrow, database)
            }
            _ => Ok(Vec::new(self.alloc)),
        }
    }
}

impl Notice {
    // The line that explains the notice. `None` if its file was not read, or if there is nothing to add.
    fn hint(
        &self,
        alloc: Global,
        line: CommandLine<'_>,
        files: &[ReadFile],
        related: &RelatedZone,
    ) -> Result<Option<String>, AllocError> {
        match self {
            Notice::Card {
                option,
                record,
                code,
            } => match file_of_option(line, option, files) {
                Some(file) => record_hint(alloc, option, file, *record, code.as_str()),
                None => Ok(None),
            },
            Notice::CommandElsewhere {
                command,
                zone,
                set_zone,
            } => Ok(Some(format!(in alloc;
                "SET BDY({set_zone}) was refused, and {command} ran in the zone before it, {zone}"
            )?)),
            Notice::UndefinedZone(zone) => Ok(Some(undefined_zone_hint(alloc, zone.as_str())?)),
            Notice::AskedZone => asked_zone_hint(alloc, line.value("--zone")),
            Notice::Related => Ok(Some(related_hint(alloc, line, related)?)),
        }
    }
}

// The file that the option names; `None` if the words do not have the option, or if the file was not read.
fn file_of_option<'a>(
    line: CommandLine<'_>,
    option: &str,
    files: &'a [ReadFile],
) -> Option<&'a ReadFile> {
    let name = line.value(option)?;
    files.iter().find(|file| file.name.as_str() == name)
}

// What is wrong with a record: its bytes, if they are no card, otherwise what the code says of the card. `None` if that
// was said when the file was read.
fn record_hint(
    alloc: Global,
    option: &str,
    file: &ReadFile,
    record: usize,
    code: &str,
) -> Result<Option<String>, AllocError> {
    let name = file.name.as_str();
    let bytes = record_bytes(file.bytes.as_slice(), record);
    match RecordForm::of_record(bytes) {
        RecordForm::NotAscii => Ok(Some(format!(in alloc;
            "{name} record {record} is not ASCII; smpe-intake and iconv convert EBCDIC"
        )?)),
        // `smpe` has said this already when it read a file that has not only whole records.
        RecordForm::LineEnd if !has_whole_records(file.bytes.as_slice()) => Ok(None),
        RecordForm::LineEnd => Ok(Some(format!(in alloc;
            "{name} record {record} has the end of a line in it; smpe-cards makes records of text"
        )?)),
        RecordForm::Short(length) => Ok(Some(format!(in alloc;
            "{name} record {record} has only {length} bytes, and a record has 80: is the file cut off?"
        )?)),
        RecordForm::Unprintable(column) => Ok(Some(format!(in alloc;
            "{name} record {record} has a tab or another character that is not printable in column {column}"
        )?)),
        RecordForm::Card => {
            let card = card_text(alloc, bytes)?;
            let bytes = file.bytes.as_slice();
            let fault = if option == "--cntl" {
                command_fault(alloc, bytes, record, code)?
            } else {
                statement_fault(alloc, option, bytes, record, code)?
            };
            Ok(Some(format!(in alloc; "{name} record {record} is \"{card}\": {fault}")?))
        }
    }
}

/// What to say about a zone that a SET of a careful job names and that is not defined, after `smpe: no zone`. `None` if
/// no SET of the command file names it, or if that was not read.
pub fn careful_zone_hint(
    alloc: Global,
    words: &[Vec<u8>],
    files: &[ReadFile],
    zone: &str,
) -> Result<Option<String>, AllocError> {
    let Some(file) = file_of_option(CommandLine { words }, "--cntl", files) else {
        return Ok(None);
    };
    let Some(record) = find_set(alloc, file.bytes.as_slice(), zone)? else {
        return Ok(None);
    };
    let name = file.name.as_str();
    let card = card_text(alloc, record_bytes(file.bytes.as_slice(), record))?;
    Ok(Some(format!(in alloc;
        "{name} record {record} is \"{card}\": no such zone in this database; smpe zone defines one"
    )?))
}

// What to say about a zone that is not defined.
fn undefined_zone_hint(alloc: Global, zone: &str) -> Result<String, AllocError> {
    format!(in alloc; "zone {zone} is not defined in this database; smpe zone defines one")
}

// Why there is no answer about the zone that was asked about; `None` if the words name none.
fn asked_zone_hint(alloc: Global, zone: Option<&str>) -> Result<Option<String>, AllocError> {
    match zone {
        Some("GLOBAL") => Ok(Some(String::from_str(
            alloc,
            "GLOBAL has what was received; name a target or distribution zone",
        )?)),
        Some(zone) => Ok(Some(undefined_zone_hint(alloc, zone)?)),
        None => Ok(None),
    }
}
