//! Which option has a value of a bad form.
use fields::{Class, HoldDate, Id, Name, Reason, Source, Srel, ZoneName};
use smpe_invocation::{read_date, read_seconds};
use std::alloc::{AllocError, Global};

// The options that name files of records.
const RECORD_OPTIONS: &[&str] = &["--cntl", "--ptfin", "--hold"];

// The options of `check` that have no value.
const CHECK_FLAGS: &[&str] = &["--report", "--json"];

/// What the value of an option, or of an operand of a card, looks like.
#[derive(Clone, Copy, Debug)]
pub(crate) enum Form {
    ZoneName,
    Srel,
    Id,
    Name,
    Source,
    Reason,
    Class,
    HoldDate,
    Date,
    Seconds,
}

impl Form {
    // The form that the option demands of its value; `None` if it demands none.
    fn of_option(option: &str) -> Option<Form> {
        match option {
            "--name" | "--related" | "--zone" => Some(Form::ZoneName),
            "--srel" => Some(Form::Srel),
            "--id" | "--why" => Some(Form::Id),
            "--date" => Some(Form::Date),
            "--wait" => Some(Form::Seconds),
            _ => None,
        }
    }

    /// Whether the value has the form.
    pub(crate) fn fits(self, value: &str) -> bool {
        match self {
            Form::ZoneName => ZoneName::read(value.as_bytes()).is_some(),
            Form::Srel => Srel::read(value.as_bytes()).is_some(),
            Form::Id => Id::read(value.as_bytes()).is_some(),
            Form::Name => Name::read(value.as_bytes()).is_some(),
            Form::Source => Source::read(value.as_bytes()).is_some(),
            Form::Reason => Reason::read(value.as_bytes()).is_some(),
            Form::Class => Class::read(value.as_bytes()).is_some(),
            Form::HoldDate => HoldDate::read(value.as_bytes()).is_some(),
            Form::Date => read_date(value).is_some(),
            Form::Seconds => read_seconds(value).is_some(),
        }
    }

    /// The form in words, with an example.
    pub(crate) fn description(self) -> &'static str {
        match self {
            Form::ZoneName => {
                "a zone name has 1 to 7 of A to Z, 0 to 9, $, # and @, and begins with a letter, as TGT1"
            }
            Form::Srel => "an SREL is a capital letter and three digits, as Z038",
            Form::Id => "the id of a SYSMOD has seven of A to Z, 0 to 9, $, # and @, as UA00001",
            Form::Name => {
                "a name has 1 to 8 of A to Z, 0 to 9, $, # and @, and begins with no digit, as MACLIB"
            }
            Form::Source => "a source id has 1 to 64 of A to Z, 0 to 9, $, # and @, as RSU2405",
            Form::Reason => "a reason has 1 to 7 of A to Z, 0 to 9, $, # and @, as ACTION",
            Form::Class => "a class has 1 to 7 of A to Z, 0 to 9, $, # and @, as HIPER",
            Form::HoldDate => "the date of a hold is yyddd, with a day from 001 to 366, as 24138",
            Form::Date => "a date is YYYY-MM-DD and a day of the calendar, as 2024-05-17",
            Form::Seconds => "a number of seconds is a whole one, at most 9999, as 30",
        }
    }
}

/// The words as `clap` took them: the value of an option is the next word, or follows its `=`.
#[derive(Clone, Copy)]
pub struct CommandLine<'a> {
    pub words: &'a [Vec<u8>],
}

impl<'a> CommandLine<'a> {
    // The word at a place; `None` if there is none or it is not UTF-8.
    fn word_at(self, place: usize) -> Option<&'a str> {
        str::from_utf8(self.words.get(place)?.as_slice()).ok()
    }

    // The option that begins at a place, with its value: what follows its first `=`, or else the next word. `None` if
    // it has no value.
    fn option_at(self, place: usize) -> Option<(&'a str, &'a str)> {
        let word = self.word_at(place)?;
        match word.split_once('=') {
            Some(parts) => Some(parts),
            None => Some((word, self.word_at(place.checked_add(1)?)?)),
        }
    }

    /// The value of the first option of this name; `None` if the words do not have the option, or have it without a
    /// value.
    pub fn value(self, option: &str) -> Option<&'a str> {
        for place in 0..self.words.len() {
            if let Some((name, value)) = self.option_at(place)
                && name == option
            {
                return Some(value);
            }
        }
        None
    }

    /// The subcommand; `None` if there is none.
    pub fn subcommand(self) -> Option<&'a str> {
        self.word_at(1)
    }

    /// Whether an option names this file, so that it should have records of 80 bytes. Other files come as they are.
    pub fn names_records(self, file: &str) -> bool {
        RECORD_OPTIONS
            .iter()
            .any(|option| self.value(option) == Some(file))
    }

    // Whether the words have the option with a value.
    fn has_option(self, option: &str) -> bool {
        self.value(option).is_some()
    }

    // Whether a word of `check` is this option without a value. After `--` there are only files.
    fn has_flag(self, flag: &str) -> bool {
        for place in 2..self.words.len() {
            match self.word_at(place) {
                Some("--") => return false,
                Some(word) if word == flag => return true,
                _ => {}
            }
        }
        false
    }

    // Whether a word of `check` is the name of a file, and neither an option nor the value of one. After `--` there are
    // only files.
    fn has_file(self) -> bool {
        let mut is_value = false;
        for place in 2..self.words.len() {
            let word = self.word_at(place).unwrap_or("");
            if is_value {
                is_value = false;
            } else if word == "--" {
                return place.saturating_add(1) < self.words.len();
            } else if word.starts_with("--") {
                is_value = word.split_once('=').is_none() && !CHECK_FLAGS.contains(&word);
            } else {
                return true;
            }
        }
        false
    }
}

/// What is wrong with the words, the first of which is the program's name, after `smpe: bad operand`; `None` if that
/// does not show here.
pub fn operand_hint(alloc: Global, words: &[Vec<u8>]) -> Result<Option<String>, AllocError> {
    let line = CommandLine { words };
    for place in 0..words.len() {
        let Some(word) = line.word_at(place) else {
            return Ok(Some(format!(in alloc; "word {place} is not UTF-8")?));
        };
        if !word.starts_with("--") {
            continue;
        }
        if let Some(hint) = option_hint(alloc, line, place)? {
            return Ok(Some(hint));
        }
    }
    match line.subcommand() {
        Some("check") => check_hint(alloc, line),
        Some("mend") => system_hint(alloc, line, "mend"),
        Some("why") => bypass_hint(alloc, line),
        _ => Ok(None),
    }
}

// What is wrong with the words of `check` taken together; `None` if that does not show here.
fn check_hint(alloc: Global, line: CommandLine<'_>) -> Result<Option<String>, AllocError> {
    if let Some(hint) = system_hint(alloc, line, "check")? {
        return Ok(Some(hint));
    }
    match set_fault(line).or(answer_fault(line)) {
        Some(fault) => Ok(Some(String::from_str(alloc, fault)?)),
        None => Ok(None),
    }
}

// The hint about the value of the option at a place, if it has another form than the option demands; otherwise `None`.
fn option_hint(
    alloc: Global,
    line: CommandLine<'_>,
    place: usize,
) -> Result<Option<String>, AllocError> {
    let Some((option, value)) = line.option_at(place) else {
        return Ok(None);
    };
    match Form::of_option(option) {
        Some(form) if !form.fits(value) => {
            let description = form.description();
            Ok(Some(format!(in alloc; "{option} has \"{value}\": {description}")?))
        }
        _ => Ok(None),
    }
}

// Which option that names the system `check` or `mend` needs but does not have, or which of these exclude each other;
// `None` if neither.
fn system_hint(
    alloc: Global,
    line: CommandLine<'_>,
    subcommand: &str,
) -> Result<Option<String>, AllocError> {
    Ok(match (line.has_option("--db"), line.has_option("--srel")) {
        (true, true) => Some(format!(in alloc;
            "--srel and --db: {subcommand} takes the SREL of an empty system or a database, not both"
        )?),
        (false, false) => Some(format!(in alloc;
            "--srel is missing, or --db: {subcommand} needs the SREL of an empty system, or a database"
        )?),
        (true, false) if !line.has_option("--zone") => Some(format!(in alloc;
            "--zone is missing: with --db, {subcommand} needs a zone of the database, as TGT1"
        )?),
        (false, true) if has_option_of_copy(line) => Some(String::from_str(
            alloc,
            "--zone, --why and --wait go with --db, and an empty system has none",
        )?),
        _ => None,
    })
}

// Whether the words have an option that goes with `--db`.
fn has_option_of_copy(line: CommandLine<'_>) -> bool {
    line.has_option("--zone") || line.has_option("--why") || line.has_option("--wait")
}

// What is wrong with the words that name the files and the date of the commands; `None` if nothing is.
fn set_fault(line: CommandLine<'_>) -> Option<&'static str> {
    Some(match (line.has_option("--ptfin"), line.has_file()) {
        (true, true) =>
            "--ptfin and FILE: check takes records or files as they come, not both; name all without an option",
        (false, false) =>
            "FILE is missing, or --ptfin: check needs the files of the service, as they come or as records",
        (false, true) if line.has_option("--hold") =>
            "--hold goes with --ptfin: name a file of holds without an option, as the other files",
        _ if line.has_option("--cntl") && !line.has_option("--date") =>
            "--date is missing: with --cntl, check needs the date of the job, as 2024-05-17",
        _ => return None,
    })
}

// What is wrong with the words that say how `check` answers; `None` if nothing is.
fn answer_fault(line: CommandLine<'_>) -> Option<&'static str> {
    let is_json = line.has_flag("--json");
    let has_own_apply = !line.has_option("--cntl") && !line.has_option("--ptfin");
    if is_json && line.has_flag("--report") {
        Some("--report and --json: the answer has one form")
    } else if is_json && line.has_option("--why") {
        Some("--json and --why: ask about ids with the summary or --report, or by smpe why")
    } else if is_json && !has_own_apply {
        Some("--json is for the check's own APPLY of FILE, without --cntl and --ptfin")
    } else if line.has_option("--certificate") && !has_own_apply {
        Some("--certificate is for the check's own APPLY of FILE, without --cntl and --ptfin")
    } else {
        None
    }
}

// The hint about the list of `--bypass`, which must be at fault if all other values of `why` have their forms. `None`
// if the words do not have that option.
fn bypass_hint(alloc: Global, line: CommandLine<'_>) -> Result<Option<String>, AllocError> {
    match line.value("--bypass") {
        Some(value) => Ok(Some(format!(in alloc;
            "--bypass has \"{value}\": it is the list of a BYPASS, as HOLDSYSTEM(ACTION),PRE"
        )?)),
        None => Ok(None),
    }
}

/// What to say about a run that has printed nothing: its file of commands has none. `None` if the words ask for no run.
pub fn no_command_hint(alloc: Global, words: &[Vec<u8>]) -> Result<Option<String>, AllocError> {
    let line = CommandLine { words };
    match line.value("--cntl") {
        Some(name) if line.subcommand() == Some("run") => {
            Ok(Some(format!(in alloc; "{name} has no command")?))
        }
        _ => Ok(None),
    }
}
