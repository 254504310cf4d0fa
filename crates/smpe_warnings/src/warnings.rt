//! What a job should be warned of, as its words, its files, its report and the database show.
use crate::asking::{Database, KnownZone, push_if_any, texts, zone_of_name, zones};
use crate::chosen::{lacking_hint, nothing_hint, unknown_id_hint};
use crate::deleted::delete_hint;
use crate::fault::WarningFault;
use crate::known::{bypass_hints, selection_hints};
use crate::lowered::lowered_hints;
use crate::ran::RanCommand;
use crate::received::{receive_hints, rejected_hint};
use crate::superseded::superseded_hint;
use cntl::{Command, Install, read_cntl};
use smpe_hints::CommandLine;
use smpe_invocation::read_date;
use std::alloc::{AllocError, Global};

/// How many of several things are named.
const MOST_NAMED: usize = 8;

/// How many lines there are about one job at most.
const MOST_WARNINGS: usize = 20;

/// How many commands are looked at.
const MOST_COMMANDS: usize = 100;

/// What a job has to do with: its words, its commands, and the zones of the database.
#[derive(Clone, Copy)]
pub(crate) struct JobView<'a> {
    pub(crate) alloc: Global,
    pub(crate) line: CommandLine<'a>,
    pub(crate) commands: &'a [Command],
    pub(crate) zones: &'a [KnownZone],
}

/// The warnings of a run, without repetitions. `cntl` is its command file, and `tomorrow` the day after this one.
pub(crate) fn run_warnings<D: Database>(
    alloc: Global,
    line: CommandLine<'_>,
    cntl: &[u8],
    ran: &[RanCommand],
    tomorrow: Option<&str>,
    database: &mut D,
) -> Result<Vec<String>, WarningFault> {
    let mut warnings = Vec::new(alloc);
    if let (Some(date), Some(tomorrow)) = (line.value("--date"), tomorrow)
        && date > tomorrow
    {
        warnings.push(format!(in alloc; "--date {date} is in the future")?)?;
    }
    let commands = match read_cntl(alloc, cntl) {
        Ok(commands) => commands,
        Err(_) => return Ok(warnings),
    };
    let zones = zones(alloc, database)?;
    let view = JobView {
        alloc,
        line,
        commands: commands.as_slice(),
        zones: zones.as_slice(),
    };
    for zone in &zones {
        if has_installed_in(ran, zone.name.as_str()) {
            push_if_any(
                earlier_date_hint(&view, zone.name.as_str(), database)?,
                &mut warnings,
            )?;
        }
    }
    for command in ran.iter().take(MOST_COMMANDS) {
        for warning in command_warnings(&view, command, database)? {
            if warnings.len() < MOST_WARNINGS && !warnings.as_slice().contains(&warning) {
                warnings.push(warning)?;
            }
        }
    }
    Ok(warnings)
}

// Whether a command has installed something in the zone, or would have with CHECK.
fn has_installed_in(ran: &[RanCommand], zone: &str) -> bool {
    for command in ran {
        if command.zone.as_str() == zone
            && command.lines.iter().any(|line| command.installs(line))
        {
            return true;
        }
    }
    false
}

// The warnings of one command.
fn command_warnings<D: Database>(
    view: &JobView<'_>,
    ran: &RanCommand,
    database: &mut D,
) -> Result<Vec<String>, WarningFault> {
    let alloc = view.alloc;
    let mut warnings = Vec::new(alloc);
    match ran.refusal.as_str() {
        "" => {}
        "Cm1" => warnings.push(boundary_hint(view, ran)?)?,
        "Cm3" => warnings.push(kind_hint(view, ran)?)?,
        _ => return Ok(warnings),
    }
    match view.commands.get(ran.place) {
        Some(Command::Receive(asked)) => receive_hints(view, ran, asked, database, &mut warnings)?,
        Some(Command::Reject(_)) => {
            for line in &ran.lines {
                if let Some(hint) = rejected_hint(view, line, database)? {
                    warnings.push(hint)?;
                }
            }
        }
        Some(Command::Apply(install)) | Some(Command::Accept(install)) if ran.refusal.is_empty() =>
            {
                install_hints(view, ran, install, database, &mut warnings)?;
            }
        _ => {}
    }
    Ok(warnings)
}

// What to say of a command before any SET.
fn boundary_hint(view: &JobView<'_>, ran: &RanCommand) -> Result<String, AllocError> {
    let word = ran.word.as_str();
    let zones = zone_list(view)?;
    let zones = zones.as_str();
    let example = match word {
        "RECEIVE" | "REJECT" => "GLOBAL",
        _ => "a zone",
    };
    format!(in view.alloc;
        "{word} came before any SET: put a SET BDY of {example} before it; there are GLOBAL{zones}"
    )
}

// What to say of a command in a zone of another kind than it needs.
fn kind_hint(view: &JobView<'_>, ran: &RanCommand) -> Result<String, AllocError> {
    let (word, zone) = (ran.word.as_str(), ran.zone.as_str());
    let kind = match zone_of_name(view.zones, zone) {
        Some(zone) if zone.kind.as_str() == "target" => "a target zone",
        Some(_) => "a distribution zone",
        None => "the global zone",
    };
    let needed = match word {
        "RECEIVE" | "REJECT" => "GLOBAL",
        "ACCEPT" => "a distribution zone",
        "REPORT" => "a target or distribution zone",
        _ => "a target zone",
    };
    let zones = zone_list(view)?;
    let zones = zones.as_str();
    format!(in view.alloc; "{zone} is {kind}, and {word} needs {needed}; there are GLOBAL{zones}")
}

// The zones with their kinds, each after a comma.
fn zone_list(view: &JobView<'_>) -> Result<String, AllocError> {
    let mut list = String::new(view.alloc);
    for zone in view.zones.iter().take(MOST_NAMED) {
        let (name, kind) = (zone.name.as_str(), zone.kind.as_str());
        let text = format!(in view.alloc; ", {name} ({kind})")?;
        list.push_str(text.as_str())?;
    }
    Ok(list)
}

// Adds what to say of an APPLY or an ACCEPT that ran.
fn install_hints<D: Database>(
    view: &JobView<'_>,
    ran: &RanCommand,
    install: &Install,
    database: &mut D,
    warnings: &mut Vec<String>,
) -> Result<(), WarningFault> {
    if !has_change_after(view, ran) {
        selection_hints(view.alloc, &install.selection, database, warnings)?;
        bypass_hints(view.alloc, &install.bypass, database, warnings)?;
    }
    for line in &ran.lines {
        if let Some(hint) = unknown_id_hint(view, ran, line, database)? {
            warnings.push(hint)?;
        }
    }
    if ran.is_nothing {
        push_if_any(
            nothing_hint(view, ran, &install.selection, database)?,
            warnings,
        )?;
    }
    push_if_any(lacking_hint(view, ran, &install.selection)?, warnings)?;
    installed_hints(view, ran, install, database, warnings)
}

// Whether a command after this one changes what is received or held, so that the database no longer shows it.
fn has_change_after(view: &JobView<'_>, ran: &RanCommand) -> bool {
    for command in view.commands.iter().skip(ran.place) {
        if matches!(command, Command::Receive(_) | Command::Reject(_)) {
            return true;
        }
    }
    false
}

// Adds what to say of SYSMODs that were installed, or would be with CHECK, and of failed ones that these supersede.
fn installed_hints<D: Database>(
    view: &JobView<'_>,
    ran: &RanCommand,
    install: &Install,
    database: &mut D,
    warnings: &mut Vec<String>,
) -> Result<(), WarningFault> {
    let alloc = view.alloc;
    let Some(zone) = zone_of_name(view.zones, ran.zone.as_str()) else {
        return Ok(());
    };
    if !has_change_after(view, ran) {
        push_if_any(superseded_hint(alloc, database, zone, ran)?, warnings)?;
    }
    let (name, srel) = (zone.name.as_str(), zone.srel.as_str());
    for line in &ran.lines {
        if !ran.installs(line) {
            continue;
        }
        let id = line.id.as_str();
        if line.kind.as_str() == "FUNCTION" {
            let hint = delete_hint(alloc, database, name, srel, id, install.check)?;
            push_if_any(hint, warnings)?;
        }
        if install.bypass.same_id {
            for hint in lowered_hints(alloc, database, name, id, install.check)? {
                warnings.push(hint)?;
            }
        }
    }
    Ok(())
}

// What to say of a date before the last one of the zone; `None` if it is not.
fn earlier_date_hint<D: Database>(
    view: &JobView<'_>,
    zone: &str,
    database: &mut D,
) -> Result<Option<String>, WarningFault> {
    let alloc = view.alloc;
    let Some(text) = view.line.value("--date") else {
        return Ok(None);
    };
    let Some(date) = read_date(text) else {
        return Ok(None);
    };
    let date = String::from_utf8_lossy(alloc, date.as_bytes())?;
    // (two digits of a year: 70 to 99 are of the last century)
    let select = "SELECT date FROM entry WHERE zone = ?1 AND date > ?2 \
         AND (date < '70' OR ?2 >= '70') ORDER BY date DESC LIMIT 1";
    let later = texts(alloc, database, select, &[zone, date.as_str()])?;
    match later.first() {
        Some(later) => {
            let (later, date) = (later.as_str(), date.as_str());
            Ok(Some(format!(in alloc;
                "--date {text} is {date}, and {zone} has entries of {later}: is the date right?"
            )?))
        }
        None => Ok(None),
    }
}
