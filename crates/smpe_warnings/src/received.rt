//! What to say of RECEIVE and REJECT.
use crate::asking::{Database, is_received, listed, texts};
use crate::fault::WarningFault;
use crate::ran::{RanCommand, StatusLine};
use crate::warnings::JobView;
use fields::ReceiveOperands;
use std::alloc::{AllocError, Global};

/// How many holds a hold file has at most if those on ids that are not received are named. A whole HOLDDATA file has
/// thousands of these.
const MOST_HOLDS: usize = 20;

/// How many ids are named.
const MOST_NAMED: usize = 3;

/// Adds what to say of a RECEIVE: of a file that it does not read, and of holds on what is not received.
pub(crate) fn receive_hints<D: Database>(
    view: &JobView<'_>,
    ran: &RanCommand,
    asked: &ReceiveOperands,
    database: &mut D,
    warnings: &mut Vec<String>,
) -> Result<(), WarningFault> {
    if !ran.refusal.is_empty() {
        return Ok(());
    }
    for (is_read, option, operand) in [
        (asked.sysmods, "--ptfin", "SYSMODS"),
        (asked.holddata, "--hold", "HOLDDATA"),
    ] {
        if let Some(hint) = file_hint(view, ran, is_read, option, operand)? {
            warnings.push(hint)?;
        }
    }
    let is_hold = |line: &StatusLine| matches!(line.status.as_str(), "HELD" | "REPLACED");
    if ran.lines.iter().filter(|line| is_hold(line)).count() > MOST_HOLDS {
        return Ok(());
    }
    for line in &ran.lines {
        if is_hold(line) && !is_received(view.alloc, database, line.id.as_str())? {
            let near = near_text(view.alloc, database, line.id.as_str())?;
            let (id, kind, near) = (line.id.as_str(), line.kind.as_str(), near.as_str());
            warnings.push(format!(in view.alloc;
                "the {kind} hold is on {id}, which is not received{near}"
            )?)?;
        }
    }
    Ok(())
}

// What to say of the file of this option, if RECEIVE reads it and the words lack it, or if they have it and no RECEIVE
// reads it.
fn file_hint(
    view: &JobView<'_>,
    ran: &RanCommand,
    is_read: bool,
    option: &str,
    operand: &str,
) -> Result<Option<String>, AllocError> {
    let file = view.line.value(option);
    match file {
        None if is_read && ran.is_nothing => Ok(Some(format!(in view.alloc;
            "RECEIVE {operand} reads the file of {option}, which is missing"
        )?)),
        Some(name) if is_read && ran.is_nothing => {
            Ok(Some(format!(in view.alloc; "{name} has no statement")?))
        }
        Some(name) if !is_read && !is_read_elsewhere(view, operand) => Ok(Some(
            format!(in view.alloc; "{option} {name} is not read: no RECEIVE has {operand}")?,
        )),
        _ => Ok(None),
    }
}

// Whether some RECEIVE of the job reads the file that the operand names.
fn is_read_elsewhere(view: &JobView<'_>, operand: &str) -> bool {
    view.commands.iter().any(|command| match command {
        cntl::Command::Receive(asked) => {
            if operand == "SYSMODS" {
                asked.sysmods
            } else {
                asked.holddata
            }
        }
        _ => false,
    })
}

/// What to say of an id that REJECT has refused; `None` for any other line.
pub(crate) fn rejected_hint<D: Database>(
    view: &JobView<'_>,
    line: &StatusLine,
    database: &mut D,
) -> Result<Option<String>, WarningFault> {
    let alloc = view.alloc;
    let id = line.id.as_str();
    match line.code.as_str() {
        "Rj1" => {
            let select = "SELECT z.name FROM zone z JOIN entry e ON e.zone = z.name \
                 WHERE e.id = ?1 AND e.date IS NOT NULL ORDER BY z.name";
            let zones = texts(alloc, database, select, &[id])?;
            let zones = listed(alloc, zones.as_slice(), MOST_NAMED)?;
            let zones = zones.as_str();
            Ok(Some(format!(in alloc;
                "{id} is installed in {zones}; RESTORE takes it off a target zone, if it is not accepted"
            )?))
        }
        "Rj2" => {
            let near = near_text(alloc, database, id)?;
            let near = near.as_str();
            Ok(Some(format!(in alloc; "{id} is not received{near}")?))
        }
        _ => Ok(None),
    }
}

/// The first received ids that differ from the id in one character, after a semicolon; no text if none does.
pub(crate) fn near_text<D: Database>(
    alloc: Global,
    database: &mut D,
    id: &str,
) -> Result<String, WarningFault> {
    let mut near = Vec::new(alloc);
    for place in 0..id.len() {
        let (Some(start), Some(end)) = (id.get(..place), id.get(place.saturating_add(1)..)) else {
            continue;
        };
        let pattern = format!(in alloc; "{start}_{end}")?;
        let select = "SELECT id FROM sysmod WHERE id LIKE ?1 ORDER BY id LIMIT 3";
        for found in texts(alloc, database, select, &[pattern.as_str()])? {
            if near.len() < MOST_NAMED && !near.as_slice().contains(&found) {
                near.push(found)?;
            }
        }
    }
    if near.is_empty() {
        return Ok(String::new(alloc));
    }
    let verb = if near.len() == 1 { "is" } else { "are" };
    let list = listed(alloc, near.as_slice(), MOST_NAMED)?;
    let list = list.as_str();
    Ok(format!(in alloc; "; near it {verb} {list}")?)
}
