//! What to say of ids that a command names in vain, and of a command that finds nothing.
use crate::asking::{Database, KnownZone, is_received, listed, texts, zone_of_name};
use crate::fault::WarningFault;
use crate::ran::{RanCommand, StatusLine};
use crate::received::near_text;
use crate::warnings::JobView;
use cntl::Selection;
use std::alloc::{AllocError, Global};

/// How many of several things are named.
const MOST_NAMED: usize = 8;

/// What to say of an id that was named and is not received, or is for another system; `None` for any other line.
pub(crate) fn unknown_id_hint<D: Database>(
    view: &JobView<'_>,
    ran: &RanCommand,
    line: &StatusLine,
    database: &mut D,
) -> Result<Option<String>, WarningFault> {
    let alloc = view.alloc;
    let id = line.id.as_str();
    match line.status.as_str() {
        "MISSING" if !is_received(alloc, database, id)? => {
            let near = near_text(alloc, database, id)?;
            let near = near.as_str();
            Ok(Some(format!(in alloc; "{id} is not received{near}")?))
        }
        "NOVER" => {
            let Some(zone) = zone_of_name(view.zones, ran.zone.as_str()) else {
                return Ok(None);
            };
            let select = "SELECT srel FROM ver WHERE id = ?1 ORDER BY srel";
            let srels = texts(alloc, database, select, &[id])?;
            let srels = listed(alloc, srels.as_slice(), MOST_NAMED)?;
            let (srels, name, srel) = (srels.as_str(), zone.name.as_str(), zone.srel.as_str());
            Ok(Some(format!(in alloc; "{id} is for {srels}, and {name} has the SREL {srel}")?))
        }
        _ => Ok(None),
    }
}

/// What to say of an APPLY or an ACCEPT that has found nothing to do; `None` if it chose by more than types.
pub(crate) fn nothing_hint<D: Database>(
    view: &JobView<'_>,
    ran: &RanCommand,
    selection: &Selection,
    database: &mut D,
) -> Result<Option<String>, WarningFault> {
    let alloc = view.alloc;
    let word = ran.word.as_str();
    if texts(alloc, database, "SELECT id FROM sysmod LIMIT 1", &[])?.is_empty() {
        return Ok(Some(format!(in alloc; "nothing is received yet: RECEIVE comes before {word}")?));
    }
    match zone_of_name(view.zones, ran.zone.as_str()) {
        Some(zone) if selection.sourceid.is_empty() && selection.forfmid.is_empty() => {
            let open = open_text(alloc, zone, selection, database)?;
            let (name, open) = (zone.name.as_str(), open.as_str());
            Ok(Some(format!(in alloc;
                "{name} has all that this {word} takes, or it was never received{open}"
            )?))
        }
        _ => Ok(None),
    }
}

// Which types the selection does not take, and could.
fn open_text<D: Database>(
    alloc: Global,
    zone: &KnownZone,
    selection: &Selection,
    database: &mut D,
) -> Result<String, WarningFault> {
    let takes_ptfs = selection.ptfs
        || !(selection.functions || selection.apars || selection.usermods);
    let mut open = String::new(alloc);
    for (kind, operand, is_taken) in [
        ("FUNCTION", "FUNCTIONS", selection.functions),
        ("PTF", "PTFS", takes_ptfs),
        ("APAR", "APARS", selection.apars),
        ("USERMOD", "USERMODS", selection.usermods),
    ] {
        if !is_taken {
            let text = open_of_type(alloc, zone, kind, operand, database)?;
            open.push_str(text.as_str())?;
        }
    }
    Ok(open)
}

// Which SYSMODs of a type are received for the zone and not in it, after a semicolon; no text if there are none.
fn open_of_type<D: Database>(
    alloc: Global,
    zone: &KnownZone,
    kind: &str,
    operand: &str,
    database: &mut D,
) -> Result<String, WarningFault> {
    let select = "SELECT s.id FROM sysmod s JOIN ver v ON v.id = s.id \
         WHERE v.srel = ?1 AND s.kind = ?2 AND NOT EXISTS \
         (SELECT 1 FROM entry e WHERE e.zone = ?3 AND e.id = s.id \
         AND (e.date IS NOT NULL OR e.delby IS NOT NULL OR e.supby <> '')) ORDER BY s.id";
    let values = [zone.srel.as_str(), kind, zone.name.as_str()];
    let ids = texts(alloc, database, select, &values)?;
    if ids.is_empty() {
        return Ok(String::new(alloc));
    }
    let list = listed(alloc, ids.as_slice(), MOST_NAMED)?;
    let list = list.as_str();
    Ok(format!(in alloc; "; {operand} would take {list}")?)
}

/// What to say of a mass choice that took service of functions that are not installed; `None` if it took none.
pub(crate) fn lacking_hint(
    view: &JobView<'_>,
    ran: &RanCommand,
    selection: &Selection,
) -> Result<Option<String>, AllocError> {
    let is_mass = selection.select.is_empty() && selection.group.is_empty();
    if ran.lacking.is_empty() || !is_mass || !selection.forfmid.is_empty() {
        return Ok(None);
    }
    let list = listed(view.alloc, ran.lacking.as_slice(), MOST_NAMED)?;
    let (zone, list) = (ran.zone.as_str(), list.as_str());
    Ok(Some(format!(in view.alloc;
        "{zone} lacks the functions {list}, so their service fails; FORFMID chooses service by function"
    )?))
}
