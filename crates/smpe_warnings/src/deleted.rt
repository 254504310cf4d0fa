//! What a DELETE takes off.
use crate::asking::{Database, column, is_applied, is_received, listed, texts};
use crate::fault::WarningFault;
use std::alloc::{AllocError, Global};

/// How many functions a DELETE is followed through at most.
const MOST_FUNCTIONS: usize = 100;

/// How many ids are named.
const MOST_NAMED: usize = 5;

/// What belongs to the functions that a DELETE takes out, by type.
#[derive(Drop)]
struct Service {
    functions: Vec<String>,
    usermods: Vec<String>,
    /// How many PTFs and APAR fixes.
    others: usize,
}

/// What to say of a function that is installed in the zone, or would be with CHECK, and has a DELETE of something that
/// is received; `None` if it has none.
pub(crate) fn delete_hint<D: Database>(
    alloc: Global,
    database: &mut D,
    zone: &str,
    srel: &str,
    id: &str,
    is_check: bool,
) -> Result<Option<String>, WarningFault> {
    let select = "SELECT del FROM ver WHERE id = ?1 AND srel = ?2";
    let lists = texts(alloc, database, select, &[id, srel])?;
    let mut named = Vec::new(alloc);
    for list in &lists {
        for deleted in list.as_str().split(',') {
            if !deleted.is_empty() && is_received(alloc, database, deleted)? {
                named.push(String::from_str(alloc, deleted)?)?;
            }
        }
    }
    if named.is_empty() {
        return Ok(None);
    }
    let service = service_of(alloc, database, zone, srel, named, is_check)?;
    if is_check && service.functions.is_empty() {
        return Ok(None);
    }
    let deleted = listed(alloc, service.functions.as_slice(), MOST_NAMED)?;
    let lost = service_text(alloc, &service)?;
    let (deleted, lost) = (deleted.as_str(), lost.as_str());
    Ok(Some(match (is_check, lost.is_empty()) {
        (true, true) => format!(in alloc; "{id} would delete {deleted} in {zone}")?,
        (true, false) => format!(in alloc;
            "{id} would delete {deleted} in {zone}, and take off {lost} of it"
        )?,
        (false, true) => format!(in alloc; "{id} deletes {deleted} in {zone}")?,
        (false, false) => format!(in alloc;
            "{id} deletes {deleted} in {zone}; of its service, {lost} are received and not applied now"
        )?,
    }))
}

// The USERMODs by name, and how many others there are; no text if there are none of either.
fn service_text(alloc: Global, service: &Service) -> Result<String, AllocError> {
    let others = match service.others {
        0 => String::new(alloc),
        1 => String::from_str(alloc, "1 PTF or APAR")?,
        others => format!(in alloc; "{others} PTFs and APARs")?,
    };
    let usermods = service.usermods.as_slice();
    if usermods.is_empty() {
        return Ok(others);
    }
    let word = if usermods.len() == 1 {
        "USERMOD"
    } else {
        "USERMODs"
    };
    let list = listed(alloc, usermods, MOST_NAMED)?;
    let (list, others) = (list.as_str(), others.as_str());
    if others.is_empty() {
        return format!(in alloc; "{word} {list}");
    }
    format!(in alloc; "{word} {list} and {others}")
}

// The functions that are named, with those that depend on them, and the service of them all: with CHECK what is applied
// in the zone, and otherwise what is not applied now.
fn service_of<D: Database>(
    alloc: Global,
    database: &mut D,
    zone: &str,
    srel: &str,
    named: Vec<String>,
    is_check: bool,
) -> Result<Service, WarningFault> {
    let mut service = Service {
        functions: Vec::new(alloc),
        usermods: Vec::new(alloc),
        others: 0,
    };
    let mut seen = named;
    for place in 0..MOST_FUNCTIONS {
        let Some(function) = seen.get(place) else {
            break;
        };
        let function = String::from_str(alloc, function.as_str())?;
        if is_applied(alloc, database, zone, function.as_str())? == is_check {
            service
                .functions
                .push(String::from_str(alloc, function.as_str())?)?;
        }
        for row in service_rows(database, zone, srel, function.as_str())? {
            let (id, kind) = (column(alloc, &row, 0)?, column(alloc, &row, 1)?);
            if kind.as_str() == "FUNCTION" {
                if !seen.as_slice().contains(&id) {
                    seen.push(id)?;
                }
            } else if is_applied(alloc, database, zone, id.as_str())? == is_check {
                if kind.as_str() == "USERMOD" {
                    service.usermods.push(id)?;
                } else {
                    service.others = service.others.saturating_add(1);
                }
            }
        }
    }
    Ok(service)
}

// The SYSMODs that have the function as their FMID, by the ++VER that installed them or the first: their ids and types.
fn service_rows<D: Database>(
    database: &mut D,
    zone: &str,
    srel: &str,
    function: &str,
) -> Result<Vec<Vec<String>>, WarningFault> {
    let select = "SELECT v.id, s.kind FROM ver v JOIN sysmod s ON s.id = v.id \
         WHERE v.srel = ?1 AND v.fmid = ?2 \
         AND NOT EXISTS (SELECT 1 FROM chosen c WHERE c.zone = ?3 AND c.id = v.id) ORDER BY v.id";
    let mut rows = database.rows(select, &[srel, function, zone])?;
    let select = "SELECT m.id, s.kind FROM chosen c JOIN morever m ON m.id = c.id AND m.n = c.n \
         JOIN sysmod s ON s.id = m.id \
         WHERE c.zone = ?3 AND m.srel = ?1 AND m.fmid = ?2 ORDER BY m.id";
    for row in database.rows(select, &[srel, function, zone])? {
        rows.push(row)?;
    }
    Ok(rows)
}
