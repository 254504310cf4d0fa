//! Which failed SYSMODs are superseded by what the same command has installed.
use crate::asking::{Database, KnownZone, column, listed};
use crate::fault::WarningFault;
use crate::ran::RanCommand;
use fields::{Id, IdList};
use std::alloc::{AllocError, Global};

/// How often a SELECT is repeated at most, which has 500 rows each time: no more SYSMODs than that are received.
const MOST_PARTS: usize = 140;

/// How many failed SYSMODs are named.
const MOST_NAMED: usize = 5;

/// Failed SYSMODs, each with one that supersedes it and was installed.
#[derive(Drop)]
struct Superseded {
    ids: IdList,
    pairs: Vec<(Id, Id)>,
}

/// What to say of SYSMODs that failed, although the command has installed what supersedes them, or would with CHECK;
/// `None` if there are none.
pub(crate) fn superseded_hint<D: Database>(
    alloc: Global,
    database: &mut D,
    zone: &KnownZone,
    ran: &RanCommand,
) -> Result<Option<String>, WarningFault> {
    if ran.failed.is_empty() || ran.installed.is_empty() {
        return Ok(None);
    }
    let mut superseded = Superseded {
        ids: IdList::new(alloc),
        pairs: Vec::new(alloc),
    };
    // The first ++VER counts, unless another one has installed the SYSMOD. For one that is not applied it depends on
    // the functions of the zone, and is known only if all have the same SUP.
    let select = "SELECT v.id, v.sup FROM ver v WHERE v.srel = ?1 AND v.sup <> '' AND v.id > ?3 \
         AND NOT EXISTS (SELECT 1 FROM chosen c WHERE c.zone = ?2 AND c.id = v.id) \
         AND (NOT EXISTS (SELECT 1 FROM morever m WHERE m.id = v.id AND m.srel = ?1 AND m.sup <> v.sup) \
         OR EXISTS (SELECT 1 FROM entry e WHERE e.zone = ?2 AND e.id = v.id AND e.date IS NOT NULL)) \
         ORDER BY v.id LIMIT 500";
    add_superseded(alloc, database, select, zone, ran, &mut superseded)?;
    let select = "SELECT m.id, m.sup FROM chosen c JOIN morever m ON m.id = c.id AND m.n = c.n \
         WHERE c.zone = ?2 AND m.srel = ?1 AND m.id > ?3 ORDER BY m.id LIMIT 500";
    add_superseded(alloc, database, select, zone, ran, &mut superseded)?;
    if superseded.pairs.is_empty() {
        return Ok(None);
    }
    superseded.pairs.sort_unstable();
    Ok(Some(hint_text(alloc, superseded.pairs.as_slice(), ran.is_check)?))
}

// Adds what the rows of this SELECT show, which have an id and its SUP and rise by the id.
fn add_superseded<D: Database>(
    alloc: Global,
    database: &mut D,
    select: &str,
    zone: &KnownZone,
    ran: &RanCommand,
    superseded: &mut Superseded,
) -> Result<(), WarningFault> {
    let mut last = String::new(alloc);
    for _ in 0..MOST_PARTS {
        let values = [zone.srel.as_str(), zone.name.as_str(), last.as_str()];
        let rows = database.rows(select, &values)?;
        let Some(row) = rows.last() else {
            break;
        };
        last = column(alloc, row, 0)?;
        for row in &rows {
            add_pairs(alloc, row, ran, superseded)?;
        }
    }
    Ok(())
}

// Adds the failed SYSMODs in the SUP of this row, if the command has installed its SYSMOD.
fn add_pairs(
    alloc: Global,
    row: &Vec<String>,
    ran: &RanCommand,
    superseded: &mut Superseded,
) -> Result<(), AllocError> {
    let (superseder, sup) = (column(alloc, row, 0)?, column(alloc, row, 1)?);
    let Some(superseder) = Id::read(superseder.as_bytes()) else {
        return Ok(());
    };
    if !ran.installed.contains(superseder) {
        return Ok(());
    }
    for id in sup.as_str().split(',') {
        if let Some(id) = Id::read(id.as_bytes())
            && ran.failed.contains(id)
            && superseded.ids.insert(id)?
        {
            superseded.pairs.push((id, superseder))?;
        }
    }
    Ok(())
}

// How many there are, and the first ones with what supersedes them.
fn hint_text(alloc: Global, pairs: &[(Id, Id)], is_check: bool) -> Result<String, AllocError> {
    let mut texts = Vec::new(alloc);
    for (failed, superseder) in pairs {
        texts.push(format!(in alloc; "{failed} by {superseder}")?)?;
    }
    let list = listed(alloc, texts.as_slice(), MOST_NAMED)?;
    let (count, list) = (pairs.len(), list.as_str());
    let verb = if is_check { "would go" } else { "went" };
    if count == 1 {
        return format!(in alloc; "1 failed SYSMOD is superseded by one that {verb} on: {list}");
    }
    format!(in alloc; "{count} failed SYSMODs are superseded by ones that {verb} on: {list}")
}
