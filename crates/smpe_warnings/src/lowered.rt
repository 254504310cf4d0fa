//! What BYPASS(ID) puts over another level of an element.
use crate::asking::{Database, column, texts};
use crate::fault::WarningFault;
use std::alloc::Global;

/// How many SYSMODs are followed at most from one to those that it is over.
const MOST_STEPS: usize = 500;

/// What to say of a SYSMOD that APPLY or ACCEPT with BYPASS(ID) has installed in the zone, or would with CHECK, and
/// that replaces an element over another level: a line for each such element.
pub(crate) fn lowered_hints<D: Database>(
    alloc: Global,
    database: &mut D,
    zone: &str,
    id: &str,
    is_check: bool,
) -> Result<Vec<String>, WarningFault> {
    let mut lines = Vec::new(alloc);
    let mut over = Vec::new(alloc);
    let select = "SELECT type, name FROM elem WHERE id = ?1 AND upd = 0 ORDER BY type, name";
    for row in database.rows(select, &[id])? {
        let (kind, name) = (column(alloc, &row, 0)?, column(alloc, &row, 1)?);
        let (kind, name) = (kind.as_str(), name.as_str());
        if over.is_empty() {
            over = ids_below(alloc, database, id)?;
        }
        for level in levels(alloc, database, zone, id, kind, name, is_check)? {
            if over.as_slice().contains(&level) {
                continue;
            }
            let below = ids_below(alloc, database, level.as_str())?;
            let is_newer = below.iter().any(|own| own.as_str() == id);
            let level = level.as_str();
            let verb = if is_check { "would put" } else { "has put" };
            let relation = if is_newer {
                "which is newer"
            } else {
                "which it does not name"
            };
            lines.push(format!(in alloc;
                "BYPASS(ID): {id} {verb} its {kind} {name} over that of {level}, {relation}"
            )?)?;
        }
    }
    Ok(lines)
}

// The SYSMODs whose levels of the element would be lost: with CHECK the RMID and the UMIDs, and otherwise the applied
// SYSMODs that change the element and are no UMID of it now.
fn levels<D: Database>(
    alloc: Global,
    database: &mut D,
    zone: &str,
    id: &str,
    kind: &str,
    name: &str,
    is_check: bool,
) -> Result<Vec<String>, WarningFault> {
    let select = "SELECT rmid, umid FROM zelem WHERE zone = ?1 AND type = ?2 AND name = ?3";
    let rows = database.rows(select, &[zone, kind, name])?;
    let Some(row) = rows.first() else {
        return Ok(Vec::new(alloc));
    };
    let mut current = Vec::new(alloc);
    current.push(column(alloc, row, 0)?)?;
    for umid in column(alloc, row, 1)?.as_str().split(',') {
        if !umid.is_empty() {
            current.push(String::from_str(alloc, umid)?)?;
        }
    }
    if is_check {
        return Ok(current);
    }
    if current.first().is_none_or(|rmid| rmid.as_str() != id) {
        return Ok(Vec::new(alloc));
    }
    let select = "SELECT n.id FROM entry n JOIN elem e ON e.id = n.id \
         WHERE n.zone = ?1 AND n.date IS NOT NULL AND e.type = ?2 AND e.name = ?3 ORDER BY n.id";
    let mut lost = Vec::new(alloc);
    for changer in texts(alloc, database, select, &[zone, kind, name])? {
        if !current.as_slice().contains(&changer) {
            lost.push(changer)?;
        }
    }
    Ok(lost)
}

// The SYSMOD itself, and those that it is over by PRE, SUP and FMID of its ++VERs.
fn ids_below<D: Database>(
    alloc: Global,
    database: &mut D,
    id: &str,
) -> Result<Vec<String>, WarningFault> {
    let mut ids = Vec::new(alloc);
    ids.push(String::from_str(alloc, id)?)?;
    for place in 0..MOST_STEPS {
        let Some(next) = ids.get(place) else {
            break;
        };
        let next = String::from_str(alloc, next.as_str())?;
        let select = "SELECT pre, sup, coalesce(fmid, '') FROM ver WHERE id = ?1 \
             UNION ALL SELECT pre, sup, coalesce(fmid, '') FROM morever WHERE id = ?1";
        for row in database.rows(select, &[next.as_str()])? {
            for list in &row {
                for named in list.as_str().split(',') {
                    let named = String::from_str(alloc, named)?;
                    if !named.is_empty() && !ids.as_slice().contains(&named) {
                        ids.push(named)?;
                    }
                }
            }
        }
    }
    Ok(ids)
}
