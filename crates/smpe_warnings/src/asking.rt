//! What the hints ask of the database that a job has left.
use crate::fault::WarningFault;
use std::alloc::{AllocError, Global};

/// A database that answers questions, after the job.
pub trait Database {
    /// The rows of a SELECT with these texts as its parameters, of texts each. Returns `NoAnswer` if the database does
    /// not answer, so that it is not taken for one without such rows, and `Memory` if memory runs out.
    fn rows(&mut self, select: &str, values: &[&str]) -> Result<Vec<Vec<String>>, WarningFault>;
}

/// A zone, with its kind and its SREL.
#[derive(Drop)]
pub(crate) struct KnownZone {
    pub(crate) name: String,
    pub(crate) kind: String,
    pub(crate) srel: String,
}

/// All zones.
pub(crate) fn zones<D: Database>(
    alloc: Global,
    database: &mut D,
) -> Result<Vec<KnownZone>, WarningFault> {
    let mut zones = Vec::new(alloc);
    for row in database.rows("SELECT name, kind, srel FROM zone ORDER BY name", &[])? {
        zones.push(KnownZone {
            name: column(alloc, &row, 0)?,
            kind: column(alloc, &row, 1)?,
            srel: column(alloc, &row, 2)?,
        })?;
    }
    Ok(zones)
}

/// The zone of this name; `None` if there is none.
pub(crate) fn zone_of_name<'a>(zones: &'a [KnownZone], name: &str) -> Option<&'a KnownZone> {
    zones.iter().find(|zone| zone.name.as_str() == name)
}

/// The first column of each row.
pub(crate) fn texts<D: Database>(
    alloc: Global,
    database: &mut D,
    select: &str,
    values: &[&str],
) -> Result<Vec<String>, WarningFault> {
    let mut texts = Vec::new(alloc);
    for row in database.rows(select, values)? {
        texts.push(column(alloc, &row, 0)?)?;
    }
    Ok(texts)
}

/// The column of a row, or no text if the row has not that many.
pub(crate) fn column(alloc: Global, row: &Vec<String>, place: usize) -> Result<String, AllocError> {
    match row.get(place) {
        Some(text) => String::from_str(alloc, text.as_str()),
        None => Ok(String::new(alloc)),
    }
}

/// Whether the SYSMOD is received.
pub(crate) fn is_received<D: Database>(
    alloc: Global,
    database: &mut D,
    id: &str,
) -> Result<bool, WarningFault> {
    let found = texts(
        alloc,
        database,
        "SELECT id FROM sysmod WHERE id = ?1",
        &[id],
    )?;
    Ok(!found.is_empty())
}

/// Whether the SYSMOD is applied (accepted) in the zone.
pub(crate) fn is_applied<D: Database>(
    alloc: Global,
    database: &mut D,
    zone: &str,
    id: &str,
) -> Result<bool, WarningFault> {
    let select = "SELECT id FROM entry WHERE zone = ?1 AND id = ?2 AND date IS NOT NULL";
    let found = texts(alloc, database, select, &[zone, id])?;
    Ok(!found.is_empty())
}

/// The texts with commas between them: at most `most` of them, and how many more there are.
pub(crate) fn listed(alloc: Global, texts: &[String], most: usize) -> Result<String, AllocError> {
    let mut list = String::new(alloc);
    for text in texts.iter().take(most) {
        if !list.is_empty() {
            list.push_str(", ")?;
        }
        list.push_str(text.as_str())?;
    }
    let more = texts.len().saturating_sub(most);
    if more > 0 {
        let list = list.as_str();
        return format!(in alloc; "{list} and {more} more");
    }
    Ok(list)
}

/// Appends the line, if there is one.
pub(crate) fn push_if_any(line: Option<String>, lines: &mut Vec<String>) -> Result<(), AllocError> {
    if let Some(line) = line {
        lines.push(line)?;
    }
    Ok(())
}
