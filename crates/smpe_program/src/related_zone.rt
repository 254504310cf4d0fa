//! What the database knows of the zone that `--related` names.
use crate::host::DatabaseFiles;
use smpe_warnings::RelatedZone;
use sqlite::{Connection, Error, params};

/// Asks the tables of the database whether the zone exists, for its kind, and for the target zone that has it already.
/// The error is the library's.
pub(crate) fn query_related_zone(
    open: &mut Connection<DatabaseFiles>,
    name: &str,
) -> Result<RelatedZone, Error> {
    let kinds = open.query_all("SELECT kind FROM zone WHERE name = ?1", params![name])?;
    let Some(row) = kinds.first() else {
        return Ok(RelatedZone::Missing);
    };
    let kind: String = row.get(0)?;
    if kind.as_str() != "distribution" {
        return Ok(RelatedZone::Target);
    }
    let targets = open.query_all("SELECT name FROM zone WHERE related = ?1", params![name])?;
    match targets.first() {
        Some(row) => Ok(RelatedZone::Taken(row.get(0)?)),
        None => Ok(RelatedZone::Free),
    }
}
