//! The database that a job has left, as the hints ask it.
use crate::host::DatabaseFiles;
use smpe_warnings::{Database, WarningFault};
use sqlite::types::ValueRef;
use sqlite::{Connection, Error, ErrorCode, Row};
use std::alloc::Global;

/// The connection that a job has left; `None` if there is none.
#[derive(Drop)]
pub(crate) struct LeftDatabase {
    pub(crate) alloc: Global,
    pub(crate) conn: Option<Connection<DatabaseFiles>>,
}

impl Database for LeftDatabase {
    // A SELECT changes nothing.
    fn rows(&mut self, select: &str, values: &[&str]) -> Result<Vec<Vec<String>>, WarningFault> {
        let mut parameters = Vec::new(self.alloc);
        for value in values {
            parameters.push(ValueRef::Text(value.as_bytes()))?;
        }
        let Some(conn) = &mut self.conn else {
            return Err(WarningFault::NoAnswer);
        };
        let Ok(rows) = conn.query_all(select, parameters.as_slice()) else {
            return Err(WarningFault::NoAnswer);
        };
        let mut answer = Vec::new(self.alloc);
        for row in &rows {
            answer.push(row_texts(self.alloc, row)?)?;
        }
        Ok(answer)
    }
}

// The texts of a row, up to the first column that has none.
fn row_texts(alloc: Global, row: &Row) -> Result<Vec<String>, WarningFault> {
    let mut texts = Vec::new(alloc);
    for place in 0..row.column_count() {
        match row.get(place) {
            Ok(text) => texts.push(text)?,
            Err(Error::SqliteFailure(ErrorCode::OutOfMemory)) => return Err(WarningFault::Memory),
            Err(_) => break,
        }
    }
    Ok(texts)
}
