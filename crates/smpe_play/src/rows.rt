//! Rows of a database, as lines.

use sqlite::{Alter, Connection};
use std::alloc::Global;
use std::test::Fail;

// Appends a line for each row that a query finds: the text in the row's first column.
fn append_rows<S: Alter>(
    conn: &mut Connection<S>,
    sql: &str,
    lines: &mut String,
) -> Result<(), Fail> {
    let rows = conn.query_all(sql, &[])?;
    for row in &rows {
        let text: String = row.get(0)?;
        lines.push_str(text.as_str())?;
        lines.push_str("\n")?;
    }
    Ok(())
}

/// For each query the texts in the first column of the rows that it finds, a line each, and then a line of two hyphens.
pub fn query_lines<S: Alter>(
    alloc: Global,
    conn: &mut Connection<S>,
    queries: &[&str],
) -> Result<String, Fail> {
    let mut lines = String::new(alloc);
    for sql in queries {
        append_rows(conn, sql, &mut lines)?;
        lines.push_str("--\n")?;
    }
    Ok(lines)
}
