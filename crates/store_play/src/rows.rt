//! A state that uses every column, written row by row, and rows as lines.

use sqlite::{Alter, Connection};
use sqlite_value::value::ValueRef;
use std::alloc::Global;
use std::test::Fail;
use text80::RECORD;

/// The sources of the SYSMODs; each has a row.
pub const SOURCES: &[&str] = &[
    "INSERT INTO source (id, name) VALUES \
        ('HAA1200', 'PUT2401'), ('HAA1200', 'SMCREC01'), ('UAA0001', 'PUT2401')",
];

/// The `++VER` by which an entry was installed, which no earlier schema records.
pub const CHOSEN: &[&str] = &["INSERT INTO chosen (zone, id, n) VALUES ('TGT1', 'UAA0001', 2)"];

/// All other rows, table by table.
const ROWS: &[&str] = &[
    "INSERT INTO sysmod (id, kind, sources) VALUES \
        ('HAA1100', 'FUNCTION', ''), ('HAA1200', 'FUNCTION', ''), ('UAA0001', 'PTF', ''), ('AAA0003', 'APAR', ''), \
        ('LLL0001', 'USERMOD', '')",
    "INSERT INTO ver (id, srel, fmid, pre, req, sup, npre, del) VALUES \
        ('HAA1100', 'Z038', NULL, '', '', '', '', ''), \
        ('HAA1200', 'Z038', 'HAA1100', 'UAA0000', '', 'AAA0004', 'HBB0001,HBB0002', 'HAA1000'), \
        ('UAA0001', 'Z038', 'HAA1100', 'UAA0000', 'UAA0002,UAA0003', 'AAA0001,AAA0002', '', ''), \
        ('UAA0001', 'Z039', 'HAA1200', '', '', '', '', ''), \
        ('AAA0003', 'Z038', 'HAA1100', 'UAA0001', '', '', '', ''), \
        ('LLL0001', 'Z038', 'HAA1100', 'AAA0003', '', '', '', '')",
    "INSERT INTO ifreq (id, srel, n, fmid, req) VALUES \
        ('UAA0001', 'Z038', 1, 'HCC1100', 'UCC0001'), ('UAA0001', 'Z038', 2, 'HBB1100', 'UBB0001,UBB0002'), \
        ('UAA0001', 'Z039', 1, 'HCC1100', 'UCC0001')",
    "INSERT INTO elem (id, type, name, upd, distlib, syslib, text) VALUES \
        ('HAA1100', 'MAC', 'MAC1', 0, 'AMACLIB', 'MACLIB', x''), \
        ('HAA1100', 'SRC', 'SRC1', 0, 'ASRCLIB', 'SRCLIB', x''), \
        ('HAA1100', 'CLIST', 'CLS1', 0, 'ADIST', 'SYST', x''), \
        ('HAA1100', 'DATA', 'DATA1', 0, 'ADIST', 'SYST', x''), \
        ('HAA1100', 'EXEC', 'EXEC1', 0, 'ADIST', 'SYST', x''), \
        ('HAA1100', 'PARM', 'PARM1', 0, 'ADIST', 'SYST', x''), \
        ('HAA1100', 'PROC', 'PROC1', 0, 'ADIST', 'SYST', x''), ('UAA0001', 'MAC', 'MAC1', 1, NULL, NULL, x''), \
        ('UAA0001', 'SRC', 'MAC1', 1, NULL, NULL, x''), ('UAA0001', 'SRC', 'SRC1', 0, 'ASRCLIB', 'SRCLIB', x'')",
    "INSERT INTO hold (id, kind, reason, fmid, class, date, comment, internal) VALUES \
        ('UAA0001', 'ERROR', 'AAA0009', 'HAA1100', 'HIPER', '24138', 'IT FAILS, NOW AND THEN', 0), \
        ('UAA0001', 'SYSTEM', 'ACTION', 'HAA1100', NULL, NULL, NULL, 1), \
        ('UAA0001', 'SYSTEM', 'DOC', 'HAA1100', 'PE', NULL, 'X', 0), \
        ('UZZ9999', 'USER', 'MINE', 'HAA1100', NULL, '24001', NULL, 0)",
    "INSERT INTO zone (name, kind, srel, related) VALUES \
        ('TGT1', 'target', 'Z038', 'DLB1'), ('DLB1', 'distribution', 'Z038', NULL), \
        ('DLB2', 'distribution', 'Z039', NULL), ('DLB3', 'distribution', 'Z038', NULL), \
        ('TGT2', 'target', 'Z039', 'DLB2')",
    "INSERT INTO entry (zone, id, date, supby, delby, waived) VALUES \
        ('TGT1', 'HAA1100', '24.138', '', NULL, ''), \
        ('TGT1', 'UAA0001', '24.366', 'UAA0005', 'HAA1200', 'UAA0000,UAA0002'), \
        ('TGT1', 'AAA0001', NULL, 'UAA0001,UAA0004', NULL, ''), ('TGT1', 'HAA1000', NULL, '', 'HAA1200', ''), \
        ('DLB1', 'HAA1100', '23.001', '', NULL, '')",
    "INSERT INTO zelem (zone, type, name, fmid, rmid, umid, distlib, syslib, text) VALUES \
        ('TGT1', 'MAC', 'MAC2', 'HAA1100', 'HAA1100', '', 'AMACLIB', 'MACLIB', x''), \
        ('DLB1', 'MAC', 'MAC1', 'HAA1100', 'UAA0001', 'AAA0003,LLL0001', 'AMACLIB', 'MACLIB', x'')",
];

/// The elements of the zone TGT1 are those of the function, and a macro whose text is empty.
const ELEMENTS: &str =
    "INSERT INTO zelem SELECT 'TGT1', type, name, id, id, '', distlib, syslib, text FROM elem WHERE id = 'HAA1100'";

/// Two further `++VER`s of LLL0001 for the SREL of its first one, with their `++IF`s.
pub const FURTHER: &[&str] = &[
    "INSERT INTO morever (id, srel, n, fmid, pre, req, sup) VALUES \
        ('LLL0001', 'Z038', 2, 'HAA1200', 'AAA0003', 'UAA0002,UAA0003', 'LLL0002'), \
        ('LLL0001', 'Z038', 3, 'HCC1100', '', '', '')",
    "INSERT INTO moreif (id, srel, v, n, fmid, req) VALUES \
        ('LLL0001', 'Z038', 2, 1, 'HBB1100', 'UBB0001'), ('LLL0001', 'Z038', 2, 2, 'HCC1100', 'UCC0001,UCC0002'), \
        ('LLL0001', 'Z038', 3, 1, 'HBB1100', 'UBB0001')",
];

/// The texts of element statements: the statement that sets each, and its records.
const TEXTS: &[(&str, &str)] = &[
    ("UPDATE elem SET text = ?1", "ANY TEXT"),
    (
        "UPDATE elem SET text = ?1 WHERE upd = 0 AND (type = 'MAC' OR type = 'SRC')",
        " MACRO\t00000010\n MEND\t00000020",
    ),
    (
        "UPDATE elem SET text = ?1 WHERE upd = 1",
        "./ CHANGE NAME=MAC1\n./ DELETE SEQ1=00000020,SEQ2=00000030\n NEW\t00000025",
    ),
];

// Where a tab leads: after the 72 columns of text, to the sequence number.
const TAB_COLUMN: usize = 72;

// A record with this text.
fn record(text: &str) -> [u8; RECORD] {
    let mut record = [b' '; RECORD];
    let mut column: usize = 0;
    for letter in text.as_bytes() {
        if *letter == b'\t' {
            column = TAB_COLUMN;
        } else if let Some(place) = record.get_mut(column) {
            *place = *letter;
            column = column.saturating_add(1);
        }
    }
    record
}

/// A record for each line of the text, or none for an empty text. A tab leads to its sequence number.
pub fn records(alloc: Global, text: &str) -> Result<Vec<u8>, Fail> {
    let mut bytes = Vec::new(alloc);
    if text.is_empty() {
        return Ok(bytes);
    }
    for line in text.split('\n') {
        bytes.extend_from_slice(&record(line))?;
    }
    Ok(bytes)
}

/// Runs a statement that must change some row.
pub fn run<S: Alter>(
    conn: &mut Connection<S>,
    sql: &str,
    values: &[ValueRef<'_>],
) -> Result<(), Fail> {
    if conn.execute(sql, values)? == 0 {
        return Err(Fail::from(sql));
    }
    Ok(())
}

/// Runs the statement so many times, with the parameters 1, 2, 4 and so on.
pub fn run_doubling<S: Alter>(conn: &mut Connection<S>, sql: &str, times: u32) -> Result<(), Fail> {
    let mut number = 1_i64;
    for _ in 0..times {
        run(conn, sql, &[ValueRef::Int(number)])?;
        number = number.saturating_mul(2);
    }
    Ok(())
}

/// Runs the statements, each of which must change some row.
pub fn run_all<S: Alter>(conn: &mut Connection<S>, statements: &[&str]) -> Result<(), Fail> {
    for sql in statements {
        run(conn, sql, &[])?;
    }
    Ok(())
}

/// Writes all rows except those of sources into empty tables.
pub fn fill_without_sources<S: Alter>(alloc: Global, conn: &mut Connection<S>) -> Result<(), Fail> {
    run_all(conn, ROWS)?;
    fill_texts(alloc, conn)?;
    run(conn, ELEMENTS, &[])
}

// Gives the element statements their texts.
fn fill_texts<S: Alter>(alloc: Global, conn: &mut Connection<S>) -> Result<(), Fail> {
    for (sql, text) in TEXTS {
        let records = records(alloc, text)?;
        run(conn, sql, &[ValueRef::Blob(records.as_slice())])?;
    }
    Ok(())
}

// Appends the texts that the query finds, each as a line.
fn append_lines<S: Alter>(
    conn: &mut Connection<S>,
    sql: &str,
    lines: &mut String,
) -> Result<(), Fail> {
    let rows = conn.query_all(sql, &[])?;
    for row in &rows {
        let text: String = row.get(0)?;
        lines.push_str(text.as_str())?;
        lines.push_str("\n")?;
    }
    Ok(())
}

/// The texts that the query finds, each as a line.
pub fn query_lines<S: Alter>(
    alloc: Global,
    conn: &mut Connection<S>,
    sql: &str,
) -> Result<String, Fail> {
    let mut lines = String::new(alloc);
    append_lines(conn, sql, &mut lines)?;
    Ok(lines)
}

/// A query of all rows of each table that every schema has.
const SHARED_TABLES: &[&str] = &[
    "SELECT k||'/'||v FROM meta ORDER BY k",
    "SELECT id||'/'||kind||'/'||sources FROM sysmod ORDER BY id",
    "SELECT id||'/'||srel||'/'||ifnull(fmid, '-')||'/'||pre||'/'||req||'/'||sup||'/'||npre||'/'||del FROM ver \
        ORDER BY id, srel",
    "SELECT id||'/'||srel||'/'||n||'/'||fmid||'/'||req FROM ifreq ORDER BY id, srel, n",
    "SELECT id||'/'||type||'/'||name||'/'||upd||'/'||ifnull(distlib, '-')||'/'||ifnull(syslib, \
        '-')||'/'||hex(text) FROM elem ORDER BY id, type, name",
    "SELECT id||'/'||kind||'/'||reason||'/'||fmid||'/'||ifnull(class, '-')||'/'||ifnull(date, \
        '-')||'/'||ifnull(comment, '-')||'/'||internal FROM hold ORDER BY id, kind, reason",
    "SELECT name||'/'||kind||'/'||srel||'/'||ifnull(related, '-') FROM zone ORDER BY name",
    "SELECT zone||'/'||id||'/'||ifnull(date, '-')||'/'||supby||'/'||ifnull(delby, '-')||'/'||waived FROM entry \
        ORDER BY zone, id",
    "SELECT zone||'/'||type||'/'||name||'/'||fmid||'/'||rmid||'/'||umid||'/'||distlib||'/'||syslib||'/'||hex(text) \
        FROM zelem ORDER BY zone, type, name",
];

/// The same for the tables that later schemas have added.
const ADDED_TABLES: &[&str] = &[
    "SELECT id||'/'||name FROM source ORDER BY id, name",
    "SELECT id||'/'||srel||'/'||n||'/'||ifnull(fmid, '-')||'/'||pre||'/'||req||'/'||sup FROM morever ORDER BY id, \
        srel, n",
    "SELECT id||'/'||srel||'/'||v||'/'||n||'/'||fmid||'/'||req FROM moreif ORDER BY id, srel, v, n",
    "SELECT zone||'/'||id||'/'||n FROM chosen ORDER BY zone, id",
];

/// All rows of the tables that every schema has.
pub fn shared_lines<S: Alter>(alloc: Global, conn: &mut Connection<S>) -> Result<String, Fail> {
    let mut lines = String::new(alloc);
    for sql in SHARED_TABLES {
        append_lines(conn, sql, &mut lines)?;
    }
    Ok(lines)
}

/// All rows of all tables.
pub fn all_lines<S: Alter>(alloc: Global, conn: &mut Connection<S>) -> Result<String, Fail> {
    let mut lines = shared_lines(alloc, conn)?;
    for sql in ADDED_TABLES {
        append_lines(conn, sql, &mut lines)?;
    }
    Ok(lines)
}
