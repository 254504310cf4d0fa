//! Rows of SYSMODs and of their sources.

use crate::bad_rows::{NO_STATE, Part, check};
use sqlite::{Alter, Connection, MemStore};
use std::alloc::Global;
use std::test::Fail;
use store_play::{open_known_rows, open_store, run, run_doubling};
use store_schema::StoreError;

/// SYSMODs.
const SYSMODS: &[&str] = &[
    "INSERT INTO sysmod VALUES ('UAA001', 'PTF', ''); INSERT INTO ver VALUES ('UAA001', 'Z038', 'HAA1100', '', '', \
        '', '', '')",
    "INSERT INTO sysmod VALUES ('UAA00011', 'PTF', ''); INSERT INTO ver VALUES ('UAA00011', 'Z038', 'HAA1100', '', \
        '', '', '', '')",
    "INSERT INTO sysmod VALUES ('uaa0001', 'PTF', ''); INSERT INTO ver VALUES ('uaa0001', 'Z038', 'HAA1100', '', \
        '', '', '', '')",
    "INSERT INTO sysmod VALUES ('UAA 001', 'PTF', ''); INSERT INTO ver VALUES ('UAA 001', 'Z038', 'HAA1100', '', \
        '', '', '', '')",
    "INSERT INTO sysmod VALUES ('', 'PTF', ''); INSERT INTO ver VALUES ('', 'Z038', 'HAA1100', '', '', '', '', '')",
    "UPDATE sysmod SET kind = 'ptf' WHERE id = 'UAA0001'",
    "UPDATE sysmod SET kind = 'FUNCTIONS' WHERE id = 'UAA0001'",
    "UPDATE sysmod SET kind = '' WHERE id = 'UAA0001'",
    "UPDATE sysmod SET sources = 'PUT2401' WHERE id = 'UAA0001'",
    "UPDATE sysmod SET sources = ' ' WHERE id = 'UAA0001'",
    "UPDATE source SET name = 'put2401' WHERE id = 'UAA0001'",
    "UPDATE source SET name = '' WHERE id = 'UAA0001'",
    "UPDATE source SET name = 'PUT2401,PUT2402' WHERE id = 'UAA0001'",
    "UPDATE source SET name = 'PUT2401$RSU2404#PUT2401$RSU2404#PUT2401$RSU2404#PUT2401$RSU2404#A' WHERE id = 'UAA0001'",
    "DELETE FROM ver WHERE id = 'AAA0003'",
];

/// SYSMODs that lead to themselves, or whose roles differ from those that others give them.
const BETWEEN: &[&str] = &[
    "UPDATE ver SET pre = 'LLL0001' WHERE id = 'UAA0001' AND srel = 'Z038'",
    "UPDATE ver SET sup = 'LLL0001' WHERE id = 'UAA0001' AND srel = 'Z038'",
    "UPDATE ver SET pre = 'LLL0001', sup = '' WHERE id = 'UAA0001' AND srel = 'Z038'",
    "UPDATE ver SET fmid = 'HAA1200' WHERE id = 'HAA1100'",
    "UPDATE ver SET pre = 'UAA0001' WHERE id = 'HAA1100'",
    "UPDATE ver SET sup = 'HAA1200' WHERE id = 'AAA0003'",
    "UPDATE ver SET sup = 'HAA1100', fmid = NULL WHERE id = 'HAA1200'",
    "UPDATE ver SET fmid = 'UAA0001' WHERE id = 'AAA0003'",
    "UPDATE ver SET fmid = 'LLL0001' WHERE id = 'HAA1200'",
    "UPDATE ver SET del = 'UAA0001' WHERE id = 'HAA1200'",
    "UPDATE ifreq SET fmid = 'AAA0003' WHERE srel = 'Z039'",
    "UPDATE sysmod SET kind = 'FUNCTION' WHERE id = 'UAA0001'",
];

#[test]
fn sysmods_that_stand_for_no_state_are_told(rt: HostRuntime) -> Result<(), Fail> {
    check(rt.alloc(), SYSMODS, Part::Global, NO_STATE)?;
    check(rt.alloc(), BETWEEN, Part::Global, NO_STATE)
}

const FIRST: &str = "INSERT INTO sysmod (id, kind, sources) VALUES ('M100000', 'PTF', '')";

/// As many SYSMODs again, by numbers that are greater by this one.
const AGAIN: &str =
    "INSERT INTO sysmod SELECT 'M' || (CAST(substr(id, 2) AS INTEGER) + ?1), 'PTF', '' FROM sysmod WHERE id > 'M' \
        AND id < 'N'";

const THEIR_VERS: &str =
    "INSERT INTO ver SELECT id, 'Z038', 'HAA1100', '', '', '', '', '' FROM sysmod WHERE id > 'M' AND id < 'N'";

const ONE_TOO_MANY: &str = "DELETE FROM sysmod WHERE id > 'M' AND id < 'M100005'";

const AS_MANY: &str = "DELETE FROM sysmod WHERE id > 'M' AND id < 'M100006'";

// The known rows and 65,536 further SYSMODs, once the statement has removed some.
fn many_without(alloc: Global, sql: &str) -> Result<Connection<MemStore>, Fail> {
    let mut conn = open_known_rows(alloc, &[FIRST])?;
    run_doubling(&mut conn, AGAIN, 16)?;
    run(&mut conn, THEIR_VERS, &[])?;
    run(&mut conn, sql, &[])?;
    Ok(conn)
}

// How many SYSMODs are loaded, or why none are.
fn size<S: Alter + Drop>(
    alloc: Global,
    conn: Connection<S>,
) -> Result<Result<usize, StoreError>, Fail> {
    let mut store = open_store(alloc, conn)?;
    match store.load_global() {
        Ok(global) => Ok(Ok(global.len())),
        Err(error) => Ok(Err(error)),
    }
}

#[test]
fn more_than_65_535_sysmods_are_told(rt: HostRuntime) -> Result<(), Fail> {
    for (sql, told) in [
        (ONE_TOO_MANY, Err(StoreError::NoState)),
        (AS_MANY, Ok(65_535)),
    ] {
        let conn = many_without(rt.alloc(), sql)?;
        assert_eq!(rt; size(rt.alloc(), conn)?, told);
    }
    Ok(())
}
