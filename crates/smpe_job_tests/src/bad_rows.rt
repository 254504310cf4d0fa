//! Rows that stand for no state, under jobs and under the definition of a zone: what was reported is stored, and every
//! other row is as it was.

use crate::checked::CHECKED;
use fields::Srel;
use scripts::compare;
use smpe::{JobError, ZoneError, define_zone};
use smpe_play::{installed, open_in_memory, open_store, run_step, zone_name};
use sqlite::{Alter, Connection};
use std::alloc::Global;
use std::test::Fail;
use store::Store;
use store_play::{all_lines, run, run_all};
use store_schema::StoreError;
use terms::ZoneKind;

/// Statements; after each of them the rows of the global zone stand for none. A job meets them as it begins, but the
/// definition of a zone does not.
const GLOBAL: &[&str] = &[
    "UPDATE sysmod SET kind = 'function'",
    "INSERT INTO source (id, name) VALUES ('HAA1100', 'put2401')",
    "UPDATE ver SET pre = 'UA0001'",
    "INSERT INTO ifreq (id, srel, n, fmid, req) VALUES ('HAA1100', 'Z038', 2, 'HCC1100', 'UCC0001')",
    "INSERT INTO morever (id, srel, n, fmid, pre, req, sup) VALUES ('HAA1100', 'Z038', 2, 'HBB1100', '', '', '')",
    "INSERT INTO moreif (id, srel, v, n, fmid, req) VALUES ('HAA1100', 'Z038', 2, 1, 'HCC1100', 'UCC0001')",
    "UPDATE elem SET type = 'mac'",
    "INSERT INTO hold (id, kind, reason, fmid, internal) VALUES ('UA00024', 'USER', 'mine', 'HAA1100', 0)",
];

/// The same for the target zone, which a SET meets.
const TARGET: &[&str] = &[
    "UPDATE entry SET date = '24.000'",
    "UPDATE zelem SET fmid = ''",
    "INSERT INTO chosen (zone, id, n) VALUES ('TGT1', 'UA00024', 2)",
];

/// The same for the zones, which a SET and the definition of a zone meet.
const ZONES: &[&str] = &[
    "UPDATE zone SET kind = 'TARGET' WHERE name = 'TGT1'",
    "UPDATE zone SET related = NULL WHERE name = 'TGT1'",
];

/// What the job reports before its SET of the target zone.
const RECEIVED: &str = "SET GLOBAL\nRC 00\nRECEIVE GLOBAL\nUA00024 PTF      RECEIVED\nRC 00\n";

/// What it writes before that.
const RECEIVED_ROWS: &[&str] = &[
    "INSERT INTO sysmod (id, kind, sources) VALUES ('UA00024', 'PTF', '')",
    "INSERT INTO ver (id, srel, fmid, pre, req, sup, npre, del) VALUES ('UA00024', 'Z038', 'HAA1100', '', '', '', '', \
        '')",
];

/// What the definition of a zone writes.
const DEFINED_ROWS: &[&str] = &[
    "INSERT INTO zone (name, kind, srel, related) VALUES ('NEW1', 'distribution', 'Z038', NULL)",
];

// A database in which the function is installed and then one row is damaged.
fn damaged<S: Alter + Drop>(
    alloc: Global,
    conn: Connection<S>,
    bad: &str,
) -> Result<Connection<S>, Fail> {
    let mut conn = installed(alloc, conn)?.close();
    run(&mut conn, bad, &[])?;
    Ok(conn)
}

// All rows of a damaged database after these statements.
fn rows_after_statements<S: Alter + Drop>(
    alloc: Global,
    conn: Connection<S>,
    bad: &str,
    written: &[&str],
) -> Result<String, Fail> {
    let mut conn = damaged(alloc, conn, bad)?;
    run_all(&mut conn, written)?;
    all_lines(alloc, &mut conn)
}

// Runs the job, which must report this and then end by `Sf3`.
fn run_until_bad_row<S: Alter>(
    alloc: Global,
    store: &mut Store<S>,
    wanted: &str,
) -> Result<(), Fail> {
    let mut report = Vec::new(alloc);
    match run_step(alloc, store, &CHECKED, &mut report)? {
        Err(JobError::Store(StoreError::NoState)) => compare(
            "before the bad row",
            report.as_slice(),
            wanted,
        ),
        Err(other) => Err(Fail::from(other)),
        Ok(_) => Err(Fail::from("the job went to its end")),
    }
}

// Defines a zone, which must succeed if `is_defined`, and must end by `Sf3` otherwise.
fn check_definition<S: Alter>(store: &mut Store<S>, is_defined: bool) -> Result<(), Fail> {
    let name = zone_name(b"NEW1")?;
    let srel = Srel::read(b"Z038").ok_or("no SREL")?;
    match define_zone(store, name, ZoneKind::Distribution, srel, None) {
        Ok(()) if is_defined => Ok(()),
        Err(ZoneError::Store(StoreError::NoState)) if !is_defined => Ok(()),
        Ok(()) => Err(Fail::from("the zone was defined")),
        Err(other) => Err(Fail::from(other)),
    }
}

/// What is done over bad rows.
#[derive(Clone, Copy)]
enum Act {
    /// The job, which must report this and then end by `Sf3`.
    Run(&'static str),
    /// The definition of a zone, which must succeed, or must end by `Sf3`.
    Define(bool),
}

// Performs the act over the store, and checks how it ends.
fn perform_act<S: Alter>(alloc: Global, store: &mut Store<S>, act: Act) -> Result<(), Fail> {
    match act {
        Act::Run(report) => run_until_bad_row(alloc, store, report),
        Act::Define(is_defined) => check_definition(store, is_defined),
    }
}

// All rows of a damaged database after this act.
fn rows_after_act<S: Alter + Drop>(
    alloc: Global,
    conn: Connection<S>,
    bad: &str,
    act: Act,
) -> Result<String, Fail> {
    let mut store = open_store(alloc, damaged(alloc, conn, bad)?, bad)?;
    perform_act(alloc, &mut store, act)?;
    all_lines(alloc, &mut store.close())
}

// After each of these edits, the act must leave the rows as these statements do.
fn check_each_edit(alloc: Global, edits: &[&str], act: Act, written: &[&str]) -> Result<(), Fail> {
    for bad in edits {
        let got = rows_after_act(alloc, open_in_memory(alloc)?, bad, act)?;
        let wanted = rows_after_statements(alloc, open_in_memory(alloc)?, bad, written)?;
        compare(bad, got.as_bytes(), wanted.as_str())?;
    }
    Ok(())
}

#[test]
fn a_job_that_meets_bad_rows_changes_no_other(rt: HostRuntime) -> Result<(), Fail> {
    check_each_edit(rt.alloc(), GLOBAL, Act::Run(""), &[])?;
    check_each_edit(rt.alloc(), TARGET, Act::Run(RECEIVED), RECEIVED_ROWS)?;
    check_each_edit(rt.alloc(), ZONES, Act::Run(RECEIVED), RECEIVED_ROWS)
}

#[test]
fn a_definition_that_meets_bad_rows_changes_no_other(rt: HostRuntime) -> Result<(), Fail> {
    check_each_edit(rt.alloc(), GLOBAL, Act::Define(true), DEFINED_ROWS)?;
    check_each_edit(rt.alloc(), TARGET, Act::Define(true), DEFINED_ROWS)?;
    check_each_edit(rt.alloc(), ZONES, Act::Define(false), &[])
}
