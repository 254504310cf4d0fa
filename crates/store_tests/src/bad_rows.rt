//! Rows edited by hand so that they stand for no state, table by table.

mod columns;
mod element_rows;
mod hold_rows;
mod if_rows;
mod meta_rows;
mod sysmod_rows;
mod ver_rows;
mod zone_rows;

use sqlite::{Alter, Connection, MemStore};
use sqlite_value::value::ValueRef;
use std::alloc::Global;
use std::test::Fail;
use store::Store;
use store_play::{FURTHER, open_known_rows, run, zone_name};
use store_schema::StoreError;

/// What is loaded from a store.
#[derive(Clone, Copy)]
enum Part {
    Global,
    /// The global zone, with further `++VER`s.
    Further,
    Zone,
    Names,
    Heads,
}

/// The rows stand for no state.
const NO_STATE: Option<StoreError> = Some(StoreError::NoState);

fn fault_of_part<S: Alter>(store: &mut Store<S>, part: Part) -> Result<Option<StoreError>, Fail> {
    Ok(match part {
        Part::Global | Part::Further => store.load_global().err(),
        Part::Zone => store.load_zone(zone_name(b"TGT1")?).err(),
        Part::Names => store.zone_names().err(),
        Part::Heads => store.zone_heads().err(),
    })
}

// Why the store is not opened, or the part is not loaded, if it is not.
fn fault<S: Alter + Drop>(
    alloc: Global,
    conn: Connection<S>,
    part: Part,
) -> Result<Option<StoreError>, Fail> {
    if !conn.is_autocommit() {
        return Err(Fail::from("a transaction is under way"));
    }
    match Store::open(alloc, conn) {
        Ok(mut store) => fault_of_part(&mut store, part),
        Err((_, error)) => Ok(Some(error)),
    }
}

// The known rows, including those of further `++VER`s if the part needs them.
fn known_for(alloc: Global, part: Part) -> Result<Connection<MemStore>, Fail> {
    match part {
        Part::Further => open_known_rows(alloc, FURTHER),
        _ => open_known_rows(alloc, &[]),
    }
}

// The known rows, changed by these statements.
fn edited(alloc: Global, sql: &str, part: Part) -> Result<Connection<MemStore>, Fail> {
    let mut conn = known_for(alloc, part)?;
    conn.execute_batch(sql)?;
    Ok(conn)
}

// The part gives this answer after each of these edits of the known rows.
fn check(
    alloc: Global,
    edits: &[&str],
    part: Part,
    wanted: Option<StoreError>,
) -> Result<(), Fail> {
    for sql in edits {
        let got = fault(alloc, edited(alloc, sql, part)?, part)?;
        if got != wanted {
            return Err(Fail::new(format_args!("{sql}: got {got:?}, wanted {wanted:?}")));
        }
    }
    Ok(())
}

// The part gives this answer once the statement with this value, made from the text, has changed the known rows.
fn check_with(
    alloc: Global,
    sql: &str,
    text: &str,
    value: ValueRef<'_>,
    part: Part,
    wanted: Option<StoreError>,
) -> Result<(), Fail> {
    let mut conn = known_for(alloc, part)?;
    run(&mut conn, sql, &[value])?;
    let got = fault(alloc, conn, part)?;
    if got == wanted {
        return Ok(());
    }
    Err(Fail::new(format_args!("{sql} {text}: got {got:?}, wanted {wanted:?}")))
}

/// Edits that stay within what is allowed: loops of REQ and of several SRELs may exist.
const GOOD: &[&str] = &[
    "UPDATE ver SET req = 'UAA0001' WHERE id = 'LLL0001'",
    "UPDATE ver SET req = 'LLL0001' WHERE id = 'UAA0001' AND srel = 'Z038'",
    "UPDATE ver SET pre = 'LLL0001' WHERE id = 'UAA0001' AND srel = 'Z039'",
    "UPDATE ver SET npre = 'UAA0001' WHERE id = 'HAA1200'",
    "UPDATE sysmod SET kind = 'USERMOD' WHERE id = 'UAA0001'",
    "UPDATE hold SET fmid = id WHERE kind = 'USER'",
    "UPDATE hold SET internal = 0 WHERE kind = 'SYSTEM'",
    "UPDATE zelem SET umid = '' WHERE zone = 'DLB1'",
];

#[test]
fn rows_that_stand_for_a_state_are_loaded(rt: HostRuntime) -> Result<(), Fail> {
    check(rt.alloc(), GOOD, Part::Global, None)?;
    check(rt.alloc(), GOOD, Part::Zone, None)?;
    check(rt.alloc(), GOOD, Part::Names, None)?;
    check(rt.alloc(), GOOD, Part::Heads, None)
}
