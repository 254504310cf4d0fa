//! Removals, sources that replace others, and what a commit leaves alone.

use crate::round_trip::edits_of;
use fields::{Id, IdList, Name, Reason, Source, VerNumber, YyDdd};
use sqlite::{Alter, Connection};
use std::alloc::Global;
use std::test::Fail;
use store::{Change, Store};
use store_play::{
    all_lines, commit_edits, commit_zone, compare, load_zone, open_known_rows, open_store,
    query_lines, run, run_all, run_doubling, zone_name,
};
use store_schema::StoreError;
use sysmods::GlobalEdit;
use sysmods_values::Sysmod;
use terms::{ElemType, HoldKind, Kind};
use zones_maps::{Applied, Entry, Zone, ZoneDelta, ZoneEdits};

fn id(text: &[u8]) -> Result<Id, Fail> {
    Ok(Id::read(text).ok_or("no id")?)
}

// An entry and an element of TGT1 go.
fn removals(alloc: Global) -> Result<ZoneEdits, Fail> {
    let mut edits = ZoneEdits::new(alloc);
    edits.remove_entry(id(b"UAA0001")?)?;
    edits.remove_element(ElemType::Mac, Name::read(b"MAC2").ok_or("no name")?)?;
    Ok(edits)
}

// A source of 64 characters.
const LONG: &[u8] = b"PUT2401$RSU2404#PUT2401$RSU2404#PUT2401$RSU2404#PUT2401$RSU2404#";

fn new_sources(alloc: Global) -> Result<Vec<GlobalEdit>, Fail> {
    let mut sysmod = Sysmod::new(alloc, Kind::Apar, id(b"AAA0003")?);
    sysmod.insert_source(Source::read(b"PUT2402").ok_or("no source")?)?;
    sysmod.insert_source(Source::read(LONG).ok_or("no source")?)?;
    Ok(vec![in alloc; GlobalEdit::ReplaceSources(sysmod)]?)
}

// A hold and a SYSMOD go.
fn rejections(alloc: Global) -> Result<Vec<GlobalEdit>, Fail> {
    let reason = Reason::read(b"MINE").ok_or("no reason")?;
    Ok(vec![in alloc;
        GlobalEdit::RemoveHold(id(b"UZZ9999")?, HoldKind::User, reason),
        GlobalEdit::RemoveSysmod(id(b"LLL0001")?),
    ]?)
}

fn commit_all<S: Alter>(alloc: Global, store: &mut Store<S>) -> Result<(), Fail> {
    commit_zone(alloc, store, zone_name(b"TGT1")?, removals(alloc)?)?;
    commit_edits(alloc, store, new_sources(alloc)?)?;
    commit_edits(alloc, store, rejections(alloc)?)
}

const LEFT: &str =
    "SELECT id||' '||kind FROM sysmod UNION ALL SELECT id||' '||name FROM source UNION ALL SELECT id||' '||reason \
        FROM hold UNION ALL SELECT zone||' '||id FROM entry UNION ALL SELECT zone||' '||name FROM zelem WHERE type \
        = 'MAC' ORDER BY 1";

// The rows that are left of the known ones.
fn left<S: Alter + Drop>(alloc: Global, known: Connection<S>) -> Result<String, Fail> {
    let mut store = open_store(alloc, known)?;
    commit_all(alloc, &mut store)?;
    query_lines(alloc, &mut store.close(), LEFT)
}

const LEFT_LINES: &str =
    "AAA0003 APAR\nAAA0003 PUT2401$RSU2404#PUT2401$RSU2404#PUT2401$RSU2404#PUT2401$RSU2404#\n\
    AAA0003 PUT2402\nDLB1 HAA1100\nDLB1 MAC1\nHAA1100 FUNCTION\nHAA1200 FUNCTION\nHAA1200 PUT2401\n\
    HAA1200 SMCREC01\nTGT1 AAA0001\nTGT1 HAA1000\nTGT1 HAA1100\nTGT1 MAC1\nUAA0001 AAA0009\nUAA0001 ACTION\n\
    UAA0001 DOC\nUAA0001 PTF\nUAA0001 PUT2401\n";

#[test]
fn rows_go_and_are_replaced(rt: HostRuntime) -> Result<(), Fail> {
    let got = left(rt.alloc(), open_known_rows(rt.alloc(), &[])?)?;
    compare("what is left", got.as_str(), LEFT_LINES)
}

// The answer for entries and elements of TGT1 in an undefined zone.
fn told_of_no_zone<S: Alter>(
    alloc: Global,
    store: &mut Store<S>,
) -> Result<Result<(), StoreError>, Fail> {
    let zone = load_zone(store, zone_name(b"TGT1")?)?;
    let delta = ZoneDelta::from_edits(alloc, edits_of(alloc, &zone)?, &zone)?;
    Ok(store.commit(&Change::Zone(zone_name(b"TGT9")?, delta)))
}

#[test]
fn a_zone_that_is_not_there_takes_no_entries(rt: HostRuntime) -> Result<(), Fail> {
    let mut store = open_store(rt.alloc(), open_known_rows(rt.alloc(), &[])?)?;
    let told = told_of_no_zone(rt.alloc(), &mut store)?;
    assert_eq!(rt; told, Err(StoreError::Fault));
    Ok(())
}

/// The first of many entries of DLB1, and of many elements.
const FIRST: &str =
    "INSERT INTO entry VALUES ('DLB1', 'U100000', '24.138', '', NULL, ''); INSERT INTO zelem VALUES ('DLB1', \
        'MAC', 'M100000', 'HAA1100', 'HAA1100', '', 'AMACLIB', 'MACLIB', x'')";

/// As many again, by numbers that are greater by this one.
const AGAIN: &[&str] = &[
    "INSERT INTO entry SELECT zone, 'U' || (CAST(substr(id, 2) AS INTEGER) + ?1), date, supby, delby, waived FROM \
        entry WHERE id >= 'U1' AND id < 'U2'",
    "INSERT INTO zelem SELECT zone, type, 'M' || (CAST(substr(name, 2) AS INTEGER) + ?1), fmid, rmid, umid, \
        distlib, syslib, text FROM zelem WHERE name >= 'M1' AND name < 'M2'",
];

// 1,024 entries and as many elements.
fn add_many<S: Alter>(conn: &mut Connection<S>) -> Result<(), Fail> {
    conn.execute_batch(FIRST)?;
    for sql in AGAIN {
        run_doubling(conn, sql, 10)?;
    }
    Ok(())
}

// This entry of DLB1 is installed so.
fn put_applied(alloc: Global, id: Id, applied: Option<Applied>) -> Result<ZoneEdits, Fail> {
    let mut edits = ZoneEdits::new(alloc);
    let entry = Entry {
        id,
        applied,
        supby: IdList::new(alloc),
        delby: None,
        waived: IdList::new(alloc),
    };
    if entry.has_content() && entry.waives_only_if_applied() {
        edits.put_entry(entry)?;
    }
    Ok(edits)
}

/// The rows of all entries except that one, and of all elements, by their places.
const OTHERS: &str =
    "SELECT rowid||' '||zone||' '||id||' '||ifnull(date, '-') FROM entry WHERE id <> 'U100500' UNION ALL SELECT \
        rowid||' '||zone||' '||type||' '||name FROM zelem";

const CHANGED: &str = "SELECT zone||' '||id||' '||date FROM entry WHERE id = 'U100500'";

// The database once that entry has another date.
fn with_entry<S: Alter + Drop>(alloc: Global, conn: Connection<S>) -> Result<Connection<S>, Fail> {
    let applied = Applied::on(YyDdd::read(b"24.139").ok_or("no date")?);
    let edits = put_applied(alloc, id(b"U100500")?, Some(applied))?;
    let mut store = open_store(alloc, conn)?;
    commit_zone(alloc, &mut store, zone_name(b"DLB1")?, edits)?;
    Ok(store.close())
}

#[test]
fn other_rows_stay(rt: HostRuntime) -> Result<(), Fail> {
    let mut conn = open_known_rows(rt.alloc(), &[])?;
    add_many(&mut conn)?;
    let before = query_lines(rt.alloc(), &mut conn, OTHERS)?;
    let mut conn = with_entry(rt.alloc(), conn)?;
    let others = query_lines(rt.alloc(), &mut conn, OTHERS)?;
    compare("other rows", others.as_str(), before.as_str())?;
    let changed = query_lines(rt.alloc(), &mut conn, CHANGED)?;
    compare("the row", changed.as_str(), "DLB1 U100500 24.139\n")
}

// The entry of DLB1, installed by the `++VER` of this number.
fn numbered(alloc: Global, number: usize) -> Result<ZoneEdits, Fail> {
    if number == 0 || number > i64::MAX as usize {
        return Err(Fail::from("no number"));
    }
    let date = YyDdd::read(b"23.001").ok_or("no date")?;
    let number = VerNumber::new(number);
    put_applied(alloc, id(b"HAA1100")?, Some(Applied { date, number }))
}

// Puts the entry with this number, or takes it out.
fn commit_number<S: Alter>(
    alloc: Global,
    store: &mut Store<S>,
    number: Option<usize>,
) -> Result<(), Fail> {
    let zone = zone_name(b"DLB1")?;
    let Some(number) = number else {
        let mut edits = ZoneEdits::new(alloc);
        edits.remove_entry(id(b"HAA1100")?)?;
        return commit_zone(alloc, store, zone, edits);
    };
    commit_zone(alloc, store, zone, numbered(alloc, number)?)
}

// The number of the entry that is loaded, if there is one.
fn number_loaded<S: Alter>(store: &mut Store<S>) -> Result<Option<usize>, Fail> {
    let zone = load_zone(store, zone_name(b"DLB1")?)?;
    let Some(applied) = zone.applied(id(b"HAA1100")?) else {
        return Ok(None);
    };
    Ok(Some(applied.number.get()))
}

// The same after these commits, one after the other.
fn number_after<S: Alter>(
    alloc: Global,
    store: &mut Store<S>,
    numbers: &[Option<usize>],
) -> Result<Option<usize>, Fail> {
    for number in numbers {
        commit_number(alloc, store, *number)?;
    }
    number_loaded(store)
}

const NUMBERS: &str = "SELECT zone||' '||id||' '||n FROM chosen ORDER BY zone, id";

// The rows of numbers after these commits, and the number that is loaded.
fn numbers_after(
    alloc: Global,
    numbers: &[Option<usize>],
) -> Result<(String, Option<usize>), Fail> {
    let mut store = open_store(alloc, open_known_rows(alloc, &[])?)?;
    let loaded = number_after(alloc, &mut store, numbers)?;
    Ok((query_lines(alloc, &mut store.close(), NUMBERS)?, loaded))
}

/// Numbers of the entry, which has 1, put one after the other or taken out, the rows that they leave, and what is
/// loaded.
const PUT_NUMBERS: &[(&[Option<usize>], &str, Option<usize>)] = &[
    (&[Some(1)], "", Some(1)),
    (&[Some(2)], "DLB1 HAA1100 2\n", Some(2)),
    (&[Some(2), Some(2)], "DLB1 HAA1100 2\n", Some(2)),
    (&[Some(2), Some(7)], "DLB1 HAA1100 7\n", Some(7)),
    (
        &[Some(9_223_372_036_854_775_807)],
        "DLB1 HAA1100 9223372036854775807\n",
        Some(9_223_372_036_854_775_807),
    ),
    (&[Some(2), Some(1)], "", Some(1)),
    (&[None], "", None),
    (&[None, Some(1)], "", Some(1)),
    (&[None, Some(2)], "DLB1 HAA1100 2\n", Some(2)),
    (&[Some(2), None], "", None),
    (&[Some(2), None, Some(1)], "", Some(1)),
];

#[test]
fn numbers_are_put(rt: HostRuntime) -> Result<(), Fail> {
    for (numbers, rows, loaded) in PUT_NUMBERS {
        let got = numbers_after(rt.alloc(), numbers)?;
        assert_eq!(rt; (got.0.as_str(), got.1), (*rows, *loaded));
    }
    Ok(())
}

/// Edits of a row in each table, after which the rows stand for no state.
const BAD: &[&str] = &[
    "UPDATE sysmod SET kind = 'ptf' WHERE id = 'UAA0001'",
    "UPDATE source SET name = 'put2401' WHERE id = 'UAA0001'",
    "UPDATE ver SET pre = 'LLL0001' WHERE id = 'UAA0001' AND srel = 'Z038'",
    "DELETE FROM ver WHERE id = 'AAA0003'",
    "UPDATE ifreq SET n = 3 WHERE n = 2",
    "UPDATE elem SET type = 'mac' WHERE id = 'HAA1100' AND type = 'MAC'",
    "UPDATE hold SET date = '24000' WHERE kind = 'ERROR'",
    "UPDATE zone SET kind = 'dlib' WHERE name = 'TGT1'",
    "UPDATE entry SET date = '' WHERE zone = 'TGT1' AND id = 'HAA1100'",
    "UPDATE zelem SET fmid = '' WHERE zone = 'TGT1' AND name = 'MAC1'",
    "INSERT INTO chosen (zone, id, n) VALUES ('TGT1', 'HAA1000', 2)",
];

/// What the removals and the new sources do to the rows.
const WRITTEN: &[&str] = &[
    "DELETE FROM entry WHERE zone = 'TGT1' AND id = 'UAA0001'",
    "DELETE FROM zelem WHERE zone = 'TGT1' AND type = 'MAC' AND name = 'MAC2'",
    "INSERT INTO source (id, name) VALUES ('AAA0003', 'PUT2402')",
    "INSERT INTO source (id, name) VALUES ('AAA0003', \
        'PUT2401$RSU2404#PUT2401$RSU2404#PUT2401$RSU2404#PUT2401$RSU2404#')",
];

fn commit_two<S: Alter>(alloc: Global, store: &mut Store<S>, zone: &Zone) -> Result<(), Fail> {
    let delta = ZoneDelta::from_edits(alloc, removals(alloc)?, zone)?;
    store.commit(&Change::Zone(zone_name(b"TGT1")?, delta))?;
    commit_edits(alloc, store, new_sources(alloc)?)
}

// All rows once one is bad and both are committed. The zone is as it was before.
fn rows_committed(alloc: Global, bad: &str) -> Result<String, Fail> {
    let mut store = open_store(alloc, open_known_rows(alloc, &[])?)?;
    let zone = load_zone(&mut store, zone_name(b"TGT1")?)?;
    let mut conn = store.close();
    run(&mut conn, bad, &[])?;
    let mut store = open_store(alloc, conn)?;
    commit_two(alloc, &mut store, &zone)?;
    all_lines(alloc, &mut store.close())
}

// All rows once one is bad and these statements are run.
fn rows_written(alloc: Global, bad: &str) -> Result<String, Fail> {
    let mut conn = open_known_rows(alloc, &[bad])?;
    run_all(&mut conn, WRITTEN)?;
    all_lines(alloc, &mut conn)
}

#[test]
fn bad_rows_and_all_others_stay(rt: HostRuntime) -> Result<(), Fail> {
    let alloc = rt.alloc();
    for bad in BAD {
        let got = rows_committed(alloc, bad)?;
        let wanted = rows_written(alloc, bad)?;
        compare(bad, got.as_str(), wanted.as_str())?;
    }
    Ok(())
}
