//! What is committed is loaded again, in memory and over files.

use fields::{Id, Source, ZoneName};
use sorted::TryClone;
use sqlite::{Alter, Connection, FileStore, MemStore};
use sqlite_disk::Memory;
use std::alloc::Global;
use std::test::Fail;
use store::{Change, Store};
use store_play::{
    CHOSEN, FURTHER, all_lines, commit_edits, commit_zone, compare, load_zone, open_in_memory,
    open_known_rows, open_new_files, open_store, query_lines, reopen, run_doubling,
};
use sysmods::{GlobalEdit, GlobalZone};
use sysmods_values::{Hold, Sysmod};
use terms::Kind;
use zones_maps::{Zone, ZoneEdits};

fn add_hold(alloc: Global, edits: &mut Vec<GlobalEdit>, hold: &Hold) -> Result<(), Fail> {
    edits.push(GlobalEdit::PutHold(hold.try_clone(alloc)?))?;
    Ok(())
}

// Each SYSMOD, followed by the holds on it.
fn add_sysmods(
    alloc: Global,
    edits: &mut Vec<GlobalEdit>,
    global: &GlobalZone,
) -> Result<(), Fail> {
    for sysmod in global.sysmods() {
        let sources = Vec::from_slice(alloc, sysmod.sources.as_slice())?;
        edits.push(GlobalEdit::InsertSysmod(sysmod.id, sources))?;
        for hold in global.holds() {
            if hold.id == sysmod.id {
                add_hold(alloc, edits, hold)?;
            }
        }
    }
    Ok(())
}

fn add_all(alloc: Global, edits: &mut Vec<GlobalEdit>, global: &GlobalZone) -> Result<(), Fail> {
    add_sysmods(alloc, edits, global)?;
    for hold in global.holds() {
        if global.get(hold.id).is_none() {
            add_hold(alloc, edits, hold)?;
        }
    }
    Ok(())
}

// The edits that make this global zone from an empty one.
fn edits_to(alloc: Global, global: &GlobalZone) -> Result<Change<'_>, Fail> {
    let mut edits = Vec::new(alloc);
    add_all(alloc, &mut edits, global)?;
    Ok(Change::Global(global, edits))
}

fn put_all(alloc: Global, edits: &mut ZoneEdits, zone: &Zone) -> Result<(), Fail> {
    for entry in zone.entries() {
        let entry = entry.try_clone(alloc)?;
        if entry.has_content() && entry.waives_only_if_applied() {
            edits.put_entry(entry)?;
        }
    }
    for element in zone.elements() {
        edits.put_element(element.try_clone(alloc)?)?;
    }
    Ok(())
}

/// The edits by which an empty zone becomes this one.
pub(crate) fn edits_of(alloc: Global, zone: &Zone) -> Result<ZoneEdits, Fail> {
    let mut edits = ZoneEdits::new(alloc);
    put_all(alloc, &mut edits, zone)?;
    Ok(edits)
}

fn copy_global<S: Alter, T: Alter>(
    alloc: Global,
    from: &mut Store<S>,
    to: &mut Store<T>,
) -> Result<(), Fail> {
    let global = from.load_global()?;
    Ok(to.commit(&edits_to(alloc, &global)?)?)
}

fn copy_zone<S: Alter, T: Alter>(
    alloc: Global,
    from: &mut Store<S>,
    to: &mut Store<T>,
    name: ZoneName,
) -> Result<(), Fail> {
    let zone = load_zone(from, name)?;
    let change = Change::NewZone(name, zone.kind(), zone.srel(), zone.related());
    to.commit(&change)?;
    commit_zone(alloc, to, name, edits_of(alloc, &zone)?)
}

// Commits all that one store holds to another that is empty.
fn copy_all<S: Alter, T: Alter>(
    alloc: Global,
    from: &mut Store<S>,
    to: &mut Store<T>,
) -> Result<(), Fail> {
    copy_global(alloc, from, to)?;
    for name in from.zone_names()? {
        copy_zone(alloc, from, to, name)?;
    }
    Ok(())
}

// A database without tables after all that another one holds is committed to it.
fn copied<S: Alter + Drop, T: Alter + Drop>(
    alloc: Global,
    from: Connection<S>,
    to: Connection<T>,
) -> Result<Connection<T>, Fail> {
    let mut from = open_store(alloc, from)?;
    let mut to = open_store(alloc, to)?;
    copy_all(alloc, &mut from, &mut to)?;
    Ok(to.close())
}

// The copy in files, which were closed and are opened again.
fn in_files<S: Alter + Drop>(
    alloc: Global,
    from: Connection<S>,
) -> Result<Connection<FileStore<Memory>>, Fail> {
    Ok(reopen(alloc, copied(alloc, from, open_new_files(alloc)?)?)?)
}

// The rows of the copy in memory.
fn rows_of_copy<S: Alter + Drop>(alloc: Global, from: Connection<S>) -> Result<String, Fail> {
    let mut conn = copied(alloc, from, open_in_memory(alloc)?)?;
    all_lines(alloc, &mut conn)
}

// Its contents are copied into files, and from there into memory.
fn copy_twice(alloc: Global, name: &str, mut conn: Connection<MemStore>) -> Result<(), Fail> {
    let rows = all_lines(alloc, &mut conn)?;
    let copy = rows_of_copy(alloc, in_files(alloc, conn)?)?;
    compare(name, copy.as_str(), rows.as_str())
}

#[test]
fn all_is_loaded_again(rt: HostRuntime) -> Result<(), Fail> {
    let alloc = rt.alloc();
    copy_twice(
        alloc,
        "with the number of a ++VER",
        open_known_rows(alloc, CHOSEN)?,
    )?;
    copy_twice(
        alloc,
        "with further ++VERs",
        open_known_rows(alloc, FURTHER)?,
    )
}

/// A SYSMOD that has rows in each table.
const FIRST: &[&str] = &[
    "INSERT INTO sysmod (id, kind, sources) VALUES ('U100000', 'USERMOD', '')",
    "INSERT INTO source (id, name) VALUES ('U100000', 'PUT2601'), ('U100000', 'SMCREC02')",
    "INSERT INTO ver (id, srel, fmid, pre, req, sup, npre, del) VALUES \
        ('U100000', 'Z038', 'HAA1100', 'UAA0001', '', 'U100999', '', '')",
    "INSERT INTO ifreq (id, srel, n, fmid, req) VALUES ('U100000', 'Z038', 1, 'HBB1100', 'UBB0001')",
    "INSERT INTO morever (id, srel, n, fmid, pre, req, sup) VALUES ('U100000', 'Z038', 2, 'HAA1200', '', '', '')",
    "INSERT INTO moreif (id, srel, v, n, fmid, req) VALUES ('U100000', 'Z038', 2, 1, 'HCC1100', 'UCC0001')",
    "INSERT INTO elem SELECT 'U100000', type, name, upd, distlib, syslib, text FROM elem WHERE id = 'HAA1100' AND \
        (type = 'MAC' OR type = 'SRC')",
    "INSERT INTO hold (id, kind, reason, fmid, class, date, comment, internal) VALUES \
        ('U100000', 'SYSTEM', 'ACTION', 'HAA1100', NULL, NULL, NULL, 1)",
];

/// As many again, by numbers that are greater by this one.
const AGAIN: &[&str] = &[
    "INSERT INTO sysmod SELECT 'U' || (CAST(substr(id, 2) AS INTEGER) + ?1), kind, sources FROM sysmod \
        WHERE id >= 'U1' AND id < 'U2'",
    "INSERT INTO source SELECT 'U' || (CAST(substr(id, 2) AS INTEGER) + ?1), name FROM source \
        WHERE id >= 'U1' AND id < 'U2'",
    "INSERT INTO ver SELECT 'U' || (CAST(substr(id, 2) AS INTEGER) + ?1), srel, fmid, pre, req, sup, npre, del \
        FROM ver WHERE id >= 'U1' AND id < 'U2'",
    "INSERT INTO ifreq SELECT 'U' || (CAST(substr(id, 2) AS INTEGER) + ?1), srel, n, fmid, req FROM ifreq \
        WHERE id >= 'U1' AND id < 'U2'",
    "INSERT INTO morever SELECT 'U' || (CAST(substr(id, 2) AS INTEGER) + ?1), srel, n, fmid, pre, req, sup \
        FROM morever WHERE id >= 'U1' AND id < 'U2'",
    "INSERT INTO moreif SELECT 'U' || (CAST(substr(id, 2) AS INTEGER) + ?1), srel, v, n, fmid, req FROM moreif \
        WHERE id >= 'U1' AND id < 'U2'",
    "INSERT INTO elem SELECT 'U' || (CAST(substr(id, 2) AS INTEGER) + ?1), type, name, upd, distlib, syslib, text \
        FROM elem WHERE id >= 'U1' AND id < 'U2'",
    "INSERT INTO hold SELECT 'U' || (CAST(substr(id, 2) AS INTEGER) + ?1), kind, reason, fmid, class, date, comment, \
        internal FROM hold WHERE id >= 'U1' AND id < 'U2'",
];

// The known rows, and 512 SYSMODs in addition.
fn many_sysmods(alloc: Global) -> Result<Connection<MemStore>, Fail> {
    let mut conn = open_known_rows(alloc, FIRST)?;
    for sql in AGAIN {
        run_doubling(&mut conn, sql, 9)?;
    }
    Ok(conn)
}

#[test]
fn many_sysmods_come_in_one_commit(rt: HostRuntime) -> Result<(), Fail> {
    copy_twice(rt.alloc(), "512 SYSMODs", many_sysmods(rt.alloc())?)
}

/// The rows of one SYSMOD and of those next to it.
const BESIDE: &str =
    "SELECT id||' '||kind FROM sysmod WHERE id >= 'U100099' AND id <= 'U100101' UNION ALL SELECT id||' '||name FROM \
        source WHERE id >= 'U100099' AND id <= 'U100101' UNION ALL SELECT id||' '||reason FROM hold WHERE id >= \
        'U100099' AND id <= 'U100101' ORDER BY 1";

// The one goes, or has one source instead of two.
fn edit_of_one(alloc: Global, goes: bool) -> Result<GlobalEdit, Fail> {
    let id = Id::read(b"U100100").ok_or("no id")?;
    if goes {
        return Ok(GlobalEdit::RemoveSysmod(id));
    }
    let mut sysmod = Sysmod::new(alloc, Kind::Usermod, id);
    sysmod.insert_source(Source::read(b"PUT2602").ok_or("no source")?)?;
    Ok(GlobalEdit::ReplaceSources(sysmod))
}

// Edits that insert all SYSMODs, and then the edit of the one.
fn come_and_change(
    alloc: Global,
    global: &GlobalZone,
    goes: bool,
) -> Result<Vec<GlobalEdit>, Fail> {
    let mut edits = Vec::new(alloc);
    add_all(alloc, &mut edits, global)?;
    edits.push(edit_of_one(alloc, goes)?)?;
    Ok(edits)
}

fn rows_behind(alloc: Global, goes: bool) -> Result<String, Fail> {
    let global = open_store(alloc, many_sysmods(alloc)?)?.load_global()?;
    let mut store = open_store(alloc, open_in_memory(alloc)?)?;
    store.commit(&Change::Global(&global, come_and_change(alloc, &global, goes)?))?;
    query_lines(alloc, &mut store.close(), BESIDE)
}

#[test]
fn a_sysmod_comes_and_goes_in_one_commit(rt: HostRuntime) -> Result<(), Fail> {
    let rows = rows_behind(rt.alloc(), true)?;
    compare(
        "it goes",
        rows.as_str(),
        "U100099 ACTION\nU100099 PUT2601\nU100099 SMCREC02\nU100099 USERMOD\nU100100 ACTION\nU100101 ACTION\n\
        U100101 PUT2601\nU100101 SMCREC02\nU100101 USERMOD\n",
    )
}

#[test]
fn a_sysmod_comes_and_gets_other_sources_in_one_commit(rt: HostRuntime) -> Result<(), Fail> {
    let rows = rows_behind(rt.alloc(), false)?;
    compare(
        "it gets other sources",
        rows.as_str(),
        "U100099 ACTION\nU100099 PUT2601\nU100099 SMCREC02\nU100099 USERMOD\nU100100 ACTION\nU100100 PUT2602\n\
        U100100 USERMOD\nU100101 ACTION\nU100101 PUT2601\nU100101 SMCREC02\nU100101 USERMOD\n",
    )
}

/// The rows of further `++VER`s and of their `++IF`s.
const FURTHER_LINES: &str =
    "SELECT id||' '||srel||' '||n||' '||ifnull(fmid, '-')||' '||pre||'/'||req||'/'||sup FROM morever UNION ALL \
        SELECT id||' '||srel||' '||v||'.'||n||' '||fmid||' '||req FROM moreif ORDER BY 1";

fn rejection(alloc: Global) -> Result<Vec<GlobalEdit>, Fail> {
    let id = Id::read(b"LLL0001").ok_or("no id")?;
    Ok(vec![in alloc; GlobalEdit::RemoveSysmod(id)]?)
}

// The rows of further `++VER`s that are left when their SYSMOD is removed.
fn left_of_further(alloc: Global) -> Result<String, Fail> {
    let mut store = open_store(alloc, open_known_rows(alloc, FURTHER)?)?;
    commit_edits(alloc, &mut store, rejection(alloc)?)?;
    query_lines(alloc, &mut store.close(), FURTHER_LINES)
}

#[test]
fn further_vers_go_with_their_sysmod(rt: HostRuntime) -> Result<(), Fail> {
    let left = left_of_further(rt.alloc())?;
    compare("further ++VERs and their ++IFs", left.as_str(), "")
}
