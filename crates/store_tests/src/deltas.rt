//! A delta that is committed, and applied beside the zone that it was made of.

use fields::{Id, IdList, Name, VerNumber, YyDdd};
use sorted::TryClone;
use sqlite::{Connection, MemStore};
use std::alloc::Global;
use std::test::Fail;
use store::{Change, Store};
use store_play::{CHOSEN, compare, load_zone, open_known_rows, open_store, query_lines, zone_name};
use terms::ElemType;
use zones_maps::{
    Applied, Element, Entry, Zone, ZoneDelta, ZoneEdits, are_same_elements, are_same_entries,
};

fn id(text: &[u8]) -> Result<Id, Fail> {
    Ok(Id::read(text).ok_or("no id")?)
}

fn name(text: &[u8]) -> Result<Name, Fail> {
    Ok(Name::read(text).ok_or("no name")?)
}

// Puts an entry that is installed on 24.140 by the second `++VER`.
fn put_second(alloc: Global, edits: &mut ZoneEdits, id: Id) -> Result<(), Fail> {
    let date = YyDdd::read(b"24.140").ok_or("no date")?;
    let entry = Entry {
        id,
        applied: Some(Applied {
            date,
            number: VerNumber::new(2),
        }),
        supby: IdList::new(alloc),
        delby: None,
        waived: IdList::new(alloc),
    };
    if entry.has_content() && entry.waives_only_if_applied() {
        edits.put_entry(entry)?;
    }
    Ok(())
}

// Puts an element as this one, but with another name, that a PTF has replaced.
fn put_replaced(
    alloc: Global,
    edits: &mut ZoneEdits,
    element: &Element,
    name: Name,
) -> Result<(), Fail> {
    let element = element.try_clone(alloc)?;
    let replaced = Element {
        elem_type: element.elem_type,
        name,
        fmid: element.fmid,
        rmid: id(b"UAA0001")?,
        umids: element.umids,
        distlib: element.distlib,
        syslib: element.syslib,
        text: element.text,
    };
    edits.put_element(replaced)?;
    Ok(())
}

// Edits of TGT1. Of the entries UAA0001, whose number has a row, goes, HAA1100 gets a number, and UAA0009 comes; an
// entry that is not there goes too. Of the elements MAC2 goes, MAC1 is replaced, and MAC9 comes.
fn edits(alloc: Global, zone: &Zone) -> Result<ZoneEdits, Fail> {
    let mut edits = ZoneEdits::new(alloc);
    edits.remove_entry(id(b"UAA0001")?)?;
    edits.remove_entry(id(b"UZZ0001")?)?;
    put_second(alloc, &mut edits, id(b"HAA1100")?)?;
    put_second(alloc, &mut edits, id(b"UAA0009")?)?;
    let mac1 = zone
        .element(ElemType::Mac, name(b"MAC1")?)
        .ok_or("no MAC1")?;
    edits.remove_element(ElemType::Mac, name(b"MAC2")?)?;
    put_replaced(alloc, &mut edits, mac1, name(b"MAC1")?)?;
    put_replaced(alloc, &mut edits, mac1, name(b"MAC9")?)?;
    Ok(edits)
}

/// The rows of TGT1: entries with their numbers, and macros.
const TGT1: &str =
    "SELECT entry.id||' '||ifnull(date, '-')||' '||ifnull(n, 1) FROM entry LEFT JOIN chosen ON chosen.zone = \
        entry.zone AND chosen.id = entry.id WHERE entry.zone = 'TGT1' UNION ALL SELECT name||' '||rmid FROM zelem \
        WHERE zone = 'TGT1' AND type = 'MAC' ORDER BY 1";

const TGT1_LINES: &str = "AAA0001 - 1\nHAA1000 - 1\nHAA1100 24.140 2\nMAC1 UAA0001\nMAC9 UAA0001\n\
    UAA0009 24.140 2\n";

// Commits the edits, and what they leave when they are applied beside the zone.
fn committed(alloc: Global, store: &mut Store<MemStore>) -> Result<Zone, Fail> {
    let zone = load_zone(store, zone_name(b"TGT1")?)?;
    let delta = ZoneDelta::from_edits(alloc, edits(alloc, &zone)?, &zone)?;
    let applied = delta.apply(alloc, &zone)?;
    store.commit(&Change::Zone(zone_name(b"TGT1")?, delta))?;
    Ok(applied)
}

fn store(alloc: Global) -> Result<Store<MemStore>, Fail> {
    open_store(alloc, open_known_rows(alloc, CHOSEN)?)
}

// The connection once the edits are committed.
fn edited(alloc: Global) -> Result<Connection<MemStore>, Fail> {
    let mut store = store(alloc)?;
    committed(alloc, &mut store)?;
    Ok(store.close())
}

#[test]
fn a_delta_writes_its_rows(rt: HostRuntime) -> Result<(), Fail> {
    let rows = query_lines(rt.alloc(), &mut edited(rt.alloc())?, TGT1)?;
    compare("the rows of TGT1", rows.as_str(), TGT1_LINES)
}

fn have_same_entries(a: &[Entry], b: &[Entry]) -> bool {
    a.len() == b.len() && a.iter().zip(b).all(|(x, y)| are_same_entries(x, y))
}

fn have_same_elements(a: &[Element], b: &[Element]) -> bool {
    a.len() == b.len()
        && a.iter()
            .zip(b)
            .all(|(x, y)| are_same_elements(Some(x), Some(y)))
}

#[test]
fn an_applied_delta_gives_the_zone_that_is_loaded(rt: HostRuntime) -> Result<(), Fail> {
    let mut store = store(rt.alloc())?;
    let applied = committed(rt.alloc(), &mut store)?;
    let zone = load_zone(&mut store, zone_name(b"TGT1")?)?;
    assert_eq!(rt; (zone.entries().len(), zone.elements().len()), (4, 8));
    assert!(rt; have_same_entries(applied.entries(), zone.entries()));
    assert!(rt; have_same_elements(applied.elements(), zone.elements()));
    assert_eq!(rt;
        (applied.kind(), applied.srel(), applied.related()),
        (zone.kind(), zone.srel(), zone.related())
    );
    Ok(())
}
