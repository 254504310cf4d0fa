//! Columns of ids, of lists of ids and of names, with texts that have no such form.

use crate::bad_rows::{NO_STATE, Part, check_with};
use sqlite_value::value::ValueRef;
use std::alloc::Global;
use std::test::Fail;

/// Columns of one id each, by the statements that set them, and texts that are not ids.
const IDS: &[&str] = &[
    "UPDATE ver SET fmid = ?1 WHERE id = 'AAA0003'",
    "UPDATE ifreq SET fmid = ?1 WHERE srel = 'Z039'",
    "UPDATE morever SET fmid = ?1 WHERE n = 3",
    "UPDATE moreif SET fmid = ?1 WHERE v = 3",
    "UPDATE hold SET id = ?1 WHERE kind = 'USER'",
    "UPDATE hold SET fmid = ?1 WHERE kind = 'USER'",
];

const ZONE_IDS: &[&str] = &[
    "UPDATE entry SET id = ?1 WHERE id = 'UAA0001'",
    "UPDATE entry SET delby = ?1 WHERE id = 'HAA1000'",
    "UPDATE zelem SET fmid = ?1 WHERE zone = 'TGT1' AND name = 'MAC2'",
    "UPDATE zelem SET rmid = ?1 WHERE zone = 'TGT1' AND name = 'MAC2'",
];

const NO_IDS: &[&str] = &["UAA001", "UAA00011", "uaa0001", ""];

/// Columns of lists of ids, and texts that are not lists of rising ids.
const LISTS: &[&str] = &[
    "UPDATE ver SET pre = ?1 WHERE id = 'HAA1200'",
    "UPDATE ver SET req = ?1 WHERE id = 'HAA1200'",
    "UPDATE ver SET sup = ?1 WHERE id = 'HAA1200'",
    "UPDATE ver SET npre = ?1 WHERE id = 'HAA1200'",
    "UPDATE ver SET del = ?1 WHERE id = 'HAA1200'",
    "UPDATE ifreq SET req = ?1 WHERE srel = 'Z039'",
    "UPDATE morever SET pre = ?1 WHERE n = 3",
    "UPDATE morever SET req = ?1 WHERE n = 3",
    "UPDATE morever SET sup = ?1 WHERE n = 3",
    "UPDATE moreif SET req = ?1 WHERE v = 3",
];

const ZONE_LISTS: &[&str] = &[
    "UPDATE entry SET supby = ?1 WHERE id = 'AAA0001'",
    "UPDATE entry SET waived = ?1 WHERE id = 'UAA0001'",
    "UPDATE zelem SET umid = ?1 WHERE zone = 'TGT1' AND name = 'MAC2'",
];

const NO_LISTS: &[&str] = &[
    "UZZ0002,UZZ0001",
    "UZZ0001,UZZ0001",
    "UZZ001",
    "UZZ0001,",
    ",UZZ0001",
    "UZZ0001 UZZ0002",
    ",",
    "-",
];

/// Columns of names, and texts that are not names.
const NAMES: &[&str] = &[
    "UPDATE elem SET name = ?1 WHERE type = 'CLIST'",
    "UPDATE elem SET distlib = ?1 WHERE type = 'CLIST'",
    "UPDATE elem SET syslib = ?1 WHERE type = 'CLIST'",
];

const ZONE_NAMES: &[&str] = &[
    "UPDATE zelem SET name = ?1 WHERE zone = 'TGT1' AND name = 'MAC2'",
    "UPDATE zelem SET distlib = ?1 WHERE zone = 'TGT1' AND name = 'MAC2'",
    "UPDATE zelem SET syslib = ?1 WHERE zone = 'TGT1' AND name = 'MAC2'",
];

const NO_NAMES: &[&str] = &["1CLS", "cls1", "LIBRARY01", "A B", "A,B", ""];

// Each of the texts gives this answer in each of the columns.
fn check_columns(alloc: Global, columns: &[&str], texts: &[&str], part: Part) -> Result<(), Fail> {
    for sql in columns {
        for text in texts {
            let value = ValueRef::Text(text.as_bytes());
            check_with(alloc, sql, text, value, part, NO_STATE)?;
        }
    }
    Ok(())
}

#[test]
fn texts_of_no_form_are_told_in_each_column(rt: HostRuntime) -> Result<(), Fail> {
    check_columns(rt.alloc(), IDS, NO_IDS, Part::Further)?;
    check_columns(rt.alloc(), ZONE_IDS, NO_IDS, Part::Zone)?;
    check_columns(rt.alloc(), LISTS, NO_LISTS, Part::Further)?;
    check_columns(rt.alloc(), ZONE_LISTS, NO_LISTS, Part::Zone)?;
    check_columns(rt.alloc(), NAMES, NO_NAMES, Part::Global)?;
    check_columns(rt.alloc(), ZONE_NAMES, NO_NAMES, Part::Zone)
}
