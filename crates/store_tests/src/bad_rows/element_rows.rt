//! Rows of element statements, and texts of elements.

use crate::bad_rows::{NO_STATE, Part, check, check_with};
use sqlite_value::value::ValueRef;
use std::alloc::Global;
use std::test::Fail;
use store_play::records;

/// Element statements.
const ELEMS: &[&str] = &[
    "UPDATE elem SET type = 'mac' WHERE id = 'HAA1100' AND type = 'MAC'",
    "UPDATE elem SET type = 'MACUPD' WHERE id = 'HAA1100' AND type = 'MAC'",
    "UPDATE elem SET type = '' WHERE id = 'HAA1100' AND type = 'MAC'",
    "UPDATE elem SET upd = 1 WHERE type = 'CLIST'",
    "UPDATE elem SET upd = 2 WHERE type = 'CLIST'",
    "UPDATE elem SET upd = -1 WHERE type = 'CLIST'",
    "UPDATE elem SET upd = 0 WHERE upd = 1",
    "UPDATE elem SET distlib = NULL WHERE type = 'CLIST'",
    "UPDATE elem SET distlib = 'ALIB' WHERE upd = 1",
    "UPDATE elem SET syslib = NULL WHERE type = 'CLIST'",
    "UPDATE elem SET syslib = 'ALIB' WHERE upd = 1",
    "UPDATE elem SET text = x'' WHERE type = 'CLIST'",
    "UPDATE elem SET text = x'41' WHERE type = 'CLIST'",
    "UPDATE elem SET text = x'' WHERE type = 'MAC' AND upd = 0",
    "UPDATE elem SET text = x'' WHERE upd = 1",
    "UPDATE elem SET type = 'DATA' WHERE upd = 1 AND type = 'MAC'",
    "UPDATE elem SET name = 'MAC3' WHERE upd = 1 AND type = 'MAC'",
    "UPDATE elem SET id = 'HAA1200' WHERE upd = 1 AND type = 'MAC'",
];

#[test]
fn elements_of_no_form_are_told(rt: HostRuntime) -> Result<(), Fail> {
    check(rt.alloc(), ELEMS, Part::Global, NO_STATE)
}

const REPLACED: &str = "UPDATE elem SET text = ?1 WHERE type = 'MAC' AND upd = 0";

const UPDATED: &str = "UPDATE elem SET text = ?1 WHERE upd = 1";

const INSTALLED: &str = "UPDATE zelem SET text = ?1 WHERE zone = 'TGT1' AND type = 'SRC'";

const NOWHERE: [bool; 3] = [false, false, false];

/// Records, a line each, with the number after a tab, and whether they are a text of a macro, an update of MAC1 and a
/// text of an installed source.
const TEXTS: &[(&str, [bool; 3])] = &[
    ("", [false, false, true]),
    ("A\t00000010\nB\t00000020", [true, false, true]),
    ("A\t00000020\nB\t00000010", NOWHERE),
    ("A\t00000010\nB\t00000010", NOWHERE),
    ("A", NOWHERE),
    ("A\t0000001A", NOWHERE),
    ("./ CHANGE NAME=MAC1\nA\t00000010", [false, true, false]),
    ("./ CHANGE NAME=MAC1\nA", NOWHERE),
    ("./ CHANGE NAME=MAC1\nA\t00000020\nB\t00000010", NOWHERE),
    ("./ CHANGE NAME=MAC1\nA\t00000010\nB\t00000010", NOWHERE),
    ("./ CHANGE NAME=MAC2\nA\t00000010", NOWHERE),
    ("./ CHANGE MAC1\nA\t00000010", NOWHERE),
    (
        "./ CHANGE NAME=MAC1\n./ DELETE SEQ1=00000020,SEQ2=00000010",
        NOWHERE,
    ),
    ("./ CHANGE NAME=MAC1\n./ DELETE SEQ1=10,SEQ2=20", NOWHERE),
];

// The text is loaded, or refused, wherever the statement puts its records.
fn check_text(
    alloc: Global,
    sql: &str,
    text: &str,
    part: Part,
    is_loaded: bool,
) -> Result<(), Fail> {
    let records = records(alloc, text)?;
    let wanted = if is_loaded { None } else { NO_STATE };
    let value = ValueRef::Blob(records.as_slice());
    check_with(alloc, sql, text, value, part, wanted)
}

#[test]
fn texts_of_no_form_are_told(rt: HostRuntime) -> Result<(), Fail> {
    for (text, uses) in TEXTS {
        let [is_text, is_update, is_installed] = *uses;
        check_text(rt.alloc(), REPLACED, text, Part::Global, is_text)?;
        check_text(rt.alloc(), UPDATED, text, Part::Global, is_update)?;
        check_text(rt.alloc(), INSTALLED, text, Part::Zone, is_installed)?;
    }
    Ok(())
}
