//! Rows of `++VER`s, the first ones of an SREL and further ones.

use crate::bad_rows::{NO_STATE, Part, check};
use std::test::Fail;

/// `++VER`s, by themselves and for the kind of their SYSMOD.
const VERS: &[&str] = &[
    "UPDATE ver SET srel = 'Z38' WHERE id = 'AAA0003'",
    "UPDATE ver SET srel = 'Z0380' WHERE id = 'AAA0003'",
    "UPDATE ver SET srel = 'z038' WHERE id = 'AAA0003'",
    "UPDATE ver SET srel = 'ZZ38' WHERE id = 'AAA0003'",
    "UPDATE ver SET srel = '' WHERE id = 'AAA0003'",
    "UPDATE ver SET fmid = NULL WHERE id = 'AAA0003'",
    "UPDATE ver SET fmid = id WHERE id = 'HAA1100'",
    "UPDATE ver SET pre = id WHERE id = 'HAA1200'",
    "UPDATE ver SET req = id WHERE id = 'HAA1200'",
    "UPDATE ver SET sup = id WHERE id = 'HAA1200'",
    "UPDATE ver SET npre = id WHERE id = 'HAA1200'",
    "UPDATE ver SET del = id WHERE id = 'HAA1200'",
    "UPDATE ver SET npre = 'HBB0001' WHERE id = 'AAA0003'",
    "UPDATE ver SET del = 'HBB0001' WHERE id = 'AAA0003'",
    "UPDATE sysmod SET kind = 'PTF' WHERE id = 'HAA1100'",
    "UPDATE sysmod SET kind = 'PTF' WHERE id = 'HAA1200'",
];

/// Edits of further `++VER`s that stay within what is allowed: eight `++VER`s in all, a further one for each of two
/// SRELs, and none.
const GOOD_FURTHER: &[&str] = &[
    "UPDATE morever SET pre = '', req = '', sup = ''",
    "INSERT INTO morever (id, srel, n, fmid, pre, req, sup) VALUES ('LLL0001', 'Z038', 4, 'HDD1104', '', '', ''), \
        ('LLL0001', 'Z038', 5, 'HDD1105', '', '', ''), ('LLL0001', 'Z038', 6, 'HDD1106', '', '', ''), ('LLL0001', \
        'Z038', 7, 'HDD1107', '', '', ''), ('LLL0001', 'Z038', 8, 'HDD1108', '', '', '')",
    "INSERT INTO ver (id, srel, fmid, pre, req, sup, npre, del) VALUES ('LLL0001', 'Z039', 'HAA1200', '', '', '', \
        '', ''); INSERT INTO morever (id, srel, n, fmid, pre, req, sup) VALUES ('LLL0001', 'Z039', 2, 'HAA1100', \
        '', '', '')",
    "DELETE FROM moreif",
    "DELETE FROM moreif; DELETE FROM morever",
];

/// Further `++VER`s: their numbers and SRELs, by themselves, and next to others of their SYSMOD.
const MOREVERS: &[&str] = &[
    "UPDATE morever SET n = 0 WHERE n = 3; UPDATE moreif SET v = 0 WHERE v = 3",
    "UPDATE morever SET n = 1 WHERE n = 3; UPDATE moreif SET v = 1 WHERE v = 3",
    "UPDATE morever SET n = -1 WHERE n = 3; UPDATE moreif SET v = -1 WHERE v = 3",
    "UPDATE morever SET n = 4 WHERE n = 3; UPDATE moreif SET v = 4 WHERE v = 3",
    "UPDATE morever SET n = 9223372036854775807 WHERE n = 3; UPDATE moreif SET v = 9223372036854775807 WHERE v = 3",
    "DELETE FROM morever WHERE n = 2; DELETE FROM moreif WHERE v = 2",
    "DELETE FROM ver WHERE id = 'LLL0001'",
    "DELETE FROM moreif; UPDATE morever SET srel = 'Z039' WHERE n = 3",
    "DELETE FROM moreif; DELETE FROM morever WHERE n = 3; UPDATE morever SET srel = 'Z039'",
    "DELETE FROM moreif; UPDATE morever SET srel = 'Z38' WHERE n = 3",
    "DELETE FROM moreif; UPDATE morever SET srel = 'z038' WHERE n = 3",
    "DELETE FROM moreif; UPDATE morever SET srel = '' WHERE n = 3",
    "DELETE FROM moreif; UPDATE morever SET id = 'AAA0003' WHERE n = 3",
    "UPDATE morever SET fmid = NULL WHERE n = 3",
    "UPDATE morever SET fmid = id WHERE n = 3",
    "UPDATE morever SET fmid = 'HAA1100' WHERE n = 3",
    "UPDATE morever SET fmid = 'HAA1200' WHERE n = 3",
    "UPDATE morever SET pre = id WHERE n = 3",
    "UPDATE morever SET req = id WHERE n = 3",
    "UPDATE morever SET sup = id WHERE n = 3",
    "INSERT INTO morever (id, srel, n, fmid, pre, req, sup) VALUES ('LLL0001', 'Z038', 4, 'HDD1104', '', '', ''), \
        ('LLL0001', 'Z038', 5, 'HDD1105', '', '', ''), ('LLL0001', 'Z038', 6, 'HDD1106', '', '', ''), ('LLL0001', \
        'Z038', 7, 'HDD1107', '', '', ''), ('LLL0001', 'Z038', 8, 'HDD1108', '', '', ''), ('LLL0001', 'Z038', 9, \
        'HDD1109', '', '', '')",
    "INSERT INTO morever (id, srel, n, fmid, pre, req, sup) VALUES ('HAA1200', 'Z038', 2, 'HCC1100', '', '', '')",
    "UPDATE sysmod SET kind = 'FUNCTION' WHERE id = 'LLL0001'",
];

#[test]
fn vers_that_stand_for_no_state_are_told(rt: HostRuntime) -> Result<(), Fail> {
    check(rt.alloc(), VERS, Part::Global, NO_STATE)?;
    check(rt.alloc(), GOOD_FURTHER, Part::Further, None)?;
    check(rt.alloc(), MOREVERS, Part::Further, NO_STATE)
}
