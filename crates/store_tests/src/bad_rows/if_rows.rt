//! Rows of `++IF`s, of the first `++VER` of an SREL and of further ones.

use crate::bad_rows::{NO_STATE, Part, check};
use std::test::Fail;

/// `++IF`s.
const IFS: &[&str] = &[
    "UPDATE ifreq SET srel = 'Z040' WHERE srel = 'Z039'",
    "UPDATE ifreq SET srel = 'Z38' WHERE srel = 'Z039'",
    "UPDATE ifreq SET id = 'AAA0003' WHERE srel = 'Z039'",
    "UPDATE ifreq SET n = 0 WHERE srel = 'Z039'",
    "UPDATE ifreq SET n = -1 WHERE srel = 'Z039'",
    "UPDATE ifreq SET n = 2 WHERE srel = 'Z039'",
    "UPDATE ifreq SET n = 9223372036854775807 WHERE srel = 'Z039'",
    "UPDATE ifreq SET n = 3 WHERE n = 2",
    "DELETE FROM ifreq WHERE n = 1 AND srel = 'Z038'",
    "UPDATE ifreq SET req = '' WHERE srel = 'Z039'",
    "UPDATE ifreq SET req = id WHERE srel = 'Z039'",
];

/// The `++IF`s of further `++VER`s.
const MOREIFS: &[&str] = &[
    "DELETE FROM morever WHERE n = 3",
    "UPDATE moreif SET v = 0 WHERE v = 3",
    "UPDATE moreif SET v = 1 WHERE v = 3",
    "UPDATE moreif SET v = -1 WHERE v = 3",
    "UPDATE moreif SET v = 4 WHERE v = 3",
    "UPDATE moreif SET srel = 'Z039' WHERE v = 3",
    "UPDATE moreif SET srel = 'Z38' WHERE v = 3",
    "UPDATE moreif SET id = 'AAA0003' WHERE v = 3",
    "UPDATE moreif SET n = 0 WHERE v = 3",
    "UPDATE moreif SET n = -1 WHERE v = 3",
    "UPDATE moreif SET n = 2 WHERE v = 3",
    "UPDATE moreif SET n = 9223372036854775807 WHERE v = 3",
    "UPDATE moreif SET n = 3 WHERE n = 2",
    "DELETE FROM moreif WHERE v = 2 AND n = 1",
    "UPDATE moreif SET fmid = 'AAA0003' WHERE v = 3",
    "UPDATE moreif SET req = '' WHERE v = 3",
    "UPDATE moreif SET req = id WHERE v = 3",
];

#[test]
fn ifs_of_no_form_are_told(rt: HostRuntime) -> Result<(), Fail> {
    check(rt.alloc(), IFS, Part::Global, NO_STATE)?;
    check(rt.alloc(), MOREIFS, Part::Further, NO_STATE)
}
