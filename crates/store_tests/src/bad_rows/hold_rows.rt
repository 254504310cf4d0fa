//! Rows of holds.

use crate::bad_rows::{NO_STATE, Part, check};
use std::test::Fail;

/// Holds.
const HOLDS: &[&str] = &[
    "UPDATE hold SET kind = 'user' WHERE kind = 'USER'",
    "UPDATE hold SET kind = 'HOLD' WHERE kind = 'USER'",
    "UPDATE hold SET kind = '' WHERE kind = 'USER'",
    "UPDATE hold SET reason = 'LONGERTHAN' WHERE kind = 'USER'",
    "UPDATE hold SET reason = 'mine' WHERE kind = 'USER'",
    "UPDATE hold SET reason = 'A B' WHERE kind = 'USER'",
    "UPDATE hold SET reason = '' WHERE kind = 'USER'",
    "UPDATE hold SET reason = 'LONGERTHAN' WHERE reason = 'DOC'",
    "UPDATE hold SET reason = 'NOID' WHERE kind = 'ERROR'",
    "UPDATE hold SET reason = 'aaa0009' WHERE kind = 'ERROR'",
    "UPDATE hold SET reason = '' WHERE kind = 'ERROR'",
    "UPDATE hold SET class = '' WHERE kind = 'ERROR'",
    "UPDATE hold SET class = 'LONGERTHAN' WHERE kind = 'ERROR'",
    "UPDATE hold SET class = 'hiper' WHERE kind = 'ERROR'",
    "UPDATE hold SET date = '' WHERE kind = 'ERROR'",
    "UPDATE hold SET date = '24000' WHERE kind = 'ERROR'",
    "UPDATE hold SET date = '24367' WHERE kind = 'ERROR'",
    "UPDATE hold SET date = '24.138' WHERE kind = 'ERROR'",
    "UPDATE hold SET date = '2413' WHERE kind = 'ERROR'",
    "UPDATE hold SET date = '2024138' WHERE kind = 'ERROR'",
    "UPDATE hold SET date = '2A138' WHERE kind = 'ERROR'",
    "UPDATE hold SET internal = 2 WHERE kind = 'SYSTEM'",
    "UPDATE hold SET internal = -1 WHERE kind = 'SYSTEM'",
    "UPDATE hold SET internal = 1 WHERE kind = 'ERROR'",
    "UPDATE hold SET internal = 1, id = 'UAA0001' WHERE kind = 'USER'",
    "UPDATE hold SET internal = 1, kind = 'SYSTEM' WHERE kind = 'USER'",
    "UPDATE hold SET id = 'UZZ9999' WHERE internal = 1",
    "DELETE FROM sysmod WHERE id = 'UAA0001'",
];

/// Comments of the greatest length, and of any printable characters.
const GOOD_COMMENTS: &[&str] = &[
    "UPDATE hold SET comment = replace('XXXXXXXXXXXXXXXXXXXX', 'X', 'XXXXXXXXXX') WHERE kind = 'ERROR'",
    "UPDATE hold SET comment = '~' WHERE kind = 'ERROR'",
    "UPDATE hold SET comment = '(A) B ()' WHERE kind = 'ERROR'",
];

/// Comments that are too long, empty, have blanks at an end, characters that are not printable, or parentheses that no
/// statement has in its own.
const COMMENTS: &[&str] = &[
    "UPDATE hold SET comment = 'X' || replace('XXXXXXXXXXXXXXXXXXXX', 'X', 'XXXXXXXXXX') WHERE kind = 'ERROR'",
    "UPDATE hold SET comment = '' WHERE kind = 'ERROR'",
    "UPDATE hold SET comment = ' A' WHERE kind = 'ERROR'",
    "UPDATE hold SET comment = 'A ' WHERE kind = 'ERROR'",
    "UPDATE hold SET comment = CAST(x'410a42' AS TEXT) WHERE kind = 'ERROR'",
    "UPDATE hold SET comment = CAST(x'417f42' AS TEXT) WHERE kind = 'ERROR'",
    "UPDATE hold SET comment = CAST(x'c3a9' AS TEXT) WHERE kind = 'ERROR'",
    "UPDATE hold SET comment = CAST(x'ff' AS TEXT) WHERE kind = 'ERROR'",
    "UPDATE hold SET comment = '(A' WHERE kind = 'ERROR'",
    "UPDATE hold SET comment = 'A)' WHERE kind = 'ERROR'",
    "UPDATE hold SET comment = ')A(' WHERE kind = 'ERROR'",
    "UPDATE hold SET comment = '((A))' WHERE kind = 'ERROR'",
];

#[test]
fn holds_of_no_form_are_told(rt: HostRuntime) -> Result<(), Fail> {
    check(rt.alloc(), HOLDS, Part::Global, NO_STATE)?;
    check(rt.alloc(), GOOD_COMMENTS, Part::Global, None)?;
    check(rt.alloc(), COMMENTS, Part::Global, NO_STATE)
}
