//! Bytes and statements that no reader may accept.

use smpe_play::{Case, JobStep, RECEIVE, REFUSED, play_cases};
use std::test::Fail;

const BAD_FILES: &[Case] = &[
    Case {
        shows: "a byte that no record may have comes before any fault of a statement",
        steps: &[JobStep {
            name: "PTFIN with an unprintable byte",
            cntl: RECEIVE,
            ptfin: &["++BAD.\n    \0"],
            report: "SET GLOBAL\nRC 00\nRECEIVE GLOBAL\nREFUSED Cm4 RECORD 2 Mc1\nRC 12\n",
            ..REFUSED
        }],
    },
    Case {
        shows: "a statement has a word",
        steps: &[JobStep {
            name: "PTFIN with ++ alone",
            cntl: RECEIVE,
            ptfin: &["++"],
            report: "SET GLOBAL\nRC 00\nRECEIVE GLOBAL\nREFUSED Cm4 RECORD 1 Mc1\nRC 12\n",
            ..REFUSED
        }],
    },
    Case {
        shows: "a statement closes its comment",
        steps: &[JobStep {
            name: "PTFIN with an open comment",
            cntl: RECEIVE,
            ptfin: &["++PTF(UA00001). /* X"],
            report: "SET GLOBAL\nRC 00\nRECEIVE GLOBAL\nREFUSED Cm4 RECORD 1 Mc1\nRC 12\n",
            ..REFUSED
        }],
    },
    Case {
        shows: "parentheses have two levels",
        steps: &[JobStep {
            name: "a command with three levels",
            cntl: "APPLY BYPASS(HOLDSYSTEM((A))).",
            report: "CONTROL RECORD 1 Cn5\n",
            ..REFUSED
        }],
    },
];

#[test]
fn bad_files_are_refused(rt: HostRuntime) -> Result<(), Fail> {
    play_cases(rt.alloc(), BAD_FILES)
}
