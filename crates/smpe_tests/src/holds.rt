//! Fixes held for error, and superseders that are held.

use smpe_play::{Case, FAILING, JOB, JobStep, LISTING, RECEIVING, play_installed};
use std::test::Fail;

const ERROR_RECEIVED: JobStep = JobStep {
    name: "a fix that is held for error comes in, and one that resolves it",
    cntl: "SET BDY(GLOBAL).\nRECEIVE SYSMODS HOLDDATA.",
    ptfin: &[
        "++PTF(UA00005).\n++VER(Z038) FMID(HAA1100).",
        "++PTF(UA00006).\n++VER(Z038) FMID(HAA1100) SUP(AA00009).",
    ],
    hold: "++HOLD(UA00005) ERROR FMID(HAA1100) REASON(AA00009).",
    report: "SET GLOBAL\nRC 00\nRECEIVE GLOBAL\nUA00005 PTF      RECEIVED\nUA00006 PTF      RECEIVED\n\
        UA00005 ERROR    HELD AA00009\nRC 00\n",
    ..JOB
};

const ERROR_HOLDS: &[Case] = &[
    Case {
        shows: "an ERROR hold is met by who supersedes its reason",
        steps: &[
            ERROR_RECEIVED,
            JobStep {
                name: "the fix and its resolver are applied",
                cntl: "SET BDY(TGT1).\nAPPLY SELECT(UA00005,UA00006).",
                report: "SET TGT1\nRC 00\nAPPLY TGT1\nUA00005 PTF      APPLIED\nUA00006 PTF      APPLIED\nRC 00\n",
                ..JOB
            },
            JobStep {
                report: "SET TGT1\nRC 00\nLIST TGT1\nENTRY AA00009 - SUPBY UA00006 DELBY - WAIVED -\n\
                    ENTRY HAA1100 APPLIED 24.138 SUPBY - DELBY - WAIVED -\n\
                    ENTRY UA00005 APPLIED 24.138 SUPBY - DELBY - WAIVED -\n\
                    ENTRY UA00006 APPLIED 24.138 SUPBY - DELBY - WAIVED -\n\
                    ELEM MAC   M1       FMID HAA1100 RMID HAA1100 UMID - DISTLIB AMACLIB SYSLIB MACLIB\nRC 00\n",
                ..LISTING
            },
        ],
    },
    Case {
        shows: "an ERROR hold that nobody resolves is open",
        steps: &[
            ERROR_RECEIVED,
            JobStep {
                name: "the fix is applied alone",
                cntl: "SET BDY(TGT1).\nAPPLY SELECT(UA00005).",
                report: "SET TGT1\nRC 00\nAPPLY TGT1\nUA00005 PTF      FAILED\n  NEED HOLDERROR AA00009\n\
                    \x20 CAUSER UA00005\nRC 08\n",
                ..FAILING
            },
        ],
    },
];

#[test]
fn a_fix_held_for_error_stays_off_without_its_resolver(rt: HostRuntime) -> Result<(), Fail> {
    play_installed(rt.alloc(), ERROR_HOLDS)
}

/// A fix, and one that supersedes it.
const SUPERSEDING: &[&str] = &[
    "++PTF(UA00011).\n++VER(Z038) FMID(HAA1100).",
    "++PTF(UA00012).\n++VER(Z038) FMID(HAA1100) SUP(UA00011).",
];

const SUPERSEDERS: &[Case] = &[
    Case {
        shows: "what a held SYSMOD would supersede is applied",
        steps: &[
            JobStep {
                name: "both come in, the superseder held",
                cntl: "SET BDY(GLOBAL).\nRECEIVE SYSMODS HOLDDATA.",
                ptfin: SUPERSEDING,
                hold: "++HOLD(UA00012) USER FMID(HAA1100) REASON(WAIT).",
                report: "SET GLOBAL\nRC 00\nRECEIVE GLOBAL\nUA00011 PTF      RECEIVED\nUA00012 PTF      RECEIVED\n\
                    UA00012 USER     HELD WAIT\nRC 00\n",
                ..JOB
            },
            JobStep {
                name: "both are applied",
                cntl: "SET BDY(TGT1).\nAPPLY SELECT(UA00011,UA00012).",
                report: "SET TGT1\nRC 00\nAPPLY TGT1\nUA00011 PTF      APPLIED\nUA00012 PTF      FAILED\n  TEST J2\n\
                    \x20 CAUSER UA00012\nRC 08\n",
                ..FAILING
            },
        ],
    },
    Case {
        shows: "of two that are kept the superseded one is not applied",
        steps: &[
            JobStep {
                name: "both come in",
                ptfin: SUPERSEDING,
                report: "SET GLOBAL\nRC 00\nRECEIVE GLOBAL\nUA00011 PTF      RECEIVED\nUA00012 PTF      RECEIVED\n\
                    RC 00\n",
                ..RECEIVING
            },
            JobStep {
                name: "both are applied",
                cntl: "SET BDY(TGT1).\nAPPLY SELECT(UA00011,UA00012).",
                report: "SET TGT1\nRC 00\nAPPLY TGT1\nUA00011 PTF      SUPERSEDED\nUA00012 PTF      APPLIED\nRC 00\n",
                ..JOB
            },
        ],
    },
];

#[test]
fn only_what_is_kept_supersedes(rt: HostRuntime) -> Result<(), Fail> {
    play_installed(rt.alloc(), SUPERSEDERS)
}
