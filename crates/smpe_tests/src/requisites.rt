//! Requisites that are open, bypassed or mutual, and those of an `++IF`.

use smpe_play::{Case, FAILING, JOB, JobStep, LISTING, RECEIVING, play_installed};
use std::test::Fail;

const WANTING_RECEIVED: JobStep = JobStep {
    name: "a fix whose prerequisite is not received comes in",
    ptfin: &["++PTF(UA00003).\n++VER(Z038) FMID(HAA1100) PRE(UA00002)."],
    report: "SET GLOBAL\nRC 00\nRECEIVE GLOBAL\nUA00003 PTF      RECEIVED\nRC 00\n",
    ..RECEIVING
};

const PREREQUISITES: &[Case] = &[
    Case {
        shows: "a prerequisite that is not received is open, and its own candidate is the causer",
        steps: &[
            WANTING_RECEIVED,
            JobStep {
                name: "the fix is applied",
                cntl: "SET BDY(TGT1).\nAPPLY SELECT(UA00003).",
                report: "SET TGT1\nRC 00\nAPPLY TGT1\nUA00003 PTF      FAILED\n  NEED PRE UA00002\n\
                    \x20 CAUSER UA00003\nRC 08\n",
                ..FAILING
            },
        ],
    },
    Case {
        shows: "BYPASS(PRE) waives a prerequisite, and the entry says so",
        steps: &[
            WANTING_RECEIVED,
            JobStep {
                name: "the fix is applied with BYPASS(PRE)",
                cntl: "SET BDY(TGT1).\nAPPLY SELECT(UA00003) BYPASS(PRE).",
                report: "SET TGT1\nRC 00\nAPPLY TGT1\nUA00003 PTF      APPLIED\nRC 00\n",
                ..JOB
            },
            JobStep {
                report: "SET TGT1\nRC 00\nLIST TGT1\nENTRY HAA1100 APPLIED 24.138 SUPBY - DELBY - WAIVED -\n\
                    ENTRY UA00003 APPLIED 24.138 SUPBY - DELBY - WAIVED UA00002\n\
                    ELEM MAC   M1       FMID HAA1100 RMID HAA1100 UMID - DISTLIB AMACLIB SYSLIB MACLIB\nRC 00\n",
                ..LISTING
            },
        ],
    },
];

#[test]
fn an_open_prerequisite_keeps_a_fix_off_unless_it_is_bypassed(rt: HostRuntime) -> Result<(), Fail> {
    play_installed(rt.alloc(), PREREQUISITES)
}

const MUTUAL_RECEIVED: JobStep = JobStep {
    name: "two fixes that require each other come in",
    ptfin: &[
        "++PTF(UA00003).\n++VER(Z038) FMID(HAA1100) REQ(UA00004).",
        "++PTF(UA00004).\n++VER(Z038) FMID(HAA1100) REQ(UA00003).",
    ],
    report: "SET GLOBAL\nRC 00\nRECEIVE GLOBAL\nUA00003 PTF      RECEIVED\nUA00004 PTF      RECEIVED\nRC 00\n",
    ..RECEIVING
};

const REQUISITE_HOLD_RECEIVED: JobStep = JobStep {
    name: "one of them is held",
    cntl: "SET BDY(GLOBAL).\nRECEIVE HOLDDATA.",
    hold: "++HOLD(UA00004) SYSTEM FMID(HAA1100) REASON(ACTION).",
    report: "SET GLOBAL\nRC 00\nRECEIVE GLOBAL\nUA00004 SYSTEM   HELD ACTION\nRC 00\n",
    ..JOB
};

const MUTUAL_REQUISITES: &[Case] = &[
    Case {
        shows: "two fixes that require each other go on together",
        steps: &[
            MUTUAL_RECEIVED,
            JobStep {
                name: "both are applied",
                cntl: "SET BDY(TGT1).\nAPPLY SELECT(UA00003,UA00004).",
                report: "SET TGT1\nRC 00\nAPPLY TGT1\nUA00003 PTF      APPLIED\nUA00004 PTF      APPLIED\nRC 00\n",
                ..JOB
            },
        ],
    },
    Case {
        shows: "a SYSTEM hold on one of two that require each other keeps both off",
        steps: &[
            MUTUAL_RECEIVED,
            REQUISITE_HOLD_RECEIVED,
            JobStep {
                name: "both are applied",
                cntl: "SET BDY(TGT1).\nAPPLY SELECT(UA00003,UA00004).",
                report: "SET TGT1\nRC 00\nAPPLY TGT1\nUA00003 PTF      FAILED\n  NEED REQ UA00004\n\
                    \x20 CAUSER UA00004\nUA00004 PTF      FAILED\n  TEST J1\n  NEED REQ UA00003\n  CAUSER UA00004\n\
                    RC 08\n",
                ..FAILING
            },
        ],
    },
    Case {
        shows: "with the hold bypassed both go on",
        steps: &[
            MUTUAL_RECEIVED,
            REQUISITE_HOLD_RECEIVED,
            JobStep {
                name: "both are applied with BYPASS(HOLDSYSTEM)",
                cntl: "SET BDY(TGT1).\nAPPLY SELECT(UA00003,UA00004) BYPASS(HOLDSYSTEM).",
                report: "SET TGT1\nRC 00\nAPPLY TGT1\nUA00003 PTF      APPLIED\nUA00004 PTF      APPLIED\nRC 00\n",
                ..JOB
            },
        ],
    },
];

#[test]
fn fixes_that_require_each_other_go_on_together_or_stay_off(rt: HostRuntime) -> Result<(), Fail> {
    play_installed(rt.alloc(), MUTUAL_REQUISITES)
}

const CONDITION_RECEIVED: JobStep = JobStep {
    name: "a held function comes in, and a fix that requires another one where that function is",
    cntl: "SET BDY(GLOBAL).\nRECEIVE SYSMODS HOLDDATA.",
    ptfin: &[
        "++FUNCTION(HBB1100).\n++VER(Z038).",
        "++PTF(UA00013).\n++VER(Z038) FMID(HAA1100).\n++IF FMID(HBB1100) THEN REQ(UA00014).",
    ],
    hold: "++HOLD(HBB1100) USER FMID(HBB1100) REASON(WAIT).",
    report: "SET GLOBAL\nRC 00\nRECEIVE GLOBAL\nHBB1100 FUNCTION RECEIVED\nUA00013 PTF      RECEIVED\n\
        HBB1100 USER     HELD WAIT\nRC 00\n",
    ..JOB
};

const CONDITIONAL_REQUISITES: &[Case] = &[
    Case {
        shows: "the requisite of an ++IF holds where its function is a candidate, even one that fails",
        steps: &[
            CONDITION_RECEIVED,
            JobStep {
                name: "the function and the fix are applied",
                cntl: "SET BDY(TGT1).\nAPPLY SELECT(HBB1100,UA00013).",
                report: "SET TGT1\nRC 00\nAPPLY TGT1\nHBB1100 FUNCTION FAILED\n  TEST J2\n  CAUSER HBB1100\n\
                    UA00013 PTF      FAILED\n  NEED IFREQ UA00014\n  CAUSER UA00013\nRC 08\n",
                ..FAILING
            },
        ],
    },
    Case {
        shows: "without the function the requisite of an ++IF does not hold",
        steps: &[
            CONDITION_RECEIVED,
            JobStep {
                name: "the fix is applied",
                cntl: "SET BDY(TGT1).\nAPPLY SELECT(UA00013).",
                report: "SET TGT1\nRC 00\nAPPLY TGT1\nUA00013 PTF      APPLIED\nRC 00\n",
                ..JOB
            },
        ],
    },
];

#[test]
fn an_if_requires_something_only_beside_its_function(rt: HostRuntime) -> Result<(), Fail> {
    play_installed(rt.alloc(), CONDITIONAL_REQUISITES)
}
