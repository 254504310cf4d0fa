//! First jobs over a new database, and jobs that are refused.

use crate::checked::CHECKED;
use smpe_play::{
    Case, FAILING, FIX, FUNCTION, FUNCTION_INSTALLED, FUNCTION_RECEIVED, JOB, JobStep, RECEIVE,
    REFUSED, play_cases, play_installed,
};
use std::test::Fail;

/// A function with the same macro.
const OTHER_FUNCTION: &str =
    "++FUNCTION(HBB2200).\n++VER(Z038).\n++MAC(M1) DISTLIB(AMACLIB) SYSLIB(MACLIB).\n         MACRO\t00000010";

pub(crate) const CUT_PTFIN: JobStep = JobStep {
    name: "PTFIN whose length is no multiple of 80 comes in",
    cntl: RECEIVE,
    ptfin: &[" "],
    rest: "X",
    report: "SET GLOBAL\nRC 00\nRECEIVE GLOBAL\nREFUSED Cm4 RECORD 2 Mc1\nRC 12\n",
    ..REFUSED
};

const FIRST_JOBS: &[Case] = &[
    Case {
        shows: "a function and its fix are received and applied in one job",
        steps: &[JobStep {
            name: "both come in and are applied",
            cntl: "SET BDY(GLOBAL).\nRECEIVE SYSMODS.\nSET BDY(TGT1).\nAPPLY SELECT(HAA1100,UA00024).",
            ptfin: &[FUNCTION, FIX],
            report: "SET GLOBAL\nRC 00\nRECEIVE GLOBAL\nHAA1100 FUNCTION RECEIVED\nUA00024 PTF      RECEIVED\n\
                RC 00\nSET TGT1\nRC 00\nAPPLY TGT1\nHAA1100 FUNCTION APPLIED\nUA00024 PTF      APPLIED\nRC 00\n",
            ..JOB
        }],
    },
    Case {
        shows: "the fix alone fails for want of its function",
        steps: &[JobStep {
            name: "both come in, and the fix is applied",
            cntl: "SET BDY(GLOBAL).\nRECEIVE SYSMODS.\nSET BDY(TGT1).\nAPPLY SELECT(UA00024).",
            ptfin: &[FUNCTION, FIX],
            report: "SET GLOBAL\nRC 00\nRECEIVE GLOBAL\nHAA1100 FUNCTION RECEIVED\nUA00024 PTF      RECEIVED\n\
                RC 00\nSET TGT1\nRC 00\nAPPLY TGT1\nUA00024 PTF      FAILED\n  NEED FMID HAA1100\n\
                \x20 CAUSER UA00024\nRC 08\n",
            ..FAILING
        }],
    },
    Case {
        shows: "two functions with one macro fail together",
        steps: &[JobStep {
            name: "both come in and are applied",
            cntl: "SET BDY(GLOBAL).\nRECEIVE SYSMODS.\nSET BDY(TGT1).\nAPPLY SELECT(HAA1100,HBB2200).",
            ptfin: &[FUNCTION, OTHER_FUNCTION],
            report: "SET GLOBAL\nRC 00\nRECEIVE GLOBAL\nHAA1100 FUNCTION RECEIVED\nHBB2200 FUNCTION RECEIVED\n\
                RC 00\nSET TGT1\nRC 00\nAPPLY TGT1\nHAA1100 FUNCTION FAILED\n  TEST J9\n  CAUSER HAA1100\n\
                HBB2200 FUNCTION FAILED\n  TEST J9\n  CAUSER HBB2200\nRC 08\n",
            ..FAILING
        }],
    },
    Case {
        shows: "a command file of 0 bytes does nothing and prints nothing",
        steps: &[
            FUNCTION_RECEIVED,
            JobStep {
                name: "no command",
                cntl: "",
                report: "",
                ..JOB
            },
        ],
    },
    Case {
        shows: "a PTFIN that is cut, or whose statement has no period, is refused",
        steps: &[
            FUNCTION_RECEIVED,
            CUT_PTFIN,
            JobStep {
                name: "PTFIN without a period comes in",
                cntl: RECEIVE,
                ptfin: &["++PTF(UA00001)"],
                report: "SET GLOBAL\nRC 00\nRECEIVE GLOBAL\nREFUSED Cm4 RECORD 1 Mc1\nRC 12\n",
                ..REFUSED
            },
        ],
    },
];

#[test]
fn a_first_job_receives_and_applies(rt: HostRuntime) -> Result<(), Fail> {
    play_cases(rt.alloc(), FIRST_JOBS)
}

const AGAIN: &[Case] = &[Case {
    shows: "what is there already is told, and no boundary lives on into the next job",
    steps: &[
        JobStep {
            name: "a fix comes in and is applied, with CHECK and without, twice",
            report: "SET GLOBAL\nRC 00\nRECEIVE GLOBAL\nUA00024 PTF      RECEIVED\nRC 00\nSET TGT1\nRC 00\n\
                APPLY TGT1 CHECK\nUA00024 PTF      APPLIED\nRC 00\nAPPLY TGT1\nUA00024 PTF      APPLIED\nRC 00\n\
                APPLY TGT1\nUA00024 PTF      ALREADY\nRC 04\nSET GLOBAL\nRC 00\nRECEIVE GLOBAL\n\
                UA00024 PTF      ALREADY\nRC 04\n",
            ..CHECKED
        },
        JobStep {
            name: "a job without a boundary",
            cntl: "APPLY SELECT(UA00099).",
            report: "APPLY -\nREFUSED Cm1\nRC 12\n",
            ..REFUSED
        },
    ],
}];

#[test]
fn a_job_that_is_run_again_finds_what_is_there(rt: HostRuntime) -> Result<(), Fail> {
    play_installed(rt.alloc(), AGAIN)
}

const REFUSALS: &[Case] = &[
    Case {
        shows: "commands that can not run are refused, and others find nothing to do",
        steps: &[
            JobStep {
                name: "commands at wrong boundaries",
                cntl: "SET BDY(TGT2).\nSET BDY(TGT1).\nRECEIVE SYSMODS.\nAPPLY.\nAPPLY SELECT(UA00099).\n\
                    SET BDY(DLB1).\nAPPLY.",
                report: "SET TGT2\nREFUSED Cm2\nRC 12\nSET TGT1\nRC 00\nRECEIVE TGT1\nREFUSED Cm3\nRC 12\n\
                    APPLY TGT1\nNOTHING\nRC 04\nAPPLY TGT1\nUA00099 -        MISSING\nRC 08\nSET DLB1\nRC 00\n\
                    APPLY DLB1\nREFUSED Cm3\nRC 12\n",
                ..REFUSED
            },
            JobStep {
                name: "an operand twice",
                cntl: "SET BDY(TGT1).\nAPPLY CHECK CHECK.",
                report: "CONTROL RECORD 2 Cn3\n",
                ..REFUSED
            },
        ],
    },
    Case {
        shows: "a store is used again after jobs that were refused",
        steps: &[
            JobStep {
                name: "a command without a period",
                cntl: "SET BDY(TGT1).\nSET BDY(TGT1)",
                report: "CONTROL RECORD 2 Cn5\n",
                ..REFUSED
            },
            JobStep {
                name: "commands without their boundaries",
                cntl: "LIST.\nSET BDY(TGT9).\nSET BDY(DLB1).\nREJECT SELECT(HAA1100).",
                report: "LIST -\nREFUSED Cm1\nRC 12\nSET TGT9\nREFUSED Cm2\nRC 12\nSET DLB1\nRC 00\nREJECT DLB1\n\
                    REFUSED Cm3\nRC 12\n",
                ..REFUSED
            },
            FUNCTION_RECEIVED,
            FUNCTION_INSTALLED,
        ],
    },
];

#[test]
fn refused_commands_change_nothing(rt: HostRuntime) -> Result<(), Fail> {
    play_cases(rt.alloc(), REFUSALS)
}
