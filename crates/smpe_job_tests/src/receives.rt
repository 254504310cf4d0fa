//! Sources, holds and rejected SYSMODs.

use smpe_play::{
    Case, FAILING, FIX, FUNCTION, FUNCTION_RECEIVED, JOB, JobStep, RECEIVE, RECEIVING, REFUSED,
    play_cases, play_installed,
};
use std::test::Fail;

const RECEIVE_BOTH: &str = "SET BDY(GLOBAL).\nRECEIVE.";

const RECEIVES: &[Case] = &[
    Case {
        shows: "RECEIVE gives its source to what it receives, and APPLY chooses by it",
        steps: &[
            JobStep {
                name: "a fix comes in without a source",
                ptfin: &[FIX],
                report: "SET GLOBAL\nRC 00\nRECEIVE GLOBAL\nUA00024 PTF      RECEIVED\nRC 00\n",
                ..RECEIVING
            },
            JobStep {
                name: "a function and service come in with a source, and are applied by it",
                cntl: "SET BDY(GLOBAL).\nRECEIVE SYSMODS SOURCEID(PUT2401).\nSET BDY(TGT1).\n\
                    APPLY FUNCTIONS PTFS SOURCEID(PUT2401).",
                ptfin: &[
                    FUNCTION,
                    "++PTF(UA00001).\n++VER(Z038) FMID(HAA1100).\n++PTF(UA00001).\n++VER(Z038) FMID(HAA1100).\n\
                        ++PTF(UA00002).\n++VER(Z038) FMID(UA00001).",
                ],
                report: "SET GLOBAL\nRC 00\nRECEIVE GLOBAL\nHAA1100 FUNCTION RECEIVED\nUA00001 PTF      RECEIVED\n\
                    UA00001 PTF      ALREADY\nUA00002 PTF      REFUSED Rc3\nRC 08\nSET TGT1\nRC 00\nAPPLY TGT1\n\
                    HAA1100 FUNCTION APPLIED\nUA00001 PTF      APPLIED\nRC 00\n",
                ..FAILING
            },
        ],
    },
    Case {
        shows: "a hold given twice is held and replaced, a release given twice releases and is refused",
        steps: &[
            FUNCTION_RECEIVED,
            JobStep {
                name: "a hold twice, and its release twice",
                cntl: "SET BDY(GLOBAL).\nRECEIVE HOLDDATA.",
                hold: "++HOLD(UA00001) ERROR FMID(HAA1100) REASON(AA00009).\n\
                    ++HOLD(UA00001) ERROR FMID(HAA1100) REASON(AA00009).\n\
                    ++RELEASE(UA00001) ERROR FMID(HAA1100) REASON(AA00009).\n\
                    ++RELEASE(UA00001) ERROR FMID(HAA1100) REASON(AA00009).",
                report: "SET GLOBAL\nRC 00\nRECEIVE GLOBAL\nUA00001 ERROR    HELD AA00009\n\
                    UA00001 ERROR    REPLACED AA00009\nUA00001 ERROR    RELEASED AA00009\n\
                    UA00001 ERROR    REFUSED Rl1\nRC 04\n",
                code: 4,
                ..JOB
            },
        ],
    },
    Case {
        shows: "the hold inside a SYSMOD can not be released, and goes when it is rejected; the other hold on it stays",
        steps: &[
            JobStep {
                name: "a SYSMOD with a hold comes in, and another hold on it",
                cntl: RECEIVE_BOTH,
                ptfin: &[FIX, "++HOLD(UA00024) SYSTEM FMID(HAA1100) REASON(ACTION)."],
                hold: "++HOLD(UA00024) SYSTEM FMID(HAA1100) REASON(DOC).\n\
                    ++RELEASE(UA00024) SYSTEM FMID(HAA1100) REASON(ACTION).",
                report: "SET GLOBAL\nRC 00\nRECEIVE GLOBAL\nUA00024 PTF      RECEIVED\nUA00024 SYSTEM   HELD DOC\n\
                    UA00024 SYSTEM   REFUSED Rl2\nRC 04\n",
                code: 4,
                ..JOB
            },
            JobStep {
                name: "it is rejected, and both holds come again",
                cntl: "SET BDY(GLOBAL).\nREJECT SELECT(UA00024).\nRECEIVE HOLDDATA.",
                hold: "++HOLD(UA00024) SYSTEM FMID(HAA1100) REASON(ACTION).\n\
                    ++HOLD(UA00024) SYSTEM FMID(HAA1100) REASON(DOC).",
                report: "SET GLOBAL\nRC 00\nREJECT GLOBAL\nUA00024 PTF      REJECTED\nRC 00\nRECEIVE GLOBAL\n\
                    UA00024 SYSTEM   HELD ACTION\nUA00024 SYSTEM   REPLACED DOC\nRC 00\n",
                ..JOB
            },
        ],
    },
    Case {
        shows: "a SYSMOD that would close a loop of prerequisites is refused",
        steps: &[
            JobStep {
                name: "the first comes in",
                ptfin: &["++PTF(UA00031).\n++VER(Z038) FMID(HAA1100) PRE(UA00032)."],
                report: "SET GLOBAL\nRC 00\nRECEIVE GLOBAL\nUA00031 PTF      RECEIVED\nRC 00\n",
                ..RECEIVING
            },
            JobStep {
                name: "the second comes in",
                cntl: RECEIVE,
                ptfin: &["++PTF(UA00032).\n++VER(Z038) FMID(HAA1100) PRE(UA00031)."],
                report: "SET GLOBAL\nRC 00\nRECEIVE GLOBAL\nUA00032 PTF      REFUSED Rc2\nRC 08\n",
                ..FAILING
            },
        ],
    },
    Case {
        shows: "where the hold file is at fault nothing is taken in, and a fault of PTFIN comes first",
        steps: &[
            JobStep {
                name: "a good PTFIN and a bad hold file come in",
                cntl: RECEIVE_BOTH,
                ptfin: &[FIX],
                hold: "++HOLD(UA00001) ERROR FMID(HAA1100) REASON(AA00009).\n++HOLD(UA00002) ERROR FMID(HAA1100).",
                report: "SET GLOBAL\nRC 00\nRECEIVE GLOBAL\nREFUSED Cm5 RECORD 2 Mc3\nRC 12\n",
                ..REFUSED
            },
            JobStep {
                name: "both bad",
                cntl: RECEIVE_BOTH,
                ptfin: &["++PTF(UA00024)"],
                hold: "++PTF(UA00024).",
                report: "SET GLOBAL\nRC 00\nRECEIVE GLOBAL\nREFUSED Cm4 RECORD 1 Mc1\nRC 12\n",
                ..REFUSED
            },
            JobStep {
                name: "both good",
                cntl: RECEIVE_BOTH,
                ptfin: &[FIX],
                hold: "++HOLD(UA00001) ERROR FMID(HAA1100) REASON(AA00009).",
                report: "SET GLOBAL\nRC 00\nRECEIVE GLOBAL\nUA00024 PTF      RECEIVED\n\
                    UA00001 ERROR    HELD AA00009\nRC 00\n",
                ..JOB
            },
        ],
    },
];

#[test]
fn a_receive_takes_in_sysmods_sources_and_holds(rt: HostRuntime) -> Result<(), Fail> {
    play_cases(rt.alloc(), RECEIVES)
}

const REJECTS: &[Case] = &[
    Case {
        shows: "a source is assigned to received ids alone, and an applied SYSMOD is not rejected",
        steps: &[JobStep {
            name: "a fix and an assignment come in, and the function and the fix are rejected",
            cntl: "SET BDY(GLOBAL).\nRECEIVE SYSMODS.\nREJECT SELECT(HAA1100,UA00024).",
            ptfin: &[FIX, "++ASSIGN SOURCEID(SRC1) TO(UA00024,UA00099)."],
            report: "SET GLOBAL\nRC 00\nRECEIVE GLOBAL\nUA00024 PTF      RECEIVED\n\
                UA00024 PTF      ASSIGNED SRC1\nUA00099 -        UNKNOWN\nRC 04\nREJECT GLOBAL\n\
                HAA1100 FUNCTION REFUSED Rj1\nUA00024 PTF      REJECTED\nRC 08\n",
            ..FAILING
        }],
    },
    Case {
        shows: "so is a source of 64 characters",
        steps: &[JobStep {
            name: "a fix and an assignment come in, and three ids are rejected",
            cntl: "SET BDY(GLOBAL).\nRECEIVE SYSMODS.\nREJECT SELECT(HAA1100,UA00024,UA00099).",
            ptfin: &[
                FIX,
                "++ASSIGN SOURCEID(\nMONTHLY2024SERVICEFORTHEPAYROLLSYSTEMSOFALLTHEBRANCHESINTHENORTH) TO(\n\
                    UA00024,UA00099).",
            ],
            report: "SET GLOBAL\nRC 00\nRECEIVE GLOBAL\nUA00024 PTF      RECEIVED\n\
                UA00024 PTF      ASSIGNED MONTHLY2024SERVICEFORTHEPAYROLLSYSTEMSOFALLTHEBRANCHESINTHENORTH\n\
                UA00099 -        UNKNOWN\nRC 04\nREJECT GLOBAL\nHAA1100 FUNCTION REFUSED Rj1\n\
                UA00024 PTF      REJECTED\nUA00099 -        REFUSED Rj2\nRC 08\n",
            ..FAILING
        }],
    },
];

#[test]
fn what_is_applied_is_not_rejected(rt: HostRuntime) -> Result<(), Fail> {
    play_installed(rt.alloc(), REJECTS)
}
