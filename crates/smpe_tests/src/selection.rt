//! What an APPLY chooses.

use smpe_play::{Case, FAILING, JOB, JobStep, LISTING, RECEIVING, play_installed};
use std::test::Fail;

const EXTENSION_RECEIVED: JobStep = JobStep {
    name: "a fix comes in, and one that supersedes its prerequisite",
    ptfin: &[
        "++PTF(UA00007).\n++VER(Z038) FMID(HAA1100) PRE(UA00008).",
        "++PTF(UA00010).\n++VER(Z038) FMID(HAA1100) SUP(UA00008).",
    ],
    report: "SET GLOBAL\nRC 00\nRECEIVE GLOBAL\nUA00007 PTF      RECEIVED\nUA00010 PTF      RECEIVED\nRC 00\n",
    ..RECEIVING
};

const EXTENSIONS: &[Case] = &[
    Case {
        shows: "GROUPEXTEND brings in who supersedes a prerequisite that is missing",
        steps: &[
            EXTENSION_RECEIVED,
            JobStep {
                name: "the fix is applied with GROUPEXTEND",
                cntl: "SET BDY(TGT1).\nAPPLY SELECT(UA00007) GROUPEXTEND.",
                report: "SET TGT1\nRC 00\nAPPLY TGT1\nUA00007 PTF      APPLIED\nUA00010 PTF      APPLIED\nRC 00\n",
                ..JOB
            },
            JobStep {
                report: "SET TGT1\nRC 00\nLIST TGT1\nENTRY HAA1100 APPLIED 24.138 SUPBY - DELBY - WAIVED -\n\
                    ENTRY UA00007 APPLIED 24.138 SUPBY - DELBY - WAIVED -\n\
                    ENTRY UA00008 - SUPBY UA00010 DELBY - WAIVED -\n\
                    ENTRY UA00010 APPLIED 24.138 SUPBY - DELBY - WAIVED -\n\
                    ELEM MAC   M1       FMID HAA1100 RMID HAA1100 UMID - DISTLIB AMACLIB SYSLIB MACLIB\nRC 00\n",
                ..LISTING
            },
        ],
    },
    Case {
        shows: "GROUP alone brings in no superseder",
        steps: &[
            EXTENSION_RECEIVED,
            JobStep {
                name: "the fix is applied with GROUP",
                cntl: "SET BDY(TGT1).\nAPPLY GROUP(UA00007).",
                report: "SET TGT1\nRC 00\nAPPLY TGT1\nUA00007 PTF      FAILED\n  NEED PRE UA00008\n\
                    \x20 CAUSER UA00007\nRC 08\n",
                ..FAILING
            },
        ],
    },
    Case {
        shows: "GROUPEXTEND goes on from what it has brought in",
        steps: &[
            JobStep {
                name: "three come in, of which two supersede a prerequisite",
                ptfin: &[
                    "++PTF(UA00033).\n++VER(Z038) FMID(HAA1100) PRE(UA00034).",
                    "++PTF(UA00035).\n++VER(Z038) FMID(HAA1100) SUP(UA00034) PRE(UA00036).",
                    "++PTF(UA00037).\n++VER(Z038) FMID(HAA1100) SUP(UA00036).",
                ],
                report: "SET GLOBAL\nRC 00\nRECEIVE GLOBAL\nUA00033 PTF      RECEIVED\nUA00035 PTF      RECEIVED\n\
                    UA00037 PTF      RECEIVED\nRC 00\n",
                ..RECEIVING
            },
            JobStep {
                name: "the first is applied with GROUPEXTEND",
                cntl: "SET BDY(TGT1).\nAPPLY SELECT(UA00033) GROUPEXTEND.",
                report: "SET TGT1\nRC 00\nAPPLY TGT1\nUA00033 PTF      APPLIED\nUA00035 PTF      APPLIED\n\
                    UA00037 PTF      APPLIED\nRC 00\n",
                ..JOB
            },
        ],
    },
];

#[test]
fn groupextend_brings_in_superseders(rt: HostRuntime) -> Result<(), Fail> {
    play_installed(rt.alloc(), EXTENSIONS)
}

const CHOICES: &[Case] = &[
    Case {
        shows: "a type chooses all open SYSMODs of it beside the selected ids",
        steps: &[
            JobStep {
                name: "an APAR, a function and a PTF come in",
                ptfin: &[
                    "++APAR(AA00028).\n++VER(Z038) FMID(HAA1100).",
                    "++FUNCTION(HBB1100).\n++VER(Z038).",
                    "++PTF(UA00027).\n++VER(Z038) FMID(HAA1100).",
                ],
                report: "SET GLOBAL\nRC 00\nRECEIVE GLOBAL\nAA00028 APAR     RECEIVED\nHBB1100 FUNCTION RECEIVED\n\
                    UA00027 PTF      RECEIVED\nRC 00\n",
                ..RECEIVING
            },
            JobStep {
                name: "the function and all APARs are applied",
                cntl: "SET BDY(TGT1).\nAPPLY SELECT(HBB1100) APARS.",
                report: "SET TGT1\nRC 00\nAPPLY TGT1\nAA00028 APAR     APPLIED\nHBB1100 FUNCTION APPLIED\nRC 00\n",
                ..JOB
            },
        ],
    },
    Case {
        shows: "what is excluded is not chosen, and has no line",
        steps: &[
            JobStep {
                name: "a PTF comes in",
                ptfin: &["++PTF(UA00027).\n++VER(Z038) FMID(HAA1100)."],
                report: "SET GLOBAL\nRC 00\nRECEIVE GLOBAL\nUA00027 PTF      RECEIVED\nRC 00\n",
                ..RECEIVING
            },
            JobStep {
                name: "all but it is applied",
                cntl: "SET BDY(TGT1).\nAPPLY EXCLUDE(UA00027).",
                report: "SET TGT1\nRC 00\nAPPLY TGT1\nNOTHING\nRC 04\n",
                code: 4,
                ..JOB
            },
        ],
    },
];

#[test]
fn a_type_chooses_and_exclude_takes_out(rt: HostRuntime) -> Result<(), Fail> {
    play_installed(rt.alloc(), CHOICES)
}
