//! Functions that delete others.

use smpe_play::{
    Case, DELETER_INSTALLED, FAILING, JOB, JobStep, LISTING, RECEIVING, play_installed,
};
use std::test::Fail;

const REQUIRERS_INSTALLED: JobStep = JobStep {
    name: "another function is applied, whose service requires service of the first",
    cntl: "SET BDY(TGT1).\nAPPLY SELECT(HDD1100,UA00021,UA00023).",
    report: "SET TGT1\nRC 00\nAPPLY TGT1\nHDD1100 FUNCTION APPLIED\nUA00021 PTF      APPLIED\n\
        UA00023 PTF      APPLIED\nRC 00\n",
    ..JOB
};

const DELETIONS: &[Case] = &[
    Case {
        shows: "service for a function that another candidate deletes fails, and the deletion goes on",
        steps: &[
            JobStep {
                name: "the service and the deleting function come in",
                ptfin: &[
                    "++PTF(UA00039).\n++VER(Z038) FMID(HAA1100).",
                    "++FUNCTION(HCC1200).\n++VER(Z038) DELETE(HAA1100).",
                ],
                report: "SET GLOBAL\nRC 00\nRECEIVE GLOBAL\nUA00039 PTF      RECEIVED\nHCC1200 FUNCTION RECEIVED\n\
                    RC 00\n",
                ..RECEIVING
            },
            JobStep {
                name: "both are applied",
                cntl: "SET BDY(TGT1).\nAPPLY SELECT(HCC1200,UA00039).",
                report: "SET TGT1\nRC 00\nAPPLY TGT1\nHCC1200 FUNCTION APPLIED\nUA00039 PTF      FAILED\n  TEST J8\n\
                    \x20 NEED FMID HAA1100\n  CAUSER UA00039\nRC 08\n",
                ..FAILING
            },
        ],
    },
    Case {
        shows: "a function may not delete what service of another function requires",
        steps: &[
            JobStep {
                name: "two functions and their service come in",
                ptfin: &[
                    "++FUNCTION(HDD1100).\n++VER(Z038).",
                    "++PTF(UA00021).\n++VER(Z038) FMID(HAA1100).",
                    "++PTF(UA00023).\n++VER(Z038) FMID(HDD1100) REQ(UA00021).",
                    "++FUNCTION(HCC1200).\n++VER(Z038) DELETE(HAA1100).",
                ],
                report: "SET GLOBAL\nRC 00\nRECEIVE GLOBAL\nHDD1100 FUNCTION RECEIVED\nUA00021 PTF      RECEIVED\n\
                    UA00023 PTF      RECEIVED\nHCC1200 FUNCTION RECEIVED\nRC 00\n",
                ..RECEIVING
            },
            REQUIRERS_INSTALLED,
            JobStep {
                name: "the deleting function is applied",
                cntl: "SET BDY(TGT1).\nAPPLY SELECT(HCC1200).",
                report: "SET TGT1\nRC 00\nAPPLY TGT1\nHCC1200 FUNCTION FAILED\n  NEED ORPHAN UA00021\n\
                    \x20 CAUSER HCC1200\nRC 08\n",
                ..FAILING
            },
        ],
    },
    Case {
        shows: "with that superseded it may, and what it deleted can not come back",
        steps: &[
            JobStep {
                name: "two functions and their service come in",
                ptfin: &[
                    "++FUNCTION(HDD1100).\n++VER(Z038).",
                    "++PTF(UA00021).\n++VER(Z038) FMID(HAA1100).",
                    "++PTF(UA00023).\n++VER(Z038) FMID(HDD1100) REQ(UA00021).",
                    "++FUNCTION(HCC1200).\n++VER(Z038) DELETE(HAA1100) SUP(UA00021).",
                ],
                report: "SET GLOBAL\nRC 00\nRECEIVE GLOBAL\nHDD1100 FUNCTION RECEIVED\nUA00021 PTF      RECEIVED\n\
                    UA00023 PTF      RECEIVED\nHCC1200 FUNCTION RECEIVED\nRC 00\n",
                ..RECEIVING
            },
            REQUIRERS_INSTALLED,
            DELETER_INSTALLED,
            JobStep {
                name: "the deleted function is applied",
                cntl: "SET BDY(TGT1).\nAPPLY SELECT(HAA1100).",
                report: "SET TGT1\nRC 00\nAPPLY TGT1\nHAA1100 FUNCTION DELETED\nRC 08\n",
                ..FAILING
            },
            JobStep {
                report: "SET TGT1\nRC 00\nLIST TGT1\nENTRY HAA1100 - SUPBY - DELBY HCC1200 WAIVED -\n\
                    ENTRY HCC1200 APPLIED 24.138 SUPBY - DELBY - WAIVED -\n\
                    ENTRY HDD1100 APPLIED 24.138 SUPBY - DELBY - WAIVED -\n\
                    ENTRY UA00021 - SUPBY HCC1200 DELBY - WAIVED -\n\
                    ENTRY UA00023 APPLIED 24.138 SUPBY - DELBY - WAIVED -\nRC 00\n",
                ..LISTING
            },
        ],
    },
];

#[test]
fn a_function_deletes_another_unless_its_service_is_required(rt: HostRuntime) -> Result<(), Fail> {
    play_installed(rt.alloc(), DELETIONS)
}
