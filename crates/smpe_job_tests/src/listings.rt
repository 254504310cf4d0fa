//! Zones by LIST, and errors by REPORT.

use crate::firsts::CUT_PTFIN;
use smpe_play::{
    Case, DELETER_INSTALLED, FAILING, FUNCTION_LISTED, JOB, JobStep, LISTING, LISTING_TEXTS,
    RECEIVING, UPDATE_INSTALLED, play_installed,
};
use std::test::Fail;

const LISTINGS: &[Case] = &[
    Case {
        shows: "of a broken PTFIN nothing is received",
        steps: &[
            CUT_PTFIN,
            JobStep {
                name: "the global zone is listed",
                cntl: "SET BDY(GLOBAL).\nLIST.",
                report: "SET GLOBAL\nRC 00\nLIST GLOBAL\nSYSMOD HAA1100 FUNCTION SOURCEID -\nRC 00\n",
                ..JOB
            },
        ],
    },
    Case {
        shows: "after CHECK the zone is as before",
        steps: &[
            JobStep {
                name: "a fix comes in and is applied with CHECK",
                cntl: "SET BDY(GLOBAL).\nRECEIVE SYSMODS.\nSET BDY(TGT1).\nAPPLY SELECT(UA00024) CHECK.",
                ptfin: &["++PTF(UA00024).\n++VER(Z038) FMID(HAA1100)."],
                report: "SET GLOBAL\nRC 00\nRECEIVE GLOBAL\nUA00024 PTF      RECEIVED\nRC 00\nSET TGT1\nRC 00\n\
                    APPLY TGT1 CHECK\nUA00024 PTF      APPLIED\nRC 00\n",
                ..JOB
            },
            FUNCTION_LISTED,
        ],
    },
    Case {
        shows: "an update gives and deletes records",
        steps: &[
            JobStep {
                name: "the update comes in",
                ptfin: &[
                    "++PTF(UA00025).\n++VER(Z038) FMID(HAA1100).\n++MACUPD(M1).\n./ CHANGE NAME=M1\n\
                        \x20        NEW FIVE\t00000005\n./ DELETE SEQ1=00000010,SEQ2=00000010\n\
                        \x20        NEW TWENTY\t00000020",
                ],
                report: "SET GLOBAL\nRC 00\nRECEIVE GLOBAL\nUA00025 PTF      RECEIVED\nRC 00\n",
                ..RECEIVING
            },
            UPDATE_INSTALLED,
            JobStep {
                report: "SET TGT1\nRC 00\nLIST TGT1\nENTRY HAA1100 APPLIED 24.138 SUPBY - DELBY - WAIVED -\n\
                    ENTRY UA00025 APPLIED 24.138 SUPBY - DELBY - WAIVED -\n\
                    ELEM MAC   M1       FMID HAA1100 RMID HAA1100 UMID UA00025 DISTLIB AMACLIB SYSLIB MACLIB\n\
                    \x20          NEW FIVE                                                       00000005\n\
                    \x20          NEW TWENTY                                                     00000020\nRC 00\n",
                ..LISTING_TEXTS
            },
        ],
    },
];

#[test]
fn a_listing_has_what_the_zone_has(rt: HostRuntime) -> Result<(), Fail> {
    play_installed(rt.alloc(), LISTINGS)
}

/// A zone with something in each column: a superseded and a deleted entry, a waived requisite, an update, two types of
/// elements. And the global zone with a source and with a hold of each mark.
const COLUMNS: &[Case] = &[
    Case {
        shows: "a listing has a column for all that a zone knows",
        steps: &[
            JobStep {
                name: "a PTF with a hold, an update and a CLIST comes in, and a function that deletes another one",
                cntl: "SET BDY(GLOBAL).\nRECEIVE SOURCEID(SRC1).",
                ptfin: &[
                    "++FUNCTION(HCC1200).\n++VER(Z038) DELETE(HDD1100).",
                    "++FUNCTION(HDD1100).\n++VER(Z038).",
                    "++PTF(UA00061).\n++VER(Z038) FMID(HAA1100) PRE(UA00062) SUP(AA00001).\n\
                        ++HOLD(UA00061) SYSTEM FMID(HAA1100) REASON(ACTION).\n++MACUPD(M1).\n./ CHANGE NAME=M1\n\
                        \x20        UPDATED\t00000015\n++CLIST(C1) DISTLIB(ACLIST) SYSLIB(CLIST).\nPROC 0",
                ],
                hold: "++HOLD(UA00099) USER FMID(HAA1100) REASON(WAIT).",
                report: "SET GLOBAL\nRC 00\nRECEIVE GLOBAL\nHCC1200 FUNCTION RECEIVED\nHDD1100 FUNCTION RECEIVED\n\
                    UA00061 PTF      RECEIVED\nUA00099 USER     HELD WAIT\nRC 00\n",
                ..JOB
            },
            JobStep {
                name: "both functions and the PTF are applied with BYPASS",
                cntl: "SET BDY(TGT1).\nAPPLY SELECT(HDD1100).\nAPPLY SELECT(HCC1200,UA00061) BYPASS(PRE,HOLDSYSTEM).",
                report: "SET TGT1\nRC 00\nAPPLY TGT1\nHDD1100 FUNCTION APPLIED\nRC 00\nAPPLY TGT1\n\
                    HCC1200 FUNCTION APPLIED\nUA00061 PTF      APPLIED\nRC 00\n",
                ..JOB
            },
            JobStep {
                name: "both zones are listed",
                cntl: "SET BDY(TGT1).\nLIST TEXT.\nSET BDY(GLOBAL).\nLIST.",
                report: "SET TGT1\nRC 00\nLIST TGT1\nENTRY AA00001 - SUPBY UA00061 DELBY - WAIVED -\n\
                    ENTRY HAA1100 APPLIED 24.138 SUPBY - DELBY - WAIVED -\n\
                    ENTRY HCC1200 APPLIED 24.138 SUPBY - DELBY - WAIVED -\n\
                    ENTRY HDD1100 - SUPBY - DELBY HCC1200 WAIVED -\n\
                    ENTRY UA00061 APPLIED 24.138 SUPBY - DELBY - WAIVED UA00062\n\
                    ELEM MAC   M1       FMID HAA1100 RMID HAA1100 UMID UA00061 DISTLIB AMACLIB SYSLIB MACLIB\n\
                    \x20          MACRO                                                          00000010\n\
                    \x20          UPDATED                                                        00000015\n\
                    \x20          MEND                                                           00000020\n\
                    ELEM CLIST C1       FMID HAA1100 RMID UA00061 UMID - DISTLIB ACLIST SYSLIB CLIST\n\
                    \x20 PROC 0                                                                          \nRC 00\n\
                    SET GLOBAL\nRC 00\nLIST GLOBAL\nSYSMOD HAA1100 FUNCTION SOURCEID -\n\
                    SYSMOD HCC1200 FUNCTION SOURCEID SRC1\nSYSMOD HDD1100 FUNCTION SOURCEID SRC1\n\
                    SYSMOD UA00061 PTF      SOURCEID SRC1\nHOLD UA00061 SYSTEM ACTION INTERNAL\n\
                    HOLD UA00099 USER   WAIT EXTERNAL\nRC 00\n",
                ..JOB
            },
        ],
    },
    Case {
        shows: "the entry of a deleted fix stays while an applied one supersedes it",
        steps: &[
            JobStep {
                name: "two functions and their service come in",
                ptfin: &[
                    "++FUNCTION(HDD1100).\n++VER(Z038).",
                    "++PTF(UA00052).\n++VER(Z038) FMID(HAA1100).",
                    "++PTF(UA00053).\n++VER(Z038) FMID(HDD1100) SUP(UA00052).",
                    "++FUNCTION(HCC1200).\n++VER(Z038) DELETE(HAA1100).",
                ],
                report: "SET GLOBAL\nRC 00\nRECEIVE GLOBAL\nHDD1100 FUNCTION RECEIVED\nUA00052 PTF      RECEIVED\n\
                    UA00053 PTF      RECEIVED\nHCC1200 FUNCTION RECEIVED\nRC 00\n",
                ..RECEIVING
            },
            JobStep {
                name: "the other function is applied",
                cntl: "SET BDY(TGT1).\nAPPLY SELECT(HDD1100).",
                report: "SET TGT1\nRC 00\nAPPLY TGT1\nHDD1100 FUNCTION APPLIED\nRC 00\n",
                ..JOB
            },
            JobStep {
                name: "the fix is applied",
                cntl: "SET BDY(TGT1).\nAPPLY SELECT(UA00052).",
                report: "SET TGT1\nRC 00\nAPPLY TGT1\nUA00052 PTF      APPLIED\nRC 00\n",
                ..JOB
            },
            JobStep {
                name: "the fix that supersedes it is applied",
                cntl: "SET BDY(TGT1).\nAPPLY SELECT(UA00053).",
                report: "SET TGT1\nRC 00\nAPPLY TGT1\nUA00053 PTF      APPLIED\nRC 00\n",
                ..JOB
            },
            DELETER_INSTALLED,
            JobStep {
                report: "SET TGT1\nRC 00\nLIST TGT1\nENTRY HAA1100 - SUPBY - DELBY HCC1200 WAIVED -\n\
                    ENTRY HCC1200 APPLIED 24.138 SUPBY - DELBY - WAIVED -\n\
                    ENTRY HDD1100 APPLIED 24.138 SUPBY - DELBY - WAIVED -\n\
                    ENTRY UA00052 - SUPBY UA00053 DELBY - WAIVED -\n\
                    ENTRY UA00053 APPLIED 24.138 SUPBY - DELBY - WAIVED -\nRC 00\n",
                ..LISTING
            },
        ],
    },
];

#[test]
fn a_listing_has_every_column(rt: HostRuntime) -> Result<(), Fail> {
    play_installed(rt.alloc(), COLUMNS)
}

const REPORTS: &[Case] = &[
    Case {
        shows: "what is applied and held for error is reported with what resolves it",
        steps: &[
            JobStep {
                name: "a fix comes in",
                ptfin: &["++PTF(UA00005).\n++VER(Z038) FMID(HAA1100)."],
                report: "SET GLOBAL\nRC 00\nRECEIVE GLOBAL\nUA00005 PTF      RECEIVED\nRC 00\n",
                ..RECEIVING
            },
            JobStep {
                name: "it is applied",
                cntl: "SET BDY(TGT1).\nAPPLY SELECT(UA00005).",
                report: "SET TGT1\nRC 00\nAPPLY TGT1\nUA00005 PTF      APPLIED\nRC 00\n",
                ..JOB
            },
            JobStep {
                name: "its resolver and the hold come in",
                cntl: "SET BDY(GLOBAL).\nRECEIVE SYSMODS HOLDDATA.",
                ptfin: &["++PTF(UA00006).\n++VER(Z038) FMID(HAA1100) SUP(AA00009)."],
                hold: "++HOLD(UA00005) ERROR FMID(HAA1100) REASON(AA00009).",
                report: "SET GLOBAL\nRC 00\nRECEIVE GLOBAL\nUA00006 PTF      RECEIVED\n\
                    UA00005 ERROR    HELD AA00009\nRC 00\n",
                ..JOB
            },
            JobStep {
                name: "errors are reported",
                cntl: "SET BDY(TGT1).\nREPORT ERRSYSMODS.",
                report: "SET TGT1\nRC 00\nREPORT TGT1\nERRSYSMOD UA00005 AA00009\n  RESOLVER UA00006\nRC 04\n",
                code: 4,
                ..JOB
            },
        ],
    },
    Case {
        shows: "a failed SYSMOD names each causer that it reaches",
        steps: &[
            JobStep {
                name: "four fixes and two holds come in",
                cntl: "SET BDY(GLOBAL).\nRECEIVE SYSMODS HOLDDATA.",
                ptfin: &[
                    "++PTF(UA00044).\n++VER(Z038) FMID(HAA1100) PRE(UA00045).",
                    "++PTF(UA00045).\n++VER(Z038) FMID(HAA1100) PRE(UA00046) REQ(UA00047).",
                    "++PTF(UA00046).\n++VER(Z038) FMID(HAA1100).",
                    "++PTF(UA00047).\n++VER(Z038) FMID(HAA1100).",
                ],
                hold: "++HOLD(UA00046) SYSTEM FMID(HAA1100) REASON(ACTION).\n\
                    ++HOLD(UA00047) USER FMID(HAA1100) REASON(WAIT).",
                report: "SET GLOBAL\nRC 00\nRECEIVE GLOBAL\nUA00044 PTF      RECEIVED\nUA00045 PTF      RECEIVED\n\
                    UA00046 PTF      RECEIVED\nUA00047 PTF      RECEIVED\nUA00046 SYSTEM   HELD ACTION\n\
                    UA00047 USER     HELD WAIT\nRC 00\n",
                ..JOB
            },
            JobStep {
                name: "all are applied",
                cntl: "SET BDY(TGT1).\nAPPLY SELECT(UA00044,UA00045,UA00046,UA00047).",
                report: "SET TGT1\nRC 00\nAPPLY TGT1\nUA00044 PTF      FAILED\n  NEED PRE UA00045\n\
                    \x20 CAUSER UA00046\n  CAUSER UA00047\nUA00045 PTF      FAILED\n  NEED PRE UA00046\n\
                    \x20 NEED REQ UA00047\n  CAUSER UA00046\n  CAUSER UA00047\nUA00046 PTF      FAILED\n  TEST J1\n\
                    \x20 CAUSER UA00046\nUA00047 PTF      FAILED\n  TEST J2\n  CAUSER UA00047\nRC 08\n",
                ..FAILING
            },
        ],
    },
    Case {
        shows: "what resolves an error may supersede its reason by several steps",
        steps: &[
            JobStep {
                name: "three fixes come in, and the first is applied",
                cntl: "SET BDY(GLOBAL).\nRECEIVE SYSMODS.\nSET BDY(TGT1).\nAPPLY SELECT(UA00071).",
                ptfin: &[
                    "++PTF(UA00071).\n++VER(Z038) FMID(HAA1100).",
                    "++PTF(UA00072).\n++VER(Z038) FMID(HAA1100) SUP(AA00071).",
                    "++PTF(UA00073).\n++VER(Z038) FMID(HAA1100) SUP(UA00072).",
                ],
                report: "SET GLOBAL\nRC 00\nRECEIVE GLOBAL\nUA00071 PTF      RECEIVED\nUA00072 PTF      RECEIVED\n\
                    UA00073 PTF      RECEIVED\nRC 00\nSET TGT1\nRC 00\nAPPLY TGT1\nUA00071 PTF      APPLIED\n\
                    RC 00\n",
                ..JOB
            },
            JobStep {
                name: "two holds come in, and errors are reported",
                cntl: "SET BDY(GLOBAL).\nRECEIVE HOLDDATA.\nSET BDY(TGT1).\nREPORT ERRSYSMODS.",
                hold: "++HOLD(UA00071) ERROR FMID(HAA1100) REASON(AA00070).\n\
                    ++HOLD(UA00071) ERROR FMID(HAA1100) REASON(AA00071).",
                report: "SET GLOBAL\nRC 00\nRECEIVE GLOBAL\nUA00071 ERROR    HELD AA00070\n\
                    UA00071 ERROR    HELD AA00071\nRC 00\nSET TGT1\nRC 00\nREPORT TGT1\nERRSYSMOD UA00071 AA00070\n\
                    \x20 RESOLVER -\nERRSYSMOD UA00071 AA00071\n  RESOLVER UA00072\n  RESOLVER UA00073\nRC 04\n",
                code: 4,
                ..JOB
            },
        ],
    },
];

#[test]
fn a_report_names_resolvers_and_causers(rt: HostRuntime) -> Result<(), Fail> {
    play_installed(rt.alloc(), REPORTS)
}
