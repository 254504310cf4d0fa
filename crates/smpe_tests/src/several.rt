//! Service for several functions of one SREL.

use smpe_play::{
    Case, FAILING, FUNCTION_RECEIVED, JOB, JobStep, RECEIVING, play_cases, play_installed,
};
use std::test::Fail;

// The fix requires one that is not received if it serves the second function.
const FOR_BOTH_RECEIVED: JobStep = JobStep {
    name: "a second function comes in, and a fix for both",
    ptfin: &[
        "++FUNCTION(HEE1300).\n++VER(Z038).",
        "++PTF(UA00040).\n++VER(Z038) FMID(HAA1100).\n++VER(Z038) FMID(HEE1300) PRE(UA00041).",
    ],
    report: "SET GLOBAL\nRC 00\nRECEIVE GLOBAL\nHEE1300 FUNCTION RECEIVED\nUA00040 PTF      RECEIVED\nRC 00\n",
    ..RECEIVING
};

const SECOND_INSTALLED: JobStep = JobStep {
    name: "the second function is applied",
    cntl: "SET BDY(TGT1).\nAPPLY SELECT(HEE1300).",
    report: "SET TGT1\nRC 00\nAPPLY TGT1\nHEE1300 FUNCTION APPLIED\nRC 00\n",
    ..JOB
};

/// A fix for both that brings a macro.
const MACRO_FOR_BOTH: &str =
    "++PTF(UA00042).\n++VER(Z038) FMID(HAA1100).\n++VER(Z038) FMID(HEE1300).\n\
        ++MAC(M2) DISTLIB(AMACLIB) SYSLIB(MACLIB).\n         MACRO 42\t00000010";

const LEVELS_RECEIVED: JobStep = JobStep {
    name: "a second function, a fix for both with a macro, and a later one for the first come in",
    ptfin: &[
        "++FUNCTION(HEE1300).\n++VER(Z038).",
        MACRO_FOR_BOTH,
        "++PTF(UA00043).\n++VER(Z038) FMID(HAA1100) PRE(UA00042).\n++MAC(M2) DISTLIB(AMACLIB) SYSLIB(MACLIB).\n\
            \x20        MACRO 43\t00000010",
    ],
    report: "SET GLOBAL\nRC 00\nRECEIVE GLOBAL\nHEE1300 FUNCTION RECEIVED\nUA00042 PTF      RECEIVED\n\
        UA00043 PTF      RECEIVED\nRC 00\n",
    ..RECEIVING
};

const BESIDE_THE_FIRST: &[Case] = &[
    Case {
        shows: "with the first function alone nothing is required",
        steps: &[
            FOR_BOTH_RECEIVED,
            JobStep {
                name: "the fix is applied",
                cntl: "SET BDY(TGT1).\nAPPLY SELECT(UA00040).",
                report: "SET TGT1\nRC 00\nAPPLY TGT1\nUA00040 PTF      APPLIED\nRC 00\n",
                ..JOB
            },
        ],
    },
    Case {
        shows: "with the second one beside it nothing tells for which of them the fix is",
        steps: &[
            FOR_BOTH_RECEIVED,
            JobStep {
                name: "the second function and the fix are applied",
                cntl: "SET BDY(TGT1).\nAPPLY SELECT(HEE1300,UA00040).",
                report: "SET TGT1\nRC 00\nAPPLY TGT1\nHEE1300 FUNCTION APPLIED\nUA00040 PTF      FAILED\n\
                    \x20 TEST J13\n  CAUSER UA00040\nRC 08\n",
                ..FAILING
            },
        ],
    },
    Case {
        shows: "the macro can not go back to a level that was accepted for the other function",
        steps: &[
            LEVELS_RECEIVED,
            JobStep {
                name: "the fix for both is applied",
                cntl: "SET BDY(TGT1).\nAPPLY SELECT(UA00042).",
                report: "SET TGT1\nRC 00\nAPPLY TGT1\nUA00042 PTF      APPLIED\nRC 00\n",
                ..JOB
            },
            SECOND_INSTALLED,
            JobStep {
                name: "the fix is accepted for the second function",
                cntl: "SET BDY(DLB1).\nACCEPT SELECT(HEE1300,UA00042).",
                report: "SET DLB1\nRC 00\nACCEPT DLB1\nHEE1300 FUNCTION ACCEPTED\nUA00042 PTF      ACCEPTED\nRC 00\n",
                ..JOB
            },
            JobStep {
                name: "the later fix is applied",
                cntl: "SET BDY(TGT1).\nAPPLY SELECT(UA00043).",
                report: "SET TGT1\nRC 00\nAPPLY TGT1\nUA00043 PTF      APPLIED\nRC 00\n",
                ..JOB
            },
            JobStep {
                name: "the later fix is restored",
                cntl: "SET BDY(TGT1).\nRESTORE SELECT(UA00043).",
                report: "SET TGT1\nRC 00\nRESTORE TGT1\nUA00043 PTF      FAILED\n  TEST J12\n  CAUSER UA00043\n\
                    RC 08\n",
                ..FAILING
            },
        ],
    },
];

#[test]
fn the_ver_that_fits_counts(rt: HostRuntime) -> Result<(), Fail> {
    play_installed(rt.alloc(), BESIDE_THE_FIRST)
}

const FOR_THREE_RECEIVED: JobStep = JobStep {
    name: "three functions come in, a fix for each of them with other requisites, and the requisites",
    ptfin: &[
        "++FUNCTION(HAA1100).\n++VER(Z038).",
        "++FUNCTION(HEE1300).\n++VER(Z038).",
        "++FUNCTION(HFF1400).\n++VER(Z038).",
        "++PTF(UA00050).\n++VER(Z038) FMID(HAA1100).\n++VER(Z038) FMID(HEE1300) PRE(UA00051).\n\
            ++VER(Z038) FMID(HFF1400) REQ(UA00052).",
        "++PTF(UA00051).\n++VER(Z038) FMID(HEE1300).",
        "++PTF(UA00052).\n++VER(Z038) FMID(HFF1400).",
        "++PTF(UA00060).\n++VER(Z038) FMID(HAA1100).\n++IF FMID(HEE1300) THEN REQ(UA00051).\n\
            ++VER(Z038) FMID(HFF1400).\n++IF FMID(HEE1300) THEN REQ(UA00052).",
    ],
    report: "SET GLOBAL\nRC 00\nRECEIVE GLOBAL\nHAA1100 FUNCTION RECEIVED\nHEE1300 FUNCTION RECEIVED\n\
        HFF1400 FUNCTION RECEIVED\nUA00050 PTF      RECEIVED\nUA00051 PTF      RECEIVED\n\
        UA00052 PTF      RECEIVED\nUA00060 PTF      RECEIVED\nRC 00\n",
    ..RECEIVING
};

/// If none of the functions is applied, the first one counts as long as none is a candidate. GROUP brings in all three,
/// and with them what all three require. A candidate alone decides.
const BEFORE: JobStep = JobStep {
    name: "the fix is looked at before any function is applied",
    cntl: "SET BDY(TGT1).\nAPPLY SELECT(UA00050) CHECK.\nAPPLY GROUP(UA00050) CHECK.\n\
        APPLY SELECT(HEE1300,UA00050) CHECK.",
    report: "SET TGT1\nRC 00\nAPPLY TGT1 CHECK\nUA00050 PTF      FAILED\n  NEED FMID HAA1100\n  CAUSER UA00050\n\
        RC 08\nAPPLY TGT1 CHECK\nHAA1100 FUNCTION APPLIED\nHEE1300 FUNCTION APPLIED\nHFF1400 FUNCTION APPLIED\n\
        UA00050 PTF      FAILED\n  TEST J13\n  CAUSER UA00050\nUA00051 PTF      APPLIED\nUA00052 PTF      APPLIED\n\
        RC 08\nAPPLY TGT1 CHECK\nHEE1300 FUNCTION APPLIED\nUA00050 PTF      FAILED\n  NEED PRE UA00051\n\
        \x20 CAUSER UA00050\nRC 08\n",
    ..FAILING
};

/// If the third one is applied, GROUP brings in what it requires, and no other function. FORFMID selects by any FMID.
/// An `++IF` belongs to its own `++VER`.
const BESIDE_THE_THIRD: JobStep = JobStep {
    name: "the fix is looked at beside the third function",
    cntl: "SET BDY(TGT1).\nAPPLY SELECT(HFF1400).\nAPPLY GROUP(UA00050) CHECK.\n\
        APPLY SELECT(HAA1100,UA00050,UA00052) CHECK.\nAPPLY PTFS FORFMID(HEE1300) CHECK.\n\
        APPLY SELECT(HEE1300,UA00060) CHECK.",
    report: "SET TGT1\nRC 00\nAPPLY TGT1\nHFF1400 FUNCTION APPLIED\nRC 00\nAPPLY TGT1 CHECK\n\
        UA00050 PTF      APPLIED\nUA00052 PTF      APPLIED\nRC 00\nAPPLY TGT1 CHECK\nHAA1100 FUNCTION APPLIED\n\
        UA00050 PTF      FAILED\n  TEST J13\n  CAUSER UA00050\nUA00052 PTF      APPLIED\nRC 08\nAPPLY TGT1 CHECK\n\
        UA00050 PTF      FAILED\n  NEED REQ UA00052\n  CAUSER UA00050\nUA00051 PTF      FAILED\n\
        \x20 NEED FMID HEE1300\n  CAUSER UA00051\nRC 08\nAPPLY TGT1 CHECK\nHEE1300 FUNCTION APPLIED\n\
        UA00060 PTF      FAILED\n  NEED IFREQ UA00052\n  CAUSER UA00060\nRC 08\n",
    ..FAILING
};

const ALL_RECEIVED: JobStep = JobStep {
    name: "functions, a fix for both with a macro, a later one, and a function that deletes both come in",
    ptfin: &[
        "++FUNCTION(HAA1100).\n++VER(Z038).",
        "++FUNCTION(HCC1200).\n++VER(Z038) DELETE(HAA1100,HEE1300).",
        "++FUNCTION(HEE1300).\n++VER(Z038).",
        MACRO_FOR_BOTH,
        "++PTF(UA00044).\n++VER(Z038) FMID(HEE1300) PRE(UA00042).\n++MAC(M2) DISTLIB(AMACLIB) SYSLIB(MACLIB).\n\
            \x20        MACRO 44\t00000010",
    ],
    report: "SET GLOBAL\nRC 00\nRECEIVE GLOBAL\nHAA1100 FUNCTION RECEIVED\nHCC1200 FUNCTION RECEIVED\n\
        HEE1300 FUNCTION RECEIVED\nUA00042 PTF      RECEIVED\nUA00044 PTF      RECEIVED\nRC 00\n",
    ..RECEIVING
};

const WITHOUT_THE_FIRST: &[Case] = &[
    Case {
        shows: "with the second function alone its requisite is missing",
        steps: &[
            FUNCTION_RECEIVED,
            FOR_BOTH_RECEIVED,
            SECOND_INSTALLED,
            JobStep {
                name: "the fix is applied",
                cntl: "SET BDY(TGT1).\nAPPLY SELECT(UA00040).",
                report: "SET TGT1\nRC 00\nAPPLY TGT1\nUA00040 PTF      FAILED\n  NEED PRE UA00041\n\
                    \x20 CAUSER UA00040\nRC 08\n",
                ..FAILING
            },
        ],
    },
    Case {
        shows: "candidates decide which ++VER counts, and GROUP brings in what all of them require",
        steps: &[FOR_THREE_RECEIVED, BEFORE, BESIDE_THE_THIRD],
    },
    Case {
        shows: "what was installed for the second function stays so once the first is there: its macro \
            goes back to the accepted level, and goes with the second function",
        steps: &[
            ALL_RECEIVED,
            JobStep {
                name: "the fix is applied and accepted for the second function",
                cntl: "SET BDY(TGT1).\nAPPLY SELECT(HEE1300,UA00042).\nSET BDY(DLB1).\n\
                    ACCEPT SELECT(HEE1300,UA00042).",
                report: "SET TGT1\nRC 00\nAPPLY TGT1\nHEE1300 FUNCTION APPLIED\nUA00042 PTF      APPLIED\nRC 00\n\
                    SET DLB1\nRC 00\nACCEPT DLB1\nHEE1300 FUNCTION ACCEPTED\nUA00042 PTF      ACCEPTED\nRC 00\n",
                ..JOB
            },
            JobStep {
                name: "the first function comes beside it, and a later fix comes and goes",
                cntl: "SET BDY(TGT1).\nAPPLY SELECT(HAA1100).\nAPPLY SELECT(UA00044).\nRESTORE SELECT(UA00044).\n\
                    LIST.",
                report: "SET TGT1\nRC 00\nAPPLY TGT1\nHAA1100 FUNCTION APPLIED\nRC 00\nAPPLY TGT1\n\
                    UA00044 PTF      APPLIED\nRC 00\nRESTORE TGT1\nUA00044 PTF      RESTORED\nRC 00\nLIST TGT1\n\
                    ENTRY HAA1100 APPLIED 24.138 SUPBY - DELBY - WAIVED -\n\
                    ENTRY HEE1300 APPLIED 24.138 SUPBY - DELBY - WAIVED -\n\
                    ENTRY UA00042 APPLIED 24.138 SUPBY - DELBY - WAIVED -\n\
                    ELEM MAC   M2       FMID HEE1300 RMID UA00042 UMID - DISTLIB AMACLIB SYSLIB MACLIB\nRC 00\n",
                ..JOB
            },
            JobStep {
                name: "both functions are deleted where they were accepted",
                cntl: "SET BDY(DLB1).\nACCEPT SELECT(HCC1200) BYPASS(APPLYCHECK).\nLIST.",
                report: "SET DLB1\nRC 00\nACCEPT DLB1\nHCC1200 FUNCTION ACCEPTED\nRC 00\nLIST DLB1\n\
                    ENTRY HAA1100 - SUPBY - DELBY HCC1200 WAIVED -\n\
                    ENTRY HCC1200 ACCEPTED 24.138 SUPBY - DELBY - WAIVED -\n\
                    ENTRY HEE1300 - SUPBY - DELBY HCC1200 WAIVED -\nRC 00\n",
                ..JOB
            },
            JobStep {
                name: "all is restored with GROUP",
                cntl: "SET BDY(TGT1).\nRESTORE GROUP(HAA1100,HEE1300).\nLIST.",
                report: "SET TGT1\nRC 00\nRESTORE TGT1\nHAA1100 FUNCTION RESTORED\nHEE1300 FUNCTION RESTORED\n\
                    UA00042 PTF      RESTORED\nRC 00\nLIST TGT1\nRC 00\n",
                ..JOB
            },
        ],
    },
];

#[test]
fn a_choice_of_ver_is_kept(rt: HostRuntime) -> Result<(), Fail> {
    play_cases(rt.alloc(), WITHOUT_THE_FIRST)
}
