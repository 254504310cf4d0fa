//! What RESTORE takes off, and to which level elements go back.

use crate::accepted::FUNCTION_ACCEPTED;
use smpe_play::{
    Case, FAILING, FUNCTION_LISTED, JOB, JobStep, LISTING, LISTING_TEXTS, RECEIVING,
    RIVAL_RECEIVED, play_installed,
};
use std::test::Fail;

const REPLACEMENT_RECEIVED: JobStep = JobStep {
    name: "a fix that replaces the macro comes in",
    ptfin: &[
        "++PTF(UA00017).\n++VER(Z038) FMID(HAA1100).\n++MAC(M1) DISTLIB(AMACLIB) SYSLIB(MACLIB).\n\
            \x20        MACRO 17\t00000010",
    ],
    report: "SET GLOBAL\nRC 00\nRECEIVE GLOBAL\nUA00017 PTF      RECEIVED\nRC 00\n",
    ..RECEIVING
};

const REPLACEMENT_INSTALLED: JobStep = JobStep {
    name: "it is applied",
    cntl: "SET BDY(TGT1).\nAPPLY SELECT(UA00017).",
    report: "SET TGT1\nRC 00\nAPPLY TGT1\nUA00017 PTF      APPLIED\nRC 00\n",
    ..JOB
};

const LEVELS: &[Case] = &[
    Case {
        shows: "an element goes back to no level that is not accepted",
        steps: &[
            REPLACEMENT_RECEIVED,
            REPLACEMENT_INSTALLED,
            JobStep {
                name: "the fix is restored",
                cntl: "SET BDY(TGT1).\nRESTORE SELECT(UA00017).",
                report: "SET TGT1\nRC 00\nRESTORE TGT1\nUA00017 PTF      FAILED\n  NEED ELEM HAA1100\n\
                    \x20 CAUSER UA00017\nRC 08\n",
                ..FAILING
            },
        ],
    },
    Case {
        shows: "function and fix go together, and the zone is empty",
        steps: &[
            REPLACEMENT_RECEIVED,
            REPLACEMENT_INSTALLED,
            JobStep {
                name: "both are restored",
                cntl: "SET BDY(TGT1).\nRESTORE SELECT(HAA1100,UA00017).",
                report: "SET TGT1\nRC 00\nRESTORE TGT1\nHAA1100 FUNCTION RESTORED\nUA00017 PTF      RESTORED\n\
                    RC 00\n",
                ..JOB
            },
            JobStep {
                report: "SET TGT1\nRC 00\nLIST TGT1\nRC 00\n",
                ..LISTING
            },
        ],
    },
    Case {
        shows: "the macro is the distribution zone's again",
        steps: &[
            REPLACEMENT_RECEIVED,
            REPLACEMENT_INSTALLED,
            FUNCTION_ACCEPTED,
            JobStep {
                name: "the fix is restored",
                cntl: "SET BDY(TGT1).\nRESTORE SELECT(UA00017).",
                report: "SET TGT1\nRC 00\nRESTORE TGT1\nUA00017 PTF      RESTORED\nRC 00\n",
                ..JOB
            },
            JobStep {
                report: "SET TGT1\nRC 00\nLIST TGT1\nENTRY HAA1100 APPLIED 24.138 SUPBY - DELBY - WAIVED -\n\
                    ELEM MAC   M1       FMID HAA1100 RMID HAA1100 UMID - DISTLIB AMACLIB SYSLIB MACLIB\n\
                    \x20          MACRO                                                          00000010\n\
                    \x20          MEND                                                           00000020\nRC 00\n",
                ..LISTING_TEXTS
            },
        ],
    },
    Case {
        shows: "GROUP follows nothing from an id that is not applied",
        steps: &[
            REPLACEMENT_RECEIVED,
            REPLACEMENT_INSTALLED,
            RIVAL_RECEIVED,
            JobStep {
                name: "the rival is restored with GROUP",
                cntl: "SET BDY(TGT1).\nRESTORE GROUP(UA00020).",
                report: "SET TGT1\nRC 00\nRESTORE TGT1\nUA00020 PTF      NOTAPPLIED\nRC 08\n",
                ..FAILING
            },
            JobStep {
                report: "SET TGT1\nRC 00\nLIST TGT1\nENTRY HAA1100 APPLIED 24.138 SUPBY - DELBY - WAIVED -\n\
                    ENTRY UA00017 APPLIED 24.138 SUPBY - DELBY - WAIVED -\n\
                    ELEM MAC   M1       FMID HAA1100 RMID UA00017 UMID - DISTLIB AMACLIB SYSLIB MACLIB\n\
                    \x20          MACRO 17                                                       00000010\nRC 00\n",
                ..LISTING_TEXTS
            },
        ],
    },
];

#[test]
fn a_macro_goes_back_to_its_accepted_level(rt: HostRuntime) -> Result<(), Fail> {
    play_installed(rt.alloc(), LEVELS)
}

const PAIR_RECEIVED: JobStep = JobStep {
    name: "a fix comes in, and one that requires it",
    ptfin: &[
        "++PTF(UA00021).\n++VER(Z038) FMID(HAA1100).",
        "++PTF(UA00022).\n++VER(Z038) FMID(HAA1100) PRE(UA00021).",
    ],
    report: "SET GLOBAL\nRC 00\nRECEIVE GLOBAL\nUA00021 PTF      RECEIVED\nUA00022 PTF      RECEIVED\nRC 00\n",
    ..RECEIVING
};

const PAIR_INSTALLED: JobStep = JobStep {
    name: "both are applied",
    cntl: "SET BDY(TGT1).\nAPPLY SELECT(UA00021,UA00022).",
    report: "SET TGT1\nRC 00\nAPPLY TGT1\nUA00021 PTF      APPLIED\nUA00022 PTF      APPLIED\nRC 00\n",
    ..JOB
};

const DEPENDENTS: &[Case] = &[
    Case {
        shows: "what another applied SYSMOD requires stays",
        steps: &[
            PAIR_RECEIVED,
            PAIR_INSTALLED,
            JobStep {
                name: "the required fix is restored",
                cntl: "SET BDY(TGT1).\nRESTORE SELECT(UA00021).",
                report: "SET TGT1\nRC 00\nRESTORE TGT1\nUA00021 PTF      FAILED\n  NEED DEP UA00022\n\
                    \x20 CAUSER UA00021\nRC 08\n",
                ..FAILING
            },
        ],
    },
    Case {
        shows: "GROUP takes the dependent one off as well",
        steps: &[
            PAIR_RECEIVED,
            PAIR_INSTALLED,
            JobStep {
                name: "the required fix is restored with GROUP",
                cntl: "SET BDY(TGT1).\nRESTORE GROUP(UA00021).",
                report: "SET TGT1\nRC 00\nRESTORE TGT1\nUA00021 PTF      RESTORED\nUA00022 PTF      RESTORED\n\
                    RC 00\n",
                ..JOB
            },
            FUNCTION_LISTED,
        ],
    },
    Case {
        shows: "what is accepted can not be restored",
        steps: &[
            PAIR_RECEIVED,
            PAIR_INSTALLED,
            JobStep {
                name: "the function and the fix are accepted",
                cntl: "SET BDY(DLB1).\nACCEPT SELECT(HAA1100,UA00021).",
                report: "SET DLB1\nRC 00\nACCEPT DLB1\nHAA1100 FUNCTION ACCEPTED\nUA00021 PTF      ACCEPTED\nRC 00\n",
                ..JOB
            },
            JobStep {
                name: "the fix is restored",
                cntl: "SET BDY(TGT1).\nRESTORE SELECT(UA00021).",
                report: "SET TGT1\nRC 00\nRESTORE TGT1\nUA00021 PTF      FAILED\n  TEST J10\n  NEED DEP UA00022\n\
                    \x20 CAUSER UA00021\nRC 08\n",
                ..FAILING
            },
        ],
    },
];

#[test]
fn what_is_required_or_accepted_stays(rt: HostRuntime) -> Result<(), Fail> {
    play_installed(rt.alloc(), DEPENDENTS)
}

const EMPTIED: &[Case] = &[Case {
    shows: "what is superseded, and deleted where it was accepted, can be restored until the zone is empty",
    steps: &[
        FUNCTION_ACCEPTED,
        JobStep {
            name: "a fix, its superseder and a deleting function come in",
            ptfin: &[
                "++PTF(UA00011).\n++VER(Z038) FMID(HAA1100).",
                "++PTF(UA00012).\n++VER(Z038) FMID(HAA1100) SUP(UA00011).",
                "++FUNCTION(HCC1200).\n++VER(Z038) DELETE(HAA1100).",
            ],
            report: "SET GLOBAL\nRC 00\nRECEIVE GLOBAL\nUA00011 PTF      RECEIVED\nUA00012 PTF      RECEIVED\n\
                HCC1200 FUNCTION RECEIVED\nRC 00\n",
            ..RECEIVING
        },
        JobStep {
            name: "the fix is applied, and then its superseder",
            cntl: "SET BDY(TGT1).\nAPPLY SELECT(UA00011).\nAPPLY SELECT(UA00012).\nLIST.",
            report: "SET TGT1\nRC 00\nAPPLY TGT1\nUA00011 PTF      APPLIED\nRC 00\nAPPLY TGT1\n\
                UA00012 PTF      APPLIED\nRC 00\nLIST TGT1\nENTRY HAA1100 APPLIED 24.138 SUPBY - DELBY - WAIVED -\n\
                ENTRY UA00011 APPLIED 24.138 SUPBY UA00012 DELBY - WAIVED -\n\
                ENTRY UA00012 APPLIED 24.138 SUPBY - DELBY - WAIVED -\n\
                ELEM MAC   M1       FMID HAA1100 RMID HAA1100 UMID - DISTLIB AMACLIB SYSLIB MACLIB\nRC 00\n",
            ..JOB
        },
        JobStep {
            name: "the function is deleted where it was accepted",
            cntl: "SET BDY(DLB1).\nACCEPT SELECT(HCC1200) BYPASS(APPLYCHECK).\nLIST.",
            report: "SET DLB1\nRC 00\nACCEPT DLB1\nHCC1200 FUNCTION ACCEPTED\nRC 00\nLIST DLB1\n\
                ENTRY HAA1100 - SUPBY - DELBY HCC1200 WAIVED -\n\
                ENTRY HCC1200 ACCEPTED 24.138 SUPBY - DELBY - WAIVED -\nRC 00\n",
            ..JOB
        },
        JobStep {
            name: "all is restored with GROUP",
            cntl: "SET BDY(TGT1).\nRESTORE GROUP(HAA1100).\nLIST.",
            report: "SET TGT1\nRC 00\nRESTORE TGT1\nHAA1100 FUNCTION RESTORED\nUA00011 PTF      RESTORED\n\
                UA00012 PTF      RESTORED\nRC 00\nLIST TGT1\nRC 00\n",
            ..JOB
        },
    ],
}];

#[test]
fn a_whole_group_can_be_restored(rt: HostRuntime) -> Result<(), Fail> {
    play_installed(rt.alloc(), EMPTIED)
}
