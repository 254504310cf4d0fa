//! Macros that several SYSMODs replace, and updates.

use smpe_play::{
    Case, FAILING, JOB, JobStep, LISTING, LISTING_TEXTS, RECEIVING, RIVAL_RECEIVED,
    UPDATE_INSTALLED, play_installed,
};
use std::test::Fail;

const REPLACEMENTS: &[Case] = &[
    Case {
        shows: "two that replace one macro, neither over the other, fail together",
        steps: &[
            JobStep {
                name: "two that replace the macro come in",
                ptfin: &[
                    "++PTF(UA00015).\n++VER(Z038) FMID(HAA1100).\n++MAC(M1) DISTLIB(AMACLIB) SYSLIB(MACLIB).\n\
                        \x20        MACRO 15\t00000010",
                    "++PTF(UA00016).\n++VER(Z038) FMID(HAA1100).\n++MAC(M1) DISTLIB(AMACLIB) SYSLIB(MACLIB).\n\
                        \x20        MACRO 16\t00000010",
                ],
                report: "SET GLOBAL\nRC 00\nRECEIVE GLOBAL\nUA00015 PTF      RECEIVED\nUA00016 PTF      RECEIVED\n\
                    RC 00\n",
                ..RECEIVING
            },
            JobStep {
                name: "both are applied",
                cntl: "SET BDY(TGT1).\nAPPLY SELECT(UA00015,UA00016).",
                report: "SET TGT1\nRC 00\nAPPLY TGT1\nUA00015 PTF      FAILED\n  TEST J9\n  CAUSER UA00015\n\
                    UA00016 PTF      FAILED\n  TEST J9\n  CAUSER UA00016\nRC 08\n",
                ..FAILING
            },
        ],
    },
    Case {
        shows: "three that replace one macro, each over the one before, go on together, and one \
            that is over none of them fails",
        steps: &[
            JobStep {
                name: "three that replace the macro come in",
                ptfin: &[
                    "++PTF(UA00017).\n++VER(Z038) FMID(HAA1100).\n++MAC(M1) DISTLIB(AMACLIB) SYSLIB(MACLIB).\n\
                        \x20        MACRO 17\t00000010",
                    "++PTF(UA00018).\n++VER(Z038) FMID(HAA1100) PRE(UA00017).\n\
                        ++MAC(M1) DISTLIB(AMACLIB) SYSLIB(MACLIB).\n         MACRO 18\t00000010",
                    "++PTF(UA00019).\n++VER(Z038) FMID(HAA1100) PRE(UA00018).\n\
                        ++MAC(M1) DISTLIB(AMACLIB) SYSLIB(MACLIB).\n         MACRO 19\t00000010",
                ],
                report: "SET GLOBAL\nRC 00\nRECEIVE GLOBAL\nUA00017 PTF      RECEIVED\nUA00018 PTF      RECEIVED\n\
                    UA00019 PTF      RECEIVED\nRC 00\n",
                ..RECEIVING
            },
            JobStep {
                name: "all are applied",
                cntl: "SET BDY(TGT1).\nAPPLY.",
                report: "SET TGT1\nRC 00\nAPPLY TGT1\nUA00017 PTF      APPLIED\nUA00018 PTF      APPLIED\n\
                    UA00019 PTF      APPLIED\nRC 00\n",
                ..JOB
            },
            JobStep {
                report: "SET TGT1\nRC 00\nLIST TGT1\nENTRY HAA1100 APPLIED 24.138 SUPBY - DELBY - WAIVED -\n\
                    ENTRY UA00017 APPLIED 24.138 SUPBY - DELBY - WAIVED -\n\
                    ENTRY UA00018 APPLIED 24.138 SUPBY - DELBY - WAIVED -\n\
                    ENTRY UA00019 APPLIED 24.138 SUPBY - DELBY - WAIVED -\n\
                    ELEM MAC   M1       FMID HAA1100 RMID UA00019 UMID - DISTLIB AMACLIB SYSLIB MACLIB\nRC 00\n",
                ..LISTING
            },
            RIVAL_RECEIVED,
            JobStep {
                name: "the rival is applied",
                cntl: "SET BDY(TGT1).\nAPPLY SELECT(UA00020).",
                report: "SET TGT1\nRC 00\nAPPLY TGT1\nUA00020 PTF      FAILED\n  TEST J5\n  CAUSER UA00020\nRC 08\n",
                ..FAILING
            },
        ],
    },
];

#[test]
fn replacements_of_a_macro_go_on_in_an_order(rt: HostRuntime) -> Result<(), Fail> {
    play_installed(rt.alloc(), REPLACEMENTS)
}

const UPDATES: &[Case] = &[
    Case {
        shows: "an update gives a record in a range that it deletes",
        steps: &[
            JobStep {
                name: "the update comes in",
                ptfin: &[
                    "++PTF(UA00025).\n++VER(Z038) FMID(HAA1100).\n++MACUPD(M1).\n./ CHANGE NAME=M1\n\
                        \x20        NEW FIVE\t00000005\n./ DELETE SEQ1=00000010,SEQ2=00000010\n\
                        \x20        NEW TEN\t00000010\n         NEW TWENTY\t00000020",
                ],
                report: "SET GLOBAL\nRC 00\nRECEIVE GLOBAL\nUA00025 PTF      RECEIVED\nRC 00\n",
                ..RECEIVING
            },
            UPDATE_INSTALLED,
            JobStep {
                report: "SET TGT1\nRC 00\nLIST TGT1\nENTRY HAA1100 APPLIED 24.138 SUPBY - DELBY - WAIVED -\n\
                    ENTRY UA00025 APPLIED 24.138 SUPBY - DELBY - WAIVED -\n\
                    ELEM MAC   M1       FMID HAA1100 RMID HAA1100 UMID UA00025 DISTLIB AMACLIB SYSLIB MACLIB\n\
                    \x20          NEW FIVE                                                       00000005\n\
                    \x20          NEW TEN                                                        00000010\n\
                    \x20          NEW TWENTY                                                     00000020\nRC 00\n",
                ..LISTING_TEXTS
            },
        ],
    },
    Case {
        shows: "an update may delete each record",
        steps: &[
            JobStep {
                name: "the update comes in",
                ptfin: &[
                    "++PTF(UA00026).\n++VER(Z038) FMID(HAA1100).\n++MACUPD(M1).\n./ CHANGE NAME=M1\n\
                        ./ DELETE SEQ1=00000000,SEQ2=99999999",
                ],
                report: "SET GLOBAL\nRC 00\nRECEIVE GLOBAL\nUA00026 PTF      RECEIVED\nRC 00\n",
                ..RECEIVING
            },
            JobStep {
                name: "it is applied",
                cntl: "SET BDY(TGT1).\nAPPLY SELECT(UA00026).",
                report: "SET TGT1\nRC 00\nAPPLY TGT1\nUA00026 PTF      APPLIED\nRC 00\n",
                ..JOB
            },
            JobStep {
                report: "SET TGT1\nRC 00\nLIST TGT1\nENTRY HAA1100 APPLIED 24.138 SUPBY - DELBY - WAIVED -\n\
                    ENTRY UA00026 APPLIED 24.138 SUPBY - DELBY - WAIVED -\n\
                    ELEM MAC   M1       FMID HAA1100 RMID HAA1100 UMID UA00026 DISTLIB AMACLIB SYSLIB MACLIB\n\
                    RC 00\n",
                ..LISTING_TEXTS
            },
        ],
    },
    Case {
        shows: "an update of a macro that is not there fails",
        steps: &[
            JobStep {
                name: "the update comes in",
                ptfin: &[
                    "++PTF(UA00038).\n++VER(Z038) FMID(HAA1100).\n++MACUPD(M9).\n./ CHANGE NAME=M9\n\
                        \x20        NEW LINE\t00000010",
                ],
                report: "SET GLOBAL\nRC 00\nRECEIVE GLOBAL\nUA00038 PTF      RECEIVED\nRC 00\n",
                ..RECEIVING
            },
            JobStep {
                name: "it is applied",
                cntl: "SET BDY(TGT1).\nAPPLY SELECT(UA00038).",
                report: "SET TGT1\nRC 00\nAPPLY TGT1\nUA00038 PTF      FAILED\n  TEST J6\n  CAUSER UA00038\nRC 08\n",
                ..FAILING
            },
        ],
    },
];

#[test]
fn an_update_changes_the_text_that_is_there(rt: HostRuntime) -> Result<(), Fail> {
    play_installed(rt.alloc(), UPDATES)
}
