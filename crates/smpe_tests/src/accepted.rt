//! What ACCEPT demands of the related target zone.

use smpe_play::{Case, FAILING, JOB, JobStep, RECEIVING, play_installed};
use std::test::Fail;

pub(crate) const FUNCTION_ACCEPTED: JobStep = JobStep {
    name: "the function is accepted",
    cntl: "SET BDY(DLB1).\nACCEPT SELECT(HAA1100).",
    report: "SET DLB1\nRC 00\nACCEPT DLB1\nHAA1100 FUNCTION ACCEPTED\nRC 00\n",
    ..JOB
};

const FIX_RECEIVED: JobStep = JobStep {
    name: "the fix comes in",
    ptfin: &["++PTF(UA00024).\n++VER(Z038) FMID(HAA1100)."],
    report: "SET GLOBAL\nRC 00\nRECEIVE GLOBAL\nUA00024 PTF      RECEIVED\nRC 00\n",
    ..RECEIVING
};

const ACCEPTS: &[Case] = &[
    Case {
        shows: "what is accepted must be applied in the related target zone",
        steps: &[
            FUNCTION_ACCEPTED,
            FIX_RECEIVED,
            JobStep {
                name: "the fix is accepted",
                cntl: "SET BDY(DLB1).\nACCEPT SELECT(UA00024).",
                report: "SET DLB1\nRC 00\nACCEPT DLB1\nUA00024 PTF      FAILED\n  TEST J7\n  CAUSER UA00024\nRC 08\n",
                ..FAILING
            },
        ],
    },
    Case {
        shows: "BYPASS(APPLYCHECK) does not ask for that",
        steps: &[
            FUNCTION_ACCEPTED,
            FIX_RECEIVED,
            JobStep {
                name: "the fix is accepted with BYPASS(APPLYCHECK)",
                cntl: "SET BDY(DLB1).\nACCEPT SELECT(UA00024) BYPASS(APPLYCHECK).",
                report: "SET DLB1\nRC 00\nACCEPT DLB1\nUA00024 PTF      ACCEPTED\nRC 00\n",
                ..JOB
            },
        ],
    },
];

#[test]
fn what_is_accepted_must_be_applied(rt: HostRuntime) -> Result<(), Fail> {
    play_installed(rt.alloc(), ACCEPTS)
}
