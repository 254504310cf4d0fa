//! Jobs as text cards, and the jobs with which many cases begin.

/// A job, with a card in each line of its files, and what it prints and answers.
#[derive(Clone, Copy)]
pub struct JobStep {
    /// What is done, in the words of a failure.
    pub name: &'static str,
    pub cntl: &'static str,
    /// SYSMODs, a text for each.
    pub ptfin: &'static [&'static str],
    /// What follows the last record of the PTFIN.
    pub rest: &'static str,
    pub hold: &'static str,
    pub report: &'static str,
    pub code: u8,
}

/// A job without cards that prints nothing and answers 0.
pub const JOB: JobStep = JobStep {
    name: "a job without a name",
    cntl: "",
    ptfin: &[],
    rest: "",
    hold: "",
    report: "",
    code: 0,
};

/// Jobs one after the other over a new database with two zones.
#[derive(Clone, Copy)]
pub struct Case {
    /// What is so, in the words of a failure.
    pub shows: &'static str,
    pub steps: &'static [JobStep],
}

/// A function with one macro.
pub const FUNCTION: &str =
    "++FUNCTION(HAA1100).\n++VER(Z038).\n++MAC(M1) DISTLIB(AMACLIB) SYSLIB(MACLIB).\n         MACRO\t00000010\n\
        \x20        MEND\t00000020";

/// A fix for the first function.
pub const FIX: &str = "++PTF(UA00024).\n++VER(Z038) FMID(HAA1100).";

/// A job in which something fails.
pub const FAILING: JobStep = JobStep { code: 8, ..JOB };

/// A job in which a command is refused.
pub const REFUSED: JobStep = JobStep { code: 12, ..JOB };

/// A job that receives SYSMODs.
pub const RECEIVING: JobStep = JobStep {
    cntl: RECEIVE,
    ..JOB
};

/// A job that lists the target zone.
pub const LISTING: JobStep = JobStep {
    name: "the zone is listed",
    cntl: "SET BDY(TGT1).\nLIST.",
    ..JOB
};

/// A job that lists it with its texts.
pub const LISTING_TEXTS: JobStep = JobStep {
    name: "the zone is listed with its texts",
    cntl: "SET BDY(TGT1).\nLIST TEXT.",
    ..JOB
};

/// The commands that receive SYSMODs.
pub const RECEIVE: &str = "SET BDY(GLOBAL).\nRECEIVE SYSMODS.";

pub const FUNCTION_RECEIVED: JobStep = JobStep {
    name: "the function comes in",
    ptfin: &[FUNCTION],
    report: "SET GLOBAL\nRC 00\nRECEIVE GLOBAL\nHAA1100 FUNCTION RECEIVED\nRC 00\n",
    ..RECEIVING
};

pub const FUNCTION_INSTALLED: JobStep = JobStep {
    name: "the function is applied",
    cntl: "SET BDY(TGT1).\nAPPLY SELECT(HAA1100).",
    report: "SET TGT1\nRC 00\nAPPLY TGT1\nHAA1100 FUNCTION APPLIED\nRC 00\n",
    ..JOB
};

/// The function is received and applied.
pub(crate) const BEGINNING: &[JobStep] = &[FUNCTION_RECEIVED, FUNCTION_INSTALLED];

pub const RIVAL_RECEIVED: JobStep = JobStep {
    name: "another fix that replaces the macro comes in",
    ptfin: &[
        "++PTF(UA00020).\n++VER(Z038) FMID(HAA1100).\n++MAC(M1) DISTLIB(AMACLIB) SYSLIB(MACLIB).\n\
            \x20        MACRO 20\t00000010",
    ],
    report: "SET GLOBAL\nRC 00\nRECEIVE GLOBAL\nUA00020 PTF      RECEIVED\nRC 00\n",
    ..RECEIVING
};

pub const UPDATE_INSTALLED: JobStep = JobStep {
    name: "the update is applied",
    cntl: "SET BDY(TGT1).\nAPPLY SELECT(UA00025).",
    report: "SET TGT1\nRC 00\nAPPLY TGT1\nUA00025 PTF      APPLIED\nRC 00\n",
    ..JOB
};

pub const DELETER_INSTALLED: JobStep = JobStep {
    name: "the function that deletes the other one is applied",
    cntl: "SET BDY(TGT1).\nAPPLY SELECT(HCC1200).",
    report: "SET TGT1\nRC 00\nAPPLY TGT1\nHCC1200 FUNCTION APPLIED\nRC 00\n",
    ..JOB
};

pub const FUNCTION_LISTED: JobStep = JobStep {
    name: "the target zone has the function and its macro",
    cntl: "SET BDY(TGT1).\nLIST.",
    report: "SET TGT1\nRC 00\nLIST TGT1\nENTRY HAA1100 APPLIED 24.138 SUPBY - DELBY - WAIVED -\n\
        ELEM MAC   M1       FMID HAA1100 RMID HAA1100 UMID - DISTLIB AMACLIB SYSLIB MACLIB\nRC 00\n",
    ..JOB
};
