//! A job that commits twice, and after how many of the two commits the zones are as they are found.

use scripts::compare;
use smpe::JobError;
use smpe_play::{FIX, JOB, JobStep, open_store, run_step};
use sqlite::{Alter, Connection};
use std::alloc::Global;
use std::test::Fail;
use store::Store;
use store_schema::StoreError;

/// A fix is received, looked at with CHECK, applied, and then both once more.
pub(crate) const CHECKED: JobStep = JobStep {
    name: "a fix comes in, is looked at and applied, and both once more",
    cntl: "SET BDY(GLOBAL).\nRECEIVE SYSMODS.\nSET BDY(TGT1).\nAPPLY SELECT(UA00024) CHECK.\n\
        APPLY SELECT(UA00024).\nAPPLY SELECT(UA00024).\nSET BDY(GLOBAL).\nRECEIVE SYSMODS.",
    ptfin: &[FIX],
    code: 4,
    ..JOB
};

/// What each of its commands prints.
pub(crate) const REPORTS: [&str; 8] = [
    "SET GLOBAL\nRC 00\n",
    "RECEIVE GLOBAL\nUA00024 PTF      RECEIVED\nRC 00\n",
    "SET TGT1\nRC 00\n",
    "APPLY TGT1 CHECK\nUA00024 PTF      APPLIED\nRC 00\n",
    "APPLY TGT1\nUA00024 PTF      APPLIED\nRC 00\n",
    "APPLY TGT1\nUA00024 PTF      ALREADY\nRC 04\n",
    "SET GLOBAL\nRC 00\n",
    "RECEIVE GLOBAL\nUA00024 PTF      ALREADY\nRC 04\n",
];

/// What it prints over a store in which its two commits were made before.
pub(crate) const AGAIN: &str =
    "SET GLOBAL\nRC 00\nRECEIVE GLOBAL\nUA00024 PTF      ALREADY\nRC 04\n\
    SET TGT1\nRC 00\nAPPLY TGT1 CHECK\nUA00024 PTF      ALREADY\nRC 04\n\
    APPLY TGT1\nUA00024 PTF      ALREADY\nRC 04\nAPPLY TGT1\nUA00024 PTF      ALREADY\nRC 04\n\
    SET GLOBAL\nRC 00\nRECEIVE GLOBAL\nUA00024 PTF      ALREADY\nRC 04\n";

const LISTED: JobStep = JobStep {
    name: "the global and the target zone are listed",
    cntl: "SET BDY(GLOBAL).\nLIST.\nSET BDY(TGT1).\nLIST.",
    ..JOB
};

/// The zones before both commits, between them, and after both.
const ZONES: [&str; 3] = [
    "SET GLOBAL\nRC 00\nLIST GLOBAL\nSYSMOD HAA1100 FUNCTION SOURCEID -\nRC 00\n\
        SET TGT1\nRC 00\nLIST TGT1\nENTRY HAA1100 APPLIED 24.138 SUPBY - DELBY - WAIVED -\n\
        ELEM MAC   M1       FMID HAA1100 RMID HAA1100 UMID - DISTLIB AMACLIB SYSLIB MACLIB\nRC 00\n",
    "SET GLOBAL\nRC 00\nLIST GLOBAL\nSYSMOD HAA1100 FUNCTION SOURCEID -\nSYSMOD UA00024 PTF      SOURCEID -\n\
        RC 00\nSET TGT1\nRC 00\nLIST TGT1\nENTRY HAA1100 APPLIED 24.138 SUPBY - DELBY - WAIVED -\n\
        ELEM MAC   M1       FMID HAA1100 RMID HAA1100 UMID - DISTLIB AMACLIB SYSLIB MACLIB\nRC 00\n",
    "SET GLOBAL\nRC 00\nLIST GLOBAL\nSYSMOD HAA1100 FUNCTION SOURCEID -\nSYSMOD UA00024 PTF      SOURCEID -\n\
        RC 00\nSET TGT1\nRC 00\nLIST TGT1\nENTRY HAA1100 APPLIED 24.138 SUPBY - DELBY - WAIVED -\n\
        ENTRY UA00024 APPLIED 24.138 SUPBY - DELBY - WAIVED -\n\
        ELEM MAC   M1       FMID HAA1100 RMID HAA1100 UMID - DISTLIB AMACLIB SYSLIB MACLIB\nRC 00\n",
];

/// How many commands have their whole reports in so many bytes.
pub(crate) fn count_whole_reports(len: usize) -> usize {
    let mut left = len;
    let mut count: usize = 0;
    for report in REPORTS {
        if report.len() > left {
            return count;
        }
        left = left.saturating_sub(report.len());
        count = count.saturating_add(1);
    }
    count
}

/// How many of so many first commands commit something.
pub(crate) fn count_commits(commands: usize) -> usize {
    match commands {
        0 | 1 => 0,
        2..=4 => 1,
        _ => 2,
    }
}

/// A failure if this is not a beginning of the whole report.
pub(crate) fn check_beginning(report: &[u8]) -> Result<(), Fail> {
    let mut left = report;
    for text in REPORTS {
        let len = text.len().min(left.len());
        let front = &left[..len];
        if front != &text.as_bytes()[..len] {
            return compare("a report that was cut", front, text);
        }
        left = &left[len..];
    }
    compare("behind the whole report", left, "")
}

/// After how many of the two commits the store's zones look as they do. A failure if these are fewer than `least`.
pub(crate) fn find_commits<S: Alter>(
    alloc: Global,
    store: &mut Store<S>,
    least: usize,
) -> Result<usize, Fail> {
    let mut listing = Vec::new(alloc);
    let _answers = run_step(alloc, store, &LISTED, &mut listing)??;
    for (count, zones) in ZONES.iter().enumerate() {
        if count >= least && listing.as_slice() == zones.as_bytes() {
            return Ok(count);
        }
    }
    compare("the zones", listing.as_slice(), ZONES[least.min(2)])?;
    Err(Fail::from("the zones are those of too few commits"))
}

/// How a run under a fault ended.
#[derive(Clone, Copy, PartialEq, Eq)]
pub(crate) enum Ended {
    /// It was not disturbed.
    Well,
    /// It reported a fault of the store, or that memory ran out.
    Stopped,
}

/// How a run ended that this error stopped. A failure, unless it is a fault of the store or memory ran out.
pub(crate) fn ended_by(error: StoreError) -> Result<Ended, Fail> {
    match error {
        StoreError::Fault | StoreError::Memory => Ok(Ended::Stopped),
        other => Err(Fail::from(other)),
    }
}

/// Opens the store over the connection, runs the job and appends what it prints. Returns the connection as it is.
pub(crate) fn open_and_run<S: Alter + Drop>(
    alloc: Global,
    conn: Connection<S>,
    report: &mut Vec<u8>,
) -> Result<(Connection<S>, Ended), Fail> {
    if !conn.is_autocommit() {
        return Err(Fail::from("a transaction is under way"));
    }
    match Store::open(alloc, conn) {
        Ok(store) => run_in_store(alloc, store, report),
        Err((conn, error)) => Ok((conn, ended_by(error)?)),
    }
}

// Runs the job over the store, appends what it prints, and closes the store.
fn run_in_store<S: Alter + Drop>(
    alloc: Global,
    mut store: Store<S>,
    report: &mut Vec<u8>,
) -> Result<(Connection<S>, Ended), Fail> {
    let how = match run_step(alloc, &mut store, &CHECKED, report)? {
        Ok(_) => Ended::Well,
        Err(JobError::Memory) => Ended::Stopped,
        Err(JobError::Store(error)) => ended_by(error)?,
        Err(other) => return Err(Fail::from(other)),
    };
    Ok((store.close(), how))
}

/// A failure, unless the zones that the job left are those after some first commands: the reported ones, and perhaps
/// the next one, whose report was cut or is missing.
pub(crate) fn check_zones_left<S: Alter + Drop>(
    alloc: Global,
    conn: Connection<S>,
    report: &[u8],
    how: Ended,
) -> Result<(), Fail> {
    check_beginning(report)?;
    let reported = count_whole_reports(report.len());
    let mut store = open_store(alloc, conn, "what the job left")?;
    let count = find_commits(alloc, &mut store, count_commits(reported))?;
    let most = count_commits(reported.saturating_add(1));
    if count > most {
        return Err(Fail::new(format_args!(
            "after {reported} reports: got {count} commits, wanted {most} at most"
        )));
    }
    if how == Ended::Well && reported < REPORTS.len() {
        return Err(Fail::new(format_args!("it ended well after {reported} reports")));
    }
    Ok(())
}
