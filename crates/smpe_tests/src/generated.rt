//! Jobs over files that are generated.

use scripts::{card_file, compare};
use smpe::Answer;
use smpe_play::{job_over, run_printing};
use sqlite::Alter;
use std::alloc::Global;
use std::test::Fail;
use store::Store;

/// Runs a job over these files, and compares what it prints. A failure begins with the name.
pub(crate) fn run_job<S: Alter>(
    alloc: Global,
    store: &mut Store<S>,
    name: &str,
    cntl: &str,
    ptfin: &[u8],
    hold: &[u8],
    wanted: &str,
) -> Result<(), Fail> {
    let cntl = card_file(alloc, cntl)?;
    let jobs = [job_over(cntl.as_slice(), ptfin, hold)];
    let mut report = Vec::new(alloc);
    let answers = run_printing(alloc, store, &jobs, &mut report)?;
    compare(name, report.as_slice(), wanted)?;
    if let [Answer::Code(_)] = answers.as_slice() {
        return Ok(());
    }
    Err(Fail::new(format_args!("{name}: no return code")))
}
