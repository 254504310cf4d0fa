//! A writer that takes so many bytes and no more: what went out is a beginning of the report, and each command up to
//! the one in which it was cut is stored.

use crate::checked::{AGAIN, CHECKED, REPORTS, count_commits, count_whole_reports, find_commits};
use report::Out;
use scripts::{card_file, compare};
use smpe::{Answer, JobError, run_jobs};
use smpe_play::{FIX, installed, job_over, open_in_memory};
use sqlite::{Alter, Connection};
use std::alloc::Global;
use std::io::{self, ErrorKind, Write};
use std::test::Fail;
use store::Store;

/// Takes so many bytes, and then none, or returns an error.
#[derive(Drop)]
struct LimitedWriter {
    taken: Vec<u8>,
    left: usize,
    has_error: bool,
}

impl Write for LimitedWriter {
    fn write(&mut self, bytes: &[u8]) -> io::Result<usize> {
        if self.left == 0 && self.has_error {
            return Err(io::Error::from(ErrorKind::BrokenPipe));
        }
        let len = bytes.len().min(self.left);
        self.taken.extend_from_slice(&bytes[..len])?;
        self.left = self.left.saturating_sub(len);
        Ok(len)
    }

    fn flush(&mut self) -> io::Result<()> {
        Ok(())
    }
}

// Runs the job with this writer.
fn run_with_writer<S: Alter>(
    alloc: Global,
    store: &mut Store<S>,
    writer: &mut LimitedWriter,
) -> Result<Result<Vec<Answer>, JobError>, Fail> {
    let cntl = card_file(alloc, CHECKED.cntl)?;
    let ptfin = card_file(alloc, FIX)?;
    let jobs = [job_over(cntl.as_slice(), ptfin.as_slice(), b"")];
    Ok(run_jobs(alloc, store, &jobs, &mut Out::new(writer)))
}

// The whole report.
fn whole_report(alloc: Global) -> Result<Vec<u8>, Fail> {
    let mut text = Vec::new(alloc);
    for report in REPORTS {
        text.extend_from_slice(report.as_bytes())?;
    }
    Ok(text)
}

// A failure, unless what went out is the first bytes of the report and the job ended as it must.
fn check_cut_report(
    wanted: &[u8],
    len: usize,
    got: &[u8],
    answer: Result<Vec<Answer>, JobError>,
) -> Result<(), Fail> {
    if got != &wanted[..len.min(wanted.len())] {
        return Err(Fail::new(format_args!("{len} bytes: {} went out", got.len())));
    }
    match answer {
        Ok(_) if len >= wanted.len() => Ok(()),
        Err(JobError::Write) if len < wanted.len() => Ok(()),
        Ok(_) => Err(Fail::new(format_args!("{len} bytes: it ended well"))),
        Err(error) => Err(Fail::from(error)),
    }
}

// Runs the job with a writer that takes so many bytes, over a new database, and checks what went out and is stored.
fn run_with_limit<S: Alter + Drop>(
    alloc: Global,
    conn: Connection<S>,
    wanted: &[u8],
    left: usize,
    has_error: bool,
) -> Result<Store<S>, Fail> {
    let mut store = installed(alloc, conn)?;
    let mut writer = LimitedWriter {
        taken: Vec::new(alloc),
        left,
        has_error,
    };
    let answer = run_with_writer(alloc, &mut store, &mut writer)?;
    check_cut_report(wanted, left, writer.taken.as_slice(), answer)?;
    // The command in which the report was cut is stored too.
    let commands = count_whole_reports(left).saturating_add(1);
    let count = find_commits(alloc, &mut store, 0)?;
    if count != count_commits(commands) {
        return Err(Fail::new(format_args!(
            "{left} bytes: got {count} commits, wanted {}",
            count_commits(commands)
        )));
    }
    Ok(store)
}

// Runs the job once more with a writer that takes everything, over a store in which both its commits were made.
fn run_again<S: Alter + Drop>(alloc: Global, mut store: Store<S>) -> Result<(), Fail> {
    let mut writer = LimitedWriter {
        taken: Vec::new(alloc),
        left: 10_000,
        has_error: true,
    };
    let answers = run_with_writer(alloc, &mut store, &mut writer)??;
    compare("the job once more", writer.taken.as_slice(), AGAIN)?;
    match answers.as_slice() {
        [Answer::Code(4)] => Ok(()),
        _ => Err(Fail::from("the return code is not 4")),
    }
}

// Runs the job with each limit from none to all bytes of the report.
fn run_with_each_limit(alloc: Global, has_error: bool) -> Result<(), Fail> {
    let wanted = whole_report(alloc)?;
    for left in 0..=wanted.len() {
        let conn = open_in_memory(alloc)?;
        let _store = run_with_limit(alloc, conn, wanted.as_slice(), left, has_error)?;
    }
    Ok(())
}

#[test]
fn a_writer_that_takes_no_more_cuts_the_report(rt: HostRuntime) -> Result<(), Fail> {
    run_with_each_limit(rt.alloc(), false)
}

#[test]
fn a_writer_that_fails_cuts_the_report(rt: HostRuntime) -> Result<(), Fail> {
    run_with_each_limit(rt.alloc(), true)
}

#[test]
fn the_job_runs_again_after_a_cut(rt: HostRuntime) -> Result<(), Fail> {
    let alloc = rt.alloc();
    let wanted = whole_report(alloc)?;
    // The reports of four commands go out, and the fifth command is performed.
    let conn = open_in_memory(alloc)?;
    let store = run_with_limit(alloc, conn, wanted.as_slice(), 127, false)?;
    run_again(alloc, store)
}
