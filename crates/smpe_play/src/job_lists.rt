//! Running lists of jobs over new databases in which no zone is defined.

use crate::disks::{open_in_memory, open_new_files, open_store, reopen_files};
use crate::running::run_printing;
use scripts::compare;
use smpe::{Answer, Job};
use sqlite::{Alter, Connection};
use std::alloc::Global;
use std::slice;
use std::test::Fail;

/// What a list of jobs must print and return.
#[derive(Clone, Copy)]
pub struct ListWanted<'a> {
    pub report: &'a str,
    pub answers: &'a [Answer],
}

// Runs the jobs in one call over a store that is opened for them, and appends what they print and return.
fn run_in_store<S: Alter + Drop>(
    alloc: Global,
    conn: Connection<S>,
    jobs: &[Job<'_>],
    report: &mut Vec<u8>,
    answers: &mut Vec<Answer>,
) -> Result<Connection<S>, Fail> {
    let mut store = open_store(alloc, conn, "a list of jobs")?;
    let got = run_printing(alloc, &mut store, jobs, report)?;
    answers.extend_from_slice(got.as_slice())?;
    Ok(store.close())
}

// Checks what the jobs printed and returned. A failure begins with the disk.
fn check_jobs(
    alloc: Global,
    disk: &str,
    report: &[u8],
    answers: &[Answer],
    wanted: ListWanted<'_>,
) -> Result<(), Fail> {
    compare(disk, report, wanted.report)?;
    let got = format!(in alloc; "{answers:?}")?;
    let wanted_answers = wanted.answers;
    let wanted = format!(in alloc; "{wanted_answers:?}")?;
    compare(disk, got.as_bytes(), wanted.as_str())
}

// Runs the jobs in one call, and checks what they print and return.
fn run_in_one_call<S: Alter + Drop>(
    alloc: Global,
    conn: Connection<S>,
    disk: &str,
    jobs: &[Job<'_>],
    wanted: ListWanted<'_>,
) -> Result<(), Fail> {
    let (mut report, mut answers) = (Vec::new(alloc), Vec::new(alloc));
    drop(run_in_store(alloc, conn, jobs, &mut report, &mut answers)?);
    check_jobs(alloc, disk, report.as_slice(), answers.as_slice(), wanted)
}

// Runs each job in a call of its own, over a store in memory that is opened for it.
fn run_each_in_memory(alloc: Global, jobs: &[Job<'_>], wanted: ListWanted<'_>) -> Result<(), Fail> {
    let (mut report, mut answers) = (Vec::new(alloc), Vec::new(alloc));
    let mut conn = open_in_memory(alloc)?;
    for job in jobs {
        conn = run_in_store(alloc, conn, slice::from_ref(job), &mut report, &mut answers)?;
    }
    let disk = "in memory, opened for each";
    check_jobs(alloc, disk, report.as_slice(), answers.as_slice(), wanted)
}

// Runs each job in a call of its own, over files that are closed and opened before it.
fn run_each_on_disks(alloc: Global, jobs: &[Job<'_>], wanted: ListWanted<'_>) -> Result<(), Fail> {
    let (mut report, mut answers) = (Vec::new(alloc), Vec::new(alloc));
    let mut conn = open_new_files(alloc)?;
    for job in jobs {
        conn = run_in_store(
            alloc,
            reopen_files(alloc, conn)?,
            slice::from_ref(job),
            &mut report,
            &mut answers,
        )?;
    }
    let disk = "on disks that are closed and opened before each";
    check_jobs(alloc, disk, report.as_slice(), answers.as_slice(), wanted)
}

/// Runs the jobs in memory and on disks in memory, each time in one call, and then each job in a call of its own over a
/// store that is opened for it. A failure says in which of these ways the jobs ran.
pub fn play_jobs(alloc: Global, jobs: &[Job<'_>], wanted: ListWanted<'_>) -> Result<(), Fail> {
    run_in_one_call(alloc, open_in_memory(alloc)?, "in memory", jobs, wanted)?;
    run_each_in_memory(alloc, jobs, wanted)?;
    run_in_one_call(alloc, open_new_files(alloc)?, "on disks", jobs, wanted)?;
    run_each_on_disks(alloc, jobs, wanted)
}
