//! Playing cases, step by step.

use crate::cards::{BEGINNING, Case, JobStep};
use crate::disks::{open_in_memory, open_new_files, open_store, reopen_files};
use crate::rows::query_lines;
use crate::running::{define_both_zones, job_over, run_printing};
use scripts::{Difference, append_cards, card_file, compare, first_difference};
use smpe::{Answer, JobError};
use sqlite::{Alter, Connection, FileStore, MemStore};
use sqlite_disk::Memory;
use std::alloc::Global;
use std::test::Fail;
use store::Store;

/// Where a step is played, in the words of a failure.
#[derive(Clone, Copy)]
pub struct StepPlace {
    /// What the step's case shows.
    pub shows: &'static str,
    pub disk: &'static str,
}

// The bytes of a step's PTFIN.
fn step_ptfin(alloc: Global, step: &JobStep) -> Result<Vec<u8>, Fail> {
    let mut bytes = Vec::new(alloc);
    for sysmod in step.ptfin {
        append_cards(&mut bytes, sysmod)?;
    }
    bytes.extend_from_slice(step.rest.as_bytes())?;
    Ok(bytes)
}

/// Runs a step's job, and appends what it prints.
pub fn run_step<S: Alter>(
    alloc: Global,
    store: &mut Store<S>,
    step: &JobStep,
    report: &mut Vec<u8>,
) -> Result<Result<Vec<Answer>, JobError>, Fail> {
    let cntl = card_file(alloc, step.cntl)?;
    let ptfin = step_ptfin(alloc, step)?;
    let hold = card_file(alloc, step.hold)?;
    let jobs = [job_over(cntl.as_slice(), ptfin.as_slice(), hold.as_slice())];
    Ok(run_printing(alloc, store, &jobs, report))
}

// Checks what the step printed and returned. A failure says what the case shows, which step it was, and on which disk.
fn check_step(
    step: &JobStep,
    place: StepPlace,
    report: &[u8],
    answers: &[Answer],
) -> Result<(), Fail> {
    let code = match answers {
        [Answer::Code(code)] => Some(*code),
        _ => None,
    };
    if report == step.report.as_bytes() && code == Some(step.code) {
        return Ok(());
    }
    let (shows, disk, name) = (place.shows, place.disk, step.name);
    let Difference {
        number,
        got,
        wanted,
    } = first_difference(std::str::from_utf8(report)?, step.report);
    let wanted_code = step.code;
    Err(Fail::new(format_args!(
        "{shows}: {name} {disk}: line {number}: got {got:?} and {code:?}, wanted {wanted:?} and {wanted_code}"
    )))
}

/// Something that is played over a store, and fails unless it ends as it must.
pub trait Plays {
    /// Plays it. A failure begins with what the place shows.
    fn play_at<S: Alter>(
        &self,
        alloc: Global,
        store: &mut Store<S>,
        place: StepPlace,
    ) -> Result<(), Fail>;
}

impl Plays for JobStep {
    // Runs the job, and checks what it prints and returns.
    fn play_at<S: Alter>(
        &self,
        alloc: Global,
        store: &mut Store<S>,
        place: StepPlace,
    ) -> Result<(), Fail> {
        let mut report = Vec::new(alloc);
        match run_step(alloc, store, self, &mut report)? {
            Ok(answers) => check_step(self, place, report.as_slice(), answers.as_slice()),
            Err(error) => {
                let (shows, disk, name) = (place.shows, place.disk, self.name);
                Err(Fail::new(format_args!("{shows}: {name} {disk}: {error:?}")))
            }
        }
    }
}

// Plays the steps one after the other over one store.
fn play_all<S: Alter, P: Plays>(
    alloc: Global,
    store: &mut Store<S>,
    steps: &[P],
    place: StepPlace,
) -> Result<(), Fail> {
    for step in steps {
        step.play_at(alloc, store, place)?;
    }
    Ok(())
}

/// Plays a step that belongs to no case.
pub fn play<S: Alter>(alloc: Global, store: &mut Store<S>, step: &JobStep) -> Result<(), Fail> {
    let shows = "a step alone";
    step.play_at(alloc, store, StepPlace { shows, disk: "" })
}

// A store over a new database with both zones, in which these steps were played.
fn begin_store<S: Alter + Drop>(
    alloc: Global,
    conn: Connection<S>,
    before: &[JobStep],
    place: StepPlace,
) -> Result<Store<S>, Fail> {
    let mut store = open_store(alloc, conn, place.shows)?;
    define_both_zones(alloc, &mut store)?;
    play_all(alloc, &mut store, before, place)?;
    Ok(store)
}

/// A store over a new database with both zones, in which the function is applied.
pub fn installed<S: Alter + Drop>(alloc: Global, conn: Connection<S>) -> Result<Store<S>, Fail> {
    let shows = "the function is applied";
    begin_store(alloc, conn, BEGINNING, StepPlace { shows, disk: "" })
}

// Plays steps over one store, in which the steps `before` were played.
fn play_in_one_store<S: Alter + Drop, P: Plays>(
    alloc: Global,
    conn: Connection<S>,
    before: &[JobStep],
    steps: &[P],
    place: StepPlace,
) -> Result<Connection<S>, Fail> {
    let mut store = begin_store(alloc, conn, before, place)?;
    play_all(alloc, &mut store, steps, place)?;
    Ok(store.close())
}

// Opens a store for a step, and plays the step over it.
fn play_in_opened_store<S: Alter + Drop, P: Plays>(
    alloc: Global,
    conn: Connection<S>,
    step: &P,
    place: StepPlace,
) -> Result<Connection<S>, Fail> {
    let mut store = open_store(alloc, conn, place.shows)?;
    step.play_at(alloc, &mut store, place)?;
    Ok(store.close())
}

// Plays steps in memory, each over a store that is opened for it.
fn play_each_in_memory<P: Plays>(
    alloc: Global,
    before: &[JobStep],
    steps: &[P],
    shows: &'static str,
) -> Result<Connection<MemStore>, Fail> {
    let disk = "in memory, opened for each";
    let place = StepPlace { shows, disk };
    let mut conn = begin_store(alloc, open_in_memory(alloc)?, before, place)?.close();
    for step in steps {
        conn = play_in_opened_store(alloc, conn, step, place)?;
    }
    Ok(conn)
}

// Plays steps over files, which are closed and opened again before each.
fn play_each_on_disks<P: Plays>(
    alloc: Global,
    before: &[JobStep],
    steps: &[P],
    shows: &'static str,
) -> Result<Connection<FileStore<Memory>>, Fail> {
    let disk = "on disks that are closed and opened before it";
    let place = StepPlace { shows, disk };
    let mut conn = begin_store(alloc, open_new_files(alloc)?, before, place)?.close();
    for step in steps {
        conn = play_in_opened_store(alloc, reopen_files(alloc, conn)?, step, place)?;
    }
    Ok(conn)
}

/// Files in which the function is applied, closed and reopened before each job.
pub fn installed_files(alloc: Global) -> Result<Connection<FileStore<Memory>>, Fail> {
    play_each_on_disks(alloc, &[], BEGINNING, "the function is applied")
}

/// The rows that steps leave, as these queries find them.
#[derive(Clone, Copy)]
pub struct RowsLeft<'a> {
    pub queries: &'a [&'a str],
    pub wanted: &'a str,
}

/// No query, so that no rows are compared.
const NO_QUERIES: RowsLeft<'static> = RowsLeft {
    queries: &[],
    wanted: "",
};

impl RowsLeft<'_> {
    // Checks that the queries find these rows in the database.
    fn check<S: Alter + Drop>(
        self,
        alloc: Global,
        mut conn: Connection<S>,
        shows: &str,
    ) -> Result<(), Fail> {
        let got = query_lines(alloc, &mut conn, self.queries)?;
        compare(shows, got.as_bytes(), self.wanted)
    }
}

// Plays steps in memory and on disks in memory: over one store, and over one for each step, for which the files are
// closed and opened again.
fn play_steps<P: Plays>(
    alloc: Global,
    before: &[JobStep],
    steps: &[P],
    shows: &'static str,
    rows: RowsLeft<'_>,
) -> Result<(), Fail> {
    let disk = "in memory";
    let place = StepPlace { shows, disk };
    let conn = play_in_one_store(alloc, open_in_memory(alloc)?, before, steps, place)?;
    rows.check(alloc, conn, shows)?;
    let conn = play_each_in_memory(alloc, before, steps, shows)?;
    rows.check(alloc, conn, shows)?;
    let disk = "on disks";
    let place = StepPlace { shows, disk };
    let conn = play_in_one_store(alloc, open_new_files(alloc)?, before, steps, place)?;
    rows.check(alloc, conn, shows)?;
    let conn = play_each_on_disks(alloc, before, steps, shows)?;
    rows.check(alloc, conn, shows)
}

// Plays each case over a database in which these steps were played before.
fn play_after(alloc: Global, before: &[JobStep], cases: &[Case]) -> Result<(), Fail> {
    for case in cases {
        play_steps(alloc, before, case.steps, case.shows, NO_QUERIES)?;
    }
    Ok(())
}

/// Plays each case in memory and on disks in memory: over one store, and over one for each step, for which the files
/// are closed and reopened. A failure says which step of which case it was, and on which disk.
pub fn play_cases(alloc: Global, cases: &[Case]) -> Result<(), Fail> {
    play_after(alloc, &[], cases)
}

/// Plays each case as `play_cases` does, but over a database in which the function is applied.
pub fn play_installed(alloc: Global, cases: &[Case]) -> Result<(), Fail> {
    play_after(alloc, BEGINNING, cases)
}

/// Plays steps that a test makes, over a database in which the function is applied, in the ways of `play_cases`.
pub fn play_made<P: Plays>(alloc: Global, steps: &[P], shows: &'static str) -> Result<(), Fail> {
    play_steps(alloc, BEGINNING, steps, shows, NO_QUERIES)
}

/// Plays steps as `play_made` does, and compares the rows that they leave.
pub fn play_rows<P: Plays>(
    alloc: Global,
    steps: &[P],
    shows: &'static str,
    rows: RowsLeft<'_>,
) -> Result<(), Fail> {
    play_steps(alloc, BEGINNING, steps, shows, rows)
}
