//! Running jobs over a store.

use fields::{Srel, YyDdd, ZoneName};
use report::Out;
use smpe::{Answer, Job, JobError, run_jobs};
use sqlite::Alter;
use std::alloc::Global;
use std::test::Fail;
use store::Store;
use terms::ZoneKind;

/// A job over these files on 2024-05-17.
pub fn job_over<'a>(cntl: &'a [u8], ptfin: &'a [u8], hold: &'a [u8]) -> Job<'a> {
    Job::Run {
        date: YyDdd::new(2024, 138),
        cntl,
        ptfin,
        hold,
    }
}

/// Runs the jobs in one call, and appends what they print.
pub fn run_printing<S: Alter>(
    alloc: Global,
    store: &mut Store<S>,
    jobs: &[Job<'_>],
    report: &mut Vec<u8>,
) -> Result<Vec<Answer>, JobError> {
    run_jobs(alloc, store, jobs, &mut Out::new(report))
}

/// The zone name with these bytes. It fails if no zone may have this name.
pub fn zone_name(name: &[u8]) -> Result<ZoneName, Fail> {
    Ok(ZoneName::read(name).ok_or("no name of a zone")?)
}

/// Defines the target zone and the distribution zone of all cases.
pub(crate) fn define_both_zones<S: Alter>(alloc: Global, store: &mut Store<S>) -> Result<(), Fail> {
    let distribution_name = zone_name(b"DLB1")?;
    let target_name = zone_name(b"TGT1")?;
    let srel = Srel::read(b"Z038").ok_or("no SREL")?;
    let distribution = Job::Zone {
        name: distribution_name,
        kind: ZoneKind::Distribution,
        srel,
        related: None,
    };
    let target = Job::Zone {
        name: target_name,
        kind: ZoneKind::Target,
        srel,
        related: Some(distribution_name),
    };
    let mut report = Vec::new(alloc);
    let answers = run_printing(alloc, store, &[distribution, target], &mut report)?;
    match answers.as_slice() {
        [Answer::Defined, Answer::Defined] => Ok(()),
        _ => Err(Fail::from("the two zones were not both defined")),
    }
}
