//! Lists of jobs, in one call and each in a call of its own, and how definitions of zones end.

use fields::{Srel, YyDdd, ZoneName};
use report::Out;
use scripts::{append_cards, card_file, compare};
use smpe::{Answer, Job, ZoneFault, listing_commands, run_job, two_commands};
use smpe_play::{
    FIX, FUNCTION, FUNCTION_RECEIVED, ListWanted, RECEIVE, job_over, open_in_memory, open_store,
    play_jobs, zone_name,
};
use sqlite::Alter;
use std::alloc::Global;
use std::test::Fail;
use store::Store;
use terms::ZoneKind;

// A job that defines a zone.
fn zone_job<'a>(name: ZoneName, kind: ZoneKind, srel: Srel, related: Option<ZoneName>) -> Job<'a> {
    Job::Zone {
        name,
        kind,
        srel,
        related,
    }
}

fn read_srel(text: &[u8]) -> Result<Srel, Fail> {
    Ok(Srel::read(text).ok_or("no SREL")?)
}

// A failure, unless the jobs print and return this, in whichever of the ways of `play_jobs` they are run.
fn check_jobs(
    alloc: Global,
    jobs: &[Job<'_>],
    report: &str,
    answers: &[Answer],
) -> Result<(), Fail> {
    play_jobs(alloc, jobs, ListWanted { report, answers })
}

// Runs two jobs, a RECEIVE and an install, after the definitions of three zones.
fn define_and_run<'a>(
    alloc: Global,
    receive: &'a [u8],
    ptfin: &'a [u8],
    install: &'a [u8],
) -> Result<(), Fail> {
    let permanent = zone_name(b"DLB1")?;
    let system = read_srel(b"Z038")?;
    let other = zone_name(b"DLB2")?;
    let jobs = [
        zone_job(permanent, ZoneKind::Distribution, system, None),
        zone_job(
            zone_name(b"TGT1")?,
            ZoneKind::Target,
            system,
            Some(permanent),
        ),
        zone_job(other, ZoneKind::Distribution, read_srel(b"C150")?, None),
        job_over(receive, ptfin, b""),
        job_over(install, b"", b""),
    ];
    check_jobs(
        alloc,
        &jobs,
        "SET GLOBAL\nRC 00\nRECEIVE GLOBAL\nHAA1100 FUNCTION RECEIVED\nUA00024 PTF      RECEIVED\nRC 00\n\
            SET TGT1\nRC 00\nAPPLY TGT1\nHAA1100 FUNCTION APPLIED\nRC 00\n\
            SET DLB1\nRC 00\nACCEPT DLB1\nHAA1100 FUNCTION ACCEPTED\nRC 00\n\
            SET TGT1\nRC 00\nAPPLY TGT1\nUA00024 PTF      APPLIED\nRC 00\n",
        &[
            Answer::Defined,
            Answer::Defined,
            Answer::Defined,
            Answer::Code(0),
            Answer::Code(0),
        ],
    )
}

#[test]
fn five_jobs_go_one_after_the_other(rt: HostRuntime) -> Result<(), Fail> {
    let alloc = rt.alloc();
    let receive = card_file(alloc, RECEIVE)?;
    let mut ptfin = card_file(alloc, FUNCTION)?;
    append_cards(&mut ptfin, FIX)?;
    let install = card_file(
        alloc,
        "SET BDY(TGT1).\nAPPLY SELECT(HAA1100).\nSET BDY(DLB1).\nACCEPT SELECT(HAA1100).\n\
            SET BDY(TGT1).\nAPPLY SELECT(UA00024).",
    )?;
    let (receive, ptfin, install) = (receive.as_slice(), ptfin.as_slice(), install.as_slice());
    define_and_run(alloc, receive, ptfin, install)
}

#[test]
fn zones_are_refused(rt: HostRuntime) -> Result<(), Fail> {
    let alloc = rt.alloc();
    let global = zone_name(b"GLOBAL")?;
    let permanent = zone_name(b"DLB1")?;
    let missing = zone_name(b"DLB2")?;
    let running = zone_name(b"TGT1")?;
    let second = zone_name(b"TGT2")?;
    let system = read_srel(b"Z038")?;
    let other_system = read_srel(b"C150")?;
    let jobs = [
        zone_job(permanent, ZoneKind::Distribution, system, None),
        // The name exists already, or is GLOBAL.
        zone_job(permanent, ZoneKind::Distribution, system, None),
        zone_job(global, ZoneKind::Distribution, system, None),
        // There is no related zone, it is missing, or there may be none.
        zone_job(running, ZoneKind::Target, system, None),
        zone_job(running, ZoneKind::Target, system, Some(missing)),
        zone_job(missing, ZoneKind::Distribution, system, Some(permanent)),
        // It has another SREL.
        zone_job(running, ZoneKind::Target, other_system, Some(permanent)),
        zone_job(running, ZoneKind::Target, system, Some(permanent)),
        // It has a target zone already.
        zone_job(second, ZoneKind::Target, system, Some(permanent)),
    ];
    check_jobs(
        alloc,
        &jobs,
        "",
        &[
            Answer::Defined,
            Answer::Refused(ZoneFault::NameTaken),
            Answer::Refused(ZoneFault::NameTaken),
            Answer::Refused(ZoneFault::WrongRelated),
            Answer::Refused(ZoneFault::WrongRelated),
            Answer::Refused(ZoneFault::WrongRelated),
            Answer::Refused(ZoneFault::OtherSrel),
            Answer::Defined,
            Answer::Refused(ZoneFault::WrongRelated),
        ],
    )
}

#[test]
fn the_sixty_fifth_zone_is_refused(rt: HostRuntime) -> Result<(), Fail> {
    let alloc = rt.alloc();
    let srel = read_srel(b"Z038")?;
    let mut jobs = Vec::with_capacity(alloc, 65)?;
    for number in 0..65u8 {
        let job: Job<'static> = Job::Zone {
            name: zone_name(&[b'D', b'A' + number / 8, b'A' + number % 8])?,
            kind: ZoneKind::Distribution,
            srel,
            related: None,
        };
        if jobs.push(job).is_err() {
            return Err(Fail::from("out of memory"));
        }
    }
    let mut answers = [Answer::Defined; 65];
    answers[64] = Answer::Refused(ZoneFault::TooMany);
    check_jobs(alloc, jobs.as_slice(), "", &answers)
}

// Runs a RECEIVE by itself over the store, which must print this. Returns its return code.
fn run_alone<S: Alter>(alloc: Global, store: &mut Store<S>, wanted: &str) -> Result<u8, Fail> {
    let cntl = card_file(alloc, RECEIVE)?;
    let ptfin = card_file(alloc, FUNCTION)?;
    let mut report = Vec::new(alloc);
    let date = YyDdd::new(2024, 138);
    let mut out = Out::new(&mut report);
    let code = run_job(alloc, store, date, &cntl, &ptfin, b"", &mut out)?;
    compare("a job alone", report.as_slice(), wanted)?;
    Ok(code)
}

#[test]
fn a_job_goes_alone(rt: HostRuntime) -> Result<(), Fail> {
    let alloc = rt.alloc();
    let mut store = open_store(alloc, open_in_memory(alloc)?, "a job alone")?;
    assert_eq!(rt; run_alone(alloc, &mut store, FUNCTION_RECEIVED.report)?, 0);
    Ok(())
}

#[test]
fn a_listing_is_a_job_of_two_commands(rt: HostRuntime) -> Result<(), Fail> {
    let alloc = rt.alloc();
    let listing = listing_commands(alloc, zone_name(b"TGT1")?)?;
    let wanted = card_file(alloc, "SET BDY(TGT1).\nLIST.")?;
    assert_eq!(rt; listing.as_slice(), wanted.as_slice());
    let receive = two_commands(alloc, b"SET BDY(GLOBAL).", b"RECEIVE SYSMODS.")?;
    assert_eq!(rt; receive.as_slice(), card_file(alloc, RECEIVE)?.as_slice());
    Ok(())
}
