//! The program's own lines.

use fields::ZoneName;
use report::Out;
use scripts::compare;
use smpe::{
    Answer, ArgFault, Fault, JobError, ZoneFault, fault_line, write_migrated_line, zone_line,
};
use std::alloc::Global;
use std::test::Fail;
use store_schema::StoreError;

const TAKEN: Answer = Answer::Refused(ZoneFault::NameTaken);

const TOO_MANY: Answer = Answer::Refused(ZoneFault::TooMany);

/// How a zone's definition ended, with the status and the line.
const ZONES: &[(Answer, u8, &str)] = &[
    (Answer::Defined, 0, "ZONE DLB1 DEFINED\n"),
    (TAKEN, 12, "ZONE REFUSED Zn1\n"),
    (TOO_MANY, 12, "ZONE REFUSED Zn4\n"),
    (Answer::Code(8), 8, ""),
];

// A failure, unless the status is the one that is wanted.
fn check_status(status: u8, wanted: u8) -> Result<(), Fail> {
    if status == wanted {
        return Ok(());
    }
    Err(Fail::new(format_args!("got status {status}, wanted {wanted}")))
}

// A failure, unless this answer to a definition has this status and line.
fn check_zone_line(alloc: Global, answer: &Answer, status: u8, line: &str) -> Result<(), Fail> {
    let name = ZoneName::read(b"DLB1").ok_or("no name of a zone")?;
    let mut bytes: Vec<u8> = Vec::new(alloc);
    check_status(zone_line(name, answer, &mut Out::new(&mut bytes))?, status)?;
    compare("the line of a zone", bytes.as_slice(), line)
}

#[test]
fn zones_have_their_lines(rt: HostRuntime) -> Result<(), Fail> {
    for (answer, status, line) in ZONES {
        check_zone_line(rt.alloc(), answer, *status, line)?;
    }
    Ok(())
}

#[test]
fn a_migration_has_its_line(rt: HostRuntime) -> Result<(), Fail> {
    let mut bytes: Vec<u8> = Vec::new(rt.alloc());
    check_status(write_migrated_line(&mut Out::new(&mut bytes))?, 0)?;
    compare("the line of a migration", bytes.as_slice(), "SCHEMA 3\n")
}

// A failure, unless the fault has this line and the status 16.
fn check_fault_line(alloc: Global, fault: &Fault<'_>, line: &str) -> Result<(), Fail> {
    let mut bytes: Vec<u8> = Vec::new(alloc);
    check_status(fault_line(fault, &mut Out::new(&mut bytes))?, 16)?;
    compare("the line of a fault", bytes.as_slice(), line)
}

#[test]
fn faults_have_their_lines(rt: HostRuntime) -> Result<(), Fail> {
    let alloc = rt.alloc();
    for (error, line) in [
        (JobError::Memory, "smpe: out of memory\n"),
        (JobError::Store(StoreError::NoState), "smpe: store Sf3\n"),
        (JobError::Write, "smpe: write\n"),
    ] {
        check_fault_line(alloc, &Fault::Job(error), line)?;
    }
    let bad = Fault::Arg(ArgFault::BadOperand);
    check_fault_line(alloc, &bad, "smpe: bad operand\n")?;
    let unread = Fault::CannotRead("cards");
    check_fault_line(alloc, &unread, "smpe: cannot read cards\n")
}
