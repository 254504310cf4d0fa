//! The program's own lines: how the definition of a zone ended, and why a run did not reach its end.
ghost use Rattle.std.specs.Prelude.{◌≡◌, ◌<◌, ◌++◌, length, false, codes, is_err, IfOk};
ghost use Rattle.report.specs.Sent.{Sent};
ghost use Rattle.machine.specs.Machine.{Defined, NotDefined};
ghost use Rattle.smpe_jobs.specs.ZoneDefinitions.{fault_of};
ghost use Rattle.smpe_jobs.specs.Ending.{answer_of};
ghost use Rattle.smpe_jobs.specs.Messages.{answer_status, fault_status, fault_text, job_error_text, migrated_text};
ghost use Rattle.smpe_jobs.specs.Messages.{program_line, refused_text, store_error_text, zone_fault_text, zone_text};

use crate::error::JobError;
use crate::jobs::Answer;
use crate::zone_error::ZoneFault;
use fields::ZoneName;
use report::{Sink, WriteFault, print, write_all};
use smpe_invocation::ArgFault;
use store::StoreError;
use thiserror::Error;

/// The status of a program that ends with a fault.
pub const FAULT_STATUS: u8 = 16;

// The status of a program whose zone was refused.
const REFUSED_STATUS: u8 = 12;

// The line of a migrated database: the number of its schema.
const MIGRATED_LINE: &[u8] = b"SCHEMA 3\n";

// What the program says if memory runs out.
const OUT_OF_MEMORY: &[u8] = b"out of memory";

// The code of the fault, as the line of a refused zone has it. `ZoneFault` prints the same codes; here they are bytes,
// and a clause says which.
fn zone_fault_code(fault: ZoneFault) -> &'static [u8]
    ensures { result.now ≡ zone_fault_text (fault_of fault) }
{
    match fault {
        ZoneFault::NameTaken => b"Zn1",
        ZoneFault::WrongRelated => b"Zn2",
        ZoneFault::OtherSrel => b"Zn3",
        ZoneFault::TooMany => b"Zn4",
    }
}

// Writes the line of a zone that was defined, and returns the status 0, or an error if the line cannot be written.
fn write_zone_defined<W: Sink>(name: &ZoneName, w: &mut W) -> Result<u8, WriteFault>
    ensures sends { Sent W.Sink w.old w.new (zone_text name.now Defined) }
    ensures fault { W.has_failed w.new ≡ is_err result }
    ensures status { IfOk result (λ status. status ≡ answer_status Defined) }
{
    print(b"ZONE ", w);
    print(name.as_bytes(), w);
    write_all(b" DEFINED\n", w)?;
    Ok(0)
}

// Writes the line of a zone that was refused, and returns `REFUSED_STATUS`, or an error if the line cannot be written.
fn write_zone_refused<W: Sink>(fault: ZoneFault, w: &mut W) -> Result<u8, WriteFault>
    ensures sends { Sent W.Sink w.old w.new (refused_text (fault_of fault)) }
    ensures fault { W.has_failed w.new ≡ is_err result }
    ensures status { IfOk result (λ status. status ≡ answer_status (NotDefined (fault_of fault))) }
{
    print(b"ZONE REFUSED ", w);
    print(zone_fault_code(fault), w);
    write_all(b"\n", w)?;
    Ok(REFUSED_STATUS)
}

/// The program's status for this answer: for a job its return code, for a zone 0 or `REFUSED_STATUS`.
pub fn status_of(answer: &Answer) -> u8
    ensures { result ≡ answer_status (answer_of answer.now) }
{
    match answer {
        Answer::Code(code) => *code,
        Answer::Defined => 0,
        Answer::Refused(_) => REFUSED_STATUS,
    }
}

/// Writes the line of a defined or refused zone, and returns the program's status. For a job, which has no line here,
/// it writes nothing and returns the job's return code. Returns an error if the line cannot be written.
pub fn zone_line<W: Sink>(name: ZoneName, answer: &Answer, w: &mut W) -> Result<u8, WriteFault>
    ensures sends { Sent W.Sink w.old w.new (zone_text name (answer_of answer.now)) }
    ensures fault { W.has_failed w.old ≡ false → W.has_failed w.new ≡ is_err result }
    ensures after { 0 < length (zone_text name (answer_of answer.now)) → W.has_failed w.new ≡ is_err result }
    ensures status { IfOk result (λ status. status ≡ answer_status (answer_of answer.now)) }
{
    match answer {
        Answer::Code(code) => Ok(*code),
        Answer::Defined => write_zone_defined(&name, w),
        Answer::Refused(fault) => write_zone_refused(*fault, w),
    }
}

/// Writes the line of a database that has the tables of this program's schema, and returns the status 0. Returns an
/// error if the line cannot be written. The line has the number of that schema.
pub fn write_migrated_line<W: Sink>(w: &mut W) -> Result<u8, WriteFault>
    ensures sends { Sent W.Sink w.old w.new migrated_text }
    ensures fault { W.has_failed w.new ≡ is_err result }
    ensures status { IfOk result (λ status. status ≡ 0) }
{
    write_all(MIGRATED_LINE, w)?;
    Ok(0)
}

/// The faults of the program.
#[derive(Debug, Drop, Error)]
pub enum Fault<'a> {
    /// The error of a job, also of one whose store was not opened.
    #[error("{0}")]
    Job(JobError),
    /// The arguments of the program cannot be read.
    #[error("{0}")]
    Arg(ArgFault),
    /// The file of this name cannot be read.
    #[error("cannot read {0}")]
    CannotRead(&'a str),
    /// A careful job has no command.
    #[error("no command")]
    NoCommand,
    /// A SET of a careful job names this zone.
    #[error("a zone is not defined")]
    NoZone(ZoneName),
    /// A shop's files cannot be carried. These are the lines that say why.
    #[error("the files cannot be carried")]
    NotCarried(Vec<u8>),
    /// The system uses each source that is kept for checks.
    #[error("no free source")]
    NoSource,
    /// The new file of this name exists, or cannot be written.
    #[error("cannot write {0}")]
    CannotWrite(&'a str),
}

impl From<JobError> for Fault<'_> {
    ghost use Rattle.std.specs.Prelude.{◌≡◌};
    ghost use Rattle.smpe_jobs.specs.declared.messages.Fault.TheVariants.{Job};

    ghost from_gives = { λ error fault. fault ≡ Job error };

    fn from(error: JobError) -> Self {
        Fault::Job(error)
    }
}

// The text of a store's error. No job ends with `Memory` here, because `From<StoreError>` makes it `JobError::Memory`.
// But `JobError` is public, so a caller can build the pair, and its text is that of `JobError::Memory`.
fn store_error_text(error: StoreError) -> &'static [u8]
    ensures { result.now ≡ store_error_text error }
{
    match error {
        StoreError::Fault => b"store Sf1",
        StoreError::OtherSchema => b"store Sf2",
        StoreError::NoState => b"store Sf3",
        StoreError::Memory => OUT_OF_MEMORY,
    }
}

// The text of a job's error, after `smpe: `.
fn job_error_text(error: JobError) -> &'static [u8]
    ensures { result.now ≡ job_error_text error }
{
    match error {
        JobError::Memory => OUT_OF_MEMORY,
        JobError::Store(error) => store_error_text(error),
        JobError::Write => b"write",
    }
}

// Writes a line of `smpe: ` and the text. This function and those below return an error if the line cannot be written.
fn write_program_line<W: Sink>(text: &[u8], w: &mut W) -> Result<(), WriteFault>
    ensures sends { Sent W.Sink w.old w.new (program_line text.now) }
    ensures fault { W.has_failed w.new ≡ is_err result }
{
    print(b"smpe: ", w);
    print(text, w);
    write_all(b"\n", w)
}

// Writes the line of a file that cannot be read. This text has two pieces, and `write_program_line` takes one.
fn write_unreadable_file<W: Sink>(name: &str, w: &mut W) -> Result<(), WriteFault>
    ensures sends { Sent W.Sink w.old w.new (program_line (codes "cannot read " ++ name.now)) }
    ensures fault { W.has_failed w.new ≡ is_err result }
{
    print(b"smpe: cannot read ", w);
    print(name.as_bytes(), w);
    write_all(b"\n", w)
}

// Writes the lines that say why files cannot be carried, and one that says that they cannot.
fn write_uncarried_files<W: Sink>(lines: &[u8], w: &mut W) -> Result<(), WriteFault>
    ensures sends { Sent W.Sink w.old w.new (lines.now ++ program_line (codes "the files cannot be carried")) }
    ensures fault { W.has_failed w.new ≡ is_err result }
{
    print(lines, w);
    write_program_line(b"the files cannot be carried", w)
}

// Writes the line of a file that exists or cannot be written. This text has two pieces as well.
fn write_unwritten_file<W: Sink>(name: &str, w: &mut W) -> Result<(), WriteFault>
    ensures sends { Sent W.Sink w.old w.new (program_line (codes "cannot write " ++ name.now)) }
    ensures fault { W.has_failed w.new ≡ is_err result }
{
    print(b"smpe: cannot write ", w);
    print(name.as_bytes(), w);
    write_all(b"\n", w)
}

// Writes the line of a zone that a SET names and that is not defined. This text has two pieces as well.
fn write_undefined_zone<W: Sink>(name: &ZoneName, w: &mut W) -> Result<(), WriteFault>
    ensures sends { Sent W.Sink w.old w.new (program_line (codes "no zone " ++ name.now)) }
    ensures fault { W.has_failed w.new ≡ is_err result }
{
    print(b"smpe: no zone ", w);
    print(name.as_bytes(), w);
    write_all(b"\n", w)
}

// Writes the line of a fault, or nothing for an error of `clap`, whose text the caller shows. It stands apart from
// `fault_line` because the calls in its arms return no status.
fn write_fault<W: Sink>(fault: &Fault<'_>, w: &mut W) -> Result<(), WriteFault>
    ensures sends { Sent W.Sink w.old w.new (fault_text fault.now) }
    ensures fault { W.has_failed w.old ≡ false → W.has_failed w.new ≡ is_err result }
    ensures after { 0 < length (fault_text fault.now) → W.has_failed w.new ≡ is_err result }
{
    match fault {
        Fault::Job(error) => write_program_line(job_error_text(*error), w),
        Fault::Arg(ArgFault::Memory) => write_program_line(OUT_OF_MEMORY, w),
        Fault::Arg(ArgFault::BadOperand) => write_program_line(b"bad operand", w),
        Fault::Arg(ArgFault::Clap(_)) => Ok(()),
        Fault::CannotRead(name) => write_unreadable_file(name, w),
        Fault::NoCommand => write_program_line(b"no command", w),
        Fault::NoZone(name) => write_undefined_zone(name, w),
        Fault::NotCarried(lines) => write_uncarried_files(lines.as_slice(), w),
        Fault::NoSource => write_program_line(b"no free source", w),
        Fault::CannotWrite(name) => write_unwritten_file(name, w),
    }
}

/// Writes the line of a fault, and returns `FAULT_STATUS`. It leaves the text of an error of `clap` to the caller.
/// Returns an error if the line cannot be written.
pub fn fault_line<W: Sink>(fault: &Fault<'_>, w: &mut W) -> Result<u8, WriteFault>
    ensures sends { Sent W.Sink w.old w.new (fault_text fault.now) }
    ensures fault { W.has_failed w.old ≡ false → W.has_failed w.new ≡ is_err result }
    ensures after { 0 < length (fault_text fault.now) → W.has_failed w.new ≡ is_err result }
    ensures status { IfOk result (λ status. status ≡ fault_status) }
{
    write_fault(fault, w)?;
    Ok(FAULT_STATUS)
}
