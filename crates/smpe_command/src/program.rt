//! The program except for its input and output.
ghost use Rattle.std.specs.Prelude.{◌≡◌, map, IfOk, IfErr};
ghost use Rattle.smpe_invocation.specs.declared.fault.ArgFault.TheVariants.{Memory as NoMemory};
ghost use Rattle.smpe_jobs.specs.declared.messages.Fault.TheVariants.{Arg};
ghost use Rattle.smpe_command.specs.Answering.{Answers, Tells, TellsWords};

use crate::asked_words::read_words;
use crate::host::Host;
use crate::jobs::serve;
use clap::error::ErrorKind;
use report::Sink;
use smpe::{ArgFault, FAULT_STATUS, Fault, fault_line};
use sqlite_disk::{Disk, Memory};
use std::alloc::{AllocError, Global};

/// Does what the words ask for, and returns the status. The first word is the program's name. `words` is an error if
/// memory ran out while they were read. `--help` and `--version` are not faults.
pub fn command<H: Host, O: Sink, E: Sink>(
    alloc: Global,
    host: &mut H,
    words: &Result<Vec<Vec<u8>>, AllocError>,
    out: &mut O,
    err: &mut E,
) -> u8
    ensures words { IfOk words.now (λ all. Answers H.Host H.Disk.Store ⟦<Memory as Disk>⟧ O.Sink E.Sink
        (map (λ word. word.items) all.items) host.old out.old err.old result host.new out.new err.new) }
    ensures none { IfErr words.now (λ error. Tells H.Host E.Sink host.old err.old (Arg NoMemory) result host.new err.new
        × (out.new ≡ out.old)) }
{
    let words = match words {
        Ok(words) => words.as_slice(),
        Err(_) => return report_fault(host, &Fault::Arg(ArgFault::Memory), err),
    };
    match read_words(alloc, words) {
        Ok(request) => match serve(alloc, host, &request, out) {
            Ok(status) => status,
            Err(fault) => report_fault(host, &fault, err),
        },
        Err(fault) => answer_refused_words(host, fault, err),
    }
}

// Answers words that ask for no invocation: prints the help or the version if they ask for that, or reports their
// fault.
fn answer_refused_words<H: Host, E: Sink>(host: &mut H, fault: ArgFault, err: &mut E) -> u8
    ensures { TellsWords H.Host E.Sink host.old err.old fault result host.new err.new }
{
    if let ArgFault::Clap(error) = &fault {
        if matches!(
            error.kind(),
            ErrorKind::DisplayHelp | ErrorKind::DisplayVersion
        ) {
            host.print_help(error);
            return 0;
        }
    }
    report_fault(host, &Fault::Arg(fault), err)
}

// Reports a fault on standard error, and returns its status, even if nothing can be written there. Only `clap`'s errors
// have a text of their own, which is shown in place of a line.
fn report_fault<H: Host, E: Sink>(host: &mut H, fault: &Fault<'_>, err: &mut E) -> u8
    ensures { Tells H.Host E.Sink host.old err.old fault.now result host.new err.new }
{
    match fault {
        Fault::Arg(ArgFault::Clap(error)) => host.show_error(error),
        Fault::Arg(ArgFault::Memory) => {}
        Fault::Arg(ArgFault::BadOperand) => {}
        Fault::Job(_) => {}
        Fault::CannotRead(_) => {}
        Fault::CannotWrite(_) => {}
        Fault::NoCommand => {}
        Fault::NoZone(_) => {}
        Fault::NotCarried(_) => {}
        Fault::NoSource => {}
    }
    fault_line(fault, err).unwrap_or(FAULT_STATUS)
}
