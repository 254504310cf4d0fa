//! `smpe`: defines a zone of a database, runs a job over it, lists a zone, migrates the database to its schema, tells
//! what a service set would do without one and how to mend it, or lints a service stream. `smpe_command::command` does
//! all of this. Here is the input and output for which it asks, which is proved safe, and what is said on standard
//! error besides its lines.
#![tactic(auto)]

mod command_line;
mod copy;
mod host;
mod input;
mod left;
mod new_file;
mod place;
mod related_zone;
mod telling;
mod watched;

use command_line::read_words;
use host::ProgramHost;
use report::Out;
use smpe_command::command;
use smpe_hints::CommandLine;
use smpe_warnings::related_name;
use std::process::ExitCode;
use telling::{job_warnings, write_hints};
use watched::{Progress, Watched};

fn main(rt: HostRuntime) -> ExitCode {
    let words = read_words(&rt);
    let known_words: &[Vec<u8>] = match &words {
        Ok(words) => words.as_slice(),
        Err(_) => &[],
    };
    let mut host = ProgramHost::new(
        &rt,
        CommandLine { words: known_words },
        may_create_database(known_words),
        related_name(known_words),
    );
    let mut out = Watched::new(rt.alloc(), Out::new(rt.stdout()), Progress::new(&rt));
    let mut err = Watched::new(rt.alloc(), Out::new(rt.stderr()), None);
    let status = command(rt.alloc(), &mut host, &words, &mut out, &mut err);
    let warnings = job_warnings(&rt, known_words, &mut host, &out.watch, &err.watch);
    host.close_left();
    write_hints(&rt, known_words, &host, &out.watch, &err.watch, warnings);
    ExitCode::from(status)
}

// Whether the words ask for something that creates a database if there is none: the definition of a zone, or a job.
fn may_create_database(words: &[Vec<u8>]) -> bool {
    match words.get(1) {
        Some(word) => matches!(word.as_slice(), b"zone" | b"run"),
        None => false,
    }
}
