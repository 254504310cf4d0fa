//! `smpe-intake`: makes a shop's SMP/E files into files that `smpe` takes.
//! `intake_command::command` does the work. Here are the input and output that it asks for, of which only safety is
//! proved.
#![tactic(auto)]

mod command_line;
mod file_system;

use command_line::read_words;
use file_system::FileSystem;
use intake_command::command;
use std::process::ExitCode;

fn main(rt: HostRuntime) -> ExitCode {
    let words = read_words(&rt);
    let mut host = FileSystem::new(&rt);
    ExitCode::from(command(rt.alloc(), &mut host, &words))
}
