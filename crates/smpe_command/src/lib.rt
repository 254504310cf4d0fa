//! What the program makes of its command line. `command` reads the words, then the files, opens the database and runs
//! the one job, writes what there is to write, and returns the status. Its contract says all of this about any
//! surroundings (`Host`): which bytes become which argument, which answer becomes which status, which stream takes
//! which line, and which fault is reported first. A database that was opened is closed, even if it is refused; then
//! nothing was committed or written. No contract says anything about `clap`'s texts, or about when memory runs out or
//! when a database that was opened is not made the store's.
#![tactic(auto)]

mod asked_words;
mod careful;
mod carry;
mod checks;
mod copied;
mod database;
mod host;
mod inputs;
mod job_files;
mod jobs;
mod lint;
mod mending;
mod packages;
mod program;
mod questions;
mod settled;
mod shop;
mod systems;

pub use host::Host;
pub use program::command;
pub use smpe::DatabaseFile;
pub use smpe_rehearsal::DatabaseBytes;
