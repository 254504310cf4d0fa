//! What `smpe-intake` makes of its command line.
//! `command` reads the words, then the files, and puts into the folder what RECEIVE takes of them, or a command file,
//! with the remarks beside it. Its contract says, act by act, what it does to its surroundings. It has read back what
//! it puts there: `keep_service` says that PTFIN and the hold file are read as exactly the items that were meant, or
//! that the folder has the files that it had. Below this crate nothing knows files: bytes with a name go in, items and
//! remarks come out. Every call that allocates fails if memory runs out.
#![tactic(auto)]

mod apart;
mod commands;
mod files;
mod host_calls;
mod keep;
mod members;
mod own;
mod program;
mod service;
mod surroundings;

pub use files::NamedFile;
pub use keep::{keep_commands, keep_service};
pub use program::command;
pub use surroundings::IntakeHost;
