//! A rehearsal: what a service set would do in an empty system, or in a copy of a database. Both are kept in memory,
//! and gone afterwards. `rehearse_in_empty_system` and `run_over_bytes` run the jobs of a set, and report them. A
//! package of a shop's files is first given a source that nothing else in the system has (`prepare_package`). Then
//! `ask_about_package` runs the jobs that receive it and ask about its SYSMODs, and `rehearse_package` only receives
//! it, and loads the zones that an install then looks at. The law (`laws`): those are the zones of the state to which
//! the machine's RECEIVE leads. Nothing here knows the surroundings of the program: the bytes of a database are given.
//! No contract says when memory runs out.
#![tactic(auto)]

mod asking;
mod copied;
mod dates;
mod global_zone;
pub mod laws;
mod memory_files;
mod no_report;
mod preparing;
mod questions;
mod receiving;
mod service_set;
mod told;
mod values;

pub use asking::ask_about_package;
pub use copied::run_over_bytes;
pub use dates::any_date;
pub use preparing::{fault_of, prepare_package, zone_of};
pub use questions::answer_and_write;
pub use receiving::{Rehearsed, rehearse_package};
pub use service_set::{greatest_status, rehearse_in_empty_system};
pub use told::status_or_fault;
pub use values::{DatabaseBytes, JobFiles, PackageItems, Prepared, Rehearsal, System};
