//! What a shop's files state, and what RECEIVE takes of it: bytes with a name go in, and items, remarks and records
//! come out. Nothing here knows a file or a host, so that every program that reads such files makes the same calls:
//! `carry` for files that are all there, or `StatedFiles` where a program reads one file after the other. `carry`
//! promises that no SYSMOD is looser than it was stated and that no hold is lost; `ptfin_records` and `hold_records`
//! that the readers of RECEIVE find in the records just the items that were meant. Every call that allocates fails with
//! `AllocError`, or a fault that says so, if memory runs out.
#![tactic(auto)]

mod carried;
mod given;
mod records;
mod same;
mod stated;
mod statements;

pub use carried::Carried;
pub use given::{GivenFile, carry};
pub use intake_carry::Narrowed;
pub use intake_read::WideFile;
pub use intake_words::{CardOptions, InputFiles, IntakeFault};
pub use records::{hold_records, ptfin_records};
pub use same::{are_same_hold_items, are_same_items};
pub use stated::{StatedFiles, read_file};
pub use statements::{hold_file, ptfin};
