//! From what a shop's files state to what RECEIVE takes: each statement is carried, or a remark says why not.
//! A hold is in its SYSMOD or in the hold file, so that none is lost, and a SYSMOD is never looser than what the file
//! states: `narrow` promises both. Every call that allocates fails with `AllocError` if memory runs out.
#![tactic(auto)]

mod assigns;
mod copies;
mod files;
mod held_copies;
mod left_out;
mod left_out_sysmods;
mod narrowed;
mod notes;
mod parts;
mod passed_on;
mod scope;
mod stand_ins;
mod sysmods;
mod unsure;
mod unsure_reasons;

pub use files::narrow;
pub use intake_holds::{OutsideHolds, read_statements};
pub use narrowed::{CarryError, Narrowed, Tally};
pub use unsure::Unsure;
