//! The answer to an APPLY or ACCEPT of a package that fits on a screen: what would become of each SYSMOD of the package,
//! why those that would fail do so, and what is to be done. All of it is read off the lines of the command and the zones
//! (`Asked`). Each SYSMOD of the package is in one group. A cause is a causer of the SYSMODs that would fail, with their
//! number and the first of its own reasons. The law (`laws`): each id of the package has one group. Every call that
//! allocates returns `AllocError` if memory runs out.
#![tactic(auto)]

mod asked;
mod blockers;
mod cause_text;
mod causes;
mod first_line;
mod group_lines;
pub mod laws;
mod lines;
mod members;
mod pieces;
mod status;
mod steps;
mod summarize;
mod superseding;
mod taken;
mod text;
mod todo;
mod todo_text;
mod values;

pub use asked::Asked;
pub use cause_text::append_cause_text;
pub use summarize::summary_of;
pub use text::append_summary;
pub use values::{Cause, CauseReason, Group, Member, Summary, TakenOff, ToDo};
