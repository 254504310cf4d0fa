//! APPLY, ACCEPT and RESTORE: what is decided about each id, how the zone changes, and what is printed. Whatever zone
//! the delta of `apply` makes of the old one is the one that APPLY or ACCEPT installs by the selection. There is one
//! line for each id that has a status, by id. The kept ones are the union of all self-supporting sets, and each other
//! one has its failed tests, open needs and causers. Whatever zone the delta of `restore` makes of the old one is the
//! one that RESTORE leaves by its list; its lines are those of the ids of the list, by id. No contract says how much
//! work that is: a sort, and passes. Every call that allocates returns `AllocError` if memory runs out.
#![tactic(auto)]

mod applied;
mod lines;
mod restored;
mod restored_lines;
mod solving;
mod statuses;

pub use applied::{InstallChange, apply};
pub use restored::{Restored, restore};
