//! The candidates of a command by their numbers, and what is decided about them by their ids: one engine for APPLY,
//! ACCEPT and RESTORE. An `Assessment` says of the candidates, by their ids, which tests each one fails, what it needs,
//! and which ids it supersedes. `Judged` is its numbered form: a `solve::System`, the id of each number, and what the
//! command needs again. For the set that a `solve::Solver` keeps, `Judged::decided` returns the kept ids, and for each
//! other candidate its failed tests, the needs that no kept candidate serves, and the causers. No contract says that
//! needs are numbered one by one and that an index finds the candidates that serve a need. Every call that allocates
//! returns `AllocError` if memory runs out.
#![tactic(auto)]

mod decided;
mod failure;
mod failures;
mod items;
mod judged;
mod kept;
mod needs;
mod numbered;
mod serving;
mod stated;
mod test_set;

pub use decided::Decided;
pub use failure::{Failure, OpenNeed};
pub use items::item_at;
pub use judged::Judged;
pub use stated::{Assessment, RequisiteOf};
pub use test_set::{TestSet, Tests};
