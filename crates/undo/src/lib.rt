//! What RESTORE takes off its zone, in two parts. The candidates are the applied ids of its list: of SELECT's ids, or
//! of the least closed list that contains GROUP's. In that list, some SYSMODs and elements together bring in others.
//! For candidates of any list and any two zones, `restore_system` returns the tests that each one fails and what each
//! one needs, and the numbered system of that. Before that, `takes_all` says whether all of them go, which takes no
//! pairs of SYSMODs that change one element. One pass over the applied SYSMODs records which ones change which element
//! and which ones depend on which. `change::restore` takes off the candidates that a `solve::Solver` keeps. Every call
//! that allocates returns `AllocError` if memory runs out.
#![tactic(auto)]

mod assessing;
mod candidates;
mod dependences;
mod element_changers;
mod judging;
mod listing;
mod needed;
mod nodes;
mod numbered;
mod numbers;
mod pairs;
mod scope;
mod steps;
mod tests;
mod whole;

pub use candidates::restore_candidates;
pub use dependences::suppliers;
pub use fields::RestoreList;
pub use judge_system::{
    Assessment, Decided, Failure, Judged, OpenNeed, RequisiteOf, TestSet, Tests,
};
pub use judging::restore_system;
pub use scope::applied_ids;
pub use terms::Test;
pub use whole::takes_all;
