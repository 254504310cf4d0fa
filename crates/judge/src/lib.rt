//! Which SYSMODs may be installed together: the numbered system of an APPLY or ACCEPT. `install_system` returns the
//! tests that each candidate fails, what each one needs, and which of its requisites BYPASS covers. The system is the
//! numbered form of these. The set that any `solve::Solver` keeps of it is the kept set, and `solve::causers` finds the
//! causers. Every call that allocates returns `AllocError` if memory runs out.
#![tactic(auto)]

mod assessing;
mod installing;
mod surviving;

pub use installing::install_system;
pub use judge_system::{
    Assessment, Decided, Failure, Judged, OpenNeed, RequisiteOf, TestSet, Tests,
};
pub use terms::Test;
