//! Which of some numbered candidates, each of which needs others, support each other. The crate knows only numbers, no
//! ids and no zones. Every `Solver` returns the union of all self-supporting sets, `least` what all closed sets have in
//! common, and `causers` the roots to which a failed candidate leads. The contract of `Worklist::count` gives the exact
//! number of strikes and a bound on the turns. That each loop body raises `turns` shows only in the code. Every call
//! that allocates returns an error if memory runs out.
#![tactic(auto)]

mod causes;
mod error;
mod growth;
mod rows;
mod sets;
mod solver;
mod sweep;
mod system;
mod worklist;

pub use causes::causers;
pub use error::SystemError;
pub use growth::{Rule, Rules, least};
pub use rows::empty_rows;
pub use sets::Kept;
pub use solver::Solver;
pub use sweep::Sweep;
pub use system::{Need, System};
pub use worklist::{Count, Worklist};
