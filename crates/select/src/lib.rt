//! Which SYSMODs an APPLY takes up, and why it does not take up the others that it names. `candidates` returns what the
//! first sets of all closed pairs have in common; each of them may be installed. It also returns the first reason for
//! each id that SELECT or GROUP names and that is neither excluded nor open. No contract says how much work that is:
//! one pass over the zone's entries, one over the received SYSMODs if the command chooses by mass, and look-ups. For
//! each id that becomes a candidate it looks at those that name it as a function, and under GROUPEXTEND for each id
//! that is asked for at those that name it. A SYSMOD that grows is asked once as a whole, and once more for each
//! function that it names and that becomes a candidate later. Every call that allocates returns `AllocError` if memory
//! runs out.
#![tactic(auto)]

mod asked;
mod bringing;
mod filters;
mod growing;
mod left_out;
mod scope;
mod selected;
mod start;

pub use fields::Selection;
pub use selected::candidates;
