//! What an APPLY or ACCEPT would make of an id, in words. `append_verdict` tells what its lines say about the id, with
//! the facts and the conflicts on which each failed test and each open need rests, which other candidates serve what it
//! asks for, and what BYPASS covers. `conflicts_of` finds the other candidates that delete its function or clash with
//! it. Every call that allocates returns `AllocError` if memory runs out.
#![tactic(auto)]

mod besides;
mod conflict;
mod conflict_reasons;
mod conflicts;
mod indent;
mod reasons;
mod statuses;
mod verdict;
mod verdict_facts;

pub use conflict::{Apart, Conflict, Partner, SharedElement};
pub use conflicts::conflicts_of;
pub use verdict::append_verdict;
pub use verdict_facts::VerdictFacts;
