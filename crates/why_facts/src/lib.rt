//! The facts about an id in a zone, on which an APPLY, ACCEPT or RESTORE of it would rest. `id_facts` returns the facts
//! of the definition, by the tests and needs of an install with given candidates. `append_facts` spells them, and
//! `facts_code` is the return code of the answer. No contract says how much work that is: for each id one pass over
//! the entries, and for each open requisite one over the received SYSMODs. Every call that allocates returns
//! `AllocError` if memory runs out.
#![tactic(auto)]

mod answers;
mod asked_lines;
mod asking;
mod deletes;
mod element_facts;
mod element_lines;
mod fact_words;
mod facts;
mod forbids;
mod hold_facts;
mod indent;
mod joining;
mod looks;
mod needed;
mod requisites;
mod standing;
mod superseders;
mod text;
mod vers;

pub use facts::{Lookups, id_facts};
pub use text::{append_facts, facts_code};
