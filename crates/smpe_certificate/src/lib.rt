//! The certificate of an APPLY or ACCEPT: what it decides about each candidate, as facts, one a line, that anyone can
//! check again without this code. The facts are of four kinds (`Certificate`). Someone who looks only at what a
//! certificate states can tell whether it is accepted (`IsAccepted`). The laws (`laws`): a certificate of a decision is
//! accepted, and what an accepted one keeps is the greatest set that supports itself, in the system that it states.
//! The work is a pass over the candidates and their needs; a need is looked at once more for each candidate that is
//! dropped and could have served it. No contract says so. Every call that allocates returns `AllocError` if memory runs
//! out.
#![tactic(auto)]

mod certified;
mod digest;
mod dropped;
mod elimination;
mod facts;
mod ineligible;
mod kept;
pub mod laws;
mod served;
mod serving;
mod text;

pub use certified::certificate;
pub use digest::Digest;
