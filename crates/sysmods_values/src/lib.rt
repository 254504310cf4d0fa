//! SYSMODs as they are received: their `++VER`s with `++IF`s, their holds and the elements that they change. Contracts
//! see the records of the definitions: which ids a SYSMOD names, supersedes and names as functions, and how it grows by
//! one more statement (`insert_ver`, `push_if`, `push_hold`, `insert_change`). Every call that allocates returns
//! `AllocError` if memory runs out, and then changes nothing that it was to change.
#![tactic(auto)]

mod adding;
mod change;
mod hold;
mod keyed;
mod sysmod;
mod ver;

pub use change::{Action, ElemChange};
pub use hold::Hold;
pub use sysmod::Sysmod;
pub use ver::{IfReq, Ver};
