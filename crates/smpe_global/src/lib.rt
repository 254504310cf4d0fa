//! RECEIVE and REJECT: how the items of a PTFIN and of a hold file, and the ids of a REJECT, change the global zone,
//! and what is printed for each. `receive_ptfin`, `receive_holds` and `reject` take them one after the other, as the
//! definitions say. They return the lines, and edits that fit and make the same of the global zone. Those of RECEIVE
//! remove no SYSMOD, and those of REJECT write none. The statements of the SYSMODs that the edits insert are in the new
//! global zone, or in a later one. `reject` compares with zones that have the same ids applied as those of the map. No
//! contract says what the global zone holds after `AllocError`, which every call returns if memory runs out.
#![tactic(auto)]

mod assign;
mod attested;
mod edits;
mod global_change;
mod holddata;
mod last_edits;
mod ptfin;
mod rejected;
mod removals;

pub use global_change::GlobalChange;
pub use holddata::receive_holds;
pub use ptfin::receive_ptfin;
pub use rejected::reject;
