//! The SYSMODs of a shop's files, except their holds: `++VER`s with their `++IF`s, and the elements that they bring or
//! update. Each element is carried, or has a stand-in if that is asked for, or a remark. A SYSMOD is carried whole or
//! not at all, so that it is never looser than what the file states: `carry_sysmod` promises it. Every call that
//! allocates fails with `AllocError` if memory runs out.
#![tactic(auto)]

mod carried;
mod changes;
mod element_users;
mod ids;
mod ifs;
mod others;
mod passing;
mod users;
mod ver_operands;
mod vers;

pub use carried::carry_sysmod;
pub use element_users::{ElementUser, add_users_of_sysmod};
pub use intake_elements::{Options, RelfileMember, Syslib};
pub use others::tell_other_statements;
pub use users::Users;
