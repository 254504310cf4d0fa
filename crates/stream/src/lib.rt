//! Whether a stream of service is clean. The stream is what is received with a `++VER` for an SREL, and the first such
//! `++VER` of a SYSMOD counts. In a clean stream a SYSMOD has the requisites and changes the elements of what it
//! supersedes, and of two SYSMODs of one owner that change one element, one is over the other. `lint` finds all that
//! breaks the first two rules. For the third it puts the SYSMODs into an order in which each comes after all that it
//! names, and compares only neighbours. Its time is measured, not proved. Every call that allocates returns
//! `AllocError` if memory runs out.
#![tactic(auto)]

mod breaches;
mod circles;
mod elements;
mod first_vers;
mod keeping;
mod linting;
mod naming;
mod order;
mod remarks;
mod requisites;
mod unordered;

pub use breaches::{Lack, LostElement, LostRequisite, Unordered};
pub use fields::{Id, IdList, Name, Reason, Srel};
pub use linting::{Findings, lint};
pub use remarks::Remark;
pub use sysmods::GlobalZone;
pub use terms::{ElemType, HoldKind, NeedKind};
