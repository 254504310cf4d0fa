//! HOLDDATA: from the holds and releases that a shop's files state to those that RECEIVE takes. Each one is carried
//! with its id, kind, reason, FMID, CLASS and DATE, or is left out because its kind is FIXCAT, or is refused with a
//! remark, so that none is lost. Every call that allocates fails with `AllocError` if memory runs out.
#![tactic(auto)]

mod comment;
mod errors;
mod faulty_operands;
mod holds;
mod outside;
mod placed;
mod refusals;

pub use errors::HoldError;
pub use faulty_operands::has_faulty_operand;
pub use holds::{carry_hold, hold_subject, is_internal_in};
pub use outside::{FileRemarks, OutsideHolds, read_statements};
pub use placed::{PlacedItem, carry_releases, items_in_order, push_item};
