//! PTFIN and hold files: their items, or their first fault. A PTFIN consists of the SYSMODs and assignments to which
//! the grammar relates it, or it has a first fault, with record and code. A hold file consists of its holds and
//! releases, or has such a fault. No file has both. One half of the crate reads a single statement: its word, and in a
//! module for each word its operands, limits and inline text. The other half goes through a file: which statement may
//! follow which, what the statements make so far, and which fault comes first. Every call that allocates returns an
//! error if memory runs out; no contract says when.
#![tactic(auto)]

mod assign;
mod begin;
mod change;
mod comment;
mod error;
mod fault;
mod file;
mod file_faults;
mod header;
mod hold_file;
mod hold_item;
mod hold_operands;
mod ifs;
mod inner_holds;
mod kind;
mod limits;
mod listed_values;
mod order;
mod ptfin;
mod said;
mod statement;
mod statement_kinds;
mod ver;

pub use error::McsError;
pub use fields::{Class, HoldDate, Name, Reason, Source, SourceList, Srel};
pub use file::{Assign, Item};
pub use hold_file::read_hold;
pub use hold_item::HoldItem;
pub use hold_operands::Release;
pub use ptfin::read_ptfin;
pub use sysmods_values::{Action, ElemChange, Hold, IfReq, Sysmod, Ver};
pub use terms::{ElemType, HoldKind, Kind, StatementCode, StatementWord};
