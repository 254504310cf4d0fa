//! The tables of the global zone: received SYSMODs, with their sources, `++VER`s, `++IF`s and element statements, and
//! holds, external ones and those of SYSMODs. A module for each table has everything about that table: its statements,
//! and its row as it is read and written. Inside a transaction, the calls that insert SYSMODs, replace the sources of
//! one, remove one, put a hold or remove one change the SYSMODs and holds for which the tables stand in this way, and
//! nothing else. `load_holds` returns the holds in their order, under each schema, and refuses a row only if the rows
//! stand for none. `load_sorted` does the same for the rows of any other table. Every call that allocates returns an
//! error if memory runs out.
#![tactic(auto)]

mod cells;
mod elem;
mod head;
mod hold;
mod hold_comment;
mod ifreq;
mod item_rows;
mod listed;
mod moreif;
mod morever;
mod numbers;
mod source;
mod sysmod_rows;
mod ver;

pub use elem::{ElemRow, Elems};
pub use head::{BareHead, BareHeads, HeadRow, Heads};
pub use hold::{load_holds, remove_hold, upsert_hold};
pub use ifreq::{IfRow, Ifs};
pub use listed::{WholeTable, load_sorted, sort_by_keys};
pub use moreif::MoreIfs;
pub use morever::MoreVers;
pub use numbers::number_after;
pub use source::{SourceRow, Sources, insert_source};
pub use sysmod_rows::{SysmodRows, insert_sysmods, remove_sysmod, replace_sources};
pub use ver::{VerRow, Vers};
