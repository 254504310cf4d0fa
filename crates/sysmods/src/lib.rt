//! The global zone: the received SYSMODs and the holds, and which of them are over, supersede and own which. One half
//! is the zone and its changes. SYSMODs are ordered by id, with an index of those that name each id, and holds by id,
//! kind and reason. A `GlobalZone` keeps `IsGlobal`. Each change of it is the definition's, and so is the fault that
//! refuses a SYSMOD. If a change fails, nothing changes. Two lists make a global zone exactly if they are those of one.
//! The other half follows what SYSMODs name, for a zone's SREL and by the one `++VER` of each SYSMOD that counts
//! (`VerChoice`): a search finds which ids are over an id and which it supersedes, and a walk finds the chain of its
//! FMIDs. `Overs` keeps what it has found. Both halves use the same searches in a graph of ids. Their times are
//! measured, not proved. Every call that allocates returns `AllocError`, or the `Memory` of its error, if memory runs
//! out, and then changes nothing, unless its comment says otherwise.
#![tactic(auto)]

mod chain;
mod descent;
mod edit;
mod global_zone;
mod holds;
mod index;
mod iter;
mod key;
mod loops;
mod naming;
mod over_graph;
mod overs;
mod parts;
mod receive;
mod received;
mod refused;
mod roles;
mod search;
mod undo;
mod ver_choice;
mod ways;

pub use chain::Chain;
pub use edit::GlobalEdit;
pub use fields::{
    Class, Field, HoldDate, Id, IdList, Name, Reason, Rising, Source, SourceList, Srel, VerNumber,
    ZoneName,
};
pub use global_zone::{GlobalZone, RejectError};
pub use holds::{Placed, ReleaseError};
pub use iter::Iter;
pub use overs::{KnownOvers, Overs};
pub use refused::Refused;
pub use sorted::{Edit, Keyed, Prepared, Table};
pub use sysmods_values::{Action, ElemChange, Hold, IfReq, Sysmod, Ver};
pub use terms::{ElemType, HoldKind, Kind, StatementWord};
pub use ver_choice::{Pick, VerChoice, has_ver, numbered_ver};
