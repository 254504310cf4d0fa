//! How a command looks at a zone: which `++VER`s count in it, what is left of it after DELETE takes something out, and
//! all that an install looks at. The `++VER` of a SYSMOD that counts is the one by which it was installed, or otherwise
//! the first that fits; one pass over entries and received SYSMODs finds all of them. What is left answers the same
//! questions as a zone, without a copy. From it follow the requisites that the remaining SYSMODs lose by a DELETE. An
//! install's `Scope` is the `++VER`s that count, the zone, the candidates and BYPASS, with the requisites and holds
//! that it covers. `entry_less` takes SYSMODs out of one entry, whatever test names them, and
//! `changers_by_element` lists the SYSMODs that change each element. All of this is as the
//! definitions have it. No contract says that no zone is copied. Every call that allocates returns `AllocError` if
//! memory runs out.
#![tactic(auto)]

mod binding;
mod bypassing;
mod candidates;
mod changers;
mod counting;
mod deleting;
mod entry;
mod orphaned;
mod scope;
mod zone_less;

pub use binding::binding_requisites;
pub use bypassing::is_bypassed_hold;
pub use candidates::Candidates;
pub use changers::changers_by_element;
pub use counting::{counting_vers, fits};
pub use deleting::deletions;
pub use entry::{TakesOut, entry_less};
pub use fields::{Bypass, ClassList, ReasonList, Reasons, YyDdd};
pub use orphaned::orphans;
pub use scope::Scope;
pub use sorted::multi_map::MultiMap;
pub use sysmods::{Chain, VerChoice};
pub use terms::{NeedKind, NotChosen, ZoneKind};
pub use zone_less::ZoneLess;
pub use zones_maps::{
    Applied, Element, Entry, PreparedZone, Zone, ZoneDelta, ZoneEdits, are_same_elements,
    are_same_entries, is_same_as_existing,
};
