//! The store: a connection whose tables stand for an inventory, and changes of it, each in one transaction. After
//! `commit` the tables stand for the changed inventory, and a crash leaves that one. After an error they stand for the
//! old one, and a crash leaves one of the two. Even if the tables stand for no inventory, a commit makes its statements
//! and nothing else, or nothing, and a global zone, a zone or the heads of all zones that are loaded are those of their
//! rows. What is loaded is the inventory's. A `Fault` has a cause in its call: the disk failed, or for a commit the
//! database refused one of its statements. Every call that allocates returns `Memory` if memory runs out; no contract
//! says when. `target_name` finds the target zone that is related to a distribution zone. `found_again` is a law about
//! what the next open finds. Here is also, for the crates above, what a store keeps of a machine's state and how a call
//! over it ends (`Kept`, `CallEnds`).
#![tactic(auto)]

mod change;
mod delta;
mod global_edits;
mod global_load;
mod law;
mod load;
mod open;
mod related;
mod write;

pub use change::Change;
pub use fields::YyDdd;
pub use global_load::{GlobalLists, assemble_global, load_global_lists};
pub use law::found_again;
pub use load::map_read_error;
pub use open::Store;
pub use related::target_name;
pub use store_rows::ReadError;
pub use store_schema::{Schema, StoreError};
pub use store_zones::ZoneHead;
pub use terms::ZoneKind;
pub use zones_maps::{Applied, Element, Entry, PreparedZone, Zone, ZoneDelta, ZoneEdits};
