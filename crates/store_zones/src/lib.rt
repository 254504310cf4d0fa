//! The tables of zones: the zones, their SYSMOD entries with the numbers of their `++VER`s, and their element entries.
//! A module for each table (`head`, `entry`, `installed_vers`, `element`) has everything about that table: its
//! statements, and its row as it is read and written. Inside a transaction, adding, putting or removing entries or
//! elements, or adding a zone, changes what the tables stand for in this way, and nothing else. A zone that is loaded,
//! and the heads and names of all zones, are those of the inventory for which the rows stand, under each schema. A row
//! is refused only if there is no such inventory. The answer says which rows the tables hold for the zone, or for all
//! zones. No call looks for entries, their numbers and elements of an undefined zone: foreign keys keep them out. Every
//! call that allocates returns an error if memory runs out.
#![tactic(auto)]

mod element;
mod entry;
mod head;
mod installed_vers;
mod items;
mod numbering;
mod related;
mod zone_load;
mod zone_rows;

pub use element::{insert_elements, remove_element, upsert_element};
pub use entry::{insert_entries, remove_entry, upsert_entry};
pub use head::{ZoneHead, insert_zone, zone_heads, zone_names};
pub use zone_load::load_zone;
