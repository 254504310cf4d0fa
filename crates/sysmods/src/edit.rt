//! Edits of the global zone, by which the tables follow it.

use fields::{Id, Reason, Source};
use sysmods_values::{Hold, Sysmod};
use terms::HoldKind;

/// An edit of the global zone. The statements of a SYSMOD are long and never change, so no edit carries them. They are
/// in the global zone to which all the edits lead.
#[derive(Drop)]
pub enum GlobalEdit {
    /// Puts the hold instead of one of the same key.
    PutHold(Hold),
    /// Removes the hold of this key.
    RemoveHold(Id, HoldKind, Reason),
    /// Inserts the received SYSMOD of this id, which has these sources. Other edits put its holds.
    InsertSysmod(Id, Vec<Source>),
    /// Replaces the sources of a received SYSMOD. The value has only its id, its kind and its new sources.
    ReplaceSources(Sysmod),
    /// Removes the SYSMOD of this id. Other edits remove the internal holds on it.
    RemoveSysmod(Id),
}
