//! The SYSMODs that a command takes up.

use fields::{Id, IdList};
use terms::NotChosen;

/// What a command takes up in a zone: its candidates, and the ids that it names and that are not candidates.
#[derive(Drop)]
pub struct Candidates {
    /// The ids of the candidates, rising.
    pub ids: IdList,
    /// The ids that the command names and that are not candidates, each with its status.
    pub left_out: Vec<(Id, NotChosen)>,
}
