//! What a store turned out to be.

use crate::breach::Breach;
use fields::ZoneName;

/// How many SYSMODs are received, how many zones are defined, and how many entries and elements these have together.
#[derive(Clone, Copy)]
pub struct Counts {
    pub sysmods: usize,
    pub zones: usize,
    pub entries: usize,
    pub elements: usize,
}

/// What a store turned out to be.
#[derive(Clone, Copy)]
pub enum Verification {
    /// All zones are closed.
    Closed(Counts),
    /// The first zone that is not, and its first breach.
    Broken(ZoneName, Breach),
}
