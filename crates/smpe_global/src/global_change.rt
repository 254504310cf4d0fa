//! What a RECEIVE or REJECT writes and prints.
ghost use Rattle.std.specs.Prelude.{◌≡◌, []};

use report::ReportLine;
use std::alloc::Global;
use sysmods::GlobalEdit;

/// What a RECEIVE or REJECT writes, in order, and its lines.
#[derive(Drop)]
pub struct GlobalChange {
    pub edits: Vec<GlobalEdit>,
    pub lines: Vec<ReportLine>,
}

impl GlobalChange {
    /// No edits and no lines.
    pub(crate) fn new(alloc: Global) -> GlobalChange
        ensures edits { result.edits.items ≡ [] }
        ensures lines { result.lines.items ≡ [] }
    {
        GlobalChange {
            edits: Vec::new(alloc),
            lines: Vec::new(alloc),
        }
    }
}
