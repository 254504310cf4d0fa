//! What the words of a verdict rest on.
use crate::conflict::Conflict;
use fields::Bypass;
use report::{Fact, ReportLine};

/// What the words of a verdict about an id rest on: BYPASS, the facts of the id, its conflicts with the other
/// candidates, and the lines of the report.
#[derive(Clone, Copy)]
pub struct VerdictFacts<'a, 'b> {
    pub bypass: &'a Bypass,
    pub facts: &'a [Fact<'b>],
    pub conflicts: &'a [Conflict],
    pub lines: &'a [ReportLine],
}
