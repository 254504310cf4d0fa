//! The assessment of candidates.

use crate::test_set::TestSet;
use fields::Id;
use terms::NeedKind;

/// A need: the candidate `of` needs the id.
#[derive(Clone, Copy)]
pub struct RequisiteOf {
    pub of: Id,
    pub kind: NeedKind,
    pub id: Id,
}

/// The assessment of candidates, by their ids.
#[derive(Drop)]
pub struct Assessment {
    /// The tests that each candidate fails, in the order of the candidates.
    pub tests: Vec<TestSet>,
    /// What each one needs, each need once.
    pub needs: Vec<RequisiteOf>,
    /// The candidates with each id that they supersede, among the ids with a need that a superseder serves.
    pub superseded: Vec<(Id, Id)>,
    /// The candidates with each of their requisites that BYPASS covers.
    pub bypassed: Vec<(Id, Id)>,
}
