//! Why a candidate failed.

use crate::test_set::TestSet;
use fields::Id;
use terms::NeedKind;

/// A need that no kept candidate serves.
#[derive(Clone, Copy, Debug)]
pub struct OpenNeed {
    pub kind: NeedKind,
    pub id: Id,
}

/// Why a candidate failed. The lists are in the order in which they are printed.
#[derive(Drop)]
pub struct Failure {
    pub tests: TestSet,
    pub needs: Vec<OpenNeed>,
    pub causers: Vec<Id>,
}
