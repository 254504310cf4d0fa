//! The facts of a certificate.
use fields::{Id, IdList};
use terms::{NeedKind, Test};

/// A candidate that is not eligible, and a test that it fails.
#[derive(Drop)]
pub(crate) struct IneligibleFact {
    pub(crate) id: Id,
    pub(crate) test: Test,
}

/// An eligible candidate that is not kept, one of its needs, and all candidates that could serve this need.
#[derive(Drop)]
pub(crate) struct DroppedFact {
    pub(crate) id: Id,
    pub(crate) kind: NeedKind,
    pub(crate) needed: Id,
    pub(crate) servers: Vec<Id>,
}

/// A need of a kept candidate, and a kept candidate that serves it.
#[derive(Drop)]
pub(crate) struct ServedFact {
    pub(crate) id: Id,
    pub(crate) kind: NeedKind,
    pub(crate) needed: Id,
    pub(crate) by: Id,
}

/// The facts of a decision.
#[derive(Drop)]
pub(crate) struct Certificate {
    pub(crate) ineligible: Vec<IneligibleFact>,
    /// In an order in which they are dropped: whoever could serve the need of one is ineligible or comes before it.
    pub(crate) dropped: Vec<DroppedFact>,
    pub(crate) kept: IdList,
    pub(crate) served: Vec<ServedFact>,
}
