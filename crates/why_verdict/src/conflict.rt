//! What another candidate has to do with the failure of an id.
use fields::{Id, Name};
use terms::ElemType;

/// Why two SYSMODs may not change one element.
#[derive(Clone, Copy, Debug, PartialEq, Eq)]
pub enum Apart {
    /// Their elements have different owners.
    OtherOwner,
    /// Neither is over the other.
    Unordered,
}

/// A candidate with which the id clashes, and why both may not change one element.
#[derive(Clone, Copy)]
pub struct Partner {
    pub id: Id,
    pub apart: Option<Apart>,
}

/// An element that the candidate `with` changes too, and why both may not change it.
#[derive(Clone, Copy)]
pub struct SharedElement {
    pub with: Id,
    pub elem_type: ElemType,
    pub name: Name,
    pub apart: Apart,
}

/// Something that keeps two candidates from being installed together.
#[derive(Clone, Copy)]
pub enum Conflict {
    /// The candidate `by` names in DELETE the id, which is in the chain of FMIDs of the SYSMOD in question.
    Deletes { by: Id, id: Id },
    /// A candidate that the NPRE of the SYSMOD in question names.
    Forbids(Id),
    /// A candidate whose NPRE names the SYSMOD in question.
    ForbiddenBy(Id),
    /// An element that the SYSMOD in question and another candidate both change.
    Shares(SharedElement),
}
