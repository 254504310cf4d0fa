//! What breaks the rules of a clean stream.
use fields::{Id, Name};
use terms::ElemType;

/// What a SYSMOD lacks of the requisites of one that it supersedes.
#[derive(Clone, Copy)]
pub enum Lack {
    /// It has another FMID.
    Fmid,
    /// It names this PRE neither in PRE nor in SUP.
    Pre(Id),
    /// It does not name this SUP in SUP.
    Sup(Id),
}

/// A SYSMOD names one of the stream in SUP, and lacks a requisite of it.
#[derive(Clone, Copy)]
pub struct LostRequisite {
    pub superseding: Id,
    pub superseded: Id,
    pub lack: Lack,
}

/// A SYSMOD names one of the stream in SUP, and does not change an element that this one changes.
#[derive(Clone, Copy)]
pub struct LostElement {
    pub superseding: Id,
    pub superseded: Id,
    pub elem_type: ElemType,
    pub name: Name,
}

/// Two SYSMODs of one owner change one element, and neither is over the other.
#[derive(Clone, Copy)]
pub struct Unordered {
    pub elem_type: ElemType,
    pub name: Name,
    pub one: Id,
    pub other: Id,
}
