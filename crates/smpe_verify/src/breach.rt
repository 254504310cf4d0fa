//! What keeps a zone from being closed, by SYSMOD or element and by rule.

use fields::{Id, Name};
use terms::ElemType;

/// A rule that the entry of a SYSMOD breaks. All but the last are rules for an applied SYSMOD.
#[derive(Clone, Copy)]
pub enum EntryFault {
    /// The `++VER` by which it was applied is not received.
    VerNotReceived,
    /// Its FMID is not applied.
    FmidNotApplied(Id),
    /// This requisite is neither applied nor superseded, and the SYSMOD does not waive it.
    RequisiteNotSupplied(Id),
    /// It is a function, and this id in its NPRE is applied.
    NpreApplied(Id),
    /// This id in its chain was deleted.
    DeletedInChain(Id),
    /// This id in its SUPBY is not applied.
    SupbyNotApplied(Id),
}

/// Which entry of an element names a SYSMOD.
#[derive(Clone, Copy)]
pub enum Level {
    Fmid,
    Rmid,
    Umid,
}

/// A rule that an element breaks.
#[derive(Clone, Copy)]
pub enum ElementFault {
    /// This FMID, RMID or UMID is not applied.
    LevelNotApplied(Level, Id),
    /// This RMID does not replace the element.
    NotReplacedBy(Id),
    /// This UMID does not update the element.
    NotUpdatedBy(Id),
    /// The elements of this FMID, RMID or UMID belong to another function, the second id.
    OtherOwner(Level, Id, Id),
}

/// The entry or the element that breaks a rule, and the rule.
#[derive(Clone, Copy)]
pub enum Breach {
    OfEntry(Id, EntryFault),
    OfElement(ElemType, Name, ElementFault),
}
