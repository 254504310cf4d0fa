//! The kinds by which the manual sorts SYSMODs, holds, elements and zones, each in its printed order.
ghost use Rattle.std.specs.Prelude.{◌↔◌, IsTrue};
ghost use Rattle.terms.specs.Texts.{TakesUpdates};

/// A SYSMOD's type, by its header: `++FUNCTION`, `++PTF`, `++APAR` or `++USERMOD`.
#[derive(Clone, Copy, Debug, PartialEq, Eq, PartialOrd, Ord, Hash)]
pub enum Kind {
    Function,
    Ptf,
    Apar,
    Usermod,
}

/// The kind of a `++HOLD`.
#[derive(Clone, Copy, Debug, PartialEq, Eq, PartialOrd, Ord, Hash)]
pub enum HoldKind {
    Error,
    System,
    User,
}

/// The type of an element, by its statement: `++MAC`, `++SRC` and the data elements.
#[derive(Clone, Copy, Debug, PartialEq, Eq, PartialOrd, Ord, Hash)]
pub enum ElemType {
    Mac,
    Src,
    Clist,
    Data,
    Exec,
    Parm,
    Proc,
}

impl ElemType {
    /// Whether elements of this type have numbered texts. These are the types that have updates.
    pub fn is_numbered(self) -> bool
        ensures { IsTrue result ↔ TakesUpdates self }
    {
        matches!(self, ElemType::Mac | ElemType::Src)
    }
}

/// APPLY works on a target zone, the running system. ACCEPT works on a distribution zone, the level to which RESTORE
/// goes back.
#[derive(Clone, Copy, Debug, PartialEq, Eq, PartialOrd, Ord, Hash)]
pub enum ZoneKind {
    Target,
    Distribution,
}
