//! The keys of SYSMODs, of their parts, and of holds.

use crate::{ElemChange, Hold, Sysmod, Ver};
use fields::{Id, Name, Reason, Srel};
use sorted::Keyed;
use terms::{ElemType, HoldKind};

impl Keyed for Sysmod {
    type Key = Id;

    ghost key_of = { λ sysmod. sysmod.id };

    fn key(&self) -> Id {
        self.id
    }
}

impl Keyed for Ver {
    type Key = Srel;

    ghost key_of = { λ ver. ver.srel };

    fn key(&self) -> Srel {
        self.srel
    }
}

impl Keyed for ElemChange {
    type Key = (ElemType, Name);

    ghost key_of = { λ change. (change.elem_type, change.name) };

    fn key(&self) -> (ElemType, Name) {
        (self.elem_type, self.name)
    }
}

impl Keyed for Hold {
    type Key = (Id, (HoldKind, Reason));

    ghost key_of = { λ hold. (hold.id, (hold.kind, hold.reason)) };

    fn key(&self) -> (Id, (HoldKind, Reason)) {
        (self.id, (self.kind, self.reason))
    }
}
