//! `++HOLD`.

use fields::{Class, HoldDate, Id, Reason};
use sorted::TryClone;
use std::alloc::{AllocError, Global};
use std::marker::Model;
use terms::HoldKind;

/// A hold on a SYSMOD. Its key is the id, the kind and the reason; the reason of an ERROR hold is an id. It is internal
/// if it came inside the SYSMOD.
#[derive(Drop)]
pub struct Hold {
    pub id: Id,
    pub kind: HoldKind,
    pub reason: Reason,
    pub fmid: Id,
    pub class: Option<Class>,
    pub date: Option<HoldDate>,
    pub comment: Option<String>,
    pub internal: bool,
}

impl Model for Hold {
    ghost use Rattle.std.specs.Prelude.{option_map};
    ghost use Rattle.std.specs.String.{string_bytes};
    ghost use Rattle.terms.specs.Types as terms;
    ghost use Rattle.terms.specs.Forms.{IsReason};

    ghost Value = { terms.Hold };

    ghost view = { λ a. record {
      id = a.id;
      kind = a.kind;
      reason = a.reason;
      fmid = a.fmid;
      class = a.class;
      date = a.date;
      comment = option_map string_bytes a.comment;
      internal = a.internal;
    } };

    ghost invariant = { λ a. IsReason a.kind a.reason };
}

impl TryClone for Hold {
    fn try_clone(&self, _alloc: Global) -> Result<Self, AllocError> {
        Ok(Hold {
            id: self.id,
            kind: self.kind,
            reason: self.reason,
            fmid: self.fmid,
            class: self.class,
            date: self.date,
            comment: self.comment.clone()?,
            internal: self.internal,
        })
    }
}
