//! What APPLY and ACCEPT disregard.
ghost use Rattle.std.specs.Prelude.{◌≡◌, false};
ghost use Rattle.terms.specs.CommandForms.{no_bypass};
ghost use Rattle.terms.specs.Needs.{is_bypassed};

use crate::{ClassList, ReasonList};
use std::alloc::Global;
use std::marker::Model;
use terms::NeedKind;

/// The reasons of holds that HOLDERROR, HOLDSYSTEM or HOLDUSER covers: those of its list, or all if it has no list.
#[derive(Drop)]
pub enum Reasons {
    None,
    Any,
    These(ReasonList),
}

/// The members of BYPASS (`ID` is `same_id`). The classes are those of HOLDCLASS, which covers holds of every kind.
#[derive(Drop)]
pub struct Bypass {
    pub pre: bool,
    pub req: bool,
    pub ifreq: bool,
    pub same_id: bool,
    pub applycheck: bool,
    pub holderror: Reasons,
    pub holdsystem: Reasons,
    pub holduser: Reasons,
    pub holdclass: ClassList,
}

impl Model for Bypass {
    ghost use Rattle.terms.specs.Types as terms;
    ghost use Rattle.fields.specs.Choices.{reasons_in};

    ghost Value = { terms.Bypass };

    ghost view = { λ a. record {
      pre = a.pre;
      req = a.req;
      ifreq = a.ifreq;
      same_id = a.same_id;
      applycheck = a.applycheck;
      holderror = reasons_in a.holderror;
      holdsystem = reasons_in a.holdsystem;
      holduser = reasons_in a.holduser;
      holdclass = a.holdclass;
    } };
}

impl Bypass {
    /// A BYPASS without members, which bypasses nothing.
    pub fn none(alloc: Global) -> Bypass
        ensures { result ≡ no_bypass }
    {
        Bypass {
            pre: false,
            req: false,
            ifreq: false,
            same_id: false,
            applycheck: false,
            holderror: Reasons::None,
            holdsystem: Reasons::None,
            holduser: Reasons::None,
            holdclass: ClassList::new(alloc),
        }
    }

    /// Whether its member PRE, REQ or IFREQ bypasses needs of the kind.
    pub fn covers(&self, kind: NeedKind) -> bool
        ensures { result ≡ is_bypassed self.now kind }
    {
        match kind {
            NeedKind::Pre => self.pre,
            NeedKind::Req => self.req,
            NeedKind::Ifreq => self.ifreq,
            _ => false,
        }
    }
}
