//! What commands choose: what RECEIVE reads, what APPLY and ACCEPT take, and what RESTORE takes off.
ghost use Rattle.std.specs.Prelude.{◌≡◌};
ghost use Rattle.fields.specs.Choices.{no_selection};

use crate::ids::Source;
use crate::{IdList, SourceList};
use std::alloc::Global;
use std::marker::Model;

/// What RECEIVE reads: PTFIN for `sysmods`, the hold file for `holddata`, at least one of them. It adds the source to
/// SYSMODs.
#[derive(Drop)]
pub struct ReceiveOperands {
    pub sysmods: bool,
    pub holddata: bool,
    pub source: Option<Source>,
}

impl Model for ReceiveOperands {
    ghost use Rattle.terms.specs.Types as terms;

    ghost Value = { terms.ReceiveOperands };

    ghost view = { λ a. record { sysmods = a.sysmods; holddata = a.holddata; source = a.source } };
}

/// What APPLY or ACCEPT chooses. An absent operand is an empty list.
#[derive(Drop)]
pub struct Selection {
    pub functions: bool,
    pub ptfs: bool,
    pub apars: bool,
    pub usermods: bool,
    pub select: IdList,
    pub exclude: IdList,
    pub sourceid: SourceList,
    pub forfmid: IdList,
    pub group: IdList,
    pub groupextend: bool,
}

impl Model for Selection {
    ghost use Rattle.terms.specs.Types as terms;

    ghost Value = { terms.Selection };

    ghost view = { λ a. record {
      functions = a.functions;
      ptfs = a.ptfs;
      apars = a.apars;
      usermods = a.usermods;
      select = a.select;
      exclude = a.exclude;
      sourceid = a.sourceid;
      forfmid = a.forfmid;
      group = a.group;
      groupextend = a.groupextend;
    } };
}

impl Selection {
    /// A selection without operands, which chooses all PTFs.
    pub fn none(alloc: Global) -> Selection
        ensures { result ≡ no_selection }
    {
        Selection {
            functions: false,
            ptfs: false,
            apars: false,
            usermods: false,
            select: IdList::new(alloc),
            exclude: IdList::new(alloc),
            sourceid: SourceList::new(alloc),
            forfmid: IdList::new(alloc),
            group: IdList::new(alloc),
            groupextend: false,
        }
    }
}

/// The SYSMODs that RESTORE takes off: those of SELECT, or those of GROUP with all that these bring along.
#[derive(Drop)]
pub enum RestoreList {
    Select(IdList),
    Group(IdList),
}
