//! What SYSMODs name in their `++VER`s for one SREL, once one more is received.
ghost use Rattle.terms.specs.Global.{names_for, with_sysmod};
ghost use Rattle.sysmods.specs.Held.{zone_of};
ghost use Rattle.sysmods.specs.Namers.{namers_with};

use crate::received::Received;
use crate::search::IdGraph;
use fields::{Id, Srel};
use std::alloc::AllocError;
use sysmods_values::Sysmod;

/// What each SYSMOD names in its `++VER`s for the SREL: the received ones, and `sysmod` as if it were received too.
#[derive(Clone, Copy)]
pub(crate) struct Naming<'a> {
    pub(crate) received: &'a Received,
    pub(crate) sysmod: &'a Sysmod,
    pub(crate) srel: Srel,
}

impl IdGraph for Naming<'_> {
    ghost named = { λ n x. names_for (with_sysmod (zone_of n.received.now) n.sysmod.now) n.srel x };

    fn append_named(&self, id: Id, found: &mut Vec<Id>) -> Result<(), AllocError> {
        let sysmod = self.sysmod;
        if id == sysmod.id {
            sysmod.append_named(self.srel, found)?;
            return Ok(());
        }
        if let Some(other) = self.received.get(id) {
            other.append_named(self.srel, found)?;
            return Ok(());
        }
        Ok(())
    }
}

/// The same graph in the other direction: for each id the SYSMODs that name it.
#[derive(Clone, Copy)]
pub(crate) struct ReferencesTo<'a> {
    pub(crate) received: &'a Received,
    pub(crate) sysmod: &'a Sysmod,
    pub(crate) srel: Srel,
}

impl IdGraph for ReferencesTo<'_> {
    ghost named = { λ n z. namers_with n.received.now n.sysmod.now n.srel z };

    fn append_named(&self, id: Id, found: &mut Vec<Id>) -> Result<(), AllocError> {
        self.received.append_namers(self.srel, id, found)?;
        let sysmod = self.sysmod;
        if sysmod.names_for(self.srel, id) {
            found.push(sysmod.id)?;
        }
        Ok(())
    }
}
