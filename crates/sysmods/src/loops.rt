//! Whether one more SYSMOD makes a loop of PRE, SUP and FMID.
ghost use Rattle.std.specs.Prelude.{◌≡◌, ◌↔◌, IsTrue, IfOk, None};
ghost use Rattle.terms.specs.Over.{Reaches};
ghost use Rattle.terms.specs.Global.{HasLoop, names_for, with_sysmod};
ghost use Rattle.sysmods.specs.Held.{found, zone_of};

use crate::naming::{Naming, ReferencesTo};
use crate::received::Received;
use crate::search::leads_to_from_both_ends;
use fields::Srel;
use std::alloc::{AllocError, Global};
use sysmods_values::Sysmod;

// Whether the `++VER`s for this SREL lead from the new SYSMOD back to itself.
fn leads_back(
    alloc: Global,
    received: &Received,
    sysmod: &Sysmod,
    srel: Srel,
) -> Result<bool, AllocError>
    requires { found received.now sysmod.now.id ≡ None }
    ensures { IfOk result (λ found. IsTrue found ↔ Reaches (names_for (with_sysmod (zone_of received.now) sysmod.now)
        srel) sysmod.now.id sysmod.now.id) }
{
    let naming = Naming {
        received,
        sysmod,
        srel,
    };
    let namers = ReferencesTo {
        received,
        sysmod,
        srel,
    };
    leads_to_from_both_ends(alloc, &naming, &namers, sysmod.id, sysmod.id)
}

/// Whether there is a loop with the SYSMOD, if there was none without it. It searches only if a received SYSMOD, or the
/// new one itself, names the new one.
pub(crate) fn makes_loop(
    alloc: Global,
    received: &Received,
    sysmod: &Sysmod,
) -> Result<bool, AllocError>
    requires new { found received.now sysmod.now.id ≡ None }
    requires no_loop { ¬ HasLoop (zone_of received.now) }
    ensures { IfOk result (λ found. IsTrue found ↔ HasLoop (with_sysmod (zone_of received.now) sysmod.now)) }
{
    if !received.is_named(sysmod.id) && !sysmod.names(sysmod.id) {
        return Ok(false);
    }
    for ver in sysmod.vers.iter() {
        if leads_back(alloc, received, sysmod, ver.srel)? {
            return Ok(true);
        }
    }
    Ok(false)
}
