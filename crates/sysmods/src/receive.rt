//! Whether a SYSMOD may be received, and taking it in.
ghost use Rattle.std.specs.Prelude.{◌≡◌, [], None, OnOk, OnErr, IfErr};
ghost use Rattle.std.specs.Ordering.{nat_cmp};
ghost use Rattle.std.specs.Cmp.Lexicographic.{slice_cmp};
ghost use Rattle.terms.specs.Global.{HasLoop, RolesFit};
ghost use Rattle.terms.specs.Rising.{with_item};
ghost use Rattle.sysmods.specs.Lists.{with_holds};
ghost use Rattle.sysmods.specs.Held.{found, zone_of};
ghost use Rattle.sysmods.specs.Refused.{HasNoFault, IsRefused};

use crate::holds::Holds;
use crate::loops::makes_loop;
use crate::received::Received;
use crate::refused::Refused;
use crate::roles::roles_fit;
use std::alloc::{AllocError, Global};
use sysmods_values::Sysmod;

/// The most SYSMODs that a global zone may have received.
const MOST_SYSMODS: usize = 65_535;

/// Returns the first fault for which RECEIVE refuses the SYSMOD, if it has one. The caller ensures that the received
/// SYSMODs have no loop and that their roles fit. A SYSMOD without a fault preserves both.
pub(crate) fn check_receivable(
    alloc: Global,
    received: &Received,
    sysmod: &Sysmod,
) -> Result<(), Refused>
    requires no_loop { ¬ HasLoop (zone_of received.now) }
    requires roles { RolesFit (zone_of received.now) }
    ensures ok { OnOk result (HasNoFault (zone_of received.now) sysmod.now) }
    ensures refused { IfErr result (IsRefused (zone_of received.now) sysmod.now) }
{
    if received.contains(sysmod.id) {
        return Err(Refused::AlreadyReceived);
    }
    if makes_loop(alloc, received, sysmod)? {
        return Err(Refused::MakesLoop);
    }
    if !roles_fit(received, sysmod) {
        return Err(Refused::WrongRole);
    }
    if received.len() >= MOST_SYSMODS {
        return Err(Refused::NoRoom);
    }
    Ok(())
}

/// Inserts a new SYSMOD, and puts the holds that came inside it among the other holds. After an error nothing has
/// changed. The SYSMOD comes first, because removing it again needs no memory.
pub(crate) fn insert_with_holds(
    alloc: Global,
    sysmods: &mut Received,
    holds: &mut Holds,
    mut sysmod: Sysmod,
) -> Result<(), AllocError>
    requires { found sysmods.old sysmod.id ≡ None }
    ensures sysmods { OnOk result
        (sysmods.new ≡ with_item (slice_cmp nat_cmp) (λ r. r.id) sysmods.old (record sysmod { holds = [] })) }
    ensures holds { OnOk result (holds.new ≡ with_holds holds.old sysmod.holds) }
    ensures err { OnErr result ((sysmods.new ≡ sysmods.old) × (holds.new ≡ holds.old)) }
{
    let id = sysmod.id;
    let inside = sysmod.take_holds(alloc);
    drop(sysmods.insert(sysmod)?);
    match holds.put_all(alloc, inside) {
        Ok(()) => Ok(()),
        Err(error) => {
            drop(sysmods.remove(id));
            Err(error)
        }
    }
}
