//! The SYSMODs and holds of a global zone, from lists.
ghost use Rattle.std.specs.Prelude.{◌≡◌, ◌↔◌, ◌++◌, [], ◌∷◌, All, IsTrue, IsSome, IfOk, IfSome, false, is_some};
ghost use Rattle.std.specs.Ordering.{is_lt, nat_cmp};
ghost use Rattle.std.specs.Cmp.Lexicographic.{slice_cmp};
ghost use Rattle.terms.specs.Global.{IsGlobal};
ghost use Rattle.sysmods.specs.Held.{zone_of};
ghost use Rattle.sysmods.specs.Refused.{fault_of};
ghost use Rattle.terms.specs.declared.kinds.HoldKind.TheVariants.{System};
ghost use Rattle.terms.specs.Lookups.{is_received};
ghost use Rattle.terms.proofs.GlobalKept.{IsOwned};

use crate::receive::check_receivable;
use crate::received::Received;
use crate::refused::Refused;
use fields::Attest;
use sorted::are_rising;
use std::alloc::{AllocError, Global};
use sysmods_values::{Hold, Sysmod};
use terms::HoldKind;

/// These SYSMODs as received ones, or `None` if no global zone has just these. They have to rise by id and carry no
/// holds, make no loop, have the roles in which they name each other, and be at most 65,535.
pub(crate) fn build_received(
    alloc: Global,
    sysmods: Vec<Sysmod>,
) -> Result<Option<Received>, AllocError>
    ensures some { IfOk result (λ made. IfSome made (λ received. received ≡ sysmods.items)) }
    ensures none { IfOk result (λ made. IsSome made ↔ IsGlobal (zone_of sysmods.items)) }
{
    if !are_rising(sysmods.as_slice()) {
        return Ok(None);
    }
    let mut received = Received::new(alloc);
    for sysmod in sysmods {
        if !try_insert_last(alloc, &mut received, sysmod)? {
            return Ok(None);
        }
    }
    Ok(Some(received))
}

// Inserts a SYSMOD whose id is after all others, and returns `true`. If no global zone may have them all, the call
// inserts nothing and returns `false`.
fn try_insert_last(
    alloc: Global,
    received: &mut Received,
    sysmod: Sysmod,
) -> Result<bool, AllocError>
    requires global { IsGlobal (zone_of received.old) }
    requires last { All (λ s. IsTrue (is_lt (slice_cmp nat_cmp s.id sysmod.id))) received.old }
    ensures fits { IfOk result (λ fits. IsTrue fits ↔ IsGlobal (zone_of (received.old ++ sysmod ∷ []))) }
    ensures ok { IfOk result (λ fits. IsTrue fits → received.new ≡ received.old ++ sysmod ∷ []) }
{
    if !has_no_holds(&sysmod) {
        return Ok(false);
    }
    match check_receivable(alloc, received, &sysmod) {
        Ok(()) => {}
        Err(why) => return refusal_as_false(why),
    }
    sysmod.attest();
    drop(received.insert(sysmod)?);
    Ok(true)
}

// What `try_insert_last` returns for a refusal: `false` for a fault of the SYSMOD, and an error if memory ran out.
fn refusal_as_false(why: Refused) -> Result<bool, AllocError>
    ensures { IfOk result (λ fits. (fits ≡ false) × IsTrue (is_some (fault_of why))) }
{
    match why {
        Refused::Memory => Err(AllocError),
        Refused::AlreadyReceived => Ok(false),
        Refused::MakesLoop => Ok(false),
        Refused::WrongRole => Ok(false),
        Refused::NoRoom => Ok(false),
    }
}

// Whether no hold came inside the SYSMOD.
fn has_no_holds(sysmod: &Sysmod) -> bool
    ensures { IsTrue result ↔ (sysmod.now.holds ≡ []) }
{
    sysmod.holds.is_empty()
}

/// Whether each internal hold is a SYSTEM hold on a received SYSMOD.
pub(crate) fn have_owners_if_internal(received: &Received, holds: &[Hold]) -> bool
    ensures { IsTrue result ↔ All (IsOwned (zone_of received.now)) holds.now }
{
    holds
        .iter()
        .all(|hold| has_owner_if_internal(received, hold))
}

// Whether the hold is not internal, or is a SYSTEM hold on a received SYSMOD.
fn has_owner_if_internal(received: &Received, hold: &Hold) -> bool
    ensures { IsTrue result ↔ IsOwned (zone_of received.now) hold.now }
{
    !hold.internal || is_system_hold_on_received(received, hold)
}

// Whether the hold is a SYSTEM hold on a received SYSMOD.
fn is_system_hold_on_received(received: &Received, hold: &Hold) -> bool
    ensures { IsTrue result ↔ (hold.now.kind ≡ System) × IsTrue (is_received (zone_of received.now) hold.now.id) }
{
    hold.kind == HoldKind::System && received.contains(hold.id)
}
