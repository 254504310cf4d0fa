//! Whether roles fit with one more SYSMOD: with the functions that it names, and with the SYSMODs that name it.
ghost use Rattle.std.specs.Prelude.{◌≡◌, ◌↔◌, All, IsTrue, None, map, not, if◌then◌else◌};
ghost use Rattle.std.specs.List.{list_any};
ghost use Rattle.terms.specs.Types.{is_function_kind};
ghost use Rattle.terms.specs.Lookups.{at_most_one, is_function, is_in};
ghost use Rattle.terms.specs.Global.{RolesFit, fits_roles, is_service, named_functions, with_sysmod};
ghost use Rattle.sysmods.specs.Held.{found, zone_of};

use crate::received::Received;
use fields::Id;
use sysmods_values::{IfReq, Sysmod, Ver};
use terms::Kind;

// Whether the SYSMOD is a function.
fn has_function_kind(sysmod: &Sysmod) -> bool
    ensures { result ≡ is_function_kind sysmod.now.kind }
{
    sysmod.kind == Kind::Function
}

// Whether the id is a function, among the received SYSMODs and the new one.
fn is_function(received: &Received, sysmod: &Sysmod, id: Id) -> bool
    ensures { result ≡ is_function (with_sysmod (zone_of received.now) sysmod.now) id }
{
    if id == sysmod.id {
        return has_function_kind(sysmod);
    }
    match received.get(id) {
        Some(other) => has_function_kind(other),
        None => false,
    }
}

// Whether the id is service and not a function, among the received SYSMODs and the new one.
fn is_service(received: &Received, sysmod: &Sysmod, id: Id) -> bool
    ensures { result ≡ is_service (with_sysmod (zone_of received.now) sysmod.now) id }
{
    if id == sysmod.id {
        return !has_function_kind(sysmod);
    }
    match received.get(id) {
        Some(other) => !has_function_kind(other),
        None => false,
    }
}

// Whether one of these ids is a function, among the received SYSMODs and the new one.
fn any_is_function(received: &Received, sysmod: &Sysmod, ids: &[Id]) -> bool
    ensures { result ≡ list_any (is_function (with_sysmod (zone_of received.now) sysmod.now)) ids.now }
{
    ids.iter().any(|id| is_function(received, sysmod, *id))
}

// Whether one of these ids is service, among the received SYSMODs and the new one.
fn any_is_service(received: &Received, sysmod: &Sysmod, ids: &[Id]) -> bool
    ensures { result ≡ list_any (is_service (with_sysmod (zone_of received.now) sysmod.now)) ids.now }
{
    ids.iter().any(|id| is_service(received, sysmod, *id))
}

// Whether the FMID is service, among the received SYSMODs and the new one.
fn fmid_is_service(received: &Received, sysmod: &Sysmod, fmid: Option<Id>) -> bool
    ensures { result ≡ list_any (is_service (with_sysmod (zone_of received.now) sysmod.now)) (at_most_one fmid) }
{
    match fmid {
        Some(id) => is_service(received, sysmod, id),
        None => false,
    }
}

// Whether the function that one of these `++IF`s asks for is service.
fn any_if_names_service(received: &Received, sysmod: &Sysmod, conditions: &[IfReq]) -> bool
    ensures { result ≡ list_any (is_service (with_sysmod (zone_of received.now) sysmod.now))
        (map (λ i. i.function) conditions.now) }
{
    conditions
        .iter()
        .map(|condition| condition.function)
        .any(|id| is_service(received, sysmod, id))
}

// Whether the `++VER` names service as a function: in DELETE, in FMID or in an `++IF`.
#[tactic(auto, using(crate::proofs::Joined::services_in_parts))]
fn names_service(received: &Received, sysmod: &Sysmod, ver: &Ver) -> bool
    ensures { result ≡ list_any (is_service (with_sysmod (zone_of received.now) sysmod.now)) (named_functions ver.now) }
{
    any_is_service(received, sysmod, ver.del.as_slice())
        || fmid_is_service(received, sysmod, ver.fmid)
        || any_if_names_service(received, sysmod, ver.ifs.as_slice())
}

// Whether the `++VER` names no function in SUP, and no service as a function.
fn ver_fits(received: &Received, sysmod: &Sysmod, ver: &Ver) -> bool
    ensures { result ≡ fits_roles (with_sysmod (zone_of received.now) sysmod.now) ver.now }
{
    !any_is_function(received, sysmod, ver.sup.as_slice()) && !names_service(received, sysmod, ver)
}

// Whether each id that the new SYSMOD names has the role in which one of its `++VER`s names it.
fn own_roles_fit(received: &Received, sysmod: &Sysmod) -> bool
    ensures { IsTrue result ↔ All (λ v. IsTrue (fits_roles (with_sysmod (zone_of received.now) sysmod.now) v))
        sysmod.now.vers }
{
    sysmod
        .vers
        .iter()
        .all(|ver| ver_fits(received, sysmod, ver))
}

// Whether each received SYSMOD that names the new one names it in the role that it has.
fn namers_roles_fit(received: &Received, sysmod: &Sysmod) -> bool
    ensures { result ≡ (if is_function_kind sysmod.now.kind
        then not (list_any (λ s. list_any (λ v. is_in v.sup sysmod.now.id) s.vers) received.now)
        else not (list_any (λ s. list_any (λ v. is_in (named_functions v) sysmod.now.id) s.vers) received.now)) }
{
    if has_function_kind(sysmod) {
        !received.is_superseded(sysmod.id)
    } else {
        !received.is_named_as_function(sysmod.id)
    }
}

/// Whether all roles fit once the new SYSMOD is received, if those of the received ones fit without it.
pub(crate) fn roles_fit(received: &Received, sysmod: &Sysmod) -> bool
    requires new { found received.now sysmod.now.id ≡ None }
    requires fit { RolesFit (zone_of received.now) }
    ensures { IsTrue result ↔ RolesFit (with_sysmod (zone_of received.now) sysmod.now) }
{
    own_roles_fit(received, sysmod) && namers_roles_fit(received, sysmod)
}
