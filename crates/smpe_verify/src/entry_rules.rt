//! The rules for SYSMOD entries.
ghost use Rattle.std.specs.Prelude.{◌≡◌, None, IfOk, is_some, if◌then◌else◌};
ghost use Rattle.terms.specs.Lookups.{at_most_one, is_function};
ghost use Rattle.terms.specs.Choice.{npre_of};
ghost use Rattle.terms.specs.Over.{chain};
ghost use Rattle.sysmods.specs.Choices.{choice};
ghost use Rattle.smpe_verify.specs.FirstBreach.{not_applied, not_supplied, applied_in, deleted_in};
ghost use Rattle.smpe_verify.specs.FirstBreach.{support_fault, npre_or_chain_fault, applied_fault, entry_fault};

use crate::breach::EntryFault;
use fields::Id;
use std::alloc::{AllocError, Global};
use sysmods::VerChoice;
use zones::{Entry, Zone, binding_requisites};

/// The fault of the first rule that the entry breaks, or `None`. The rules for an applied SYSMOD come first, if the
/// entry's SYSMOD is applied, and then the one for its SUPBY. Returns an error if memory runs out, as do the calls
/// below.
pub(crate) fn entry_fault(
    alloc: Global,
    vers: &VerChoice<'_>,
    zone: &Zone,
    entry: &Entry,
) -> Result<Option<EntryFault>, AllocError>
    ensures { IfOk result
        (λ fault. fault ≡ entry_fault vers.now.global.now (choice vers.now) zone.now entry.now) }
{
    if let Some(fault) = fault_if_applied(alloc, vers, zone, entry)? {
        return Ok(Some(fault));
    }
    Ok(first_not_applied(zone, entry.supby.as_slice()).map(|id| EntryFault::SupbyNotApplied(id)))
}

// The fault of the first rule for an applied SYSMOD that the entry breaks; `None` also if its SYSMOD is not applied.
fn fault_if_applied(
    alloc: Global,
    vers: &VerChoice<'_>,
    zone: &Zone,
    entry: &Entry,
) -> Result<Option<EntryFault>, AllocError>
    ensures { IfOk result (λ fault. fault ≡ (if is_some entry.now.applied
        then applied_fault vers.now.global.now (choice vers.now) zone.now entry.now.id else None)) }
{
    if entry.applied.is_none() {
        return Ok(None);
    }
    applied_fault(alloc, vers, zone, entry.id)
}

// The fault of the first rule that the applied SYSMOD breaks, or `None`. The rules about what it needs come first, and
// then those about what must not be: an id in its NPRE that is applied, and a deleted id in its chain.
fn applied_fault(
    alloc: Global,
    vers: &VerChoice<'_>,
    zone: &Zone,
    id: Id,
) -> Result<Option<EntryFault>, AllocError>
    ensures { IfOk result (λ fault. fault ≡ applied_fault vers.now.global.now (choice vers.now) zone.now id) }
{
    if let Some(fault) = support_fault(alloc, vers, zone, id)? {
        return Ok(Some(fault));
    }
    Ok(npre_or_chain_fault(vers, zone, id))
}

// The fault of the first thing that the applied SYSMOD needs and that is missing: its `++VER`, its FMID or a requisite.
// `None` if nothing is missing.
fn support_fault(
    alloc: Global,
    vers: &VerChoice<'_>,
    zone: &Zone,
    id: Id,
) -> Result<Option<EntryFault>, AllocError>
    ensures { IfOk result (λ fault. fault ≡ support_fault (choice vers.now) zone.now id) }
{
    let Some(ver) = vers.ver(id) else {
        return Ok(Some(EntryFault::VerNotReceived));
    };
    if let Some(fmid) = fmid_not_applied(zone, ver.fmid) {
        return Ok(Some(EntryFault::FmidNotApplied(fmid)));
    }
    let requisites = binding_requisites(alloc, vers, zone, id)?;
    let missing = first_not_supplied(zone, requisites.as_slice());
    Ok(missing.map(|id| EntryFault::RequisiteNotSupplied(id)))
}

// The fault of the applied SYSMOD if it is a function and an id in its NPRE is applied, or else if its chain contains a
// deleted id; otherwise `None`.
fn npre_or_chain_fault(vers: &VerChoice<'_>, zone: &Zone, id: Id) -> Option<EntryFault>
    ensures { result ≡ npre_or_chain_fault vers.now.global.now (choice vers.now) zone.now id }
{
    if let Some(npre) = applied_npre(vers, zone, id) {
        return Some(EntryFault::NpreApplied(npre));
    }
    let deleted = deleted_in_chain(vers, zone, id)?;
    Some(EntryFault::DeletedInChain(deleted))
}

// The first id in the chain of the SYSMOD that was deleted from the zone, or `None`.
fn deleted_in_chain(vers: &VerChoice<'_>, zone: &Zone, id: Id) -> Option<Id>
    ensures { result ≡ deleted_in zone.now (chain vers.now.global.now (choice vers.now) id) }
{
    vers.chain(id).find(|fmid| zone.is_deleted(*fmid))
}

// The first id in the NPRE of the SYSMOD that is applied; `None` if there is none, or the SYSMOD is no function.
fn applied_npre(vers: &VerChoice<'_>, zone: &Zone, id: Id) -> Option<Id>
    ensures { result ≡ (if is_function vers.now.global.now id
        then applied_in zone.now (npre_of (choice vers.now) id) else None) }
{
    if !vers.global().is_function(id) {
        return None;
    }
    first_applied(zone, vers.ver(id)?.npre.as_slice())
}

// The FMID if there is one and it is not applied, or `None`.
fn fmid_not_applied(zone: &Zone, fmid: Option<Id>) -> Option<Id>
    ensures { result ≡ not_applied zone.now (at_most_one fmid) }
{
    let fmid = fmid?;
    if zone.is_applied(fmid) {
        None
    } else {
        Some(fmid)
    }
}

// The first of these ids that is applied, or `None`.
fn first_applied(zone: &Zone, ids: &[Id]) -> Option<Id>
    ensures { result ≡ applied_in zone.now ids.now }
{
    ids.iter().copied().find(|id| zone.is_applied(*id))
}

/// The first of these ids that is not applied, or `None`.
pub(crate) fn first_not_applied(zone: &Zone, ids: &[Id]) -> Option<Id>
    ensures { result ≡ not_applied zone.now ids.now }
{
    ids.iter().copied().find(|id| !zone.is_applied(*id))
}

// The first of these ids that is neither applied nor superseded, or `None`.
fn first_not_supplied(zone: &Zone, ids: &[Id]) -> Option<Id>
    ensures { result ≡ not_supplied zone.now ids.now }
{
    ids.iter().copied().find(|id| !zone.supplies(*id))
}
