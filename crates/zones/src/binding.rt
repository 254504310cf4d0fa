//! The requisites that bind an applied SYSMOD.
ghost use Rattle.std.specs.Prelude.{◌≡◌, ◌++◌, [], IfOk, OnOk, if◌then◌else◌};
ghost use Rattle.terms.specs.Lookups.{is_applied, waived_of};
ghost use Rattle.terms.specs.Needs.{unwaived, binding_ids};
ghost use Rattle.sysmods.specs.Choices.{choice};
ghost use Rattle.zones.specs.Gone.{stays, by_ifs, binding_of};

use crate::zone_less::ZoneLess;
use fields::{Attest, Id};
use std::alloc::{AllocError, Global};
use sysmods::VerChoice;
use sysmods_values::{IfReq, Ver};
use zones_maps::Zone;

/// The requisites that bind a SYSMOD applied in the zone: its PRE and REQ and those by `++IF` whose function is
/// applied, less what it waives.
pub fn binding_requisites(
    alloc: Global,
    vers: &VerChoice<'_>,
    zone: &Zone,
    id: Id,
) -> Result<Vec<Id>, AllocError>
    ensures { IfOk result (λ ids. ids.items ≡ binding_ids (choice vers.now) zone.now (is_applied zone.now) id) }
{
    zone.attest();
    let whole = ZoneLess {
        vers,
        dels: &[],
        zone,
    };
    binding_ids(alloc, &whole, id)
}

/// The requisites that bind the SYSMOD in what is left of the zone: its PRE and REQ and those by `++IF` whose function
/// stays, less what it waives.
pub(crate) fn binding_ids(alloc: Global, left: &ZoneLess, id: Id) -> Result<Vec<Id>, AllocError>
    ensures { IfOk result (λ ids. ids.items ≡ binding_of left.now id) }
{
    let Some(ver) = left.vers.ver(id) else {
        return Ok(Vec::new(alloc));
    };
    let asked = all_requisites(alloc, left, ver)?;
    let mut ids = Vec::new(alloc);
    push_unwaived(left.zone, id, asked.as_slice(), &mut ids)?;
    Ok(ids)
}

// The requisites of this `++VER` and of its `++IF`s whose function stays, whether its SYSMOD waives them or not.
fn all_requisites(alloc: Global, left: &ZoneLess, ver: &Ver) -> Result<Vec<Id>, AllocError>
    ensures { IfOk result (λ asked. asked.items ≡ ver.now.pre ++ ver.now.req ++ by_ifs left.now ver.now.ifs) }
{
    let mut asked = Vec::new(alloc);
    asked.extend_from_slice(ver.pre.as_slice())?;
    asked.extend_from_slice(ver.req.as_slice())?;
    for condition in ver.ifs.as_slice() {
        push_requisites_of_if(left, condition, &mut asked)?;
    }
    Ok(asked)
}

// Adds the requisites of the `++IF` that its function does not waive, if the function stays.
fn push_requisites_of_if(
    left: &ZoneLess,
    condition: &IfReq,
    asked: &mut Vec<Id>,
) -> Result<(), AllocError>
    ensures { OnOk result (asked.new.items ≡ asked.old.items ++ (if stays left.now condition.now.function
        then unwaived left.now.zone.now condition.now.function condition.now.req else [])) }
{
    if left.is_applied(condition.function) {
        push_unwaived(
            left.zone,
            condition.function,
            condition.req.as_slice(),
            asked,
        )?;
    }
    Ok(())
}

// The requisites that the SYSMOD waives, because they were bypassed when it was installed.
fn waived_ids(zone: &Zone, id: Id) -> &[Id]
    ensures { result.now ≡ waived_of zone.now id }
{
    match zone.entry(id) {
        Some(entry) => entry.waived.as_slice(),
        None => &[],
    }
}

// Adds the ids that the SYSMOD `by` does not waive.
fn push_unwaived(zone: &Zone, by: Id, ids: &[Id], found: &mut Vec<Id>) -> Result<(), AllocError>
    ensures { OnOk result (found.new.items ≡ found.old.items ++ unwaived zone.now by ids.now) }
{
    let waived = waived_ids(zone, by);
    found.extend(ids.iter().filter(|id| !waived.contains(*id)).map(|id| *id))
}
