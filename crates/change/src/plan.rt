//! The plan of an install: which SYSMODs take effect, and which entries may change.
ghost use Rattle.std.specs.Prelude.{◌↔◌, ◌++◌, Contains, IfOk, map};
ghost use Rattle.terms.specs.Types.{Id as AnId};
ghost use Rattle.change.specs.Deleting.{at_stake};
ghost use Rattle.change.specs.Plans.{IsPlan, installation_of};

use crate::effective::{Effective, find_effective};
use crate::installing::Installing;
use crate::pairs::group_pairs;
use fields::{Attest, Id, IdList, YyDdd};
use sorted::multi_map::MultiMap;
use std::alloc::{AllocError, Global};
use zones::Zone;

/// What an install does to the entries of its zone.
#[derive(Drop)]
pub(crate) struct Plan {
    /// The SYSMODs that take effect.
    pub(crate) effective: IdList,
    /// For each id, those of them that supersede it.
    pub(crate) superseders: MultiMap<Id, Id>,
    /// For each id, its bypassed requisites.
    pub(crate) bypassed: MultiMap<Id, Id>,
    /// The ids whose entries may change.
    pub(crate) touched: IdList,
    pub(crate) date: YyDdd,
}

/// Plans an install with these deletions: what takes effect, what that supersedes, and which entries may change.
pub(crate) fn make_plan(
    alloc: Global,
    installing: &Installing<'_, '_>,
    dels: &[Id],
) -> Result<Plan, AllocError>
    ensures { IfOk result (IsPlan (installation_of installing.now) dels.now) }
{
    let vers = installing.overs.vers();
    vers.global().attest();
    let Effective { ids, superseded } = find_effective(alloc, vers, installing.kept)?;
    let superseded = superseded.as_slice();
    let touched = touched_ids(alloc, ids.as_slice(), superseded, installing.zone, dels)?;
    let superseders = group_pairs(alloc, superseded)?;
    let bypassed = group_pairs(alloc, installing.bypassed)?;
    Ok(Plan {
        effective: ids,
        superseders,
        bypassed,
        touched,
        date: installing.date,
    })
}

// The ids whose entries may change: those that take effect and those that they supersede. If something is deleted, also
// the deletions and all ids with an entry. Usually nothing is deleted.
fn touched_ids(
    alloc: Global,
    effective: &[Id],
    superseded: &[(Id, Id)],
    zone: &Zone,
    dels: &[Id],
) -> Result<IdList, AllocError>
    ensures { IfOk result (λ ids. (x : AnId) → Contains ids x
        ↔ Contains ((map (λ p. p.0) superseded.now ++ effective.now) ++ at_stake zone.now dels.now) x) }
{
    let mut ids = Vec::new(alloc);
    for pair in superseded {
        ids.push(pair.0)?;
    }
    ids.extend_from_slice(effective)?;
    if dels.is_empty() {
        return Ok(IdList::from_vec(ids));
    }
    ids.extend_from_slice(dels)?;
    for entry in zone.entries() {
        ids.push(entry.id)?;
    }
    Ok(IdList::from_vec(ids))
}
