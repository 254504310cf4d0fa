//! Which kept SYSMODs take effect, and what these supersede. One search that starts at all kept ones finds every id
//! that some kept one supersedes. Then one search starts at each SYSMOD that takes effect. So the time for a chain of
//! SUP grows only with its length, whatever the order of its ids.
ghost use Rattle.std.specs.Prelude.{◌≡◌, ◌↔◌, not, filter, Contains, IfOk, OnOk};
ghost use Rattle.terms.specs.Types.{Id as AnId};
ghost use Rattle.terms.specs.Choice.{sup_of};
ghost use Rattle.terms.specs.Lookups.{is_in};
ghost use Rattle.sysmods.specs.Choices.{choice};
ghost use Rattle.sysmods.specs.Seen.{AddsAll};
ghost use Rattle.change.specs.Superseded.{ArePaired, IsSuperseded, IsUnsuperseded};

use fields::{Id, IdList};
use indexmap::IndexSet;
use std::alloc::{AllocError, Global};
use sysmods::VerChoice;

/// The kept SYSMODs that no kept one supersedes, and each id that one of these supersedes, with that one. Each other
/// kept one becomes SUPERSEDED.
#[derive(Drop)]
pub(crate) struct Effective {
    pub(crate) ids: IdList,
    pub(crate) superseded: Vec<(Id, Id)>,
}

/// Finds which of the kept SYSMODs take effect, and what these supersede.
pub(crate) fn find_effective(
    alloc: Global,
    vers: &VerChoice<'_>,
    kept: &IdList,
) -> Result<Effective, AllocError>
    ensures ids { IfOk result (λ e. (x : AnId) → Contains e.ids x ↔ IsUnsuperseded (choice vers.now) kept.now x) }
    ensures superseded { IfOk result (λ e. ArePaired (choice vers.now) e.ids e.superseded.items) }
{
    let seen = all_superseded(alloc, vers, kept)?;
    let ids = IdList::from_vec(unseen_among(alloc, kept.as_slice(), &seen)?);
    let superseded = pairs_with_superseders(alloc, vers, ids.as_slice())?;
    Ok(Effective { ids, superseded })
}

// All ids that some kept SYSMOD supersedes: those that it names in SUP, those that these name, and so on.
fn all_superseded(
    alloc: Global,
    vers: &VerChoice<'_>,
    kept: &IdList,
) -> Result<IndexSet<Id>, AllocError>
    ensures { IfOk result (λ seen. (z : AnId) → Contains seen.keys z ↔ IsSuperseded (choice vers.now) kept.now z) }
{
    let mut seen = IndexSet::new(alloc);
    for id in kept.as_slice() {
        insert_named_in_sup(vers, *id, &mut seen)?;
    }
    let mut searched = 0;
    while searched < seen.len() {
        let id = seen.as_slice()[searched];
        // What a kept one names has been seen already.
        if !kept.contains(id) {
            insert_named_in_sup(vers, id, &mut seen)?;
        }
        searched += 1;
    }
    Ok(seen)
}

// Inserts the ids that the SYSMOD names in SUP.
fn insert_named_in_sup(
    vers: &VerChoice<'_>,
    id: Id,
    seen: &mut IndexSet<Id>,
) -> Result<(), AllocError>
    ensures { OnOk result (AddsAll seen.old.keys (sup_of (choice vers.now) id) seen.new.keys) }
{
    for other in vers.sup(id) {
        seen.insert(*other)?;
    }
    Ok(())
}

// The ids that have not been seen, in their order.
fn unseen_among(alloc: Global, ids: &[Id], seen: &IndexSet<Id>) -> Result<Vec<Id>, AllocError>
    ensures { IfOk result (λ left. left.items ≡ filter (λ x. not (is_in seen.now.keys x)) ids.now) }
{
    ids.iter()
        .filter(|id| !seen.contains(*id))
        .copied()
        .collect(alloc)
}

// Pairs of an id and one of these SYSMODs that supersedes it.
fn pairs_with_superseders(
    alloc: Global,
    vers: &VerChoice<'_>,
    ids: &[Id],
) -> Result<Vec<(Id, Id)>, AllocError>
    ensures { IfOk result (λ pairs. ArePaired (choice vers.now) ids.now pairs.items) }
{
    let mut pairs = Vec::new(alloc);
    for id in ids {
        let superseded = vers.sup_all(alloc, *id)?;
        for other in superseded.as_slice() {
            pairs.push((*other, *id))?;
        }
    }
    Ok(pairs)
}
