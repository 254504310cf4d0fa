//! The received SYSMODs that serve a need for an id, or resolve the reason of a hold: the one of this id, and those
//! that supersede it.
ghost use Rattle.std.specs.Prelude.{◌≡◌, ◌↔◌, ◌⊎◌, filter, Contains, IfOk, IsTrue};
ghost use Rattle.terms.specs.Types.{Id as AnId};
ghost use Rattle.terms.specs.Lookups.{is_in};
ghost use Rattle.terms.specs.Choice.{sup_of};
ghost use Rattle.terms.specs.Needs.{Serves};
ghost use Rattle.terms.specs.Over.{Supersedes};
ghost use Rattle.sysmods.specs.Choices.{has_ver, choice};
ghost use Rattle.report.specs.Superseders.{direct_superseders};

use fields::{Id, IdList, Srel};
use indexmap::IndexSet;
use std::alloc::{AllocError, Global};
use sysmods::VerChoice;
use terms::NeedKind;

// Those of `namers` that name the id in SUP.
fn superseders_among(
    alloc: Global,
    vers: &VerChoice<'_>,
    id: Id,
    namers: &[Id],
) -> Result<Vec<Id>, AllocError>
    ensures { IfOk result (λ ids. ids.items ≡ filter (λ y. is_in (sup_of (choice vers.now) y) id) namers.now) }
{
    namers
        .iter()
        .filter(|by| vers.sup(**by).contains(&id))
        .copied()
        .collect(alloc)
}

// The received SYSMODs that name the id in SUP. The search goes only through those that name it in some operand.
fn direct_superseders(
    alloc: Global,
    vers: &VerChoice<'_>,
    srel: Srel,
    id: Id,
) -> Result<Vec<Id>, AllocError>
    requires { vers.now.srel ≡ srel }
    ensures { IfOk result (λ ids. ids.items ≡ direct_superseders vers.now id) }
{
    let mut namers = Vec::new(alloc);
    vers.global().append_namers(srel, id, &mut namers)?;
    superseders_among(alloc, vers, id, namers.as_slice())
}

// The id, and all received SYSMODs that supersede it. The search begins a set with the id, and adds to it the direct
// superseders of each member.
fn id_and_superseders(
    alloc: Global,
    vers: &VerChoice<'_>,
    srel: Srel,
    id: Id,
) -> Result<Vec<Id>, AllocError>
    requires { vers.now.srel ≡ srel }
    ensures { IfOk result (λ ids. (y : AnId) → Contains ids.items y
        ↔ ((y ≡ id) ⊎ Supersedes (choice vers.now) y id)) }
{
    let mut seen = IndexSet::new(alloc);
    seen.insert(id)?;
    let mut searched = 0;
    while searched < seen.len() {
        let superseders = direct_superseders(alloc, vers, srel, seen.as_slice()[searched])?;
        for by in superseders.as_slice() {
            seen.insert(*by)?;
        }
        searched += 1;
    }
    Vec::from_slice(alloc, seen.as_slice())
}

/// The ids that serve a need for the id: the id itself, received or not, and its superseders if this kind of need takes
/// one.
pub fn serving_ids(
    alloc: Global,
    vers: &VerChoice<'_>,
    srel: Srel,
    kind: NeedKind,
    id: Id,
) -> Result<Vec<Id>, AllocError>
    requires { vers.now.srel ≡ srel }
    ensures { IfOk result (λ ids. (y : AnId) → Contains ids.items y ↔ Serves (choice vers.now) kind y id) }
{
    if kind.takes_superseder() {
        return id_and_superseders(alloc, vers, srel, id);
    }
    Ok(vec![in alloc; id]?)
}

/// The received SYSMODs with a `++VER` for the SREL that are the reason or supersede it.
pub(crate) fn resolvers(
    alloc: Global,
    vers: &VerChoice<'_>,
    srel: Srel,
    reason: Id,
) -> Result<IdList, AllocError>
    requires { vers.now.srel ≡ srel }
    ensures { IfOk result (λ ids. (y : AnId) → Contains ids y
        ↔ (IsTrue (has_ver vers.now.global.now vers.now.srel y)
        × ((y ≡ reason) ⊎ Supersedes (choice vers.now) y reason))) }
{
    let mut ids = id_and_superseders(alloc, vers, srel, reason)?;
    ids.retain(|id| vers.has_ver(*id));
    Ok(IdList::from_vec(ids))
}
