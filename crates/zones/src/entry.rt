//! An entry after some SYSMODs are gone.
ghost use Rattle.std.specs.Prelude.{◌≡◌, ◌++◌, [], ◌∷◌, not, IfOk, OnOk, filter};
ghost use Rattle.terms.specs.Types.{Id as AnId};
ghost use Rattle.terms.specs.Lookups.{is_in};
ghost use Rattle.terms.specs.Deleted.{entry_less};

use fields::{Id, IdList};
use sorted::TryClone;
use std::alloc::{AllocError, Global};
use zones_maps::Entry;

/// Something that takes SYSMODs out of a zone.
pub trait TakesOut {
    ghost use Rattle.std.specs.Prelude.{Bool};
    ghost use Rattle.terms.specs.Types.{Id as AnId};

    ghost is_gone: { Self → AnId → Bool };

    /// Whether it takes the SYSMOD of this id out.
    fn takes_out(&self, id: Id) -> bool
        ensures { result ≡ is_gone self.now id };
}

impl TakesOut for IdList {
    ghost use Rattle.terms.specs.Lookups.{is_in};

    ghost is_gone = { is_in };

    fn takes_out(&self, id: Id) -> bool {
        self.contains(id)
    }
}

// Adds the id if it is not taken out.
fn push_if_stays<T: TakesOut>(taking: &T, id: Id, left: &mut Vec<Id>) -> Result<(), AllocError>
    ensures { OnOk result (left.new.items ≡ left.old.items ++ filter (λ y. not (T.is_gone taking.now y)) (id ∷ [])) }
{
    if !taking.takes_out(id) {
        left.push(id)?;
    }
    Ok(())
}

// The ids that are not taken out.
fn remaining_ids<T: TakesOut>(alloc: Global, taking: &T, ids: &[Id]) -> Result<Vec<Id>, AllocError>
    ensures { IfOk result (λ left. left.items ≡ filter (λ y. not (T.is_gone taking.now y)) ids.now) }
{
    let mut left = Vec::new(alloc);
    for id in ids {
        push_if_stays(taking, *id, &mut left)?;
    }
    Ok(left)
}

// The ids that are not taken out, as a list that rises.
fn remaining_list<T: TakesOut>(
    alloc: Global,
    taking: &T,
    ids: &IdList,
) -> Result<IdList, AllocError>
    ensures { IfOk result (λ left. left ≡ filter (λ y. not (T.is_gone taking.now y)) ids.now) }
{
    Ok(IdList::from_vec(remaining_ids(alloc, taking, ids.as_slice())?))
}

/// The entry after the SYSMODs are taken out: they leave SUPBY, and if it is the entry of one of them, it is no longer
/// applied and waives nothing.
pub fn entry_less<T: TakesOut>(
    alloc: Global,
    taking: &T,
    entry: &Entry,
) -> Result<Entry, AllocError>
    ensures { IfOk result (λ less. less ≡ entry_less (T.is_gone taking.now) entry.now) }
{
    let supby = remaining_list(alloc, taking, &entry.supby)?;
    if taking.takes_out(entry.id) {
        Ok(Entry {
            id: entry.id,
            applied: None,
            supby,
            delby: entry.delby,
            waived: IdList::new(alloc),
        })
    } else {
        Ok(Entry {
            id: entry.id,
            applied: entry.applied,
            supby,
            delby: entry.delby,
            waived: entry.waived.try_clone(alloc)?,
        })
    }
}
