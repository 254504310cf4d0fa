//! What SYSMODs name in DELETE.
ghost use Rattle.std.specs.Prelude.{◌≡◌, ◌++◌, [], ◌∷◌, IfOk, OnOk, filter};
ghost use Rattle.terms.specs.Lookups.{is_in};
ghost use Rattle.terms.specs.Over.{chain};
ghost use Rattle.terms.specs.Deleted.{deletions};
ghost use Rattle.sysmods.specs.Choices.{choice};

use fields::{Id, IdList};
use std::alloc::{AllocError, Global};
use sysmods::VerChoice;

/// What these SYSMODs name in DELETE, in their order.
pub fn deletions(alloc: Global, vers: &VerChoice<'_>, ids: &[Id]) -> Result<Vec<Id>, AllocError>
    ensures { IfOk result (λ dels. dels.items ≡ deletions (choice vers.now) ids.now) }
{
    ids.iter()
        .flat_map(|id| vers.del(*id).iter())
        .copied()
        .collect(alloc)
}

// What the candidates in the chain of this SYSMOD name in DELETE.
pub(crate) fn chain_deletions(
    alloc: Global,
    vers: &VerChoice<'_>,
    candidates: &IdList,
    id: Id,
) -> Result<Vec<Id>, AllocError>
    ensures { IfOk result (λ dels. dels.items ≡ deletions (choice vers.now)
        (filter (is_in candidates.now) (chain vers.now.global.now (choice vers.now) id))) }
{
    let mut dels = Vec::new(alloc);
    for above in vers.chain(id) {
        append_candidate_deletions(vers, candidates, above, &mut dels)?;
    }
    Ok(dels)
}

// Adds what the SYSMOD names in DELETE, if it is a candidate.
fn append_candidate_deletions(
    vers: &VerChoice<'_>,
    candidates: &IdList,
    id: Id,
    dels: &mut Vec<Id>,
) -> Result<(), AllocError>
    ensures { OnOk result (dels.new.items
        ≡ dels.old.items ++ deletions (choice vers.now) (filter (is_in candidates.now) (id ∷ []))) }
{
    if candidates.contains(id) {
        dels.extend_from_slice(vers.del(id))?;
    }
    Ok(())
}
