//! The candidates.
ghost use Rattle.std.specs.Prelude.{◌≡◌, ◌↔◌, filter, map, All, Contains, IsTrue, IfOk, Some};
ghost use Rattle.terms.specs.declared.not_chosen.NotChosen.{NotChosen as Reason};
ghost use Rattle.terms.specs.Types.{Id as AnId};
ghost use Rattle.terms.specs.Lookups.{IsRising};
ghost use Rattle.terms.specs.Candidates.{AreCandidates, is_installable, not_chosen};
ghost use Rattle.select.specs.Scopes.{is_installable_in, is_open_in};

use crate::growing::asked_ids;
use crate::left_out::left_out_with_reasons;
use crate::scope::Selecting;
use crate::start::start_ids;
use fields::{Id, IdList, Selection};
use std::alloc::{AllocError, Global};
use sysmods::GlobalZone;
use zones::{Candidates, Zone};

// The ids among these that may be installed and are not excluded.
fn open_among(alloc: Global, scope: &Selecting, ids: &[Id]) -> Result<Vec<Id>, AllocError>
    ensures { IfOk result (λ found. found.items ≡ filter (is_open_in scope.now) ids.now) }
{
    ids.iter()
        .filter(|id| scope.is_open(**id))
        .copied()
        .collect(alloc)
}

// The ids of the candidates: the start, and the open ids that it asks for, directly or through others.
fn candidate_ids(alloc: Global, scope: &Selecting) -> Result<IdList, AllocError>
    ensures members { IfOk result
        (λ ids. AreCandidates scope.now.global scope.now.zone scope.now.selection ids) }
    ensures installable { IfOk result (λ ids. All (λ x. IsTrue (is_installable_in scope.now x)) ids) }
{
    let mut ids = start_ids(alloc, scope)?;
    let asked = asked_ids(alloc, scope, ids.as_slice())?;
    let brought_in = open_among(alloc, scope, asked.as_slice())?;
    ids.extend_from_slice(brought_in.as_slice())?;
    Ok(IdList::from_vec(ids))
}

/// The candidates, and the ids of SELECT and GROUP that are neither excluded nor open, each with the reason.
pub fn candidates(
    alloc: Global,
    global: &GlobalZone,
    zone: &Zone,
    selection: &Selection,
) -> Result<Candidates, AllocError>
    ensures members { IfOk result (λ c. AreCandidates global.now zone.now selection.now c.ids) }
    ensures installable { IfOk result (λ c. All (λ x. IsTrue (is_installable global.now zone.now x)) c.ids) }
    ensures rising { IfOk result (λ c. IsRising (map (λ f. f.0) c.left_out.items)) }
    ensures left_out { IfOk result (λ c. (x : AnId) (why : Reason)
        → Contains {X = AnId × Reason} c.left_out.items (x, why)
        ↔ (not_chosen global.now zone.now selection.now x ≡ Some why)) }
{
    let scope = Selecting {
        global,
        zone,
        selection,
    };
    Ok(Candidates {
        ids: candidate_ids(alloc, &scope)?,
        left_out: left_out_with_reasons(alloc, &scope)?,
    })
}
