//! The commit of a change, as a step between states.
ghost use Rattle.std.specs.Prelude.{◌≡◌, IfOk};
ghost use Rattle.machine.specs.State.{State};
ghost use Rattle.store_schema.specs.Inventory.{IsInventory};
ghost use Rattle.store.specs.Changes.{Makes};
ghost use Rattle.store.specs.Kept.{kept};
ghost use Rattle.store.specs.CallEnds.{EndsCommit};
ghost use Rattle.smpe_session.specs.Uses.{UsesStore};

use sqlite::Alter;
use store::{Change, Store, StoreError};

/// Commits the change, and returns this answer to it. The answer passes through the call because the clause `uses` says
/// which state the tables stand for once it is given. Returns `Memory` if memory runs out, and `Fault` if the disk
/// fails or the database refuses a row.
pub(crate) fn commit_change<S: Alter, T: Drop>(
    store: &mut Store<S>,
    change: &Change<'_>,
    answer: T,
) -> Result<T, StoreError>
    ensures answer { IfOk result (λ given. given ≡ answer) }
    ensures uses { UsesStore S.Store store.old store.new (λ own. own ≡ change.now)
        (λ s ended. (t : State) → Makes change.now (kept s) (kept t) → IsInventory (kept t)
        → EndsCommit S.Store store.old store.new s t change.now answer ended) result }
{
    store.commit(change)?;
    Ok(answer)
}
