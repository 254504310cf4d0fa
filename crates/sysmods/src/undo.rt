//! Putting holds in a way that can be undone.
ghost use Rattle.std.specs.Prelude.{◌≡◌, List, [], OnOk};
ghost use Rattle.terms.specs.Types as terms;
ghost use Rattle.sysmods.specs.Lists.{with_holds};
ghost use Rattle.sysmods.specs.Undone.{UndoesAll};

use crate::holds::Holds;
use crate::key::HoldKey;
use std::alloc::AllocError;
use sysmods_values::Hold;

/// What undoes the putting of a hold: to remove the new one, or to restore the one that it replaced.
#[derive(Drop)]
pub(crate) enum Undo {
    Remove(HoldKey),
    Restore(Hold),
}

/// Puts one hold after another, and records in the log what undoes each.
pub(crate) fn put_each(
    to: &mut Holds,
    holds: Vec<Hold>,
    log: &mut Vec<Undo>,
) -> Result<(), AllocError>
    requires { log.old.items ≡ [] }
    ensures ok { OnOk result (to.new ≡ with_holds to.old holds.items) }
    ensures undo { UndoesAll to.old to.new log.new.items }
{
    for hold in holds {
        log.reserve(1)?;
        let undo = to.put_with_undo(hold)?;
        log.push_reserved(undo);
    }
    Ok(())
}

/// Undoes changes, the last one first.
pub(crate) fn take_back_all(from: &mut Holds, mut log: Vec<Undo>)
    ensures { (old : List terms.Hold) → UndoesAll old from.old log.items → from.new ≡ old }
{
    while let Some(undo) = log.pop() {
        from.take_back(undo);
    }
}
