//! A change in one transaction.

ghost use Rattle.std.specs.Prelude.{◌≡◌, ◌⊎◌, false, OnOk, IfErr};
ghost use Rattle.sqlite.specs.declared.error.Error.TheVariants.{SqliteFailure};
ghost use Rattle.sqlite.specs.declared.error.ErrorCode.TheVariants.{OutOfMemory};
ghost use Rattle.sqlite.specs.Held.{state};
ghost use Rattle.sqlite.specs.State.{HasCleanDisk, Survives};
ghost use Rattle.store_rows.specs.Calls.{RunsInside};
ghost use Rattle.store_rows.specs.Inside.{Continues};
ghost use Rattle.store.specs.Calls.{calls_of, FailsToWrite};
ghost use Rattle.store.specs.Commits.{OnlyCommits};
ghost use Rattle.store.specs.Writes.{Writes, CommitsChange, IsChangeOutcome};

use crate::change::Change;
use crate::delta::write_delta;
use crate::global_edits::write_edits;
use sqlite::{Alter, Connection, Error, Transaction};
use std::alloc::Global;
use store_zones::insert_zone;

// Writes the rows of the change in an open transaction. Returns an error if the database refuses a row, if the disk
// fails or if memory runs out.
fn write_change<S: Alter>(
    alloc: Global,
    tx: &mut Transaction<'_, S>,
    change: &Change<'_>,
) -> Result<(), Error>
    ensures continues { Continues S.Store tx.old tx.new }
    ensures calls { RunsInside S.Store (calls_of change.now) tx.old.conn.now tx.new.conn.now result }
    ensures ok { OnOk result (Writes S.Store tx.old.conn.now change.now tx.new.conn.now) }
{
    match change {
        Change::NewZone(name, kind, srel, related) => {
            insert_zone(tx, *name, *kind, *srel, *related)
        }
        Change::Zone(name, delta) => write_delta(alloc, tx, *name, delta),
        Change::Global(stated, edits) => write_edits(alloc, tx, stated, edits.as_slice()),
    }
}

/// Makes the change in one transaction. Returns an error if the database refuses a row, if the disk fails or if memory
/// runs out; the last commit then stays.
pub(crate) fn commit_change<S: Alter>(
    alloc: Global,
    conn: &mut Connection<S>,
    change: &Change<'_>,
) -> Result<(), Error>
    requires { conn.old.in_transaction ≡ false }
    ensures made { HasCleanDisk (state S.Store conn.new) → OnOk result
        (CommitsChange S.Store conn.old change.now conn.new) }
    ensures only { OnlyCommits S.Store (calls_of change.now) conn.old conn.new result }
    ensures cause { HasCleanDisk (state S.Store conn.new) → IfErr result (λ e. (e ≡ SqliteFailure OutOfMemory)
        ⊎ FailsToWrite S.Store change.now conn.old conn.new) }
    ensures crash { Survives (state S.Store conn.old) (state S.Store conn.new)
        (IsChangeOutcome S.Store conn.old change.now) }
    ensures mode { conn.new.in_transaction ≡ false }
{
    // Outside a transaction, the connection shows what it last committed.
    prove!(conn.is_autocommit());
    let mut tx = conn.transaction();
    write_change(alloc, &mut tx, change)?;
    tx.commit()
}
