//! A store, from a connection and back.

ghost use Rattle.std.specs.Prelude.{◌≡◌, ◌⊎◌, false, IsTrue, IfOk, IfErr, OnOk, OnErr, IsErrOf};
ghost use Rattle.sqlite.specs.Tree.{Trees};
ghost use Rattle.sqlite.specs.Held.{state};
ghost use Rattle.sqlite.specs.State.{HasCleanDisk, IsUnchanged, Survives};
ghost use Rattle.store_schema.specs.Create.{IsBlank};
ghost use Rattle.store_schema.specs.Inventory.{Inventory, IsInventory};
ghost use Rattle.store_schema.specs.Known.{HasOtherNumber, HasNoState, HasOwnTables};
ghost use Rattle.store_schema.specs.Stands.{StandsFor, IsSetUp};
ghost use Rattle.store_schema.specs.Tables.{store_schema};
ghost use Rattle.store.specs.Calls.{calls_of, FailsToWrite};
ghost use Rattle.store.specs.Causes.{HasCause};
ghost use Rattle.store.specs.Changes.{Makes};
ghost use Rattle.store.specs.Commits.{OnlyCommits};
ghost use Rattle.store.specs.View.{Tables, TablesIfOpen, IsFound, MayLeave, Leaves, LeavesFound};

use crate::change::Change;
use crate::write::commit_change;
use sqlite::{Alter, Connection};
use std::alloc::Global;
use std::marker::Model;
use store_schema::{StoreError, set_up};

/// A connection to a database whose tables are the store's, outside any transaction.
pub struct Store<S: Alter> {
    pub(crate) conn: Connection<S>,
    pub(crate) alloc: Global,
}

impl<S: Alter + Drop> Drop for Store<S> {
    fn drop(self) {
        let Store { conn: _, alloc: _ } = self;
    }
}

impl<S: Alter> Model for Store<S> {
    ghost use Rattle.std.specs.Prelude.{◌≡◌, false};
    ghost use Rattle.sqlite.specs.Held.{Held, held_code};

    ghost Value = { Held S };

    ghost coded = { held_code S.code };

    ghost view = { λ s. s.conn };

    ghost invariant = { λ s. s.conn.in_transaction ≡ false };
}

impl<S: Alter> Store<S> {
    /// Creates the tables in a database that has none, and recognizes those of another schema. The error returns the
    /// connection: `OtherSchema` if `meta` gives another number than the store's, `NoState` if the tables otherwise are
    /// not the store's, `Fault` if the database fails or has tables but no `meta` with its columns, and `Memory` if
    /// memory runs out.
    pub fn open(
        alloc: Global,
        mut conn: Connection<S>,
    ) -> Result<Store<S>, (Connection<S>, StoreError)>
        requires { conn.in_transaction ≡ false }
        ensures tables { IfOk result (λ store. (i : Inventory) → IsFound S.Store conn i → Tables S.Store store i) }
        ensures leaves { IfOk result (λ store. (i : Inventory) → IsFound S.Store conn i
            → Leaves S.Store store (λ c. c ≡ i)) }
        ensures ours { IfOk result (λ store. HasCleanDisk (state S.Store store)
            → HasOwnTables (state S.Store store).now) }
        ensures same { IfOk result (λ store. HasCleanDisk (state S.Store store) → ¬ IsBlank (state S.Store conn).now
            → IsUnchanged (state S.Store conn) (state S.Store store)) }
        ensures crash { IfOk result (λ store. Survives (state S.Store conn) (state S.Store store)
            (IsSetUp (state S.Store conn).now)) }
        ensures other { IfErr result (λ e. HasCleanDisk (state S.Store e.0) → e.1 ≡ StoreError.OtherSchema
            → HasOtherNumber (state S.Store conn)) }
        ensures none { IfErr result (λ e. HasCleanDisk (state S.Store e.0) → e.1 ≡ StoreError.NoState
            → HasNoState (state S.Store conn)) }
        ensures unchanged { IfErr result (λ e. HasCleanDisk (state S.Store e.0) → IsTrue (state S.Store e.0).is_open
            → (state S.Store e.0).committed ≡ (state S.Store conn).committed) }
        ensures leaves_err { IfErr result (λ e. IsTrue (state S.Store conn).is_open → (i : Inventory)
            → IsFound S.Store conn i → LeavesFound S.Store e.0 i) }
        ensures crash_err { IfErr result (λ e. Survives (state S.Store conn) (state S.Store e.0)
            (IsSetUp (state S.Store conn).now)) }
        ensures mode { IfErr result (λ e. e.0.in_transaction ≡ false) }
    {
        // Outside a transaction, the connection shows what it last committed.
        prove!(conn.is_autocommit());
        match set_up(alloc, &mut conn) {
            Ok(()) => Ok(Store { conn, alloc }),
            Err(error) => Err((conn, error)),
        }
    }

    /// The store over a connection whose tables are known to be the store's; use `open` for all others. The caller
    /// knows what the tables stand for.
    pub fn over(alloc: Global, conn: Connection<S>) -> Store<S>
        requires { conn.in_transaction ≡ false }
        ensures { result ≡ conn }
    {
        Store { conn, alloc }
    }

    /// Makes the change in one transaction. It writes the rows that change, and loads none. Returns `Memory` if memory
    /// runs out, and `Fault` if the disk fails or the database refuses a row. The tables then stand for what they stood
    /// for before.
    pub fn commit(&mut self, change: &Change<'_>) -> Result<(), StoreError>
        ensures only { OnlyCommits S.Store (calls_of change.now) self.old self.new result }
        ensures ok { OnOk result ((i j : Inventory) → Makes change.now i j → IsInventory j → Tables S.Store self.old i
            → Tables S.Store self.new j) }
        ensures durable { OnOk result ((i j : Inventory) → Makes change.now i j → IsInventory j
            → Tables S.Store self.old i → Leaves S.Store self.new (λ c. c ≡ j)) }
        ensures err { OnErr result ((i : Inventory) → Tables S.Store self.old i → TablesIfOpen S.Store self.new i) }
        ensures crash { (i j : Inventory) → Makes change.now i j → IsInventory j → Tables S.Store self.old i
            → (db : Trees) → MayLeave S.Store self.new db → MayLeave S.Store self.old db
            ⊎ StandsFor j (record { schema = store_schema; trees = db }) }
        ensures which { IfErr result (λ e. (e ≡ StoreError.Fault) ⊎ (e ≡ StoreError.Memory)) }
        ensures cause { HasCleanDisk (state S.Store self.new) → IsErrOf result StoreError.Fault
            → FailsToWrite S.Store change.now self.old self.new }
        ensures before { HasCleanDisk (state S.Store self.new) → IsErrOf result StoreError.Fault
            → (i : Inventory) → Tables S.Store self.old i
            → HasCause S.Store self.old self.new i (λ own. own ≡ change.now) }
        ensures clean { HasCleanDisk (state S.Store self.new) → HasCleanDisk (state S.Store self.old) }
    {
        // Outside a transaction, the connection shows what it last committed.
        prove!(self.conn.is_autocommit());
        commit_change(self.alloc, &mut self.conn, change)?;
        Ok(())
    }

    /// The connection, with all that was committed.
    pub fn close(self) -> Connection<S>
        ensures same { result ≡ self }
        ensures found { (i : Inventory) → TablesIfOpen S.Store self i → IsFound S.Store result i }
        ensures mode { result.in_transaction ≡ false }
    {
        let Store { conn, alloc: _ } = self;
        conn
    }
}
