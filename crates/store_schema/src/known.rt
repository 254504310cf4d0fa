//! The tables that a database already has.

ghost use Rattle.std.specs.Prelude.{◌≡◌, false, IsTrue, OnOk, OnErr, IsErrOf};
ghost use Rattle.sqlite.specs.Held.{state};
ghost use Rattle.sqlite.specs.State.{HasCleanDisk, IsLive, IsUnchanged, Survives};
ghost use Rattle.store_schema.specs.Create.{IsBlank};
ghost use Rattle.store_schema.specs.Inventory.{Inventory};
ghost use Rattle.store_rows.specs.Inside.{HoldsOpen};
ghost use Rattle.store_schema.specs.Known.{HasOtherNumber, HasNoState, HasOwnTables};
ghost use Rattle.store_schema.specs.Looks.{LeavesAll, KeepsLast, SurvivesAs};
ghost use Rattle.store_schema.specs.Stands.{StandsFor, IsStateOf, IsSetUp};

use crate::error::StoreError;
use crate::numbers::{check_number, refuse_other_numbers};
use crate::schema::Schema;
use crate::tables::{are_tables_of, create_store, is_blank};
use sqlite::{Alter, Connection};
use std::alloc::Global;

// Checks that the tables, and then that the number in the only row of `meta`, are the store's. Returns `NoState` if one
// of them is not.
fn check_store_tables<S: Alter>(alloc: Global, conn: &mut Connection<S>) -> Result<(), StoreError>
    ensures ours { HasCleanDisk (state S.Store conn.new) → OnOk result (HasOwnTables (state S.Store conn.old).now) }
    ensures none { HasCleanDisk (state S.Store conn.new) → IsErrOf result StoreError.NoState
        → ¬ HasOwnTables (state S.Store conn.old).now }
    ensures which { IsErrOf result StoreError.OtherSchema → ⊥ }
    ensures same { LeavesAll S.Store conn.old conn.new result }
    ensures kept { KeepsLast S.Store conn.old conn.new }
    ensures crash { SurvivesAs S.Store conn.old conn.new }
    ensures mode { conn.old.in_transaction ≡ false → conn.new.in_transaction ≡ false }
{
    if !are_tables_of(alloc, conn.schema(), Schema::Third)? {
        return Err(StoreError::NoState);
    }
    check_number(conn, Schema::Third)
}

// Checks the number in any table `meta`, whatever the other tables are, so that another schema is `OtherSchema` and not
// `NoState`. Then checks that the tables and their number are the store's, which is 3; `NoState` if they are not.
fn recognize_store<S: Alter>(alloc: Global, conn: &mut Connection<S>) -> Result<(), StoreError>
    ensures ours { HasCleanDisk (state S.Store conn.new) → OnOk result (HasOwnTables (state S.Store conn.old).now) }
    ensures other { HasCleanDisk (state S.Store conn.new) → IsErrOf result StoreError.OtherSchema
        → HasOtherNumber (state S.Store conn.old) }
    ensures none { HasCleanDisk (state S.Store conn.new) → IsErrOf result StoreError.NoState
        → ¬ IsBlank (state S.Store conn.old).now → HasNoState (state S.Store conn.old) }
    ensures same { LeavesAll S.Store conn.old conn.new result }
    ensures kept { KeepsLast S.Store conn.old conn.new }
    ensures crash { SurvivesAs S.Store conn.old conn.new }
    ensures mode { conn.old.in_transaction ≡ false → conn.new.in_transaction ≡ false }
{
    refuse_other_numbers(conn, &[3])?;
    check_store_tables(alloc, conn)
}

/// Creates the tables in a database that has none, and recognizes those of another. It changes nothing if they are the
/// store's, or if it fails. Returns `OtherSchema` if `meta` gives another number than the store's, `NoState` if the
/// tables otherwise are not the store's, `Fault` if the database fails or has tables but no `meta` with its columns,
/// and `Memory` if memory runs out.
pub fn set_up<S: Alter>(alloc: Global, conn: &mut Connection<S>) -> Result<(), StoreError>
    requires { conn.old.in_transaction ≡ false }
    ensures stands { HasCleanDisk (state S.Store conn.new) → OnOk result
        ((i : Inventory) → IsStateOf i (state S.Store conn.old).now → HoldsOpen StandsFor (state S.Store conn.new) i) }
    ensures ours { HasCleanDisk (state S.Store conn.new) → OnOk result (HasOwnTables (state S.Store conn.new).now) }
    ensures same { HasCleanDisk (state S.Store conn.new) → OnOk result
        (¬ IsBlank (state S.Store conn.old).now → IsUnchanged (state S.Store conn.old) (state S.Store conn.new)) }
    ensures other { HasCleanDisk (state S.Store conn.new) → IsErrOf result StoreError.OtherSchema
        → HasOtherNumber (state S.Store conn.old) }
    ensures none { HasCleanDisk (state S.Store conn.new) → IsErrOf result StoreError.NoState
        → HasNoState (state S.Store conn.old) }
    ensures unchanged { HasCleanDisk (state S.Store conn.new) → IsTrue (state S.Store conn.new).is_open
        → OnErr result ((state S.Store conn.new).committed ≡ (state S.Store conn.old).committed) }
    ensures is_open { HasCleanDisk (state S.Store conn.new) → OnOk result (IsTrue (state S.Store conn.new).is_open) }
    ensures was_open { HasCleanDisk (state S.Store conn.new) → IsTrue (state S.Store conn.new).is_open
        → IsTrue (state S.Store conn.old).is_open }
    ensures live { IsLive (state S.Store conn.old) }
    ensures crash { Survives (state S.Store conn.old) (state S.Store conn.new) (IsSetUp (state S.Store conn.old).now) }
    ensures mode { conn.new.in_transaction ≡ false }
{
    if conn.is_autocommit() && is_blank(conn.schema()) {
        create_store(conn)?;
        return Ok(());
    }
    recognize_store(alloc, conn)
}
